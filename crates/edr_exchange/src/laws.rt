//! Laws over both ends of a connection.
ghost use Rattle.edr_exchange.specs.Laws.{WrittenQueriesAreAsked, FirstDataIsHeard, FirstRefusalIsHeard, RefusedRequestsAreHeard};

use edr_client::{written_documents_are_heard, written_refusals_are_heard};
use edr_plan::documents_are_valid;
use edr_query::{target_is_one, written_queries_read_back};

/// The target that the client writes of a query asks the server for that query, and for nothing else.
pub fn written_queries_are_asked()
    ensures { WrittenQueriesAreAsked }
{
    target_is_one();
    written_queries_read_back();
}

/// What the server replies by GET to a query that no refusal applies to is heard by the client as the document of that query in
/// the edition, with its number; the replies to the requests behind it follow. The client reads no longer documents than
/// 67,108,864 bytes.
pub fn first_data_is_heard()
    ensures { FirstDataIsHeard }
{
    documents_are_valid();
    written_documents_are_heard();
}

/// What the server replies by GET to a page that an edition refuses is heard by the client as no data, with the status and the code
/// of the refusal; the replies to the requests behind it follow.
pub fn first_refusal_is_heard()
    ensures { FirstRefusalIsHeard }
{
    written_refusals_are_heard();
}

/// What the server replies to a request that is refused before an edition is read is heard likewise, where its method isn't HEAD.
pub fn refused_requests_are_heard()
    ensures { RefusedRequestsAreHeard }
{
    written_refusals_are_heard();
}
