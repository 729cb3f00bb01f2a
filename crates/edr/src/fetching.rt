//! Fetches URLs.
ghost use Rattle.std.specs.Prelude.{◌≡◌, ◌⊎◌, [], false, IfSome, IsNone, option_map};
ghost use Rattle.edr_base.specs.Calls.{SinkLent};
ghost use Rattle.edr_fetch.specs.Requests.{request_of, request_text};
ghost use Rattle.edr_fetch.specs.Exchanges.{LinkKept};
ghost use Rattle.edr.specs.Documents.{IsTableHeard, IsTableBegun};
ghost use Rattle.edr.specs.Links.{peer_of, LinkEnds};
ghost use Rattle.edr.specs.Ends.{OutputEnds, AskedBeside, status_of};
ghost use Rattle.edr.specs.Explaining.{IfAsked, ExplainsReply};
ghost use Rattle.edr.specs.Fetching.{FetchCause, IsBeforeOutput, fetch_ends};

use crate::endings::{DocumentRefusal, Ending};
use crate::explaining::explain_reply;
use crate::tabling::tabled;
use edr_base::{Link, Sink, Text};
use edr_fetch::{FetchFault, fetch, request_of};
use std::alloc::Global;

// How a run ends where no reply of data is read.
fn ending_of(fault: &FetchFault) -> Ending
    ensures { result ≡ fetch_ends fault.now }
{
    match fault {
        FetchFault::ConnectFault => Ending::ConnectFault,
        FetchFault::WriteFault => Ending::WriteFault,
        FetchFault::ReadFault => Ending::ReadFault,
        FetchFault::BadReply(_) => Ending::NoDocument(DocumentRefusal::BadReply),
        FetchFault::NotData(status, _) => Ending::NoDocument(DocumentRefusal::NotData(*status)),
        FetchFault::Cov(_) => Ending::NoDocument(DocumentRefusal::Cov),
        FetchFault::OutOfMemory => Ending::OutOfMemory,
    }
}

/// Asks the server that a URL names, and writes the table of the document that it replies. A word that is no URL of the scheme
/// http ends with `Usage`, and the link is left as it is. Where there is no reply of data, and that is asked for, it is explained
/// why.
#[tactic(auto, using(crate::proofs::ExplainLemmas::if_asked))]
pub fn fetch_url<K: Sink, L: Link>(
    alloc: Global,
    why: bool,
    url: &[u8],
    output: &mut K,
    link: &mut L,
    explained: &mut Text,
) -> Ending
    requires { explained.old ≡ [] }
    ensures argument { IsNone (request_of url.now) → (result ≡ Ending.Usage) ⊎ (result ≡ Ending.OutOfMemory) }
    ensures output { OutputEnds result false (IsTableHeard (L.aside link.old).incoming) (IsTableBegun (L.aside link.old).incoming)
        (K.written output.old) (K.written output.new) (K.flushed output.new) }
    ensures cause { FetchCause result url.now (L.aside link.old).incoming
        (record { input = 0; output = K.faults output.old; files = 0; link = L.faults link.old; closed = false; unconnected = (L.aside link.old).idle })
        (record { input = 0; output = K.faults output.new; files = 0; link = L.faults link.new; closed = false; unconnected = (L.aside link.new).idle }) }
    ensures exchange { IfSome (request_of url.now) (λ request. LinkEnds result (request_text request) (L.aside link.old).incoming
        (K.faults output.old) (K.faults output.new)
        (record { idle = (L.aside link.old).idle; left = L.left link.old; written = L.written link.old; flushed = L.flushed link.old; faults = L.faults link.old })
        (record { idle = (L.aside link.new).idle; left = L.left link.new; written = L.written link.new; flushed = L.flushed link.new; faults = L.faults link.new })) }
    ensures explains { IfAsked why (ExplainsReply result (L.aside link.old).incoming) explained.new }
    ensures asked { AskedBeside L.aside (option_map peer_of (request_of url.now)) (status_of result) link.old link.new }
    ensures before { IsBeforeOutput result → output.new ≡ output.old }
    ensures kept { LinkKept (L.aside link.old) (L.aside link.new) (L.faults link.old) (L.faults link.new) }
    ensures lent { SinkLent (K.beside output.old) (K.beside output.new) (K.faults output.old) (K.faults output.new) }
{
    let request = match request_of(alloc, url) {
        Ok(Some(request)) => request,
        Ok(None) => return Ending::Usage,
        Err(_) => return Ending::OutOfMemory,
    };
    match fetch(alloc, &request, link) {
        Ok(reply) => tabled(alloc, &reply.document, output),
        Err(fault) => {
            if explain_reply(alloc, why, &fault, explained).is_err() {
                return Ending::OutOfMemory;
            }
            ending_of(&fault)
        }
    }
}
