//! Laws of replies.
ghost use Rattle.edr_client.specs.Laws.{OneIsHeard, WrittenDocumentsAreHeard, WrittenRefusalsAreHeard};

use covjson_read::{
    document_rows_have_one_answer, texts_have_one_document, written_documents_are_read,
};
use edr_json::texts_have_one_tree;
use edr_reply::{break_is_one, broken_is_none, message_is_one, written_replies_are_read};

/// In some bytes at most one thing is heard: one reply of data, or one reason that there is none.
pub fn one_is_heard()
    ensures { OneIsHeard }
{
    message_is_one();
    break_is_one();
    broken_is_none();
    texts_have_one_tree();
    texts_have_one_document();
    document_rows_have_one_answer();
}

/// What the server writes of a valid document, with the number of its edition, is heard as these.
pub fn written_documents_are_heard()
    ensures { WrittenDocumentsAreHeard }
{
    written_documents_are_read();
    written_replies_are_read();
}

/// What the server writes of a refusal, from an edition or from none, is heard as no data, with its status and its code.
pub fn written_refusals_are_heard()
    ensures { WrittenRefusalsAreHeard }
{
    written_replies_are_read();
}
