//! Data in chunks.
ghost use Rattle.std.specs.Prelude.{◌≡◌, [], IsErrOf};
ghost use Rattle.edr_base.specs.Outside.{Rose};
ghost use Rattle.edr_base.specs.Calls.{SinkLent, Writes};
ghost use Rattle.covjson_value.specs.Trees.{document_text};
ghost use Rattle.edr_select.specs.Selections.{needed};
ghost use Rattle.edr_select.specs.Documents.{document};
ghost use Rattle.edr_select.specs.Plans.{StandsFor};
ghost use Rattle.edr_send.specs.Sending.{Opens};
ghost use Rattle.edr_http.specs.Chunks.{chunked};

use edr_base::{Lent, SendFault, Sink};
use edr_edition::Store;
use edr_http::ChunkedSink;
use edr_select::Plan;
use edr_send::send;
use std::alloc::Global;

/// Writes the document that is planned as a whole body in chunks (RFC 9112, section 7.1), with the values of the store.
///
/// It opens exactly the chunks of the store that hold a selected sample, in ascending order of their numbers, each once. After
/// a fault a beginning of the body was written, and the first of those chunks were opened.
#[tactic(auto, using(crate::proofs::OpenedChunks::opens_as, edr_base::specs::LentParts::held_name, edr_base::specs::LentParts::held_below))]
pub(crate) fn send_in_chunks<K: Sink>(
    alloc: Global,
    plan: &Plan,
    store: &mut Store<'_>,
    sink: &mut K,
) -> Result<(), SendFault>
    requires stands { StandsFor plan.now store.old.subject }
    requires unread { store.old.numbers ≡ [] }
    ensures text { Writes result (chunked (document_text (document store.old.subject plan.now.query))) (K.written sink.old) (K.written sink.new) }
    ensures reads { Opens result (needed store.old.subject plan.now.query) store.new.numbers }
    ensures subject { store.new.subject ≡ store.old.subject }
    ensures lent { SinkLent (K.beside sink.old) (K.beside sink.new) (K.faults sink.old) (K.faults sink.new) }
    ensures cause { IsErrOf result SendFault.WriteFault → Rose (K.faults sink.old) (K.faults sink.new) }
{
    let mut layer = ChunkedSink::of(Lent::of(sink));
    let outcome = send(alloc, plan, store, &mut layer);
    layer.end_after(outcome)
}
