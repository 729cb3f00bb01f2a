//! Replies.
ghost use Rattle.std.specs.Prelude.{◌≡◌, [], IsErrOf};
ghost use Rattle.edr_base.specs.Outside.{Rose};
ghost use Rattle.edr_base.specs.Calls.{SinkLent, Writes};
ghost use Rattle.covjson_value.specs.Trees.{document_text};
ghost use Rattle.edr_select.specs.Selections.{needed};
ghost use Rattle.edr_select.specs.Documents.{document};
ghost use Rattle.edr_select.specs.Plans.{StandsFor};
ghost use Rattle.edr_send.specs.Sending.{Opens};
ghost use Rattle.edr_select.specs.declared.plans.Reply.TheVariants as replies;

use crate::bands::rising_coverage;
use crate::documents::send_document;
use crate::gathering::gather;
use edr_base::{SendFault, Sink};
use edr_chunk::{numbers_tell_places, tiles_are_numbered};
use edr_edition::Store;
use edr_select::{
    Listing, Plan, Reply, framing_stands, listing_stands, series_reply_stands, stacking_stands,
};
use std::alloc::Global;

// Writes a reply whose values are listed, which are read before.
fn send_gathered<K: Sink>(
    alloc: Global,
    plan: &Plan,
    listing: &Listing,
    store: &mut Store<'_>,
    sink: &mut K,
) -> Result<(), SendFault>
    requires listed { plan.now.reply ≡ replies.Listed listing.now }
    requires stands { StandsFor plan.now store.old.subject }
    requires unread { store.old.numbers ≡ [] }
    ensures text { Writes result (document_text (document store.old.subject plan.now.query)) (K.written sink.old) (K.written sink.new) }
    ensures reads { Opens result (needed store.old.subject plan.now.query) store.new.numbers }
    ensures subject { store.new.subject ≡ store.old.subject }
    ensures lent { SinkLent (K.beside sink.old) (K.beside sink.new) (K.faults sink.old) (K.faults sink.new) }
    ensures cause { IsErrOf result SendFault.WriteFault → Rose (K.faults sink.old) (K.faults sink.new) }
{
    listing_stands(listing);
    store.subject_stands();
    let gathered = gather(alloc, listing, store)?;
    send_document(alloc, plan, &gathered, store, sink)
}

// Writes a reply whose values are listed: as they are read where the tiles rise in the order of the text, and else behind all reads.
fn send_listed<K: Sink>(
    alloc: Global,
    plan: &Plan,
    listing: &Listing,
    store: &mut Store<'_>,
    sink: &mut K,
) -> Result<(), SendFault>
    requires listed { plan.now.reply ≡ replies.Listed listing.now }
    requires stands { StandsFor plan.now store.old.subject }
    requires unread { store.old.numbers ≡ [] }
    ensures text { Writes result (document_text (document store.old.subject plan.now.query)) (K.written sink.old) (K.written sink.new) }
    ensures reads { Opens result (needed store.old.subject plan.now.query) store.new.numbers }
    ensures subject { store.new.subject ≡ store.old.subject }
    ensures lent { SinkLent (K.beside sink.old) (K.beside sink.new) (K.faults sink.old) (K.faults sink.new) }
    ensures cause { IsErrOf result SendFault.WriteFault → Rose (K.faults sink.old) (K.faults sink.new) }
{
    listing_stands(listing);
    store.subject_stands();
    tiles_are_numbered();
    numbers_tell_places();
    match rising_coverage(listing) {
        Some(_) => send_document(alloc, plan, listing, store, sink),
        None => send_gathered(alloc, plan, listing, store, sink),
    }
}

/// Writes the reply that is planned: the text of its CoverageJSON document (OGC 21-069r2), with the values of the store.
///
/// It opens exactly the chunks that hold a selected sample, in ascending order of their numbers, each once. After a fault a
/// beginning of the text was written, and the first of those chunks were opened.
///
/// Of a disc, of polygons, of a box or of a corridor it keeps the values of one parameter, time and level in one row of tiles at a
/// time, and of stations those of one block. Where another reply is one coverage, and the rows of tiles that its values stand in rise along
/// the text, it keeps 1,024 values at a time and those up to the end of the last one's row; else all values of the reply.
pub fn send<K: Sink>(
    alloc: Global,
    plan: &Plan,
    store: &mut Store<'_>,
    sink: &mut K,
) -> Result<(), SendFault>
    requires stands { StandsFor plan.now store.old.subject }
    requires unread { store.old.numbers ≡ [] }
    ensures text { Writes result (document_text (document store.old.subject plan.now.query)) (K.written sink.old) (K.written sink.new) }
    ensures reads { Opens result (needed store.old.subject plan.now.query) store.new.numbers }
    ensures subject { store.new.subject ≡ store.old.subject }
    ensures lent { SinkLent (K.beside sink.old) (K.beside sink.new) (K.faults sink.old) (K.faults sink.new) }
    ensures cause { IsErrOf result SendFault.WriteFault → Rose (K.faults sink.old) (K.faults sink.new) }
{
    store.subject_stands();
    tiles_are_numbered();
    numbers_tell_places();
    match plan.reply() {
        Reply::Listed(listing) => send_listed(alloc, plan, listing, store, sink),
        Reply::Framed(framing) => {
            framing_stands(framing);
            send_document(alloc, plan, framing, store, sink)
        }
        Reply::Stacked(stacking) => {
            stacking_stands(stacking);
            send_document(alloc, plan, stacking, store, sink)
        }
        Reply::Series(reply) => {
            series_reply_stands(reply);
            send_document(alloc, plan, reply, store, sink)
        }
    }
}
