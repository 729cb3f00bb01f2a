//! The document of a reply, written coverage by coverage, range by range.
ghost use Rattle.std.specs.Prelude.{◌≡◌, ◌<◌, ◌++◌, true, false, length, All, OnOk, IsErrOf};
ghost use Rattle.edr_base.specs.Outside.{Rose};
ghost use Rattle.edr_base.specs.Calls.{SinkLent, Writes};
ghost use Rattle.covjson_value.specs.Trees.{document_text};
ghost use Rattle.covjson_write.specs.declared.stages.Stage.TheVariants.{Ready, Within, Open};
ghost use Rattle.covjson_write.specs.Pieces.{is_later, values_from, range_end, range_piece, ranges_from, coverages_from, document_begin, document_end};
ghost use Rattle.covjson_write.specs.Writers.{without_range};
ghost use Rattle.edr_select.specs.Selections.{needed};
ghost use Rattle.edr_select.specs.Documents.{document};
ghost use Rattle.edr_send.specs.Filling.{Adds};
ghost use Rattle.edr_send.specs.Sending.{Opens};
ghost use Rattle.edr_send.specs.SentReplies.{ranges_at, range_at, chunks_of, chunks_at, in_a_row, all_chunks, HasRange, HasRanges, text_at, CanBeSent, IsReplyOf};

use crate::coverages::{Buffers, Coverages, RangePlace};
use covjson_write::{Writer, document_of_pieces};
use edr_base::{SendFault, Sink};
use edr_edition::Store;
use edr_select::Plan;
use std::alloc::Global;

// Writes the values of the open range of a place, and the end of it.
#[tactic(auto, using(edr_base::specs::KnownBytes::writes_stop))]
fn fill_range<C: Coverages, K: Sink>(
    coverages: &C,
    place: RangePlace,
    store: &mut Store<'_>,
    writer: &mut Writer,
    sink: &mut K,
    buffers: &mut Buffers,
) -> Result<(), SendFault>
    requires over { C.over coverages.now store.old.subject.held }
    requires range { HasRange (C.sent coverages.now store.old.subject.held) place.coverage
        place.range writer.old.head.count }
    requires open { writer.old.stage ≡ Open }
    requires none { writer.old.values ≡ 0 }
    requires one { writer.old.ranges < length writer.old.head.keys }
    ensures bytes { Writes result (values_from 0
        (range_at (C.sent coverages.now store.old.subject.held) place.coverage place.range).values
        ++ range_end writer.old.head writer.old.ranges) (K.written sink.old) (K.written sink.new) }
    ensures writer { OnOk result (writer.new ≡ without_range writer.old) }
    ensures reads { Adds result (chunks_at (C.sent coverages.now store.old.subject.held)
        place.coverage place.range) store.old.numbers store.new.numbers }
    ensures subject { store.new.subject ≡ store.old.subject }
    ensures lent { SinkLent (K.beside sink.old) (K.beside sink.new) (K.faults sink.old)
        (K.faults sink.new) }
    ensures cause { IsErrOf result SendFault.WriteFault → Rose (K.faults sink.old)
        (K.faults sink.new) }
{
    coverages.send_values(place, store, writer, sink, buffers)?;
    writer.range_end(sink)
}

// Writes the range of a place.
#[tactic(auto, using(edr_base::specs::KnownBytes::writes_stop))]
fn send_range<C: Coverages, K: Sink>(
    coverages: &C,
    place: RangePlace,
    store: &mut Store<'_>,
    writer: &mut Writer,
    sink: &mut K,
    buffers: &mut Buffers,
) -> Result<(), SendFault>
    requires over { C.over coverages.now store.old.subject.held }
    requires range { HasRange (C.sent coverages.now store.old.subject.held) place.coverage
        place.range writer.old.head.count }
    requires within { writer.old.stage ≡ Within }
    requires next { place.range ≡ writer.old.ranges }
    requires one { place.range < length writer.old.head.keys }
    ensures bytes { Writes result (range_piece writer.old.head place.range
        (range_at (C.sent coverages.now store.old.subject.held) place.coverage place.range).values)
        (K.written sink.old) (K.written sink.new) }
    ensures writer { OnOk result (writer.new ≡ without_range writer.old) }
    ensures reads { Adds result (chunks_at (C.sent coverages.now store.old.subject.held)
        place.coverage place.range) store.old.numbers store.new.numbers }
    ensures subject { store.new.subject ≡ store.old.subject }
    ensures lent { SinkLent (K.beside sink.old) (K.beside sink.new) (K.faults sink.old)
        (K.faults sink.new) }
    ensures cause { IsErrOf result SendFault.WriteFault → Rose (K.faults sink.old)
        (K.faults sink.new) }
{
    writer.range_begin(buffers.alloc, sink, place.range)?;
    fill_range(coverages, place, store, writer, sink, buffers)
}

// Writes the ranges of the coverage of a number, which has so many.
fn send_ranges<C: Coverages, K: Sink>(
    coverages: &C,
    number: usize,
    count: usize,
    store: &mut Store<'_>,
    writer: &mut Writer,
    sink: &mut K,
    buffers: &mut Buffers,
) -> Result<(), SendFault>
    requires over { C.over coverages.now store.old.subject.held }
    requires ranges { HasRanges (C.sent coverages.now store.old.subject.held) number count
        writer.old.head.count }
    requires within { writer.old.stage ≡ Within }
    requires none { writer.old.ranges ≡ 0 }
    requires some { 0 < count }
    requires each { length writer.old.head.keys ≡ count }
    ensures bytes { Writes result (ranges_from writer.old.head 0
        (ranges_at (C.sent coverages.now store.old.subject.held) number)) (K.written sink.old)
        (K.written sink.new) }
    ensures stage { OnOk result (writer.new.stage ≡ Ready) }
    ensures many { OnOk result (writer.new.many ≡ writer.old.many) }
    ensures begun { OnOk result (writer.new.begun ≡ writer.old.begun) }
    ensures reads { Adds result (in_a_row
        (chunks_of (C.sent coverages.now store.old.subject.held) number)) store.old.numbers
        store.new.numbers }
    ensures subject { store.new.subject ≡ store.old.subject }
    ensures lent { SinkLent (K.beside sink.old) (K.beside sink.new) (K.faults sink.old)
        (K.faults sink.new) }
    ensures cause { IsErrOf result SendFault.WriteFault → Rose (K.faults sink.old)
        (K.faults sink.new) }
{
    for range in 0..count {
        let place = RangePlace {
            coverage: number,
            range,
        };
        send_range(coverages, place, store, writer, sink, buffers)?;
    }
    Ok(())
}

// Writes the coverage of a number.
#[tactic(auto, using(edr_base::specs::KnownBytes::writes_stop))]
fn send_coverage<C: Coverages, K: Sink>(
    coverages: &C,
    number: usize,
    store: &mut Store<'_>,
    writer: &mut Writer,
    sink: &mut K,
    buffers: &mut Buffers,
) -> Result<(), SendFault>
    requires over { C.over coverages.now store.old.subject.held }
    requires number { number < C.size coverages.now }
    requires valid { CanBeSent (C.sent coverages.now store.old.subject.held) }
    requires ready { writer.old.stage ≡ Ready }
    requires begun { writer.old.begun ≡ is_later number }
    requires one { writer.old.many ≡ false → writer.old.begun ≡ false }
    ensures bytes { Writes result (text_at (C.sent coverages.now store.old.subject.held) number)
        (K.written sink.old) (K.written sink.new) }
    ensures stage { OnOk result (writer.new.stage ≡ Ready) }
    ensures many { OnOk result (writer.new.many ≡ writer.old.many) }
    ensures begun { OnOk result (writer.new.begun ≡ true) }
    ensures reads { Adds result (in_a_row
        (chunks_of (C.sent coverages.now store.old.subject.held) number)) store.old.numbers
        store.new.numbers }
    ensures subject { store.new.subject ≡ store.old.subject }
    ensures lent { SinkLent (K.beside sink.old) (K.beside sink.new) (K.faults sink.old)
        (K.faults sink.new) }
    ensures cause { IsErrOf result SendFault.WriteFault → Rose (K.faults sink.old)
        (K.faults sink.new) }
{
    let head = coverages.head(number);
    let count = head.parameters.items().len();
    writer.coverage(buffers.alloc, sink, head)?;
    send_ranges(coverages, number, count, store, writer, sink, buffers)
}

// Writes the coverages one after another.
fn send_coverages<C: Coverages, K: Sink>(
    coverages: &C,
    store: &mut Store<'_>,
    writer: &mut Writer,
    sink: &mut K,
    buffers: &mut Buffers,
) -> Result<(), SendFault>
    requires over { C.over coverages.now store.old.subject.held }
    requires valid { CanBeSent (C.sent coverages.now store.old.subject.held) }
    requires ready { writer.old.stage ≡ Ready }
    requires none { writer.old.begun ≡ false }
    requires many { writer.old.many ≡ (C.sent coverages.now store.old.subject.held).many }
    ensures bytes { Writes result (coverages_from 0
        (C.sent coverages.now store.old.subject.held).coverages) (K.written sink.old)
        (K.written sink.new) }
    ensures stage { OnOk result (writer.new.stage ≡ Ready) }
    ensures many { OnOk result (writer.new.many ≡ writer.old.many) }
    ensures begun { OnOk result (writer.old.many ≡ false → writer.new.begun ≡ true) }
    ensures reads { Adds result (all_chunks (C.sent coverages.now store.old.subject.held))
        store.old.numbers store.new.numbers }
    ensures subject { store.new.subject ≡ store.old.subject }
    ensures lent { SinkLent (K.beside sink.old) (K.beside sink.new) (K.faults sink.old)
        (K.faults sink.new) }
    ensures cause { IsErrOf result SendFault.WriteFault → Rose (K.faults sink.old)
        (K.faults sink.new) }
{
    for number in 0..coverages.count() {
        send_coverage(coverages, number, store, writer, sink, buffers)?;
    }
    Ok(())
}

// Writes the coverages and the end of the document.
#[tactic(auto, using(edr_base::specs::KnownBytes::writes_stop))]
fn send_rest<C: Coverages, K: Sink>(
    alloc: Global,
    coverages: &C,
    store: &mut Store<'_>,
    writer: Writer,
    sink: &mut K,
) -> Result<(), SendFault>
    requires over { C.over coverages.now store.old.subject.held }
    requires valid { CanBeSent (C.sent coverages.now store.old.subject.held) }
    requires ready { writer.stage ≡ Ready }
    requires none { writer.begun ≡ false }
    requires many { writer.many ≡ (C.sent coverages.now store.old.subject.held).many }
    ensures bytes { Writes result (coverages_from 0
        (C.sent coverages.now store.old.subject.held).coverages ++ document_end
        (C.sent coverages.now store.old.subject.held).many) (K.written sink.old)
        (K.written sink.new) }
    ensures reads { Adds result (all_chunks (C.sent coverages.now store.old.subject.held))
        store.old.numbers store.new.numbers }
    ensures subject { store.new.subject ≡ store.old.subject }
    ensures lent { SinkLent (K.beside sink.old) (K.beside sink.new) (K.faults sink.old)
        (K.faults sink.new) }
    ensures cause { IsErrOf result SendFault.WriteFault → Rose (K.faults sink.old)
        (K.faults sink.new) }
{
    let mut writer = writer;
    let mut buffers = Buffers::new(alloc);
    send_coverages(coverages, store, &mut writer, sink, &mut buffers)?;
    writer.finish(sink)
}

// Writes the document of the reply that is planned, whose coverages these are. Each chunk is opened as its range is written.
#[tactic(auto, using(edr_base::specs::KnownBytes::writes_stop))]
pub(crate) fn send_document<C: Coverages, K: Sink>(
    alloc: Global,
    plan: &Plan,
    coverages: &C,
    store: &mut Store<'_>,
    sink: &mut K,
) -> Result<(), SendFault>
    requires over { C.over coverages.now store.old.subject.held }
    requires reply { IsReplyOf (C.sent coverages.now store.old.subject.held) store.old.numbers
        (document store.old.subject plan.now.query) (needed store.old.subject plan.now.query) }
    ensures text { Writes result (document_text (document store.old.subject plan.now.query))
        (K.written sink.old) (K.written sink.new) }
    ensures reads { Opens result (needed store.old.subject plan.now.query) store.new.numbers }
    ensures subject { store.new.subject ≡ store.old.subject }
    ensures lent { SinkLent (K.beside sink.old) (K.beside sink.new) (K.faults sink.old)
        (K.faults sink.new) }
    ensures cause { IsErrOf result SendFault.WriteFault → Rose (K.faults sink.old)
        (K.faults sink.new) }
{
    document_of_pieces();
    let writer = Writer::begin(alloc, sink, coverages.are_many())?;
    send_rest(alloc, coverages, store, writer, sink)
}
