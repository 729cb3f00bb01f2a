//! The coverages of a reply, each with the cells that the values of its ranges are read from.
ghost use Rattle.std.specs.Prelude.{◌≡◌, ◌<◌, ℕ, length, slice_index_or, OnOk, IsErrOf};
ghost use Rattle.edr_base.specs.Outside.{Rose};
ghost use Rattle.edr_base.specs.Calls.{SinkLent, Writes};
ghost use Rattle.covjson_write.specs.declared.stages.Stage.TheVariants.{Open};
ghost use Rattle.covjson_write.specs.Pieces.{values_from};
ghost use Rattle.covjson_write.specs.Writers.{with_values};
ghost use Rattle.edr_edition.specs.Stores.{Held};
ghost use Rattle.edr_send.specs.Filling.{Adds};
ghost use Rattle.edr_send.specs.SentReplies.{SentReply, range_at, chunks_at, HasRange, IsHeadOf};

use crate::slots::Slot;
use covjson_value::Coverage;
use covjson_write::Writer;
use edr_base::{SendFault, Sink};
use edr_edition::Store;
use std::alloc::Global;

// A range of a reply, by the number of its coverage and its own in that, from 0.
#[derive(Clone, Copy, Debug)]
pub(crate) struct RangePlace {
    pub(crate) coverage: usize,
    pub(crate) range: usize,
}

// The memory that values are read into, which is taken again and again.
#[derive(Drop)]
pub(crate) struct Buffers {
    pub(crate) alloc: Global,
    pub(crate) slots: Vec<Slot>,
    pub(crate) values: Vec<Option<i64>>,
}

impl Buffers {
    // Buffers that are empty.
    pub(crate) fn new(alloc: Global) -> Buffers {
        Buffers {
            alloc,
            slots: Vec::new(alloc),
            values: Vec::new(alloc),
        }
    }
}

// The parameter of a range.
pub(crate) fn parameter_at(parameters: &[u64], range: usize) -> u64
    requires { range < length parameters.now }
    ensures { result ≡ slice_index_or parameters.now range 0 }
{
    parameters[range]
}

/// The coverages of a reply, which tell the chunks that are opened for each range and give its values.
pub(crate) trait Coverages {
    /// They can be read from what is held.
    ghost over: { Self → Held → Type 0 };

    /// What is sent where they are read from what is held.
    ghost sent: { Self → Held → SentReply };

    /// How many there are.
    ghost size: { Self → ℕ };

    /// Whether they are a collection.
    fn are_many(&self) -> bool
        ensures { (held : Held) → (sent self.now held).many ≡ result };

    /// How many there are.
    fn count(&self) -> usize
        ensures size { result ≡ size self.now }
        ensures sent { (held : Held) → length (sent self.now held).coverages ≡ result };

    /// The coverage of a number, whatever its ranges are.
    fn head(&self, number: usize) -> &Coverage
        requires { number < size self.now }
        ensures { (held : Held) → IsHeadOf result.now (sent self.now held) number };

    /// Writes the values of the open range, which is that of a place, as they are read.
    fn send_values<K: Sink>(
        &self,
        place: RangePlace,
        store: &mut Store<'_>,
        writer: &mut Writer,
        sink: &mut K,
        buffers: &mut Buffers,
    ) -> Result<(), SendFault>
        requires over { over self.now store.old.subject.held }
        requires range { HasRange (sent self.now store.old.subject.held) place.coverage place.range
            writer.old.head.count }
        requires open { writer.old.stage ≡ Open }
        requires none { writer.old.values ≡ 0 }
        ensures bytes { Writes result (values_from 0
            (range_at (sent self.now store.old.subject.held) place.coverage place.range).values)
            (K.written sink.old) (K.written sink.new) }
        ensures writer { OnOk result (writer.new ≡ with_values writer.old writer.old.head.count) }
        ensures reads { Adds result (chunks_at (sent self.now store.old.subject.held) place.coverage
            place.range) store.old.numbers store.new.numbers }
        ensures subject { store.new.subject ≡ store.old.subject }
        ensures lent { SinkLent (K.beside sink.old) (K.beside sink.new) (K.faults sink.old)
            (K.faults sink.new) }
        ensures cause { IsErrOf result SendFault.WriteFault → Rose (K.faults sink.old)
            (K.faults sink.new) };
}
