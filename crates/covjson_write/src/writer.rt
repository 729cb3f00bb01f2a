//! Documents written in pieces.
ghost use Rattle.std.specs.Prelude.{◌≡◌, ◌≤◌, ◌<◌, ◌+◌, ◌++◌, true, false, length, IfOk, OnOk, OnErr, IsErrOf};
ghost use Rattle.edr_base.specs.Outside.{Rose};
ghost use Rattle.edr_base.specs.Calls.{SinkLent, Writes};
ghost use Rattle.serde_json.specs.Written.{comma_if};
ghost use Rattle.covjson_write.specs.declared.stages.Stage.TheVariants.{Ready, Within, Open, Failed};
ghost use Rattle.covjson_write.specs.Pieces.{values_from, range_begin, range_end, coverage_begin, document_begin, document_end};

use crate::range_heads::RangeHead;
use crate::sending::{document_begin, document_end, send_coverage, send_range, values_end};
use crate::stages::Stage;
use crate::values::send_values;
use covjson_value::Coverage;
use edr_base::{Items, SendFault, Sink, Text, send};
use std::alloc::Global;
use std::marker::Model;

/// Writes the text of a document (OGC 21-069r2, Coverage and CoverageCollection objects) in pieces: its coverages one after
/// another, of each its ranges in the order of its parameters, of each range its values. It keeps the keys of the present
/// coverage's ranges and no value, and holds no sink: each call is lent one, which has to be the same for the text to be
/// in one place.
///
/// A call that ends by a fault has written a beginning of its piece, and nothing more can be written after it.
#[derive(Drop)]
pub struct Writer {
    many: bool,
    begun: bool,
    stage: Stage,
    head: RangeHead,
    ranges: usize,
    values: usize,
}

impl Model for Writer {
    ghost use Rattle.covjson_write.specs.Writers.{WriterValue};

    ghost Value = { WriterValue };

    ghost view = { λ writer. record {
      many = writer.many;
      begun = writer.begun;
      stage = writer.stage;
      head = writer.head;
      ranges = writer.ranges;
      values = writer.values;
    } };
}

// A sum that is no more than a count.
fn added(number: usize, more: usize, count: usize) -> usize
    requires { number + more ≤ count }
    ensures { result ≡ number + more }
{
    number + more
}

impl Writer {
    ghost use Rattle.covjson_write.specs.Writers.{IsHead, started, with_coverage, with_range, with_values, without_range};

    /// Begins a document: a collection of coverages if they are to be many, and else one coverage.
    pub fn begin<K: Sink>(alloc: Global, sink: &mut K, many: bool) -> Result<Writer, SendFault>
        ensures writer { IfOk result (λ writer. writer ≡ started many) }
        ensures bytes { Writes result (document_begin many) (K.written sink.old) (K.written sink.new) }
        ensures flushed { K.flushed sink.new ≡ K.flushed sink.old }
        ensures lent { SinkLent (K.beside sink.old) (K.beside sink.new) (K.faults sink.old) (K.faults sink.new) }
        ensures cause { IsErrOf result SendFault.WriteFault → Rose (K.faults sink.old) (K.faults sink.new) }
    {
        send(sink, document_begin(many))?;
        Ok(Writer {
            many,
            begun: false,
            stage: Stage::Ready,
            head: RangeHead {
                keys: Items::of(Vec::new(alloc)),
                opening: Text::from_vec(Vec::new(alloc)),
                count: 0,
            },
            ranges: 0,
            values: 0,
        })
    }

    /// Where it stands.
    pub fn stage(&self) -> Stage
        ensures { result ≡ self.now.stage }
    {
        self.stage
    }

    /// Writes the beginning of a coverage, as far as its ranges. The head is the coverage, whatever its ranges are: it needs
    /// none. A domain of more values than can be counted ends as want of memory.
    pub fn coverage<K: Sink>(
        &mut self,
        alloc: Global,
        sink: &mut K,
        head: &Coverage,
    ) -> Result<(), SendFault>
        requires ready { self.old.stage ≡ Ready }
        requires one { self.old.many ≡ false → self.old.begun ≡ false }
        requires head { IsHead head.now }
        ensures writer { OnOk result (self.new ≡ with_coverage self.old head.now) }
        ensures failed { OnErr result (self.new.stage ≡ Failed) }
        ensures bytes { Writes result (comma_if self.old.begun ++ coverage_begin head.now) (K.written sink.old) (K.written sink.new) }
        ensures flushed { K.flushed sink.new ≡ K.flushed sink.old }
        ensures lent { SinkLent (K.beside sink.old) (K.beside sink.new) (K.faults sink.old) (K.faults sink.new) }
        ensures cause { IsErrOf result SendFault.WriteFault → Rose (K.faults sink.old) (K.faults sink.new) }
    {
        self.stage = Stage::Failed;
        self.head = send_coverage(alloc, sink, self.begun, head)?;
        self.begun = true;
        self.stage = Stage::Within;
        self.ranges = 0;
        self.values = 0;
        Ok(())
    }

    /// Writes the beginning of the next parameter's range, as far as its values. `parameter` is its place among the
    /// parameters.
    pub fn range_begin<K: Sink>(
        &mut self,
        alloc: Global,
        sink: &mut K,
        parameter: usize,
    ) -> Result<(), SendFault>
        requires within { self.old.stage ≡ Within }
        requires next { parameter ≡ self.old.ranges }
        requires one { parameter < length self.old.head.keys }
        ensures writer { OnOk result (self.new ≡ with_range self.old) }
        ensures failed { OnErr result (self.new.stage ≡ Failed) }
        ensures bytes { Writes result (range_begin self.old.head parameter) (K.written sink.old) (K.written sink.new) }
        ensures flushed { K.flushed sink.new ≡ K.flushed sink.old }
        ensures lent { SinkLent (K.beside sink.old) (K.beside sink.new) (K.faults sink.old) (K.faults sink.new) }
        ensures cause { IsErrOf result SendFault.WriteFault → Rose (K.faults sink.old) (K.faults sink.new) }
    {
        let outcome = send_range(
            alloc,
            sink,
            parameter > 0,
            &self.head.keys.items()[parameter],
            &self.head.opening,
        );
        match outcome {
            Ok(()) => {
                self.stage = Stage::Open;
                self.values = 0;
            }
            Err(_) => self.stage = Stage::Failed,
        }
        outcome
    }

    /// Writes the next values of the open range, with null where one is absent. It takes no memory, and gathers pieces of
    /// some thousand bytes for the sink.
    pub fn values<K: Sink>(
        &mut self,
        sink: &mut K,
        samples: &[Option<i64>],
    ) -> Result<(), SendFault>
        requires open { self.old.stage ≡ Open }
        requires room { self.old.values + length samples.now ≤ self.old.head.count }
        ensures writer { OnOk result (self.new ≡ with_values self.old (length samples.now)) }
        ensures failed { OnErr result (self.new.stage ≡ Failed) }
        ensures bytes { Writes result (values_from self.old.values samples.now) (K.written sink.old) (K.written sink.new) }
        ensures flushed { K.flushed sink.new ≡ K.flushed sink.old }
        ensures lent { SinkLent (K.beside sink.old) (K.beside sink.new) (K.faults sink.old) (K.faults sink.new) }
        ensures cause { IsErrOf result SendFault.WriteFault → Rose (K.faults sink.old) (K.faults sink.new) }
    {
        let outcome = send_values(sink, self.values, samples);
        match outcome {
            Ok(()) => self.values = added(self.values, samples.len(), self.head.count),
            Err(_) => self.stage = Stage::Failed,
        }
        outcome
    }

    /// Writes the end of the open range, which has all its values, and the end of the coverage with its last range.
    pub fn range_end<K: Sink>(&mut self, sink: &mut K) -> Result<(), SendFault>
        requires open { self.old.stage ≡ Open }
        requires one { self.old.ranges < length self.old.head.keys }
        requires whole { self.old.values ≡ self.old.head.count }
        ensures writer { OnOk result (self.new ≡ without_range self.old) }
        ensures failed { OnErr result (self.new.stage ≡ Failed) }
        ensures bytes { Writes result (range_end self.old.head self.old.ranges) (K.written sink.old) (K.written sink.new) }
        ensures flushed { K.flushed sink.new ≡ K.flushed sink.old }
        ensures lent { SinkLent (K.beside sink.old) (K.beside sink.new) (K.faults sink.old) (K.faults sink.new) }
        ensures cause { IsErrOf result SendFault.WriteFault → Rose (K.faults sink.old) (K.faults sink.new) }
    {
        let count = self.head.keys.items().len();
        let last = added(self.ranges, 1, count) == count;
        let outcome = send(sink, values_end(last));
        match outcome {
            Ok(()) => {
                self.stage = if last { Stage::Ready } else { Stage::Within };
                self.ranges = added(self.ranges, 1, count);
                self.values = 0;
            }
            Err(_) => self.stage = Stage::Failed,
        }
        outcome
    }

    /// Writes the end of the document. A document that isn't a collection has its one coverage then.
    pub fn finish<K: Sink>(self, sink: &mut K) -> Result<(), SendFault>
        requires ready { self.stage ≡ Ready }
        requires one { self.many ≡ false → self.begun ≡ true }
        ensures bytes { Writes result (document_end self.many) (K.written sink.old) (K.written sink.new) }
        ensures flushed { K.flushed sink.new ≡ K.flushed sink.old }
        ensures lent { SinkLent (K.beside sink.old) (K.beside sink.new) (K.faults sink.old) (K.faults sink.new) }
        ensures cause { IsErrOf result SendFault.WriteFault → Rose (K.faults sink.old) (K.faults sink.new) }
    {
        send(sink, document_end(self.many))
    }
}
