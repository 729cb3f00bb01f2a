//! The pieces of a document round its values, each written at once.
ghost use Rattle.std.specs.Prelude.{◌≡◌, ◌+◌, ◌<◌, ◌++◌, if◌then◌else◌, codes, length, IfOk, IsErrOf, []};
ghost use Rattle.edr_base.specs.Outside.{Rose};
ghost use Rattle.edr_base.specs.Calls.{SinkLent, Writes};
ghost use Rattle.serde_json.specs.Written.{comma_if};
ghost use Rattle.covjson_write.specs.Pieces.{head_of, coverage_begin, coverage_end, document_begin, document_end};
ghost use Rattle.covjson_write.specs.Writers.{IsHead};

use crate::axis_texts::opening_text;
use crate::heads::{coverage_text, keys_of, range_text};
use crate::places::{place_comma, place_slice};
use crate::range_heads::RangeHead;
use covjson_value::Coverage;
use edr_base::{OutOfMemory, SendFault, Sink, Text, send};
use std::alloc::Global;

/// What stands before the coverages of a document.
pub fn document_begin(many: bool) -> &'static [u8]
    ensures { result.now ≡ document_begin many }
{
    if many { b"{\"coverages\":[" } else { b"" }
}

/// What stands behind them.
pub fn document_end(many: bool) -> &'static [u8]
    ensures { result.now ≡ document_end many }
{
    if many {
        b"],\"type\":\"CoverageCollection\"}"
    } else {
        b""
    }
}

/// What stands behind the values of a range, which is the last of its coverage or not.
pub fn values_end(last: bool) -> &'static [u8]
    ensures { result.now ≡ codes "]}" ++ (if last then coverage_end else []) }
{
    if last {
        b"]}},\"type\":\"Coverage\"}"
    } else {
        b"]}"
    }
}

// What is kept of a head.
fn range_head(alloc: Global, head: &Coverage) -> Result<RangeHead, OutOfMemory>
    requires { IsHead head.now }
    ensures { IfOk result (λ kept. kept ≡ head_of head.now) }
{
    let Some(count) = head.domain.count() else {
        return Err(OutOfMemory);
    };
    let keys = keys_of(alloc, head.parameters.items())?;
    let opening = opening_text(alloc, &head.domain)?;
    Ok(RangeHead {
        keys,
        opening,
        count,
    })
}

// Writes a coverage as far as its ranges.
#[tactic(auto, using(crate::proofs::SendLemmas::writes_nothing))]
fn send_head<K: Sink>(
    alloc: Global,
    sink: &mut K,
    later: bool,
    head: &Coverage,
) -> Result<(), SendFault>
    requires { IsHead head.now }
    ensures bytes { Writes result (comma_if later ++ coverage_begin head.now) (K.written sink.old) (K.written sink.new) }
    ensures flushed { K.flushed sink.new ≡ K.flushed sink.old }
    ensures lent { SinkLent (K.beside sink.old) (K.beside sink.new) (K.faults sink.old) (K.faults sink.new) }
    ensures cause { IsErrOf result SendFault.WriteFault → Rose (K.faults sink.old) (K.faults sink.new) }
{
    let text = coverage_text(alloc, later, head)?;
    send(sink, &text)
}

/// Writes a coverage as far as its ranges, and answers what is kept of it for these.
#[tactic(auto, using(crate::proofs::SendLemmas::writes_nothing))]
pub fn send_coverage<K: Sink>(
    alloc: Global,
    sink: &mut K,
    later: bool,
    head: &Coverage,
) -> Result<RangeHead, SendFault>
    requires { IsHead head.now }
    ensures kept { IfOk result (λ kept. kept ≡ head_of head.now) }
    ensures bytes { Writes result (comma_if later ++ coverage_begin head.now) (K.written sink.old) (K.written sink.new) }
    ensures flushed { K.flushed sink.new ≡ K.flushed sink.old }
    ensures lent { SinkLent (K.beside sink.old) (K.beside sink.new) (K.faults sink.old) (K.faults sink.new) }
    ensures cause { IsErrOf result SendFault.WriteFault → Rose (K.faults sink.old) (K.faults sink.new) }
{
    let kept = range_head(alloc, head)?;
    send_head(alloc, sink, later, head)?;
    Ok(kept)
}

// A range's key and its opening that are shorter are put together without taking memory.
const SHORT_RANGE: usize = 256;

// Writes a short range as far as its values.
fn send_short_range<K: Sink>(
    sink: &mut K,
    later: bool,
    key: &[u8],
    opening: &[u8],
) -> Result<(), SendFault>
    requires { length key.now + length opening.now < 256 }
    ensures bytes { Writes result (comma_if later ++ (key.now ++ opening.now)) (K.written sink.old) (K.written sink.new) }
    ensures flushed { K.flushed sink.new ≡ K.flushed sink.old }
    ensures lent { SinkLent (K.beside sink.old) (K.beside sink.new) (K.faults sink.old) (K.faults sink.new) }
    ensures cause { IsErrOf result SendFault.WriteFault → Rose (K.faults sink.old) (K.faults sink.new) }
{
    let mut piece = [0; SHORT_RANGE];
    let start = place_comma(&mut piece, 0, later);
    let middle = place_slice(&mut piece, start, key);
    let end = place_slice(&mut piece, middle, opening);
    send(sink, &piece[..end])
}

/// Writes a range as far as its values.
#[tactic(auto, using(crate::proofs::SendLemmas::writes_nothing))]
pub fn send_range<K: Sink>(
    alloc: Global,
    sink: &mut K,
    later: bool,
    key: &Text,
    opening: &Text,
) -> Result<(), SendFault>
    ensures bytes { Writes result (comma_if later ++ (key.now ++ opening.now)) (K.written sink.old) (K.written sink.new) }
    ensures flushed { K.flushed sink.new ≡ K.flushed sink.old }
    ensures lent { SinkLent (K.beside sink.old) (K.beside sink.new) (K.faults sink.old) (K.faults sink.new) }
    ensures cause { IsErrOf result SendFault.WriteFault → Rose (K.faults sink.old) (K.faults sink.new) }
{
    let (name, begin) = (key.bytes(), opening.bytes());
    if name.len() < SHORT_RANGE && begin.len() < SHORT_RANGE - name.len() {
        return send_short_range(sink, later, name, begin);
    }
    let text = range_text(alloc, later, key, opening)?;
    send(sink, &text)
}
