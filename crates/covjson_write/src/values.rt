//! The values of ranges, gathered in pieces.
ghost use Rattle.std.specs.Prelude.{◌≡◌, ◌≤◌, ◌<◌, ◌+◌, ◌*◌, ◌++◌, length, take, IfOk, IsErrOf};
ghost use Rattle.edr_base.specs.Outside.{Rose};
ghost use Rattle.edr_base.specs.Calls.{SinkLent, Front, Writes, Gathered};
ghost use Rattle.covjson_write.specs.Pieces.{value_piece, values_from};

use crate::value_texts::{VALUE_SIZE, place_one, place_values};
use edr_base::{SendFault, Sink, send};

// How many bytes are gathered at most.
const PIECE_SIZE: usize = 4096;

// No more values than this are gathered in a smaller piece.
const FEW: usize = 20;

const FEW_SIZE: usize = 512;

// There is room for at least so many bytes whenever values are gathered.
const LEAST_ROOM: usize = 480;

// The place behind what is gathered, after that was written unless there is room behind it. What goes out and what stays
// are what was gathered.
#[tactic(auto, using(crate::proofs::ValueLemmas::all_stays, crate::proofs::ValueLemmas::all_went, edr_base::specs::KnownBytes::front_none))]
fn make_room<K: Sink>(sink: &mut K, piece: &[u8], used: usize) -> Result<usize, SendFault>
    requires within { used ≤ length piece.now }
    requires size { 480 ≤ length piece.now }
    ensures room { IfOk result (λ left. left + 480 ≤ length piece.now) }
    ensures kept { IfOk result (λ left. Gathered (K.written sink.old) (K.written sink.new) (take left piece.now) (take used piece.now)) }
    ensures front { Front (take used piece.now) (K.written sink.old) (K.written sink.new) }
    ensures flushed { K.flushed sink.new ≡ K.flushed sink.old }
    ensures lent { SinkLent (K.beside sink.old) (K.beside sink.new) (K.faults sink.old) (K.faults sink.new) }
    ensures cause { IsErrOf result SendFault.WriteFault → Rose (K.faults sink.old) (K.faults sink.new) }
{
    if piece.len() - used >= LEAST_ROOM {
        return Ok(used);
    }
    send(sink, &piece[..used])?;
    Ok(0)
}

// How many of some values surely fit behind what is gathered.
fn fitting(room: usize, left: usize) -> usize
    requires room { 480 ≤ room }
    requires some { 0 < left }
    ensures some { 0 < result }
    ensures left { result ≤ left }
    ensures fits { 24 * result ≤ room }
{
    (room / VALUE_SIZE).min(left)
}

// Writes what is gathered at the front of a piece, and values behind it, each with a comma before it.
fn send_behind<K: Sink>(
    sink: &mut K,
    piece: &mut [u8],
    gathered: usize,
    samples: &[Option<i64>],
) -> Result<(), SendFault>
    requires within { gathered ≤ length piece.old }
    requires size { 480 ≤ length piece.old }
    ensures bytes { Writes result (take gathered piece.old ++ values_from 1 samples.now) (K.written sink.old) (K.written sink.new) }
    ensures flushed { K.flushed sink.new ≡ K.flushed sink.old }
    ensures lent { SinkLent (K.beside sink.old) (K.beside sink.new) (K.faults sink.old) (K.faults sink.new) }
    ensures cause { IsErrOf result SendFault.WriteFault → Rose (K.faults sink.old) (K.faults sink.new) }
{
    let mut used = gathered;
    let mut done = 0;
    while done < samples.len() {
        let left = make_room(sink, piece, used)?;
        let count = fitting(piece.len() - left, samples.len() - done);
        used = place_values(piece, left, &samples[done..done + count]);
        done += count;
    }
    send(sink, &piece[..used])
}

// Writes values by a piece of memory, the first of them number `number`.
fn send_by<K: Sink>(
    sink: &mut K,
    piece: &mut [u8],
    number: usize,
    samples: &[Option<i64>],
) -> Result<(), SendFault>
    requires size { 480 ≤ length piece.old }
    requires some { 0 < length samples.now }
    ensures bytes { Writes result (values_from number samples.now) (K.written sink.old) (K.written sink.new) }
    ensures flushed { K.flushed sink.new ≡ K.flushed sink.old }
    ensures lent { SinkLent (K.beside sink.old) (K.beside sink.new) (K.faults sink.old) (K.faults sink.new) }
    ensures cause { IsErrOf result SendFault.WriteFault → Rose (K.faults sink.old) (K.faults sink.new) }
{
    let gathered = place_one(piece, number, samples[0]);
    send_behind(sink, piece, gathered, &samples[1..])
}

// Writes few values.
#[inline(never)]
fn send_few<K: Sink>(sink: &mut K, number: usize, samples: &[Option<i64>]) -> Result<(), SendFault>
    requires { 0 < length samples.now }
    ensures bytes { Writes result (values_from number samples.now) (K.written sink.old) (K.written sink.new) }
    ensures flushed { K.flushed sink.new ≡ K.flushed sink.old }
    ensures lent { SinkLent (K.beside sink.old) (K.beside sink.new) (K.faults sink.old) (K.faults sink.new) }
    ensures cause { IsErrOf result SendFault.WriteFault → Rose (K.faults sink.old) (K.faults sink.new) }
{
    let mut piece = [0; FEW_SIZE];
    send_by(sink, &mut piece, number, samples)
}

// Writes many values.
#[inline(never)]
fn send_many<K: Sink>(sink: &mut K, number: usize, samples: &[Option<i64>]) -> Result<(), SendFault>
    requires { 0 < length samples.now }
    ensures bytes { Writes result (values_from number samples.now) (K.written sink.old) (K.written sink.new) }
    ensures flushed { K.flushed sink.new ≡ K.flushed sink.old }
    ensures lent { SinkLent (K.beside sink.old) (K.beside sink.new) (K.faults sink.old) (K.faults sink.new) }
    ensures cause { IsErrOf result SendFault.WriteFault → Rose (K.faults sink.old) (K.faults sink.new) }
{
    let mut piece = [0; PIECE_SIZE];
    send_by(sink, &mut piece, number, samples)
}

// Writes one value, which is number `number`, with the comma before it.
fn send_value<K: Sink>(sink: &mut K, number: usize, sample: Option<i64>) -> Result<(), SendFault>
    ensures bytes { Writes result (value_piece number sample) (K.written sink.old) (K.written sink.new) }
    ensures flushed { K.flushed sink.new ≡ K.flushed sink.old }
    ensures lent { SinkLent (K.beside sink.old) (K.beside sink.new) (K.faults sink.old) (K.faults sink.new) }
    ensures cause { IsErrOf result SendFault.WriteFault → Rose (K.faults sink.old) (K.faults sink.new) }
{
    let mut piece = [0; VALUE_SIZE];
    let end = place_one(&mut piece, number, sample);
    send(sink, &piece[..end])
}

/// Writes values of a range, the first of them number `number`, with the commas between them and before them. It takes no
/// memory, and writes pieces of some thousand bytes.
#[tactic(auto, using(crate::proofs::PlaceLemmas::one_value))]
pub fn send_values<K: Sink>(
    sink: &mut K,
    number: usize,
    samples: &[Option<i64>],
) -> Result<(), SendFault>
    ensures bytes { Writes result (values_from number samples.now) (K.written sink.old) (K.written sink.new) }
    ensures flushed { K.flushed sink.new ≡ K.flushed sink.old }
    ensures lent { SinkLent (K.beside sink.old) (K.beside sink.new) (K.faults sink.old) (K.faults sink.new) }
    ensures cause { IsErrOf result SendFault.WriteFault → Rose (K.faults sink.old) (K.faults sink.new) }
{
    if samples.is_empty() {
        send(sink, b"")
    } else if samples.len() == 1 {
        send_value(sink, number, samples[0])
    } else if samples.len() <= FEW {
        send_few(sink, number, samples)
    } else {
        send_many(sink, number, samples)
    }
}
