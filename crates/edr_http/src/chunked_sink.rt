//! A sink that sends what is written to it in chunks (RFC 9112 section 7.1).
ghost use Rattle.std.specs.Prelude.{◌≡◌, ◌≤◌, ◌<◌, ◌+◌, ◌-◌, ◌++◌, ℕ, List, length, take, drop, Option, OnOk, OnErr, IsOk, IsErrOf, IfOk, Ok, Err, true, false, None};
ghost use Rattle.std.specs.Io.KnownBytes.{append_known};
ghost use Rattle.edr_base.specs.Outside.{Rose};
ghost use Rattle.edr_base.specs.Calls.{Appended, Flushed, SinkLent, Writes};
ghost use Rattle.edr_base.specs.Limits.{count_limit};
ghost use Rattle.edr_http.specs.Chunks.{chunk_length, chunked};
ghost use Rattle.edr_http.specs.ChunkedSinkParts.{IsFrame, full_chunk_length, piece_in, has_room, rebuilt_known, body_known, bottom_known, both_told};
ghost use Rattle.std.proofs.Props.{props};

use crate::chunks::{CHUNK_LENGTH, FULL_CHUNK_LENGTH, fill, last_text, new_frame, size_line};
use edr_base::{Faults, Lent, SendFault, Sink, Stop, send};

/// Sends what is written to it in chunks of 4,096 bytes to the sink inside, however the writes are cut (RFC 9112 section
/// 7.1). It gathers one piece in an array, and takes no memory.
///
/// What is written to it is the body so far. Its count of faults is that of the sink inside, and its bottom is what was
/// written to that sink before.
#[derive(Drop)]
pub struct ChunkedSink<K: Sink> {
    sink: K,
    frame: [u8; 4109],
    used: usize,
    pieces: u64,
    sent: usize,
    ended: bool,
    ghost within: { (used ≤ chunk_length) × (sent ≤ full_chunk_length) },
    ghost whole: { 0 < sent → used ≡ chunk_length },
    ghost framed: { ended ≡ false → IsFrame frame },
    ghost room: { has_room ended pieces sent (K.written sink) ≡ true },
    ghost kept: { K.written sink ≡ rebuilt_known ended pieces sent (piece_in frame used) (K.written sink) } by { Prim.hlevel props },
}

impl<K: Sink> Faults for ChunkedSink<K> {
    ghost faults = { λ s. K.faults s.sink };

    ghost bounded = { λ s. K.bounded s.sink };
}

impl<K: Sink> Sink for ChunkedSink<K> {
    ghost use Rattle.edr_http.specs.ChunkedSinks.{layer_beside, pieces_sent, sink_inside};

    ghost written = { λ s. body_known s.pieces s.sent (piece_in s.frame s.used) (K.written s.sink) };

    ghost flushed = { λ s. None };

    ghost beside = { λ s. layer_beside s.ended (K.beside s.sink) (bottom_known s.pieces s.sent (K.written s.sink)) };

    ghost bottomed = { λ s. both_told s.pieces s.sent (piece_in s.frame s.used) (K.written s.sink) };

    fn write(&mut self, piece: &[u8]) -> Result<usize, Stop>
        ensures bound { IfOk result (λ n. (n ≤ length piece.now) × (0 < length piece.now → 0 < n)) }
        ensures empty { length piece.now ≡ 0 → result ≡ Ok 0 }
        ensures bytes { Appended (⟦<ChunkedSink<K> as Sink>⟧.written self.old) (⟦<ChunkedSink<K> as Sink>⟧.written self.new) result piece.now }
        ensures flushed { ⟦<ChunkedSink<K> as Sink>⟧.flushed self.new ≡ ⟦<ChunkedSink<K> as Sink>⟧.flushed self.old }
        ensures lent { SinkLent (⟦<ChunkedSink<K> as Sink>⟧.beside self.old) (⟦<ChunkedSink<K> as Sink>⟧.beside self.new)
            (⟦<ChunkedSink<K> as Faults>⟧.faults self.old) (⟦<ChunkedSink<K> as Faults>⟧.faults self.new) }
        ensures cause { IsErrOf result Stop.Failed
            → Rose (⟦<ChunkedSink<K> as Faults>⟧.faults self.old) (⟦<ChunkedSink<K> as Faults>⟧.faults self.new) }
        ensures idle { (⟦<ChunkedSink<K> as Sink>⟧.beside self.old).idle ≡ true → 0 < length piece.now
            → (result ≡ Err Stop.OutOfMemory) × (⟦<ChunkedSink<K> as Faults>⟧.faults self.new ≡ ⟦<ChunkedSink<K> as Faults>⟧.faults self.old) }

        // beyond the trait: nothing is flushed, and no piece can be counted any more
        ensures settled { K.flushed (sink_inside self.new) ≡ K.flushed (sink_inside self.old) }
        ensures last { pieces_sent self.old ≡ count_limit → 0 < length piece.now
            → result ≡ Err Stop.OutOfMemory }
    {
        if piece.is_empty() {
            return Ok(0);
        }
        if self.ended || self.pieces == u64::MAX {
            return Err(Stop::OutOfMemory);
        }
        self.make_room()?;
        Ok(self.take_in(piece))
    }

    fn flush(&mut self) -> Result<(), Stop>
        ensures bytes { ⟦<ChunkedSink<K> as Sink>⟧.written self.new ≡ ⟦<ChunkedSink<K> as Sink>⟧.written self.old }
        ensures flushed { Flushed (⟦<ChunkedSink<K> as Sink>⟧.written self.new) (⟦<ChunkedSink<K> as Sink>⟧.flushed self.old)
            (⟦<ChunkedSink<K> as Sink>⟧.flushed self.new) result }
        ensures lent { SinkLent (⟦<ChunkedSink<K> as Sink>⟧.beside self.old) (⟦<ChunkedSink<K> as Sink>⟧.beside self.new)
            (⟦<ChunkedSink<K> as Faults>⟧.faults self.old) (⟦<ChunkedSink<K> as Faults>⟧.faults self.new) }
        ensures cause { IsErrOf result Stop.Failed
            → Rose (⟦<ChunkedSink<K> as Faults>⟧.faults self.old) (⟦<ChunkedSink<K> as Faults>⟧.faults self.new) }
        ensures idle { (⟦<ChunkedSink<K> as Sink>⟧.beside self.old).idle ≡ true
            → IsOk result × (⟦<ChunkedSink<K> as Faults>⟧.faults self.new ≡ ⟦<ChunkedSink<K> as Faults>⟧.faults self.old) }

        // beyond the trait: no chunk is sent, and the sink inside is flushed
        ensures inside { K.written (sink_inside self.new) ≡ K.written (sink_inside self.old) }
        ensures passes { (⟦<ChunkedSink<K> as Sink>⟧.beside self.old).idle ≡ false
            → Flushed (K.written (sink_inside self.new)) (K.flushed (sink_inside self.old)) (K.flushed (sink_inside self.new)) result }
    {
        if self.ended {
            return Ok(());
        }
        self.sink.flush()
    }
}

// Sends what is left of a text, and counts what of it is sent.
fn send_rest<K: Sink>(sink: &mut K, text: &[u8], sent: &mut usize) -> Result<(), Stop>
    requires { sent.old ≤ length text.now }
    ensures within { (sent.old ≤ sent.new) × (sent.new ≤ length text.now) }
    ensures bytes { K.written sink.new ≡ append_known (K.written sink.old) (take (sent.new - sent.old) (drop sent.old text.now)) }
    ensures whole { OnOk result (sent.new ≡ length text.now) }
    ensures flushed { K.flushed sink.new ≡ K.flushed sink.old }
    ensures lent { SinkLent (K.beside sink.old) (K.beside sink.new) (K.faults sink.old) (K.faults sink.new) }
    ensures cause { IsErrOf result Stop.Failed → Rose (K.faults sink.old) (K.faults sink.new) }
{
    while *sent < text.len() {
        *sent += sink.write(&text[*sent..])?;
    }
    Ok(())
}

// Sends the bytes of a text from one place to another.
fn send_part<K: Sink>(sink: &mut K, text: &[u8], start: usize, end: usize) -> Result<(), SendFault>
    requires { (start ≤ end) × (end ≤ length text.now) }
    ensures bytes { Writes result (take (end - start) (drop start text.now)) (K.written sink.old) (K.written sink.new) }
    ensures flushed { K.flushed sink.new ≡ K.flushed sink.old }
    ensures lent { SinkLent (K.beside sink.old) (K.beside sink.new) (K.faults sink.old) (K.faults sink.new) }
    ensures cause { IsErrOf result SendFault.WriteFault → Rose (K.faults sink.old) (K.faults sink.new) }
{
    send(sink, &text[start..end])
}

impl<K: Sink> ChunkedSink<K> {
    // Sends what is left of the present piece's chunk where the piece is full.
    fn make_room(&mut self) -> Result<(), Stop>
        requires more { self.old.pieces < count_limit }
        requires going { self.old.ended ≡ false }
        ensures body { body_known self.new.pieces self.new.sent (piece_in self.new.frame self.new.used) (K.written self.new.sink)
            ≡ body_known self.old.pieces self.old.sent (piece_in self.old.frame self.old.used) (K.written self.old.sink) }
        ensures bottom { bottom_known self.new.pieces self.new.sent (K.written self.new.sink)
            ≡ bottom_known self.old.pieces self.old.sent (K.written self.old.sink) }
        ensures room { OnOk result (self.new.used < chunk_length) }
        ensures going { self.new.ended ≡ false }
        ensures flushed { K.flushed self.new.sink ≡ K.flushed self.old.sink }
        ensures lent { SinkLent (K.beside self.old.sink) (K.beside self.new.sink)
            (K.faults self.old.sink) (K.faults self.new.sink) }
        ensures cause { IsErrOf result Stop.Failed → Rose (K.faults self.old.sink) (K.faults self.new.sink) }
    {
        if self.used < CHUNK_LENGTH {
            return Ok(());
        }
        let mut sent = self.sent;
        let outcome = send_rest(&mut self.sink, &self.frame[..FULL_CHUNK_LENGTH], &mut sent);
        if outcome.is_ok() {
            self.pieces += 1;
            self.used = 0;
            self.sent = 0;
        } else {
            self.sent = sent;
        }
        outcome
    }

    // Takes bytes into the present piece, and says how many.
    fn take_in(&mut self, piece: &[u8]) -> usize
        requires room { self.old.used < chunk_length }
        requires going { self.old.ended ≡ false }
        ensures bound { (result ≤ length piece.now) × (0 < length piece.now → 0 < result) }
        ensures body { body_known self.new.pieces self.new.sent (piece_in self.new.frame self.new.used) (K.written self.new.sink)
            ≡ append_known (body_known self.old.pieces self.old.sent (piece_in self.old.frame self.old.used) (K.written self.old.sink)) (take result piece.now) }
        ensures same { (self.new.sink ≡ self.old.sink) × (self.new.pieces ≡ self.old.pieces) × (self.new.sent ≡ self.old.sent) × (self.new.ended ≡ self.old.ended) }
    {
        let count = piece.len().min(CHUNK_LENGTH - self.used);
        fill(&mut self.frame, self.used, &piece[..count]);
        self.used += count;
        count
    }
}

impl<K: Sink> ChunkedSink<K> {
    ghost use Rattle.edr_http.specs.ChunkedSinks.{sink_inside, pieces_sent, layer_beside, nothing_in, EndsBody, BeginsBody};

    /// A layer over this sink, to which nothing was written yet.
    #[tactic(auto, using(crate::proofs::ChunkEnds::new_bottom, crate::proofs::ChunkEnds::new_body))]
    pub fn of(sink: K) -> ChunkedSink<K>
        ensures sink { sink_inside result ≡ sink }
        ensures written { ⟦<ChunkedSink<K> as Sink>⟧.written result ≡ nothing_in (K.written sink) }
        ensures beside { ⟦<ChunkedSink<K> as Sink>⟧.beside result ≡ layer_beside false (K.beside sink) (K.written sink) }
        ensures faults { ⟦<ChunkedSink<K> as Faults>⟧.faults result ≡ K.faults sink }
        ensures pieces { pieces_sent result ≡ 0 }
    {
        ChunkedSink {
            sink,
            frame: new_frame(),
            used: 0,
            pieces: 0,
            sent: 0,
            ended: false,
        }
    }

    // Writes a whole text, by which the sink inside isn't flushed.
    #[tactic(auto, using(crate::proofs::ChunkSteps::wrote_on, crate::proofs::ChunkSteps::front_of, edr_base::specs::KnownBytes::append_nothing))]
    fn send_whole(&mut self, text: &[u8]) -> Result<(), SendFault>
        ensures bytes { Writes result text.now (⟦<ChunkedSink<K> as Sink>⟧.written self.old) (⟦<ChunkedSink<K> as Sink>⟧.written self.new) }
        ensures flushed { K.flushed (sink_inside self.new) ≡ K.flushed (sink_inside self.old) }
        ensures lent { SinkLent (⟦<ChunkedSink<K> as Sink>⟧.beside self.old) (⟦<ChunkedSink<K> as Sink>⟧.beside self.new)
            (⟦<ChunkedSink<K> as Faults>⟧.faults self.old) (⟦<ChunkedSink<K> as Faults>⟧.faults self.new) }
        ensures cause { IsErrOf result SendFault.WriteFault
            → Rose (⟦<ChunkedSink<K> as Faults>⟧.faults self.old) (⟦<ChunkedSink<K> as Faults>⟧.faults self.new) }
    {
        let mut sent = 0;
        while sent < text.len() {
            sent += self.write(&text[sent..])?;
        }
        Ok(())
    }

    /// Ends the body where the layer stands: sends what is left of its chunks, and the last chunk. Then the layer is idle,
    /// and another end does nothing.
    pub fn end(&mut self) -> Result<(), SendFault>
        ensures bytes { (⟦<ChunkedSink<K> as Sink>⟧.beside self.old).idle ≡ false
            → EndsBody result (⟦<ChunkedSink<K> as Sink>⟧.beside self.old).bottom (⟦<ChunkedSink<K> as Sink>⟧.written self.old)
            (K.written (sink_inside self.new)) }
        ensures again { (⟦<ChunkedSink<K> as Sink>⟧.beside self.old).idle ≡ true
            → (result ≡ Ok tt) × (sink_inside self.new ≡ sink_inside self.old) }
        ensures idle { (⟦<ChunkedSink<K> as Sink>⟧.beside self.new).idle ≡ true }
        ensures flushed { K.flushed (sink_inside self.new) ≡ K.flushed (sink_inside self.old) }
        ensures lent { SinkLent (K.beside (sink_inside self.old)) (K.beside (sink_inside self.new))
            (K.faults (sink_inside self.old)) (K.faults (sink_inside self.new)) }
        ensures cause { IsErrOf result SendFault.WriteFault
            → Rose (K.faults (sink_inside self.old)) (K.faults (sink_inside self.new)) }
    {
        if self.ended {
            return Ok(());
        }
        self.ended = true;
        let (start, end) = last_text(&mut self.frame, self.used, self.sent);
        send_part(&mut self.sink, &self.frame, start, end)
    }

    /// Of a body that breaks off: what was sent is a beginning of the chunks of each body that begins with what was written.
    pub fn so_far(&self)
        requires { (⟦<ChunkedSink<K> as Sink>⟧.beside self.now).idle ≡ false }
        ensures { (more : List ℕ) → BeginsBody (⟦<ChunkedSink<K> as Sink>⟧.beside self.now).bottom
            (⟦<ChunkedSink<K> as Sink>⟧.written self.now) (K.written (sink_inside self.now)) more }
    {}

    /// Ends a body that was written with this outcome: after `Ok` its end is sent, and after a fault it breaks off here.
    /// Of a body that was ended already, the outcome is handed back.
    ///
    /// Where the outcome is that of writing a text to the new layer, the chunks of the text are written behind what
    /// stands below, or a beginning of them after a fault.
    pub fn end_after(&mut self, outcome: Result<(), SendFault>) -> Result<(), SendFault>
        ensures bytes { (text : List ℕ) (below start : Option (List ℕ)) → (⟦<ChunkedSink<K> as Sink>⟧.beside self.old).idle ≡ false
            → (⟦<ChunkedSink<K> as Sink>⟧.beside self.old).bottom ≡ below → start ≡ nothing_in below
            → Writes outcome text start (⟦<ChunkedSink<K> as Sink>⟧.written self.old)
            → Writes result (chunked text) below (K.written (sink_inside self.new)) }
        ensures again { (⟦<ChunkedSink<K> as Sink>⟧.beside self.old).idle ≡ true
            → (result ≡ outcome) × (sink_inside self.new ≡ sink_inside self.old) }
        ensures idle { IsOk outcome → (⟦<ChunkedSink<K> as Sink>⟧.beside self.new).idle ≡ true }
        ensures fault { OnErr outcome ((result ≡ outcome) × (sink_inside self.new ≡ sink_inside self.old)) }
        ensures flushed { K.flushed (sink_inside self.new) ≡ K.flushed (sink_inside self.old) }
        ensures lent { SinkLent (K.beside (sink_inside self.old)) (K.beside (sink_inside self.new))
            (K.faults (sink_inside self.old)) (K.faults (sink_inside self.new)) }
        ensures cause { IsOk outcome → IsErrOf result SendFault.WriteFault
            → Rose (K.faults (sink_inside self.old)) (K.faults (sink_inside self.new)) }
    {
        outcome?;
        self.end()
    }

    /// Ends the body, and hands the sink back, after a fault too.
    pub fn finish(self) -> (K, Result<(), SendFault>)
        ensures bytes { (⟦<ChunkedSink<K> as Sink>⟧.beside self).idle ≡ false
            → EndsBody result.1 (⟦<ChunkedSink<K> as Sink>⟧.beside self).bottom (⟦<ChunkedSink<K> as Sink>⟧.written self)
            (K.written result.0) }
        ensures again { (⟦<ChunkedSink<K> as Sink>⟧.beside self).idle ≡ true
            → (result.1 ≡ Ok tt) × (result.0 ≡ sink_inside self) }
        ensures flushed { K.flushed result.0 ≡ K.flushed (sink_inside self) }
        ensures lent { SinkLent (K.beside (sink_inside self)) (K.beside result.0)
            (K.faults (sink_inside self)) (K.faults result.0) }
        ensures cause { IsErrOf result.1 SendFault.WriteFault → Rose (K.faults (sink_inside self)) (K.faults result.0) }
    {
        let mut layer = self;
        let outcome = layer.end();
        (layer.into_inner(), outcome)
    }

    /// Hands the sink back as it is, with the body broken off or ended.
    pub fn into_inner(self) -> K
        ensures { result ≡ sink_inside self }
    {
        self.sink
    }
}

// Sends two texts, one behind the other.
fn send_two<K: Sink>(sink: &mut K, first: &[u8], second: &[u8]) -> Result<(), SendFault>
    ensures bytes { Writes result (first.now ++ second.now) (K.written sink.old) (K.written sink.new) }
    ensures flushed { K.flushed sink.new ≡ K.flushed sink.old }
    ensures lent { SinkLent (K.beside sink.old) (K.beside sink.new) (K.faults sink.old) (K.faults sink.new) }
    ensures cause { IsErrOf result SendFault.WriteFault → Rose (K.faults sink.old) (K.faults sink.new) }
{
    send(sink, first)?;
    send(sink, second)
}

// Sends a text as a body of one chunk, without gathering it.
fn send_chunk<K: Sink>(sink: &mut K, text: &[u8]) -> Result<(), SendFault>
    requires { (0 < length text.now) × (length text.now ≤ chunk_length) }
    ensures bytes { Writes result (chunked text.now) (K.written sink.old) (K.written sink.new) }
    ensures flushed { K.flushed sink.new ≡ K.flushed sink.old }
    ensures lent { SinkLent (K.beside sink.old) (K.beside sink.new) (K.faults sink.old) (K.faults sink.new) }
    ensures cause { IsErrOf result SendFault.WriteFault → Rose (K.faults sink.old) (K.faults sink.new) }
{
    let (line, start) = size_line(text.len());
    send(sink, &line[start..])?;
    send_two(sink, text, b"\r\n0\r\n\r\n")
}

// Sends a text as a body in chunks, each of which is gathered.
#[tactic(auto, using(edr_base::specs::LentParts::held_name, edr_base::specs::LentParts::held_below))]
fn send_gathered<K: Sink>(sink: &mut K, text: &[u8]) -> Result<(), SendFault>
    ensures bytes { Writes result (chunked text.now) (K.written sink.old) (K.written sink.new) }
    ensures flushed { K.flushed sink.new ≡ K.flushed sink.old }
    ensures lent { SinkLent (K.beside sink.old) (K.beside sink.new) (K.faults sink.old) (K.faults sink.new) }
    ensures cause { IsErrOf result SendFault.WriteFault → Rose (K.faults sink.old) (K.faults sink.new) }
{
    let mut layer = ChunkedSink::of(Lent::of(sink));
    let outcome = layer.send_whole(text);
    layer.end_after(outcome)
}

/// Sends a text as a whole body in chunks to a sink that is lent, and doesn't flush it. After a fault a beginning of the
/// chunks was sent.
pub fn send_body<K: Sink>(sink: &mut K, text: &[u8]) -> Result<(), SendFault>
    ensures bytes { Writes result (chunked text.now) (K.written sink.old) (K.written sink.new) }
    ensures flushed { K.flushed sink.new ≡ K.flushed sink.old }
    ensures lent { SinkLent (K.beside sink.old) (K.beside sink.new) (K.faults sink.old) (K.faults sink.new) }
    ensures cause { IsErrOf result SendFault.WriteFault → Rose (K.faults sink.old) (K.faults sink.new) }
{
    if text.is_empty() || text.len() > CHUNK_LENGTH {
        send_gathered(sink, text)
    } else {
        send_chunk(sink, text)
    }
}
