//! Bodies in chunks (RFC 9112, section 7.1), taken from the front of the rest.
ghost use Rattle.std.specs.Prelude.{◌≡◌, ◌≤◌, ◌+◌, ◌-◌, ℕ, length, IfOk, IfSome, OnErr, OnOk, IsErrOf, Err};
ghost use Rattle.std.specs.Io.KnownBytes.{prepend_known};
ghost use Rattle.edr_base.specs.Outside.{Rose};
ghost use Rattle.edr_base.specs.Calls.{SourceLent, ReadsAtMost};
ghost use Rattle.edr_http.specs.Heads.{head_limit};
ghost use Rattle.edr_reply.specs.Messages.{body_limit};
ghost use Rattle.edr_reply.specs.BrokenParts.{BreaksChunk, BreaksChunks};
ghost use Rattle.edr_reply.specs.Taking.{TakesSome, TakesChunk, TakesChunks, IsCutChunk, IsCutChunks, at_place, latest_place, ChunkBreaks, ChunksBreak, most_of_chunk, most_of_body};

use crate::held::{Held, PartFault};
use crate::messages::{BODY_LIMIT, MessageFault};
use crate::parts::{take_end, take_line};
use crate::pieces::take_piece;
use edr_base::Source;

/// Where a part at a place isn't there, the reply breaks off at the place.
pub(crate) fn at_place(fault: PartFault, place: u64) -> MessageFault
    ensures { result ≡ at_place fault place }
{
    match fault {
        PartFault::Lacking => MessageFault::Broken(place),
        PartFault::ReadFault => MessageFault::ReadFault,
        PartFault::OutOfMemory => MessageFault::OutOfMemory,
    }
}

// Takes the next chunk, whose bytes go behind those of the body, and answers the place behind it; `None` is the last.
fn take_chunk<S: Source>(
    source: &mut S,
    held: &mut Held,
    body: &mut Vec<u8>,
    place: u64,
) -> Result<Option<u64>, MessageFault>
    requires room { length body.old.items ≤ body_limit }
    requires early { place ≤ latest_place (length body.old.items) }
    ensures next { IfOk result (λ next. TakesChunk place next body.old.items body.new.items (prepend_known held.old (S.left source.old)) (prepend_known held.new (S.left source.new))) }
    ensures broken { (at : ℕ) → result ≡ Err (MessageFault.Broken at)
        → ChunkBreaks place at (body_limit - length body.old.items) (prepend_known held.old (S.left source.old)) (prepend_known held.new (S.left source.new)) }
    ensures bounded { OnErr result (ReadsAtMost most_of_chunk (prepend_known held.old (S.left source.old)) (prepend_known held.new (S.left source.new))) }
    ensures lent { SourceLent (S.aside source.old) (S.aside source.new) (S.faults source.old) (S.faults source.new) }
    ensures cause { IsErrOf result MessageFault.ReadFault → Rose (S.faults source.old) (S.faults source.new) }
    ensures unfinished { IsErrOf result MessageFault.ReadFault → TakesSome (IsCutChunk (body_limit - length body.old.items)) (prepend_known held.old (S.left source.old)) (S.left source.new) }
{
    let line = match take_line(source, held, (BODY_LIMIT - body.len()) as u64) {
        Ok(line) => line,
        Err(fault) => return Err(at_place(fault, place)),
    };
    let behind = place + line.len as u64;
    if line.size == 0 {
        return match take_end(source, held) {
            Ok(()) => Ok(None),
            Err(fault) => Err(at_place(fault, behind)),
        };
    }
    match take_piece(source, held, body, line.size as usize) {
        Ok(()) => {}
        Err(fault) => return Err(at_place(fault, behind)),
    }
    match take_end(source, held) {
        Ok(()) => Ok(Some(behind + line.size + 2)),
        Err(fault) => Err(at_place(fault, behind + line.size)),
    }
}

/// Takes a body in chunks, whose bytes are joined, from this place on.
#[tactic(auto, using(crate::proofs::ChunkSteps::going_none))]
pub(crate) fn take_chunks<S: Source>(
    source: &mut S,
    held: &mut Held,
    body: &mut Vec<u8>,
    place: u64,
) -> Result<(), MessageFault>
    requires empty { length body.old.items ≡ 0 }
    requires early { place ≤ head_limit }
    ensures taken { OnOk result (TakesChunks body.new.items (prepend_known held.old (S.left source.old)) (prepend_known held.new (S.left source.new))) }
    ensures broken { (at : ℕ) → result ≡ Err (MessageFault.Broken at)
        → ChunksBreak place at (prepend_known held.old (S.left source.old)) (prepend_known held.new (S.left source.new)) }
    ensures bounded { ReadsAtMost most_of_body (prepend_known held.old (S.left source.old)) (prepend_known held.new (S.left source.new)) }
    ensures lent { SourceLent (S.aside source.old) (S.aside source.new) (S.faults source.old) (S.faults source.new) }
    ensures cause { IsErrOf result MessageFault.ReadFault → Rose (S.faults source.old) (S.faults source.new) }
    ensures unfinished { IsErrOf result MessageFault.ReadFault → TakesSome IsCutChunks (prepend_known held.old (S.left source.old)) (S.left source.new) }
{
    let mut next_place = place;
    loop {
        match take_chunk(source, held, body, next_place)? {
            Some(next) => next_place = next,
            None => return Ok(()),
        }
    }
}
