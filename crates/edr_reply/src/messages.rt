//! Replies, head and body.
ghost use Rattle.std.specs.Prelude.{◌≡◌, ◌≤◌, ◌+◌, ℕ, IfOk, IfSome, IsErrOf, Err};
ghost use Rattle.std.specs.Io.KnownBytes.{prepend_known};
ghost use Rattle.edr_base.specs.Outside.{Rose};
ghost use Rattle.edr_base.specs.Calls.{SourceLent, ReadsAtMost};
ghost use Rattle.edr_http.specs.Heads.{head_limit};
ghost use Rattle.edr_http.specs.Heads.{Told};
ghost use Rattle.edr_reply.specs.Messages.{IsBody, TakesMessage, HasNoMessage, BreaksOff, most_beyond, most_read};
ghost use Rattle.edr_reply.specs.BrokenParts.{IsFirstBreak};
ghost use Rattle.edr_reply.specs.Taking.{TakesSome, BodyBreaks, IsCutBody, FramingFits, most_of_body};

use crate::chunks::{at_place, take_chunks};
use crate::framing::Framing;
use crate::held::Held;
use crate::parts::take_head;
use crate::pieces::{take_piece, take_to_end};
use edr_base::{Source, Text};
use std::alloc::Global;

/// A body has at most so many bytes.
pub const BODY_LIMIT: usize = 67_108_864;

/// What a reply says (RFC 9112, sections 4 to 7).
#[derive(Debug, Drop)]
pub struct Message {
    /// The three digits of its status.
    pub status: u16,
    /// The number of the edition that it is from, where its field `X-Edr-Edition` gives one.
    pub edition: Option<u64>,
    /// Its body, without the framing.
    pub body: Text,
}

/// Why a source gives no reply.
#[derive(Clone, Copy, Debug, PartialEq, Eq)]
pub enum MessageFault {
    /// The source failed, and counted it.
    ReadFault,
    /// Its bytes begin with no reply: at this place, from 0, the first part of one isn't there, or isn't there whole.
    Broken(u64),
    /// Memory was wanting.
    OutOfMemory,
}

// Takes the body of a reply, whose end is known so, from this place on.
fn take_body<S: Source>(
    alloc: Global,
    source: &mut S,
    held: &mut Held,
    framing: Framing,
    place: u64,
) -> Result<Vec<u8>, MessageFault>
    requires few { FramingFits framing }
    requires early { place ≤ head_limit }
    ensures body { IfOk result (λ body. Told (λ bytes rest. IsBody framing bytes body.items rest) (prepend_known held.old (S.left source.old)) (prepend_known held.new (S.left source.new))) }
    ensures broken { (at : ℕ) → result ≡ Err (MessageFault.Broken at)
        → BodyBreaks framing place at (prepend_known held.old (S.left source.old)) (prepend_known held.new (S.left source.new)) }
    ensures bounded { ReadsAtMost most_of_body (prepend_known held.old (S.left source.old)) (prepend_known held.new (S.left source.new)) }
    ensures lent { SourceLent (S.aside source.old) (S.aside source.new) (S.faults source.old) (S.faults source.new) }
    ensures cause { IsErrOf result MessageFault.ReadFault → Rose (S.faults source.old) (S.faults source.new) }
    ensures unfinished { IsErrOf result MessageFault.ReadFault → TakesSome (IsCutBody framing) (prepend_known held.old (S.left source.old)) (S.left source.new) }
{
    let mut body = Vec::new(alloc);
    match framing {
        Framing::Chunked => {
            take_chunks(source, held, &mut body, place)?;
            Ok(body)
        }
        Framing::Sized(size) => match take_piece(source, held, &mut body, size as usize) {
            Ok(()) => Ok(body),
            Err(fault) => Err(at_place(fault, place)),
        },
        Framing::TooLong => Err(MessageFault::Broken(place)),
        Framing::ToEnd => match take_to_end(source, held, &mut body, BODY_LIMIT) {
            Ok(()) => Ok(body),
            Err(fault) => Err(at_place(fault, place)),
        },
    }
}

/// Reads a reply: the head, and the body by its framing. It is what the bytes that are left of the source begin with; at most
/// 16,384 of the bytes behind it are read with it.
///
/// `Broken` is the first place at which a part of a reply isn't there, or isn't there whole; no reply is there then, and
/// not much more is read than what stands before that place and a body of the longest.
///
/// `ReadFault` is answered only in the midst of a reply: none ends within the bytes that were taken, unless it goes on to the
/// end of the input.
pub fn read_message<S: Source>(alloc: Global, source: &mut S) -> Result<Message, MessageFault>
    ensures message { IfOk result (λ message. Told (TakesMessage message) (S.left source.old) (S.left source.new)) }
    ensures broken { (place : ℕ) → result ≡ Err (MessageFault.Broken place) → IfSome (S.left source.old) (λ bytes. IsFirstBreak bytes place) }
    ensures none { (place : ℕ) → result ≡ Err (MessageFault.Broken place) → IfSome (S.left source.old) HasNoMessage }
    ensures near { (place : ℕ) → result ≡ Err (MessageFault.Broken place) → ReadsAtMost (place + most_beyond) (S.left source.old) (S.left source.new) }
    ensures bounded { ReadsAtMost most_read (S.left source.old) (S.left source.new) }
    ensures lent { SourceLent (S.aside source.old) (S.aside source.new) (S.faults source.old) (S.faults source.new) }
    ensures cause { IsErrOf result MessageFault.ReadFault → Rose (S.faults source.old) (S.faults source.new) }
    ensures unfinished { IsErrOf result MessageFault.ReadFault → BreaksOff (S.left source.old) (S.left source.new) }
{
    let mut held = Held::new();
    let opening = match take_head(source, &mut held) {
        Ok(opening) => opening,
        Err(fault) => {
            held.fits();
            return Err(at_place(fault, 0));
        }
    };
    let outcome = take_body(
        alloc,
        source,
        &mut held,
        opening.framing,
        opening.len as u64,
    );
    held.fits();
    let body = outcome?;
    Ok(Message {
        status: opening.status,
        edition: opening.edition,
        body: Text::from_vec(body),
    })
}
