//! Sessions: the requests of a connection, one after another (RFC 9112, section 9.3).
ghost use Rattle.std.specs.Prelude.{◌≡◌, ◌≢◌, ◌⊎◌, ◌+◌, ◌-◌, ◌≤◌, max, ◌++◌, [], ◌∷◌, None, Some, ℕ, length, option_map, option_to_list, IfOk, OnOk, OnErr, IsErrOf};
ghost use Rattle.std.specs.Io.KnownBytes.{prepend_known};
ghost use Rattle.edr_base.specs.Outside.{Rose};
ghost use Rattle.edr_base.specs.Calls.{SourceLent, SinkLent, ReadsAtMost, IsFlushed};
ghost use Rattle.edr_http.specs.Heads.{Told, HasHead, HasNoHead, IsBehind, most_held};
ghost use Rattle.edr_serve.specs.Requests.{request_limit};
ghost use Rattle.edr_serve.specs.Sessions.{state, chunks_in, most_behind, Served, TakesHead, BrokenAtOne, Session, Broken, Waits};

use crate::ends::End;
use crate::heads::{answer_head, refuse};
use crate::reports::{OneReport, SessionFault, SessionReport};
use edr_base::{Items, OutOfMemory, Sink, Source};
use edr_chunk::Reads;
use edr_edition::Editions;
use edr_http::{HeadOutcome, Inbox, read_head};
use std::alloc::Global;

/// Serves one request of a connection: reads its head, and writes the reply and flushes it. `turns` is how many
/// the connection may still have, this one among them; a reply to the last closes the connection.
///
/// A request for a page is answered from the newest edition of the shelf, which it takes once, and any other request from
/// none. Where the input is at its end, nothing is written or taken. It puts no edition on the shelf. Nothing is read where
/// `inbox` holds a head already. Whatever is answered, `inbox` holds no more than before then, or no more than 20,479 bytes, and
/// what it held and what was read are together no more than that either; behind a head it holds no more than before, or less
/// than 4,096 bytes.
///
/// `ReadFault` and `WriteFault` come only where the source or the sink counted a fault in this call. With `ReadFault` no head had
/// come, nothing was written or taken, and the same call may be made again. After the other faults a beginning of the reply, to
/// this one request, may have been written, and of what was read and what is left nothing was lost but the head of that request.
#[tactic(auto, using(crate::proofs::OneRequest::served_end, crate::proofs::OneRequest::broken_read, crate::proofs::OneRequest::held_ahead, crate::proofs::OneRequest::bad_ahead, crate::proofs::OneRequest::end_ahead, crate::proofs::OneRequest::bad_short, crate::proofs::OneRequest::end_short, crate::proofs::OneRequest::head_lost, crate::proofs::OneRequest::bad_lost))]
pub fn serve_one<S: Source, K: Sink, E: Editions>(
    alloc: Global,
    source: &mut S,
    sink: &mut K,
    shelf: &mut E,
    inbox: &mut Inbox,
    turns: u32,
) -> Result<OneReport, SessionFault>
    requires { 1 ≤ turns }
    ensures done { IfOk result (λ report. Served turns
        (prepend_known inbox.old (S.left source.old)) (prepend_known inbox.new (S.left source.new))
        (state (K.written sink.old) (E.seen shelf.old) (E.taken shelf.old)) (state (K.written sink.new) (E.seen shelf.new) (E.taken shelf.new)) report) }
    ensures fault { OnErr result (BrokenAtOne turns (prepend_known inbox.old (S.left source.old))
        (state (K.written sink.old) (E.seen shelf.old) (E.taken shelf.old)) (state (K.written sink.new) (E.seen shelf.new) (E.taken shelf.new))) }
    ensures stock { E.stock shelf.new ≡ E.stock shelf.old }
    ensures behind { IsBehind (prepend_known inbox.old (S.left source.old)) (prepend_known inbox.new (S.left source.new)) }
    ensures lost { OnErr result ((prepend_known inbox.new (S.left source.new) ≡ prepend_known inbox.old (S.left source.old))
        ⊎ TakesHead (prepend_known inbox.old (S.left source.old)) (prepend_known inbox.new (S.left source.new))) }
    ensures again { IsErrOf result SessionFault.ReadFault → prepend_known inbox.new (S.left source.new) ≡ prepend_known inbox.old (S.left source.old) }
    ensures none { IsErrOf result SessionFault.ReadFault → HasNoHead inbox.new }
    ensures unwritten { IsErrOf result SessionFault.ReadFault → (sink.new ≡ sink.old) × (shelf.new ≡ shelf.old) }
    ensures kept { HasHead inbox.old → source.new ≡ source.old }
    ensures short { IfOk result (λ report. length inbox.new ≤ max (length inbox.old) (most_behind report.end)) }
    ensures bounded { length inbox.new ≤ most_held (length inbox.old) }
    ensures ahead { ReadsAtMost (most_held (length inbox.old)) (prepend_known inbox.old (S.left source.old)) (S.left source.new) }
    ensures flushed { IfOk result (λ report. report.end ≢ Some End.EndOfInput → IsFlushed (K.written sink.new) (K.flushed sink.new)) }
    ensures untouched { IfOk result (λ report. report.end ≡ Some End.EndOfInput → (sink.new ≡ sink.old) × (shelf.new ≡ shelf.old)) }
    ensures source { SourceLent (S.aside source.old) (S.aside source.new) (S.faults source.old) (S.faults source.new) }
    ensures sink { SinkLent (K.beside sink.old) (K.beside sink.new) (K.faults sink.old) (K.faults sink.new) }
    ensures read { IsErrOf result SessionFault.ReadFault → Rose (S.faults source.old) (S.faults source.new) }
    ensures write { IsErrOf result SessionFault.WriteFault → Rose (K.faults sink.old) (K.faults sink.new) }
{
    match read_head(alloc, source, inbox)? {
        HeadOutcome::Got(head) => Ok(answer_head(alloc, sink, shelf, &head, turns)?),
        HeadOutcome::EndOfInput => Ok(OneReport {
            edition: None,
            reads: Reads::new(alloc),
            end: Some(End::EndOfInput),
        }),
        HeadOutcome::Refused(refusal) => {
            let end = Some(End::ClosedByRefusal(1));
            Ok(refuse(alloc, sink, refusal, false, end)?)
        }
    }
}

// Keeps the edition of a report and the chunks that were opened, where an edition was taken.
fn keep(
    editions: &mut Vec<u64>,
    reads: &mut Vec<Reads>,
    edition: Option<u64>,
    opened: Reads,
) -> Result<(), OutOfMemory>
    ensures editions { OnOk result (editions.new.items ≡ editions.old.items ++ option_to_list edition) }
    ensures reads { OnOk result (reads.new.items ≡ reads.old.items ++ option_to_list (option_map (λ (number : ℕ). opened) edition)) }
{
    if let Some(number) = edition {
        editions.push(number)?;
        reads.push(opened)?;
    }
    Ok(())
}

// How many replies were written, where the session ended behind so many requests.
fn replies(before: u32, end: End) -> u32
    requires { before ≤ request_limit }
    ensures at_end { end ≡ End.EndOfInput → result ≡ before }
    ensures closed { end ≢ End.EndOfInput → result ≡ before + 1 }
{
    match end {
        End::EndOfInput => before,
        End::ClosedByPeer => before + 1,
        End::ClosedByRefusal(_) => before + 1,
        End::RequestLimit => before + 1,
    }
}

/// Serves the requests of a connection, in their order, until one ends the session or the input is at its end. `requests` is how
/// many the connection may have, from 1 to `REQUEST_LIMIT`; the reply to the last closes it.
///
/// Each request for a page is answered from one edition, the newest when its turn comes, and every reply is flushed. It puts no
/// edition on the shelf. With `Ok` less than 4,096 bytes were read behind the request that ended the session, or where no head
/// was found there no more than 20,479; after a fault no more than that were read behind the requests that were answered.
///
/// `ReadFault` and `WriteFault` come only where the source or the sink counted a fault in this call. With `ReadFault` every
/// request that had come whole was answered, and all that was written is flushed. After the other faults the replies to some
/// requests were written, and a beginning of one more.
#[tactic(auto, using(crate::proofs::Going::going_begins, crate::proofs::Going::behind_begins))]
pub fn serve_session<S: Source, K: Sink, E: Editions>(
    alloc: Global,
    source: &mut S,
    sink: &mut K,
    shelf: &mut E,
    requests: u32,
) -> Result<SessionReport, SessionFault>
    requires { (1 ≤ requests) × (requests ≤ request_limit) }
    ensures done { IfOk result (λ report. Session requests (S.left source.old) (S.left source.new)
        (state (K.written sink.old) (E.seen shelf.old) (E.taken shelf.old)) (state (K.written sink.new) (E.seen shelf.new) (E.taken shelf.new)) report) }
    ensures fault { OnErr result (Broken requests (S.left source.old) (S.left source.new)
        (state (K.written sink.old) (E.seen shelf.old) (E.taken shelf.old)) (state (K.written sink.new) (E.seen shelf.new) (E.taken shelf.new))) }
    ensures waits { IsErrOf result SessionFault.ReadFault → Waits requests (S.left source.old) (S.left source.new)
        (state (K.written sink.old) (E.seen shelf.old) (E.taken shelf.old)) (state (K.written sink.new) (E.seen shelf.new) (E.taken shelf.new)) }
    ensures stock { E.stock shelf.new ≡ E.stock shelf.old }
    ensures behind { IsBehind (S.left source.old) (S.left source.new) }
    ensures ended { IfOk result (λ report. report.end ≡ End.EndOfInput → Told (λ bytes rest. rest ≡ []) (S.left source.old) (S.left source.new)) }
    ensures flushed { OnOk result ((sink.new ≡ sink.old) ⊎ IsFlushed (K.written sink.new) (K.flushed sink.new)) }
    ensures settled { IsErrOf result SessionFault.ReadFault → (sink.new ≡ sink.old) ⊎ IsFlushed (K.written sink.new) (K.flushed sink.new) }
    ensures source { SourceLent (S.aside source.old) (S.aside source.new) (S.faults source.old) (S.faults source.new) }
    ensures sink { SinkLent (K.beside sink.old) (K.beside sink.new) (K.faults sink.old) (K.faults sink.new) }
    ensures read { IsErrOf result SessionFault.ReadFault → Rose (S.faults source.old) (S.faults source.new) }
    ensures write { IsErrOf result SessionFault.WriteFault → Rose (K.faults sink.old) (K.faults sink.new) }
{
    let mut inbox = Inbox::new(alloc);
    let mut editions = Vec::new(alloc);
    let mut reads = Vec::new(alloc);
    let mut turns = requests;
    'requests: while turns > 0 {
        let report = serve_one(alloc, source, sink, shelf, &mut inbox, turns)?;
        let OneReport {
            edition,
            reads: opened,
            end,
        } = report;
        keep(&mut editions, &mut reads, edition, opened)?;
        match end {
            Some(end) => {
                return Ok(SessionReport {
                    requests: replies(requests - turns, end),
                    editions: Items::of(editions),
                    reads: Items::of(reads),
                    end,
                });
            }
            None => {}
        }
        turns -= 1;
    }
    Err(SessionFault::OutOfMemory)
}
