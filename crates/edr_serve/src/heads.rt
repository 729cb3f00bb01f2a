//! The reply to one head.
ghost use Rattle.std.specs.Prelude.{◌≡◌, ◌≢◌, [], ◌∷◌, None, Some, Ok, Err, is_some, IfOk, OnOk, OnErr, IsErrOf};
ghost use Rattle.edr_base.specs.Outside.{Rose};
ghost use Rattle.edr_base.specs.Calls.{SinkLent, Writes, IsFlushed};
ghost use Rattle.edr_http.specs.Replies.{reply_text, refusal_body};
ghost use Rattle.edr_serve.specs.Requests as requests;
ghost use Rattle.edr_serve.specs.Replies.{body_from, chunks_from};
ghost use Rattle.edr_serve.specs.Sessions.{state, IsReplied, BrokeOff};
ghost use Rattle.edr_serve.specs.Serving.{HeadReplied, HeadBroken};

use crate::ends::End;
use crate::replying::reply_page;
use crate::reports::OneReport;
use edr_base::{Refusal, SendFault, Sink, settle};
use edr_chunk::Reads;
use edr_edition::{Edition, Editions};
use edr_http::{Head, check_head, write_refusal};
use edr_query::{Page, TargetFault, read_target};
use std::alloc::Global;

// The end with a request, by whether the peer closes and by the turns that are left, its own among them.
fn end_by_turns(turns: u32, close: bool) -> Option<End>
    ensures is { result ≡ requests.end_by_turns turns close }
    ensures going { result ≢ Some End.EndOfInput }
{
    if close {
        return Some(End::ClosedByPeer);
    }
    if turns == 1 {
        return Some(End::RequestLimit);
    }
    None
}

// The end with a request that is refused.
fn end_refused(turns: u32, close: bool, refusal: Refusal) -> Option<End>
    ensures is { result ≡ requests.end_of turns close (Err refusal) }
    ensures going { result ≢ Some End.EndOfInput }
{
    let number = refusal.number();
    if number <= 4 {
        return Some(End::ClosedByRefusal(number));
    }
    end_by_turns(turns, close)
}

/// Writes the reply that refuses a request from no edition, and flushes.
pub(crate) fn refuse<K: Sink>(
    alloc: Global,
    sink: &mut K,
    refusal: Refusal,
    is_head: bool,
    end: Option<End>,
) -> Result<OneReport, SendFault>
    ensures bytes { Writes result (reply_text (refusal_body refusal) None is_head (is_some end)) (K.written sink.old) (K.written sink.new) }
    ensures report { IfOk result (λ report. report ≡ record { edition = None; reads = []; end = end }) }
    ensures flushed { OnOk result (IsFlushed (K.written sink.new) (K.flushed sink.new)) }
    ensures lent { SinkLent (K.beside sink.old) (K.beside sink.new) (K.faults sink.old) (K.faults sink.new) }
    ensures cause { IsErrOf result SendFault.WriteFault → Rose (K.faults sink.old) (K.faults sink.new) }
{
    write_refusal(alloc, sink, refusal, None, is_head, end.is_some())?;
    settle(sink)?;
    Ok(OneReport {
        edition: None,
        reads: Reads::new(alloc),
        end,
    })
}

// Writes the reply to a page from an edition, and flushes.
fn reply_from<K: Sink>(
    alloc: Global,
    sink: &mut K,
    page: Page,
    edition: &Edition,
    is_head: bool,
    end: Option<End>,
) -> Result<OneReport, SendFault>
    ensures bytes { Writes result (reply_text (body_from edition.now page) (Some edition.now.number) is_head (is_some end)) (K.written sink.old) (K.written sink.new) }
    ensures report { IfOk result (λ report. report ≡ record { edition = Some edition.now.number; reads = chunks_from edition.now page is_head; end = end }) }
    ensures flushed { OnOk result (IsFlushed (K.written sink.new) (K.flushed sink.new)) }
    ensures lent { SinkLent (K.beside sink.old) (K.beside sink.new) (K.faults sink.old) (K.faults sink.new) }
    ensures cause { IsErrOf result SendFault.WriteFault → Rose (K.faults sink.old) (K.faults sink.new) }
{
    let reads = reply_page(alloc, sink, page, edition, is_head, end.is_some())?;
    settle(sink)?;
    Ok(OneReport {
        edition: Some(edition.number()),
        reads,
        end,
    })
}

// Answers a page from the newest edition, and flushes.
fn answer_page<K: Sink, E: Editions>(
    alloc: Global,
    sink: &mut K,
    shelf: &mut E,
    page: Page,
    is_head: bool,
    end: Option<End>,
) -> Result<OneReport, SendFault>
    ensures done { IfOk result (λ report. IsReplied (record { is_head = is_head; asked = Ok page; end = end })
        (state (K.written sink.old) (E.seen shelf.old) (E.taken shelf.old)) (state (K.written sink.new) (E.seen shelf.new) (E.taken shelf.new)) report) }
    ensures broke { OnErr result (BrokeOff (record { is_head = is_head; asked = Ok page; end = end } ∷ [])
        (state (K.written sink.old) (E.seen shelf.old) (E.taken shelf.old)) (state (K.written sink.new) (E.seen shelf.new) (E.taken shelf.new))) }
    ensures stock { E.stock shelf.new ≡ E.stock shelf.old }
    ensures end { IfOk result (λ report. report.end ≡ end) }
    ensures flushed { OnOk result (IsFlushed (K.written sink.new) (K.flushed sink.new)) }
    ensures lent { SinkLent (K.beside sink.old) (K.beside sink.new) (K.faults sink.old) (K.faults sink.new) }
    ensures cause { IsErrOf result SendFault.WriteFault → Rose (K.faults sink.old) (K.faults sink.new) }
{
    let edition = shelf.take()?;
    reply_from(alloc, sink, page, &edition, is_head, end)
}

/// Answers the request that a head makes, and flushes.
#[tactic(auto, using(crate::proofs::OneReply::head_page, crate::proofs::OneReply::head_page_broke, crate::proofs::OneReply::head_refused, crate::proofs::OneReply::head_refused_fault, crate::proofs::OneReply::target_refused, crate::proofs::OneReply::target_refused_fault, crate::proofs::OneReply::head_unread))]
pub(crate) fn answer_head<K: Sink, E: Editions>(
    alloc: Global,
    sink: &mut K,
    shelf: &mut E,
    head: &Head,
    turns: u32,
) -> Result<OneReport, SendFault>
    ensures done { IfOk result (λ report. HeadReplied turns head.now
        (state (K.written sink.old) (E.seen shelf.old) (E.taken shelf.old)) (state (K.written sink.new) (E.seen shelf.new) (E.taken shelf.new)) report) }
    ensures broke { OnErr result (HeadBroken turns head.now
        (state (K.written sink.old) (E.seen shelf.old) (E.taken shelf.old)) (state (K.written sink.new) (E.seen shelf.new) (E.taken shelf.new))) }
    ensures stock { E.stock shelf.new ≡ E.stock shelf.old }
    ensures going { IfOk result (λ report. report.end ≢ Some End.EndOfInput) }
    ensures flushed { OnOk result (IsFlushed (K.written sink.new) (K.flushed sink.new)) }
    ensures lent { SinkLent (K.beside sink.old) (K.beside sink.new) (K.faults sink.old) (K.faults sink.new) }
    ensures cause { IsErrOf result SendFault.WriteFault → Rose (K.faults sink.old) (K.faults sink.new) }
{
    let ask = check_head(head);
    if let Some(refusal) = ask.refusal {
        let end = end_refused(turns, ask.close, refusal);
        return refuse(alloc, sink, refusal, ask.is_head, end);
    }
    match read_target(alloc, head.target.bytes()) {
        Ok(page) => {
            let end = end_by_turns(turns, ask.close);
            answer_page(alloc, sink, shelf, page, ask.is_head, end)
        }
        Err(TargetFault::Refused(refusal)) => {
            let end = end_refused(turns, ask.close, refusal);
            refuse(alloc, sink, refusal, ask.is_head, end)
        }
        Err(TargetFault::OutOfMemory) => Err(SendFault::OutOfMemory),
    }
}
