//! The reply to one request, from one edition or from none.
ghost use Rattle.std.specs.Prelude.{◌≡◌, true, false, [], None, Some, unwrap_or, IfOk, IsErrOf};
ghost use Rattle.edr_base.specs.Outside.{Rose};
ghost use Rattle.edr_base.specs.Calls.{SinkLent, Writes};
ghost use Rattle.edr_query.specs.declared.pages.Page.TheVariants.{Ask};
ghost use Rattle.edr_select.specs.Planning.{IsPlanFor};
ghost use Rattle.edr_describe.specs.Describing.{IsDescription};
ghost use Rattle.edr_http.specs.Chunks.{chunked};
ghost use Rattle.edr_http.specs.Replies.{reply_text, refusal_body};
ghost use Rattle.edr_describe.specs.Answers.{data_text};
ghost use Rattle.edr_serve.specs.Replies.{body_from, chunks_needed, chunks_from};

use crate::answering::instance_named;
use crate::streaming::send_in_chunks;
use edr_base::{Refusal, SendFault, Sink};
use edr_chunk::Reads;
use edr_describe::{DescribeFault, describe};
use edr_edition::{Edition, Store};
use edr_http::{send_body, write_head, write_refusal};
use edr_plan::plan_of;
use edr_query::{Page, Query};
use edr_select::{Plan, PlanFault};
use std::alloc::Global;

// Writes the reply that has a text of JSON.
#[tactic(auto, using(crate::proofs::ReplyTexts::text_whole, crate::proofs::ReplyTexts::text_headed, crate::proofs::ReplyTexts::text_broke))]
fn reply_with<K: Sink>(
    sink: &mut K,
    text: &[u8],
    edition: Option<u64>,
    is_head: bool,
    close: bool,
) -> Result<(), SendFault>
    ensures bytes { Writes result (reply_text (record { status = 200; json = true; text = text.now }) edition is_head close) (K.written sink.old) (K.written sink.new) }
    ensures lent { SinkLent (K.beside sink.old) (K.beside sink.new) (K.faults sink.old) (K.faults sink.new) }
    ensures cause { IsErrOf result SendFault.WriteFault → Rose (K.faults sink.old) (K.faults sink.new) }
{
    write_head(sink, 200, true, edition, close)?;
    if is_head {
        return Ok(());
    }
    send_body(sink, text)
}

// Writes the reply to a page that describes.
#[tactic(auto, using(crate::proofs::ReplyTexts::described, crate::proofs::ReplyTexts::refused_page, crate::proofs::ReplyTexts::nothing_written))]
fn reply_description<K: Sink>(
    alloc: Global,
    sink: &mut K,
    page: &Page,
    edition: &Edition,
    number: Option<u64>,
    is_head: bool,
    close: bool,
) -> Result<(), SendFault>
    requires { IsDescription page.now }
    ensures bytes { Writes result (reply_text (body_from edition.now page.now) number is_head close) (K.written sink.old) (K.written sink.new) }
    ensures lent { SinkLent (K.beside sink.old) (K.beside sink.new) (K.faults sink.old) (K.faults sink.new) }
    ensures cause { IsErrOf result SendFault.WriteFault → Rose (K.faults sink.old) (K.faults sink.new) }
{
    match describe(alloc, page, edition) {
        Ok(text) => reply_with(sink, text.bytes(), number, is_head, close),
        Err(DescribeFault::Refused(refusal)) => {
            write_refusal(alloc, sink, refusal, number, is_head, close)
        }
        Err(DescribeFault::OutOfMemory) => Err(SendFault::OutOfMemory),
    }
}

// Writes the data that are planned, in chunks, and says which chunks of the edition were opened.
#[tactic(auto, using(crate::proofs::ReplyTexts::data_sent, crate::proofs::ReplyTexts::data_read))]
fn send_data<K: Sink>(
    alloc: Global,
    sink: &mut K,
    plan: &Plan,
    edition: &Edition,
) -> Result<Reads, SendFault>
    requires { IsPlanFor edition.now plan.now.query plan.now }
    ensures bytes { Writes result (chunked (unwrap_or (data_text edition.now plan.now.query) [])) (K.written sink.old) (K.written sink.new) }
    ensures reads { IfOk result (λ reads. reads ≡ chunks_needed edition.now plan.now.query) }
    ensures lent { SinkLent (K.beside sink.old) (K.beside sink.new) (K.faults sink.old) (K.faults sink.new) }
    ensures cause { IsErrOf result SendFault.WriteFault → Rose (K.faults sink.old) (K.faults sink.new) }
{
    let query = plan.query();
    let collection = query.collection.bytes();
    let mut store = Store::of(alloc, edition, collection, instance_named(query));
    send_in_chunks(alloc, plan, &mut store, sink)?;
    Ok(store.into_reads())
}

// Writes the reply to the query of a plan.
#[tactic(auto, using(crate::proofs::ReplyTexts::planned_whole, crate::proofs::ReplyTexts::planned_headed, crate::proofs::ReplyTexts::planned_broke, crate::proofs::ReplyTexts::planned_chunks, crate::proofs::ReplyTexts::headed_chunks))]
fn reply_planned<K: Sink>(
    alloc: Global,
    sink: &mut K,
    plan: &Plan,
    edition: &Edition,
    number: Option<u64>,
    is_head: bool,
    close: bool,
) -> Result<Reads, SendFault>
    requires { IsPlanFor edition.now plan.now.query plan.now }
    ensures bytes { Writes result (reply_text (body_from edition.now (Ask plan.now.query)) number is_head close) (K.written sink.old) (K.written sink.new) }
    ensures reads { IfOk result (λ reads. reads ≡ chunks_from edition.now (Ask plan.now.query) is_head) }
    ensures lent { SinkLent (K.beside sink.old) (K.beside sink.new) (K.faults sink.old) (K.faults sink.new) }
    ensures cause { IsErrOf result SendFault.WriteFault → Rose (K.faults sink.old) (K.faults sink.new) }
{
    write_head(sink, 200, false, number, close)?;
    if is_head {
        return Ok(Reads::new(alloc));
    }
    send_data(alloc, sink, plan, edition)
}

// Writes the reply that refuses a page of an edition, for which no chunk is opened.
fn reply_refused<K: Sink>(
    alloc: Global,
    sink: &mut K,
    refusal: Refusal,
    number: Option<u64>,
    is_head: bool,
    close: bool,
) -> Result<Reads, SendFault>
    ensures bytes { Writes result (reply_text (refusal_body refusal) number is_head close) (K.written sink.old) (K.written sink.new) }
    ensures reads { IfOk result (λ reads. reads ≡ []) }
    ensures lent { SinkLent (K.beside sink.old) (K.beside sink.new) (K.faults sink.old) (K.faults sink.new) }
    ensures cause { IsErrOf result SendFault.WriteFault → Rose (K.faults sink.old) (K.faults sink.new) }
{
    write_refusal(alloc, sink, refusal, number, is_head, close)?;
    Ok(Reads::new(alloc))
}

// Writes the reply to a query.
#[tactic(auto, using(crate::proofs::ReplyTexts::refused_page, crate::proofs::ReplyTexts::refused_chunks, crate::proofs::ReplyTexts::nothing_written))]
fn reply_query<K: Sink>(
    alloc: Global,
    sink: &mut K,
    query: Query,
    edition: &Edition,
    number: Option<u64>,
    is_head: bool,
    close: bool,
) -> Result<Reads, SendFault>
    ensures bytes { Writes result (reply_text (body_from edition.now (Ask query)) number is_head close) (K.written sink.old) (K.written sink.new) }
    ensures reads { IfOk result (λ reads. reads ≡ chunks_from edition.now (Ask query) is_head) }
    ensures lent { SinkLent (K.beside sink.old) (K.beside sink.new) (K.faults sink.old) (K.faults sink.new) }
    ensures cause { IsErrOf result SendFault.WriteFault → Rose (K.faults sink.old) (K.faults sink.new) }
{
    match plan_of(alloc, query, edition) {
        Ok(plan) => {
            let outcome = reply_planned(alloc, sink, &plan, edition, number, is_head, close);
            drop(plan);
            outcome
        }
        Err(PlanFault::Refused(refusal)) => {
            reply_refused(alloc, sink, refusal, number, is_head, close)
        }
        Err(PlanFault::OutOfMemory) => Err(SendFault::OutOfMemory),
    }
}

// Writes the reply to a page that describes, for which no chunk is opened.
#[tactic(auto, using(crate::proofs::ReplyTexts::described_chunks))]
fn reply_unopened<K: Sink>(
    alloc: Global,
    sink: &mut K,
    page: &Page,
    edition: &Edition,
    number: Option<u64>,
    is_head: bool,
    close: bool,
) -> Result<Reads, SendFault>
    requires { IsDescription page.now }
    ensures bytes { Writes result (reply_text (body_from edition.now page.now) number is_head close) (K.written sink.old) (K.written sink.new) }
    ensures reads { IfOk result (λ reads. reads ≡ chunks_from edition.now page.now is_head) }
    ensures lent { SinkLent (K.beside sink.old) (K.beside sink.new) (K.faults sink.old) (K.faults sink.new) }
    ensures cause { IsErrOf result SendFault.WriteFault → Rose (K.faults sink.old) (K.faults sink.new) }
{
    reply_description(alloc, sink, page, edition, number, is_head, close)?;
    Ok(Reads::new(alloc))
}

/// Writes the reply to a page from an edition, and says which chunks were opened for it.
pub(crate) fn reply_page<K: Sink>(
    alloc: Global,
    sink: &mut K,
    page: Page,
    edition: &Edition,
    is_head: bool,
    close: bool,
) -> Result<Reads, SendFault>
    ensures bytes { Writes result (reply_text (body_from edition.now page) (Some edition.now.number) is_head close) (K.written sink.old) (K.written sink.new) }
    ensures reads { IfOk result (λ reads. reads ≡ chunks_from edition.now page is_head) }
    ensures lent { SinkLent (K.beside sink.old) (K.beside sink.new) (K.faults sink.old) (K.faults sink.new) }
    ensures cause { IsErrOf result SendFault.WriteFault → Rose (K.faults sink.old) (K.faults sink.new) }
{
    let number = Some(edition.number());
    match page {
        Page::Ask(query) => reply_query(alloc, sink, query, edition, number, is_head, close),
        page => {
            let outcome = reply_unopened(alloc, sink, &page, edition, number, is_head, close);
            drop(page);
            outcome
        }
    }
}
