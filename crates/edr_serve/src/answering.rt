//! Answers.
ghost use Rattle.std.specs.Prelude.{◌≡◌, IsErrOf, option_map};
ghost use Rattle.edr_base.specs.Outside.{Rose};
ghost use Rattle.edr_base.specs.Calls.{SinkLent};
ghost use Rattle.edr_query.specs.declared.pages.Page.TheVariants.{Ask};
ghost use Rattle.edr_select.specs.Planning.{IsPlanFor};
ghost use Rattle.edr_describe.specs.Describing.{IsDescription};
ghost use Rattle.edr_describe.specs.Answers.{IsAnswer, IsAnswerTo};
ghost use Rattle.edr_serve.specs.Answers.{Answers};
ghost use Rattle.edr_serve.specs.Faults.{of_target, of_plan, of_description, of_sending};

use edr_base::{Refusal, SendFault, Sink};
use edr_describe::{DescribeFault, describe};
use edr_edition::{Edition, Store};
use edr_plan::plan;
use edr_query::{Page, Query, TargetFault, read_target};
use edr_select::{Plan, PlanFault};
use edr_send::send;
use std::alloc::Global;

/// Why a target isn't answered with a text.
#[derive(Clone, Copy, Debug, PartialEq, Eq)]
pub enum AnswerFault {
    /// It is refused: the first refusal that applies.
    Refused(Refusal),
    /// The sink failed, and counted it.
    WriteFault,
    /// Memory was wanting.
    OutOfMemory,
}

impl From<TargetFault> for AnswerFault {
    ghost from_gives = { λ target fault. fault ≡ of_target target };

    fn from(target: TargetFault) -> AnswerFault {
        match target {
            TargetFault::Refused(refusal) => AnswerFault::Refused(refusal),
            TargetFault::OutOfMemory => AnswerFault::OutOfMemory,
        }
    }
}

impl From<PlanFault> for AnswerFault {
    ghost from_gives = { λ plan fault. fault ≡ of_plan plan };

    fn from(plan: PlanFault) -> AnswerFault {
        match plan {
            PlanFault::Refused(refusal) => AnswerFault::Refused(refusal),
            PlanFault::OutOfMemory => AnswerFault::OutOfMemory,
        }
    }
}

impl From<DescribeFault> for AnswerFault {
    ghost from_gives = { λ description fault. fault ≡ of_description description };

    fn from(description: DescribeFault) -> AnswerFault {
        match description {
            DescribeFault::Refused(refusal) => AnswerFault::Refused(refusal),
            DescribeFault::OutOfMemory => AnswerFault::OutOfMemory,
        }
    }
}

impl From<SendFault> for AnswerFault {
    ghost from_gives = { λ sending fault. fault ≡ of_sending sending };

    fn from(sending: SendFault) -> AnswerFault {
        match sending {
            SendFault::WriteFault => AnswerFault::WriteFault,
            SendFault::OutOfMemory => AnswerFault::OutOfMemory,
        }
    }
}

// The id of the instance that a query names.
pub(crate) fn instance_named(query: &Query) -> Option<&[u8]>
    ensures { option_map (λ id. id.now) result ≡ query.now.instance }
{
    match &query.instance {
        Some(id) => Some(id.bytes()),
        None => None,
    }
}

// Answers a query with data, by its plan.
fn answer_planned<K: Sink>(
    alloc: Global,
    plan: &Plan,
    query: &Query,
    edition: &Edition,
    sink: &mut K,
) -> Result<(), AnswerFault>
    requires { IsPlanFor edition.now query.now plan.now }
    ensures written { Answers result (IsAnswer edition.now (Ask query.now)) (K.written sink.old) (K.written sink.new) }
    ensures lent { SinkLent (K.beside sink.old) (K.beside sink.new) (K.faults sink.old) (K.faults sink.new) }
    ensures cause { IsErrOf result AnswerFault.WriteFault → Rose (K.faults sink.old) (K.faults sink.new) }
{
    let mut store = Store::of(
        alloc,
        edition,
        query.collection.bytes(),
        instance_named(query),
    );
    Ok(send(alloc, plan, &mut store, sink)?)
}

// Answers a query.
fn answer_query<K: Sink>(
    alloc: Global,
    query: &Query,
    edition: &Edition,
    sink: &mut K,
) -> Result<(), AnswerFault>
    ensures written { Answers result (IsAnswer edition.now (Ask query.now)) (K.written sink.old) (K.written sink.new) }
    ensures lent { SinkLent (K.beside sink.old) (K.beside sink.new) (K.faults sink.old) (K.faults sink.new) }
    ensures cause { IsErrOf result AnswerFault.WriteFault → Rose (K.faults sink.old) (K.faults sink.new) }
{
    let plan = plan(alloc, query, edition)?;
    let outcome = answer_planned(alloc, &plan, query, edition, sink);
    drop(plan);
    outcome
}

// Answers a page that describes.
fn answer_description<K: Sink>(
    alloc: Global,
    page: &Page,
    edition: &Edition,
    sink: &mut K,
) -> Result<(), AnswerFault>
    requires { IsDescription page.now }
    ensures written { Answers result (IsAnswer edition.now page.now) (K.written sink.old) (K.written sink.new) }
    ensures lent { SinkLent (K.beside sink.old) (K.beside sink.new) (K.faults sink.old) (K.faults sink.new) }
    ensures cause { IsErrOf result AnswerFault.WriteFault → Rose (K.faults sink.old) (K.faults sink.new) }
{
    let text = describe(alloc, page, edition)?;
    Ok(edr_base::send(sink, text.bytes())?)
}

// Answers a page.
fn answer_page<K: Sink>(
    alloc: Global,
    page: &Page,
    edition: &Edition,
    sink: &mut K,
) -> Result<(), AnswerFault>
    ensures written { Answers result (IsAnswer edition.now page.now) (K.written sink.old) (K.written sink.new) }
    ensures lent { SinkLent (K.beside sink.old) (K.beside sink.new) (K.faults sink.old) (K.faults sink.new) }
    ensures cause { IsErrOf result AnswerFault.WriteFault → Rose (K.faults sink.old) (K.faults sink.new) }
{
    match page {
        Page::Ask(query) => answer_query(alloc, query, edition, sink),
        _ => answer_description(alloc, page, edition, sink),
    }
}

/// Writes what an edition answers to a target (OGC 19-086r6): the CoverageJSON document of a query (OGC 21-069r2), or the page
/// that describes; or answers the first refusal that applies, by its number.
///
/// With `Ok` the whole text was written, and with a refusal nothing. After `WriteFault` a beginning of the text was written, and
/// after `OutOfMemory` a beginning of it or nothing.
pub fn answer<K: Sink>(
    alloc: Global,
    target: &[u8],
    edition: &Edition,
    sink: &mut K,
) -> Result<(), AnswerFault>
    ensures written { Answers result (IsAnswerTo edition.now target.now) (K.written sink.old) (K.written sink.new) }
    ensures lent { SinkLent (K.beside sink.old) (K.beside sink.new) (K.faults sink.old) (K.faults sink.new) }
    ensures cause { IsErrOf result AnswerFault.WriteFault → Rose (K.faults sink.old) (K.faults sink.new) }
{
    let page = read_target(alloc, target)?;
    let outcome = answer_page(alloc, &page, edition, sink);
    drop(page);
    outcome
}
