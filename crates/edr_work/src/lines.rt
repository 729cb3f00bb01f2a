//! Lines that tell what an edition answers to targets.
ghost use Rattle.std.specs.Prelude.{◌≡◌, ◌++◌, [], Some, option_map, IfOk, OnOk};
ghost use Rattle.std.specs.Fmt.{decimal, signed_decimal};
ghost use Rattle.edr_station.specs.declared.tallies.Tally.{Tally};
ghost use Rattle.edr_work.specs.Lines.{target_line};
ghost use Rattle.covjson_value.specs.Trees.{document_text};
ghost use Rattle.edr_select.specs.Selections.{needed};
ghost use Rattle.edr_select.specs.Documents.{document};
ghost use Rattle.edr_select.specs.Plans.{StandsFor};
ghost use Rattle.edr_select.specs.Planning.{IsPlanFor};
ghost use Rattle.edr_work.specs.Counting.{AsksForQuery, MatchCount, MatchLine};

use crate::counting::tally_of_text;
use crate::faults::WorkFault;
use edr_base::{OutOfMemory, QuietSink, SendFault, Sink, Text};
use edr_edition::{Edition, Store};
use edr_plan::plan;
use edr_query::{Page, Query, read_target};
use edr_select::Plan;
use edr_send::send;
use edr_station::Tally;
use itoa::Buffer;
use std::alloc::Global;

/// What is told of the document that a query gets.
#[derive(Clone, Copy, Debug, PartialEq, Eq)]
pub(crate) struct Count {
    /// Of its values.
    pub tally: Tally,
    /// How many chunks were opened for it.
    pub opened: usize,
}

// The id of the instance that a query names.
fn instance_named(query: &Query) -> Option<&[u8]>
    ensures { option_map (λ id. id.now) result ≡ query.now.instance }
{
    match &query.instance {
        Some(id) => Some(id.bytes()),
        None => None,
    }
}

// Sends the document of a plan to memory.
fn send_to(
    alloc: Global,
    plan: &Plan,
    store: &mut Store<'_>,
    sink: &mut QuietSink,
) -> Result<(), OutOfMemory>
    requires stands { StandsFor plan.now store.old.subject }
    requires unread { store.old.numbers ≡ [] }
    requires empty { ⟦<QuietSink as Sink>⟧.written sink.old ≡ Some [] }
    ensures text { OnOk result (⟦<QuietSink as Sink>⟧.written sink.new ≡ Some (document_text (document store.old.subject plan.now.query))) }
    ensures opened { OnOk result (store.new.numbers ≡ needed store.old.subject plan.now.query) }
{
    match send(alloc, plan, store, sink) {
        Ok(()) => Ok(()),
        Err(SendFault::WriteFault) => unreachable!(),
        Err(SendFault::OutOfMemory) => Err(OutOfMemory),
    }
}

// Counts what is read of the document that a plan gives, and the chunks that are opened for it.
fn count_planned(
    alloc: Global,
    plan: &Plan,
    query: &Query,
    edition: &Edition,
) -> Result<Count, WorkFault>
    requires { IsPlanFor edition.now query.now plan.now }
    ensures { MatchCount result edition.now query.now }
{
    let mut store = Store::of(
        alloc,
        edition,
        query.collection.bytes(),
        instance_named(query),
    );
    let mut sink = QuietSink::of(alloc, usize::MAX);
    send_to(alloc, plan, &mut store, &mut sink)?;
    Ok(Count {
        tally: tally_of_text(alloc, sink.written())?,
        opened: store.numbers().len(),
    })
}

// What is told of the document that a query gets, or the first refusal that applies.
fn count_of(alloc: Global, query: &Query, edition: &Edition) -> Result<Count, WorkFault>
    ensures { MatchCount result edition.now query.now }
{
    let plan = plan(alloc, query, edition)?;
    count_planned(alloc, &plan, query, edition)
}

fn push_count(line: &mut Vec<u8>, count: u64) -> Result<(), OutOfMemory>
    ensures { OnOk result (line.new.items ≡ line.old.items ++ decimal count) }
{
    let mut buffer = Buffer::new();
    line.extend_from_slice(buffer.format(count).as_bytes())?;
    Ok(())
}

fn push_sum(line: &mut Vec<u8>, sum: i128) -> Result<(), OutOfMemory>
    ensures { OnOk result (line.new.items ≡ line.old.items ++ signed_decimal sum) }
{
    let mut buffer = Buffer::new();
    line.extend_from_slice(buffer.format(sum).as_bytes())?;
    Ok(())
}

// The line of a target.
fn written(alloc: Global, target: &[u8], count: Count) -> Result<Text, OutOfMemory>
    ensures { IfOk result (λ line. line ≡ target_line target.now count.tally count.opened) }
{
    let mut line = Vec::from_slice(alloc, target)?;
    line.extend_from_slice(b": values ")?;
    push_count(&mut line, count.tally.samples)?;
    line.extend_from_slice(b", present ")?;
    push_count(&mut line, count.tally.present)?;
    line.extend_from_slice(b", sum ")?;
    push_sum(&mut line, count.tally.sum)?;
    line.extend_from_slice(b", opened ")?;
    push_count(&mut line, count.opened as u64)?;
    line.push(b'\n')?;
    Ok(Text::from_vec(line))
}

/// The line of a target that asks for a query, or the first refusal that applies.
pub(crate) fn line_of(alloc: Global, target: &[u8], edition: &Edition) -> Result<Text, WorkFault>
    requires { AsksForQuery target.now }
    ensures { MatchLine result edition.now target.now }
{
    match read_target(alloc, target)? {
        Page::Ask(query) => {
            let count = count_of(alloc, &query, edition)?;
            Ok(written(alloc, target, count)?)
        }
        _ => unreachable!(),
    }
}
