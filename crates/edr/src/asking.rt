//! Answers targets.
ghost use Rattle.std.specs.Prelude.{◌+◌, ◌<◌, length, Ok, false, IsErrOf};
ghost use Rattle.std.specs.Io.KnownBytes.{IsAtEnd};
ghost use Rattle.edr_base.specs.Calls.{SourceLent, SinkLent, ReadsAtMost, buffer_size};
ghost use Rattle.edr_base.specs.Limits.{feed_limit};
ghost use Rattle.edr_base.specs.Outside.{Rose};
ghost use Rattle.edr_edition.specs.Shelves.{EndsWith};
ghost use Rattle.edr_serve.specs.Answers.{Answers};
ghost use Rattle.edr.specs.Outputs.{IsAnswerFrom};
ghost use Rattle.edr.specs.Ends.{OutputEnds, IsReadByEnd};
ghost use Rattle.edr.specs.Asking.{AnswersAs, AnswerCause, AskCause};

use crate::checking::ending_of;
use crate::endings::{Ending, settled};
use edr_base::{Sink, Source};
use edr_edition::Edition;
use edr_export::export_values;
use edr_feed::read_feed;
use edr_serve::{AnswerFault, answer};
use std::alloc::Global;

// The last of some editions.
fn last_of(editions: &[Edition]) -> &Edition
    requires { 0 < length editions.now }
    ensures { EndsWith editions.now result.now }
{
    &editions[editions.len() - 1]
}

// Writes what an edition answers to a target, or the table of its values.
fn write_answer<K: Sink>(
    alloc: Global,
    as_table: bool,
    target: &[u8],
    edition: &Edition,
    output: &mut K,
) -> Result<(), AnswerFault>
    ensures written { Answers result (AnswersAs as_table edition.now target.now) (K.written output.old) (K.written output.new) }
    ensures lent { SinkLent (K.beside output.old) (K.beside output.new) (K.faults output.old) (K.faults output.new) }
    ensures cause { IsErrOf result AnswerFault.WriteFault → Rose (K.faults output.old) (K.faults output.new) }
{
    if as_table {
        export_values(alloc, target, edition, output)
    } else {
        answer(alloc, target, edition, output)
    }
}

// Writes what an edition answers to a target, or the table of its values, and flushes.
#[tactic(auto, using(crate::proofs::EndLemmas::settled_answer))]
fn answered<K: Sink>(
    alloc: Global,
    as_table: bool,
    target: &[u8],
    edition: &Edition,
    output: &mut K,
) -> Ending
    ensures output { OutputEnds result false (λ text. AnswersAs as_table edition.now target.now (Ok text)) (λ text. AnswersAs as_table edition.now target.now (Ok text))
        (K.written output.old) (K.written output.new) (K.flushed output.new) }
    ensures cause { AnswerCause result (AnswersAs as_table edition.now target.now) (K.faults output.old) (K.faults output.new) }
    ensures lent { SinkLent (K.beside output.old) (K.beside output.new) (K.faults output.old) (K.faults output.new) }
{
    match write_answer(alloc, as_table, target, edition, output) {
        Ok(()) => settled(output),
        Err(AnswerFault::Refused(refusal)) => Ending::Refused(refusal),
        Err(AnswerFault::WriteFault) => Ending::WriteFault,
        Err(AnswerFault::OutOfMemory) => Ending::OutOfMemory,
    }
}

/// Reads the feed on the input, and writes what its last edition answers to the target, or the table of its values.
pub fn ask<S: Source, K: Sink>(
    alloc: Global,
    as_table: bool,
    target: &[u8],
    input: &mut S,
    output: &mut K,
) -> Ending
    ensures output { OutputEnds result false (λ text. IsAnswerFrom (AnswersAs as_table) (S.left input.old) target.now (Ok text))
        (λ text. IsAnswerFrom (AnswersAs as_table) (S.left input.old) target.now (Ok text)) (K.written output.old) (K.written output.new) (K.flushed output.new) }
    ensures cause { AskCause result as_table target.now (S.left input.old) (S.faults input.old) (S.faults input.new) (K.faults output.old) (K.faults output.new) }
    ensures ended { IsReadByEnd result (IsAtEnd (S.left input.new)) }
    ensures read { ReadsAtMost (feed_limit + buffer_size) (S.left input.old) (S.left input.new) }
    ensures input { SourceLent (S.aside input.old) (S.aside input.new) (S.faults input.old) (S.faults input.new) }
    ensures lent { SinkLent (K.beside output.old) (K.beside output.new) (K.faults output.old) (K.faults output.new) }
{
    match read_feed(alloc, input) {
        Ok(feed) => answered(
            alloc,
            as_table,
            target,
            last_of(feed.editions.items()),
            output,
        ),
        Err(fault) => ending_of(&fault),
    }
}
