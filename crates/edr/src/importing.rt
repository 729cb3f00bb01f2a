//! Imports tables.
ghost use Rattle.std.specs.Prelude.{◌+◌, Ok, false};
ghost use Rattle.std.specs.Io.KnownBytes.{IsAtEnd};
ghost use Rattle.edr_base.specs.Calls.{SourceLent, SinkLent, ReadsAtMost, buffer_size};
ghost use Rattle.edr_import.specs.Imports.{TableStands};
ghost use Rattle.edr_import.specs.Limits.{table_limit};
ghost use Rattle.edr.specs.Ends.{OutputEnds, IsReadByEnd};
ghost use Rattle.edr.specs.Importing.{TableCause, ImportCause};
ghost use Rattle.edr.specs.Tables.{IsFeedOfTable};

use crate::endings::{Ending, ImportRefusal, settled};
use edr_base::{ReadStop, Sink, Source, read_all};
use edr_import::{ImportFault, TABLE_LIMIT, feed_from_table};
use std::alloc::Global;

// Writes the feed of a table, and flushes.
#[tactic(auto, using(crate::proofs::ImportLemmas::settled_table))]
fn imported<K: Sink>(alloc: Global, bytes: &[u8], output: &mut K) -> Ending
    ensures output { OutputEnds result false (λ text. TableStands bytes.now (Ok text)) (λ text. TableStands bytes.now (Ok text))
        (K.written output.old) (K.written output.new) (K.flushed output.new) }
    ensures cause { TableCause result (TableStands bytes.now) (K.faults output.old) (K.faults output.new) }
    ensures lent { SinkLent (K.beside output.old) (K.beside output.new) (K.faults output.old) (K.faults output.new) }
{
    match feed_from_table(alloc, bytes, output) {
        Ok(()) => settled(output),
        Err(ImportFault::Refused(refusal)) => Ending::NoTable(ImportRefusal::Refused(refusal)),
        Err(ImportFault::WriteFault) => Ending::WriteFault,
        Err(ImportFault::OutOfMemory) => Ending::OutOfMemory,
    }
}

/// Reads the table on the input, and writes its feed. With a refusal nothing is written.
pub fn import<S: Source, K: Sink>(alloc: Global, input: &mut S, output: &mut K) -> Ending
    ensures output { OutputEnds result false (IsFeedOfTable (S.left input.old)) (IsFeedOfTable (S.left input.old))
        (K.written output.old) (K.written output.new) (K.flushed output.new) }
    ensures cause { ImportCause result (S.left input.old) (S.faults input.old) (S.faults input.new) (K.faults output.old) (K.faults output.new) }
    ensures ended { IsReadByEnd result (IsAtEnd (S.left input.new)) }
    ensures read { ReadsAtMost (table_limit + buffer_size) (S.left input.old) (S.left input.new) }
    ensures input { SourceLent (S.aside input.old) (S.aside input.new) (S.faults input.old) (S.faults input.new) }
    ensures lent { SinkLent (K.beside output.old) (K.beside output.new) (K.faults output.old) (K.faults output.new) }
{
    let bytes = match read_all(alloc, input, TABLE_LIMIT) {
        Ok(bytes) => bytes,
        Err(ReadStop::ReadFault) => return Ending::ReadFault,
        Err(ReadStop::TooLong) => return Ending::NoTable(ImportRefusal::TooLong),
        Err(ReadStop::OutOfMemory) => return Ending::OutOfMemory,
    };
    imported(alloc, &bytes, output)
}
