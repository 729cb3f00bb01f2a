//! Writes documents as tables.
ghost use Rattle.std.specs.Prelude.{◌≡◌, false};
ghost use Rattle.edr_base.specs.Calls.{SinkLent};
ghost use Rattle.covjson_value.specs.Coverages.{IsValidDocument};
ghost use Rattle.edr_table.specs.Tables.{table_of};
ghost use Rattle.edr.specs.Ends.{OutputEnds};
ghost use Rattle.edr.specs.Making.{MakeCause};

use crate::endings::{Ending, settled};
use covjson_value::Document;
use edr_base::{SendFault, Sink};
use edr_table::write_table;
use std::alloc::Global;

/// Writes the table of a document, and flushes.
#[tactic(auto, using(crate::proofs::EndLemmas::settled_make))]
pub fn tabled<K: Sink>(alloc: Global, document: &Document, output: &mut K) -> Ending
    requires { IsValidDocument document.now }
    ensures output { OutputEnds result false (λ text. text ≡ table_of document.now) (λ text. text ≡ table_of document.now)
        (K.written output.old) (K.written output.new) (K.flushed output.new) }
    ensures cause { MakeCause result (K.faults output.old) (K.faults output.new) }
    ensures lent { SinkLent (K.beside output.old) (K.beside output.new) (K.faults output.old) (K.faults output.new) }
{
    match write_table(alloc, document, output) {
        Ok(()) => settled(output),
        Err(SendFault::WriteFault) => Ending::WriteFault,
        Err(SendFault::OutOfMemory) => Ending::OutOfMemory,
    }
}
