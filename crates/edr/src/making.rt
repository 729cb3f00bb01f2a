//! Makes feeds.
ghost use Rattle.std.specs.Prelude.{◌≡◌, false};
ghost use Rattle.edr_base.specs.Calls.{SinkLent};
ghost use Rattle.edr_make.specs.Made.{made};
ghost use Rattle.edr.specs.Ends.{OutputEnds};
ghost use Rattle.edr.specs.Making.{MakeCause};

use crate::endings::{Ending, settled};
use edr_base::{SendFault, Sink};
use edr_make::make_feed;
use std::alloc::Global;

/// Writes the feed that is made of a number.
#[tactic(auto, using(crate::proofs::EndLemmas::settled_make))]
pub fn make<K: Sink>(alloc: Global, number: u64, output: &mut K) -> Ending
    ensures output { OutputEnds result false (λ text. text ≡ made number) (λ text. text ≡ made number)
        (K.written output.old) (K.written output.new) (K.flushed output.new) }
    ensures cause { MakeCause result (K.faults output.old) (K.faults output.new) }
    ensures lent { SinkLent (K.beside output.old) (K.beside output.new) (K.faults output.old) (K.faults output.new) }
{
    match make_feed(alloc, number, output) {
        Ok(()) => settled(output),
        Err(SendFault::WriteFault) => Ending::WriteFault,
        Err(SendFault::OutOfMemory) => Ending::OutOfMemory,
    }
}
