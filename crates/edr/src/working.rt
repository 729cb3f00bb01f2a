//! Makes a feed in memory, reads it, and tells of it.
ghost use Rattle.std.specs.Prelude.{◌≡◌, false};
ghost use Rattle.edr_base.specs.Calls.{SinkLent};
ghost use Rattle.edr_work.specs.Working.{IsWork};
ghost use Rattle.edr.specs.Ends.{OutputEnds};
ghost use Rattle.edr.specs.Working.{WorkCause, work_ends};

use crate::checking::put;
use crate::endings::Ending;
use edr_base::{SendFault, Sink};
use edr_work::{WorkFault, work_of};
use std::alloc::Global;

// How a run ends that has no text.
fn ending_of(fault: WorkFault) -> Ending
    ensures { result ≡ work_ends fault }
{
    match fault {
        WorkFault::NotFeed(refusal) => Ending::NotFeed(refusal),
        WorkFault::Refused(refusal) => Ending::Refused(refusal),
        WorkFault::OutOfMemory => Ending::OutOfMemory,
    }
}

/// Makes the feed of a number and reads it, and writes what its edition has, and what documents it answers to four targets.
pub fn work<K: Sink>(alloc: Global, number: u64, output: &mut K) -> Ending
    ensures output { OutputEnds result false (IsWork number) (IsWork number) (K.written output.old) (K.written output.new) (K.flushed output.new) }
    ensures cause { WorkCause result number (K.faults output.old) (K.faults output.new) }
    ensures lent { SinkLent (K.beside output.old) (K.beside output.new) (K.faults output.old) (K.faults output.new) }
{
    let text = match work_of(alloc, number) {
        Ok(text) => text,
        Err(fault) => return ending_of(fault),
    };
    match put(output, text.bytes()) {
        Ok(()) => Ending::Done,
        Err(SendFault::WriteFault) => Ending::WriteFault,
        Err(SendFault::OutOfMemory) => Ending::OutOfMemory,
    }
}
