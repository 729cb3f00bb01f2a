//! Calls of the standard library's readers and writers, whose faults are counted.
ghost use Rattle.std.specs.Prelude.{◌≡◌, ◌≤◌, ◌<◌, ◌+◌, ◌-◌, min, length, IfOk, OnErr, IsErr, IsErrOf};
ghost use Rattle.std.specs.Io.KnownBytes.{ReadConsumes, WriteAppends, Keeps};
ghost use Rattle.edr_base.specs.Outside.{Rose};
ghost use Rattle.edr_base.specs.Adapters.{Counts};
ghost use Rattle.edr_base.specs.Limits.{count_limit};

use crate::outside::{Failed, Stop};
use std::io::{ErrorKind, Read, Write};

// Reads, again where a signal interrupts it, and counts a fault.
pub(crate) fn read_from<T: Read>(
    reader: &mut T,
    buf: &mut [u8],
    faults: &mut u64,
) -> Result<usize, Failed>
    ensures bound { IfOk result (λ n. n ≤ length buf.new) }
    ensures passes { ReadConsumes (T.remaining reader.old) (T.remaining reader.new) result buf.new }
    ensures later { faults.old ≤ faults.new }
    ensures cause { OnErr result (Rose faults.old faults.new) }
    ensures counts { Counts (IsErr result) faults.old faults.new }
{
    for _ in 0..u64::MAX {
        match reader.read(buf) {
            Ok(count) => return Ok(count),
            Err(error) => {
                if error.kind() != ErrorKind::Interrupted {
                    break;
                }
            }
        }
    }
    *faults = faults.saturating_add(1);
    Err(Failed)
}

// Writes, again where a signal interrupts it, and counts a fault. Of a piece that isn't empty at least one byte is taken.
#[tactic(auto, using(crate::proofs::KnownBytes::keeps_none))]
pub(crate) fn write_to<T: Write>(
    writer: &mut T,
    piece: &[u8],
    faults: &mut u64,
) -> Result<usize, Stop>
    requires { 0 < length piece.now }
    ensures bound { IfOk result (λ n. (n ≤ length piece.now) × (0 < length piece.now → 0 < n)) }
    ensures passes { WriteAppends (T.contents writer.old) (T.contents writer.new) result piece.now }
    ensures later { faults.old ≤ faults.new }
    ensures cause { IsErrOf result Stop.Failed → Rose faults.old faults.new }
    ensures counts { Counts (IsErr result) faults.old faults.new }
    ensures failed { Counts (IsErrOf result Stop.Failed) faults.old faults.new }
{
    for _ in 0..u64::MAX {
        match writer.write(piece) {
            Ok(0) => break,
            Ok(count) => return Ok(count),
            Err(error) => {
                if error.kind() != ErrorKind::Interrupted {
                    break;
                }
            }
        }
    }
    *faults = faults.saturating_add(1);
    Err(Stop::Failed)
}

// Flushes, again where a signal interrupts it, and counts a fault.
pub(crate) fn flush_of<T: Write>(writer: &mut T, faults: &mut u64) -> Result<(), Stop>
    ensures passes { Keeps (T.contents writer.old) (T.contents writer.new) }
    ensures later { faults.old ≤ faults.new }
    ensures cause { IsErrOf result Stop.Failed → Rose faults.old faults.new }
    ensures counts { Counts (IsErr result) faults.old faults.new }
{
    for _ in 0..u64::MAX {
        match writer.flush() {
            Ok(()) => return Ok(()),
            Err(error) => {
                if error.kind() != ErrorKind::Interrupted {
                    break;
                }
            }
        }
    }
    *faults = faults.saturating_add(1);
    Err(Stop::Failed)
}
