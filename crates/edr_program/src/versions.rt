//! The version of the programs.
ghost use Rattle.std.specs.Prelude.{IsErrOf};
ghost use Rattle.edr_program.specs.Versions.{version_line};
ghost use Rattle.edr_base.specs.Calls.{SinkLent, Writes};
ghost use Rattle.edr_base.specs.Outside.{Rose};

use crate::lines::send_both;
use edr_base::{SendFault, Sink};

// What stands behind a program's name on the line of its version.
const BEHIND_NAME: &[u8] = b" 1.0.0\n";

/// Writes the line that tells a program's name and its version.
pub fn send_version<D: Sink>(sink: &mut D, name: &[u8]) -> Result<(), SendFault>
    ensures bytes { Writes result (version_line name.now) (D.written sink.old) (D.written sink.new) }
    ensures lent { SinkLent (D.beside sink.old) (D.beside sink.new) (D.faults sink.old) (D.faults sink.new) }
    ensures cause { IsErrOf result SendFault.WriteFault → Rose (D.faults sink.old) (D.faults sink.new) }
{
    send_both(sink, name, BEHIND_NAME)
}
