//! Lines that are gathered and written in pieces.
ghost use Rattle.std.specs.Prelude.{◌≡◌, ◌++◌, [], OnOk, IfSome, IsErrOf};
ghost use Rattle.edr_base.specs.Outside.{Rose};
ghost use Rattle.edr_base.specs.Calls.{SinkLent};
ghost use Rattle.edr_axes.specs.Instants.{IsTime};
ghost use Rattle.edr_table.specs.Gathering.{Gathers};
ghost use Rattle.edr_table.specs.Turns.{line_front, line_back};

use crate::cells::{push_back, push_front};
use edr_base::{OutOfMemory, SendFault, Sink, send};
use std::alloc::Global;

// What is gathered is written as soon as it has so many bytes.
const PIECE_SIZE: usize = 8192;

/// The lines of a table that are gathered, and the front of the lines that come next.
#[derive(Drop)]
pub struct Lines {
    /// Whole lines that aren't written yet.
    pub gathered: Vec<u8>,
    /// A line as far as its x.
    pub front: Vec<u8>,
}

impl Lines {
    /// None. It takes no memory.
    pub fn new(alloc: Global) -> Lines
        ensures { result.gathered.items ≡ [] }
    {
        Lines {
            gathered: Vec::new(alloc),
            front: Vec::new(alloc),
        }
    }

    /// Sets the front of the lines that come next.
    pub fn set_front(
        &mut self,
        parameter: &[u8],
        t: Option<i64>,
        z: Option<i64>,
        y: i64,
    ) -> Result<(), OutOfMemory>
        requires { IfSome t IsTime }
        ensures front { OnOk result (self.new.front.items ≡ line_front parameter.now t z y) }
        ensures gathered { self.new.gathered ≡ self.old.gathered }
    {
        self.front.clear();
        push_front(&mut self.front, parameter, t, z, y)
    }

    // Puts a line with this front.
    fn push(&mut self, x: i64, value: Option<i64>) -> Result<(), OutOfMemory>
        ensures line { OnOk result (self.new.gathered.items ≡ self.old.gathered.items ++ (self.old.front.items ++ line_back x value)) }
        ensures front { self.new.front ≡ self.old.front }
    {
        self.gathered.extend_from_slice(&self.front)?;
        push_back(&mut self.gathered, x, value)
    }
}

/// Puts a line behind what is gathered, with the front that is set, and writes what is gathered where it is long.
pub fn put_line<K: Sink>(
    sink: &mut K,
    lines: &mut Lines,
    x: i64,
    value: Option<i64>,
) -> Result<(), SendFault>
    ensures line { Gathers result (lines.old.front.items ++ line_back x value) (K.written sink.old) (K.written sink.new)
        lines.old.gathered.items lines.new.gathered.items }
    ensures front { lines.new.front ≡ lines.old.front }
    ensures flushed { K.flushed sink.new ≡ K.flushed sink.old }
    ensures lent { SinkLent (K.beside sink.old) (K.beside sink.new) (K.faults sink.old) (K.faults sink.new) }
    ensures cause { IsErrOf result SendFault.WriteFault → Rose (K.faults sink.old) (K.faults sink.new) }
{
    lines.push(x, value)?;
    if lines.gathered.len() < PIECE_SIZE {
        return Ok(());
    }
    send(sink, &lines.gathered)?;
    lines.gathered.clear();
    Ok(())
}
