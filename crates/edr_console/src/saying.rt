//! The lines on the standard output.
ghost use Rattle.std.specs.Prelude.{◌≡◌, ◌++◌, codes, IsErrOf, OnOk};
ghost use Rattle.std.specs.Fmt.{decimal};
ghost use Rattle.edr_base.specs.Calls.{SinkLent, Writes, IsFlushed};
ghost use Rattle.edr_base.specs.Outside.{Rose};
ghost use Rattle.edr_program.specs.Versions.{version_line};
ghost use Rattle.edr_console.specs.Helps.{help};
ghost use Rattle.edr_console.specs.Saying.{number_line, named_line, behind_lines, count_line, output_state, Says, SaysAll};

use crate::helping::{OPTIONS, USAGE};
use edr_base::{SendFault, Sink, send, settle};
use edr_program::send_version;
use itoa::Buffer;

// Writes the digits of a number.
fn send_digits<O: Sink>(output: &mut O, number: u64) -> Result<(), SendFault>
    ensures bytes { Writes result (decimal number) (O.written output.old) (O.written output.new) }
    ensures lent { SinkLent (O.beside output.old) (O.beside output.new) (O.faults output.old) (O.faults output.new) }
    ensures cause { IsErrOf result SendFault.WriteFault → Rose (O.faults output.old) (O.faults output.new) }
{
    let mut buffer = Buffer::new();
    send(output, buffer.format(number).as_bytes())
}

// Ends a line with a text, and flushes.
fn send_text<O: Sink>(output: &mut O, text: &[u8]) -> Result<(), SendFault>
    ensures bytes { Writes result (text.now) (O.written output.old) (O.written output.new) }
    ensures settled { OnOk result (IsFlushed (O.written output.new) (O.flushed output.new)) }
    ensures lent { SinkLent (O.beside output.old) (O.beside output.new) (O.faults output.old) (O.faults output.new) }
    ensures cause { IsErrOf result SendFault.WriteFault → Rose (O.faults output.old) (O.faults output.new) }
{
    send(output, text)?;
    settle(output)
}

// Ends a line with the digits of a number, and flushes.
fn send_last<O: Sink>(output: &mut O, number: u64) -> Result<(), SendFault>
    ensures bytes { Writes result (decimal number ++ codes "\n") (O.written output.old) (O.written output.new) }
    ensures settled { OnOk result (IsFlushed (O.written output.new) (O.flushed output.new)) }
    ensures lent { SinkLent (O.beside output.old) (O.beside output.new) (O.faults output.old) (O.faults output.new) }
    ensures cause { IsErrOf result SendFault.WriteFault → Rose (O.faults output.old) (O.faults output.new) }
{
    send_digits(output, number)?;
    send_text(output, b"\n")
}

// Writes the line of a text and a number behind it, and flushes.
fn send_line<O: Sink>(output: &mut O, text: &[u8], number: u64) -> Result<(), SendFault>
    ensures bytes { Writes result (number_line text.now number) (O.written output.old) (O.written output.new) }
    ensures settled { OnOk result (IsFlushed (O.written output.new) (O.flushed output.new)) }
    ensures lent { SinkLent (O.beside output.old) (O.beside output.new) (O.faults output.old) (O.faults output.new) }
    ensures cause { IsErrOf result SendFault.WriteFault → Rose (O.faults output.old) (O.faults output.new) }
{
    send(output, text)?;
    send_last(output, number)
}

/// Says a line: a text, and a number behind it. A fault of the output changes nothing else.
pub fn say_number<O: Sink>(output: &mut O, text: &[u8], number: u64)
    ensures line { Says (number_line text.now number) (output_state O.written O.flushed O.faults output.old) (output_state O.written O.flushed O.faults output.new) }
    ensures lent { SinkLent (O.beside output.old) (O.beside output.new) (O.faults output.old) (O.faults output.new) }
{
    let _ = send_line(output, text, number);
}

// Writes a number, and ends the line with another one behind a text, and flushes.
fn send_pair<O: Sink>(output: &mut O, number: u64, text: &[u8], last: u64) -> Result<(), SendFault>
    ensures bytes { Writes result (decimal number ++ number_line text.now last) (O.written output.old) (O.written output.new) }
    ensures settled { OnOk result (IsFlushed (O.written output.new) (O.flushed output.new)) }
    ensures lent { SinkLent (O.beside output.old) (O.beside output.new) (O.faults output.old) (O.faults output.new) }
    ensures cause { IsErrOf result SendFault.WriteFault → Rose (O.faults output.old) (O.faults output.new) }
{
    send_digits(output, number)?;
    send_line(output, text, last)
}

// Writes the line of two numbers, each behind a text, and flushes.
fn send_both<O: Sink>(
    output: &mut O,
    text: &[u8],
    number: u64,
    between: &[u8],
    last: u64,
) -> Result<(), SendFault>
    ensures bytes { Writes result (text.now ++ (decimal number ++ number_line between.now last)) (O.written output.old) (O.written output.new) }
    ensures settled { OnOk result (IsFlushed (O.written output.new) (O.flushed output.new)) }
    ensures lent { SinkLent (O.beside output.old) (O.beside output.new) (O.faults output.old) (O.faults output.new) }
    ensures cause { IsErrOf result SendFault.WriteFault → Rose (O.faults output.old) (O.faults output.new) }
{
    send(output, text)?;
    send_pair(output, number, between, last)
}

// Writes a number, ends the line with a text, and flushes.
fn send_counted<O: Sink>(output: &mut O, number: u64, text: &[u8]) -> Result<(), SendFault>
    ensures bytes { Writes result (decimal number ++ text.now) (O.written output.old) (O.written output.new) }
    ensures settled { OnOk result (IsFlushed (O.written output.new) (O.flushed output.new)) }
    ensures lent { SinkLent (O.beside output.old) (O.beside output.new) (O.faults output.old) (O.faults output.new) }
    ensures cause { IsErrOf result SendFault.WriteFault → Rose (O.faults output.old) (O.faults output.new) }
{
    send_digits(output, number)?;
    send_text(output, text)
}

// Writes a line of a number between two texts, and flushes.
fn send_between<O: Sink>(
    output: &mut O,
    text: &[u8],
    number: u64,
    last: &[u8],
) -> Result<(), SendFault>
    ensures bytes { Writes result (text.now ++ (decimal number ++ last.now)) (O.written output.old) (O.written output.new) }
    ensures settled { OnOk result (IsFlushed (O.written output.new) (O.flushed output.new)) }
    ensures lent { SinkLent (O.beside output.old) (O.beside output.new) (O.faults output.old) (O.faults output.new) }
    ensures cause { IsErrOf result SendFault.WriteFault → Rose (O.faults output.old) (O.faults output.new) }
{
    send(output, text)?;
    send_counted(output, number, last)
}

/// Says how many lines of the feed stand behind its last publish, where there are some. A fault of the output changes nothing
/// else.
pub fn say_behind<O: Sink>(output: &mut O, behind: u64)
    ensures lines { SaysAll (behind_lines behind) (output_state O.written O.flushed O.faults output.old) (output_state O.written O.flushed O.faults output.new) }
    ensures lent { SinkLent (O.beside output.old) (O.beside output.new) (O.faults output.old) (O.faults output.new) }
{
    if behind == 0 {
        return;
    }
    let _ = send_between(
        output,
        b"feed: ",
        behind,
        b" lines after the last publish\n",
    );
}

// Writes two texts, of which the second ends the line, and flushes.
fn send_two<O: Sink>(output: &mut O, text: &[u8], last: &[u8]) -> Result<(), SendFault>
    ensures bytes { Writes result (text.now ++ last.now) (O.written output.old) (O.written output.new) }
    ensures settled { OnOk result (IsFlushed (O.written output.new) (O.flushed output.new)) }
    ensures lent { SinkLent (O.beside output.old) (O.beside output.new) (O.faults output.old) (O.faults output.new) }
    ensures cause { IsErrOf result SendFault.WriteFault → Rose (O.faults output.old) (O.faults output.new) }
{
    send(output, text)?;
    send_text(output, last)
}

// Writes the line of a text and a name behind it, and flushes.
fn send_named<O: Sink>(output: &mut O, text: &[u8], name: &[u8]) -> Result<(), SendFault>
    ensures bytes { Writes result (named_line text.now name.now) (O.written output.old) (O.written output.new) }
    ensures settled { OnOk result (IsFlushed (O.written output.new) (O.flushed output.new)) }
    ensures lent { SinkLent (O.beside output.old) (O.beside output.new) (O.faults output.old) (O.faults output.new) }
    ensures cause { IsErrOf result SendFault.WriteFault → Rose (O.faults output.old) (O.faults output.new) }
{
    send(output, text)?;
    send_two(output, name, b"\n")
}

/// Says a line: a text, and a name behind it. A fault of the output changes nothing else.
pub fn say_named<O: Sink>(output: &mut O, text: &[u8], name: &[u8])
    ensures line { Says (named_line text.now name.now) (output_state O.written O.flushed O.faults output.old) (output_state O.written O.flushed O.faults output.new) }
    ensures lent { SinkLent (O.beside output.old) (O.beside output.new) (O.faults output.old) (O.faults output.new) }
{
    let _ = send_named(output, text, name);
}

/// Says how the daemon is asked: the usage line, and a line an option. A fault of the output changes nothing else.
pub fn say_help<O: Sink>(output: &mut O)
    ensures line { Says (help) (output_state O.written O.flushed O.faults output.old) (output_state O.written O.flushed O.faults output.new) }
    ensures lent { SinkLent (O.beside output.old) (O.beside output.new) (O.faults output.old) (O.faults output.new) }
{
    let _ = send_two(output, USAGE, OPTIONS);
}

// Writes the line of a name and the version, and flushes.
fn send_whole_version<O: Sink>(output: &mut O, name: &[u8]) -> Result<(), SendFault>
    ensures bytes { Writes result (version_line name.now) (O.written output.old) (O.written output.new) }
    ensures settled { OnOk result (IsFlushed (O.written output.new) (O.flushed output.new)) }
    ensures lent { SinkLent (O.beside output.old) (O.beside output.new) (O.faults output.old) (O.faults output.new) }
    ensures cause { IsErrOf result SendFault.WriteFault → Rose (O.faults output.old) (O.faults output.new) }
{
    send_version(output, name)?;
    settle(output)
}

/// Says the version. A fault of the output changes nothing else.
pub fn say_version<O: Sink>(output: &mut O)
    ensures line { Says (version_line (codes "edrd")) (output_state O.written O.flushed O.faults output.old) (output_state O.written O.flushed O.faults output.new) }
    ensures lent { SinkLent (O.beside output.old) (O.beside output.new) (O.faults output.old) (O.faults output.new) }
{
    let _ = send_whole_version(output, b"edrd");
}

/// Says how many connections were served, and how many of them ended by a fault. A fault of the output changes nothing else.
pub fn say_counts<O: Sink>(output: &mut O, served: u64, faulted: u64)
    ensures line { Says (count_line served faulted) (output_state O.written O.flushed O.faults output.old) (output_state O.written O.flushed O.faults output.new) }
    ensures lent { SinkLent (O.beside output.old) (O.beside output.new) (O.faults output.old) (O.faults output.new) }
{
    let _ = send_both(output, b"connections ", served, b", faults ", faulted);
}
