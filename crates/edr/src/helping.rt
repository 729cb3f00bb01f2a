//! Tells how the program is used.
ghost use Rattle.std.specs.Prelude.{◌≡◌, codes, false, IsErrOf};
ghost use Rattle.edr_base.specs.Calls.{SinkLent, Writes};
ghost use Rattle.edr_base.specs.Outside.{Rose};
ghost use Rattle.edr_program.specs.Versions.{version_line};
ghost use Rattle.edr.specs.Ends.{OutputEnds};
ghost use Rattle.edr.specs.Helps.{help};
ghost use Rattle.edr.specs.Making.{MakeCause};

use crate::endings::{Ending, settled};
use edr_base::{SendFault, Sink};
use edr_program::{send_both, send_version};

/// The usage line, without its line feed.
pub const USAGE: &[u8] =
    b"usage: edr ask TARGET | replay FEED [--advance] | check [--summary] [--why] | make NUMBER | work NUMBER | show [--why] | fetch URL [--why] | import | export TARGET | --help | --version";

// The end of the usage line, and a line for each command.
const COMMAND_LINES: &[u8] =
    b"\nask TARGET                  answer the target from the last edition of the feed on standard input\nreplay FEED [--advance]     serve standard input as a connection, from the editions of the feed in the file\ncheck [--summary]           tell how many editions the feed on standard input has, or what each has\nmake NUMBER                 write the feed that is made of the number\nwork NUMBER                 make that feed, read it, and tell of its edition and of four answers\nshow                        write the table of the document of CoverageJSON on standard input\nfetch URL                   ask the server of the URL, and write the table of the document in its reply\nimport                      write the feed of the table of observations on standard input\nexport TARGET               write the values that the last edition of the feed on standard input answers, as a table\n--why                       with check, show and fetch: say too why there is no feed, document or reply\n--help                      write this\n--version                   write the version\n";

// Writes how the program is used.
fn send_help<K: Sink>(sink: &mut K) -> Result<(), SendFault>
    ensures bytes { Writes result help (K.written sink.old) (K.written sink.new) }
    ensures lent { SinkLent (K.beside sink.old) (K.beside sink.new) (K.faults sink.old) (K.faults sink.new) }
    ensures cause { IsErrOf result SendFault.WriteFault → Rose (K.faults sink.old) (K.faults sink.new) }
{
    send_both(sink, USAGE, COMMAND_LINES)
}

/// Writes how the program is used, and flushes.
#[tactic(auto, using(crate::proofs::EndLemmas::settled_make))]
pub fn tell_help<K: Sink>(output: &mut K) -> Ending
    ensures output { OutputEnds result false (λ text. text ≡ help) (λ text. text ≡ help)
        (K.written output.old) (K.written output.new) (K.flushed output.new) }
    ensures cause { MakeCause result (K.faults output.old) (K.faults output.new) }
    ensures lent { SinkLent (K.beside output.old) (K.beside output.new) (K.faults output.old) (K.faults output.new) }
{
    match send_help(output) {
        Ok(()) => settled(output),
        Err(SendFault::WriteFault) => Ending::WriteFault,
        Err(SendFault::OutOfMemory) => Ending::OutOfMemory,
    }
}

/// Writes the version, and flushes.
#[tactic(auto, using(crate::proofs::EndLemmas::settled_make))]
pub fn tell_version<K: Sink>(output: &mut K) -> Ending
    ensures output { OutputEnds result false (λ text. text ≡ version_line (codes "edr")) (λ text. text ≡ version_line (codes "edr"))
        (K.written output.old) (K.written output.new) (K.flushed output.new) }
    ensures cause { MakeCause result (K.faults output.old) (K.faults output.new) }
    ensures lent { SinkLent (K.beside output.old) (K.beside output.new) (K.faults output.old) (K.faults output.new) }
{
    match send_version(output, b"edr") {
        Ok(()) => settled(output),
        Err(SendFault::WriteFault) => Ending::WriteFault,
        Err(SendFault::OutOfMemory) => Ending::OutOfMemory,
    }
}
