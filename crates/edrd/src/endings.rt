//! How a run ends.
ghost use Rattle.std.specs.Prelude.{◌≡◌, ◌++◌};
ghost use Rattle.edr_base.specs.Calls.{SinkLent};
ghost use Rattle.edr_program.specs.Lines.{place_of, Tells};
ghost use Rattle.edrd.specs.Ends.{status_of, said_of, line_of};

use edr_base::Sink;
use edr_console::USAGE;
use edr_feed::FeedRefusal;
use edr_program::{said_of_feed, tell_line};

/// How a run ends, by its cause.
#[derive(Clone, Copy, Debug, PartialEq, Eq)]
pub enum Ending {
    /// All was done.
    Done,
    /// The words are refused.
    Usage,
    /// The file is no feed.
    NotFeed(FeedRefusal),
    /// A read of the file failed.
    ReadFault,
    /// Memory was wanting.
    OutOfMemory,
    /// The file couldn't be opened.
    OpenFault,
    /// The doors couldn't be opened.
    BindFault,
    /// A reader of the shelf got no place.
    ShelfFault,
}

impl Ending {
    /// The status of the program.
    pub fn status(self) -> u8
        ensures { result ≡ status_of self }
    {
        match self {
            Ending::Done => 0,
            Ending::Usage => 1,
            Ending::NotFeed(_) => 2,
            Ending::ReadFault => 3,
            Ending::OutOfMemory => 5,
            Ending::OpenFault => 9,
            Ending::BindFault => 10,
            Ending::ShelfFault => 11,
        }
    }
}

// What the line of an ending says, and the line of the feed that it names behind that.
fn said(ending: Ending) -> (&'static [u8], Option<usize>)
    ensures { result.0.now ++ place_of result.1 ≡ said_of ending }
{
    match ending {
        Ending::Done => (b"", None),
        Ending::Usage => (USAGE, None),
        Ending::NotFeed(refusal) => said_of_feed(refusal),
        Ending::ReadFault => (b"read fault", None),
        Ending::OutOfMemory => (b"out of memory", None),
        Ending::OpenFault => (b"open fault", None),
        Ending::BindFault => (b"bind fault", None),
        Ending::ShelfFault => (b"shelf fault", None),
    }
}

/// Writes the line of an ending on the errors, where it has one. A fault of theirs changes nothing else.
pub fn tell<D: Sink>(ending: Ending, errors: &mut D)
    ensures line { Tells (line_of ending) (D.written errors.old) (D.written errors.new) (D.faults errors.old) (D.faults errors.new) }
    ensures lent { SinkLent (D.beside errors.old) (D.beside errors.new) (D.faults errors.old) (D.faults errors.new) }
{
    if let Ending::Done = ending {
        return;
    }
    let (text, line) = said(ending);
    tell_line(errors, text, line);
}
