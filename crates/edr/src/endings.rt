//! How a run ends.
ghost use Rattle.std.specs.Prelude.{◌≡◌, ◌++◌, codes, None};
ghost use Rattle.std.specs.Fmt.{decimal};
ghost use Rattle.edr.specs.Ends.{status_of, said_of, line_of};
ghost use Rattle.edr.specs.Settling.{Settles};
ghost use Rattle.edr_base.specs.Calls.{SinkLent};
ghost use Rattle.edr_program.specs.Lines.{Tells};
ghost use Rattle.edr.specs.Naming.{feed_in, Says};
ghost use Rattle.edr.specs.declared.endings.ImportRefusal.TheVariants.{Refused};
ghost use Rattle.edr.specs.declared.endings.Ending.TheVariants.{NoDocument, NoTable};

use crate::helping::USAGE;
use edr_base::{Refusal, SendFault, Sink, send, settle};
use edr_feed::FeedRefusal;
use edr_import::TableRefusal;
use edr_program::{said_of_feed, tell_explained};
use itoa::Buffer;

/// Why no document is read.
#[derive(Clone, Copy, Debug, PartialEq, Eq)]
pub enum DocumentRefusal {
    /// It has more bytes than a document may have.
    TooLong,
    /// Its text stands for no document.
    Cov,
    /// What a peer gave begins with no reply.
    BadReply,
    /// The reply of a peer has this status, which isn't 200.
    NotData(u16),
}

/// Why no table is imported.
#[derive(Clone, Copy, Debug, PartialEq, Eq)]
pub enum ImportRefusal {
    /// The input has more bytes than a table may have.
    TooLong,
    /// The table makes no feed.
    Refused(TableRefusal),
}

/// How a run ends, by its cause.
#[derive(Clone, Copy, Debug, PartialEq, Eq)]
pub enum Ending {
    /// All was done.
    Done,
    /// The words are none of the commands'.
    Usage,
    /// The input is no feed.
    NotFeed(FeedRefusal),
    /// A read failed.
    ReadFault,
    /// A write failed.
    WriteFault,
    /// Memory was wanting.
    OutOfMemory,
    /// The target was refused.
    Refused(Refusal),
    /// No document was read, from the input or from a peer.
    NoDocument(DocumentRefusal),
    /// A peer couldn't be connected to.
    ConnectFault,
    /// A file couldn't be opened.
    OpenFault,
    /// The input makes no feed as a table.
    NoTable(ImportRefusal),
}

impl Ending {
    /// The status of the program.
    pub fn status(self) -> u8
        ensures { result ≡ status_of self }
    {
        match self {
            Ending::Done => 0,
            Ending::Usage => 1,
            Ending::NotFeed(_) => 2,
            Ending::ReadFault => 3,
            Ending::WriteFault => 4,
            Ending::OutOfMemory => 5,
            Ending::Refused(_) => 6,
            Ending::NoDocument(_) => 7,
            Ending::ConnectFault => 8,
            Ending::OpenFault => 9,
            Ending::NoTable(_) => 11,
        }
    }
}

// What is said where no document is read, and the status of a reply that is named behind it.
fn said_of_document(refusal: DocumentRefusal) -> (&'static [u8], Option<u64>)
    ensures { Says result.0.now result.1 (said_of (NoDocument refusal)) }
{
    match refusal {
        DocumentRefusal::TooLong => (b"reply: TooLong", None),
        DocumentRefusal::Cov => (b"reply: Cov", None),
        DocumentRefusal::BadReply => (b"reply: BadReply", None),
        DocumentRefusal::NotData(status) => (b"reply: NotData ", Some(u64::from(status))),
    }
}

// What is said where a table makes no feed, and the number of a record that is named behind it.
fn said_of_table(refusal: TableRefusal) -> (&'static [u8], Option<u64>)
    ensures { Says result.0.now result.1 (said_of (NoTable (Refused refusal))) }
{
    match refusal {
        TableRefusal::NotHeader => (b"table: NotHeader", None),
        TableRefusal::BadRecord(number) => (b"table: BadRecord record ", Some(number as u64)),
        TableRefusal::BadField(number, _) => (b"table: BadField record ", Some(number as u64)),
        TableRefusal::PlaceDiffers(number) => (b"table: PlaceDiffers record ", Some(number as u64)),
        TableRefusal::SameSample(number) => (b"table: SameSample record ", Some(number as u64)),
        TableRefusal::NoRecords => (b"table: NoRecords", None),
        TableRefusal::TooManyParameters(_) => (b"table: TooManyParameters", None),
        TableRefusal::TooManySamples(_) => (b"table: TooManySamples", None),
    }
}

// What the line of an ending says, and a number behind it; not that of a feed that is refused.
fn said(ending: Ending) -> (&'static [u8], Option<u64>)
    requires { feed_in ending ≡ None }
    ensures { Says result.0.now result.1 (said_of ending) }
{
    match ending {
        Ending::Done => (b"", None),
        Ending::Usage => (USAGE, None),
        Ending::NotFeed(_) => (b"", None),
        Ending::ReadFault => (b"read fault", None),
        Ending::WriteFault => (b"write fault", None),
        Ending::OutOfMemory => (b"out of memory", None),
        Ending::Refused(refusal) => (refusal.body(), None),
        Ending::NoDocument(refusal) => said_of_document(refusal),
        Ending::ConnectFault => (b"connect fault", None),
        Ending::OpenFault => (b"open fault", None),
        Ending::NoTable(ImportRefusal::TooLong) => (b"table: TooLong", None),
        Ending::NoTable(ImportRefusal::Refused(refusal)) => said_of_table(refusal),
    }
}

/// Flushes, where all was written.
pub fn settled<K: Sink>(output: &mut K) -> Ending
    ensures written { K.written output.new ≡ K.written output.old }
    ensures settles { Settles result (K.faults output.old) (K.faults output.new) (K.written output.new) (K.flushed output.new) }
    ensures lent { SinkLent (K.beside output.old) (K.beside output.new) (K.faults output.old) (K.faults output.new) }
{
    match settle(output) {
        Ok(()) => Ending::Done,
        Err(SendFault::WriteFault) => Ending::WriteFault,
        Err(SendFault::OutOfMemory) => Ending::OutOfMemory,
    }
}

// Writes a line that ends in a number, and what explains it.
fn tell_number<D: Sink>(errors: &mut D, front: &[u8], number: u64, explained: &[u8])
    ensures line { Tells (front.now ++ (decimal number ++ (explained.now ++ codes "\n"))) (D.written errors.old) (D.written errors.new) (D.faults errors.old) (D.faults errors.new) }
    ensures lent { SinkLent (D.beside errors.old) (D.beside errors.new) (D.faults errors.old) (D.faults errors.new) }
{
    match send(errors, front) {
        Ok(()) => {
            let mut buffer = Buffer::new();
            tell_explained(errors, buffer.format(number).as_bytes(), None, explained);
        }
        Err(_) => {}
    }
}

// Writes the line of an ending that is no refusal of a feed, and what explains it.
fn tell_said<D: Sink>(ending: Ending, explained: &[u8], errors: &mut D)
    requires { feed_in ending ≡ None }
    ensures line { Tells (said_of ending ++ (explained.now ++ codes "\n")) (D.written errors.old) (D.written errors.new) (D.faults errors.old) (D.faults errors.new) }
    ensures lent { SinkLent (D.beside errors.old) (D.beside errors.new) (D.faults errors.old) (D.faults errors.new) }
{
    let (text, number) = said(ending);
    match number {
        Some(number) => tell_number(errors, text, number, explained),
        None => tell_explained(errors, text, None, explained),
    }
}

// The refusal of a feed that an ending names.
fn feed_in(ending: Ending) -> Option<FeedRefusal>
    ensures { result ≡ feed_in ending }
{
    match ending {
        Ending::NotFeed(refusal) => Some(refusal),
        _ => None,
    }
}

/// Writes the line of an ending on the errors, where it has one, with what explains it. A fault of theirs changes nothing else.
pub fn tell<D: Sink>(ending: Ending, explained: &[u8], errors: &mut D)
    ensures line { Tells (line_of ending explained.now) (D.written errors.old) (D.written errors.new) (D.faults errors.old) (D.faults errors.new) }
    ensures lent { SinkLent (D.beside errors.old) (D.beside errors.new) (D.faults errors.old) (D.faults errors.new) }
{
    if let Ending::Done = ending {
        return;
    }
    match feed_in(ending) {
        Some(refusal) => {
            let (text, line) = said_of_feed(refusal);
            tell_explained(errors, text, line, explained);
        }
        None => tell_said(ending, explained, errors),
    }
}
