//! The line that tells how a run ended.
ghost use Rattle.std.specs.Prelude.{◌≡◌, ◌++◌, codes, IsErrOf};
ghost use Rattle.edr_program.specs.Lines.{feed_said, place_of, Tells};
ghost use Rattle.edr_base.specs.Calls.{SinkLent, Writes};
ghost use Rattle.edr_base.specs.Outside.{Rose};

use edr_base::{SendFault, Sink, send, settle};
use edr_feed::FeedRefusal;
use itoa::Buffer;

/// What is said where a feed is refused: the name of the refusal, and the line of the feed where one is named.
pub fn said_of_feed(refusal: FeedRefusal) -> (&'static [u8], Option<usize>)
    ensures { result.0.now ++ place_of result.1 ≡ feed_said refusal }
{
    match refusal {
        FeedRefusal::TooLong => (b"feed: TooLong", None),
        FeedRefusal::LineTooLong(line) => (b"feed: LineTooLong", Some(line)),
        FeedRefusal::NotJson(line) => (b"feed: NotJson", Some(line)),
        FeedRefusal::NotFeedLine(line) => (b"feed: NotFeedLine", Some(line)),
        FeedRefusal::Cov(line) => (b"feed: Cov", Some(line)),
        FeedRefusal::Change(line) => (b"feed: Change", Some(line)),
        FeedRefusal::NothingPublished => (b"feed: NothingPublished", None),
    }
}

/// Writes one text and then another.
pub fn send_both<D: Sink>(sink: &mut D, first: &[u8], second: &[u8]) -> Result<(), SendFault>
    ensures bytes { Writes result (first.now ++ second.now) (D.written sink.old) (D.written sink.new) }
    ensures lent { SinkLent (D.beside sink.old) (D.beside sink.new) (D.faults sink.old) (D.faults sink.new) }
    ensures cause { IsErrOf result SendFault.WriteFault → Rose (D.faults sink.old) (D.faults sink.new) }
{
    send(sink, first)?;
    send(sink, second)
}

// Writes the line of the feed that is named, where there is one.
fn send_place<D: Sink>(sink: &mut D, line: Option<usize>) -> Result<(), SendFault>
    ensures bytes { Writes result (place_of line) (D.written sink.old) (D.written sink.new) }
    ensures lent { SinkLent (D.beside sink.old) (D.beside sink.new) (D.faults sink.old) (D.faults sink.new) }
    ensures cause { IsErrOf result SendFault.WriteFault → Rose (D.faults sink.old) (D.faults sink.new) }
{
    match line {
        Some(line) => {
            let mut buffer = Buffer::new();
            send_both(sink, b" line ", buffer.format(line).as_bytes())
        }
        None => send(sink, b""),
    }
}

// Writes the line of the feed that is named, where there is one, a text behind it, and a line feed.
fn send_end<D: Sink>(sink: &mut D, line: Option<usize>, behind: &[u8]) -> Result<(), SendFault>
    ensures bytes { Writes result (place_of line ++ (behind.now ++ codes "\n")) (D.written sink.old) (D.written sink.new) }
    ensures lent { SinkLent (D.beside sink.old) (D.beside sink.new) (D.faults sink.old) (D.faults sink.new) }
    ensures cause { IsErrOf result SendFault.WriteFault → Rose (D.faults sink.old) (D.faults sink.new) }
{
    send_place(sink, line)?;
    send_both(sink, behind, b"\n")
}

// Writes a text, the line of the feed that is named, a text behind that, and a line feed.
fn send_line<D: Sink>(
    sink: &mut D,
    text: &[u8],
    line: Option<usize>,
    behind: &[u8],
) -> Result<(), SendFault>
    ensures bytes { Writes result (text.now ++ (place_of line ++ (behind.now ++ codes "\n"))) (D.written sink.old) (D.written sink.new) }
    ensures lent { SinkLent (D.beside sink.old) (D.beside sink.new) (D.faults sink.old) (D.faults sink.new) }
    ensures cause { IsErrOf result SendFault.WriteFault → Rose (D.faults sink.old) (D.faults sink.new) }
{
    send(sink, text)?;
    send_end(sink, line, behind)
}

/// Writes one line on the errors: a text, the line of the feed that is named, a text behind that, and a line feed. A fault of
/// theirs changes nothing else.
pub fn tell_explained<D: Sink>(errors: &mut D, text: &[u8], line: Option<usize>, behind: &[u8])
    ensures line { Tells (text.now ++ (place_of line ++ (behind.now ++ codes "\n"))) (D.written errors.old) (D.written errors.new) (D.faults errors.old) (D.faults errors.new) }
    ensures lent { SinkLent (D.beside errors.old) (D.beside errors.new) (D.faults errors.old) (D.faults errors.new) }
{
    let _ = send_line(errors, text, line, behind);
    let _ = settle(errors);
}

/// Writes one line on the errors: a text, the line of the feed that is named behind it, and a line feed. A fault of theirs
/// changes nothing else.
pub fn tell_line<D: Sink>(errors: &mut D, text: &[u8], line: Option<usize>)
    ensures line { Tells (text.now ++ (place_of line ++ codes "\n")) (D.written errors.old) (D.written errors.new) (D.faults errors.old) (D.faults errors.new) }
    ensures lent { SinkLent (D.beside errors.old) (D.beside errors.new) (D.faults errors.old) (D.faults errors.new) }
{
    tell_explained(errors, text, line, b"");
}
