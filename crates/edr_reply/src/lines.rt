//! Lines at the front of some bytes: those that give the size of a chunk, and line ends.
ghost use Rattle.std.specs.Prelude.{◌≤◌, length};
ghost use Rattle.edr_base.specs.Calls.{buffer_size};
ghost use Rattle.edr_reply.specs.Finding.{TellsLine, TellsEnd};

use edr_base::without_front;
use httparse::{Status, parse_chunk_size};

/// A line has at most so many bytes, with its end.
pub(crate) const SIZE_LINE_LIMIT: usize = 16_384;

/// A line that gives the size of a chunk: how many bytes it has, and the size.
#[derive(Clone, Copy)]
pub(crate) struct SizeLine {
    pub(crate) len: usize,
    pub(crate) size: u64,
}

/// What is at the front of some bytes.
#[derive(Clone, Copy)]
pub(crate) enum FoundLine {
    /// Such a line.
    Got(SizeLine),
    /// No line yet.
    NeedMore,
    /// No line, or none that gives a size with room, whatever follows.
    Bad,
}

/// Looks for a line at the front of some bytes that gives a size of at most `room` bytes.
#[tactic(auto, using(crate::proofs::FrontLemmas::line_never, crate::proofs::FrontLemmas::line_invalid, crate::proofs::FrontLemmas::line_none, crate::proofs::FrontLemmas::line_beyond))]
pub(crate) fn find_line(bytes: &[u8], room: u64) -> FoundLine
    requires { length bytes.now ≤ buffer_size }
    ensures { TellsLine room bytes.now result }
{
    match parse_chunk_size(bytes) {
        Ok(Status::Complete((len, size))) => {
            if size <= room {
                FoundLine::Got(SizeLine { len, size })
            } else {
                FoundLine::Bad
            }
        }
        Ok(Status::Partial) => {
            if bytes.len() < SIZE_LINE_LIMIT {
                FoundLine::NeedMore
            } else {
                FoundLine::Bad
            }
        }
        Err(_) => FoundLine::Bad,
    }
}

/// Whether some bytes begin with a line end.
#[derive(Clone, Copy)]
pub(crate) enum FoundEnd {
    Got,
    /// Not yet.
    NeedMore,
    /// No, whatever follows.
    Bad,
}

/// Looks for a line end at the front of some bytes.
#[tactic(auto, using(crate::proofs::FrontLemmas::end_short, crate::proofs::FrontLemmas::end_never))]
pub(crate) fn find_end(bytes: &[u8]) -> FoundEnd
    ensures { TellsEnd bytes.now result }
{
    match without_front(bytes, b"\r\n") {
        Some(_) => FoundEnd::Got,
        None => {
            if bytes.len() < 2 {
                FoundEnd::NeedMore
            } else {
                FoundEnd::Bad
            }
        }
    }
}
