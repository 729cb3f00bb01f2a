//! Cases: texts to be read, one after the other in one input.
use std::str;

/// What a text is read as.
#[derive(Clone, Copy, Debug, PartialEq, Eq)]
pub enum Reader {
    /// A whole number of a size up to 100,000,000.
    Number,
    /// An instant.
    Instant,
    /// Times of a request.
    Times,
    /// Levels of a request.
    Levels,
    /// Well-known text.
    Geometry,
    /// A document of CoverageJSON.
    Document,
    /// A feed.
    Feed,
    /// A target.
    Target,
}

/// A text, and what it is read as.
#[derive(Clone, Copy, Debug, PartialEq, Eq)]
pub struct Case<'a> {
    /// What it is read as.
    pub reader: Reader,
    /// The text.
    pub text: &'a [u8],
}

const LENGTH_DIGITS: usize = 8;

fn reader_of(mark: u8) -> Option<Reader> {
    match mark {
        b'n' => Some(Reader::Number),
        b'i' => Some(Reader::Instant),
        b't' => Some(Reader::Times),
        b'l' => Some(Reader::Levels),
        b'w' => Some(Reader::Geometry),
        b'd' => Some(Reader::Document),
        b'f' => Some(Reader::Feed),
        b'q' => Some(Reader::Target),
        _ => None,
    }
}

fn length_of(digits: &[u8]) -> Option<usize> {
    let text = str::from_utf8(digits).ok()?;
    text.parse::<usize>().ok()
}

/// The first case of an input, and what follows it: a mark of the reader, eight digits of a length, and so many bytes.
/// None where the input doesn't begin with one.
pub fn first_case(input: &[u8]) -> Option<(Case<'_>, &[u8])> {
    let (mark, rest) = input.split_first()?;
    let reader = reader_of(*mark)?;
    let (digits, rest) = rest.split_at_checked(LENGTH_DIGITS)?;
    let (text, rest) = rest.split_at_checked(length_of(digits)?)?;
    Some((Case { reader, text }, rest))
}
