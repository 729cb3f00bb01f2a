//! How the end of a body is known.

/// How the end of the body of a reply is known (RFC 9112, section 6.3).
#[derive(Clone, Copy, Debug, PartialEq, Eq)]
pub enum Framing {
    /// It is in chunks.
    Chunked,
    /// It has so many bytes, which are at most 67,108,864.
    Sized(u64),
    /// It has more.
    TooLong,
    /// It ends with the input.
    ToEnd,
}
