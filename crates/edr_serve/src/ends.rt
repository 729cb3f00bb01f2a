//! Ends of sessions.

/// How a session ends.
#[derive(Clone, Copy, Debug, PartialEq, Eq)]
pub enum End {
    /// The input was at its end before another request.
    EndOfInput,
    /// The last request said `Connection: close` (RFC 9112, section 9.6).
    ClosedByPeer,
    /// The last head was refused, with the refusal of this number, from 1 to 4: what follows it can't be told from it.
    ClosedByRefusal(u8),
    /// The session answered as many requests as it may.
    RequestLimit,
}
