//! The limit of a session.

/// A session may be given at most so many requests; the reply to the last of those that it is given closes the connection.
pub const REQUEST_LIMIT: u32 = 1_000;
