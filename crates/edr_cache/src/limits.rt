//! The limits of what is kept.

/// A store keeps at most so many bodies.
pub const CAPACITY_LIMIT: usize = 1_000;

/// A body of more bytes isn't kept.
pub const KEPT_LIMIT: usize = 65_536;
