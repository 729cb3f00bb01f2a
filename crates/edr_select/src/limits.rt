//! The limits of one reply.

/// The ranges of a reply have at most so many values.
pub const VALUE_LIMIT: u64 = 2_000_000;

/// A reply has at most so many coverages.
pub const COVERAGE_LIMIT: usize = 5_000;
