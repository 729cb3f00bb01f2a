//! The limits of a table of observations.

/// A table that is read has at most so many bytes.
pub const TABLE_LIMIT: usize = 67_108_864;

/// A table has at most so many parameters.
pub const PARAMETER_LIMIT: usize = 1_000;

/// The stations of a table have at most so many samples together: times by parameters.
pub const SAMPLES_LIMIT: u64 = 200_000;
