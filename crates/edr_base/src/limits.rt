//! The limits of the product.

/// The size of a coordinate or a level in metres is at most that.
pub const COORDINATE_LIMIT: u64 = 100_000_000;

/// The earliest time, 0000-01-01T00:00:00Z, in seconds since 1970-01-01T00:00:00Z.
pub const EARLIEST_TIME: i64 = -62_167_219_200;

/// The latest time, 9999-12-31T23:59:59Z.
pub const LATEST_TIME: i64 = 253_402_300_799;

/// The size of a sample is at most that.
pub const SAMPLE_LIMIT: u64 = 9_007_199_254_740_991;

/// A name has at most so many bytes.
pub(crate) const NAME_LIMIT: usize = 128;

/// A geometry has at most so many positions.
pub const POSITION_LIMIT: usize = 10_000;

/// A grid has at most so many nodes for each parameter.
pub const NODE_LIMIT: usize = 4_000_000;

/// A line of a feed has at most so many bytes, without its line feed.
pub const LINE_LIMIT: usize = 16_777_216;

/// A feed has at most so many bytes.
pub const FEED_LIMIT: usize = 1_073_741_824;

/// A reader takes at most so many bytes at once.
pub const BUFFER_SIZE: usize = 16_384;
