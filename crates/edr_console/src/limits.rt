//! The limits of the daemon, and what stands for the numbers that words leave out.

/// A port is at most that.
pub const PORT_LIMIT: u64 = 65_535;

/// There are at most so many workers, and so doors.
pub const WORKER_LIMIT: u64 = 64;

/// So many workers are there where the words leave their number out.
pub const DEFAULT_WORKERS: u64 = 2;

/// The pause before each publish is at most that, in seconds.
pub const PAUSE_LIMIT: u64 = 86_400;

/// The pause where the words leave it out, in seconds.
pub const DEFAULT_PAUSE: u64 = 60;

/// A connection may be idle for at most that, in seconds.
pub const IDLE_LIMIT: u64 = 86_400;

/// So long may it be idle where the words leave it out, in seconds.
pub const DEFAULT_IDLE: u64 = 30;

/// A connection may have at most so many requests, which no session takes more of.
pub const REQUEST_LIMIT: u64 = 1_000;

/// So many requests may a connection have where the words leave their number out.
pub const DEFAULT_REQUESTS: u64 = 100;

/// The words ask for at most so many connections of each worker.
pub const CONNECTION_LIMIT: u64 = 1_000_000;

/// So many connections are no end of them, which the words ask for where they leave the number out.
pub const ENDLESS: u64 = 0;

/// An acceptor hands out at most so many connections, also where no end of them is asked for.
pub const ACCEPT_LIMIT: u64 = 1_000_000_000_000;

/// A gate lets at most so many editions pass.
pub const GRANT_LIMIT: u64 = 1_000_000_000_000;
