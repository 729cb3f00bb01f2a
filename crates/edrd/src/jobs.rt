//! The jobs that serve.
ghost use Rattle.std.specs.Prelude.{◌≤◌};
ghost use Rattle.edr_serve.specs.Requests.{request_limit};

use edr_share::SharedShelf;

/// What serves the connections of one acceptor, from one shelf.
#[derive(Drop)]
pub struct Serving<A> {
    pub acceptor: A,
    pub shelf: SharedShelf,
    /// How many requests each connection may have.
    pub requests: u32,
    /// How many connections it served.
    pub sessions: u64,
    /// How many of them ended with a fault of their session.
    pub session_faults: u64,
    /// Whether an accept failed.
    pub failed: bool,
    ghost bounded: { (1 ≤ requests) × (requests ≤ request_limit) },
}
