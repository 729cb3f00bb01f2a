//! Serving from the editions of a feed.
ghost use Rattle.std.specs.Prelude.{◌≡◌, ◌≤◌, vec_len, All, IfOk, false};
ghost use Rattle.edr_edition.specs.Shelves.{IsLog};
ghost use Rattle.edr_console.specs.Limits.{worker_limit};

use crate::accept::Accept;
use crate::choosing::begin_with;
use crate::gate::Gate;
use crate::serving::{ServeReport, serve_connections};
use edr_base::{MemorySink, MemorySource, OutOfMemory};
use edr_edition::Edition;
use edr_feed::read_feed;
use edr_share::{Places, open_shelf};
use std::alloc::Global;
use std::sync::Wait;
use std::thread::Threads;

// The editions of a feed.
fn editions_of(alloc: Global, feed: &[u8]) -> Result<Vec<Edition>, OutOfMemory>
    ensures { IfOk result (λ editions. IsLog editions.items) }
{
    let mut file = MemorySource::of(Vec::from_slice(alloc, feed)?, 4096, Vec::new(alloc));
    match read_feed(alloc, &mut file) {
        Ok(feed) => Ok(feed.editions.into_vec()),
        Err(_) => Err(OutOfMemory),
    }
}

/// What serving came to; `last` is the number of the last edition that is published.
#[derive(Drop)]
pub(crate) struct Outcome<A> {
    pub(crate) sessions: u64,
    pub(crate) session_faults: u64,
    pub(crate) accept_faults: u64,
    pub(crate) published: u64,
    pub(crate) last: u64,
    pub(crate) acceptors: Vec<A>,
}

/// Serves the connections of some acceptors from the editions of a feed.
pub(crate) fn serve_feed<R: Threads + Wait + Sync, A: Accept + Send + Drop, G: Gate + Send + Drop>(
    rt: &R,
    alloc: Global,
    feed: &[u8],
    acceptors: Vec<A>,
    gate: G,
) -> Result<Outcome<A>, OutOfMemory>
    requires few { (1 ≤ vec_len acceptors) × (vec_len acceptors ≤ worker_limit) }
    requires open_ { All (λ acceptor. A.over acceptor ≡ false) acceptors.items }
    requires gate { G.shut gate ≡ false }
{
    let (first, editions) = begin_with(false, editions_of(alloc, feed)?);
    let mut places = Places::new();
    let Ok((publisher, shelves)) = open_shelf(rt, alloc, first, acceptors.len(), &mut places) else {
        return Err(OutOfMemory);
    };
    let mut output = MemorySink::of(alloc, 4096, Vec::new(alloc));
    let ServeReport {
        sessions,
        session_faults,
        accept_faults,
        published,
        acceptors,
        gate: _,
        mut publisher,
    } = serve_connections(
        rt,
        alloc,
        publisher,
        editions,
        shelves,
        acceptors,
        100,
        gate,
        &mut output,
    )?;
    let last = publisher.tell().number();
    publisher.end(rt);
    Ok(Outcome {
        sessions,
        session_faults,
        accept_faults,
        published,
        last,
        acceptors,
    })
}
