//! Targets that are answered from a feed.
use crate::answers::BenchFault;
use edr_base::{MemorySink, Source};
use edr_edition::Edition;
use edr_feed::read_feed;
use edr_serve::answer;
use std::alloc::Global;

// Answers a target once, and tells how many bytes the answer has.
fn answer_once(alloc: Global, target: &[u8], edition: &Edition) -> Result<usize, BenchFault> {
    let mut sink = MemorySink::of(alloc, 65_536, Vec::new(alloc));
    answer(alloc, target, edition, &mut sink)?;
    Ok(sink.written().len())
}

// Answers a target so many times.
fn answer_rounds(
    alloc: Global,
    target: &[u8],
    edition: &Edition,
    rounds: u32,
) -> Result<usize, BenchFault> {
    let mut length = 0;
    for _ in 0..rounds {
        length = answer_once(alloc, target, edition)?;
    }
    Ok(length)
}

/// Reads a feed, answers a target from its last edition so many times, and tells how many bytes the answer has.
pub fn answer_from_feed<S: Source>(
    alloc: Global,
    input: &mut S,
    target: &[u8],
    rounds: u32,
) -> Result<usize, BenchFault> {
    let feed = read_feed(alloc, input)?;
    match feed.editions.items().last() {
        Some(edition) => answer_rounds(alloc, target, edition, rounds),
        None => Err(BenchFault::Input),
    }
}
