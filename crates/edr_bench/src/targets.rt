//! Targets that are read.
use crate::answers::BenchFault;
use edr_base::cut_at;
use edr_query::{TargetFault, read_target};
use std::alloc::Global;

// Whether a target asks for a page.
fn is_page(alloc: Global, target: &[u8]) -> Result<bool, BenchFault> {
    match read_target(alloc, target) {
        Ok(_) => Ok(true),
        Err(TargetFault::Refused(_)) => Ok(false),
        Err(TargetFault::OutOfMemory) => Err(BenchFault::OutOfMemory),
    }
}

/// Reads each line of a text as a target so many times, and answers how many ask for a page.
pub fn read_targets(alloc: Global, text: &[u8], rounds: u32) -> Result<usize, BenchFault> {
    let mut pages: usize = 0;
    for _ in 0..rounds {
        pages = 0;
        for target in text.split(|byte| *byte == b'\n') {
            if is_page(alloc, target)? {
                pages = pages.saturating_add(1);
            }
        }
    }
    Ok(pages)
}

// How many pairs a query text has, each decoded.
fn count_pairs(alloc: Global, text: &[u8]) -> Result<usize, BenchFault> {
    let mut pairs: usize = 0;
    for (name, value) in form_urlencoded::raw_pairs(text) {
        let name = form_urlencoded::decode(alloc, name)?;
        let value = form_urlencoded::decode(alloc, value)?.into_owned(alloc)?;
        if !name.as_str().is_empty() || !value.as_str().is_empty() {
            pairs = pairs.saturating_add(1);
        }
    }
    Ok(pairs)
}

/// Cuts and decodes the pairs of each line of a text, behind its first `?`, so many times, and answers how many there are.
pub fn decode_pairs(alloc: Global, text: &[u8], rounds: u32) -> Result<usize, BenchFault> {
    let mut pairs: usize = 0;
    for _ in 0..rounds {
        pairs = 0;
        for target in text.split(|byte| *byte == b'\n') {
            if let Some((_, query)) = cut_at(target, b'?') {
                pairs = pairs.saturating_add(count_pairs(alloc, query)?);
            }
        }
    }
    Ok(pairs)
}
