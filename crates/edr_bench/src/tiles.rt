//! Packed grids whose tiles are opened.
ghost use Rattle.std.specs.Prelude.{◌≡◌, length, IfOk};
ghost use Rattle.edr_base.specs.Limits.{IsSample, AreSamples};

use crate::answers::BenchFault;
use edr_base::OutOfMemory;
use edr_chunk::{GridShape, PackedGrid, Reads};
use std::alloc::Global;

const SIDE: u32 = 2000;

const NODES: u32 = 4_000_000;

/// What the samples of a grid are like.
#[derive(Clone, Copy, Debug, PartialEq, Eq)]
pub enum Samples {
    /// Of one digit.
    OneDigit,
    /// Of up to five digits.
    FiveDigits,
}

fn sample(samples: Samples, number: u32) -> i64
    ensures { IsSample result }
{
    match samples {
        Samples::OneDigit => (number % 10) as i64,
        Samples::FiveDigits => (number % 99_991) as i64,
    }
}

// The samples of a grid.
fn values(alloc: Global, samples: Samples) -> Result<Vec<Option<i64>>, OutOfMemory>
    ensures many { IfOk result (λ values. length values.items ≡ 4_000_000) }
    ensures samples { IfOk result (λ values. AreSamples values.items) }
{
    let mut values = Vec::with_capacity(alloc, NODES as usize)?;
    for number in 0..NODES {
        values.push(Some(sample(samples, number)))?;
    }
    Ok(values)
}

/// Packs a grid of 2,000 by 2,000 samples, opens each of its tiles so many times, and answers how many were opened.
pub fn open_tiles(alloc: Global, samples: Samples, rounds: u32) -> Result<usize, BenchFault> {
    let shape = GridShape {
        parameters: 1,
        times: 1,
        levels: 1,
        rows: SIDE,
        columns: SIDE,
    };
    let grid = PackedGrid::pack(alloc, shape, &values(alloc, samples)?)?;
    let mut opened: usize = 0;
    for _ in 0..rounds {
        let mut reads = Reads::new(alloc);
        for tile in 0..grid.tiles() {
            let _ = grid.open(alloc, tile, &mut reads)?;
        }
        opened = opened.saturating_add(reads.numbers().len());
    }
    Ok(opened)
}
