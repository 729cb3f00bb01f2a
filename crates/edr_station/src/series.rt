//! The values of one parameter of a station, in packed blocks.
ghost use Rattle.std.specs.Prelude.{◌≡◌, ◌<◌, ◌*◌, length, IfOk};
ghost use Rattle.edr_station.specs.Blocks.{block_length, blocks_along, cut_block};
ghost use Rattle.edr_station.specs.KeptBlocks.{Filled};
ghost use Rattle.edr_station.specs.Tallies.{tally_of};
ghost use Rattle.edr_base.specs.Limits.{AreSamples};

use crate::few::Few;
use crate::tallies::Tally;
use edr_base::OutOfMemory;
use edr_chunk::Packed;
use std::alloc::Global;
use std::marker::Model;

/// How many values a block holds at most.
pub const BLOCK_LENGTH: usize = 256;

/// A list of samples in packed blocks: [`BLOCK_LENGTH`] values each, and the last one the rest.
#[derive(Drop)]
pub struct Series {
    blocks: Few<Packed>,
}

impl Model for Series {
    ghost use Rattle.std.specs.Prelude.{ℤ, Option, List};
    ghost use Rattle.edr_station.specs.KeptBlocks.{values_of, AreBlocks};

    ghost Value = { List (Option ℤ) };

    ghost view = { λ s. values_of s.blocks };

    ghost invariant = { λ s. AreBlocks s.blocks };
}

// The values of a block of a list.
fn part_of(values: &[Option<i64>], block: usize) -> &[Option<i64>]
    requires { block * block_length < length values.now }
    ensures { result.now ≡ cut_block block values.now }
{
    let rest = &values[block * BLOCK_LENGTH..];
    &rest[..rest.len().min(BLOCK_LENGTH)]
}

// The packed blocks of a list.
fn packed_blocks(alloc: Global, values: &[Option<i64>]) -> Result<Vec<Packed>, OutOfMemory>
    requires { AreSamples values.now }
    ensures { IfOk result (λ blocks. Filled values.now blocks.items (blocks_along (length values.now))) }
{
    let count = values.len().div_ceil(BLOCK_LENGTH);
    let mut blocks = Vec::with_capacity(alloc, count)?;
    for block in 0..count {
        blocks.push(Packed::pack(alloc, part_of(values, block))?)?;
    }
    Ok(blocks)
}

impl Series {
    /// A list of samples in packed blocks, or want of memory.
    pub fn pack(alloc: Global, values: &[Option<i64>]) -> Result<Series, OutOfMemory>
        requires { AreSamples values.now }
        ensures { IfOk result (λ series. series ≡ values.now) }
    {
        let blocks = packed_blocks(alloc, values)?;
        Ok(Series {
            blocks: Few::of(blocks),
        })
    }

    /// The packed block of a number, from 0.
    pub fn block(&self, block: usize) -> &Packed
        requires { block < blocks_along (length self.now) }
        ensures { result.now ≡ cut_block block self.now }
    {
        self.blocks.at(block)
    }

    /// The tally of its values, one block after another. Want of memory, its only error, also stands for a count or a sum above
    /// what can be held.
    pub fn tally(&self, alloc: Global) -> Result<Tally, OutOfMemory>
        ensures { IfOk result (λ tally. tally ≡ tally_of self.now) }
    {
        let mut tally = Tally::none();
        for block in 0..self.blocks.len() {
            let values = self.blocks.at(block).unpack(alloc)?;
            tally = tally.with_all(&values)?;
        }
        Ok(tally)
    }
}
