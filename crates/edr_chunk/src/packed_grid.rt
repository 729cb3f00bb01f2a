//! A grid whose samples are kept in packed tiles.
ghost use Rattle.std.specs.Prelude.{◌≡◌, ◌<◌, ◌^◌, ◌++◌, ◌∷◌, [], map, length, IfOk, OnOk, OnErr};
ghost use Rattle.edr_chunk.specs.Places.{count, Within, IsShape};
ghost use Rattle.edr_chunk.specs.AllPlaces.{places};
ghost use Rattle.edr_chunk.specs.Tiles.{tiles, tile_of, IsTile};
ghost use Rattle.edr_chunk.specs.KeptTiles.{stored, IsPacked};
ghost use Rattle.edr_base.specs.Limits.{AreSamples};

use crate::shared::SharedPacked;
use crate::tile_numbers::{nodes_of, place_of, tile_number, tile_shape_of, tiles_in};
use crate::tiles::tile_from;
use crate::{GridPacker, GridPlace, GridShape, Reads, Tile};
use edr_base::OutOfMemory;
use std::alloc::Global;
use std::marker::Model;

/// A grid whose samples are kept in packed tiles of 64 by 64 nodes of one parameter, time and level. The tiles are numbered
/// by parameter, time, level, row of tiles and column of tiles, ascending from 0. `open` alone reads its samples.
#[derive(Drop)]
pub struct PackedGrid {
    shape: GridShape,
    kept: Vec<SharedPacked>,
}

impl Model for PackedGrid {
    ghost use Rattle.std.specs.Prelude.{map};
    ghost use Rattle.edr_chunk.specs.AllPlaces.{places};
    ghost use Rattle.edr_chunk.specs.Grids.{Values};
    ghost use Rattle.edr_chunk.specs.KeptTiles.{stored, IsPacked};

    ghost Value = { Values };

    ghost view = { λ g. record { shape = g.shape; values = map (stored g.shape g.kept.items) (places g.shape) } };

    ghost invariant = { λ g. IsPacked g.shape g.kept.items };
}

impl PackedGrid {
    /// A grid of these values, in the order parameter, t, z, y, x, or want of memory.
    pub fn pack(
        alloc: Global,
        shape: GridShape,
        values: &[Option<i64>],
    ) -> Result<PackedGrid, OutOfMemory>
        requires shape { IsShape shape }
        requires whole { length values.now ≡ count shape }
        requires samples { AreSamples values.now }
        ensures { IfOk result (λ grid. grid ≡ record { shape = shape; values = values.now }) }
    {
        let nodes = nodes_of(shape);
        let mut packer = GridPacker::new(alloc, shape);
        for parameter in 0..shape.parameters {
            let first = (parameter * nodes) as usize;
            packer.add(alloc, &values[first..first + nodes as usize])?;
        }
        Ok(packer.finish())
    }

    // The grid that tiles are kept of.
    pub(crate) fn of_tiles(shape: GridShape, kept: Vec<SharedPacked>) -> PackedGrid
        requires { IsPacked shape kept.items }
        ensures { result ≡ record { shape = shape; values = map (stored shape kept.items) (places shape) } }
    {
        PackedGrid { shape, kept }
    }

    #[tactic(auto, using(crate::proofs::AllPlaceLaws::grid_long, crate::proofs::AllPlaceLaws::grid_samples))]
    /// How many parameters, times, levels, rows and columns it has. It has a value for each place of that shape, and each is
    /// missing or a sample within the limits. It takes no memory.
    pub fn shape(&self) -> GridShape
        ensures same { result ≡ self.now.shape }
        ensures shape { IsShape result }
        ensures fits { count result < 2 ^ 64 }
        ensures whole { length self.now.values ≡ count result }
        ensures samples { AreSamples self.now.values }
    {
        self.shape
    }

    /// How many tiles it has. It takes no memory.
    pub fn tiles(&self) -> u64
        ensures { result ≡ tiles self.now.shape }
    {
        tiles_in(self.shape())
    }

    /// The number of a place's tile. It takes no memory.
    pub fn tile_of(&self, at: GridPlace) -> u64
        requires { Within self.now.shape at }
        ensures number { result ≡ tile_of self.now.shape at }
        ensures below { result < tiles self.now.shape }
    {
        tile_number(self.shape(), at)
    }

    /// The tile of a number, or want of memory. The number is appended to `reads`, which want of memory leaves as it was.
    pub fn open(&self, alloc: Global, tile: u64, reads: &mut Reads) -> Result<Tile, OutOfMemory>
        requires { tile < tiles self.now.shape }
        ensures ok { IfOk result (λ opened. IsTile self.now tile opened) }
        ensures read { OnOk result (reads.new ≡ reads.old ++ tile ∷ []) }
        ensures err { OnErr result (reads.new ≡ reads.old) }
    {
        let samples = self.kept[tile as usize].share()?;
        reads.append(tile)?;
        let corner = place_of(tile_shape_of(self.shape), tile);
        Ok(tile_from(self.shape, corner, samples))
    }
}
