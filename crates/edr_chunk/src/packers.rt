//! Grids that are made parameter by parameter, each packed as it comes.
ghost use Rattle.std.specs.Prelude.{◌≡◌, ◌≤◌, ◌<◌, ◌+◌, ◌^◌, ◌++◌, [], length, IfOk, OnOk, OnErr};
ghost use Rattle.edr_chunk.specs.Places.{nodes, count, IsShape};
ghost use Rattle.edr_chunk.specs.Tiles.{tiles, with_parameters};
ghost use Rattle.edr_chunk.specs.KeptTiles.{one_of, one_more, Filled};
ghost use Rattle.edr_base.specs.Limits.{AreSamples};

use crate::cutting::cut;
use crate::shared::SharedPacked;
use crate::tile_numbers::{nodes_of, place_of, tile_shape_of, tiles_in};
use crate::{GridShape, PackedGrid};
use edr_base::OutOfMemory;
use std::alloc::Global;
use std::marker::Model;

/// A grid that is being made: its parameters are added one after another, and the values of each are packed when it is added.
/// Contracts see the grid of the parameters that were added so far. At first there are none, so its shape has 0 parameters and
/// it has no values.
#[derive(Drop)]
pub struct GridPacker {
    shape: GridShape,
    kept: Vec<SharedPacked>,
}

impl Model for GridPacker {
    ghost use Rattle.std.specs.Prelude.{map};
    ghost use Rattle.edr_chunk.specs.AllPlaces.{places};
    ghost use Rattle.edr_chunk.specs.Grids.{Values};
    ghost use Rattle.edr_chunk.specs.KeptTiles.{stored, AreTiles};

    ghost Value = { Values };

    ghost view = { λ g. record { shape = g.shape; values = map (stored g.shape g.kept.items) (places g.shape) } };

    ghost invariant = { λ g. AreTiles g.shape g.kept.items };
}

impl GridPacker {
    /// A grid with no parameter yet, and with the times, levels, rows and columns of a shape. How many parameters the shape
    /// has is of no account: there will be as many as are added. It takes no memory.
    pub fn new(alloc: Global, shape: GridShape) -> GridPacker
        requires { IsShape (with_parameters shape 1) }
        ensures { result ≡ record { shape = with_parameters shape 0; values = [] } }
    {
        GridPacker {
            shape: GridShape {
                parameters: 0,
                ..shape
            },
            kept: Vec::new(alloc),
        }
    }

    /// Adds the next parameter with its values: one for each node, in the order t, z, y, x. The only error is want of memory,
    /// which is also the answer where the grid would then have 2 to the 64 values or more; it leaves the grid as it was.
    pub fn add(&mut self, alloc: Global, values: &[Option<i64>]) -> Result<(), OutOfMemory>
        requires whole { length values.now ≡ nodes self.old.shape }
        requires samples { AreSamples values.now }
        ensures shape { OnOk result (self.new.shape ≡ with_parameters self.old.shape (self.old.shape.parameters + 1)) }
        ensures values { OnOk result (self.new.values ≡ self.old.values ++ values.now) }
        ensures err { OnErr result (self.new ≡ self.old) }
    {
        let shape = with_one_more(self.shape)?;
        let one = GridShape {
            parameters: 1,
            ..self.shape
        };
        let mut tiles = packed_tiles(alloc, one, values)?;
        self.kept.append(&mut tiles)?;
        self.shape = shape;
        Ok(())
    }

    /// The grid of the parameters that were added, which are at least one. It takes no memory.
    pub fn finish(self) -> PackedGrid
        requires { 1 ≤ self.shape.parameters }
        ensures { result ≡ self }
    {
        PackedGrid::of_tiles(self.shape, self.kept)
    }
}

// The shape with one parameter more, or want of memory where it would have 2 to the 64 values or more.
fn with_one_more(shape: GridShape) -> Result<GridShape, OutOfMemory>
    requires { IsShape (one_of shape) }
    ensures more { IfOk result (λ more. more ≡ one_more shape) }
    ensures fits { IfOk result (λ more. count more < 2 ^ 64) }
{
    let Some(parameters) = shape.parameters.checked_add(1) else {
        return Err(OutOfMemory);
    };
    match parameters.checked_mul(nodes_of(shape)) {
        Some(_) => Ok(GridShape {
            parameters,
            ..shape
        }),
        None => Err(OutOfMemory),
    }
}

// All tiles of a list of values of a shape, each packed, in the order of their numbers, or want of memory.
fn packed_tiles(
    alloc: Global,
    shape: GridShape,
    values: &[Option<i64>],
) -> Result<Vec<SharedPacked>, OutOfMemory>
    requires shape { IsShape shape }
    requires fits { count shape < 2 ^ 64 }
    requires whole { length values.now ≡ count shape }
    requires samples { AreSamples values.now }
    ensures { IfOk result (λ kept. Filled shape values.now kept.items (tiles shape)) }
{
    let coarse = tile_shape_of(shape);
    let tiles = tiles_in(shape);
    let mut kept = Vec::new(alloc);
    for tile in 0..tiles {
        let place = place_of(coarse, tile);
        let packed = SharedPacked::pack(alloc, &cut(alloc, shape, values, place)?)?;
        kept.push(packed)?;
    }
    Ok(kept)
}
