//! A tile that was opened.
ghost use Rattle.std.specs.Prelude.{◌≡◌, ◌*◌, ◌+◌, ◌<◌, ℕ, None, length};
ghost use Rattle.std.specs.List.{slice_index_or};
ghost use Rattle.edr_chunk.specs.Places.{Within};
ghost use Rattle.edr_chunk.specs.Tiles.{tile_side, tile_shape, tile_width, value_in, LiesIn};

use crate::shared::SharedPacked;
use crate::{GridPlace, GridShape, TILE_SIDE};
use std::marker::Model;

/// The samples of one tile: up to [`TILE_SIDE`](crate::TILE_SIDE) rows and columns of a grid, of one parameter, time and level. They stay packed, and are
/// shared with the grid, so a tile takes no memory of its own.
#[derive(Drop)]
pub struct Tile {
    row: u32,
    column: u32,
    width: u32,
    samples: SharedPacked,
}

impl Model for Tile {
    ghost use Rattle.edr_chunk.specs.Tiles.{TileValue};

    ghost Value = { TileValue };

    ghost view = { λ t. record { row = t.row; column = t.column; width = t.width; values = t.samples } };
}

impl Tile {
    /// The sample at a row and a column of the grid, and None where it is missing. It takes no memory.
    pub fn get(&self, row: u32, column: u32) -> Option<i64>
        requires { LiesIn self.now row column }
        ensures { result ≡ value_in self.now row column }
    {
        let mut only = [None];
        self.copy_row(row, column, &mut only);
        only[0]
    }

    /// Puts the samples of a row of the grid, from a column on, into a list, as many as it has; None for a missing one. It
    /// takes no memory.
    pub fn copy_row(&self, row: u32, column: u32, into: &mut [Option<i64>])
        requires { (k : ℕ) → k < length into.old → LiesIn self.now row (column + k) }
        ensures long { length into.new ≡ length into.old }
        ensures samples { (k : ℕ) → k < length into.old → slice_index_or into.new k None ≡ value_in self.now row (column + k) }
    {
        if into.is_empty() {
            return;
        }
        let place = (row - self.row) as u64 * self.width as u64 + (column - self.column) as u64;
        self.samples.packed().copy_to(place as usize, into);
    }
}

/// The tile at a place among the tiles of a shape. It takes no memory.
pub fn tile_from(shape: GridShape, corner: GridPlace, samples: SharedPacked) -> Tile
    requires { Within (tile_shape shape) corner }
    ensures { result ≡ record { row = corner.y * tile_side; column = corner.x * tile_side; width = tile_width shape corner; values = samples } }
{
    let column = corner.x * TILE_SIDE;
    Tile {
        row: corner.y * TILE_SIDE,
        column,
        width: (shape.columns - column).min(TILE_SIDE),
        samples,
    }
}
