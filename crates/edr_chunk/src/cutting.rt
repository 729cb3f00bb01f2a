//! The values of one tile, cut out of the values of a grid.
ghost use Rattle.std.specs.Prelude.{◌≡◌, ◌≤◌, ◌+◌, map, length, IfOk};
ghost use Rattle.std.specs.List.{range_with_len};
ghost use Rattle.edr_chunk.specs.Places.{count, Within, IsShape};
ghost use Rattle.edr_chunk.specs.Tiles.{tile_shape};
ghost use Rattle.edr_chunk.specs.KeptTiles.{cut_values, row_value};

use crate::{GridPlace, GridShape, TILE_SIDE};
use edr_base::OutOfMemory;
use std::alloc::Global;

// The values of a row from a place on.
fn row_from(
    shape: GridShape,
    values: &[Option<i64>],
    start: GridPlace,
    width: u32,
) -> &[Option<i64>]
    requires shape { IsShape shape }
    requires within { Within shape start }
    requires fits { start.x + width ≤ shape.columns }
    requires whole { length values.now ≡ count shape }
    ensures { result.now ≡ map (row_value shape values.now start) (range_with_len 0 width) }
{
    let first = shape.number(start) as usize;
    &values[first..first + width as usize]
}

/// The values of one tile, row by row, or want of memory.
pub fn cut(
    alloc: Global,
    shape: GridShape,
    values: &[Option<i64>],
    tile: GridPlace,
) -> Result<Vec<Option<i64>>, OutOfMemory>
    requires shape { IsShape shape }
    requires within { Within (tile_shape shape) tile }
    requires whole { length values.now ≡ count shape }
    ensures { IfOk result (λ v. v.items ≡ cut_values shape values.now tile) }
{
    let row = tile.y * TILE_SIDE;
    let column = tile.x * TILE_SIDE;
    let height = (shape.rows - row).min(TILE_SIDE);
    let width = (shape.columns - column).min(TILE_SIDE);
    let mut cut = Vec::new(alloc);
    for r in 0..height {
        let start = GridPlace {
            parameter: tile.parameter,
            t: tile.t,
            z: tile.z,
            y: row + r,
            x: column,
        };
        cut.extend_from_slice(row_from(shape, values, start, width))?;
    }
    Ok(cut)
}
