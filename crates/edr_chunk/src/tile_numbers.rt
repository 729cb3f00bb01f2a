//! The numbers of tiles: a tile's number is that of its place in the shape of the tiles.
ghost use Rattle.std.specs.Prelude.{◌≡◌, ◌<◌, ◌≤◌, ◌+◌, ◌*◌, ◌^◌};
ghost use Rattle.edr_chunk.specs.Places.{nodes, count, Within, IsShape};
ghost use Rattle.edr_chunk.specs.Places as places;
ghost use Rattle.edr_chunk.specs.Tiles.{tiles_along, tile_shape, tiles, tile_of};
ghost use Rattle.edr_chunk.specs.KeptTiles.{one_of};

use crate::{GridPlace, GridShape};

/// A tile has at most so many rows and so many columns of nodes.
pub const TILE_SIDE: u32 = 64;

// How many tiles stand along an axis of so many nodes.
fn along(nodes: u32) -> u32
    ensures { result ≡ tiles_along nodes }
{
    nodes.div_ceil(TILE_SIDE)
}

// A number as the number of a row and a place in the row.
fn split(number: u64, width: u32) -> (u64, u32)
    requires { 1 ≤ width }
    ensures whole { result.0 * width + result.1 ≡ number }
    ensures below { result.1 < width }
{
    (number / width as u64, (number % width as u64) as u32)
}

/// The place of a number. It takes no memory.
pub fn place_of(shape: GridShape, number: u64) -> GridPlace
    requires shape { IsShape shape }
    requires below { number < count shape }
    ensures number { places.number shape result ≡ number }
    ensures within { Within shape result }
{
    let (rest, x) = split(number, shape.columns);
    let (rest, y) = split(rest, shape.rows);
    let (rest, z) = split(rest, shape.levels);
    let (parameter, t) = split(rest, shape.times);
    GridPlace {
        parameter,
        t,
        z,
        y,
        x,
    }
}

/// The shape of the tiles. It takes no memory.
pub fn tile_shape_of(shape: GridShape) -> GridShape
    requires { IsShape shape }
    ensures tiles { result ≡ tile_shape shape }
    ensures shape { IsShape result }
{
    GridShape {
        parameters: shape.parameters,
        times: shape.times,
        levels: shape.levels,
        rows: along(shape.rows),
        columns: along(shape.columns),
    }
}

#[tactic(auto, using(crate::proofs::PlaceNumbers::products_fit))]
/// How many nodes a parameter has. It takes no memory.
pub fn nodes_of(shape: GridShape) -> u64
    requires { IsShape (one_of shape) }
    ensures { result ≡ nodes shape }
{
    let profiles = shape.times as u64 * shape.levels as u64;
    let rows = profiles * shape.rows as u64;
    rows * shape.columns as u64
}

#[tactic(auto, using(crate::proofs::PlaceNumbers::one_shape))]
/// How many tiles a shape has. It takes no memory.
pub fn tiles_in(shape: GridShape) -> u64
    requires shape { IsShape shape }
    requires fits { count shape < 2 ^ 64 }
    ensures { result ≡ tiles shape }
{
    let coarse = tile_shape_of(shape);
    coarse.parameters * nodes_of(coarse)
}

/// The number of a place's tile. It takes no memory.
pub fn tile_number(shape: GridShape, place: GridPlace) -> u64
    requires shape { IsShape shape }
    requires within { Within shape place }
    requires fits { count shape < 2 ^ 64 }
    ensures number { result ≡ tile_of shape place }
    ensures below { result < tiles shape }
{
    let tile = GridPlace {
        parameter: place.parameter,
        t: place.t,
        z: place.z,
        y: place.y / TILE_SIDE,
        x: place.x / TILE_SIDE,
    };
    tile_shape_of(shape).number(tile)
}
