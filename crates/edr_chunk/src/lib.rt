//! The values of grids by their places, kept in packed tiles.
#![tactic(auto)]

mod codes;
mod cutting;
mod laws;
mod packed;
mod packed_grid;
mod packers;
mod reads;
mod shapes;
mod shared;
mod spans;
mod tile_numbers;
mod tiles;
mod widths;

pub use laws::{sides_are_small, tiles_are_numbered, tiles_have_places, values_stand_by_number};
pub use packed::Packed;
pub use packed_grid::PackedGrid;
pub use packers::GridPacker;
pub use reads::{Reads, open_packed};
pub use shapes::{GridPlace, GridShape, numbers_tell_places, row_major_tells_places};
pub use tile_numbers::{TILE_SIDE, place_of};
pub use tiles::Tile;
