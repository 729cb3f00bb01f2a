//! Tests of places in the plane, in whole numbers, and masks of whole rows of places.
#![tactic(auto)]

mod crossings;
mod cuts;
mod discs;
mod laws;
mod lines;
mod masks;
mod near;
mod points;
mod polygons;
mod rows;
mod spans;
mod strips;
mod traces;

pub use laws::{geometries_are_placed, near_is_exchanged};
pub use masks::RowMask;
pub use near::near_segment;
pub use points::{in_disc, on_segment, squared_distance};
pub use polygons::in_polygons;
pub use rows::spot_of;
pub use spans::places_between;
pub use strips::{NearRanges, Strip};
