//! The stations of a collection: where and when each of them is, and its values, kept in packed blocks.
#![tactic(auto)]

mod cells;
mod faults;
mod few;
mod inputs;
mod laws;
mod pages;
mod series;
mod shelves;
mod station;
mod stations;
mod tallies;

pub use faults::has_counts;
pub use inputs::{StationFault, StationInput};
pub use laws::stations_cross_threads;
pub use series::BLOCK_LENGTH;
pub use station::Station;
pub use stations::Stations;
pub use tallies::{Tally, tallies_add_up};
