//! What is nearest to a place, found by cells of the plane.
#![tactic(auto)]

mod candidates;
mod cells;
mod collections;
mod frames;
mod keys;
mod laws;
mod looks;
mod placed;
mod squares;
mod trees;

pub use collections::Cells;
pub use laws::{cells_cross_threads, nearest_is_one};
pub use looks::Looks;
pub use placed::Placed;
