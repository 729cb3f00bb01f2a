//! Editions: the whole state of all collections after one publish.
#![tactic(auto)]

mod collections;
mod editions;
mod instances;
mod kinds;
mod laws;
mod shelves;
mod stores;

pub use collections::CollectionData;
pub use editions::Edition;
pub use edr_station::{Tally, tallies_add_up};
pub use instances::GridInstance;
pub use kinds::Kind;
pub use laws::{editions_cross_threads, instances_have_grids, newest_is_newest, newest_is_one};
pub use shelves::{Editions, LocalShelf, SteppedShelf};
pub use stores::Store;
