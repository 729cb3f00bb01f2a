//! Lists of items with ids, in the order of the ids: an item is found, set and taken out by its id.
#![tactic(auto)]

mod by_id;
mod identified;
mod trees;

pub use by_id::ById;
pub use identified::{Identified, items_are_by_id};
