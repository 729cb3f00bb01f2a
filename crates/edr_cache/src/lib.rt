//! Bodies of replies that are kept by their targets, the most recently used first.
#![tactic(auto)]

mod gathered;
mod gathering;
mod kept;
mod laws;
mod limits;
mod written;

pub use gathering::Gathering;
pub use kept::Kept;
pub use laws::{pairs_go_by_use, stores_cross_threads};
pub use limits::{CAPACITY_LIMIT, KEPT_LIMIT};
