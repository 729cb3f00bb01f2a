//! Drafts: the collections of the next edition, and the changes that make them.
#![tactic(auto)]

mod changes;
mod checks;
mod differences;
mod drafts;
mod laws;
mod series;
mod steps;

pub use changes::{Change, ChangeFault};
pub use drafts::Draft;
pub use laws::{changes_have_one_outcome, changes_keep_others, drafts_cross_threads};
