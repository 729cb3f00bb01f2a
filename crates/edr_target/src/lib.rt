//! Queries as targets (OGC 19-086r6): the written form of each.
#![tactic(auto)]

mod addresses;
mod filters;
mod forms;
mod places;
mod targets;
mod texts;

pub use targets::target_of;
