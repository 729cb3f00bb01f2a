//! The pages that describe what an edition holds (OGC 19-086r6, section 7).
#![tactic(auto)]

mod describing;
mod extents;
mod leaves;
mod locations;
mod pages;
mod paths;
mod queries;
mod reaches;

pub use describing::{DescribeFault, describe};
