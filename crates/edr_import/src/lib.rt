//! Tables of observations made feeds: a collection of stations, a line for each station, and a publish.
#![tactic(auto)]

mod importing;
mod limits;
mod lines;
mod names;
mod refusals;
mod series;
mod sites;
mod sorting;
mod stations;
mod times;

pub use importing::feed_from_table;
pub use limits::{PARAMETER_LIMIT, SAMPLES_LIMIT, TABLE_LIMIT};
pub use refusals::{ImportFault, TableRefusal};
