//! Tables of comma-separated values (RFC 4180): observations read, and the values of documents written.
#![tactic(auto)]

mod fields;
mod forms;
mod keys;
mod observations;
mod reading;
mod records;
mod rows;
mod sites;
mod tables;
mod turns;
mod writing;

pub use observations::{Column, Observation, TableFault};
pub use reading::read_table;
pub use tables::{tables_are_unique, written_values_are_read};
pub use writing::write_rows;
