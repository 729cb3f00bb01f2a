//! Documents of CoverageJSON as tables of lines.
#![tactic(auto)]

mod cells;
mod lines;
mod rows;
mod tables;
mod turns;

pub use tables::write_table;
