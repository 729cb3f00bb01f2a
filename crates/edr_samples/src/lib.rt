//! Trees of JSON (RFC 8259) whose lists of whole numbers and nulls are packed: the same data that `serde_json` reads, at four
//! bytes a sample.
#![tactic(auto)]

mod codes;
mod faults;
mod lexemes;
mod looking;
mod numbers;
mod plain;
mod plain_reading;
mod reading;
mod samples;
mod trees;
mod unpacking;

pub use faults::JsonFault;
pub use reading::read_tree;
pub use samples::Samples;
pub use trees::{List, Tree};
