//! What an edition answers to a query, as a table of comma-separated values (RFC 4180).
#![tactic(auto)]

mod documents;
mod exporting;

pub use exporting::export_values;
