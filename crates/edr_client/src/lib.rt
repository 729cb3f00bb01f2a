//! The client of a server of coverages: queries written as targets, replies of HTTP/1.1 read to documents of CoverageJSON,
//! and documents written as tables.
#![tactic(auto)]

mod laws;
mod reading;
mod replies;

pub use edr_table::write_table;
pub use edr_target::target_of;
pub use laws::{one_is_heard, written_documents_are_heard, written_refusals_are_heard};
pub use reading::read_reply;
pub use replies::{Reply, ReplyFault};
