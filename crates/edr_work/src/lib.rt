//! One large run in memory, as a check: a feed is made and read, and its edition answers four targets.
#![tactic(auto)]

mod counting;
mod faults;
mod lines;
mod working;

pub use faults::WorkFault;
pub use working::work_of;
