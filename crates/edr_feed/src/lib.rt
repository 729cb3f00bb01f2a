//! Feeds: lines of JSON, each a change of a draft or a publish, to the editions that they make.
#![tactic(auto)]

mod entries;
mod faults;
mod feeds;
mod forms;
mod laws;
mod lines;
mod reading;
mod refusals;
mod steps;
mod summaries;

pub use faults::FeedFault;
pub use feeds::{Feed, feeds_have_one_answer, read_feed};
pub use forms::{trees_have_one_form, trees_hold_one_coverage};
pub use laws::{written_feeds_are_read, written_lines_are_read};
pub use refusals::FeedRefusal;
pub use summaries::summary;
