//! What the programs share: their words, numbers among them, the line that tells how a run ended, and their version.
#![tactic(auto)]

mod lines;
mod numbers;
mod versions;
mod words;

pub use lines::{said_of_feed, send_both, tell_explained, tell_line};
pub use numbers::number_of;
pub use versions::send_version;
pub use words::words_of;
