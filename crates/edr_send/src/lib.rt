//! Replies that are sent: the text of the document that is planned, with the values of the chunks that it opens.
#![tactic(auto)]

mod bands;
mod block_runs;
mod coverages;
mod documents;
mod filling;
mod frame_streams;
mod gathering;
mod planes;
mod sending;
mod series;
mod slots;
mod stack_streams;
mod streaming;
mod strips;
mod value_runs;

pub use sending::send;
