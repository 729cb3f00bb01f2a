//! The door to JSON (RFC 8259): texts to trees, and what is asked of trees everywhere.
#![tactic(auto)]

mod reading;
mod trees;

pub use edr_samples::{JsonFault, List, Samples, Tree};
pub use reading::{read_tree, texts_have_one_tree, texts_have_trees};
pub use trees::{count_items, has_members, is_text, natural_of, text_in, text_or_empty, whole_of};
