//! The feed that is made of a number, to try a program and to measure it.
#![tactic(auto)]

mod made_heads;
mod made_texts;
mod made_values;
mod making;

pub use making::make_feed;
