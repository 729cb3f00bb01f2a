//! What queries along lines take, and plans of the replies to them: corridors and trajectories.
#![tactic(auto)]

mod corridor_plans;
mod corridors;
mod laws;
mod planning;
mod routes;
mod spreads;
mod stack_domains;
mod stack_masks;
mod stacks_taken;
mod steps;
mod trajectory_plans;
mod vertices;

pub use corridors::{Corridor, corridor_of, segments_of};
pub use laws::{corridor_documents_are_valid, line_documents_are_valid};
pub use planning::reply_along_line;
pub use spreads::Axes;
pub use stacks_taken::{sides_taken, stack_with};
