//! What the daemon takes and says: the words after its name, the limits of their numbers, and the lines on its standard output.
#![tactic(auto)]

mod helping;
mod limits;
mod saying;
mod words;

pub use helping::USAGE;
pub use limits::{ACCEPT_LIMIT, ENDLESS, GRANT_LIMIT, WORKER_LIMIT};
pub use saying::{say_behind, say_counts, say_help, say_named, say_number, say_version};
pub use words::{Asked, Settings, asked_by};
