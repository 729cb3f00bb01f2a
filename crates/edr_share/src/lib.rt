//! A shelf that one publisher and many readers share: the publisher puts edition after edition on it, and each reader
//! takes the newest from its own handle, without a lock and without waiting.
#![tactic(auto)]

mod laws;
mod opening;
mod places;
mod publishers;
mod rule;
mod shelves;
mod shown;

pub use laws::shelves_cross_threads;
pub use opening::open_shelf;
pub use places::Places;
pub use publishers::{Publisher, Told};
pub use shelves::SharedShelf;
