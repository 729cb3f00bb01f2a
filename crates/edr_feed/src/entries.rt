//! What lines of a feed say.

use edr_draft::Change as DraftChange;

/// What a line says.
#[derive(Drop)]
pub enum Entry {
    /// A change of the draft. A bare coverage is published at once.
    Change(DraftChange),
    /// The draft is published.
    Publish,
}
