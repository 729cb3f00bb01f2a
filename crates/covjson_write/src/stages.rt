//! Where a writer of documents stands.

/// Where a writer of documents stands in the text.
#[derive(Clone, Copy)]
pub enum Stage {
    /// Before a coverage, or before the document's end.
    Ready,
    /// In a coverage, between its ranges.
    Within,
    /// In a range, behind some of its values.
    Open,
    /// Behind a fault: nothing more can be written.
    Failed,
}
