//! CoverageJSON (OGC 21-069r2) as it is read: texts and trees of JSON to documents and coverages, by checks in one order.
#![tactic(auto)]

mod collected;
mod coverages;
mod documents;
mod laws;
mod parameters;
mod systems;

pub use coverages::coverage_of;
pub use documents::read_document;
pub use laws::{
    coverage_rows_are_what_stands, coverage_rows_have_one_answer, document_rows_are_what_stands,
    document_rows_have_one_answer, read_coverages_are_valid, read_documents_are_valid,
    texts_have_one_document, trees_stand_for_one, written_documents_are_read,
};
