//! Laws of documents.
ghost use Rattle.edr_plan.specs.DocumentLaws.{DocumentsAreValid};

use edr_lines::line_documents_are_valid;
use edr_select::grid_documents_are_valid;

/// The document of a query that no refusal applies to is valid (OGC 21-069r2).
pub fn documents_are_valid()
    ensures { DocumentsAreValid }
{
    grid_documents_are_valid();
    line_documents_are_valid();
}
