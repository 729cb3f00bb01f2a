//! Laws of documents along lines.
ghost use Rattle.edr_lines.specs.DocumentLaws.{CorridorDocumentsAreValid, LineDocumentsAreValid};

use edr_corridor::corridors_are_cut;

/// The document of a query along a corridor that is asked of an instance of grids and selects something is valid (OGC 21-069r2).
pub fn corridor_documents_are_valid()
    ensures { CorridorDocumentsAreValid }
{
    corridors_are_cut();
}

/// The document of a query along a line that is asked of an instance of grids and selects something is valid (OGC 21-069r2).
pub fn line_documents_are_valid()
    ensures { LineDocumentsAreValid }
{
    corridor_documents_are_valid();
}
