//! Laws of refusals, of selections and of documents over grids.
ghost use Rattle.edr_select.specs.DocumentLaws.{GridDocumentsAreValid};
ghost use Rattle.edr_select.specs.Refusals.{RefusalIsLeast};
ghost use Rattle.edr_select.specs.WantedLaws.{SelectionsGoByAxes};

/// The refusal that an edition gives a page is the least that applies; where there is none, none applies.
pub fn refusal_is_least()
    ensures { RefusalIsLeast }
{}

/// What a query takes goes by the relations of axes: its times and its levels have what it takes, and a value of an axis is
/// taken where it is the nearest.
pub fn selections_go_by_axes()
    ensures { SelectionsGoByAxes }
{}

/// The document of a query that is asked of an instance of grids and selects something is valid (OGC 21-069r2).
pub fn grid_documents_are_valid()
    ensures { GridDocumentsAreValid }
{}
