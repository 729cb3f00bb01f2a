//! What the pieces of a document's text are together.
ghost use Rattle.covjson_write.specs.Laws.{ValuesGoOn, RangesGoOn, CoveragesGoOn, CoverageOfPieces, DocumentOfPieces};

/// Values one after another are written as those first and those behind them.
#[tactic(auto, using(crate::specs::PieceLaws::values_on))]
pub fn values_go_on()
    ensures { ValuesGoOn }
{}

/// The same of the ranges of a coverage.
#[tactic(auto, using(crate::specs::PieceLaws::ranges_on))]
pub fn ranges_go_on()
    ensures { RangesGoOn }
{}

/// The same of the coverages of a document.
#[tactic(auto, using(crate::specs::PieceLaws::coverages_on))]
pub fn coverages_go_on()
    ensures { CoveragesGoOn }
{}

/// The text of a valid coverage is its beginning and its ranges, the last with the coverage's end.
pub fn coverage_of_pieces()
    ensures { CoverageOfPieces }
{}

/// The text of a valid document is its beginning, its coverages and its end.
pub fn document_of_pieces()
    ensures { DocumentOfPieces }
{}
