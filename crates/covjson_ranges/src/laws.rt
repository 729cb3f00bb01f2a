//! What holds of ranges and of the answers to their trees.
ghost use Rattle.covjson_ranges.specs.Laws.{RangeRowsHaveOneAnswer, RangeRowsAreWhatStand, RangeAnswersFollowRows, RangesAreWhatStand, RangesAreValid, WrittenRangesStand};

/// The checks of a range, one after the other, have one answer.
pub fn range_rows_have_one_answer()
    ensures { RangeRowsHaveOneAnswer }
{}

/// They end in a range exactly where the tree stands for it (OGC 21-069r2, NdArray objects).
pub fn range_rows_are_what_stand()
    ensures { RangeRowsAreWhatStand }
{}

/// The computed answer to a tree follows the checks.
pub fn range_answers_follow_rows()
    ensures { RangeAnswersFollowRows }
{}

/// It is a range exactly where the tree stands for it.
pub fn ranges_are_what_stand()
    ensures { RangesAreWhatStand }
{}

/// What is written of ranges stands for them.
pub fn written_ranges_stand()
    ensures { WrittenRangesStand }
{}

/// A range for which a tree stands is one over the domain: as many values as it has places, each a sample or absent.
pub fn ranges_are_valid()
    ensures { RangesAreValid }
{}
