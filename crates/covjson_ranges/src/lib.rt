//! Ranges of CoverageJSON (OGC 21-069r2, NdArray objects) as they are read: their values in the order of the domain's axes.
#![tactic(auto)]

mod laws;
mod orders;
mod places;
mod ranges;

pub use laws::{
    range_answers_follow_rows, range_rows_are_what_stand, range_rows_have_one_answer,
    ranges_are_valid, ranges_are_what_stand, written_ranges_stand,
};
pub use ranges::range_of;
