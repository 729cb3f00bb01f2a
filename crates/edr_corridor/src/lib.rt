//! Corridors: what the segments of a line take of times, levels and places.
#![tactic(auto)]

mod bands;
mod boxes;
mod laws;
mod rectangles;
mod repeats;
mod segment;
mod segments;

pub use boxes::{Rectangle, SegmentBox};
pub use laws::{boxes_are_wanted, corridors_are_cut, near_places_are_within};
pub use segments::Segments;
