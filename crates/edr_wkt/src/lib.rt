//! Well-known text of geometries (OGC 06-103r4), both ways.
#![tactic(auto)]

mod areas;
mod bodies;
mod checks;
mod copying;
mod faults;
mod geometry;
mod headings;
mod laws;
mod lists;
mod positions;
mod reading;
mod words;
mod writing;

pub use faults::WktFault;
pub use geometry::{Geometry, Polygon};
pub use laws::{
    faultless_geometries_have_no_fault, wkt_answer_is_one, wkt_is_one, written_wkt_reads_back,
};
pub use reading::read_wkt;
pub use writing::write_wkt;
