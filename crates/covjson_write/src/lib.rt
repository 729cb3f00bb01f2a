//! Documents as texts of CoverageJSON (OGC 21-069r2).
#![tactic(auto)]

mod axis_texts;
mod domain_texts;
mod heads;
mod laws;
mod leaves;
mod parameter_texts;
mod places;
mod range_heads;
mod regular_axes;
mod sending;
mod stages;
mod system_texts;
mod value_texts;
mod values;
mod whole;
mod writer;

pub use laws::{
    coverage_of_pieces, coverages_go_on, document_of_pieces, ranges_go_on, values_go_on,
};
pub use range_heads::RangeHead;
pub use stages::Stage;
pub use whole::write_whole;
pub use writer::Writer;
