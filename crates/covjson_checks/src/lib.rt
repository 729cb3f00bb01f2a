//! Checks of trees of CoverageJSON (OGC 21-069r2): the members that are looked at, and the faults.
#![tactic(auto)]

mod faults;
mod members;
mod texts;
mod turned;

pub use faults::{CovFault, Member};
pub use members::{
    Wanted, found_or_missing, is_within, lent, list_at, need, need_form, need_wholes, number_at,
    object_at, part, text_at, wholes, wholes_or_nulls,
};
pub use texts::{text_of, text_where_given};
pub use turned::{ReadDomain, Turned};
