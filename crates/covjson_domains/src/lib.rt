//! Domains of CoverageJSON (OGC 21-069r2, Domain objects) as they are read: their axes, listed and spanned, and their tuples.
#![tactic(auto)]

mod axes;
mod domain_types;
mod domains;
mod laws;
mod spans;
mod tuples;

pub use domains::domain_of;
pub use laws::{
    domain_answers_follow_rows, domain_rows_are_what_stands, domain_rows_have_one_answer,
    domains_are_what_stand, written_domains_stand,
};
