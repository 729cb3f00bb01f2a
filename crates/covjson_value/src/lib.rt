//! Coverages of CoverageJSON (OGC 21-069r2): their values, which of them are valid, and their trees of JSON.
#![tactic(auto)]

mod axis_names;
mod axis_trees;
mod coverages;
mod domain_trees;
mod domain_types;
mod domains;
mod laws;
mod leaves;
mod parameter_trees;
mod range_trees;
mod regular_axes;
mod trees;
mod validity;

pub use axis_names::{AxisName, axis_by_name, axis_key, axis_name};
pub use axis_trees::{coordinate, is_spanned};
pub use coverages::{Coverage, Document, NdArray, Parameter, Referencing};
pub use domain_types::{DomainType, type_by_name};
pub use domains::{CoordinateName, Domain};
pub use laws::{
    coverages_are_plain, document_texts_read_back, plain_texts_read_back, texts_read_back,
    texts_tell_coverages, texts_tell_documents,
};
pub use leaves::{only_member, put_given, put_text, text_of, time_tree};
pub use parameter_trees::parameters_tree;
pub use trees::{document_tree, tree_of};
