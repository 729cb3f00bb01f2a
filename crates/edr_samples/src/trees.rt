//! Trees of JSON.

use crate::samples::Samples;
use serde_json::{Map, Number};

// How many lists and objects may stand in each other.
pub(crate) const MAX_DEPTH: usize = 127;

/// A tree of JSON (RFC 8259), of 32 bytes beside what its text, its list or its object holds.
#[derive(Drop)]
pub enum Tree {
    /// `null`.
    Null,
    /// `true` or `false`.
    Bool(bool),
    /// A number.
    Number(Number),
    /// A text.
    Text(String),
    /// A list of whole numbers of 32 bits and nulls, packed; the empty list too.
    Samples(Samples),
    /// Any other list.
    Items(Vec<Tree>),
    /// An object: its members in ascending order of their names, byte by byte. Of members of one name the last is kept.
    Object(Map<String, Tree>),
}

/// A list, in one of the two forms that trees have.
#[derive(Clone, Copy)]
pub enum List<'a> {
    /// Whole numbers of 32 bits and nulls, packed.
    Samples(&'a Samples),
    /// Any items.
    Items(&'a Vec<Tree>),
}
