//! Which axes of a tree descend, and a domain with them.

use covjson_value::Domain;

/// Which axes of a tree descend, so that they and the values over them are turned round.
#[derive(Clone, Copy)]
pub struct Turned {
    /// The axis of times.
    pub t: bool,
    /// The axis of levels.
    pub z: bool,
    /// The axis of second coordinates.
    pub y: bool,
    /// The axis of first coordinates.
    pub x: bool,
}

/// A domain as it was read, and which of its axes were turned round.
#[derive(Drop)]
pub struct ReadDomain {
    /// The domain.
    pub domain: Domain,
    /// The axes that descend in the tree.
    pub turned: Turned,
}
