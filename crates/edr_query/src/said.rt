//! What the parameters of a target say.

use crate::shapes::BoundingBox;
use edr_axes::{Levels, Times};
use edr_wkt::Geometry;

/// What the parameters of a target say, each where it is given. Distances are whole metres.
#[derive(Debug, Drop)]
pub struct Said {
    /// `coords`
    pub coords: Option<Geometry>,
    /// `within` in its units.
    pub within: Option<i64>,
    /// `bbox`
    pub bbox: Option<BoundingBox>,
    /// `corridor-width` in its units.
    pub width: Option<i64>,
    /// `corridor-height` in its units.
    pub height: Option<i64>,
    /// `datetime`
    pub times: Option<Times>,
    /// `z`
    pub levels: Option<Levels>,
}
