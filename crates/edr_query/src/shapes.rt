//! Where a query selects.

use edr_base::{Spot, Text};
use edr_wkt::Geometry;

/// A box of the plane with its borders, and of levels where it has them (OGC 19-086r6, the parameter `bbox`).
#[derive(Clone, Copy, Debug, PartialEq, Eq)]
pub struct BoundingBox {
    /// The least x and y, in metres.
    pub lo: Spot,
    /// The greatest x and y, in metres.
    pub hi: Spot,
    /// The lowest and the highest level, in metres.
    pub levels: Option<(i64, i64)>,
}

/// Where a query selects, by the kinds of query (OGC 19-086r6, section 8). Distances are whole metres.
#[derive(Debug, Drop)]
pub enum Shape {
    /// The nodes nearest to the points of a POINT or a MULTIPOINT.
    Position(Geometry),
    /// Within a distance of a POINT.
    Radius {
        geometry: Geometry,
        within: i64,
    },
    /// Inside a POLYGON or a MULTIPOLYGON.
    Area(Geometry),
    /// Inside a box.
    Cube {
        lo: Spot,
        hi: Spot,
        levels: Option<(i64, i64)>,
    },
    /// The nodes nearest to the vertices of a LINESTRING.
    Trajectory(Geometry),
    /// Along a LINESTRING: the whole width, and the whole height where levels are bounded.
    Corridor {
        geometry: Geometry,
        width: i64,
        height: Option<i64>,
    },
    /// One station, by its id.
    Location(Text),
}
