//! How far a disc, some polygons or a box reaches.
ghost use Rattle.std.specs.Prelude.{◌≡◌, All};
ghost use Rattle.edr_geometry.specs.Limits.{IsPlacedPolygon};
ghost use Rattle.edr_query.specs.Queries.{IsShape, IsTaken};
ghost use Rattle.edr_query.specs.declared.addresses.QueryKind.TheVariants.{Radius, Area};
ghost use Rattle.edr_select.specs.Masks.{IsArea, IsCentre, HasPolygons, IsReachedRing, IsReachedPolygon, IsWider, LiesIn};

use edr_base::{Position, Spot};
use edr_geometry::geometries_are_placed;
use edr_query::Shape;
use edr_wkt::{Geometry, Polygon};

/// The least and the greatest x of some places, and the least and the greatest y, in metres.
#[derive(Clone, Copy)]
pub struct Reach {
    pub left: i64,
    pub right: i64,
    pub low: i64,
    pub high: i64,
}

/// The place of a point.
pub fn centre_of(geometry: &Geometry) -> Spot
    requires { IsTaken Radius geometry.now }
    ensures { IsCentre geometry.now result }
{
    let Geometry::Points { positions, .. } = geometry else {
        unreachable!()
    };
    let position = &positions.items()[0];
    Spot {
        x: position.x,
        y: position.y,
    }
}

/// The polygons of a geometry.
pub fn polygons_of(geometry: &Geometry) -> &[Polygon]
    requires { IsTaken Area geometry.now }
    ensures { HasPolygons geometry.now result.now }
{
    geometries_are_placed();
    let Geometry::Polygons { polygons, .. } = geometry else {
        unreachable!()
    };
    polygons.items()
}

// Reaches to the positions of a ring.
fn reach_ring(reach: Reach, ring: &[Position]) -> Reach
    ensures wider { IsWider reach result }
    ensures ring { IsReachedRing result ring.now }
{
    let mut reach = reach;
    for position in ring {
        reach = Reach {
            left: reach.left.min(position.x),
            right: reach.right.max(position.x),
            low: reach.low.min(position.y),
            high: reach.high.max(position.y),
        };
    }
    reach
}

// Reaches to the rings of a polygon.
fn reach_polygon(reach: Reach, polygon: &Polygon) -> Reach
    ensures wider { IsWider reach result }
    ensures polygon { IsReachedPolygon result polygon.now }
{
    let mut reach = reach;
    for ring in polygon.rings.items() {
        reach = reach_ring(reach, ring.items());
    }
    reach
}

// How far polygons reach.
fn reach_of_polygons(polygons: &[Polygon]) -> Reach
    ensures { All (IsReachedPolygon result) polygons.now }
{
    let mut reach = Reach {
        left: i64::MAX,
        right: i64::MIN,
        low: i64::MAX,
        high: i64::MIN,
    };
    for polygon in polygons {
        reach = reach_polygon(reach, polygon);
    }
    reach
}

/// How far a disc, some polygons or a box reaches: no place beyond is taken.
pub fn reach_of(shape: &Shape) -> Reach
    requires area { IsArea shape.now }
    requires shape { IsShape shape.now }
    ensures { LiesIn shape.now result }
{
    match shape {
        Shape::Radius { geometry, within } => {
            let centre = centre_of(geometry);
            Reach {
                left: centre.x - *within,
                right: centre.x + *within,
                low: centre.y - *within,
                high: centre.y + *within,
            }
        }
        Shape::Area(geometry) => reach_of_polygons(polygons_of(geometry)),
        Shape::Cube { lo, hi, .. } => Reach {
            left: lo.x,
            right: hi.x,
            low: lo.y,
            high: hi.y,
        },
        _ => unreachable!(),
    }
}
