//! What a query asks of its data beside places and times.
ghost use Rattle.std.specs.Prelude.{◌≡◌, ◌||◌};
ghost use Rattle.edr_query.specs.Queries as queries;
ghost use Rattle.edr_query.specs.Queries.{coords_of, box_of};
ghost use Rattle.edr_select.specs.Refusals.{asks_levels, crs_is_other};

use edr_edition::CollectionData;
use edr_query::{Query, Shape};

/// Whether `crs` is another text than that of a collection's reference system.
pub fn has_other_crs(query: &Query, collection: &CollectionData) -> bool
    ensures { result ≡ crs_is_other query.now.crs collection.now.referencing.crs }
{
    match &query.crs {
        Some(asked) => asked.bytes() != collection.referencing().crs.bytes(),
        None => false,
    }
}

// Whether a shape asks for levels: by the z of its geometry, or as a box with levels.
fn has_levels(shape: &Shape) -> bool
    ensures { result ≡ (queries.has_z (coords_of shape.now) || queries.has_levels (box_of shape.now)) }
{
    match shape {
        Shape::Position(geometry) | Shape::Area(geometry) | Shape::Trajectory(geometry) => {
            geometry.has_z()
        }
        Shape::Radius { geometry, .. } | Shape::Corridor { geometry, .. } => geometry.has_z(),
        Shape::Cube { levels, .. } => levels.is_some(),
        Shape::Location(_) => false,
    }
}

/// Whether a query asks for levels, by `z` or by its shape.
pub fn has_levels_asked(query: &Query) -> bool
    ensures { result ≡ asks_levels query.now }
{
    query.levels.is_some() || has_levels(&query.shape)
}
