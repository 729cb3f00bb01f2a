//! Copies of geometries.
ghost use Rattle.std.specs.Prelude.{◌≡◌, IfOk};

use crate::geometry::{Geometry, Polygon};
use edr_base::{Items, OutOfMemory, Position};
use std::alloc::Global;

fn copy_positions(
    alloc: Global,
    positions: &Items<Position>,
) -> Result<Items<Position>, OutOfMemory>
    ensures { IfOk result (λ copy. copy ≡ positions.now) }
{
    Ok(Items::of(Vec::from_slice(alloc, positions.items())?))
}

fn copy_rings(
    alloc: Global,
    rings: &[Items<Position>],
) -> Result<Items<Items<Position>>, OutOfMemory>
    ensures { IfOk result (λ copy. copy ≡ rings.now) }
{
    let mut copies = Vec::new(alloc);
    for ring in rings {
        copies.push(copy_positions(alloc, ring)?)?;
    }
    Ok(Items::of(copies))
}

fn copy_polygons(alloc: Global, polygons: &[Polygon]) -> Result<Items<Polygon>, OutOfMemory>
    ensures { IfOk result (λ copy. copy ≡ polygons.now) }
{
    let mut copies = Vec::new(alloc);
    for polygon in polygons {
        let rings = copy_rings(alloc, polygon.rings.items())?;
        copies.push(Polygon { rings })?;
    }
    Ok(Items::of(copies))
}

impl Geometry {
    /// An equal geometry, or want of memory.
    pub fn copy(&self, alloc: Global) -> Result<Geometry, OutOfMemory>
        ensures { IfOk result (λ copy. copy ≡ self.now) }
    {
        match self {
            Geometry::Points {
                multi,
                has_z,
                has_m,
                positions,
            } => Ok(Geometry::Points {
                multi: *multi,
                has_z: *has_z,
                has_m: *has_m,
                positions: copy_positions(alloc, positions)?,
            }),
            Geometry::Line {
                has_z,
                has_m,
                positions,
            } => Ok(Geometry::Line {
                has_z: *has_z,
                has_m: *has_m,
                positions: copy_positions(alloc, positions)?,
            }),
            Geometry::Polygons {
                multi,
                has_z,
                has_m,
                polygons,
            } => Ok(Geometry::Polygons {
                multi: *multi,
                has_z: *has_z,
                has_m: *has_m,
                polygons: copy_polygons(alloc, polygons.items())?,
            }),
        }
    }
}
