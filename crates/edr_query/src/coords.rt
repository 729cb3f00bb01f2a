//! Reading coordinates and boxes.
ghost use Rattle.std.specs.Prelude.{◌≡◌, MatchOption};
ghost use Rattle.edr_base.specs.declared.refusals.Refusal.TheVariants.{MissingParameter, BadCoords, WrongGeometry, BadBbox};
ghost use Rattle.edr_query.specs.declared.parameters.Parameter.TheVariants as p;
ghost use Rattle.edr_query.specs.Parameters.{value_of, MaySay};
ghost use Rattle.edr_query.specs.Boxes.{IsBoxText, IsOrdered};
ghost use Rattle.edr_query.specs.Queries.{IsGeometryText, takes};
ghost use Rattle.edr_query.specs.Targets.{HasBadCoords, HasWrongGeometry, HasBadBox, LacksHeight, IsMissing};
ghost use Rattle.edr_query.specs.Reads.{Checks, IsHeightPaired, is_along_z, is_corridor, query_kind, list_in, IsBoxOf};

use crate::addresses::{PageKind, QueryKind};
use crate::pairs::Parameters;
use crate::parameters::Parameter;
use crate::reading::TargetFault;
use crate::shapes::BoundingBox;
use edr_axes::{LevelFault, Levels, levels_are_unique, read_levels};
use edr_base::{Refusal, Spot};
use edr_wkt::{Geometry, WktFault, faultless_geometries_have_no_fault, read_wkt, wkt_is_one};
use std::alloc::Global;

/// The geometry of `coords`, where it is given.
pub fn read_coords(
    alloc: Global,
    parameters: &Parameters<'_>,
) -> Result<Option<Geometry>, TargetFault>
    ensures { Checks result (λ coords. MaySay IsGeometryText (value_of p.Coords parameters.now) coords) BadCoords (HasBadCoords parameters.now) }
{
    let Some(text) = parameters.get(Parameter::Coords) else {
        return Ok(None);
    };
    wkt_is_one();
    faultless_geometries_have_no_fault();
    match read_wkt(alloc, text.as_bytes()) {
        Ok(geometry) => Ok(Some(geometry)),
        Err(fault) => match fault {
            WktFault::OutOfMemory => Err(TargetFault::OutOfMemory),
            _ => Err(TargetFault::Refused(Refusal::BadCoords)),
        },
    }
}

/// Whether a page is a query along a corridor.
pub fn is_corridor(page: PageKind) -> bool
    ensures { result ≡ is_corridor page }
{
    match page {
        PageKind::Query(QueryKind::Corridor) => true,
        _ => false,
    }
}

// The kind of query of a page, if it is one.
fn query_kind(page: PageKind) -> Option<QueryKind>
    ensures { result ≡ query_kind page }
{
    match page {
        PageKind::Query(kind) => Some(kind),
        _ => None,
    }
}

// Whether a geometry is a line with z.
fn is_along_z(coords: &Option<Geometry>) -> bool
    ensures { result ≡ is_along_z coords.now }
{
    match coords {
        Some(Geometry::Line { has_z, .. }) => *has_z,
        _ => false,
    }
}

// Whether a query takes a geometry.
fn takes(kind: QueryKind, geometry: &Geometry) -> bool
    ensures { result ≡ takes kind geometry.now }
{
    match (kind, geometry) {
        (
            QueryKind::Position,
            Geometry::Points {
                multi,
                has_z,
                has_m,
                ..
            },
        ) => !*has_m && !(*multi && *has_z),
        (QueryKind::Radius, Geometry::Points { multi, has_m, .. }) => !*has_m && !*multi,
        (QueryKind::Area, Geometry::Polygons { has_z, has_m, .. }) => !*has_m && !*has_z,
        (QueryKind::Trajectory | QueryKind::Corridor, Geometry::Line { .. }) => true,
        _ => false,
    }
}

/// Along a line with z the height of a corridor is given.
pub fn check_height_along(
    page: PageKind,
    parameters: &Parameters<'_>,
    coords: &Option<Geometry>,
) -> Result<(), TargetFault>
    requires said { MaySay IsGeometryText (value_of p.Coords parameters.now) coords.now }
    requires paired { IsHeightPaired page parameters.now }
    ensures { Checks result (λ done. ¬ (LacksHeight page parameters.now)) MissingParameter (IsMissing page parameters.now) }
{
    wkt_is_one();
    if !is_corridor(page) {
        return Ok(());
    }
    if !is_along_z(coords) {
        return Ok(());
    }
    if parameters.has(Parameter::CorridorHeight) {
        return Ok(());
    }
    Err(TargetFault::Refused(Refusal::MissingParameter))
}

/// The query takes the geometry of `coords`.
pub fn check_geometry(
    page: PageKind,
    parameters: &Parameters<'_>,
    coords: &Option<Geometry>,
) -> Result<(), TargetFault>
    requires { MaySay IsGeometryText (value_of p.Coords parameters.now) coords.now }
    ensures { Checks result (λ done. ¬ (HasWrongGeometry page parameters.now)) WrongGeometry (HasWrongGeometry page parameters.now) }
{
    wkt_is_one();
    let Some(kind) = query_kind(page) else {
        return Ok(());
    };
    let Some(geometry) = coords else {
        return Ok(());
    };
    if takes(kind, geometry) {
        return Ok(());
    }
    Err(TargetFault::Refused(Refusal::WrongGeometry))
}

// The box of these corners and levels, if no least number is above the greatest one.
fn ordered_box(lo: Spot, hi: Spot, levels: Option<(i64, i64)>) -> Option<BoundingBox>
    ensures { MatchOption result (¬ (IsOrdered (record { lo = lo; hi = hi; levels = levels })))
        (λ found. (found ≡ record { lo = lo; hi = hi; levels = levels }) × IsOrdered found) }
{
    if lo.x > hi.x {
        return None;
    }
    if lo.y > hi.y {
        return None;
    }
    Some(BoundingBox { lo, hi, levels })
}

// The box of some numbers, if they are those of one.
fn box_of(numbers: &[i64]) -> Option<BoundingBox>
    ensures { IsBoxOf numbers.now result }
{
    match numbers {
        [x, y, to_x, to_y] => ordered_box(Spot { x: *x, y: *y }, Spot { x: *to_x, y: *to_y }, None),
        [x, y, low, to_x, to_y, high] => {
            if *low > *high {
                return None;
            }
            ordered_box(
                Spot { x: *x, y: *y },
                Spot { x: *to_x, y: *to_y },
                Some((*low, *high)),
            )
        }
        _ => None,
    }
}

// The numbers of a list of levels, and none of other levels.
fn list_in(levels: &Levels) -> &[i64]
    ensures { result.now ≡ list_in levels.now }
{
    match levels {
        Levels::List(numbers) => numbers.items(),
        _ => &[],
    }
}

/// The box of `bbox`, where it is given.
pub fn read_bbox(
    alloc: Global,
    parameters: &Parameters<'_>,
) -> Result<Option<BoundingBox>, TargetFault>
    ensures { Checks result (λ found. MaySay IsBoxText (value_of p.Bbox parameters.now) found) BadBbox (HasBadBox parameters.now) }
{
    levels_are_unique();
    let Some(text) = parameters.get(Parameter::Bbox) else {
        return Ok(None);
    };
    match read_levels(alloc, text.as_bytes()) {
        Ok(levels) => match box_of(list_in(&levels)) {
            Some(found) => Ok(Some(found)),
            None => Err(TargetFault::Refused(Refusal::BadBbox)),
        },
        Err(LevelFault::NotLevels) => Err(TargetFault::Refused(Refusal::BadBbox)),
        Err(LevelFault::OutOfMemory) => Err(TargetFault::OutOfMemory),
    }
}
