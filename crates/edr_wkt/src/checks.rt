//! The faults of geometries.
ghost use Rattle.std.specs.Prelude.{◌≡◌, ◌+◌, ◌^◌, ◌<◌, ◌≤◌, ◌↔◌, IsTrue, ℕ, List, length, MatchOption, ◌≤ℤ◌, ◌<ℤ◌};
ghost use Rattle.std.specs.List.{flat_map, AllByRecursion};
ghost use Rattle.edr_base.specs.FirstThatApplies.{IsFirstPlace};
ghost use Rattle.edr_base.specs.Limits.{IsCoordinate, earliest_time, latest_time, position_limit};
ghost use Rattle.edr_base.specs.declared.places.Position.{Position};
ghost use Rattle.edr_wkt.specs.declared.geometry.Polygon.{Polygon};
ghost use Rattle.edr_wkt.specs.Faults.{IsInRange, IsClosed, IsFaultless, NeverFalls, FallsAt, IsBadAt};
ghost use Rattle.edr_wkt.specs.Checks.{IsFound, MatchGood};
ghost use Rattle.edr_wkt.specs.Geometries.{positions_of, rings_of, line_of};

use crate::faults::WktFault;
use crate::geometry::{Geometry, Polygon};
use edr_base::{COORDINATE_LIMIT, EARLIEST_TIME, Items, LATEST_TIME, Position};

// Whether a coordinate or a level is within its limit.
fn is_within(number: i64) -> bool
    ensures { IsTrue result ↔ IsCoordinate number }
{
    number.unsigned_abs() <= COORDINATE_LIMIT
}

// Whether an m is a time of the years 0000 to 9999.
fn is_time(m: i64) -> bool
    ensures { IsTrue result ↔ ((earliest_time ≤ℤ m) × (m ≤ℤ latest_time)) }
{
    m >= EARLIEST_TIME && m <= LATEST_TIME
}

// Whether the numbers of a position are within the limits.
fn in_range(p: &Position) -> bool
    ensures { IsTrue result ↔ IsInRange p.now }
{
    if !is_within(p.x) {
        return false;
    }
    if !is_within(p.y) {
        return false;
    }
    if !is_within(p.z) {
        return false;
    }
    is_time(p.m)
}

// Whether two positions are the same.
fn same(a: &Position, b: &Position) -> bool
    ensures { IsTrue result ↔ (a.now ≡ b.now) }
{
    a.x == b.x && a.y == b.y && a.z == b.z && a.m == b.m
}

// Whether a ring is closed.
fn is_closed(ring: &[Position]) -> bool
    ensures { IsTrue result ↔ IsClosed ring.now }
{
    match ring.len() {
        0 => true,
        len => same(&ring[0], &ring[len - 1]),
    }
}

// The first position that isn't within the limits, counted with those before.
fn check_positions(positions: &[Position], before: usize) -> Result<usize, usize>
    requires { before + length positions.now < 2 ^ 64 }
    ensures { MatchGood result IsInRange positions.now before }
{
    for (i, position) in positions.iter().enumerate() {
        if !in_range(position) {
            return Err(before + i + 1);
        }
    }
    Ok(before + positions.len())
}

// The same of the positions of rings.
fn check_rings(rings: &[Items<Position>], before: usize) -> Result<usize, usize>
    requires { before + length (flat_map (λ r. r) rings.now) < 2 ^ 64 }
    ensures { MatchGood result IsInRange (flat_map (λ r. r) rings.now) before }
{
    let mut count = before;
    for ring in rings {
        count = check_positions(ring.items(), count)?;
    }
    Ok(count)
}

// The same of the positions of polygons.
fn check_polygons(polygons: &[Polygon], before: usize) -> Result<usize, usize>
    requires { before + length (flat_map (λ p. flat_map (λ r. r) p.rings) polygons.now) < 2 ^ 64 }
    ensures { MatchGood result IsInRange (flat_map (λ p. flat_map (λ r. r) p.rings) polygons.now) before }
{
    let mut count = before;
    for polygon in polygons {
        count = check_rings(polygon.rings.items(), count)?;
    }
    Ok(count)
}

// The first ring that isn't closed, counted with those before.
fn check_closed(rings: &[Items<Position>], before: usize) -> Result<usize, usize>
    requires { before + length rings.now < 2 ^ 64 }
    ensures { MatchGood result IsClosed rings.now before }
{
    for (i, ring) in rings.iter().enumerate() {
        if !is_closed(ring.items()) {
            return Err(before + i + 1);
        }
    }
    Ok(before + rings.len())
}

// The same of the rings of polygons.
fn check_all_closed(polygons: &[Polygon], before: usize) -> Result<usize, usize>
    requires { before + length (flat_map (λ p. p.rings) polygons.now) < 2 ^ 64 }
    ensures { MatchGood result IsClosed (flat_map (λ p. p.rings) polygons.now) before }
{
    let mut count = before;
    for polygon in polygons {
        count = check_closed(polygon.rings.items(), count)?;
    }
    Ok(count)
}

// Whether the m of a position is below that of another.
fn is_below(a: &Position, b: &Position) -> bool
    ensures { IsTrue result ↔ (a.now.m <ℤ b.now.m) }
{
    a.m < b.m
}

// The first position whose m is below that of the one before.
fn first_fall(positions: &[Position]) -> Option<usize>
    ensures { MatchOption result (NeverFalls positions.now) (λ place. IsFirstPlace (FallsAt positions.now) place) }
{
    for i in 1..positions.len() {
        if is_below(&positions[i], &positions[i - 1]) {
            return Some(i + 1);
        }
    }
    None
}

// The first position of a geometry that isn't within the limits.
fn first_out(geometry: &Geometry) -> Option<usize>
    requires { length (positions_of geometry.now) ≤ position_limit }
    ensures { MatchOption result (AllByRecursion IsInRange (positions_of geometry.now))
        (λ place. IsFirstPlace (IsBadAt IsInRange (positions_of geometry.now)) place) }
{
    let checked = match geometry {
        Geometry::Points { positions, .. } => check_positions(positions.items(), 0),
        Geometry::Line { positions, .. } => check_positions(positions.items(), 0),
        Geometry::Polygons { polygons, .. } => check_polygons(polygons.items(), 0),
    };
    checked.err()
}

// The first ring of a geometry that isn't closed.
fn first_open(geometry: &Geometry) -> Option<usize>
    requires { length (rings_of geometry.now) ≤ position_limit }
    ensures { MatchOption result (AllByRecursion IsClosed (rings_of geometry.now))
        (λ place. IsFirstPlace (IsBadAt IsClosed (rings_of geometry.now)) place) }
{
    match geometry {
        Geometry::Polygons { polygons, .. } => check_all_closed(polygons.items(), 0).err(),
        _ => None,
    }
}

// The first position along a line whose m is below that of the one before.
fn first_decrease(geometry: &Geometry) -> Option<usize>
    ensures { MatchOption result (NeverFalls (line_of geometry.now)) (λ place. IsFirstPlace (FallsAt (line_of geometry.now)) place) }
{
    match geometry {
        Geometry::Line { positions, .. } => first_fall(positions.items()),
        _ => None,
    }
}

/// The least fault of a geometry that has no more positions than the limit.
pub fn fault_of(geometry: &Geometry) -> Option<WktFault>
    requires few { length (positions_of geometry.now) ≤ position_limit }
    requires rings { length (rings_of geometry.now) ≤ position_limit }
    ensures { MatchOption result (IsFaultless geometry.now) (λ fault. IsFound fault geometry.now) }
{
    if let Some(place) = first_out(geometry) {
        return Some(WktFault::OutOfRange(place));
    }
    if let Some(place) = first_open(geometry) {
        return Some(WktFault::OpenRing(place));
    }
    if let Some(place) = first_decrease(geometry) {
        return Some(WktFault::DecreasingM(place));
    }
    None
}
