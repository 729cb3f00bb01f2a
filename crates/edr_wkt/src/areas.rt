//! Rings and polygons.
ghost use Rattle.std.specs.Prelude.{◌≡◌, ◌+◌, ◌≤◌, IfOk, Err, length, map};
ghost use Rattle.edr_base.specs.Limits.{position_limit};
ghost use Rattle.edr_wkt.specs.Kept.{kept, kept_polygon};
ghost use Rattle.edr_wkt.specs.Geometries.{polygon_size};
ghost use Rattle.edr_wkt.specs.Grammar.{IsRing, IsPolygon};
ghost use Rattle.edr_wkt.specs.Reads.{HasNoItem, IsRead, AreRead, HasNoItems};

use crate::geometry::Polygon;
use crate::lists::{Stop, keep, read_positions};
use crate::words::{behind, read_mark};
use edr_base::{Items, Position};
use std::alloc::Global;

// A ring has at least so many positions.
const RING_LEAST: usize = 4;

// The ring at the front, and what stands behind it.
fn read_ring<'a>(
    alloc: Global,
    has_z: bool,
    has_m: bool,
    text: &'a [u8],
    count: &mut usize,
) -> Result<(Items<Position>, &'a [u8]), Stop>
    requires { count.old ≤ position_limit + 1 }
    ensures read { IfOk result (λ r. IsRead (IsRing has_z has_m) length (map kept) text.now count.old count.new r.0 r.1.now) }
    ensures not_wkt { result ≡ Err Stop.NotWkt → HasNoItem (IsRing has_z has_m) text.now }
{
    let Some(inside) = behind(text, b'(') else {
        return Err(Stop::NotWkt);
    };
    let (positions, len, rest) = read_positions(alloc, false, has_z, has_m, inside, count)?;
    if len < RING_LEAST {
        return Err(Stop::NotWkt);
    }
    Ok((positions, rest))
}

/// The rings of a list, and what stands behind it.
pub fn read_rings<'a>(
    alloc: Global,
    has_z: bool,
    has_m: bool,
    text: &'a [u8],
    count: &mut usize,
) -> Result<(Items<Items<Position>>, &'a [u8]), Stop>
    requires { count.old ≤ position_limit + 1 }
    ensures read { IfOk result (λ r. AreRead (IsRing has_z has_m) length (map kept) text.now count.old count.new r.0 r.1.now) }
    ensures not_wkt { result ≡ Err Stop.NotWkt → HasNoItems (IsRing has_z has_m) text.now }
{
    let mut rings = Vec::new(alloc);
    let mut rest = text;
    'rings: loop {
        let (ring, after) = read_ring(alloc, has_z, has_m, rest, count)?;
        keep(&mut rings, ring, *count)?;
        let Some((mark, next)) = read_mark(after) else {
            return Err(Stop::NotWkt);
        };
        if mark == b')' {
            return Ok((Items::of(rings), next));
        }
        if mark != b',' {
            return Err(Stop::NotWkt);
        }
        rest = next;
    }
}

// The polygon at the front, and what stands behind it.
fn read_polygon<'a>(
    alloc: Global,
    has_z: bool,
    has_m: bool,
    text: &'a [u8],
    count: &mut usize,
) -> Result<(Polygon, &'a [u8]), Stop>
    requires { count.old ≤ position_limit + 1 }
    ensures read { IfOk result (λ r. IsRead (IsPolygon has_z has_m) polygon_size kept_polygon text.now count.old count.new r.0 r.1.now) }
    ensures not_wkt { result ≡ Err Stop.NotWkt → HasNoItem (IsPolygon has_z has_m) text.now }
{
    let Some(inside) = behind(text, b'(') else {
        return Err(Stop::NotWkt);
    };
    let (rings, rest) = read_rings(alloc, has_z, has_m, inside, count)?;
    Ok((Polygon { rings }, rest))
}

/// The polygons of a list, and what stands behind it.
pub fn read_polygons<'a>(
    alloc: Global,
    has_z: bool,
    has_m: bool,
    text: &'a [u8],
    count: &mut usize,
) -> Result<(Items<Polygon>, &'a [u8]), Stop>
    requires { count.old ≤ position_limit + 1 }
    ensures read { IfOk result (λ r. AreRead (IsPolygon has_z has_m) polygon_size kept_polygon text.now count.old count.new r.0 r.1.now) }
    ensures not_wkt { result ≡ Err Stop.NotWkt → HasNoItems (IsPolygon has_z has_m) text.now }
{
    let mut polygons = Vec::new(alloc);
    let mut rest = text;
    'polygons: loop {
        let (polygon, after) = read_polygon(alloc, has_z, has_m, rest, count)?;
        keep(&mut polygons, polygon, *count)?;
        let Some((mark, next)) = read_mark(after) else {
            return Err(Stop::NotWkt);
        };
        if mark == b')' {
            return Ok((Items::of(polygons), next));
        }
        if mark != b',' {
            return Err(Stop::NotWkt);
        }
        rest = next;
    }
}
