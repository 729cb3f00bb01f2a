//! The brackets of each kind of geometry.
ghost use Rattle.std.specs.Prelude.{◌≡◌, ◌+◌, ◌≤◌, if◌then◌else◌, IfOk, Err};
ghost use Rattle.edr_base.specs.Limits.{position_limit};
ghost use Rattle.edr_wkt.specs.declared.headings.Kind.TheVariants as k;
ghost use Rattle.edr_wkt.specs.BodyReads.{IsBodyRead, HasNoBody};

use crate::areas::{read_polygons, read_rings};
use crate::geometry::{Geometry, Polygon};
use crate::headings::{Heading, Kind};
use crate::lists::{Stop, keep, read_positions};
use edr_base::Items;
use std::alloc::Global;

// A line has at least so many positions.
const LINE_LEAST: usize = 2;

// The inside of POINT, or of MULTIPOINT.
fn read_points<'a>(
    alloc: Global,
    multi: bool,
    has_z: bool,
    has_m: bool,
    text: &'a [u8],
    count: &mut usize,
) -> Result<(Geometry, &'a [u8]), Stop>
    requires { count.old ≤ position_limit + 1 }
    ensures read { IfOk result (λ r. IsBodyRead (if multi then k.MultiPoint else k.Point) has_z has_m text.now count.old count.new r.0 r.1.now) }
    ensures not_wkt { result ≡ Err Stop.NotWkt → HasNoBody (if multi then k.MultiPoint else k.Point) has_z has_m text.now }
{
    let (positions, len, rest) = read_positions(alloc, multi, has_z, has_m, text, count)?;
    if !multi && len != 1 {
        return Err(Stop::NotWkt);
    }
    let geometry = Geometry::Points {
        multi,
        has_z,
        has_m,
        positions,
    };
    Ok((geometry, rest))
}

// The inside of LINESTRING.
fn read_line<'a>(
    alloc: Global,
    has_z: bool,
    has_m: bool,
    text: &'a [u8],
    count: &mut usize,
) -> Result<(Geometry, &'a [u8]), Stop>
    requires { count.old ≤ position_limit + 1 }
    ensures read { IfOk result (λ r. IsBodyRead k.LineString has_z has_m text.now count.old count.new r.0 r.1.now) }
    ensures not_wkt { result ≡ Err Stop.NotWkt → HasNoBody k.LineString has_z has_m text.now }
{
    let (positions, len, rest) = read_positions(alloc, false, has_z, has_m, text, count)?;
    if len < LINE_LEAST {
        return Err(Stop::NotWkt);
    }
    let geometry = Geometry::Line {
        has_z,
        has_m,
        positions,
    };
    Ok((geometry, rest))
}

// The inside of MULTIPOLYGON.
fn read_multi_polygon<'a>(
    alloc: Global,
    has_z: bool,
    has_m: bool,
    text: &'a [u8],
    count: &mut usize,
) -> Result<(Geometry, &'a [u8]), Stop>
    requires { count.old ≤ position_limit + 1 }
    ensures read { IfOk result (λ r. IsBodyRead k.MultiPolygon has_z has_m text.now count.old count.new r.0 r.1.now) }
    ensures not_wkt { result ≡ Err Stop.NotWkt → HasNoBody k.MultiPolygon has_z has_m text.now }
{
    let (polygons, rest) = read_polygons(alloc, has_z, has_m, text, count)?;
    let geometry = Geometry::Polygons {
        multi: true,
        has_z,
        has_m,
        polygons,
    };
    Ok((geometry, rest))
}

// The inside of POLYGON.
fn read_one_polygon<'a>(
    alloc: Global,
    has_z: bool,
    has_m: bool,
    text: &'a [u8],
    count: &mut usize,
) -> Result<(Geometry, &'a [u8]), Stop>
    requires { count.old ≤ position_limit + 1 }
    ensures read { IfOk result (λ r. IsBodyRead k.Polygon has_z has_m text.now count.old count.new r.0 r.1.now) }
    ensures not_wkt { result ≡ Err Stop.NotWkt → HasNoBody k.Polygon has_z has_m text.now }
{
    let (rings, rest) = read_rings(alloc, has_z, has_m, text, count)?;
    let mut polygons = Vec::new(alloc);
    keep(&mut polygons, Polygon { rings }, 0)?;
    let geometry = Geometry::Polygons {
        multi: false,
        has_z,
        has_m,
        polygons: Items::of(polygons),
    };
    Ok((geometry, rest))
}

/// The inside of the brackets behind a heading.
pub fn read_body<'a>(
    alloc: Global,
    heading: Heading,
    text: &'a [u8],
    count: &mut usize,
) -> Result<(Geometry, &'a [u8]), Stop>
    requires { count.old ≤ position_limit + 1 }
    ensures read { IfOk result (λ r. IsBodyRead heading.kind heading.has_z heading.has_m text.now count.old count.new r.0 r.1.now) }
    ensures not_wkt { result ≡ Err Stop.NotWkt → HasNoBody heading.kind heading.has_z heading.has_m text.now }
{
    match heading.kind {
        Kind::Point => read_points(alloc, false, heading.has_z, heading.has_m, text, count),
        Kind::MultiPoint => read_points(alloc, true, heading.has_z, heading.has_m, text, count),
        Kind::LineString => read_line(alloc, heading.has_z, heading.has_m, text, count),
        Kind::Polygon => read_one_polygon(alloc, heading.has_z, heading.has_m, text, count),
        Kind::MultiPolygon => read_multi_polygon(alloc, heading.has_z, heading.has_m, text, count),
    }
}
