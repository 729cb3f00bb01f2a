//! Writing well-known text.
ghost use Rattle.std.specs.Prelude.{◌≡◌, ◌==◌, ◌++◌, ◌∷◌, [], if◌then◌else◌, OnOk, IfOk};
ghost use Rattle.std.specs.Fmt.{signed_decimal};
ghost use Rattle.edr_wkt.specs.Spelling.{number_text, position_text, member_text, ring_text, polygon_text, joined, in_brackets, heading_text, dims_part, areas_text, spelled};

use crate::geometry::{Geometry, Polygon};
use crate::headings::{Kind, tag};
use edr_base::{Items, OutOfMemory, Position, Text};
use itoa::Buffer;
use std::alloc::Global;

fn push_byte(out: &mut Vec<u8>, byte: u8) -> Result<(), OutOfMemory>
    ensures { OnOk result (out.new.items ≡ out.old.items ++ byte ∷ []) }
{
    Ok(out.push(byte)?)
}

fn push_number(out: &mut Vec<u8>, number: i64) -> Result<(), OutOfMemory>
    ensures { OnOk result (out.new.items ≡ out.old.items ++ signed_decimal number) }
{
    let mut buffer = Buffer::new();
    Ok(out.extend_from_slice(buffer.format(number).as_bytes())?)
}

// A number behind a space, where a position has it.
fn push_number_if(out: &mut Vec<u8>, has: bool, number: i64) -> Result<(), OutOfMemory>
    ensures { OnOk result (out.new.items ≡ out.old.items ++ number_text has number) }
{
    if !has {
        return Ok(());
    }
    push_byte(out, b' ')?;
    push_number(out, number)
}

fn push_position(
    out: &mut Vec<u8>,
    has_z: bool,
    has_m: bool,
    p: &Position,
) -> Result<(), OutOfMemory>
    ensures { OnOk result (out.new.items ≡ out.old.items ++ position_text has_z has_m p.now) }
{
    push_number(out, p.x)?;
    push_number_if(out, true, p.y)?;
    push_number_if(out, has_z, p.z)?;
    push_number_if(out, has_m, p.m)
}

fn push_member(
    out: &mut Vec<u8>,
    multi: bool,
    has_z: bool,
    has_m: bool,
    p: &Position,
) -> Result<(), OutOfMemory>
    ensures { OnOk result (out.new.items ≡ out.old.items ++ member_text multi has_z has_m p.now) }
{
    if !multi {
        return push_position(out, has_z, has_m, p);
    }
    push_byte(out, b'(')?;
    push_position(out, has_z, has_m, p)?;
    push_byte(out, b')')
}

// A comma before an item, unless it is the first of its list.
fn push_comma(out: &mut Vec<u8>, place: usize) -> Result<(), OutOfMemory>
    ensures { OnOk result (out.new.items ≡ out.old.items ++ (if place == 0 then [] else 44 ∷ [])) }
{
    if place == 0 {
        Ok(())
    } else {
        push_byte(out, b',')
    }
}

fn push_points(
    out: &mut Vec<u8>,
    multi: bool,
    has_z: bool,
    has_m: bool,
    positions: &[Position],
) -> Result<(), OutOfMemory>
    ensures { OnOk result (out.new.items ≡ out.old.items ++ in_brackets (joined (member_text multi has_z has_m) positions.now)) }
{
    push_byte(out, b'(')?;
    for (place, position) in positions.iter().enumerate() {
        push_comma(out, place)?;
        push_member(out, multi, has_z, has_m, position)?;
    }
    push_byte(out, b')')
}

fn push_rings(
    out: &mut Vec<u8>,
    has_z: bool,
    has_m: bool,
    rings: &[Items<Position>],
) -> Result<(), OutOfMemory>
    ensures { OnOk result (out.new.items ≡ out.old.items ++ in_brackets (joined (ring_text has_z has_m) rings.now)) }
{
    push_byte(out, b'(')?;
    for (place, ring) in rings.iter().enumerate() {
        push_comma(out, place)?;
        push_points(out, false, has_z, has_m, ring.items())?;
    }
    push_byte(out, b')')
}

fn push_polygons(
    out: &mut Vec<u8>,
    has_z: bool,
    has_m: bool,
    polygons: &[Polygon],
) -> Result<(), OutOfMemory>
    ensures { OnOk result (out.new.items ≡ out.old.items ++ joined (polygon_text has_z has_m) polygons.now) }
{
    for (place, polygon) in polygons.iter().enumerate() {
        push_comma(out, place)?;
        push_rings(out, has_z, has_m, polygon.rings.items())?;
    }
    Ok(())
}

// The tag in capitals, and the dims behind a space.
fn push_heading(out: &mut Vec<u8>, kind: Kind, has_z: bool, has_m: bool) -> Result<(), OutOfMemory>
    ensures { OnOk result (out.new.items ≡ out.old.items ++ heading_text kind has_z has_m) }
{
    out.extend_from_slice(tag(kind))?;
    Ok(out.extend_from_slice(dims(has_z, has_m))?)
}

fn dims(has_z: bool, has_m: bool) -> &'static [u8]
    ensures { result.now ≡ dims_part has_z has_m }
{
    if has_z {
        if has_m { b" ZM" } else { b" Z" }
    } else if has_m {
        b" M"
    } else {
        b""
    }
}

fn push_areas(
    out: &mut Vec<u8>,
    multi: bool,
    has_z: bool,
    has_m: bool,
    polygons: &[Polygon],
) -> Result<(), OutOfMemory>
    ensures { OnOk result (out.new.items ≡ out.old.items ++ areas_text multi has_z has_m polygons.now) }
{
    if !multi {
        return push_polygons(out, has_z, has_m, polygons);
    }
    push_byte(out, b'(')?;
    push_polygons(out, has_z, has_m, polygons)?;
    push_byte(out, b')')
}

fn push_geometry(out: &mut Vec<u8>, geometry: &Geometry) -> Result<(), OutOfMemory>
    ensures { OnOk result (out.new.items ≡ out.old.items ++ spelled geometry.now) }
{
    match geometry {
        Geometry::Points {
            multi,
            has_z,
            has_m,
            positions,
        } => {
            let kind = if *multi {
                Kind::MultiPoint
            } else {
                Kind::Point
            };
            push_heading(out, kind, *has_z, *has_m)?;
            push_points(out, *multi, *has_z, *has_m, positions.items())
        }
        Geometry::Line {
            has_z,
            has_m,
            positions,
        } => {
            push_heading(out, Kind::LineString, *has_z, *has_m)?;
            push_points(out, false, *has_z, *has_m, positions.items())
        }
        Geometry::Polygons {
            multi,
            has_z,
            has_m,
            polygons,
        } => {
            let kind = if *multi {
                Kind::MultiPolygon
            } else {
                Kind::Polygon
            };
            push_heading(out, kind, *has_z, *has_m)?;
            push_areas(out, *multi, *has_z, *has_m, polygons.items())
        }
    }
}

/// The written form of a geometry (OGC 06-103r4, section 7): the tag in capitals, dims behind a space, and no other
/// blank but one space between numbers. Each member of a MULTIPOINT has brackets.
pub fn write_wkt(alloc: Global, geometry: &Geometry) -> Result<Text, OutOfMemory>
    ensures { IfOk result (λ text. text ≡ spelled geometry.now) }
{
    let mut out = Vec::new(alloc);
    push_geometry(&mut out, geometry)?;
    Ok(Text::from_vec(out))
}
