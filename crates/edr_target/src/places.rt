//! Where a query selects, as pairs of a form.
ghost use Rattle.std.specs.Prelude.{◌≡◌, codes, Some, option_map, OnOk};
ghost use Rattle.std.specs.Fmt.{signed_decimal};
ghost use Rattle.form_urlencoded.specs.Form.{append_pair};
ghost use Rattle.edr_wkt.specs.Spelling.{joined, spelled};
ghost use Rattle.edr_query.specs.declared.parameters.Parameter.TheVariants as p;
ghost use Rattle.edr_query.specs.declared.shapes.Shape.TheVariants.{Radius, Corridor};
ghost use Rattle.edr_query.specs.Boxes.{numbers_with};
ghost use Rattle.edr_query.specs.Spelling.{metres_unit};
ghost use Rattle.edr_target.specs.Forms.{with_pair, with_place};

use crate::forms::push_pair;
use crate::texts::{box_text, number_text};
use edr_base::{OutOfMemory, Spot};
use edr_query::Shape;
use edr_wkt::{Geometry, write_wkt};
use std::alloc::Global;

fn push_coords(form: &mut Vec<u8>, alloc: Global, geometry: &Geometry) -> Result<(), OutOfMemory>
    ensures { OnOk result (form.new.items ≡ append_pair form.old.items (codes "coords") (spelled geometry.now)) }
{
    let text = write_wkt(alloc, geometry)?;
    push_pair(form, b"coords", text.bytes())
}

// A distance in metres, and its unit.
fn push_distance(
    form: &mut Vec<u8>,
    alloc: Global,
    name: &[u8],
    units: &[u8],
    metres: i64,
) -> Result<(), OutOfMemory>
    ensures { OnOk result (form.new.items ≡ append_pair (append_pair form.old.items name.now (signed_decimal metres)) units.now (codes "m")) }
{
    let text = number_text(alloc, metres)?;
    push_pair(form, name, &text)?;
    push_pair(form, units, b"m")
}

fn push_box(
    form: &mut Vec<u8>,
    alloc: Global,
    lo: Spot,
    hi: Spot,
    levels: Option<(i64, i64)>,
) -> Result<(), OutOfMemory>
    ensures { OnOk result (form.new.items ≡ append_pair form.old.items (codes "bbox") (joined signed_decimal (numbers_with lo hi levels))) }
{
    let text = box_text(alloc, lo, hi, levels)?;
    push_pair(form, b"bbox", &text)
}

// The height of a corridor, where it has one.
fn push_height(form: &mut Vec<u8>, alloc: Global, height: Option<i64>) -> Result<(), OutOfMemory>
    ensures { OnOk result (form.new.items
        ≡ with_pair (with_pair form.old.items p.CorridorHeight (option_map signed_decimal height)) p.HeightUnits (metres_unit height)) }
{
    match height {
        Some(height) => push_distance(form, alloc, b"corridor-height", b"height-units", height),
        None => Ok(()),
    }
}

// Within a distance of a geometry.
fn push_radius(
    form: &mut Vec<u8>,
    alloc: Global,
    geometry: &Geometry,
    within: i64,
) -> Result<(), OutOfMemory>
    ensures { OnOk result (form.new.items ≡ with_place form.old.items (Radius geometry.now within)) }
{
    push_coords(form, alloc, geometry)?;
    push_distance(form, alloc, b"within", b"within-units", within)
}

// Along a geometry, by a width and a height.
fn push_corridor(
    form: &mut Vec<u8>,
    alloc: Global,
    geometry: &Geometry,
    width: i64,
    height: Option<i64>,
) -> Result<(), OutOfMemory>
    ensures { OnOk result (form.new.items ≡ with_place form.old.items (Corridor geometry.now width height)) }
{
    push_coords(form, alloc, geometry)?;
    push_distance(form, alloc, b"corridor-width", b"width-units", width)?;
    push_height(form, alloc, height)
}

/// Puts the pairs that say where a query selects.
pub fn push_place(form: &mut Vec<u8>, alloc: Global, shape: &Shape) -> Result<(), OutOfMemory>
    ensures { OnOk result (form.new.items ≡ with_place form.old.items shape.now) }
{
    match shape {
        Shape::Position(geometry) | Shape::Area(geometry) | Shape::Trajectory(geometry) => {
            push_coords(form, alloc, geometry)
        }
        Shape::Radius { geometry, within } => push_radius(form, alloc, geometry, *within),
        Shape::Cube { lo, hi, levels } => push_box(form, alloc, *lo, *hi, *levels),
        Shape::Corridor {
            geometry,
            width,
            height,
        } => push_corridor(form, alloc, geometry, *width, *height),
        Shape::Location(_) => Ok(()),
    }
}
