//! The texts of domains.
ghost use Rattle.std.specs.Prelude.{◌≡◌, ◌++◌, ◌||◌, OnOk, IfOk, IfSome, All, false, is_some, option_map};
ghost use Rattle.serde_json.specs.Written.{compact_text};
ghost use Rattle.covjson_value.specs.Domains as domains;
ghost use Rattle.covjson_value.specs.Domains.{axis_of, tuples_of, coordinates_of, has_axis};
ghost use Rattle.covjson_value.specs.AxisNames.{axis_key, axis_name};
ghost use Rattle.covjson_value.specs.declared.axis_names.AxisName.TheVariants.{Composite};
ghost use Rattle.covjson_value.specs.Coverages.{IsAxisValue, IsNamedAxis, HasAxes, HasTuples, IsReferencing};
ghost use Rattle.covjson_value.specs.Trees.{array_of, axis_value_data, list_data, is_spanned, axis_data, keys_data, tuple_data, composite_data, axes_data, domain_data};
ghost use Rattle.covjson_write.specs.HeadTexts.{member_text};

use crate::leaves::{push_bytes, push_comma, push_integer, push_time, quoted_axis, quoted_name};
use crate::regular_axes::push_span;
use crate::system_texts::push_referencing;
use covjson_value::{CoordinateName, Domain, Referencing, axis_name, coordinate, is_spanned};
use edr_base::{OutOfMemory, Position};
use std::alloc::Global;

fn push_axis_value(text: &mut Vec<u8>, name: CoordinateName, value: i64) -> Result<(), OutOfMemory>
    requires { IsAxisValue name value }
    ensures { OnOk result (text.new.items ≡ text.old.items ++ compact_text (axis_value_data name value)) }
{
    match name {
        CoordinateName::T => push_time(text, value),
        CoordinateName::Z | CoordinateName::Y | CoordinateName::X => push_integer(text, value),
    }
}

fn push_list(text: &mut Vec<u8>, name: CoordinateName, values: &[i64]) -> Result<(), OutOfMemory>
    requires { All (IsAxisValue name) values.now }
    ensures { OnOk result (text.new.items ≡ text.old.items ++ compact_text (list_data name values.now)) }
{
    push_bytes(text, b"{\"values\":[")?;
    for place in 0..values.len() {
        push_comma(text, place > 0)?;
        push_axis_value(text, name, values[place])?;
    }
    push_bytes(text, b"]}")
}

fn push_values(text: &mut Vec<u8>, name: CoordinateName, values: &[i64]) -> Result<(), OutOfMemory>
    requires { IsNamedAxis name values.now }
    ensures { OnOk result (text.new.items ≡ text.old.items ++ compact_text (axis_data name values.now)) }
{
    if is_spanned(name, values) {
        push_span(text, values)
    } else {
        push_list(text, name, values)
    }
}

// The member of an axis, where the domain has it. The answer is whether some stand by now.
fn push_axis(
    text: &mut Vec<u8>,
    later: bool,
    domain: &Domain,
    name: CoordinateName,
) -> Result<bool, OutOfMemory>
    requires { IfSome (axis_of domain.now name) (IsNamedAxis name) }
    ensures text { OnOk result (text.new.items ≡ text.old.items
        ++ member_text later (axis_key (axis_name name)) (option_map (axis_data name) (axis_of domain.now name))) }
    ensures later { IfOk result (λ more. more ≡ later || has_axis domain.now name) }
{
    let Some(values) = domain.axis(name) else {
        return Ok(later);
    };
    push_comma(text, later)?;
    push_bytes(text, quoted_axis(axis_name(name)))?;
    push_bytes(text, b":")?;
    push_values(text, name, values)?;
    Ok(true)
}

fn push_tuple(
    text: &mut Vec<u8>,
    names: &[CoordinateName],
    tuple: &Position,
) -> Result<(), OutOfMemory>
    requires { All (λ name. IsAxisValue name (domains.coordinate name tuple.now)) names.now }
    ensures { OnOk result (text.new.items ≡ text.old.items ++ compact_text (tuple_data names.now tuple.now)) }
{
    push_bytes(text, b"[")?;
    for place in 0..names.len() {
        push_comma(text, place > 0)?;
        push_axis_value(text, names[place], coordinate(tuple, names[place]))?;
    }
    push_bytes(text, b"]")
}

fn push_tuples(
    text: &mut Vec<u8>,
    names: &[CoordinateName],
    tuples: &[Position],
) -> Result<(), OutOfMemory>
    requires { All (λ tuple. All (λ name. IsAxisValue name (domains.coordinate name tuple)) names.now) tuples.now }
    ensures { OnOk result (text.new.items ≡ text.old.items ++ compact_text (array_of (tuple_data names.now) tuples.now)) }
{
    push_bytes(text, b"[")?;
    for place in 0..tuples.len() {
        push_comma(text, place > 0)?;
        push_tuple(text, names, &tuples[place])?;
    }
    push_bytes(text, b"]")
}

// The names of the coordinates of tuples.
fn push_names(text: &mut Vec<u8>, names: &[CoordinateName]) -> Result<(), OutOfMemory>
    ensures { OnOk result (text.new.items ≡ text.old.items ++ compact_text (keys_data names.now)) }
{
    push_bytes(text, b"[")?;
    for place in 0..names.len() {
        push_comma(text, place > 0)?;
        push_bytes(text, quoted_name(names[place]))?;
    }
    push_bytes(text, b"]")
}

// The member of the composite axis, where the domain has one. The answer is whether it stands.
fn push_composite(text: &mut Vec<u8>, domain: &Domain) -> Result<bool, OutOfMemory>
    requires { HasTuples domain.now }
    ensures text { OnOk result (text.new.items ≡ text.old.items
        ++ member_text false (axis_key Composite) (option_map (composite_data (coordinates_of domain.now)) (tuples_of domain.now))) }
    ensures later { IfOk result (λ more. more ≡ is_some (tuples_of domain.now)) }
{
    let Some(tuples) = domain.tuples() else {
        return Ok(false);
    };
    let names = domain.coordinates();
    push_bytes(text, b"\"composite\":{\"coordinates\":")?;
    push_names(text, names)?;
    push_bytes(text, b",\"dataType\":\"tuple\",\"values\":")?;
    push_tuples(text, names, tuples)?;
    push_bytes(text, b"}")?;
    Ok(true)
}

fn push_axes(text: &mut Vec<u8>, domain: &Domain) -> Result<(), OutOfMemory>
    requires axes { HasAxes domain.now }
    requires tuples { HasTuples domain.now }
    ensures { OnOk result (text.new.items ≡ text.old.items ++ compact_text (axes_data domain.now)) }
{
    push_bytes(text, b"{")?;
    let composite = push_composite(text, domain)?;
    let times = push_axis(text, composite, domain, CoordinateName::T)?;
    let columns = push_axis(text, times, domain, CoordinateName::X)?;
    let rows = push_axis(text, columns, domain, CoordinateName::Y)?;
    push_axis(text, rows, domain, CoordinateName::Z)?;
    push_bytes(text, b"}")
}

/// Puts a domain, with the systems of its coordinates.
pub fn push_domain(
    text: &mut Vec<u8>,
    alloc: Global,
    domain: &Domain,
    referencing: &Referencing,
) -> Result<(), OutOfMemory>
    requires axes { HasAxes domain.now }
    requires tuples { HasTuples domain.now }
    requires referencing { IsReferencing referencing.now }
    ensures { OnOk result (text.new.items ≡ text.old.items ++ compact_text (domain_data domain.now referencing.now)) }
{
    push_bytes(text, b"{\"axes\":")?;
    push_axes(text, domain)?;
    push_bytes(text, b",\"domainType\":\"")?;
    push_bytes(text, domain.type_name().as_bytes())?;
    push_bytes(text, b"\",\"referencing\":")?;
    push_referencing(text, alloc, domain, referencing)?;
    push_bytes(text, b",\"type\":\"Domain\"}")
}
