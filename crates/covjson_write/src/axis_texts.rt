//! The beginnings of ranges.
ghost use Rattle.std.specs.Prelude.{◌≡◌, ◌++◌, ◌||◌, IfOk, OnOk, true, codes, decimal, map, option_map, is_some, []};
ghost use Rattle.json.specs.Print.{quoted};
ghost use Rattle.covjson_value.specs.declared.axis_names.AxisName.TheVariants.{Composite};
ghost use Rattle.covjson_value.specs.AxisNames.{axis_key, axis_name};
ghost use Rattle.covjson_value.specs.Domains.{range_axis_of, range_tuples_of, range_axes};
ghost use Rattle.covjson_value.specs.Trees.{name_data, length_data};
ghost use Rattle.covjson_write.specs.Pieces.{list_text, array_begin};
ghost use Rattle.covjson_write.specs.HeadTexts.{item_before, item_text, end_if, length_text};

use crate::leaves::{push_bytes, quoted_axis};
use covjson_value::{CoordinateName, Domain, axis_name};
use edr_base::{OutOfMemory, Text};
use itoa::Buffer;
use std::alloc::Global;

// The text of a small range as far as its values has fewer bytes.
const OPENING_SIZE: usize = 128;

// An item of a list that is begun with its first one. The answer is that some stand by now.
fn push_item(
    text: &mut Vec<u8>,
    later: bool,
    begin: &[u8],
    item: &[u8],
) -> Result<bool, OutOfMemory>
    ensures text { OnOk result (text.new.items ≡ text.old.items ++ (item_before later begin.now ++ item.now)) }
    ensures later { IfOk result (λ more. more ≡ true) }
{
    push_bytes(text, if later { b"," } else { begin })?;
    push_bytes(text, item)?;
    Ok(true)
}

// The name of an axis, where it is one of the domain's ranges. The answer is whether some stand by now.
fn push_name(
    text: &mut Vec<u8>,
    later: bool,
    domain: &Domain,
    name: CoordinateName,
) -> Result<bool, OutOfMemory>
    ensures text { OnOk result (text.new.items ≡ text.old.items
        ++ item_text later (codes "\"axisNames\":[") (option_map (λ _. quoted (axis_key (axis_name name))) (range_axis_of domain.now name))) }
    ensures later { IfOk result (λ more. more ≡ later || is_some (range_axis_of domain.now name)) }
{
    if domain.range_axis(name).is_none() {
        return Ok(later);
    }
    push_item(
        text,
        later,
        b"\"axisNames\":[",
        quoted_axis(axis_name(name)),
    )
}

// The length of an axis that is one of them.
fn push_count(text: &mut Vec<u8>, later: bool, count: usize) -> Result<bool, OutOfMemory>
    ensures text { OnOk result (text.new.items ≡ text.old.items ++ (item_before later (codes ",\"shape\":[") ++ decimal count)) }
    ensures later { IfOk result (λ more. more ≡ true) }
{
    let mut buffer = Buffer::new();
    push_item(
        text,
        later,
        b",\"shape\":[",
        buffer.format(count).as_bytes(),
    )
}

// Its length, there.
fn push_length(
    text: &mut Vec<u8>,
    later: bool,
    domain: &Domain,
    name: CoordinateName,
) -> Result<bool, OutOfMemory>
    ensures text { OnOk result (text.new.items ≡ text.old.items
        ++ item_text later (codes ",\"shape\":[") (option_map length_text (range_axis_of domain.now name))) }
    ensures later { IfOk result (λ more. more ≡ later || is_some (range_axis_of domain.now name)) }
{
    let Some(values) = domain.range_axis(name) else {
        return Ok(later);
    };
    push_count(text, later, values.len())
}

// The name of the composite axis, where that is one.
fn push_composite(text: &mut Vec<u8>, later: bool, domain: &Domain) -> Result<bool, OutOfMemory>
    ensures text { OnOk result (text.new.items ≡ text.old.items
        ++ item_text later (codes "\"axisNames\":[") (option_map (λ _. quoted (axis_key Composite)) (range_tuples_of domain.now))) }
    ensures later { IfOk result (λ more. more ≡ later || is_some (range_tuples_of domain.now)) }
{
    if domain.range_tuples().is_none() {
        return Ok(later);
    }
    push_item(text, later, b"\"axisNames\":[", b"\"composite\"")
}

// Its length, there.
fn push_tuples(text: &mut Vec<u8>, later: bool, domain: &Domain) -> Result<bool, OutOfMemory>
    ensures text { OnOk result (text.new.items ≡ text.old.items
        ++ item_text later (codes ",\"shape\":[") (option_map length_text (range_tuples_of domain.now))) }
    ensures later { IfOk result (λ more. more ≡ later || is_some (range_tuples_of domain.now)) }
{
    let Some(tuples) = domain.range_tuples() else {
        return Ok(later);
    };
    push_count(text, later, tuples.len())
}

fn push_end(text: &mut Vec<u8>, later: bool, end: &[u8]) -> Result<(), OutOfMemory>
    ensures { OnOk result (text.new.items ≡ text.old.items ++ end_if later end.now) }
{
    if later { push_bytes(text, end) } else { Ok(()) }
}

// The names of the axes of a domain's ranges, where they have some.
fn push_names(text: &mut Vec<u8>, domain: &Domain) -> Result<(), OutOfMemory>
    ensures { OnOk result (text.new.items
        ≡ text.old.items ++ list_text (codes "\"axisNames\":") (map name_data (range_axes domain.now)) (codes ",")) }
{
    let times = push_name(text, false, domain, CoordinateName::T)?;
    let levels = push_name(text, times, domain, CoordinateName::Z)?;
    let rows = push_name(text, levels, domain, CoordinateName::Y)?;
    let columns = push_name(text, rows, domain, CoordinateName::X)?;
    let some = push_composite(text, columns, domain)?;
    push_end(text, some, b"],")
}

// Their lengths, there.
fn push_shape(text: &mut Vec<u8>, domain: &Domain) -> Result<(), OutOfMemory>
    ensures { OnOk result (text.new.items
        ≡ text.old.items ++ list_text (codes ",\"shape\":") (map length_data (range_axes domain.now)) []) }
{
    let times = push_length(text, false, domain, CoordinateName::T)?;
    let levels = push_length(text, times, domain, CoordinateName::Z)?;
    let rows = push_length(text, levels, domain, CoordinateName::Y)?;
    let columns = push_length(text, rows, domain, CoordinateName::X)?;
    let some = push_tuples(text, columns, domain)?;
    push_end(text, some, b"]")
}

fn push_opening(text: &mut Vec<u8>, domain: &Domain) -> Result<(), OutOfMemory>
    ensures { OnOk result (text.new.items ≡ text.old.items ++ (codes ":" ++ array_begin (range_axes domain.now))) }
{
    push_bytes(text, b":{")?;
    push_names(text, domain)?;
    push_bytes(text, b"\"dataType\":\"integer\"")?;
    push_shape(text, domain)?;
    push_bytes(text, b",\"type\":\"NdArray\",\"values\":[")
}

/// What stands between the key of a range over a domain and its values (OGC 21-069r2, NdArray objects). Want of memory is
/// the only error.
pub fn opening_text(alloc: Global, domain: &Domain) -> Result<Text, OutOfMemory>
    ensures { IfOk result (λ text. text ≡ codes ":" ++ array_begin (range_axes domain.now)) }
{
    let mut text = Vec::with_capacity(alloc, OPENING_SIZE)?;
    push_opening(&mut text, domain)?;
    Ok(Text::from_vec(text))
}
