//! The trees of ranges.
ghost use Rattle.std.specs.Prelude.{◌≡◌, ◌++◌, codes, IfOk, OnOk, All, map, length};
ghost use Rattle.serde_json.specs.Data.{put};
ghost use Rattle.serde_json.specs.View.{view, members_view};
ghost use Rattle.covjson_value.specs.Coverages.{IsParameter, AscendById};
ghost use Rattle.covjson_value.specs.Domains.{composite_alone, range_axis_of, range_tuples_of, range_axes};
ghost use Rattle.covjson_value.specs.Trees.{array_of, array_if_some, name_data, length_data, sample_data, range_data, ranges_data};
ghost use Rattle.covjson_value.specs.Puts.{axis_alone, put_if, put_range};

use crate::axis_names::{AxisName, axis_key, axis_name};
use crate::coverages::{NdArray, Parameter};
use crate::domains::{CoordinateName, Domain};
use crate::leaves::{push_text, push_tree, put_samples, put_text, put_tree, text_of, typed_object};
use edr_base::OutOfMemory;
use serde_json::{Map, Value};
use std::alloc::Global;

// The name and the length of an axis, where it is one of the domain's ranges.
fn push_axis(
    names: &mut Vec<Value>,
    lengths: &mut Vec<Value>,
    alloc: Global,
    domain: &Domain,
    name: CoordinateName,
) -> Result<(), OutOfMemory>
    ensures names { OnOk result (map view names.new.items
        ≡ map view names.old.items ++ map name_data (axis_alone name (range_axis_of domain.now name))) }
    ensures lengths { OnOk result (map view lengths.new.items
        ≡ map view lengths.old.items ++ map length_data (axis_alone name (range_axis_of domain.now name))) }
{
    match domain.range_axis(name) {
        Some(values) => {
            push_text(names, alloc, axis_key(axis_name(name)))?;
            push_tree(lengths, Value::from(values.len()))
        }
        None => Ok(()),
    }
}

// Those of the composite axis, where that is one.
fn push_composite(
    names: &mut Vec<Value>,
    lengths: &mut Vec<Value>,
    alloc: Global,
    domain: &Domain,
) -> Result<(), OutOfMemory>
    ensures names { OnOk result (map view names.new.items
        ≡ map view names.old.items ++ map name_data (composite_alone (range_tuples_of domain.now))) }
    ensures lengths { OnOk result (map view lengths.new.items
        ≡ map view lengths.old.items ++ map length_data (composite_alone (range_tuples_of domain.now))) }
{
    match domain.range_tuples() {
        Some(tuples) => {
            push_text(names, alloc, axis_key(AxisName::Composite))?;
            push_tree(lengths, Value::from(tuples.len()))
        }
        None => Ok(()),
    }
}

// The names and the lengths of all axes of the domain's ranges.
fn push_axes(
    names: &mut Vec<Value>,
    lengths: &mut Vec<Value>,
    alloc: Global,
    domain: &Domain,
) -> Result<(), OutOfMemory>
    ensures names { OnOk result (map view names.new.items
        ≡ map view names.old.items ++ map name_data (range_axes domain.now)) }
    ensures lengths { OnOk result (map view lengths.new.items
        ≡ map view lengths.old.items ++ map length_data (range_axes domain.now)) }
{
    push_axis(names, lengths, alloc, domain, CoordinateName::T)?;
    push_axis(names, lengths, alloc, domain, CoordinateName::Z)?;
    push_axis(names, lengths, alloc, domain, CoordinateName::Y)?;
    push_axis(names, lengths, alloc, domain, CoordinateName::X)?;
    push_composite(names, lengths, alloc, domain)
}

// Puts an array, unless it has no item.
fn put_array(
    members: &mut Map<String, Value>,
    alloc: Global,
    key: &str,
    items: Vec<Value>,
) -> Result<(), OutOfMemory>
    ensures { OnOk result (members_view members.new.entries
        ≡ put_if key.now (array_if_some (map view items.items)) (members_view members.old.entries)) }
{
    if items.is_empty() {
        Ok(())
    } else {
        put_tree(members, alloc, key, Value::Array(items))
    }
}

// Puts the members of a range, but for its type.
fn put_members(
    members: &mut Map<String, Value>,
    alloc: Global,
    domain: &Domain,
    range: &NdArray,
) -> Result<(), OutOfMemory>
    ensures { OnOk result (members_view members.new.entries
        ≡ put_range (array_if_some (map name_data (range_axes domain.now))) (array_if_some (map length_data (range_axes domain.now))) (array_of sample_data range.now.values)
        (members_view members.old.entries)) }
{
    let mut names = Vec::new(alloc);
    let mut lengths = Vec::new(alloc);
    push_axes(&mut names, &mut lengths, alloc, domain)?;
    put_array(members, alloc, "axisNames", names)?;
    put_array(members, alloc, "shape", lengths)?;
    put_text(members, alloc, "dataType", "integer")?;
    put_samples(members, alloc, range.values.items())
}

fn range_tree(alloc: Global, domain: &Domain, range: &NdArray) -> Result<Value, OutOfMemory>
    ensures { IfOk result (λ v. view v ≡ range_data domain.now range.now) }
{
    let mut members = Map::new(alloc);
    put_members(&mut members, alloc, domain, range)?;
    typed_object(members, alloc, "NdArray")
}

/// Puts some ranges, by the ids of their parameters.
pub fn put_ranges(
    members: &mut Map<String, Value>,
    alloc: Global,
    domain: &Domain,
    parameters: &[Parameter],
    ranges: &[NdArray],
) -> Result<(), OutOfMemory>
    requires each { All IsParameter parameters.now }
    requires ascending { AscendById parameters.now }
    requires as_many { length ranges.now ≡ length parameters.now }
    ensures { OnOk result (members_view members.new.entries
        ≡ put (codes "ranges") (ranges_data domain.now parameters.now ranges.now) (members_view members.old.entries)) }
{
    let mut by_id = Map::new(alloc);
    for place in 0..ranges.len() {
        let tree = range_tree(alloc, domain, &ranges[place])?;
        let id = text_of(parameters[place].id.bytes());
        put_tree(&mut by_id, alloc, id, tree)?;
    }
    put_tree(members, alloc, "ranges", Value::Object(by_id))
}
