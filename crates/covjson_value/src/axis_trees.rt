//! The trees of a domain's axes.
ghost use Rattle.std.specs.Prelude.{◌≡◌, ◌++◌, ◌∷◌, [], codes, map, IfOk, OnOk, IfSome, All, option_map};
ghost use Rattle.serde_json.specs.View.{view, members_view};
ghost use Rattle.serde_json.specs.Data.{object, put};
ghost use Rattle.covjson_value.specs.Domains.{coordinate_key, axis_of, tuples_of, coordinates_of};
ghost use Rattle.covjson_value.specs.Domains as domains;
ghost use Rattle.covjson_value.specs.AxisNames.{axis_key, axis_name};
ghost use Rattle.covjson_value.specs.declared.axis_names.AxisName.TheVariants.{Composite};
ghost use Rattle.covjson_value.specs.Coverages.{IsAxisValue, IsNamedAxis, HasAxes, HasTuples};
ghost use Rattle.covjson_value.specs.Trees.{array_of, axis_value_data, list_data, is_spanned, axis_data, keys_data, tuple_data, composite_data, axes_data};
ghost use Rattle.covjson_value.specs.Puts.{put_if, put_tuples};

use crate::axis_names::{AxisName, axis_key, axis_name};
use crate::domains::{CoordinateName, Domain};
use crate::leaves::{only_member, push_text, push_tree, put_text, put_tree, time_tree};
use crate::regular_axes::{is_regular, span_tree};
use edr_base::{OutOfMemory, Position};
use serde_json::{Map, Value};
use std::alloc::Global;

impl CoordinateName {
    /// The identifier of the coordinate in CoverageJSON: `t`, `z`, `y` or `x`. It takes no memory.
    pub fn letter(self) -> &'static str
        ensures { result.now ≡ coordinate_key self }
    {
        match self {
            CoordinateName::T => "t",
            CoordinateName::Z => "z",
            CoordinateName::Y => "y",
            CoordinateName::X => "x",
        }
    }
}

// Puts a value of an axis behind others.
fn push_axis_value(
    items: &mut Vec<Value>,
    alloc: Global,
    name: CoordinateName,
    value: i64,
) -> Result<(), OutOfMemory>
    requires { IsAxisValue name value }
    ensures { OnOk result (map view items.new.items ≡ map view items.old.items ++ axis_value_data name value ∷ []) }
{
    match name {
        CoordinateName::T => push_tree(items, time_tree(alloc, value)?),
        CoordinateName::Z | CoordinateName::Y | CoordinateName::X => {
            push_tree(items, Value::from(value))
        }
    }
}

fn list_tree(alloc: Global, name: CoordinateName, values: &[i64]) -> Result<Value, OutOfMemory>
    requires { All (IsAxisValue name) values.now }
    ensures { IfOk result (λ v. view v ≡ list_data name values.now) }
{
    let mut items = Vec::with_capacity(alloc, values.len())?;
    for value in values {
        push_axis_value(&mut items, alloc, name, *value)?;
    }
    only_member(alloc, "values", Value::Array(items))
}

/// Whether the values of an axis of a name are written by their count, the first and the last (OGC 21-069r2, regularly
/// spaced axes). Times are always listed. One pass over them, and no memory.
pub fn is_spanned(name: CoordinateName, values: &[i64]) -> bool
    requires { All (IsAxisValue name) values.now }
    ensures { result ≡ is_spanned name values.now }
{
    match name {
        CoordinateName::T => false,
        CoordinateName::Z | CoordinateName::Y | CoordinateName::X => is_regular(values),
    }
}

fn axis_tree(alloc: Global, name: CoordinateName, values: &[i64]) -> Result<Value, OutOfMemory>
    requires { IsNamedAxis name values.now }
    ensures { IfOk result (λ v. view v ≡ axis_data name values.now) }
{
    if is_spanned(name, values) {
        span_tree(alloc, values)
    } else {
        list_tree(alloc, name, values)
    }
}

/// A coordinate of a tuple.
pub fn coordinate(tuple: &Position, name: CoordinateName) -> i64
    ensures { result ≡ domains.coordinate name tuple.now }
{
    match name {
        CoordinateName::T => tuple.m,
        CoordinateName::Z => tuple.z,
        CoordinateName::Y => tuple.y,
        CoordinateName::X => tuple.x,
    }
}

// Puts a tuple behind others.
fn push_tuple(
    items: &mut Vec<Value>,
    alloc: Global,
    names: &[CoordinateName],
    tuple: &Position,
) -> Result<(), OutOfMemory>
    requires { All (λ name. IsAxisValue name (domains.coordinate name tuple.now)) names.now }
    ensures { OnOk result (map view items.new.items ≡ map view items.old.items ++ tuple_data names.now tuple.now ∷ []) }
{
    let mut values = Vec::new(alloc);
    for name in names {
        push_axis_value(&mut values, alloc, *name, coordinate(tuple, *name))?;
    }
    push_tree(items, Value::Array(values))
}

// Puts the names of the coordinates of some tuples, and these.
fn put_tuples(
    members: &mut Map<String, Value>,
    alloc: Global,
    names: &[CoordinateName],
    tuples: &[Position],
) -> Result<(), OutOfMemory>
    requires { All (λ tuple. All (λ name. IsAxisValue name (domains.coordinate name tuple)) names.now) tuples.now }
    ensures { OnOk result (members_view members.new.entries
        ≡ put_tuples (keys_data names.now) (array_of (tuple_data names.now) tuples.now) (members_view members.old.entries)) }
{
    put_coordinates(members, alloc, names)?;
    put_text(members, alloc, "dataType", "tuple")?;
    let mut items = Vec::with_capacity(alloc, tuples.len())?;
    for tuple in tuples {
        push_tuple(&mut items, alloc, names, tuple)?;
    }
    put_tree(members, alloc, "values", Value::Array(items))
}

/// Puts the names of some axes.
pub fn put_coordinates(
    members: &mut Map<String, Value>,
    alloc: Global,
    names: &[CoordinateName],
) -> Result<(), OutOfMemory>
    ensures { OnOk result (members_view members.new.entries
        ≡ put (codes "coordinates") (keys_data names.now) (members_view members.old.entries)) }
{
    let mut items = Vec::new(alloc);
    for name in names {
        push_text(&mut items, alloc, name.letter())?;
    }
    put_tree(members, alloc, "coordinates", Value::Array(items))
}

fn put_axis(
    members: &mut Map<String, Value>,
    alloc: Global,
    domain: &Domain,
    name: CoordinateName,
) -> Result<(), OutOfMemory>
    requires { IfSome (axis_of domain.now name) (IsNamedAxis name) }
    ensures { OnOk result (members_view members.new.entries
        ≡ put_if (axis_key (axis_name name)) (option_map (axis_data name) (axis_of domain.now name)) (members_view members.old.entries)) }
{
    match domain.axis(name) {
        Some(values) => {
            let axis = axis_tree(alloc, name, values)?;
            put_tree(members, alloc, axis_key(axis_name(name)), axis)
        }
        None => Ok(()),
    }
}

fn put_composite(
    members: &mut Map<String, Value>,
    alloc: Global,
    domain: &Domain,
) -> Result<(), OutOfMemory>
    requires { HasTuples domain.now }
    ensures { OnOk result (members_view members.new.entries
        ≡ put_if (axis_key Composite) (option_map (composite_data (coordinates_of domain.now)) (tuples_of domain.now)) (members_view members.old.entries)) }
{
    match domain.tuples() {
        Some(tuples) => {
            let mut composite = Map::new(alloc);
            put_tuples(&mut composite, alloc, domain.coordinates(), tuples)?;
            let axis = Value::Object(composite);
            put_tree(members, alloc, axis_key(AxisName::Composite), axis)
        }
        None => Ok(()),
    }
}

/// Puts each of a domain's axes into an object that has no member.
pub fn put_axes(
    members: &mut Map<String, Value>,
    alloc: Global,
    domain: &Domain,
) -> Result<(), OutOfMemory>
    requires empty { members.old.entries ≡ [] }
    requires axes { HasAxes domain.now }
    requires tuples { HasTuples domain.now }
    ensures { OnOk result (object (members_view members.new.entries) ≡ axes_data domain.now) }
{
    put_composite(members, alloc, domain)?;
    put_axis(members, alloc, domain, CoordinateName::T)?;
    put_axis(members, alloc, domain, CoordinateName::X)?;
    put_axis(members, alloc, domain, CoordinateName::Y)?;
    put_axis(members, alloc, domain, CoordinateName::Z)
}
