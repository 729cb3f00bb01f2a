//! The trees of domains and of the systems of their coordinates.
ghost use Rattle.std.specs.Prelude.{◌≡◌, ◌++◌, ◌∷◌, [], codes, map, IfOk, OnOk, IsUtf8, IfSome, option_copied};
ghost use Rattle.serde_json.specs.Data.{array, put};
ghost use Rattle.serde_json.specs.View.{view, items_view, members_view};
ghost use Rattle.covjson_value.specs.Coverages.{IsReferencing, HasAxes, HasTuples};
ghost use Rattle.covjson_value.specs.Trees.{connection_data, text_if_some, axes_data, referencing_data, domain_type, domain_data};
ghost use Rattle.covjson_value.specs.Puts.{system_with, put_domain};

use crate::axis_trees::{put_axes, put_coordinates};
use crate::coverages::Referencing;
use crate::domains::{CoordinateName, Domain};
use crate::leaves::{push_tree, put_text, put_tree, text_of, typed_object};
use edr_base::{OutOfMemory, Text};
use serde_json::{Map, Value};
use std::alloc::Global;

// A system of coordinates of a kind, with a text that tells more of it where that is given.
fn system_tree(
    alloc: Global,
    key: &str,
    text: Option<&str>,
    kind: &str,
) -> Result<Value, OutOfMemory>
    ensures { IfOk result (λ v. view v ≡ system_with key.now (option_copied text.entry) kind.now) }
{
    let mut members = Map::new(alloc);
    if let Some(text) = text {
        put_text(&mut members, alloc, key, text)?;
    }
    typed_object(members, alloc, kind)
}

// Puts the coordinates of some axes, and their system, behind others.
fn push_connection(
    items: &mut Vec<Value>,
    alloc: Global,
    names: &[CoordinateName],
    system: Value,
) -> Result<(), OutOfMemory>
    ensures { OnOk result (map view items.new.items ≡ map view items.old.items ++ connection_data names.now (view system) ∷ []) }
{
    let mut members = Map::new(alloc);
    put_tree(&mut members, alloc, "system", system)?;
    put_coordinates(&mut members, alloc, names)?;
    push_tree(items, Value::Object(members))
}

// The name of a system, unless it is empty.
fn name_of(crs: &Text) -> Option<&str>
    requires { IsUtf8 crs.now }
    ensures { option_copied result ≡ text_if_some crs.now }
{
    let text = text_of(crs.bytes());
    if text.is_empty() { None } else { Some(text) }
}

fn name_where_given(name: &Option<Text>) -> Option<&str>
    requires { IfSome name.now IsUtf8 }
    ensures { option_copied result ≡ name.now }
{
    match name {
        Some(name) => Some(text_of(name.bytes())),
        None => None,
    }
}

// Puts the systems of a domain's coordinates into a list that has no item.
fn push_systems(
    items: &mut Vec<Value>,
    alloc: Global,
    domain: &Domain,
    referencing: &Referencing,
) -> Result<(), OutOfMemory>
    requires empty { items.old.items ≡ [] }
    requires referencing { IsReferencing referencing.now }
    ensures { OnOk result (array (items_view items.new.items) ≡ referencing_data domain.now referencing.now) }
{
    let horizontal = system_tree(alloc, "id", name_of(&referencing.crs), "ProjectedCRS")?;
    push_connection(
        items,
        alloc,
        &[CoordinateName::X, CoordinateName::Y],
        horizontal,
    )?;
    if domain.has(CoordinateName::Z) {
        let name = name_where_given(&referencing.vertical);
        let vertical = system_tree(alloc, "id", name, "VerticalCRS")?;
        push_connection(items, alloc, &[CoordinateName::Z], vertical)?;
    }
    if domain.has(CoordinateName::T) {
        let temporal = system_tree(alloc, "calendar", Some("Gregorian"), "TemporalRS")?;
        push_connection(items, alloc, &[CoordinateName::T], temporal)?;
    }
    Ok(())
}

// Puts the members of a domain, but for its type.
fn put_members(
    members: &mut Map<String, Value>,
    alloc: Global,
    domain: &Domain,
    referencing: &Referencing,
) -> Result<(), OutOfMemory>
    requires axes { HasAxes domain.now }
    requires tuples { HasTuples domain.now }
    requires referencing { IsReferencing referencing.now }
    ensures { OnOk result (members_view members.new.entries
        ≡ put_domain (axes_data domain.now) (domain_type domain.now) (referencing_data domain.now referencing.now) (members_view members.old.entries)) }
{
    let mut axes = Map::new(alloc);
    put_axes(&mut axes, alloc, domain)?;
    put_tree(members, alloc, "axes", Value::Object(axes))?;
    put_text(members, alloc, "domainType", domain.type_name())?;
    let mut systems = Vec::new(alloc);
    push_systems(&mut systems, alloc, domain, referencing)?;
    put_tree(members, alloc, "referencing", Value::Array(systems))
}

/// Puts a domain, with the systems of its coordinates.
pub fn put_domain(
    members: &mut Map<String, Value>,
    alloc: Global,
    domain: &Domain,
    referencing: &Referencing,
) -> Result<(), OutOfMemory>
    requires axes { HasAxes domain.now }
    requires tuples { HasTuples domain.now }
    requires referencing { IsReferencing referencing.now }
    ensures { OnOk result (members_view members.new.entries
        ≡ put (codes "domain") (domain_data domain.now referencing.now) (members_view members.old.entries)) }
{
    let mut parts = Map::new(alloc);
    put_members(&mut parts, alloc, domain, referencing)?;
    put_tree(
        members,
        alloc,
        "domain",
        typed_object(parts, alloc, "Domain")?,
    )
}
