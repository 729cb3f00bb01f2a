//! The queries that collections and instances offer.
ghost use Rattle.std.specs.Prelude.{◌≡◌, None, Some, IfOk, OnOk, option_map};
ghost use Rattle.serde_json.specs.Data.{object};
ghost use Rattle.serde_json.specs.View.{view, members_view};
ghost use Rattle.covjson_value.specs.Trees.{members_in_order};
ghost use Rattle.edr_edition.specs.declared.kinds.Kind.TheVariants.{Grid, Station};
ghost use Rattle.edr_query.specs.declared.addresses.Address.TheVariants as to;
ghost use Rattle.edr_query.specs.Paths.{kind_text, path_text};
ghost use Rattle.edr_describe.specs.Descriptions.{queries_of};
ghost use Rattle.edr_describe.specs.Describing.{linked, put_link, with_spaces, with_spots};

use crate::paths::{linked_tree, path_of_data};
use edr_base::OutOfMemory;
use edr_query::QueryKind;
use serde_json::{Map, Value};
use std::alloc::Global;

// The last part of the path of a query.
fn kind_name(kind: QueryKind) -> &'static str
    ensures { result.now ≡ kind_text kind }
{
    match kind {
        QueryKind::Position => "position",
        QueryKind::Radius => "radius",
        QueryKind::Area => "area",
        QueryKind::Cube => "cube",
        QueryKind::Trajectory => "trajectory",
        QueryKind::Corridor => "corridor",
    }
}

// The link of a query of a collection, or of an instance of it.
#[tactic(auto, using(crate::proofs::Parts::query_path_is))]
fn query_tree(
    alloc: Global,
    collection: &[u8],
    instance: Option<&[u8]>,
    kind: QueryKind,
) -> Result<Value, OutOfMemory>
    ensures { IfOk result (λ v. view v ≡ linked (path_text (to.Query kind collection.now (option_map (λ id. id.now) instance.entry)))) }
{
    let path = path_of_data(alloc, collection, instance)?;
    linked_tree(alloc, path.as_str(), kind_name(kind))
}

// The link of the instances of a collection.
fn instances_link(alloc: Global, collection: &[u8]) -> Result<Value, OutOfMemory>
    ensures { IfOk result (λ v. view v ≡ linked (path_text (to.Instances collection.now))) }
{
    let path = path_of_data(alloc, collection, None)?;
    linked_tree(alloc, path.as_str(), "instances")
}

// The link of the stations of a collection.
fn locations_link(alloc: Global, collection: &[u8]) -> Result<Value, OutOfMemory>
    ensures { IfOk result (λ v. view v ≡ linked (path_text (to.Locations collection.now))) }
{
    let path = path_of_data(alloc, collection, None)?;
    linked_tree(alloc, path.as_str(), "locations")
}

// Puts the link of a query.
fn put_query(
    members: &mut Map<String, Value>,
    alloc: Global,
    collection: &[u8],
    instance: Option<&[u8]>,
    kind: QueryKind,
) -> Result<(), OutOfMemory>
    ensures { OnOk result (members_view members.new.entries ≡ put_link collection.now (option_map (λ id. id.now) instance.entry) kind (members_view members.old.entries)) }
{
    let link = query_tree(alloc, collection, instance, kind)?;
    serde_json::put(members, alloc, kind_name(kind), link)?;
    Ok(())
}

// Puts the links of the queries of an area, a corridor and a cube.
fn put_spaces(
    members: &mut Map<String, Value>,
    alloc: Global,
    collection: &[u8],
    instance: Option<&[u8]>,
) -> Result<(), OutOfMemory>
    ensures { OnOk result (members_view members.new.entries ≡ with_spaces collection.now (option_map (λ id. id.now) instance.entry) (members_view members.old.entries)) }
{
    put_query(members, alloc, collection, instance, QueryKind::Area)?;
    put_query(members, alloc, collection, instance, QueryKind::Corridor)?;
    put_query(members, alloc, collection, instance, QueryKind::Cube)?;
    Ok(())
}

// Puts the links of the queries of a position, a radius and a trajectory.
fn put_spots(
    members: &mut Map<String, Value>,
    alloc: Global,
    collection: &[u8],
    instance: Option<&[u8]>,
) -> Result<(), OutOfMemory>
    ensures { OnOk result (members_view members.new.entries ≡ with_spots collection.now (option_map (λ id. id.now) instance.entry) (members_view members.old.entries)) }
{
    put_query(members, alloc, collection, instance, QueryKind::Position)?;
    put_query(members, alloc, collection, instance, QueryKind::Radius)?;
    put_query(members, alloc, collection, instance, QueryKind::Trajectory)?;
    Ok(())
}

/// The queries of a collection of grids.
pub fn grid_queries(alloc: Global, collection: &[u8]) -> Result<Value, OutOfMemory>
    ensures { IfOk result (λ v. view v ≡ object (members_in_order (queries_of Grid collection.now None))) }
{
    let mut members = Map::new(alloc);
    put_spaces(&mut members, alloc, collection, None)?;
    let instances = instances_link(alloc, collection)?;
    serde_json::put(&mut members, alloc, "instances", instances)?;
    put_spots(&mut members, alloc, collection, None)?;
    Ok(Value::Object(members))
}

/// The queries of an instance of a collection of grids.
pub fn instance_queries(
    alloc: Global,
    collection: &[u8],
    instance: &[u8],
) -> Result<Value, OutOfMemory>
    ensures { IfOk result (λ v. view v ≡ object (members_in_order (queries_of Grid collection.now (Some instance.now)))) }
{
    let mut members = Map::new(alloc);
    put_spaces(&mut members, alloc, collection, Some(instance))?;
    put_spots(&mut members, alloc, collection, Some(instance))?;
    Ok(Value::Object(members))
}

/// The queries of a collection of stations.
pub fn station_queries(alloc: Global, collection: &[u8]) -> Result<Value, OutOfMemory>
    ensures { IfOk result (λ v. view v ≡ object (members_in_order (queries_of Station collection.now None))) }
{
    let mut members = Map::new(alloc);
    put_spaces(&mut members, alloc, collection, None)?;
    let locations = locations_link(alloc, collection)?;
    serde_json::put(&mut members, alloc, "locations", locations)?;
    put_query(&mut members, alloc, collection, None, QueryKind::Radius)?;
    Ok(Value::Object(members))
}
