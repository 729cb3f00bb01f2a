//! The pages of collections and instances.
ghost use Rattle.std.specs.Prelude.{◌≡◌, ◌∷◌, [], codes, None, Some, IfOk, OnOk, option_map};
ghost use Rattle.serde_json.specs.Data.{string, put};
ghost use Rattle.serde_json.specs.View.{view, members_view};
ghost use Rattle.covjson_value.specs.Trees.{array_of};
ghost use Rattle.edr_edition.specs.declared.kinds.Kind.TheVariants.{Grid, Station};
ghost use Rattle.edr_describe.specs.Descriptions.{page_object, collection_page, instance_page, instances_page, collections_page};
ghost use Rattle.edr_describe.specs.Describing.{data_object, head_members, with_links, with_formats, with_rest};

use crate::extents::{extent_tree, stations_extent};
use crate::leaves::only_text;
use crate::queries::{grid_queries, instance_queries, station_queries};
use covjson_value::{parameters_tree, put_given, put_text, text_of};
use edr_base::OutOfMemory;
use edr_edition::{CollectionData, Edition, GridInstance};
use edr_station::Stations;
use serde_json::{Map, Value};
use std::alloc::Global;

// Puts the text of the reference system of a page.
fn put_system(members: &mut Map<String, Value>, alloc: Global, crs: &str) -> Result<(), OutOfMemory>
    ensures { OnOk result (members_view members.new.entries ≡ put (codes "crs") (array_of string (crs.now ∷ [])) (members_view members.old.entries)) }
{
    let systems = only_text(alloc, crs)?;
    serde_json::put(members, alloc, "crs", systems)?;
    Ok(())
}

// Puts an empty list of links.
fn put_links(members: &mut Map<String, Value>, alloc: Global) -> Result<(), OutOfMemory>
    ensures { OnOk result (members_view members.new.entries ≡ with_links (members_view members.old.entries)) }
{
    serde_json::put(members, alloc, "links", Value::Array(Vec::new(alloc)))?;
    Ok(())
}

// Puts the one format of all data.
fn put_formats(members: &mut Map<String, Value>, alloc: Global) -> Result<(), OutOfMemory>
    ensures { OnOk result (members_view members.new.entries ≡ with_formats (members_view members.old.entries)) }
{
    let formats = only_text(alloc, "CoverageJSON")?;
    serde_json::put(members, alloc, "output_formats", formats)?;
    Ok(())
}

// The first members of a page.
fn head_of(
    alloc: Global,
    crs: &str,
    queries: Value,
    extent: Option<Value>,
    id: &str,
) -> Result<Map<String, Value>, OutOfMemory>
    ensures { IfOk result (λ members. members_view members.entries ≡ head_members crs.now (view queries) (option_map view extent) id.now) }
{
    let mut members = Map::new(alloc);
    serde_json::put(&mut members, alloc, "data_queries", queries)?;
    put_given(&mut members, alloc, "extent", extent)?;
    put_system(&mut members, alloc, crs)?;
    put_text(&mut members, alloc, "id", id)?;
    Ok(members)
}

// Puts the other members of a page.
fn put_rest(
    members: &mut Map<String, Value>,
    alloc: Global,
    parameters: Value,
    title: &str,
) -> Result<(), OutOfMemory>
    ensures { OnOk result (members_view members.new.entries ≡ with_rest (members_view members.old.entries) (view parameters) title.now) }
{
    put_links(members, alloc)?;
    put_formats(members, alloc)?;
    serde_json::put(members, alloc, "parameter_names", parameters)?;
    put_text(members, alloc, "title", title)
}

// A page by what differs from one to the next.
#[tactic(auto, using(crate::proofs::PageMembers::page_is))]
fn page_of(
    alloc: Global,
    crs: &str,
    queries: Value,
    extent: Option<Value>,
    id: &str,
    parameters: Value,
    title: &str,
) -> Result<Value, OutOfMemory>
    ensures { IfOk result (λ v. view v ≡ page_object crs.now (view queries) (option_map view extent) id.now (view parameters) title.now) }
{
    let mut members = head_of(alloc, crs, queries, extent, id)?;
    put_rest(&mut members, alloc, parameters, title)?;
    Ok(Value::Object(members))
}

// The page of a grid, or of no data, under an id, with these queries.
fn grid_page(
    alloc: Global,
    collection: &CollectionData,
    queries: Value,
    id: &str,
    grid: Option<&GridInstance>,
) -> Result<Value, OutOfMemory>
    ensures { IfOk result (λ v. view v ≡ data_object collection.now (view queries) id.now (option_map (λ found. found.now) grid.entry)) }
{
    let crs = text_of(collection.referencing().crs.bytes());
    let title = text_of(collection.title());
    match grid {
        Some(grid) => {
            let extent = extent_tree(alloc, crs, grid)?;
            let parameters = parameters_tree(alloc, grid.parameters())?;
            page_of(alloc, crs, queries, Some(extent), id, parameters, title)
        }
        None => {
            let parameters = Value::Object(Map::new(alloc));
            page_of(alloc, crs, queries, None, id, parameters, title)
        }
    }
}

// The page of a collection of stations, with what all of them have.
#[tactic(auto, using(crate::proofs::ReachPages::station_page_is))]
fn station_page(
    alloc: Global,
    collection: &CollectionData,
    stations: &Stations,
) -> Result<Value, OutOfMemory>
    requires kind { collection.now.kind ≡ Station }
    requires stations { stations.now.stations ≡ collection.now.stations }
    ensures { IfOk result (λ v. view v ≡ collection_page collection.now) }
{
    let crs = text_of(collection.referencing().crs.bytes());
    let title = text_of(collection.title());
    let id = text_of(collection.id());
    let queries = station_queries(alloc, collection.id())?;
    let extent = stations_extent(alloc, crs, stations)?;
    let parameters = parameters_tree(alloc, collection.parameters())?;
    page_of(alloc, crs, queries, extent, id, parameters, title)
}

/// The page of a collection, with what its newest instance has, or all its stations.
pub fn collection_tree(alloc: Global, collection: &CollectionData) -> Result<Value, OutOfMemory>
    ensures { IfOk result (λ v. view v ≡ collection_page collection.now) }
{
    match collection.stations() {
        None => {
            let queries = grid_queries(alloc, collection.id())?;
            let id = text_of(collection.id());
            grid_page(alloc, collection, queries, id, collection.newest())
        }
        Some(stations) => station_page(alloc, collection, stations),
    }
}

/// The page of an instance of a collection of grids.
pub fn instance_tree(
    alloc: Global,
    collection: &CollectionData,
    instance: &GridInstance,
) -> Result<Value, OutOfMemory>
    requires { collection.now.kind ≡ Grid }
    ensures { IfOk result (λ v. view v ≡ instance_page collection.now instance.now) }
{
    let queries = instance_queries(alloc, collection.id(), instance.id())?;
    grid_page(
        alloc,
        collection,
        queries,
        text_of(instance.id()),
        Some(instance),
    )
}

// The pages of all instances.
fn instance_trees(alloc: Global, collection: &CollectionData) -> Result<Value, OutOfMemory>
    requires { collection.now.kind ≡ Grid }
    ensures { IfOk result (λ v. view v ≡ array_of (instance_page collection.now) collection.now.instances) }
{
    let mut pages = Vec::new(alloc);
    for place in 0..collection.instances() {
        let page = instance_tree(alloc, collection, collection.instance_at(place))?;
        pages.push(page)?;
    }
    Ok(Value::Array(pages))
}

// The pages of all collections.
fn collection_trees(alloc: Global, edition: &Edition) -> Result<Value, OutOfMemory>
    ensures { IfOk result (λ v. view v ≡ array_of collection_page edition.now.collections) }
{
    let mut pages = Vec::new(alloc);
    for place in 0..edition.len() {
        let page = collection_tree(alloc, edition.collection_at(place))?;
        pages.push(page)?;
    }
    Ok(Value::Array(pages))
}

/// The page of all instances of a collection of grids.
pub fn instances_tree(alloc: Global, collection: &CollectionData) -> Result<Value, OutOfMemory>
    requires { collection.now.kind ≡ Grid }
    ensures { IfOk result (λ v. view v ≡ instances_page collection.now) }
{
    let mut members = Map::new(alloc);
    let pages = instance_trees(alloc, collection)?;
    serde_json::put(&mut members, alloc, "instances", pages)?;
    put_links(&mut members, alloc)?;
    Ok(Value::Object(members))
}

/// The page of all collections.
pub fn collections_tree(alloc: Global, edition: &Edition) -> Result<Value, OutOfMemory>
    ensures { IfOk result (λ v. view v ≡ collections_page edition.now.collections) }
{
    let mut members = Map::new(alloc);
    let pages = collection_trees(alloc, edition)?;
    serde_json::put(&mut members, alloc, "collections", pages)?;
    put_links(&mut members, alloc)?;
    Ok(Value::Object(members))
}
