//! The steps of a change, on the collections of a draft.
ghost use Rattle.std.specs.Prelude.{◌≡◌, codes, Some, [], IfOk, OnOk, OnErr, IsUtf8};
ghost use Rattle.covjson_value.specs.Coverages.{IsReferencing, IsValid};
ghost use Rattle.edr_base.specs.Names.{IsName};
ghost use Rattle.edr_ids.specs.Ids.{with_item};
ghost use Rattle.edr_draft.specs.declared.changes.Change.TheVariants.{Collection, Grid, Station, DropCollection, DropInstance, DropStation, Bare};
ghost use Rattle.edr_edition.specs.Values.{collection_id};
ghost use Rattle.edr_edition.specs.Editions.{AreCollections};
ghost use Rattle.edr_draft.specs.Changes.{as_instance, as_station, AppliesToSet, with_grid, with_series, bare_collection};
ghost use Rattle.edr_edition.specs.Stores.{collection_in};
ghost use Rattle.edr_draft.specs.Steps.{Finds, Fits, IsMade};

use crate::changes::ChangeFault;
use crate::checks::{check_grid, check_series};
use crate::series::input_of;
use covjson_value::{Coverage, Referencing};
use edr_base::{OutOfMemory, Text};
use edr_edition::{CollectionData, GridInstance, Kind};
use edr_ids::ById;
use std::alloc::Global;

/// Adds an empty collection: SameCollection.
pub fn add_collection(
    alloc: Global,
    collections: &mut ById<CollectionData>,
    id: Text,
    kind: Kind,
    title: Text,
    referencing: Referencing,
) -> Result<(), ChangeFault>
    requires collections { AreCollections collections.old }
    requires id { IsName id }
    requires title { IsUtf8 title }
    requires referencing { IsReferencing referencing }
    ensures made { IsMade collections.old (Collection id kind title referencing.crs referencing.vertical) result collections.new }
{
    if collections.item_of(id.bytes()).is_some() {
        return Err(ChangeFault::SameCollection);
    }
    let collection = CollectionData::empty(alloc, id, kind, title, referencing)?;
    Ok(collections.put(alloc, collection)?)
}

// The collection of an id, where a grid may become its instance of an id, or the first fault.
fn held_for_grid<'a>(
    alloc: Global,
    collections: &'a ById<CollectionData>,
    collection: &[u8],
    id: &[u8],
    coverage: &Coverage,
) -> Result<&'a CollectionData, ChangeFault>
    requires collections { AreCollections collections.now }
    requires coverage { IsValid coverage.now }
    ensures finds { Finds (AppliesToSet (as_instance id.now) (collection_in collections.now collection.now) coverage.now) result }
    ensures held { IfOk result (λ held. collection_in collections.now collection.now ≡ Some held.now) }
    ensures fits { IfOk result (λ held. Fits (as_instance id.now) held.now coverage.now) }
{
    let Some(held) = collections.item_of(collection) else {
        return Err(ChangeFault::UnknownCollection);
    };
    check_grid(alloc, held, id, coverage)?;
    Ok(held)
}

// A collection with the instance that a grid is, which fits it.
fn with_grid(
    alloc: Global,
    collection: &CollectionData,
    id: Text,
    coverage: Coverage,
) -> Result<CollectionData, OutOfMemory>
    requires id { IsName id }
    requires coverage { IsValid coverage }
    requires fits { Fits (as_instance id) collection.now coverage }
    ensures { IfOk result (λ set. set ≡ with_grid id coverage collection.now) }
{
    let instance = GridInstance::of(alloc, id, coverage)?;
    collection.with_instance(alloc, instance)
}

/// Sets an instance: UnknownCollection, and then as the grid is.
pub fn set_instance(
    alloc: Global,
    collections: &mut ById<CollectionData>,
    collection: &[u8],
    id: Text,
    coverage: Coverage,
) -> Result<(), ChangeFault>
    requires collections { AreCollections collections.old }
    requires id { IsName id }
    requires coverage { IsValid coverage }
    ensures made { IsMade collections.old (Grid collection.now id coverage) result collections.new }
{
    let held = match held_for_grid(alloc, collections, collection, id.bytes(), &coverage) {
        Ok(held) => held,
        Err(fault) => {
            // by name, since what falls at a `?` is proved anew in each function
            drop(coverage);
            return Err(fault);
        }
    };
    let set = with_grid(alloc, held, id, coverage)?;
    Ok(collections.put(alloc, set)?)
}

// The collection of an id, where a series may become its station of an id, or the first fault.
fn held_for_series<'a>(
    alloc: Global,
    collections: &'a ById<CollectionData>,
    collection: &[u8],
    id: &[u8],
    coverage: &Coverage,
) -> Result<&'a CollectionData, ChangeFault>
    requires collections { AreCollections collections.now }
    requires coverage { IsValid coverage.now }
    ensures finds { Finds (AppliesToSet (as_station id.now) (collection_in collections.now collection.now) coverage.now) result }
    ensures held { IfOk result (λ held. collection_in collections.now collection.now ≡ Some held.now) }
    ensures fits { IfOk result (λ held. Fits (as_station id.now) held.now coverage.now) }
{
    let Some(held) = collections.item_of(collection) else {
        return Err(ChangeFault::UnknownCollection);
    };
    check_series(alloc, held, id, coverage)?;
    Ok(held)
}

// A collection with the station that a series is, which fits it.
fn with_series(
    alloc: Global,
    collection: &CollectionData,
    id: Text,
    label: Text,
    coverage: Coverage,
) -> Result<CollectionData, OutOfMemory>
    requires id { IsName id }
    requires label { IsUtf8 label }
    requires coverage { IsValid coverage }
    requires fits { Fits (as_station id) collection.now coverage }
    ensures { IfOk result (λ set. set ≡ with_series id label coverage collection.now) }
{
    let Coverage {
        id: _,
        domain,
        referencing: _,
        parameters,
        ranges,
    } = coverage;
    let input = input_of(alloc, id, label, domain, ranges)?;
    collection.with_station(alloc, parameters, input)
}

/// Sets a station: UnknownCollection, and then as the series is.
pub fn set_station(
    alloc: Global,
    collections: &mut ById<CollectionData>,
    collection: &[u8],
    id: Text,
    label: Text,
    coverage: Coverage,
) -> Result<(), ChangeFault>
    requires collections { AreCollections collections.old }
    requires id { IsName id }
    requires label { IsUtf8 label }
    requires coverage { IsValid coverage }
    ensures made { IsMade collections.old (Station collection.now id label coverage) result collections.new }
{
    let held = match held_for_series(alloc, collections, collection, id.bytes(), &coverage) {
        Ok(held) => held,
        Err(fault) => {
            // by name, since what falls at a `?` is proved anew in each function
            drop(coverage);
            return Err(fault);
        }
    };
    let set = with_series(alloc, held, id, label, coverage)?;
    Ok(collections.put(alloc, set)?)
}

/// Drops a collection: UnknownCollection.
pub fn drop_collection(
    alloc: Global,
    collections: &mut ById<CollectionData>,
    id: &[u8],
) -> Result<(), ChangeFault>
    requires collections { AreCollections collections.old }
    ensures made { IsMade collections.old (DropCollection id.now) result collections.new }
{
    let there = collections.take_out(alloc, id)?;
    if !there {
        return Err(ChangeFault::UnknownCollection);
    }
    Ok(())
}

/// Drops an instance: UnknownCollection, WrongKind, UnknownInstance.
pub fn drop_instance(
    alloc: Global,
    collections: &mut ById<CollectionData>,
    collection: &[u8],
    id: &[u8],
) -> Result<(), ChangeFault>
    requires collections { AreCollections collections.old }
    ensures made { IsMade collections.old (DropInstance collection.now id.now) result collections.new }
{
    let Some(held) = collections.item_of(collection) else {
        return Err(ChangeFault::UnknownCollection);
    };
    if held.kind() != Kind::Grid {
        return Err(ChangeFault::WrongKind);
    }
    let Some(left) = held.without_instance(alloc, id)? else {
        return Err(ChangeFault::UnknownInstance);
    };
    Ok(collections.put(alloc, left)?)
}

/// Drops a station: UnknownCollection, WrongKind, UnknownStation.
pub fn drop_station(
    alloc: Global,
    collections: &mut ById<CollectionData>,
    collection: &[u8],
    id: &[u8],
) -> Result<(), ChangeFault>
    requires collections { AreCollections collections.old }
    ensures made { IsMade collections.old (DropStation collection.now id.now) result collections.new }
{
    let Some(held) = collections.item_of(collection) else {
        return Err(ChangeFault::UnknownCollection);
    };
    if held.kind() != Kind::Station {
        return Err(ChangeFault::WrongKind);
    }
    let Some(left) = held.without_station(alloc, id)? else {
        return Err(ChangeFault::UnknownStation);
    };
    Ok(collections.put(alloc, left)?)
}

// The id and the title of the collection of bare coverages.
fn bare_name(alloc: Global) -> Result<Text, OutOfMemory>
    ensures { IfOk result (λ name. name ≡ codes "grid") }
{
    Text::of(alloc, b"grid")
}

// An empty collection for bare coverages with these systems.
fn empty_bare_collection(
    alloc: Global,
    referencing: &Referencing,
) -> Result<CollectionData, OutOfMemory>
    requires { IsReferencing referencing.now }
    ensures { IfOk result (λ collection. collection ≡ bare_collection [] referencing.now) }
{
    let id = bare_name(alloc)?;
    let title = bare_name(alloc)?;
    let referencing = referencing.copy(alloc)?;
    CollectionData::empty(alloc, id, Kind::Grid, title, referencing)
}

// The collection that bare coverages go to: the one that is there, shared, or an empty one with these systems.
fn bare_collection_of(
    alloc: Global,
    collections: &ById<CollectionData>,
    referencing: &Referencing,
) -> Result<CollectionData, OutOfMemory>
    requires { IsReferencing referencing.now }
    ensures { IfOk result (λ collection. collection ≡ bare_collection collections.now referencing.now) }
{
    match collections.item_of(b"grid") {
        Some(held) => held.share(),
        None => empty_bare_collection(alloc, referencing),
    }
}

// The id of a bare coverage's instance and the collection that it goes to, where it may be set there, or the first fault.
fn bare_place(
    alloc: Global,
    collections: &ById<CollectionData>,
    coverage: &Coverage,
) -> Result<(Text, CollectionData), ChangeFault>
    requires collections { AreCollections collections.now }
    requires coverage { IsValid coverage.now }
    ensures finds { Finds (AppliesToSet (as_instance (codes "1")) (Some (bare_collection collections.now coverage.now.referencing)) coverage.now) result }
    ensures id { IfOk result (λ place. place.0 ≡ codes "1") }
    ensures held { IfOk result (λ place. place.1 ≡ bare_collection collections.now coverage.now.referencing) }
    ensures fits { IfOk result (λ place. Fits (as_instance (codes "1")) place.1 coverage.now) }
{
    let id = Text::of(alloc, b"1")?;
    let held = bare_collection_of(alloc, collections, &coverage.referencing)?;
    check_grid(alloc, &held, id.bytes(), coverage)?;
    Ok((id, held))
}

/// Sets a bare coverage: as the grid is.
pub fn set_bare(
    alloc: Global,
    collections: &mut ById<CollectionData>,
    coverage: Coverage,
) -> Result<(), ChangeFault>
    requires collections { AreCollections collections.old }
    requires coverage { IsValid coverage }
    ensures made { IsMade collections.old (Bare coverage) result collections.new }
{
    let (id, held) = match bare_place(alloc, collections, &coverage) {
        Ok(place) => place,
        Err(fault) => {
            // by name, since what falls at a `?` is proved anew in each function
            drop(coverage);
            return Err(fault);
        }
    };
    let set = with_grid(alloc, &held, id, coverage);
    drop(held);
    Ok(collections.put(alloc, set?)?)
}
