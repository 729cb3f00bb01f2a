//! The page of the stations of a collection, as features of GeoJSON (RFC 7946, section 3).
ghost use Rattle.std.specs.Prelude.{◌≡◌, ◌<◌, codes, IfOk, IsUtf8, length};
ghost use Rattle.serde_json.specs.Data.{string, object, no_members, member};
ghost use Rattle.serde_json.specs.View.{view};
ghost use Rattle.covjson_value.specs.Trees.{array_of};
ghost use Rattle.edr_describe.specs.Descriptions.{point_data, feature_data, features_page};

use crate::leaves::pair_of;
use covjson_value::{only_member, put_text, text_of};
use edr_base::OutOfMemory;
use edr_station::{Station, Stations};
use serde_json::{Map, Value};
use std::alloc::Global;

// Where a station is.
fn point_tree(alloc: Global, station: &Station) -> Result<Value, OutOfMemory>
    ensures { IfOk result (λ v. view v ≡ point_data station.now) }
{
    let mut members = Map::new(alloc);
    let (x, y) = (station.x(), station.y());
    let coordinates = pair_of(alloc, Value::from(x), Value::from(y))?;
    serde_json::put(&mut members, alloc, "coordinates", coordinates)?;
    put_text(&mut members, alloc, "type", "Point")?;
    Ok(Value::Object(members))
}

// What else is told of a station.
fn properties_tree(alloc: Global, station: &Station) -> Result<Value, OutOfMemory>
    ensures { IfOk result (λ v. view v ≡ object (member (codes "label") (string station.now.label) no_members)) }
{
    let label = Value::try_from_str(alloc, text_of(station.label()))?;
    only_member(alloc, "label", label)
}

// The feature of a station.
fn feature_tree(alloc: Global, station: &Station) -> Result<Value, OutOfMemory>
    ensures { IfOk result (λ v. view v ≡ feature_data station.now) }
{
    let mut members = Map::new(alloc);
    let point = point_tree(alloc, station)?;
    serde_json::put(&mut members, alloc, "geometry", point)?;
    put_text(&mut members, alloc, "id", text_of(station.id()))?;
    let properties = properties_tree(alloc, station)?;
    serde_json::put(&mut members, alloc, "properties", properties)?;
    put_text(&mut members, alloc, "type", "Feature")?;
    Ok(Value::Object(members))
}

// The features of all stations.
fn feature_trees(alloc: Global, stations: &Stations) -> Result<Value, OutOfMemory>
    ensures { IfOk result (λ v. view v ≡ array_of feature_data stations.now.stations) }
{
    let mut features = Vec::with_capacity(alloc, stations.len())?;
    for place in 0..stations.len() {
        let feature = feature_tree(alloc, stations.station(place))?;
        features.push(feature)?;
    }
    Ok(Value::Array(features))
}

/// The page of all stations of a collection, in ascending order of their ids.
pub fn locations_tree(alloc: Global, stations: &Stations) -> Result<Value, OutOfMemory>
    ensures { IfOk result (λ v. view v ≡ features_page stations.now.stations) }
{
    let mut members = Map::new(alloc);
    let features = feature_trees(alloc, stations)?;
    serde_json::put(&mut members, alloc, "features", features)?;
    put_text(&mut members, alloc, "type", "FeatureCollection")?;
    Ok(Value::Object(members))
}
