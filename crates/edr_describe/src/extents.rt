//! The member `extent` of a page: where, when and at which levels data lie (OGC 19-086r6).
ghost use Rattle.std.specs.Prelude.{◌≡◌, ◌∷◌, [], IfOk, OnOk, option_map, codes};
ghost use Rattle.serde_json.specs.Data.{array, object, no_items, item, no_members, member};
ghost use Rattle.serde_json.specs.View.{view, members_view};
ghost use Rattle.edr_axes.specs.Instants.{IsTime};
ghost use Rattle.covjson_value.specs.Trees.{array_of, integer};
ghost use Rattle.covjson_value.specs.Puts.{put_if};
ghost use Rattle.edr_describe.specs.Extents.{time_data, extent_data, coordinates_where_some};
ghost use Rattle.edr_describe.specs.Reaches.{span_data, box_data, reach_data, IsTimed, coordinates_of_grid};

use crate::leaves::{only_item, pair_of};
use crate::reaches::{Reach, Span};
use covjson_value::{only_member, put_text, time_tree};
use edr_base::OutOfMemory;
use edr_edition::GridInstance;
use edr_station::Stations;
use serde_json::{Map, Value};
use std::alloc::Global;

// An interval by its ends.
fn interval_of(alloc: Global, ends: Value) -> Result<Value, OutOfMemory>
    ensures { IfOk result (λ v. view v ≡ object (member (codes "interval") (array (item (view ends) no_items)) no_members)) }
{
    let intervals = only_item(alloc, ends)?;
    only_member(alloc, "interval", intervals)
}

// The interval of some levels.
fn interval_tree(alloc: Global, span: Span) -> Result<Value, OutOfMemory>
    ensures { IfOk result (λ v. view v ≡ span_data integer span) }
{
    let ends = pair_of(alloc, Value::from(span.low), Value::from(span.high))?;
    interval_of(alloc, ends)
}

// The interval of some times.
fn times_tree(alloc: Global, span: Span) -> Result<Value, OutOfMemory>
    requires first { IsTime span.low }
    requires last { IsTime span.high }
    ensures { IfOk result (λ v. view v ≡ span_data time_data span) }
{
    let first = time_tree(alloc, span.low)?;
    let last = time_tree(alloc, span.high)?;
    let ends = pair_of(alloc, first, last)?;
    interval_of(alloc, ends)
}

// Puts the interval of the levels, where there are some.
fn put_levels(
    members: &mut Map<String, Value>,
    alloc: Global,
    levels: Option<Span>,
) -> Result<(), OutOfMemory>
    ensures { OnOk result (members_view members.new.entries ≡ put_if (codes "vertical") (option_map (span_data integer) levels) (members_view members.old.entries)) }
{
    if let Some(levels) = levels {
        let interval = interval_tree(alloc, levels)?;
        serde_json::put(members, alloc, "vertical", interval)?;
    }
    Ok(())
}

// The corners of a box: the least x and y, and the greatest.
fn corners_tree(alloc: Global, xs: Span, ys: Span) -> Result<Value, OutOfMemory>
    ensures { IfOk result (λ v. view v ≡ array_of integer (xs.low ∷ ys.low ∷ xs.high ∷ ys.high ∷ [])) }
{
    let mut corners = Vec::new(alloc);
    corners.push(Value::from(xs.low))?;
    corners.push(Value::from(ys.low))?;
    corners.push(Value::from(xs.high))?;
    corners.push(Value::from(ys.high))?;
    Ok(Value::Array(corners))
}

// The box of some data.
fn spatial_tree(alloc: Global, crs: &str, xs: Span, ys: Span) -> Result<Value, OutOfMemory>
    ensures { IfOk result (λ v. view v ≡ box_data crs.now xs ys) }
{
    let mut members = Map::new(alloc);
    let corners = corners_tree(alloc, xs, ys)?;
    let boxes = only_item(alloc, corners)?;
    serde_json::put(&mut members, alloc, "bbox", boxes)?;
    put_text(&mut members, alloc, "crs", crs)?;
    Ok(Value::Object(members))
}

// The extent of what lies so.
fn reach_tree(alloc: Global, crs: &str, reach: Reach) -> Result<Value, OutOfMemory>
    requires { IsTimed reach }
    ensures { IfOk result (λ v. view v ≡ reach_data crs.now reach) }
{
    let mut members = Map::new(alloc);
    let spatial = spatial_tree(alloc, crs, reach.xs, reach.ys)?;
    serde_json::put(&mut members, alloc, "spatial", spatial)?;
    let temporal = times_tree(alloc, reach.ts)?;
    serde_json::put(&mut members, alloc, "temporal", temporal)?;
    put_levels(&mut members, alloc, reach.zs)?;
    Ok(Value::Object(members))
}

/// The extent of a grid, in metres and times, with the text of its reference system.
#[tactic(auto, using(crate::proofs::ReachPages::reach_is))]
pub fn extent_tree(alloc: Global, crs: &str, grid: &GridInstance) -> Result<Value, OutOfMemory>
    ensures { IfOk result (λ v. view v ≡ extent_data crs.now (coordinates_of_grid grid.now)) }
{
    reach_tree(alloc, crs, Reach::of_grid(grid))
}

/// The extent of all stations of a collection, in metres and times, with the text of its reference system; None exactly where
/// there is no station.
#[tactic(auto, using(crate::proofs::ReachPages::reaches_are))]
pub fn stations_extent(
    alloc: Global,
    crs: &str,
    stations: &Stations,
) -> Result<Option<Value>, OutOfMemory>
    ensures { IfOk result (λ extent. option_map view extent ≡ option_map (extent_data crs.now) (coordinates_where_some stations.now.stations)) }
{
    match Reach::of_stations(stations) {
        Some(reach) => Ok(Some(reach_tree(alloc, crs, reach)?)),
        None => Ok(None),
    }
}
