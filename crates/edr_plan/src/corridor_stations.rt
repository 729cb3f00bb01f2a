//! The stations that can be near a line.
ghost use Rattle.std.specs.Prelude.{◌≡◌, ◌<◌, ◌≤ℤ◌, ◌+ℤ◌, All, length, IfOk};
ghost use Rattle.edr_geometry.specs.Limits.{IsSpot};
ghost use Rattle.edr_query.specs.Queries.{IsTaken, IsShape};
ghost use Rattle.edr_base.specs.Limits.{IsMetres};
ghost use Rattle.edr_query.specs.declared.addresses.QueryKind.TheVariants as kinds;
ghost use Rattle.edr_wkt.specs.Faults.{IsInRange};
ghost use Rattle.edr_wkt.specs.Geometries.{line_of};
ghost use Rattle.edr_plan.specs.StationPlaces.{HasAll};
ghost use Rattle.edr_plan.specs.CorridorPlans.{IsLineOf, IsLower, IsBefore, IsBehind, IsNearBox, is_near};

use crate::lines::Line;
use edr_base::{OutOfMemory, Position, Spot};
use edr_corridor::near_places_are_within;
use edr_geometry::spot_of;
use edr_query::Query;
use edr_station::Stations;
use edr_wkt::Geometry;
use std::alloc::Global;

// The positions of a line.
fn positions_of(geometry: &Geometry) -> &[Position]
    requires { IsTaken kinds.Corridor geometry.now }
    ensures { result.now ≡ line_of geometry.now }
{
    match geometry {
        Geometry::Line { positions, .. } => positions.items(),
        Geometry::Points { .. } => unreachable!(),
        Geometry::Polygons { .. } => unreachable!(),
    }
}

// A place with the lower x and the lower y of a place and a position.
fn lower_of(least: Spot, position: &Position) -> Spot
    requires spot { IsSpot least }
    requires in_range { IsInRange position.now }
    ensures spot { IsSpot result }
    ensures lower { IsLower result least }
    ensures before { IsBefore result position.now }
{
    Spot {
        x: least.x.min(position.x),
        y: least.y.min(position.y),
    }
}

// A place with the higher x and the higher y of a place and a position.
fn higher_of(greatest: Spot, position: &Position) -> Spot
    requires spot { IsSpot greatest }
    requires in_range { IsInRange position.now }
    ensures spot { IsSpot result }
    ensures higher { IsLower greatest result }
    ensures behind { IsBehind result position.now }
{
    Spot {
        x: greatest.x.max(position.x),
        y: greatest.y.max(position.y),
    }
}

// The least x and the least y of a line.
fn least_of(line: &[Position]) -> Spot
    requires some { 0 < length line.now }
    requires in_range { All IsInRange line.now }
    ensures spot { IsSpot result }
    ensures before { All (IsBefore result) line.now }
{
    let mut least = spot_of(&line[0]);
    for position in line {
        least = lower_of(least, position);
    }
    least
}

// The greatest x and the greatest y of a line.
fn greatest_of(line: &[Position]) -> Spot
    requires some { 0 < length line.now }
    requires in_range { All IsInRange line.now }
    ensures spot { IsSpot result }
    ensures behind { All (IsBehind result) line.now }
{
    let mut greatest = spot_of(&line[0]);
    for position in line {
        greatest = higher_of(greatest, position);
    }
    greatest
}

// The box with the places at most a distance from each position, in x and in y: its least corner and its greatest.
fn box_about(line: &[Position], distance: i64) -> (Spot, Spot)
    requires some { 0 < length line.now }
    requires in_range { All IsInRange line.now }
    requires distance { IsMetres distance }
    ensures { All (IsNearBox result.0 result.1 distance) line.now }
{
    let least = least_of(line);
    let greatest = greatest_of(line);
    (
        Spot {
            x: least.x - distance,
            y: least.y - distance,
        },
        Spot {
            x: greatest.x + distance,
            y: greatest.y + distance,
        },
    )
}

// A distance above half a width.
fn beyond_half(width: i64) -> i64
    requires { IsMetres width }
    ensures distance { IsMetres result }
    ensures half { width ≤ℤ (result +ℤ result) }
{
    width / 2 + 1
}

// The places of the stations in the box about a line: no other station is near it.
fn stations_in(
    alloc: Global,
    geometry: &Geometry,
    width: i64,
    stations: &Stations,
) -> Result<Vec<usize>, OutOfMemory>
    requires geometry { IsTaken kinds.Corridor geometry.now }
    requires width { IsMetres width }
    ensures { IfOk result (λ places. HasAll stations.now.stations (is_near geometry.now width stations.now.stations) places.items) }
{
    near_places_are_within();
    let (lo, hi) = box_about(positions_of(geometry), beyond_half(width));
    let places = stations.in_box(alloc, lo, hi)?;
    Ok(places)
}

// The same of the line of a query.
pub(crate) fn stations_near(
    alloc: Global,
    query: &Query,
    line: &Line<'_>,
    stations: &Stations,
) -> Result<Vec<usize>, OutOfMemory>
    requires shape { IsShape query.now.shape }
    requires line { IsLineOf query.now line.now }
    ensures { IfOk result (λ places. HasAll stations.now.stations (is_near line.now.corridor.line line.now.corridor.width stations.now.stations) places.items) }
{
    let _ = &query.shape;
    let places = stations_in(alloc, line.geometry, line.width, stations)?;
    Ok(places)
}
