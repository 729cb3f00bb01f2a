//! The stations that a shape takes by their place or their id.
ghost use Rattle.std.specs.Prelude.{◌≡◌, IfOk};
ghost use Rattle.edr_geometry.specs.Limits.{IsSpot};
ghost use Rattle.edr_query.specs.Queries.{IsShape};
ghost use Rattle.edr_query.specs.declared.shapes.Shape.TheVariants as at;
ghost use Rattle.edr_select.specs.Masks.{IsArea, takes_spot};
ghost use Rattle.edr_station.specs.Stations.{station_at};
ghost use Rattle.edr_plan.specs.StationPlaces as station_places;
ghost use Rattle.edr_plan.specs.StationPlaces.{IsOfStations, HasAll};

use crate::station_choices::station_stands;
use edr_base::{OutOfMemory, Spot, in_box};
use edr_geometry::{in_disc, in_polygons};
use edr_query::Shape;
use edr_select::{centre_of, polygons_of, reach_of};
use edr_station::{Station, Stations};
use std::alloc::Global;

// Whether a disc, some polygons or a box takes a place.
fn takes_place(shape: &Shape, spot: Spot) -> bool
    requires area { IsArea shape.now }
    requires shape { IsShape shape.now }
    requires spot { IsSpot spot }
    ensures { result ≡ takes_spot shape.now spot }
{
    match shape {
        Shape::Radius { geometry, within } => in_disc(spot, centre_of(geometry), *within),
        Shape::Area(geometry) => in_polygons(spot, polygons_of(geometry)),
        Shape::Cube { lo, hi, .. } => in_box(spot, *lo, *hi),
        _ => unreachable!(),
    }
}

// Whether a shape takes a station.
pub(crate) fn takes_station(shape: &Shape, station: &Station) -> bool
    requires of_stations { IsOfStations shape.now }
    requires shape { IsShape shape.now }
    ensures { result ≡ station_places.takes_station shape.now station.now }
{
    station_stands(station);
    let spot = Spot {
        x: station.x(),
        y: station.y(),
    };
    match shape {
        Shape::Location(id) => id.bytes() == station.id(),
        _ => takes_place(shape, spot),
    }
}

// The places of the stations in the box round a disc, some polygons or a box: no other station is taken.
fn stations_in(alloc: Global, shape: &Shape, stations: &Stations) -> Result<Vec<usize>, OutOfMemory>
    requires area { IsArea shape.now }
    requires shape { IsShape shape.now }
    ensures { IfOk result (λ places. HasAll stations.now.stations (λ k. station_places.takes_station shape.now (station_at stations.now.stations k)) places.items) }
{
    let reach = reach_of(shape);
    let lo = Spot {
        x: reach.left,
        y: reach.low,
    };
    let hi = Spot {
        x: reach.right,
        y: reach.high,
    };
    let places = stations.in_box(alloc, lo, hi)?;
    Ok(places)
}

// The place of the station of an id, where there is one.
fn station_of(
    alloc: Global,
    shape: &Shape,
    id: &[u8],
    stations: &Stations,
) -> Result<Vec<usize>, OutOfMemory>
    requires { shape.now ≡ at.Location id.now }
    ensures { IfOk result (λ places. HasAll stations.now.stations (λ k. station_places.takes_station shape.now (station_at stations.now.stations k)) places.items) }
{
    stations.len();
    let mut places = Vec::new(alloc);
    if let Some(place) = stations.by_id(id) {
        places.push(place)?;
    }
    Ok(places)
}

// The places of some stations, ascending, with those that a shape takes among them.
pub(crate) fn stations_about(
    alloc: Global,
    shape: &Shape,
    stations: &Stations,
) -> Result<Vec<usize>, OutOfMemory>
    requires of_stations { IsOfStations shape.now }
    requires shape { IsShape shape.now }
    ensures { IfOk result (λ places. HasAll stations.now.stations (λ k. station_places.takes_station shape.now (station_at stations.now.stations k)) places.items) }
{
    match shape {
        Shape::Location(id) => station_of(alloc, shape, id.bytes(), stations),
        _ => stations_in(alloc, shape, stations),
    }
}
