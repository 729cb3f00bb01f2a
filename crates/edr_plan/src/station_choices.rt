//! The times and levels of a station that a query takes, each by itself.
ghost use Rattle.std.specs.Prelude.{◌≡◌, ◌&&◌, true, false, IfOk, MatchOption};
ghost use Rattle.edr_query.specs.Queries.{IsShape};
ghost use Rattle.edr_station.specs.Stations.{IsPlaced};
ghost use Rattle.edr_plan.specs.StationPlaces.{IsOfStations, has_some, choice_by, cells_by, takes_each};
ghost use Rattle.edr_plan.specs.StationPlans.{choice_of, cells_of};
ghost use Rattle.edr_plan.specs.StationPlans as plans;

use crate::stations_taken::takes_station;
use edr_base::OutOfMemory;
use edr_query::Query;
use edr_select::{levels_of_query, times_taken};
use edr_station::Station;
use std::alloc::Global;
use std::marker::Model;

// The places of the times and levels of a station that are taken.
#[derive(Drop)]
pub(crate) struct StationChoice {
    pub(crate) times: Vec<u64>,
    pub(crate) levels: Vec<u64>,
}

impl Model for StationChoice {
    ghost use Rattle.edr_plan.specs.StationPlaces.{ChoiceValue};

    ghost Value = { ChoiceValue };

    ghost view = { λ c. record { times = c.times.items; levels = c.levels.items } };
}

// Every station has a place, and its times and levels are axes.
pub(crate) fn station_stands(station: &Station)
    ensures { IsPlaced station.now }
{
    let _ = station.id();
}

// Whether something is taken.
fn is_some(choice: &StationChoice) -> bool
    ensures { result ≡ plans.are_some choice.now }
{
    !choice.times.is_empty() && !choice.levels.is_empty()
}

// The times and levels of a station that are asked.
fn asked_of(alloc: Global, query: &Query, station: &Station) -> Result<StationChoice, OutOfMemory>
    requires { IsShape query.now.shape }
    ensures { IfOk result (λ choice. choice ≡ choice_of query.now station.now) }
{
    station_stands(station);
    let times = times_taken(alloc, &query.times, station.times())?;
    let levels = levels_of_query(alloc, query, station.levels())?;
    Ok(StationChoice { times, levels })
}

// What a query takes of a station by its place or its id, or None where it takes nothing.
pub(crate) fn chosen(
    alloc: Global,
    query: &Query,
    station: &Station,
) -> Result<Option<StationChoice>, OutOfMemory>
    requires shape { IsShape query.now.shape }
    requires of_stations { IsOfStations query.now.shape }
    ensures { IfOk result (λ found. MatchOption found (has_some station.now (takes_each query.now station.now) ≡ false)
        (λ choice. (has_some station.now (takes_each query.now station.now) ≡ true) × (choice ≡ choice_by station.now (takes_each query.now station.now))
        × (cells_of station.now choice ≡ cells_by station.now (takes_each query.now station.now)))) }
{
    if !takes_station(&query.shape, station) {
        return Ok(None);
    }
    let choice = asked_of(alloc, query, station)?;
    if !is_some(&choice) {
        return Ok(None);
    }
    Ok(Some(choice))
}
