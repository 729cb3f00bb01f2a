//! The coverages of stations of a reply.
ghost use Rattle.std.specs.Prelude.{◌≡◌, ◌≢◌, ◌<◌, ◌++◌, [], All, length, true, false, IfOk, OnOk, MatchOption};
ghost use Rattle.std.specs.List.{flat_map};
ghost use Rattle.edr_edition.specs.Editions.{IsCollection};
ghost use Rattle.edr_edition.specs.Stores.{stations_of};
ghost use Rattle.edr_base.specs.Limits.{IsCoordinate};
ghost use Rattle.edr_lines.specs.Plans as line_plans;
ghost use Rattle.edr_query.specs.Queries.{IsShape};
ghost use Rattle.edr_select.specs.Choices.{parameter_places};
ghost use Rattle.edr_station.specs.Stations.{station_at};
ghost use Rattle.edr_plan.specs.StationPlaces.{IsOfStations};
ghost use Rattle.edr_plan.specs.StationPlans.{IsChoiceOf, series_with, series_where_taken, has_room, with_series, IsGathered, IsTooMany, IsFew};
ghost use Rattle.edr_plan.specs.CorridorPlans.{IsLineOf, IsLineIf, HasLevelsWanted, axes_of, choice_in, cells_in, IsFull};

use crate::cells::{blocks_of, cells_at};
use crate::gathered::{Gathered, room_for};
use crate::lines::{Line, axes_at, axis_at, corridor_at};
use crate::stack_cells::cells_of;
use crate::station_choices::{StationChoice, chosen};
use crate::station_heads::head_at;
use edr_base::{Items, OutOfMemory};
use edr_corridor::corridors_are_cut;
use edr_edition::CollectionData;
use edr_lines::{Axes, sides_taken, stack_with};
use edr_query::Query;
use edr_select::{Stack, StationSeries};
use edr_station::Stations;
use std::alloc::Global;

// The coverage of the station at a place but for its values, with some of its times and levels and their places.
fn planned_at(
    alloc: Global,
    collection: &CollectionData,
    stations: &Stations,
    parameters: &[u64],
    place: usize,
    choice: &StationChoice,
    cells: Vec<Option<u64>>,
) -> Result<StationSeries, OutOfMemory>
    requires collection { IsCollection collection.now }
    requires stations { stations.now ≡ stations_of collection.now.parameters collection.now.stations }
    requires some { parameters.now ≢ [] }
    requires parameters { All (λ p. p < length collection.now.parameters) parameters.now }
    requires place { place < length collection.now.stations }
    requires choice { IsChoiceOf (station_at collection.now.stations place) choice.now }
    ensures { IfOk result (λ series. series ≡ series_with collection.now parameters.now place choice.now cells.items) }
{
    let station = stations.station(place);
    let head = head_at(alloc, collection, parameters, station, choice)?;
    Ok(StationSeries {
        head,
        station: place as u64,
        first: stations.block_of(place, 0, 0, 0),
        blocks: blocks_of(station),
        cells: Items::of(cells),
    })
}

// Adds the coverage of the station at a place over a stack, which has so many values.
fn add_stack(
    alloc: Global,
    collection: &CollectionData,
    stations: &Stations,
    parameters: &[u64],
    place: usize,
    stack: Stack,
    values: u64,
    gathered: &mut Gathered,
) -> Result<(), OutOfMemory>
    requires collection { IsCollection collection.now }
    requires stations { stations.now ≡ stations_of collection.now.parameters collection.now.stations }
    requires some { parameters.now ≢ [] }
    requires parameters { All (λ p. p < length collection.now.parameters) parameters.now }
    requires place { place < length collection.now.stations }
    requires choice { IsChoiceOf (station_at collection.now.stations place) (choice_in stack.sides) }
    requires full { IsFull stack }
    requires room { has_room gathered.old values ≡ true }
    ensures { OnOk result (gathered.new ≡ with_series gathered.old
        (series_with collection.now parameters.now place (choice_in stack.sides) (cells_in (station_at collection.now.stations place) stack)) values) }
{
    let cells = cells_of(alloc, stations.station(place), &stack)?;
    let choice = StationChoice {
        times: stack.sides.times.into_vec(),
        levels: stack.sides.levels.into_vec(),
    };
    let series = planned_at(
        alloc, collection, stations, parameters, place, &choice, cells,
    )?;
    gathered.push(series, values)
}

// Adds what a corridor takes of the station at a place, of which the axes are known, where a reply has room for it, and says
// whether it has.
fn add_along(
    alloc: Global,
    query: &Query,
    collection: &CollectionData,
    stations: &Stations,
    parameters: &[u64],
    line: &Line<'_>,
    place: usize,
    axes: &Axes<'_>,
    gathered: &mut Gathered,
) -> Result<bool, OutOfMemory>
    requires collection { IsCollection collection.now }
    requires shape { IsShape query.now.shape }
    requires stations { stations.now ≡ stations_of collection.now.parameters collection.now.stations }
    requires some { parameters.now ≢ [] }
    requires parameters { parameters.now ≡ parameter_places query.now.parameters collection.now.parameters }
    requires line { IsLineOf query.now line.now }
    requires levels { HasLevelsWanted collection.now.stations line.now.segments }
    requires place { place < length collection.now.stations }
    requires axes { axes.now ≡ axes_of (station_at collection.now.stations place) }
    requires few { line_plans.IsFew axes.now }
    requires ys_in { All IsCoordinate axes.now.ys }
    requires xs_in { All IsCoordinate axes.now.xs }
    requires gathered { IsGathered (length parameters.now) gathered.old }
    ensures added { IfOk result (λ room. room ≡ true → (gathered.new.series ≡ gathered.old.series ++ series_where_taken collection.now query.now place) × IsGathered (length parameters.now) gathered.new) }
    ensures full { IfOk result (λ room. room ≡ false → IsTooMany (length parameters.now) (gathered.old.series ++ series_where_taken collection.now query.now place)) }
{
    corridors_are_cut();
    let corridor = corridor_at(alloc, query, line, axes)?;
    let Some(sides) = sides_taken(alloc, &corridor, axes)? else {
        return Ok(true);
    };
    let times = sides.times.items().len();
    let levels = sides.levels.items().len();
    let Some(values) = room_for(parameters.len(), times, levels, gathered) else {
        return Ok(false);
    };
    let stack = stack_with(alloc, &corridor, axes, sides)?;
    add_stack(
        alloc, collection, stations, parameters, place, stack, values, gathered,
    )?;
    Ok(true)
}

// Adds what a corridor takes of the station at a place, where a reply has room for it, and says whether it has.
fn add_near(
    alloc: Global,
    query: &Query,
    collection: &CollectionData,
    stations: &Stations,
    parameters: &[u64],
    line: &Line<'_>,
    place: usize,
    gathered: &mut Gathered,
) -> Result<bool, OutOfMemory>
    requires collection { IsCollection collection.now }
    requires shape { IsShape query.now.shape }
    requires stations { stations.now ≡ stations_of collection.now.parameters collection.now.stations }
    requires some { parameters.now ≢ [] }
    requires parameters { parameters.now ≡ parameter_places query.now.parameters collection.now.parameters }
    requires line { IsLineOf query.now line.now }
    requires levels { HasLevelsWanted collection.now.stations line.now.segments }
    requires place { place < length collection.now.stations }
    requires gathered { IsGathered (length parameters.now) gathered.old }
    ensures added { IfOk result (λ room. room ≡ true → (gathered.new.series ≡ gathered.old.series ++ series_where_taken collection.now query.now place) × IsGathered (length parameters.now) gathered.new) }
    ensures full { IfOk result (λ room. room ≡ false → IsTooMany (length parameters.now) (gathered.old.series ++ series_where_taken collection.now query.now place)) }
{
    let station = stations.station(place);
    let ys = axis_at(alloc, station.y())?;
    let xs = axis_at(alloc, station.x())?;
    let axes = axes_at(station, &ys, &xs);
    add_along(
        alloc, query, collection, stations, parameters, line, place, &axes, gathered,
    )
}

// Adds what a query takes of the station at a place by that or its id, where a reply has room for it, and says whether it has.
fn add_chosen(
    alloc: Global,
    query: &Query,
    collection: &CollectionData,
    stations: &Stations,
    parameters: &[u64],
    place: usize,
    gathered: &mut Gathered,
) -> Result<bool, OutOfMemory>
    requires collection { IsCollection collection.now }
    requires shape { IsShape query.now.shape }
    requires stations { stations.now ≡ stations_of collection.now.parameters collection.now.stations }
    requires some { parameters.now ≢ [] }
    requires parameters { parameters.now ≡ parameter_places query.now.parameters collection.now.parameters }
    requires of_stations { IsOfStations query.now.shape }
    requires place { place < length collection.now.stations }
    requires gathered { IsGathered (length parameters.now) gathered.old }
    ensures added { IfOk result (λ room. room ≡ true → (gathered.new.series ≡ gathered.old.series ++ series_where_taken collection.now query.now place) × IsGathered (length parameters.now) gathered.new) }
    ensures full { IfOk result (λ room. room ≡ false → IsTooMany (length parameters.now) (gathered.old.series ++ series_where_taken collection.now query.now place)) }
{
    let station = stations.station(place);
    let Some(choice) = chosen(alloc, query, station)? else {
        return Ok(true);
    };
    let times = choice.times.len();
    let levels = choice.levels.len();
    let Some(values) = room_for(parameters.len(), times, levels, gathered) else {
        return Ok(false);
    };
    let cells = cells_at(alloc, station, &choice)?;
    let series = planned_at(
        alloc, collection, stations, parameters, place, &choice, cells,
    )?;
    gathered.push(series, values)?;
    Ok(true)
}

// Adds what a query takes of the station at a place, where a reply has room for it, and says whether it has.
fn add_station(
    alloc: Global,
    query: &Query,
    collection: &CollectionData,
    stations: &Stations,
    parameters: &[u64],
    line: &Option<Line<'_>>,
    place: usize,
    gathered: &mut Gathered,
) -> Result<bool, OutOfMemory>
    requires collection { IsCollection collection.now }
    requires shape { IsShape query.now.shape }
    requires stations { stations.now ≡ stations_of collection.now.parameters collection.now.stations }
    requires some { parameters.now ≢ [] }
    requires parameters { parameters.now ≡ parameter_places query.now.parameters collection.now.parameters }
    requires line { IsLineIf query.now collection.now.stations line.now }
    requires place { place < length collection.now.stations }
    requires gathered { IsGathered (length parameters.now) gathered.old }
    ensures added { IfOk result (λ room. room ≡ true → (gathered.new.series ≡ gathered.old.series ++ series_where_taken collection.now query.now place) × IsGathered (length parameters.now) gathered.new) }
    ensures full { IfOk result (λ room. room ≡ false → IsTooMany (length parameters.now) (gathered.old.series ++ series_where_taken collection.now query.now place)) }
{
    match line {
        Some(line) => add_near(
            alloc, query, collection, stations, parameters, line, place, gathered,
        ),
        None => add_chosen(
            alloc, query, collection, stations, parameters, place, gathered,
        ),
    }
}

// The coverages of the stations at some places of which something is taken, or None where these are more, or have more values,
// than a reply has.
pub(crate) fn series_taken(
    alloc: Global,
    query: &Query,
    collection: &CollectionData,
    stations: &Stations,
    parameters: &[u64],
    line: &Option<Line<'_>>,
    places: &[usize],
) -> Result<Option<Vec<StationSeries>>, OutOfMemory>
    requires collection { IsCollection collection.now }
    requires shape { IsShape query.now.shape }
    requires stations { stations.now ≡ stations_of collection.now.parameters collection.now.stations }
    requires some { parameters.now ≢ [] }
    requires parameters { parameters.now ≡ parameter_places query.now.parameters collection.now.parameters }
    requires line { IsLineIf query.now collection.now.stations line.now }
    requires places { All (λ place. place < length collection.now.stations) places.now }
    ensures { IfOk result (λ found. MatchOption found (IsTooMany (length parameters.now) (flat_map (series_where_taken collection.now query.now) places.now))
        (λ series. (series.items ≡ flat_map (series_where_taken collection.now query.now) places.now)
        × IsFew (length parameters.now) (flat_map (series_where_taken collection.now query.now) places.now))) }
{
    let mut gathered = Gathered {
        series: Vec::new(alloc),
        values: 0,
    };
    for place in places {
        let room = add_station(
            alloc,
            query,
            collection,
            stations,
            parameters,
            line,
            *place,
            &mut gathered,
        )?;
        if !room {
            return Ok(None);
        }
    }
    Ok(Some(gathered.series))
}
