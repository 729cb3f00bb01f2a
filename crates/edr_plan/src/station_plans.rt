//! Plans of the replies to queries of stations.
ghost use Rattle.std.specs.Prelude.{◌≡◌, ◌≢◌, ◌↔◌, ◌<◌, ◌^◌, [], false, None, IfOk, IfErr, IsTrue};
ghost use Rattle.edr_edition.specs.Editions.{IsCollection};
ghost use Rattle.edr_edition.specs.Stores.{stations_of};
ghost use Rattle.edr_edition.specs.declared.kinds.Kind.TheVariants.{Station};
ghost use Rattle.edr_query.specs.Queries.{IsShape};
ghost use Rattle.edr_query.specs.declared.shapes.Shape.TheVariants as at;
ghost use Rattle.edr_select.specs.Checks.{refused_query, stations_in};
ghost use Rattle.edr_select.specs.Choices.{parameter_places};
ghost use Rattle.edr_select.specs.Steps.{IsFaultOf, refused_sizes};
ghost use Rattle.edr_station.specs.Blocks.{blocks};
ghost use Rattle.edr_plan.specs.StationPlaces.{IsAmongStations, HasAll, is_taken};
ghost use Rattle.edr_plan.specs.StationPlans as plans;
ghost use Rattle.edr_plan.specs.StationPlans.{AsksStations, lacks_levels, all_series, IsPlanOfStations};
ghost use Rattle.edr_plan.specs.CorridorPlans.{IsLineIf};

use crate::corridor_stations::stations_near;
use crate::lines::Line;
use crate::station_series::series_taken;
use crate::stations_taken::stations_about;
use crate::steps::{names_taken, refused_asking};
use edr_base::{Items, OutOfMemory, Refusal};
use edr_edition::CollectionData;
use edr_lines::segments_of;
use edr_query::{Query, Shape};
use edr_select::{PlanFault, SeriesReply, StationSeries};
use edr_station::Stations;
use edr_wkt::Geometry;
use std::alloc::Global;

// Whether the reply to a query is a collection of coverages.
fn is_many(query: &Query) -> bool
    ensures { result ≡ plans.is_many query.now.shape }
{
    match &query.shape {
        Shape::Location(_) => false,
        _ => true,
    }
}

// Whether there are no numbers.
fn are_none(numbers: &[u64]) -> bool
    ensures { IsTrue result ↔ (numbers.now ≡ []) }
{
    numbers.is_empty()
}

// Whether there are no coverages.
fn is_bare(series: &[StationSeries]) -> bool
    ensures { IsTrue result ↔ (series.now ≡ []) }
{
    series.is_empty()
}

// The places of the parameters that are asked, of which there are some, or the first refusal that applies from that of names to
// that of samples.
fn parameters_asked(
    alloc: Global,
    query: &Query,
    collection: &CollectionData,
    stations: &Stations,
) -> Result<Vec<u64>, PlanFault>
    requires kind { collection.now.kind ≡ Station }
    requires collection { IsCollection collection.now }
    requires stations { stations.now ≡ stations_of collection.now.parameters collection.now.stations }
    ensures places { IfOk result (λ places. places.items ≡ parameter_places query.now.parameters collection.now.parameters) }
    ensures some { IfOk result (λ places. places.items ≢ []) }
    ensures levels { IfOk result (λ places. lacks_levels query.now collection.now ≡ false) }
    ensures known { IfOk result (λ places. refused_query collection.now query.now ≡ refused_sizes query.now (stations_in collection.now)) }
    ensures refused { IfErr result (IsFaultOf (refused_query collection.now query.now)) }
{
    let parameters = names_taken(alloc, query, collection)?;
    if let Some(refusal) = refused_asking(query, collection, stations) {
        return Err(PlanFault::Refused(refusal));
    }
    if are_none(&parameters) {
        return Err(PlanFault::Refused(Refusal::NoSamples));
    }
    Ok(parameters)
}

// The places of some stations, ascending, with those among them that something is taken of.
fn stations_asked(
    alloc: Global,
    query: &Query,
    collection: &CollectionData,
    stations: &Stations,
    line: &Option<Line<'_>>,
) -> Result<Vec<usize>, OutOfMemory>
    requires shape { IsShape query.now.shape }
    requires stations { stations.now ≡ stations_of collection.now.parameters collection.now.stations }
    requires line { IsLineIf query.now collection.now.stations line.now }
    ensures { IfOk result (λ places. HasAll collection.now.stations (is_taken collection.now query.now) places.items) }
{
    let _ = &collection;
    match line {
        Some(line) => {
            let places = stations_near(alloc, query, line, stations)?;
            Ok(places)
        }
        None => {
            let places = stations_about(alloc, &query.shape, stations)?;
            Ok(places)
        }
    }
}

// The coverages of the stations of which something is taken, or the refusal of samples or of size.
fn series_asked(
    alloc: Global,
    query: &Query,
    collection: &CollectionData,
    stations: &Stations,
    parameters: &[u64],
    line: &Option<Line<'_>>,
) -> Result<Vec<StationSeries>, PlanFault>
    requires among { IsAmongStations query.now.shape }
    requires collection { IsCollection collection.now }
    requires shape { IsShape query.now.shape }
    requires stations { stations.now ≡ stations_of collection.now.parameters collection.now.stations }
    requires some { parameters.now ≢ [] }
    requires parameters { parameters.now ≡ parameter_places query.now.parameters collection.now.parameters }
    requires line { IsLineIf query.now collection.now.stations line.now }
    ensures series { IfOk result (λ series. series.items ≡ all_series collection.now query.now) }
    ensures some { IfOk result (λ series. series.items ≢ []) }
    ensures none { IfOk result (λ series. refused_sizes query.now (stations_in collection.now) ≡ None) }
    ensures refused { IfErr result (IsFaultOf (refused_sizes query.now (stations_in collection.now))) }
{
    let places = stations_asked(alloc, query, collection, stations, line)?;
    let Some(series) = series_taken(
        alloc, query, collection, stations, parameters, line, &places,
    )?
    else {
        return Err(PlanFault::Refused(Refusal::TooLarge));
    };
    if is_bare(&series) {
        return Err(PlanFault::Refused(Refusal::NoSamples));
    }
    Ok(series)
}

// The same of a corridor, along its line.
fn series_along(
    alloc: Global,
    query: &Query,
    collection: &CollectionData,
    stations: &Stations,
    parameters: &[u64],
    geometry: &Geometry,
    width: i64,
    height: Option<i64>,
) -> Result<Vec<StationSeries>, PlanFault>
    requires along { query.now.shape ≡ at.Corridor geometry.now width height }
    requires levels { lacks_levels query.now collection.now ≡ false }
    requires collection { IsCollection collection.now }
    requires shape { IsShape query.now.shape }
    requires stations { stations.now ≡ stations_of collection.now.parameters collection.now.stations }
    requires some { parameters.now ≢ [] }
    requires parameters { parameters.now ≡ parameter_places query.now.parameters collection.now.parameters }
    ensures series { IfOk result (λ series. series.items ≡ all_series collection.now query.now) }
    ensures some { IfOk result (λ series. series.items ≢ []) }
    ensures none { IfOk result (λ series. refused_sizes query.now (stations_in collection.now) ≡ None) }
    ensures refused { IfErr result (IsFaultOf (refused_sizes query.now (stations_in collection.now))) }
{
    let segments = segments_of(alloc, query, geometry, width, height)?;
    let line = Line {
        segments: &segments,
        geometry,
        width,
        height,
    };
    series_asked(alloc, query, collection, stations, parameters, &Some(line))
}

// Those of a query of any shape that is answered of stations.
fn series_found(
    alloc: Global,
    query: &Query,
    collection: &CollectionData,
    stations: &Stations,
    parameters: &[u64],
) -> Result<Vec<StationSeries>, PlanFault>
    requires among { IsAmongStations query.now.shape }
    requires levels { lacks_levels query.now collection.now ≡ false }
    requires collection { IsCollection collection.now }
    requires shape { IsShape query.now.shape }
    requires stations { stations.now ≡ stations_of collection.now.parameters collection.now.stations }
    requires some { parameters.now ≢ [] }
    requires parameters { parameters.now ≡ parameter_places query.now.parameters collection.now.parameters }
    ensures series { IfOk result (λ series. series.items ≡ all_series collection.now query.now) }
    ensures some { IfOk result (λ series. series.items ≢ []) }
    ensures none { IfOk result (λ series. refused_sizes query.now (stations_in collection.now) ≡ None) }
    ensures refused { IfErr result (IsFaultOf (refused_sizes query.now (stations_in collection.now))) }
{
    match &query.shape {
        Shape::Corridor {
            geometry,
            width,
            height,
        } => series_along(
            alloc, query, collection, stations, parameters, geometry, *width, *height,
        ),
        _ => series_asked(alloc, query, collection, stations, parameters, &None),
    }
}

// The blocks of stations can be counted.
fn are_counted(stations: &Stations)
    ensures { blocks stations.now.parameters stations.now.stations < 2 ^ 64 }
{
    let _ = stations.blocks();
}

// How the values of the reply to a query of the stations of a collection are read, or the first refusal that applies from that
// of names on.
pub(crate) fn series_of(
    alloc: Global,
    query: &Query,
    collection: &CollectionData,
    stations: &Stations,
) -> Result<SeriesReply, PlanFault>
    requires asked { AsksStations collection.now query.now }
    requires collection { IsCollection collection.now }
    requires shape { IsShape query.now.shape }
    requires stations { stations.now ≡ stations_of collection.now.parameters collection.now.stations }
    ensures planned { IfOk result (IsPlanOfStations collection.now query.now) }
    ensures refused { IfErr result (IsFaultOf (refused_query collection.now query.now)) }
{
    let parameters = parameters_asked(alloc, query, collection, stations)?;
    let series = series_found(alloc, query, collection, stations, &parameters)?;
    are_counted(stations);
    Ok(SeriesReply {
        parameters: Items::of(parameters),
        many: is_many(query),
        series: Items::of(series),
    })
}
