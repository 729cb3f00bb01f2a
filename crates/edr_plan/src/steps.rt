//! The refusals of a query of stations from its names on.
ghost use Rattle.std.specs.Prelude.{◌≡◌, false, length, None, Some, IfOk, IfErr, MatchOption};
ghost use Rattle.edr_edition.specs.Editions.{IsCollection};
ghost use Rattle.edr_edition.specs.Stores.{of_stations, stations_of};
ghost use Rattle.edr_edition.specs.declared.kinds.Kind.TheVariants.{Station};
ghost use Rattle.edr_select.specs.Checks.{refused_query, stations_in};
ghost use Rattle.edr_select.specs.Choices.{parameter_places};
ghost use Rattle.edr_select.specs.Refusals as refusals;
ghost use Rattle.edr_select.specs.Steps.{IsFaultOf, refused_known, refused_sizes};
ghost use Rattle.edr_plan.specs.StationPlans.{lacks_levels};

use edr_base::Refusal;
use edr_edition::CollectionData;
use edr_query::Query;
use edr_select::{PlanFault, has_levels_asked, has_other_crs, parameters_taken};
use edr_station::Stations;
use std::alloc::Global;

// The places of the parameters that are asked, or the refusal of a name.
pub(crate) fn names_taken(
    alloc: Global,
    query: &Query,
    collection: &CollectionData,
) -> Result<Vec<u64>, PlanFault>
    requires { IsCollection collection.now }
    ensures places { IfOk result (λ places. places.items ≡ parameter_places query.now.parameters collection.now.parameters) }
    ensures known { IfOk result (λ places. refused_query collection.now query.now ≡ refused_known collection.now query.now) }
    ensures refused { IfErr result (IsFaultOf (refused_query collection.now query.now)) }
{
    match parameters_taken(alloc, &query.parameters, collection.parameters())? {
        Some(places) => Ok(places),
        None => Err(PlanFault::Refused(Refusal::UnknownParameterName)),
    }
}

// Whether stations have levels: each has where one has.
fn have_levels(collection: &CollectionData, stations: &Stations) -> bool
    requires collection { IsCollection collection.now }
    requires stations { stations.now ≡ stations_of collection.now.parameters collection.now.stations }
    ensures { result ≡ refusals.have_levels (of_stations collection.now.parameters collection.now.stations) }
{
    if stations.len() == 0 {
        return false;
    }
    stations.station(0).levels().is_some()
}

// The refusal of a reference system or of levels, where one applies.
pub(crate) fn refused_asking(
    query: &Query,
    collection: &CollectionData,
    stations: &Stations,
) -> Option<Refusal>
    requires kind { collection.now.kind ≡ Station }
    requires collection { IsCollection collection.now }
    requires stations { stations.now ≡ stations_of collection.now.parameters collection.now.stations }
    ensures kept { MatchOption result (refused_known collection.now query.now ≡ refused_sizes query.now (stations_in collection.now))
        (λ refusal. refused_known collection.now query.now ≡ Some refusal) }
    ensures levels { result ≡ None → lacks_levels query.now collection.now ≡ false }
{
    if has_other_crs(query, collection) {
        return Some(Refusal::BadCrs);
    }
    if has_levels_asked(query) && !have_levels(collection, stations) {
        return Some(Refusal::NoLevels);
    }
    None
}
