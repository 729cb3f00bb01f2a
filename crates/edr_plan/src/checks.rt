//! What a query is about in a collection, and the refusals before that of names.
ghost use Rattle.std.specs.Prelude.{◌≡◌, Some, IfOk, IfErr};
ghost use Rattle.edr_edition.specs.Stores.{stations_of};
ghost use Rattle.edr_edition.specs.declared.kinds.Kind.TheVariants.{Grid, Station};
ghost use Rattle.edr_query.specs.declared.pages.Page.TheVariants.{Ask};
ghost use Rattle.edr_select.specs.Checks.{refused_in};
ghost use Rattle.edr_plan.specs.Found.{IsFoundIn, IsFoundStations};

use edr_base::Refusal;
use edr_edition::{CollectionData, GridInstance};
use edr_query::{Query, Shape};
use edr_station::Stations;

// The instance of a collection of grids that is asked, or why none is.
pub(crate) fn found_grid<'a>(
    query: &Query,
    collection: &'a CollectionData,
) -> Result<&'a GridInstance, Refusal>
    requires { collection.now.kind ≡ Grid }
    ensures found { IfOk result (λ instance. IsFoundIn collection.now query.now instance.now) }
    ensures refused { IfErr result (λ refusal. refused_in collection.now (Ask query.now) ≡ Some refusal) }
{
    let instance = match &query.instance {
        Some(id) => collection.instance(id.bytes()),
        None => collection.newest(),
    };
    let Some(instance) = instance else {
        return Err(Refusal::UnknownInstance);
    };
    match &query.shape {
        Shape::Location(_) => Err(Refusal::QueryNotOffered),
        _ => Ok(instance),
    }
}

// The stations of a collection of stations that are asked, or why they aren't.
pub(crate) fn found_stations<'a>(
    query: &Query,
    collection: &'a CollectionData,
) -> Result<&'a Stations, Refusal>
    requires { collection.now.kind ≡ Station }
    ensures found { IfOk result (λ stations. IsFoundStations collection.now query.now) }
    ensures stations { IfOk result (λ stations. stations.now ≡ stations_of collection.now.parameters collection.now.stations) }
    ensures refused { IfErr result (λ refusal. refused_in collection.now (Ask query.now) ≡ Some refusal) }
{
    let Some(stations) = collection.stations() else {
        unreachable!()
    };
    match &query.shape {
        Shape::Location(id) if stations.by_id(id.bytes()).is_none() => Err(
            Refusal::UnknownLocation,
        ),
        Shape::Position(_) | Shape::Trajectory(_) => Err(Refusal::QueryNotOffered),
        _ if query.instance.is_none() => Ok(stations),
        _ => Err(Refusal::QueryNotOffered),
    }
}
