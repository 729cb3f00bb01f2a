//! Plans of queries.
ghost use Rattle.std.specs.Prelude.{◌≡◌, IfOk, IfErr};
ghost use Rattle.edr_edition.specs.Editions.{IsCollection};
ghost use Rattle.edr_edition.specs.declared.kinds.Kind.TheVariants.{Grid, Station};
ghost use Rattle.edr_query.specs.declared.pages.Page.TheVariants.{Ask};
ghost use Rattle.edr_query.specs.Queries.{IsQuery};
ghost use Rattle.edr_select.specs.Checks.{refused_in};
ghost use Rattle.edr_select.specs.Planning.{MatchPlan};
ghost use Rattle.edr_select.specs.Steps.{IsFaultOf};
ghost use Rattle.edr_select.specs.Refusals.{refused};
ghost use Rattle.edr_plan.specs.Found.{IsReplyIn, IsReplyOf};

use crate::checks::{found_grid, found_stations};
use crate::station_plans::series_of;
use edr_base::Refusal;
use edr_edition::{CollectionData, Edition, Kind, instances_have_grids};
use edr_lines::reply_along_line;
use edr_query::{Query, Shape};
use edr_select::{Plan, PlanFault, Reply, reply_over_grid};
use std::alloc::Global;

// Every query is one.
fn query_stands(query: &Query)
    ensures { IsQuery query.now }
{
    let _ = &query.shape;
}

// How the values of the reply to a query of a collection of grids are read, or the first refusal that applies.
#[tactic(auto, using(edr_select::specs::StepLaws::plan_in, edr_select::specs::StepLaws::first_fault))]
fn reply_of_grids(
    alloc: Global,
    query: &Query,
    collection: &CollectionData,
) -> Result<Reply, PlanFault>
    requires kind { collection.now.kind ≡ Grid }
    requires collection { IsCollection collection.now }
    requires query { IsQuery query.now }
    ensures planned { IfOk result (IsReplyIn collection.now query.now) }
    ensures refused { IfErr result (IsFaultOf (refused_in collection.now (Ask query.now))) }
{
    instances_have_grids();
    let instance = found_grid(query, collection)?;
    match &query.shape {
        Shape::Trajectory(_) | Shape::Corridor { .. } => {
            reply_along_line(alloc, query, collection, instance)
        }
        _ => reply_over_grid(alloc, query, collection, instance),
    }
}

// The same of a collection of stations.
fn reply_of_stations(
    alloc: Global,
    query: &Query,
    collection: &CollectionData,
) -> Result<Reply, PlanFault>
    requires kind { collection.now.kind ≡ Station }
    requires collection { IsCollection collection.now }
    requires query { IsQuery query.now }
    ensures planned { IfOk result (IsReplyIn collection.now query.now) }
    ensures refused { IfErr result (IsFaultOf (refused_in collection.now (Ask query.now))) }
{
    let stations = found_stations(query, collection)?;
    let series = series_of(alloc, query, collection, stations)?;
    Ok(Reply::Series(series))
}

// How the values of the reply to a query of an edition are read, or the first refusal that applies.
fn reply_to(alloc: Global, query: &Query, edition: &Edition) -> Result<Reply, PlanFault>
    requires { IsQuery query.now }
    ensures planned { IfOk result (IsReplyOf edition.now query.now) }
    ensures refused { IfErr result (IsFaultOf (refused edition.now (Ask query.now))) }
{
    let Some(collection) = edition.collection(query.collection.bytes()) else {
        return Err(PlanFault::Refused(Refusal::UnknownCollection));
    };
    match collection.kind() {
        Kind::Grid => reply_of_grids(alloc, query, collection),
        Kind::Station => reply_of_stations(alloc, query, collection),
    }
}

// The plan with the reply that is found.
fn found_plan(alloc: Global, query: Query, edition: &Edition) -> Result<Plan, PlanFault>
    ensures planned { IfOk result (λ plan. (plan.query ≡ query) × IsReplyOf edition.now query plan.reply) }
    ensures refused { IfErr result (IsFaultOf (refused edition.now (Ask query))) }
{
    query_stands(&query);
    let reply = reply_to(alloc, &query, edition)?;
    Ok(Plan::of(query, reply))
}

/// The plan of the reply to a query (OGC 19-086r6, section 8) from an edition, or the first refusal that applies. It keeps the
/// query, and opens no chunk. The document that is planned is valid (OGC 21-069r2).
pub fn plan_of(alloc: Global, query: Query, edition: &Edition) -> Result<Plan, PlanFault>
    ensures { MatchPlan result edition.now query }
{
    found_plan(alloc, query, edition)
}

/// The plan of the reply to a query (OGC 19-086r6, section 8) from an edition, or the first refusal that applies. It opens no
/// chunk. The document that is planned is valid (OGC 21-069r2).
pub fn plan(alloc: Global, query: &Query, edition: &Edition) -> Result<Plan, PlanFault>
    ensures { MatchPlan result edition.now query.now }
{
    plan_of(alloc, query.copy(alloc)?, edition)
}
