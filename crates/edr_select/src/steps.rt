//! The refusals of a query from its names on, and what a position takes.
ghost use Rattle.std.specs.Prelude.{◌≡◌, ◌↔◌, None, Some, false, IfOk, IfErr, IsTrue, MatchOption};
ghost use Rattle.edr_query.specs.declared.shapes.Shape.TheVariants as at;
ghost use Rattle.edr_select.specs.Checks.{refused_query, grid_of};
ghost use Rattle.edr_select.specs.Choices.{IsSome, parameter_places};
ghost use Rattle.edr_select.specs.Steps as steps;
ghost use Rattle.edr_select.specs.Steps.{IsAsked, IsAskedOf, IsChoice, IsFaultOf, refused_known, refused_sizes};

use crate::checks::{has_levels_asked, has_other_crs};
use crate::choices::{Choice, choose};
use crate::chosen_parameters::parameters_taken;
use crate::planning::PlanFault;
use edr_base::Refusal;
use edr_edition::{CollectionData, GridInstance};
use edr_query::Query;
use edr_wkt::Geometry;
use std::alloc::Global;

/// The places of the parameters that are asked, or the refusal of a name.
pub fn names_taken(
    alloc: Global,
    query: &Query,
    collection: &CollectionData,
    instance: &GridInstance,
) -> Result<Vec<u64>, PlanFault>
    requires { IsAskedOf collection.now query.now instance.now }
    ensures places { IfOk result (λ places. places.items ≡ parameter_places query.now.parameters instance.now.parameters) }
    ensures known { IfOk result (λ places. refused_query collection.now query.now ≡ refused_known collection.now query.now) }
    ensures refused { IfErr result (IsFaultOf (refused_query collection.now query.now)) }
{
    match parameters_taken(alloc, &query.parameters, instance.parameters())? {
        Some(places) => Ok(places),
        None => Err(PlanFault::Refused(Refusal::UnknownParameterName)),
    }
}

// Whether levels are asked of an instance without any.
fn lacks_levels(query: &Query, instance: &GridInstance) -> bool
    ensures { result ≡ steps.lacks_levels query.now instance.now }
{
    let asked = has_levels_asked(query);
    asked && instance.levels().is_none()
}

/// The refusal of a reference system or of levels, where one applies.
pub fn refused_asking(
    query: &Query,
    collection: &CollectionData,
    instance: &GridInstance,
) -> Option<Refusal>
    requires { IsAskedOf collection.now query.now instance.now }
    ensures kept { MatchOption result (refused_known collection.now query.now ≡ refused_sizes query.now (grid_of collection.now instance.now))
        (λ refusal. refused_known collection.now query.now ≡ Some refusal) }
    ensures levels { result ≡ None → steps.lacks_levels query.now instance.now ≡ false }
{
    if has_other_crs(query, collection) {
        return Some(Refusal::BadCrs);
    }
    if lacks_levels(query, instance) {
        return Some(Refusal::NoLevels);
    }
    None
}

// Whether something of each is taken.
fn is_some(choice: &Choice) -> bool
    ensures { IsTrue result ↔ IsSome choice.now }
{
    !choice.parameters.is_empty()
        && !choice.times.is_empty()
        && !choice.levels.is_empty()
        && !choice.spots.is_empty()
}

// What a position takes, or the first refusal that applies but for that of its size.
pub(crate) fn choice_of(
    alloc: Global,
    query: &Query,
    collection: &CollectionData,
    instance: &GridInstance,
    geometry: &Geometry,
) -> Result<Choice, PlanFault>
    requires asked { IsAsked collection.now query.now instance.now }
    requires shape { query.now.shape ≡ at.Position geometry.now }
    ensures choice { IfOk result (λ choice. IsChoice collection.now query.now instance.now choice) }
    ensures refused { IfErr result (IsFaultOf (refused_query collection.now query.now)) }
{
    let parameters = names_taken(alloc, query, collection, instance)?;
    if let Some(refusal) = refused_asking(query, collection, instance) {
        return Err(PlanFault::Refused(refusal));
    }
    let choice = choose(alloc, query, geometry, instance, parameters)?;
    if !is_some(&choice) {
        return Err(PlanFault::Refused(Refusal::NoSamples));
    }
    Ok(choice)
}
