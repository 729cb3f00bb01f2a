//! The refusals of a query along a line from its names on.
ghost use Rattle.std.specs.Prelude.{◌≡◌, ◌≢◌, ◌↔◌, [], false, IsTrue, IfOk, IfErr};
ghost use Rattle.edr_select.specs.Checks.{refused_query, grid_of};
ghost use Rattle.edr_select.specs.Choices.{parameter_places};
ghost use Rattle.edr_select.specs.Steps as steps;
ghost use Rattle.edr_select.specs.Steps.{IsFaultOf, refused_sizes};
ghost use Rattle.edr_lines.specs.Asked.{IsAskedAlong};

use edr_base::Refusal;
use edr_edition::{CollectionData, GridInstance};
use edr_query::Query;
use edr_select::{PlanFault, names_taken, refused_asking};
use std::alloc::Global;

// Whether there are no numbers.
fn are_none(numbers: &[u64]) -> bool
    ensures { IsTrue result ↔ (numbers.now ≡ []) }
{
    numbers.is_empty()
}

// The places of the parameters that are asked, of which there are some, or the first refusal that applies from that of names to
// that of samples.
pub(crate) fn parameters_asked(
    alloc: Global,
    query: &Query,
    collection: &CollectionData,
    instance: &GridInstance,
) -> Result<Vec<u64>, PlanFault>
    requires { IsAskedAlong collection.now query.now instance.now }
    ensures places { IfOk result (λ places. places.items ≡ parameter_places query.now.parameters instance.now.parameters) }
    ensures some { IfOk result (λ places. places.items ≢ []) }
    ensures levels { IfOk result (λ places. steps.lacks_levels query.now instance.now ≡ false) }
    ensures known { IfOk result (λ places. refused_query collection.now query.now ≡ refused_sizes query.now (grid_of collection.now instance.now)) }
    ensures refused { IfErr result (IsFaultOf (refused_query collection.now query.now)) }
{
    let parameters = names_taken(alloc, query, collection, instance)?;
    if let Some(refusal) = refused_asking(query, collection, instance) {
        return Err(PlanFault::Refused(refusal));
    }
    if are_none(&parameters) {
        return Err(PlanFault::Refused(Refusal::NoSamples));
    }
    Ok(parameters)
}
