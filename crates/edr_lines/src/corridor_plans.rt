//! Plans of the replies to queries along corridors.
ghost use Rattle.std.specs.Prelude.{◌≡◌, IfOk, IfErr};
ghost use Rattle.edr_query.specs.declared.shapes.Shape.TheVariants as at;
ghost use Rattle.edr_select.specs.declared.plans.Reply.TheVariants.{Stacked};
ghost use Rattle.edr_select.specs.Checks.{refused_query};
ghost use Rattle.edr_select.specs.Steps.{IsFaultOf, IsPlanIn};
ghost use Rattle.edr_lines.specs.Asked.{IsAskedAlong};

use crate::corridors::{corridor_of, segments_of};
use crate::spreads::Axes;
use crate::stack_domains::{domain_of, is_too_large};
use crate::stacks_taken::{sides_within, stack_with};
use crate::steps::parameters_asked;
use edr_base::{Items, Refusal};
use edr_corridor::corridors_are_cut;
use edr_edition::{CollectionData, GridInstance};
use edr_query::Query;
use edr_select::{PlanFault, Stacking, head_of};
use edr_wkt::Geometry;
use std::alloc::Global;

// The stack that the reply to a corridor is read from, or the first refusal that applies from that of names on.
pub(crate) fn stacking_of(
    alloc: Global,
    query: &Query,
    collection: &CollectionData,
    instance: &GridInstance,
    geometry: &Geometry,
    width: i64,
    height: Option<i64>,
) -> Result<Stacking, PlanFault>
    requires asked { IsAskedAlong collection.now query.now instance.now }
    requires shape { query.now.shape ≡ at.Corridor geometry.now width height }
    ensures planned { IfOk result (λ stacking. IsPlanIn collection.now query.now instance.now (record { query = query.now; reply = Stacked stacking })) }
    ensures refused { IfErr result (IsFaultOf (refused_query collection.now query.now)) }
{
    corridors_are_cut();
    let parameters = parameters_asked(alloc, query, collection, instance)?;
    let axes = Axes::of_grid(instance);
    let segments = segments_of(alloc, query, geometry, width, height)?;
    let corridor = corridor_of(alloc, query, geometry, width, height, &segments, &axes)?;
    let Some(sides) = sides_within(alloc, &corridor, &axes, &parameters)? else {
        return Err(PlanFault::Refused(Refusal::NoSamples));
    };
    if is_too_large(&parameters, &sides) {
        return Err(PlanFault::Refused(Refusal::TooLarge));
    }
    let domain = domain_of(alloc, instance, &sides)?;
    let stack = stack_with(alloc, &corridor, &axes, sides)?;
    let head = head_of(
        alloc,
        collection.referencing(),
        instance.parameters(),
        &parameters,
        domain,
    )?;
    Ok(Stacking {
        shape: instance.grid().shape(),
        parameters: Items::of(parameters),
        head,
        stack,
    })
}
