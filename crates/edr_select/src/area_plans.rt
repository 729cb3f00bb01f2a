//! Plans of queries that take the nodes of a disc, of polygons or of a box.
ghost use Rattle.std.specs.Prelude.{◌≡◌, IfOk, IfErr};
ghost use Rattle.edr_select.specs.AreaPlans.{IsFramingIn};
ghost use Rattle.edr_select.specs.Checks.{refused_query};
ghost use Rattle.edr_select.specs.Masks.{IsArea};
ghost use Rattle.edr_select.specs.Steps.{IsAsked, IsFaultOf};

use crate::frame_domains::domain_of;
use crate::frame_sizes::is_too_large;
use crate::frames::Framing;
use crate::heads::head_of;
use crate::planning::PlanFault;
use crate::taken_frames::frame_taken;
use edr_base::{Items, Refusal};
use edr_edition::{CollectionData, GridInstance};
use edr_query::Query;
use std::alloc::Global;

// The frame that the reply to such a query is read from, or the first refusal that applies from that of names on.
pub(crate) fn framing_of(
    alloc: Global,
    query: &Query,
    collection: &CollectionData,
    instance: &GridInstance,
) -> Result<Framing, PlanFault>
    requires asked { IsAsked collection.now query.now instance.now }
    requires area { IsArea query.now.shape }
    ensures framing { IfOk result (λ framing. IsFramingIn collection.now query.now instance.now framing) }
    ensures refused { IfErr result (IsFaultOf (refused_query collection.now query.now)) }
{
    let (parameters, frame) = frame_taken(alloc, query, collection, instance)?;
    if is_too_large(&parameters, &frame) {
        return Err(PlanFault::Refused(Refusal::TooLarge));
    }
    let domain = domain_of(alloc, instance, &frame)?;
    let referencing = collection.referencing();
    let head = head_of(
        alloc,
        referencing,
        instance.parameters(),
        &parameters,
        domain,
    )?;
    Ok(Framing {
        shape: instance.grid().shape(),
        parameters: Items::of(parameters),
        head,
        frame,
    })
}
