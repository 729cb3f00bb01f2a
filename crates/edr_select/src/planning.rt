//! Plans of queries of grids.
ghost use Rattle.std.specs.Prelude.{◌≡◌, IfOk, IfErr};
ghost use Rattle.edr_select.specs.Steps.{IsAsked, IsFirstFault, IsPlanOver};

use crate::area_plans::framing_of;
use crate::plans::Reply;
use crate::position_plans::listing_of;
use edr_base::{OutOfMemory, Refusal};
use edr_edition::{CollectionData, GridInstance};
use edr_query::{Query, Shape};
use std::alloc::Global;

/// Why there is no plan.
#[derive(Clone, Copy, Debug, PartialEq, Eq)]
pub enum PlanFault {
    /// The query is refused: by the first refusal that applies, from `UnknownCollection` on.
    Refused(Refusal),
    /// Memory was wanting.
    OutOfMemory,
}

impl From<OutOfMemory> for PlanFault {
    ghost use Rattle.edr_select.specs.declared.planning.PlanFault.TheVariants as variants;

    ghost from_gives = { λ _ fault. fault ≡ variants.OutOfMemory };

    fn from(_: OutOfMemory) -> PlanFault {
        PlanFault::OutOfMemory
    }
}

impl From<Refusal> for PlanFault {
    ghost use Rattle.edr_select.specs.declared.planning.PlanFault.TheVariants as variants;

    ghost from_gives = { λ refusal fault. fault ≡ variants.Refused refusal };

    fn from(refusal: Refusal) -> PlanFault {
        PlanFault::Refused(refusal)
    }
}

/// How the values of the reply to a query are read that is asked of an instance of grids, or the first refusal that applies from
/// that of names on. It opens no chunk. The document that is planned is valid (OGC 21-069r2).
#[tactic(auto, using(crate::specs::StepLaws::plan_over, crate::specs::StepLaws::fault_first))]
pub fn reply_over_grid(
    alloc: Global,
    query: &Query,
    collection: &CollectionData,
    instance: &GridInstance,
) -> Result<Reply, PlanFault>
    requires { IsAsked collection.now query.now instance.now }
    ensures planned { IfOk result (λ reply. IsPlanOver collection.now query.now instance.now (record { query = query.now; reply = reply })) }
    ensures refused { IfErr result (IsFirstFault collection.now query.now) }
{
    match &query.shape {
        Shape::Position(geometry) => {
            let listing = listing_of(alloc, query, collection, instance, geometry)?;
            Ok(Reply::Listed(listing))
        }
        _ => {
            let framing = framing_of(alloc, query, collection, instance)?;
            Ok(Reply::Framed(framing))
        }
    }
}
