//! Plans of queries of grids along lines.
ghost use Rattle.std.specs.Prelude.{IfOk, IfErr};
ghost use Rattle.edr_select.specs.Steps.{IsFirstFault, IsPlanOver};
ghost use Rattle.edr_lines.specs.Asked.{IsAskedAlong};

use crate::corridor_plans::stacking_of;
use crate::trajectory_plans::listing_of;
use edr_edition::{CollectionData, GridInstance};
use edr_query::{Query, Shape};
use edr_select::{PlanFault, Reply};
use std::alloc::Global;

/// How the values of the reply to a query along a line are read that is asked of an instance of grids, or the first refusal that
/// applies from that of names on. It opens no chunk. The document that is planned is valid (OGC 21-069r2).
#[tactic(auto, using(edr_select::specs::StepLaws::plan_over, edr_select::specs::StepLaws::fault_first))]
pub fn reply_along_line(
    alloc: Global,
    query: &Query,
    collection: &CollectionData,
    instance: &GridInstance,
) -> Result<Reply, PlanFault>
    requires { IsAskedAlong collection.now query.now instance.now }
    ensures planned { IfOk result (λ reply. IsPlanOver collection.now query.now instance.now (record { query = query.now; reply = reply })) }
    ensures refused { IfErr result (IsFirstFault collection.now query.now) }
{
    match &query.shape {
        Shape::Trajectory(geometry) => {
            let listing = listing_of(alloc, query, collection, instance, geometry)?;
            Ok(Reply::Listed(listing))
        }
        Shape::Corridor {
            geometry,
            width,
            height,
        } => {
            let stacking = stacking_of(
                alloc, query, collection, instance, geometry, *width, *height,
            )?;
            Ok(Reply::Stacked(stacking))
        }
        _ => unreachable!(),
    }
}
