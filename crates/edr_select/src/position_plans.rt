//! Plans of queries that take the nodes nearest to points.
ghost use Rattle.std.specs.Prelude.{◌≡◌, IfOk, IfErr};
ghost use Rattle.edr_query.specs.declared.shapes.Shape.TheVariants as at;
ghost use Rattle.edr_select.specs.declared.plans.Reply.TheVariants.{Listed};
ghost use Rattle.edr_select.specs.Checks.{refused_query};
ghost use Rattle.edr_select.specs.Steps.{IsAsked, IsFaultOf, IsPlanIn};

use crate::forms::form_of;
use crate::planning::PlanFault;
use crate::plans::Listing;
use crate::reply_coverages::coverages_of;
use crate::sizes::is_too_large;
use crate::steps::choice_of;
use edr_base::{Items, Refusal};
use edr_edition::{CollectionData, GridInstance};
use edr_query::Query;
use edr_wkt::Geometry;
use std::alloc::Global;

// The list that the reply to a position is read from, or the first refusal that applies from that of names on.
pub(crate) fn listing_of(
    alloc: Global,
    query: &Query,
    collection: &CollectionData,
    instance: &GridInstance,
    geometry: &Geometry,
) -> Result<Listing, PlanFault>
    requires asked { IsAsked collection.now query.now instance.now }
    requires shape { query.now.shape ≡ at.Position geometry.now }
    ensures planned { IfOk result (λ listing. IsPlanIn collection.now query.now instance.now (record { query = query.now; reply = Listed listing })) }
    ensures refused { IfErr result (IsFaultOf (refused_query collection.now query.now)) }
{
    let choice = choice_of(alloc, query, collection, instance, geometry)?;
    let form = form_of(geometry, &choice);
    if is_too_large(&choice, form) {
        return Err(PlanFault::Refused(Refusal::TooLarge));
    }
    let referencing = collection.referencing();
    let coverages = coverages_of(alloc, referencing, instance, geometry, &choice, form)?;
    Ok(Listing {
        shape: instance.grid().shape(),
        parameters: Items::of(choice.parameters),
        many: form.is_many(),
        coverages: Items::of(coverages),
    })
}
