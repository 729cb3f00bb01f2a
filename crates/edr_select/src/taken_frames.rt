//! Frames of what queries take.
ghost use Rattle.std.specs.Prelude.{◌≡◌, ◌↔◌, IfOk, IfErr, IsTrue, MatchOption};
ghost use Rattle.edr_edition.specs.Instances.{HasGrid};
ghost use Rattle.edr_query.specs.Queries.{IsShape};
ghost use Rattle.edr_select.specs.AreaPlans.{IsFramed, TakesSome};
ghost use Rattle.edr_select.specs.Checks.{refused_query};
ghost use Rattle.edr_select.specs.Masks.{IsArea, IsMask, NoneTaken, frame_at};
ghost use Rattle.edr_select.specs.Steps.{IsAsked, IsFaultOf};

use crate::choices::levels_of_query;
use crate::chosen_times::times_taken;
use crate::frames::Frame;
use crate::masks::{Mask, mask_of};
use crate::planning::PlanFault;
use crate::steps::{names_taken, refused_asking};
use edr_base::{Items, OutOfMemory, Refusal};
use edr_edition::{CollectionData, GridInstance};
use edr_query::Query;
use std::alloc::Global;

// Whether some parameters are taken, at some times and levels.
fn takes_some(parameters: &[u64], times: &[u64], levels: &[u64]) -> bool
    ensures { IsTrue result ↔ TakesSome parameters.now times.now levels.now }
{
    !parameters.is_empty() && !times.is_empty() && !levels.is_empty()
}

// The nodes of a plane that a query takes, or None where it takes none.
fn mask_taken(
    alloc: Global,
    query: &Query,
    instance: &GridInstance,
) -> Result<Option<Mask>, OutOfMemory>
    requires instance { HasGrid instance.now }
    requires area { IsArea query.now.shape }
    requires shape { IsShape query.now.shape }
    ensures { IfOk result (λ found. MatchOption found (NoneTaken instance.now query.now.shape) (λ mask. IsMask instance.now query.now.shape mask)) }
{
    mask_of(alloc, instance, &query.shape)
}

// The frame of some times and levels, and of a mask.
fn frame_over(times: Vec<u64>, levels: Vec<u64>, mask: Mask) -> Frame
    ensures { result ≡ frame_at times.items levels.items mask }
{
    Frame {
        times: Items::of(times),
        levels: Items::of(levels),
        row: mask.row,
        rows: mask.rows,
        column: mask.column,
        columns: mask.columns,
        left: mask.left,
        width: mask.width,
        mask: Items::of(mask.bits),
    }
}

// The parameters and the frame that a query takes, or the first refusal that applies but for that of its size. Nodes are looked at
// where some parameters are taken at some times and levels.
pub(crate) fn frame_taken(
    alloc: Global,
    query: &Query,
    collection: &CollectionData,
    instance: &GridInstance,
) -> Result<(Vec<u64>, Frame), PlanFault>
    requires asked { IsAsked collection.now query.now instance.now }
    requires area { IsArea query.now.shape }
    ensures taken { IfOk result (λ taken. IsFramed collection.now query.now instance.now taken.0.items taken.1) }
    ensures refused { IfErr result (IsFaultOf (refused_query collection.now query.now)) }
{
    let parameters = names_taken(alloc, query, collection, instance)?;
    if let Some(refusal) = refused_asking(query, collection, instance) {
        return Err(PlanFault::Refused(refusal));
    }
    let times = times_taken(alloc, &query.times, instance.times())?;
    let levels = levels_of_query(alloc, query, instance.levels())?;
    if !takes_some(&parameters, &times, &levels) {
        return Err(PlanFault::Refused(Refusal::NoSamples));
    }
    let Some(mask) = mask_taken(alloc, query, instance)? else {
        return Err(PlanFault::Refused(Refusal::NoSamples));
    };
    Ok((parameters, frame_over(times, levels, mask)))
}
