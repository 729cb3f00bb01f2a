//! Stacks of what corridors take.
ghost use Rattle.std.specs.Prelude.{◌≡◌, ◌≢◌, ℕ, ◌<◌, ◌≤◌, ◌+◌, ◌-◌, [], nat_lt, true, false, length, IfOk, IfSome, IsSome, MatchOption};
ghost use Rattle.std.specs.List.{All, filter, range_with_len, slice_index_or};
ghost use Rattle.edr_base.specs.Limits.{node_limit, IsCoordinate};
ghost use Rattle.edr_corridor.specs.Values.{needs_level};
ghost use Rattle.edr_select.specs.Limits.{value_limit};
ghost use Rattle.edr_lines.specs.Taken.{NodeTest, counts_of, NoneTaken, AreSidesOf, HasBits};
ghost use Rattle.edr_lines.specs.Boxes.{IsSpreadOf};
ghost use Rattle.edr_lines.specs.Corridors.{LiesAlong, is_asked, takes};
ghost use Rattle.edr_lines.specs.Bits.{IsSmall};
ghost use Rattle.edr_lines.specs.Plans.{IsFew, HasNodes, AreSidesOrMore, stacked_count};

use crate::corridors::Corridor;
use crate::spreads::{Axes, Extent, Spread, has_asked, no_spread, spread_of};
use crate::stack_domains::is_too_large;
use crate::stack_masks::mask_of;
use edr_base::{Items, OutOfMemory};
use edr_select::{Stack, StackSides, keep};
use std::alloc::Global;

// The places that are set.
fn places_set(alloc: Global, set: &[bool]) -> Result<Vec<u64>, OutOfMemory>
    ensures { IfOk result (λ places. places.items ≡ filter (λ k. slice_index_or set.now k false) (range_with_len 0 (length set.now))) }
{
    let mut places = Vec::new(alloc);
    for place in 0..set.len() {
        keep(&mut places, place as u64, set[place])?;
    }
    Ok(places)
}

// The sides of an extent at some times and levels.
fn sides_over(times: Vec<u64>, levels: Vec<u64>, extent: Extent) -> StackSides
    requires rows { (extent.top ≤ extent.bottom) × (extent.bottom < node_limit) }
    requires columns { (extent.left ≤ extent.right) × (extent.right < node_limit) }
    ensures { result ≡ record { times = times.items; levels = levels.items; row = extent.top; rows = extent.bottom + 1 - extent.top; column = extent.left; columns = extent.right + 1 - extent.left } }
{
    StackSides {
        times: Items::of(times),
        levels: Items::of(levels),
        row: extent.top as u32,
        rows: (extent.bottom + 1 - extent.top) as u32,
        column: extent.left as u32,
        columns: (extent.right + 1 - extent.left) as u32,
    }
}

// The sides of how far something spreads, or None where it has no nodes.
fn sides_spread(
    alloc: Global,
    axes: &Axes<'_>,
    spread: &Spread,
) -> Result<Option<StackSides>, OutOfMemory>
    requires few { IsFew axes.now }
    requires spread { (takes : NodeTest) × IsSpreadOf (counts_of axes.now) takes spread.now }
    ensures { IfOk result (λ found. (takes : NodeTest) → IsSpreadOf (counts_of axes.now) takes spread.now → MatchOption found (NoneTaken (counts_of axes.now) takes) (AreSidesOf (counts_of axes.now) takes)) }
{
    let _ = axes;
    let Some(extent) = spread.extent else {
        return Ok(None);
    };
    let times = places_set(alloc, &spread.times)?;
    let levels = places_set(alloc, &spread.levels)?;
    Ok(Some(sides_over(times, levels, extent)))
}

// Whether no time or no level is asked.
fn asks_nothing(corridor: &Corridor<'_>) -> bool
    ensures { result ≡ true → (t z : ℕ) → is_asked corridor.now t z ≡ false }
{
    let times = has_asked(&corridor.times, (0, corridor.times.len()));
    let levels = has_asked(&corridor.levels, (0, corridor.levels.len()));
    !times || !levels
}

// Whether some parameters have more values over the sides that are found than a reply may have.
fn is_above(parameters: &[u64], found: &Option<StackSides>) -> bool
    requires parameters { parameters.now ≢ [] }
    requires nodes { IfSome found.now HasNodes }
    ensures { MatchOption found.now (result ≡ false) (λ sides. result ≡ nat_lt value_limit (stacked_count parameters.now sides)) }
{
    match found {
        Some(sides) => is_too_large(parameters, sides),
        None => false,
    }
}

/// The same as `sides_taken`, unless some parameters have more values over what its first segments take than a reply may have. Then
/// it is the sides of that, and no further segment is looked at.
pub(crate) fn sides_within(
    alloc: Global,
    corridor: &Corridor<'_>,
    axes: &Axes<'_>,
    parameters: &[u64],
) -> Result<Option<StackSides>, OutOfMemory>
    requires few { IsFew axes.now }
    requires along { LiesAlong axes.now corridor.now }
    requires levels { needs_level corridor.now.segments ≡ true → IsSome axes.now.zs }
    requires ys_in { All IsCoordinate axes.now.ys }
    requires xs_in { All IsCoordinate axes.now.xs }
    requires parameters { parameters.now ≢ [] }
    ensures { IfOk result (λ found. MatchOption found (NoneTaken (counts_of axes.now) (takes corridor.now axes.now)) (AreSidesOrMore parameters.now (counts_of axes.now) (takes corridor.now axes.now))) }
{
    if asks_nothing(corridor) {
        return Ok(None);
    }
    let mut spread = no_spread(alloc, axes)?;
    for number in 0..corridor.segments.len() {
        spread.add_segment(alloc, corridor, axes, number)?;
        let found = sides_spread(alloc, axes, &spread)?;
        if is_above(parameters, &found) {
            return Ok(found);
        }
    }
    let found = sides_spread(alloc, axes, &spread)?;
    Ok(found)
}

/// The times and levels that occur in what a corridor takes, and the least box of its nodes, or None where it takes none.
pub fn sides_taken(
    alloc: Global,
    corridor: &Corridor<'_>,
    axes: &Axes<'_>,
) -> Result<Option<StackSides>, OutOfMemory>
    requires few { IsFew axes.now }
    requires along { LiesAlong axes.now corridor.now }
    requires levels { needs_level corridor.now.segments ≡ true → IsSome axes.now.zs }
    requires ys_in { All IsCoordinate axes.now.ys }
    requires xs_in { All IsCoordinate axes.now.xs }
    ensures { IfOk result (λ found. MatchOption found (NoneTaken (counts_of axes.now) (takes corridor.now axes.now)) (AreSidesOf (counts_of axes.now) (takes corridor.now axes.now))) }
{
    let spread = spread_of(alloc, corridor, axes)?;
    let found = sides_spread(alloc, axes, &spread)?;
    Ok(found)
}

/// The stack of what a corridor takes, of which the sides are known.
pub fn stack_with(
    alloc: Global,
    corridor: &Corridor<'_>,
    axes: &Axes<'_>,
    sides: StackSides,
) -> Result<Stack, OutOfMemory>
    requires along { LiesAlong axes.now corridor.now }
    requires levels { needs_level corridor.now.segments ≡ true → IsSome axes.now.zs }
    requires ys_in { All IsCoordinate axes.now.ys }
    requires xs_in { All IsCoordinate axes.now.xs }
    requires sides { AreSidesOf (counts_of axes.now) (takes corridor.now axes.now) sides }
    requires small { IsSmall sides }
    ensures sides { IfOk result (λ stack. stack.sides ≡ sides) }
    ensures bits { IfOk result (HasBits (takes corridor.now axes.now)) }
{
    let mask = mask_of(alloc, corridor, axes, &sides)?;
    Ok(Stack {
        sides,
        mask: Items::of(mask),
    })
}
