//! The levels of an instance that a query asks for.
ghost use Rattle.std.specs.Prelude.{◌≡◌, option_map, length, Some, IfOk, IfSome};
ghost use Rattle.std.specs.Ordering.{int_eq};
ghost use Rattle.std.specs.List.{filter, list_any, range_with_len};
ghost use Rattle.edr_axes.specs.Axes.{value_at, IsAscending};
ghost use Rattle.edr_select.specs.Wanted.{has_level};
ghost use Rattle.edr_select.specs.Choices.{level_places};

use crate::axis_places::{places_at, places_between};
use crate::numbers::{alone, ascending_once, keep, numbers_between};
use edr_axes::{Axis, Levels};
use edr_base::OutOfMemory;
use std::alloc::Global;

// The places of the levels of a list.
fn places_listed(alloc: Global, axis: &Axis, levels: &[i64]) -> Result<Vec<u64>, OutOfMemory>
    requires { IsAscending axis.now }
    ensures { IfOk result (λ places. places.items
        ≡ filter (λ k. list_any (int_eq (value_at axis.now k)) levels.now) (range_with_len 0 (length axis.now))) }
{
    let mut places = Vec::new(alloc);
    for level in levels {
        match axis.place_of(*level) {
            Some(place) => places.push(place as u64)?,
            None => {}
        }
    }
    Ok(ascending_once(places))
}

// Whether some levels have a level.
fn is_had(levels: &Levels, level: i64) -> bool
    ensures { result ≡ has_level levels.now level }
{
    levels.has(level)
}

// The places of the levels that some levels have.
fn places_had(alloc: Global, axis: &Axis, levels: &Levels) -> Result<Vec<u64>, OutOfMemory>
    ensures { IfOk result (λ places. places.items
        ≡ filter (λ k. has_level levels.now (value_at axis.now k)) (range_with_len 0 (length axis.now))) }
{
    let mut places = Vec::new(alloc);
    for place in 0..axis.len() {
        keep(&mut places, place as u64, is_had(levels, axis.value(place)))?;
    }
    Ok(places)
}

// The places of the levels that are asked, along an axis of levels.
fn places_along(alloc: Global, levels: &Levels, axis: &Axis) -> Result<Vec<u64>, OutOfMemory>
    requires { IsAscending axis.now }
    ensures { IfOk result (λ places. places.items ≡ level_places (Some levels.now) (Some axis.now)) }
{
    match levels {
        Levels::All => numbers_between(alloc, 0, axis.len()),
        Levels::At(only) => places_at(alloc, axis, *only),
        Levels::Between(low, high) => places_between(alloc, axis, *low, *high),
        Levels::List(these) => places_listed(alloc, axis, these.items()),
        Levels::Series { .. } => places_had(alloc, axis, levels),
    }
}

// The places of the levels that are asked, of all without any asked. Data without levels have the one place 0, unless levels are
// asked.
pub(crate) fn levels_taken(
    alloc: Global,
    levels: Option<&Levels>,
    axis: Option<&Axis>,
) -> Result<Vec<u64>, OutOfMemory>
    requires { IfSome axis (λ axis. IsAscending axis.now) }
    ensures { IfOk result (λ places. places.items
        ≡ level_places (option_map (λ levels. levels.now) levels.entry) (option_map (λ axis. axis.now) axis.entry)) }
{
    match (levels, axis) {
        (None, None) => alone(alloc, 0),
        (None, Some(axis)) => numbers_between(alloc, 0, axis.len()),
        (Some(_), None) => Ok(Vec::new(alloc)),
        (Some(levels), Some(axis)) => places_along(alloc, levels, axis),
    }
}
