//! The times of an instance that a query asks for.
ghost use Rattle.std.specs.Prelude.{◌≡◌, ◌<◌, ℕ, length, Some, int_le, IfOk};
ghost use Rattle.edr_axes.specs.Axes.{value_at, IsAxis};
ghost use Rattle.edr_select.specs.Wanted.{is_from, is_until};
ghost use Rattle.edr_select.specs.Choices.{time_places};

use crate::axis_places::{places_at, places_between};
use crate::numbers::numbers_between;
use edr_axes::{Axis, Times};
use edr_base::OutOfMemory;
use std::alloc::Global;

// The first of the times from a side on: the side, or where it is open the first of all.
fn first_from(side: Option<i64>, values: &[i64]) -> i64
    requires { IsAxis values.now }
    ensures { (k : ℕ) → k < length values.now → int_le result (value_at values.now k) ≡ is_from side (value_at values.now k) }
{
    match side {
        Some(first) => first,
        None => values[0],
    }
}

// The last of the times up to a side: the side, or where it is open the last of all.
fn last_until(side: Option<i64>, values: &[i64]) -> i64
    requires { IsAxis values.now }
    ensures { (k : ℕ) → k < length values.now → int_le (value_at values.now k) result ≡ is_until side (value_at values.now k) }
{
    match side {
        Some(last) => last,
        None => values[values.len() - 1],
    }
}

// The places of the times that some times have.
fn places_of_times(alloc: Global, times: Times, axis: &Axis) -> Result<Vec<u64>, OutOfMemory>
    ensures { IfOk result (λ places. places.items ≡ time_places (Some times) axis.now) }
{
    let values = axis.values();
    match times {
        Times::All => numbers_between(alloc, 0, values.len()),
        Times::At(only) => places_at(alloc, axis, only),
        Times::Between(first, last) => places_between(
            alloc,
            axis,
            first_from(first, values),
            last_until(last, values),
        ),
    }
}

/// The places of the times that are asked, of all without any asked.
pub fn times_taken(
    alloc: Global,
    times: &Option<Times>,
    axis: &Axis,
) -> Result<Vec<u64>, OutOfMemory>
    ensures { IfOk result (λ places. places.items ≡ time_places times.now axis.now) }
{
    match times {
        None => numbers_between(alloc, 0, axis.len()),
        Some(times) => places_of_times(alloc, *times, axis),
    }
}
