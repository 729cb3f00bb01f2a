//! The places of the values of an axis between two values.
ghost use Rattle.std.specs.Prelude.{◌≡◌, ◌&&◌, length, int_le, IfOk};
ghost use Rattle.std.specs.Ordering.{int_eq};
ghost use Rattle.std.specs.List.{filter, range_with_len};
ghost use Rattle.edr_axes.specs.Axes.{value_at, IsAscending};

use crate::numbers::{alone, numbers_between};
use edr_axes::Axis;
use edr_base::OutOfMemory;
use std::alloc::Global;

// The place of a value, where the axis has it.
pub(crate) fn places_at(alloc: Global, axis: &Axis, only: i64) -> Result<Vec<u64>, OutOfMemory>
    requires { IsAscending axis.now }
    ensures { IfOk result (λ places. places.items ≡ filter (λ k. int_eq (value_at axis.now k) only) (range_with_len 0 (length axis.now))) }
{
    match axis.place_of(only) {
        Some(place) => alone(alloc, place as u64),
        None => Ok(Vec::new(alloc)),
    }
}

// The places of the values from one to another, both included.
pub(crate) fn places_between(
    alloc: Global,
    axis: &Axis,
    low: i64,
    high: i64,
) -> Result<Vec<u64>, OutOfMemory>
    requires { IsAscending axis.now }
    ensures { IfOk result (λ places. places.items
        ≡ filter (λ k. int_le low (value_at axis.now k) && int_le (value_at axis.now k) high) (range_with_len 0 (length axis.now))) }
{
    let (first, end) = axis.range(low, high);
    numbers_between(alloc, first, end)
}
