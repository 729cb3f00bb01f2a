//! Axes of coverages.
ghost use Rattle.std.specs.Prelude.{◌≡◌, ◌<◌, ◌≤◌, ◌-◌, ℕ, length, map, take, drop, [], All, IfOk, Err, MatchOption, Contains, count_by, int_lt, int_le, max};
ghost use Rattle.edr_base.specs.FirstThatApplies.{IsFirstPlace};
ghost use Rattle.edr_axes.specs.Axes.{value_at, IsAscending, IsAxis, FallsAt, IsNearest, NearestIsOne, NearestIsThere, BoundsSplitAxes};

use edr_base::OutOfMemory;
use std::alloc::{AllocError, Global};
use std::marker::Model;

/// Why some values are no axis.
#[derive(Clone, Copy, PartialEq, Eq)]
pub enum AxisFault {
    /// There are none.
    Empty,
    /// The first place, from 0, whose value isn't above the one before.
    NotAscending(usize),
    /// Memory was wanting.
    OutOfMemory,
}

impl From<AllocError> for AxisFault {
    ghost use Rattle.edr_axes.specs.declared.axis.AxisFault.TheVariants.{OutOfMemory};

    ghost from_gives = { λ _ fault. fault ≡ OutOfMemory };

    fn from(_: AllocError) -> AxisFault {
        AxisFault::OutOfMemory
    }
}

/// An axis of a coverage (OGC 21-069r2, Axis objects): strictly ascending values, at least one.
///
/// They are metres, or seconds since 1970-01-01T00:00:00Z. Contracts see the list.
#[derive(Debug, Drop)]
pub struct Axis {
    values: Vec<i64>,
}

impl Model for Axis {
    ghost use Rattle.std.specs.Prelude.{ℤ, List};
    ghost use Rattle.edr_axes.specs.Axes.{IsAxis};

    ghost Value = { List ℤ };

    ghost view = { λ axis. axis.values.items };

    ghost invariant = { λ axis. IsAxis axis.values.items };
}

// The first place whose value isn't above the one before.
fn first_fall(values: &[i64]) -> Option<usize>
    ensures { MatchOption result (IsAscending values.now) (λ place. IsFirstPlace (FallsAt values.now) place) }
{
    for place in 1..values.len() {
        if values[place] <= values[place - 1] {
            return Some(place);
        }
    }
    None
}

// How many values are below a bound. They come first.
fn count_below(values: &[i64], bound: i64) -> usize
    requires { IsAscending values.now }
    ensures { result ≡ count_by (λ value. int_lt value bound) values.now }
{
    values.partition_point(|value| *value < bound)
}

// How many values are at most a bound. They come first.
fn count_to(values: &[i64], bound: i64) -> usize
    requires { IsAscending values.now }
    ensures { result ≡ count_by (λ value. int_le value bound) values.now }
{
    values.partition_point(|value| *value <= bound)
}

// The place of a value, or `None` where there is no such value.
fn place_in(values: &[i64], value: i64) -> Option<usize>
    requires { IsAscending values.now }
    ensures { MatchOption result (¬ (Contains values.now value))
        (λ place. (place < length values.now) × (value_at values.now place ≡ value)) }
{
    let place = count_below(values, value);
    if place < values.len() && values[place] == value {
        Some(place)
    } else {
        None
    }
}

// The place of the value with the least distance to `c`, the lower of two.
fn nearest_in(values: &[i64], c: i64) -> usize
    requires { IsAxis values.now }
    ensures { IsNearest values.now c result }
{
    let place = count_below(values, c);
    if place == 0 {
        return 0;
    }
    if place == values.len() {
        return place - 1;
    }
    if values[place].abs_diff(c) < values[place - 1].abs_diff(c) {
        place
    } else {
        place - 1
    }
}

impl Axis {
    /// The axis of these values, or the first fault.
    pub fn of(alloc: Global, values: &[i64]) -> Result<Axis, AxisFault>
        ensures ok { IfOk result (λ axis. (axis ≡ values.now) × IsAxis values.now) }
        ensures empty { result ≡ Err AxisFault.Empty → values.now ≡ [] }
        ensures not_ascending { (place : ℕ) → result ≡ Err (AxisFault.NotAscending place) → IsFirstPlace (FallsAt values.now) place }
    {
        if values.is_empty() {
            return Err(AxisFault::Empty);
        }
        if let Some(place) = first_fall(values) {
            return Err(AxisFault::NotAscending(place));
        }
        let values = Vec::from_slice(alloc, values)?;
        Ok(Axis { values })
    }

    /// The axis of values that are one, or want of memory.
    pub fn over(alloc: Global, values: &[i64]) -> Result<Axis, OutOfMemory>
        requires { IsAxis values.now }
        ensures { IfOk result (λ axis. axis ≡ values.now) }
    {
        Ok(Axis {
            values: Vec::from_slice(alloc, values)?,
        })
    }

    /// An equal axis, or want of memory.
    pub fn copy(&self, alloc: Global) -> Result<Axis, OutOfMemory>
        ensures { IfOk result (λ axis. axis ≡ self.now) }
    {
        Axis::over(alloc, &self.values)
    }

    /// The axis of its values from one place to before another, or want of memory.
    pub fn part(&self, alloc: Global, from: usize, end: usize) -> Result<Axis, OutOfMemory>
        requires some { from < end }
        requires inside { end ≤ length self.now }
        ensures { IfOk result (λ part. part ≡ take (end - from) (drop from self.now)) }
    {
        Axis::over(alloc, &self.values[from..end])
    }

    /// How many values it has.
    pub fn len(&self) -> usize
        ensures { (result ≡ length self.now) × (0 < result) }
    {
        self.values.len()
    }

    /// Its values.
    pub fn values(&self) -> &[i64]
        ensures same { result.now ≡ self.now }
        ensures axis { IsAxis self.now }
    {
        &self.values
    }

    /// The value at a place, from 0.
    pub fn value(&self, place: usize) -> i64
        requires { place < length self.now }
        ensures { result ≡ value_at self.now place }
    {
        self.values[place]
    }

    /// The values at some places, each from 0, or want of memory.
    pub fn values_at(&self, alloc: Global, places: &[u64]) -> Result<Vec<i64>, OutOfMemory>
        requires { All (λ place. place < length self.now) places.now }
        ensures { IfOk result (λ values. values.items ≡ map (value_at self.now) places.now) }
    {
        let mut values = Vec::new(alloc);
        for place in places {
            values.push(self.value(*place as usize))?;
        }
        Ok(values)
    }

    /// The place of a value, from 0, or `None` where it isn't on the axis. It takes no memory.
    pub fn place_of(&self, value: i64) -> Option<usize>
        ensures { MatchOption result (¬ (Contains self.now value))
            (λ place. (place < length self.now) × (value_at self.now place ≡ value)) }
    {
        place_in(&self.values, value)
    }

    /// The place, from 0, of the value with the least distance to `c`, the lower of two. It takes no memory.
    pub fn nearest(&self, c: i64) -> usize
        ensures { IsNearest self.now c result }
    {
        nearest_in(&self.values, c)
    }

    /// The places, from 0, of the values from `lo` to `hi`, both included: the first one, and the one after the last.
    ///
    /// The first is how many values are below `lo`. The second is how many are at most `hi`, or the first where
    /// that is greater, so the two are equal where no value lies there. It takes no memory.
    pub fn range(&self, lo: i64, hi: i64) -> (usize, usize)
        ensures first { result.0 ≡ count_by (λ value. int_lt value lo) self.now }
        ensures end { result.1 ≡ max result.0 (count_by (λ value. int_le value hi) self.now) }
    {
        let first = count_below(&self.values, lo);
        (first, first.max(count_to(&self.values, hi)))
    }
}

/// Each axis has a place that is nearest to a number, and no second.
pub fn nearest_is_one()
    ensures there { NearestIsThere }
    ensures one { NearestIsOne }
{}

/// Of ascending values those below a bound stand first, as many as are counted, and so do those that are at most it.
pub fn bounds_split_axes()
    ensures { BoundsSplitAxes }
{}
