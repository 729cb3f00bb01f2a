//! The domains of frames.
ghost use Rattle.std.specs.Prelude.{◌≡◌, ◌≢◌, ◌+◌, ◌<◌, ◌≤◌, [], All, length, map, option_map, IfOk};
ghost use Rattle.std.specs.List.{range_with_len};
ghost use Rattle.edr_axes.specs.Axes.{value_at, IsAscending, axis_length};
ghost use Rattle.edr_edition.specs.Instances.{HasGrid};
ghost use Rattle.edr_select.specs.AreaPlans.{HasNodes, domain_over};
ghost use Rattle.edr_select.specs.Listings.{NumbersRise};
ghost use Rattle.edr_select.specs.Framings.{IsFrame};

use crate::frames::Frame;
use crate::numbers::numbers_between;
use covjson_value::Domain;
use edr_axes::Axis;
use edr_base::OutOfMemory;
use edr_edition::GridInstance;
use std::alloc::Global;

/// The axis of an axis's values at some places.
pub fn axis_at(alloc: Global, axis: &Axis, places: &[u64]) -> Result<Axis, OutOfMemory>
    requires ascending { IsAscending axis.now }
    requires inside { All (λ place. place < length axis.now) places.now }
    requires rise { NumbersRise places.now }
    requires some { places.now ≢ [] }
    ensures { IfOk result (λ part. part ≡ map (value_at axis.now) places.now) }
{
    let values = axis.values_at(alloc, places)?;
    Axis::over(alloc, &values)
}

/// The axis of so many of an axis's values from one on.
pub fn axis_from(alloc: Global, axis: &Axis, first: u32, many: u32) -> Result<Axis, OutOfMemory>
    requires ascending { IsAscending axis.now }
    requires inside { first + many ≤ length axis.now }
    requires some { 1 ≤ many }
    ensures { IfOk result (λ part. part ≡ map (value_at axis.now) (range_with_len first many)) }
{
    let first = first as usize;
    let places = numbers_between(alloc, first, first + many as usize)?;
    axis_at(alloc, axis, &places)
}

/// The axis of the levels at some places, where there is an axis of levels.
pub fn levels_at(
    alloc: Global,
    instance: &GridInstance,
    places: &[u64],
) -> Result<Option<Axis>, OutOfMemory>
    requires grid { HasGrid instance.now }
    requires inside { All (λ z. z < axis_length instance.now.zs) places.now }
    requires rise { NumbersRise places.now }
    requires some { places.now ≢ [] }
    ensures { IfOk result (λ levels. levels ≡ option_map (λ zs. map (value_at zs) places.now) instance.now.zs) }
{
    match instance.levels() {
        None => Ok(None),
        Some(axis) => Ok(Some(axis_at(alloc, axis, places)?)),
    }
}

// The times, the levels and the rows and columns of a frame (OGC 21-069r2, domain type Grid).
pub(crate) fn domain_of(
    alloc: Global,
    instance: &GridInstance,
    frame: &Frame,
) -> Result<Domain, OutOfMemory>
    requires grid { HasGrid instance.now }
    requires frame { IsFrame instance.now.grid.shape frame.now }
    requires nodes { HasNodes frame.now }
    ensures { IfOk result (λ domain. domain ≡ domain_over instance.now frame.now) }
{
    let t = axis_at(alloc, instance.times(), frame.times.items())?;
    let z = levels_at(alloc, instance, frame.levels.items())?;
    let y = axis_from(alloc, instance.ys(), frame.row, frame.rows)?;
    let x = axis_from(alloc, instance.xs(), frame.column, frame.columns)?;
    Ok(Domain::Grid {
        t: Some(t),
        z,
        y,
        x,
    })
}
