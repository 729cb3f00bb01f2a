//! The coverages that are planned for a position.
ghost use Rattle.std.specs.Prelude.{◌≡◌, ◌<◌, All, map, option_map, IfOk, IfSome};
ghost use Rattle.edr_axes.specs.Axes.{axis_length, IsAxis};
ghost use Rattle.edr_select.specs.Choices.{times_of, levels_of};
ghost use Rattle.edr_select.specs.Planned as planned;
ghost use Rattle.edr_select.specs.Planned.{IsInside, IsSmall, AreAxes};
ghost use Rattle.edr_select.specs.Steps.{IsForm, planned_in};

use crate::choices::Choice;
use crate::forms::Form;
use crate::planned::{planned_along, planned_at};
use crate::plans::Planned;
use covjson_value::Referencing;
use edr_base::OutOfMemory;
use edr_edition::GridInstance;
use edr_wkt::Geometry;
use std::alloc::Global;

// The values of the levels that are taken, where there is an axis of levels.
fn level_values(
    alloc: Global,
    instance: &GridInstance,
    choice: &Choice,
) -> Result<Option<Vec<i64>>, OutOfMemory>
    requires { All (λ z. z < axis_length instance.now.zs) choice.now.levels }
    ensures { IfOk result (λ levels. option_map (λ levels. levels.items) levels ≡ levels_of instance.now choice.now) }
{
    match instance.levels() {
        None => Ok(None),
        Some(axis) => Ok(Some(axis.values_at(alloc, &choice.levels)?)),
    }
}

// What is planned for each spot, at the times and levels that are taken.
fn planned_over(
    alloc: Global,
    referencing: &Referencing,
    instance: &GridInstance,
    choice: &Choice,
    times: &[i64],
    levels: Option<&[i64]>,
) -> Result<Vec<Planned>, OutOfMemory>
    requires inside { IsInside instance.now choice.now }
    requires small { IsSmall instance.now }
    requires times { times.now ≡ times_of instance.now choice.now }
    requires levels { option_map (λ levels. levels.now) levels ≡ levels_of instance.now choice.now }
    requires time_axis { IsAxis times.now }
    requires level_axis { IfSome levels (λ levels. IsAxis levels.now) }
    ensures { IfOk result (λ coverages. coverages.items ≡ map (planned.planned_at referencing.now instance.now choice.now) choice.now.spots) }
{
    let mut coverages = Vec::new(alloc);
    for spot in &choice.spots {
        coverages.push(planned_at(alloc, referencing, instance, choice, times, levels, *spot)?)?;
    }
    Ok(coverages)
}

// What is planned for each spot.
fn planned_apart(
    alloc: Global,
    referencing: &Referencing,
    instance: &GridInstance,
    choice: &Choice,
) -> Result<Vec<Planned>, OutOfMemory>
    requires inside { IsInside instance.now choice.now }
    requires small { IsSmall instance.now }
    requires axes { AreAxes instance.now choice.now }
    ensures { IfOk result (λ coverages. coverages.items ≡ map (planned.planned_at referencing.now instance.now choice.now) choice.now.spots) }
{
    let times = instance.times().values_at(alloc, &choice.times)?;
    match level_values(alloc, instance, choice)? {
        None => planned_over(alloc, referencing, instance, choice, &times, None),
        Some(levels) => planned_over(alloc, referencing, instance, choice, &times, Some(&levels)),
    }
}

// What is planned for a form of a reply.
pub(crate) fn coverages_of(
    alloc: Global,
    referencing: &Referencing,
    instance: &GridInstance,
    geometry: &Geometry,
    choice: &Choice,
    form: Form,
) -> Result<Vec<Planned>, OutOfMemory>
    requires inside { IsInside instance.now choice.now }
    requires small { IsSmall instance.now }
    requires axes { AreAxes instance.now choice.now }
    requires form { IsForm geometry.now choice.now form }
    ensures { IfOk result (λ coverages. coverages.items ≡ planned_in referencing.now instance.now choice.now form) }
{
    match form {
        Form::AtPoint(_) => planned_apart(alloc, referencing, instance, choice),
        Form::Along(time, level) => {
            let mut coverages = Vec::new(alloc);
            coverages.push(planned_along(alloc, referencing, instance, choice, time, level)?)?;
            Ok(coverages)
        }
        Form::Apart => planned_apart(alloc, referencing, instance, choice),
    }
}
