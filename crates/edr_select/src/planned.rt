//! What is planned for the places that a position takes.
ghost use Rattle.std.specs.Prelude.{◌≡◌, ◌<◌, ◌*◌, All, length, map, option_map, IfOk, IfSome};
ghost use Rattle.edr_axes.specs.Axes.{IsAxis, axis_length, value_at};
ghost use Rattle.edr_select.specs.Heads.{position_at};
ghost use Rattle.edr_select.specs.Choices.{spot_of, times_of, levels_of};
ghost use Rattle.edr_corridor.specs.Boxes.{level_at};
ghost use Rattle.edr_select.specs.Planned as planned;
ghost use Rattle.edr_select.specs.Planned.{IsInside, IsSmall};

use crate::cells::{cells_along, cells_at};
use crate::choices::Choice;
use crate::heads::head_of;
use crate::plans::Planned;
use crate::point_domains::domain_at;
use covjson_value::{Domain, Referencing};
use edr_base::{Items, OutOfMemory, Position};
use edr_edition::GridInstance;
use std::alloc::Global;

// The position of a spot at a level.
fn position_of(instance: &GridInstance, spot: u64, z: i64) -> Position
    requires { spot < length instance.now.ys * length instance.now.xs }
    ensures { result ≡ position_at z (spot_of instance.now spot) }
{
    let columns = instance.xs().len() as u64;
    let (row, column) = (spot / columns, spot % columns);
    Position {
        x: instance.xs().value(column as usize),
        y: instance.ys().value(row as usize),
        z,
        m: 0,
    }
}

// The positions of some spots at a level.
fn positions_of(
    alloc: Global,
    instance: &GridInstance,
    spots: &[u64],
    z: i64,
) -> Result<Vec<Position>, OutOfMemory>
    requires { All (λ spot. spot < length instance.now.ys * length instance.now.xs) spots.now }
    ensures { IfOk result (λ positions. positions.items ≡ map (position_at z) (map (spot_of instance.now) spots.now)) }
{
    let mut positions = Vec::new(alloc);
    for spot in spots {
        positions.push(position_of(instance, *spot, z))?;
    }
    Ok(positions)
}

// The domain of some spots, at one time and at most one level.
fn points_domain(
    alloc: Global,
    instance: &GridInstance,
    spots: &[u64],
    t: u64,
    z: u64,
) -> Result<Domain, OutOfMemory>
    requires t { t < length instance.now.ts }
    requires z { z < axis_length instance.now.zs }
    requires spots { All (λ spot. spot < length instance.now.ys * length instance.now.xs) spots.now }
    ensures { IfOk result (λ domain. domain ≡ planned.points_domain (value_at instance.now.ts t) (level_at instance.now.zs z) (map (spot_of instance.now) spots.now)) }
{
    let t = Some(instance.times().value(t as usize));
    match instance.levels() {
        None => Ok(Domain::MultiPoint {
            t,
            has_z: false,
            spots: Items::of(positions_of(alloc, instance, spots, 0)?),
        }),
        Some(levels) => Ok(Domain::MultiPoint {
            t,
            has_z: true,
            spots: Items::of(positions_of(alloc, instance, spots, levels.value(z as usize))?),
        }),
    }
}

// What is planned for all spots, at one time and level.
pub(crate) fn planned_along(
    alloc: Global,
    referencing: &Referencing,
    instance: &GridInstance,
    choice: &Choice,
    t: u64,
    z: u64,
) -> Result<Planned, OutOfMemory>
    requires inside { IsInside instance.now choice.now }
    requires small { IsSmall instance.now }
    requires t { t < length instance.now.ts }
    requires z { z < axis_length instance.now.zs }
    ensures { IfOk result (λ p. p ≡ planned.planned_along referencing.now instance.now choice.now t z) }
{
    let domain = points_domain(alloc, instance, &choice.spots, t, z)?;
    let head = head_of(
        alloc,
        referencing,
        instance.parameters(),
        &choice.parameters,
        domain,
    )?;
    let cells = cells_along(alloc, instance.xs(), choice, t, z)?;
    Ok(Planned {
        head,
        cells: Items::of(cells),
    })
}

// What is planned for one spot, at each time and level.
pub(crate) fn planned_at(
    alloc: Global,
    referencing: &Referencing,
    instance: &GridInstance,
    choice: &Choice,
    times: &[i64],
    levels: Option<&[i64]>,
    spot: u64,
) -> Result<Planned, OutOfMemory>
    requires inside { IsInside instance.now choice.now }
    requires small { IsSmall instance.now }
    requires times { times.now ≡ times_of instance.now choice.now }
    requires levels { option_map (λ levels. levels.now) levels ≡ levels_of instance.now choice.now }
    requires time_axis { IsAxis times.now }
    requires level_axis { IfSome levels (λ levels. IsAxis levels.now) }
    requires spot { spot < length instance.now.ys * length instance.now.xs }
    ensures { IfOk result (λ p. p ≡ planned.planned_at referencing.now instance.now choice.now spot) }
{
    let at = position_of(instance, spot, 0);
    let domain = domain_at(alloc, times, levels, at.y, at.x)?;
    let head = head_of(
        alloc,
        referencing,
        instance.parameters(),
        &choice.parameters,
        domain,
    )?;
    let cells = cells_at(alloc, instance.xs(), choice, spot)?;
    Ok(Planned {
        head,
        cells: Items::of(cells),
    })
}
