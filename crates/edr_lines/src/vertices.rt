//! The vertices of a trajectory, and the nodes nearest to them.
ghost use Rattle.std.specs.Prelude.{◌≡◌, ◌<◌, ◌^◌, length, option_map, IfOk, IfSome, OnOk};
ghost use Rattle.edr_axes.specs.Axes.{IsAxis};
ghost use Rattle.edr_query.specs.Queries.{IsTaken};
ghost use Rattle.edr_query.specs.declared.addresses.QueryKind.TheVariants as kinds;
ghost use Rattle.edr_select.specs.Wanted as wanted;
ghost use Rattle.edr_wkt.specs.Geometries as geometries;
ghost use Rattle.edr_wkt.specs.Wkt.{has_z_of, has_m_of};
ghost use Rattle.edr_lines.specs.Vertices as vertices;
ghost use Rattle.edr_lines.specs.Vertices.{IsFewAlong, step_with};

use crate::corridors::line_of;
use crate::spreads::Axes;
use edr_axes::Axis;
use edr_base::{OutOfMemory, Position};
use edr_select::GridNode;
use edr_wkt::Geometry;
use std::alloc::Global;

// Whether a number is from the first to the last of the values of an axis.
fn is_along(values: &[i64], number: i64) -> bool
    requires { IsAxis values.now }
    ensures { result ≡ wanted.is_along values.now number }
{
    values[0] <= number && number <= values[values.len() - 1]
}

// The place of the value of an axis that is nearest to a number from its first to its last value, and None of another number.
fn place_along(axis: &Axis, number: i64) -> Option<u32>
    requires { length axis.now < 2 ^ 32 }
    ensures { result ≡ vertices.place_along axis.now number }
{
    if !is_along(axis.values(), number) {
        return None;
    }
    Some(axis.nearest(number) as u32)
}

// The same where the vertices have the coordinate, and else 0.
fn place_where(has: bool, axis: Option<&Axis>, number: i64) -> Option<u32>
    requires { IfSome axis (λ axis. length axis.now < 2 ^ 32) }
    ensures { result ≡ vertices.place_where has (option_map (λ axis. axis.now) axis.entry) number }
{
    if !has {
        return Some(0);
    }
    match axis {
        Some(axis) => place_along(axis, number),
        None => None,
    }
}

// The node nearest to a vertex, or None where the vertex is outside the axes.
fn step_of(axes: &Axes<'_>, has_z: bool, has_m: bool, vertex: &Position) -> Option<GridNode>
    requires { IsFewAlong axes.now }
    ensures { result ≡ vertices.step_at axes.now has_z has_m vertex.now }
{
    let y = place_along(axes.ys, vertex.y)?;
    let x = place_along(axes.xs, vertex.x)?;
    let t = place_where(has_m, Some(axes.ts), vertex.m)?;
    let z = place_where(has_z, axes.zs, vertex.z)?;
    Some(GridNode { t, z, y, x })
}

// Whether the last of some steps is a step.
fn ends_in(steps: &[GridNode], step: GridNode) -> bool
    ensures { result ≡ vertices.ends_in steps.now step }
{
    match steps.last() {
        Some(last) => *last == step,
        None => false,
    }
}

// Adds a step, unless it is the last one again.
fn add_step(steps: &mut Vec<GridNode>, step: GridNode) -> Result<(), OutOfMemory>
    ensures { OnOk result (steps.new.items ≡ step_with steps.old.items step) }
{
    if ends_in(steps, step) {
        return Ok(());
    }
    steps.push(step)?;
    Ok(())
}

// The nodes nearest to the vertices that are inside the axes, of equal neighbours one.
pub(crate) fn steps_of(
    alloc: Global,
    geometry: &Geometry,
    axes: &Axes<'_>,
) -> Result<Vec<GridNode>, OutOfMemory>
    requires line { IsTaken kinds.Trajectory geometry.now }
    requires few { IsFewAlong axes.now }
    ensures { IfOk result (λ steps. steps.items ≡ vertices.steps_of axes.now (has_z_of geometry.now) (has_m_of geometry.now) (geometries.line_of geometry.now)) }
{
    let (line, has_z, has_m) = line_of(geometry);
    let mut steps = Vec::new(alloc);
    for vertex in line {
        if let Some(step) = step_of(axes, has_z, has_m, vertex) {
            add_step(&mut steps, step)?;
        }
    }
    Ok(steps)
}
