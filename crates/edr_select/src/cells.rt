//! The nodes of a grid that the values of a coverage are read from.
ghost use Rattle.std.specs.Prelude.{◌≡◌, ◌<◌, ◌++◌, ◌^◌, All, length, map, IfOk, OnOk};
ghost use Rattle.edr_select.specs.Choices as choices;
ghost use Rattle.edr_select.specs.Choices.{node_of};

use crate::choices::Choice;
use crate::plans::GridNode;
use edr_axes::Axis;
use edr_base::OutOfMemory;
use std::alloc::Global;

// The node of a spot at a time and a level.
fn node_at(xs: &Axis, spot: u64, t: u64, z: u64) -> GridNode
    requires spot { spot < 2 ^ 32 }
    requires t { t < 2 ^ 32 }
    requires z { z < 2 ^ 32 }
    ensures { result ≡ node_of xs.now spot t z }
{
    let columns = xs.len() as u64;
    GridNode {
        t: t as u32,
        z: z as u32,
        y: (spot / columns) as u32,
        x: (spot % columns) as u32,
    }
}

// Adds the nodes of a spot at one time, each level in turn.
fn push_levels(
    cells: &mut Vec<GridNode>,
    xs: &Axis,
    spot: u64,
    t: u64,
    levels: &[u64],
) -> Result<(), OutOfMemory>
    requires spot { spot < 2 ^ 32 }
    requires t { t < 2 ^ 32 }
    requires levels { All (λ z. z < 2 ^ 32) levels.now }
    ensures { OnOk result (cells.new.items ≡ cells.old.items ++ map (node_of xs.now spot t) levels.now) }
{
    for level in levels {
        cells.push(node_at(xs, spot, t, *level))?;
    }
    Ok(())
}

// The nodes of a spot, at each time and level in turn.
pub(crate) fn cells_at(
    alloc: Global,
    xs: &Axis,
    choice: &Choice,
    spot: u64,
) -> Result<Vec<GridNode>, OutOfMemory>
    requires spot { spot < 2 ^ 32 }
    requires times { All (λ t. t < 2 ^ 32) choice.now.times }
    requires levels { All (λ z. z < 2 ^ 32) choice.now.levels }
    ensures { IfOk result (λ cells. cells.items ≡ choices.cells_at xs.now choice.now spot) }
{
    let mut cells = Vec::new(alloc);
    for time in &choice.times {
        push_levels(&mut cells, xs, spot, *time, &choice.levels)?;
    }
    Ok(cells)
}

// The nodes of each spot in turn, at one time and level.
pub(crate) fn cells_along(
    alloc: Global,
    xs: &Axis,
    choice: &Choice,
    t: u64,
    z: u64,
) -> Result<Vec<GridNode>, OutOfMemory>
    requires t { t < 2 ^ 32 }
    requires z { z < 2 ^ 32 }
    requires spots { All (λ spot. spot < 2 ^ 32) choice.now.spots }
    ensures { IfOk result (λ cells. cells.items ≡ choices.cells_along xs.now choice.now t z) }
{
    let mut cells = Vec::new(alloc);
    for spot in &choice.spots {
        cells.push(node_at(xs, *spot, t, z))?;
    }
    Ok(cells)
}
