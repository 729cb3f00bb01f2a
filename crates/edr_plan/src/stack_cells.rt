//! The places among a station's values that a stack takes, and none where it doesn't take one.
ghost use Rattle.std.specs.Prelude.{◌≡◌, ◌+◌, ◌<◌, ◌≤◌, ◌^◌, ◌++◌, All, length, IfOk, OnOk};
ghost use Rattle.edr_base.specs.Limits.{node_limit};
ghost use Rattle.edr_station.specs.Stations.{values_along};
ghost use Rattle.edr_axes.specs.Axes.{axis_length};
ghost use Rattle.edr_plan.specs.StationPlaces as places;
ghost use Rattle.edr_plan.specs.CorridorPlans.{cells_at, cells_in, IsFull};

use crate::cells::levels_in;
use edr_base::OutOfMemory;
use edr_select::Stack;
use edr_station::Station;
use std::alloc::Global;

// The place of a value, or None where it isn't taken.
fn cell_if(taken: bool, cell: u64) -> Option<u64>
    ensures { result ≡ places.cell_if taken cell }
{
    if taken { Some(cell) } else { None }
}

// Adds the place of each level of a time, the first of which is told, or None where it isn't taken.
fn push_levels(
    cells: &mut Vec<Option<u64>>,
    first: u64,
    levels: &[u64],
    taken: &[bool],
) -> Result<(), OutOfMemory>
    requires fits { All (λ z. first + z < 2 ^ 64) levels.now }
    requires full { length taken.now ≡ length levels.now }
    ensures { OnOk result (cells.new.items ≡ cells.old.items ++ cells_at first levels.now taken.now) }
{
    for at in 0..levels.len() {
        cells.push(cell_if(taken[at], first + levels[at]))?;
    }
    Ok(())
}

// The places of a station's values of a parameter that a stack of one row and one column takes, in the order t, z, and None for
// each that it doesn't take.
pub(crate) fn cells_of(
    alloc: Global,
    station: &Station,
    stack: &Stack,
) -> Result<Vec<Option<u64>>, OutOfMemory>
    requires few { values_along station.now ≤ node_limit }
    requires times { All (λ t. t < length station.now.ts) stack.now.sides.times }
    requires levels { All (λ z. z < axis_length station.now.zs) stack.now.sides.levels }
    requires full { IsFull stack.now }
    ensures { IfOk result (λ cells. cells.items ≡ cells_in station.now stack.now) }
{
    let times = stack.sides.times.items();
    let levels = stack.sides.levels.items();
    let taken = stack.mask.items();
    let along = levels_in(station);
    let mut cells = Vec::new(alloc);
    for at in 0..times.len() {
        let from = at * levels.len();
        push_levels(
            &mut cells,
            times[at] * along,
            levels,
            &taken[from..from + levels.len()],
        )?;
    }
    Ok(cells)
}
