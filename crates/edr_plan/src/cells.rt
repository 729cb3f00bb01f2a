//! The places among a station's values of some of its times and levels.
ghost use Rattle.std.specs.Prelude.{◌≡◌, ◌<◌, ◌≤◌, ◌++◌, All, Some, length, map, IfOk, OnOk};
ghost use Rattle.edr_base.specs.Limits.{node_limit};
ghost use Rattle.edr_station.specs.Stations.{values_along};
ghost use Rattle.edr_axes.specs.Axes.{axis_length};
ghost use Rattle.edr_station.specs.Blocks as blocks;
ghost use Rattle.edr_plan.specs.StationPlaces.{cell_of};
ghost use Rattle.edr_plan.specs.StationPlans.{cells_of};

use crate::station_choices::StationChoice;
use edr_base::OutOfMemory;
use edr_station::{BLOCK_LENGTH, Station};
use std::alloc::Global;

// How many levels a station has, and 1 where it has no axis of levels.
pub(crate) fn levels_in(station: &Station) -> u64
    ensures { result ≡ axis_length station.now.zs }
{
    match station.levels() {
        Some(levels) => levels.len() as u64,
        None => 1,
    }
}

// How many blocks each parameter of a station has.
pub(crate) fn blocks_of(station: &Station) -> u64
    requires { values_along station.now ≤ node_limit }
    ensures { result ≡ blocks.blocks_of station.now }
{
    let values = station.times().len() as u64 * levels_in(station);
    values.div_ceil(BLOCK_LENGTH as u64)
}

// Adds the places of a time, each level in turn.
fn push_levels(
    cells: &mut Vec<Option<u64>>,
    station: &Station,
    time: u64,
    levels: &[u64],
) -> Result<(), OutOfMemory>
    requires few { values_along station.now ≤ node_limit }
    requires time { time < length station.now.ts }
    requires levels { All (λ z. z < axis_length station.now.zs) levels.now }
    ensures { OnOk result (cells.new.items ≡ cells.old.items ++ map (λ z. Some (cell_of station.now time z)) levels.now) }
{
    let first = time * levels_in(station);
    for level in levels {
        cells.push(Some(first + *level))?;
    }
    Ok(())
}

// The places of some times and levels, in the order t, z.
pub(crate) fn cells_at(
    alloc: Global,
    station: &Station,
    choice: &StationChoice,
) -> Result<Vec<Option<u64>>, OutOfMemory>
    requires few { values_along station.now ≤ node_limit }
    requires times { All (λ t. t < length station.now.ts) choice.now.times }
    requires levels { All (λ z. z < axis_length station.now.zs) choice.now.levels }
    ensures { IfOk result (λ cells. cells.items ≡ cells_of station.now choice.now) }
{
    let mut cells = Vec::new(alloc);
    for time in &choice.times {
        push_levels(&mut cells, station, *time, &choice.levels)?;
    }
    Ok(cells)
}
