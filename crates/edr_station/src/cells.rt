//! The cells of the plane that stations stand in.
ghost use Rattle.std.specs.Prelude.{◌<◌, length, IfOk};
ghost use Rattle.std.specs.Arc.{arc_value};
ghost use Rattle.edr_ids.specs.Ids.{AscendBy, with_item, without_id};
ghost use Rattle.edr_station.specs.Stations.{station_id, station_at};
ghost use Rattle.edr_station.specs.Nearest.{HaveThese};
ghost use Rattle.edr_station.specs.Places.{IsSpanOf};

use crate::shelves::Shelf;
use crate::station::Station;
use edr_base::OutOfMemory;
use edr_ids::items_are_by_id;
use edr_near::Cells;
use std::alloc::Global;
use std::sync::Arc;

/// The cells without the station at a place among those that stand in them.
pub fn cells_without(
    alloc: Global,
    cells: &Cells<Station>,
    shelf: &Shelf,
    place: usize,
) -> Result<Cells<Station>, OutOfMemory>
    requires have { HaveThese cells.now shelf.now }
    requires ascending { AscendBy station_id shelf.now }
    requires inside { place < length shelf.now }
    ensures { IfOk result (λ left. HaveThese left (without_id station_id (station_at shelf.now place).id shelf.now)) }
{
    items_are_by_id::<Station>();
    let station = shelf.at(place);
    let mut left = cells.share()?;
    left.take_out(alloc, station.id(), station.spot())?;
    Ok(left)
}

/// The cells with a station more, instead of that from one place up to another where there is one.
pub fn cells_with(
    alloc: Global,
    cells: &Cells<Station>,
    shelf: &Shelf,
    place: usize,
    end: usize,
    station: &Arc<Station>,
) -> Result<Cells<Station>, OutOfMemory>
    requires have { HaveThese cells.now shelf.now }
    requires ascending { AscendBy station_id shelf.now }
    requires span { IsSpanOf (arc_value station.now).id shelf.now place end }
    ensures { IfOk result (λ more. HaveThese more (with_item station_id (arc_value station.now) shelf.now)) }
{
    items_are_by_id::<Station>();
    let mut more = if place < end {
        cells_without(alloc, cells, shelf, place)?
    } else {
        cells.share()?
    };
    more.put(alloc, station)?;
    Ok(more)
}
