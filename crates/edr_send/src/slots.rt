//! Slots of values: where each is read, and where it goes.
ghost use Rattle.std.specs.Prelude.{◌≡◌, ◌<◌, ◌^◌, [], All, OnOk};
ghost use Rattle.edr_chunk.specs.Places.{Within, IsShape, count};
ghost use Rattle.edr_chunk.specs.Tiles.{tiles_along, tile_of};
ghost use Rattle.edr_select.specs.Listings.{place_at, IsPlanned, IsListing};
ghost use Rattle.edr_send.specs.Filling.{SlotsGrew};
ghost use Rattle.edr_send.specs.Gathered.{places_of_range, places_of_coverage, places_of_coverages, AreStarts};

use edr_base::OutOfMemory;
use edr_chunk::{GridPlace, GridShape, TILE_SIDE, tiles_are_numbered};
use edr_select::{GridNode, Listing, Planned, listing_stands};

// A value of a reply: the place that it is read from, the tile that has it, and its number among the values.
#[derive(Clone, Copy, Debug)]
pub(crate) struct Slot {
    pub(crate) tile: u64,
    pub(crate) number: usize,
    pub(crate) place: GridPlace,
}

// How many tiles stand along an axis of so many nodes.
fn along(nodes: u32) -> u32
    ensures { result ≡ tiles_along nodes }
{
    nodes.div_ceil(TILE_SIDE)
}

// The number of a place's tile.
pub(crate) fn tile_number(shape: GridShape, place: GridPlace) -> u64
    requires shape { IsShape shape }
    requires within { Within shape place }
    requires fits { count shape < 2 ^ 64 }
    ensures { result ≡ tile_of shape place }
{
    tiles_are_numbered();
    let tiles = GridShape {
        parameters: shape.parameters,
        times: shape.times,
        levels: shape.levels,
        rows: along(shape.rows),
        columns: along(shape.columns),
    };
    tiles.number(GridPlace {
        parameter: place.parameter,
        t: place.t,
        z: place.z,
        y: place.y / TILE_SIDE,
        x: place.x / TILE_SIDE,
    })
}

fn place_of(parameter: u64, cell: GridNode) -> GridPlace
    ensures { result ≡ place_at parameter cell }
{
    GridPlace {
        parameter,
        t: cell.t,
        z: cell.z,
        y: cell.y,
        x: cell.x,
    }
}

// Adds the slots of the range of a parameter.
pub(crate) fn push_range(
    slots: &mut Vec<Slot>,
    shape: GridShape,
    parameter: u64,
    cells: &[GridNode],
) -> Result<(), OutOfMemory>
    requires shape { IsShape shape }
    requires fits { count shape < 2 ^ 64 }
    requires parameter { parameter < shape.parameters }
    requires cells { All (λ cell. Within shape (place_at 0 cell)) cells.now }
    ensures { OnOk result (SlotsGrew shape (places_of_range cells.now parameter) slots.old.items
        slots.new.items) }
{
    for cell in cells {
        let place = place_of(parameter, *cell);
        slots.push(Slot {
            tile: tile_number(shape, place),
            number: slots.len(),
            place,
        })?;
    }
    Ok(())
}

// Adds the slots of a coverage, parameter by parameter.
fn push_coverage(
    slots: &mut Vec<Slot>,
    shape: GridShape,
    parameters: &[u64],
    planned: &Planned,
) -> Result<(), OutOfMemory>
    requires shape { IsShape shape }
    requires fits { count shape < 2 ^ 64 }
    requires parameters { All (λ parameter. parameter < shape.parameters) parameters.now }
    requires planned { IsPlanned shape parameters.now planned.now }
    ensures { OnOk result (SlotsGrew shape (places_of_coverage parameters.now planned.now)
        slots.old.items slots.new.items) }
{
    for parameter in parameters {
        push_range(slots, shape, *parameter, planned.cells.items())?;
    }
    Ok(())
}

// Adds the slots of all values of a listing, in the order of the text, and of each coverage where its first one stands.
pub(crate) fn push_listing(
    slots: &mut Vec<Slot>,
    starts: &mut Vec<usize>,
    listing: &Listing,
) -> Result<(), OutOfMemory>
    requires none { slots.old.items ≡ [] }
    requires first { starts.old.items ≡ [] }
    ensures within { All (Within listing.now.shape)
        (places_of_coverages listing.now.parameters listing.now.coverages) }
    ensures slots { OnOk result (SlotsGrew listing.now.shape
        (places_of_coverages listing.now.parameters listing.now.coverages) slots.old.items
        slots.new.items) }
    ensures starts { OnOk result (AreStarts listing.now.parameters listing.now.coverages
        starts.new.items) }
{
    listing_stands(listing);
    for planned in listing.coverages.items() {
        starts.push(slots.len())?;
        push_coverage(slots, listing.shape, listing.parameters.items(), planned)?;
    }
    Ok(())
}
