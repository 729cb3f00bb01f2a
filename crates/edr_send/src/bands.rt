//! Bands of tiles: the tiles of one parameter, time, level and row of tiles.
ghost use Rattle.std.specs.Prelude.{◌≡◌, ◌<◌, ◌^◌, ◌↔◌, All, IsTrue, MatchOption};
ghost use Rattle.edr_chunk.specs.Places.{Within, IsShape, count};
ghost use Rattle.edr_select.specs.Listings.{PlannedValue, place_at, NumbersRise};
ghost use Rattle.edr_send.specs.Bands.{band_of, BandsRise, Rises};

use crate::slots::tile_number;
use edr_chunk::{GridPlace, GridShape};
use edr_select::{GridNode, Listing, Planned, listing_stands};

// The first tile of a node's band, of the first parameter.
pub(crate) fn band_number(shape: GridShape, cell: GridNode) -> u64
    requires shape { IsShape shape }
    requires fits { count shape < 2 ^ 64 }
    requires within { Within shape (place_at 0 cell) }
    ensures { result ≡ band_of shape cell }
{
    tile_number(
        shape,
        GridPlace {
            parameter: 0,
            t: cell.t,
            z: cell.z,
            y: cell.y,
            x: 0,
        },
    )
}

// Whether each parameter stands above those before it.
fn parameters_rise(shape: GridShape, parameters: &[u64]) -> bool
    requires { All (λ parameter. parameter < shape.parameters) parameters.now }
    ensures { IsTrue result ↔ NumbersRise parameters.now }
{
    let mut least = 0;
    for parameter in parameters {
        if *parameter < least {
            return false;
        }
        least = *parameter + 1;
    }
    true
}

// Whether no cell's band stands below that of one before it.
fn bands_rise(shape: GridShape, cells: &[GridNode]) -> bool
    requires shape { IsShape shape }
    requires fits { count shape < 2 ^ 64 }
    requires cells { All (λ cell. Within shape (place_at 0 cell)) cells.now }
    ensures { IsTrue result ↔ BandsRise shape cells.now }
{
    let mut greatest = 0;
    for cell in cells {
        let band = band_number(shape, *cell);
        if band < greatest {
            return false;
        }
        greatest = band;
    }
    true
}

// The one coverage of a listing, exactly where the tiles of its values rise band by band in the order of the text.
pub(crate) fn rising_coverage(listing: &Listing) -> Option<&Planned>
    ensures { MatchOption result ((planned : PlannedValue) → ¬ (Rises listing.now planned)) (λ planned. Rises listing.now planned.now) }
{
    listing_stands(listing);
    let coverages = listing.coverages.items();
    if coverages.len() != 1 {
        return None;
    }
    let planned = &coverages[0];
    if !parameters_rise(listing.shape, listing.parameters.items()) {
        return None;
    }
    if !bands_rise(listing.shape, planned.cells.items()) {
        return None;
    }
    Some(planned)
}
