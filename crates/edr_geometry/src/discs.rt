//! The places of a row in a disc.
ghost use Rattle.std.specs.Prelude.{◌≡◌, IfOk, ◌-ℤ◌, ◌+ℤ◌, int_lt};
ghost use Rattle.edr_geometry.specs.Limits.{IsSpot};
ghost use Rattle.edr_geometry.specs.Planar as plane;
ghost use Rattle.edr_geometry.specs.Masks.{row_of};
ghost use Rattle.edr_geometry.specs.Rows.{IsRow};
ghost use Rattle.edr_geometry.specs.Ways.{IsDisc};

use crate::points::in_disc;
use crate::rows::{Row, count_left_of};
use edr_base::Spot;
use std::alloc::{AllocError, Global};

/// A disc, its radius in metres.
#[derive(Clone, Copy)]
pub struct Disc {
    pub centre: Spot,
    pub radius: i64,
}

impl Disc {
    // The least x that it has.
    fn least_x(&self) -> i64
        requires { IsDisc self.now }
        ensures { result ≡ self.now.centre.x -ℤ self.now.radius }
    {
        self.centre.x - self.radius
    }

    // Whether a place stands right of it.
    fn is_left_of(&self, p: &Spot) -> bool
        requires disc { IsDisc self.now }
        requires p_in { IsSpot p.now }
        ensures { result ≡ int_lt (self.now.centre.x +ℤ self.now.radius) p.now.x }
    {
        self.centre.x + self.radius < p.x
    }
}

/// The places of a row in a disc. Only the places between its least and its greatest x are tested.
pub fn disc_of(alloc: Global, disc: &Disc, row: &Row<'_>) -> Result<Vec<bool>, AllocError>
    requires row { IsRow row.now.y row.now.xs.now }
    requires disc { IsDisc disc.now }
    ensures { IfOk result (λ places. places.items ≡ row_of (λ p. plane.in_disc p disc.now.centre disc.now.radius) row.now.y row.now.xs.now) }
{
    let mut places = vec![in alloc; false; row.xs.len()]?;
    let first = count_left_of(row.xs, disc.least_x());
    for place in first..row.xs.len() {
        let spot = row.spot(place);
        if disc.is_left_of(&spot) {
            return Ok(places);
        }
        places[place] = in_disc(spot, disc.centre, disc.radius);
    }
    Ok(places)
}
