//! Rows of places.
ghost use Rattle.std.specs.Prelude.{◌≡◌, ◌<◌, length};
ghost use Rattle.edr_axes.specs.Axes.{IsAscending};
ghost use Rattle.edr_geometry.specs.Limits.{IsSpot};
ghost use Rattle.edr_geometry.specs.Planar as plane;
ghost use Rattle.edr_geometry.specs.Rows.{IsRow, IsLeftCut, spot_in};

use edr_base::{Position, Spot};

/// The places of one y along some ascending x, in metres.
#[derive(Clone, Copy)]
pub struct Row<'a> {
    pub y: i64,
    pub xs: &'a [i64],
}

impl<'a> Row<'a> {
    /// The place of this number, from 0, along the row.
    pub fn spot(&self, place: usize) -> Spot
        requires row { IsRow self.now.y self.now.xs.now }
        requires inside { place < length self.now.xs.now }
        ensures same { result ≡ spot_in self.now.y self.now.xs.now place }
        ensures placed { IsSpot result }
    {
        Spot {
            x: self.xs[place],
            y: self.y,
        }
    }
}

/// How many values are below a bound. They come first.
pub fn count_left_of(xs: &[i64], bound: i64) -> usize
    requires { IsAscending xs.now }
    ensures { IsLeftCut xs.now bound result }
{
    xs.partition_point(|x| *x < bound)
}

/// The place of a position.
pub fn spot_of(position: &Position) -> Spot
    ensures { result ≡ plane.spot_of position.now }
{
    Spot {
        x: position.x,
        y: position.y,
    }
}
