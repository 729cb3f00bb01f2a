//! Places along a row or a column.
ghost use Rattle.std.specs.Prelude.{◌≡◌, ◌<◌, ℕ, ℤ, true, false, length};
ghost use Rattle.edr_base.specs.Limits.{IsCoordinate};
ghost use Rattle.edr_geometry.specs.Limits.{IsSpot};
ghost use Rattle.edr_geometry.specs.Lines.{IsLine, spot_on, spot_along};
ghost use Rattle.edr_geometry.specs.Planar as plane;
ghost use Rattle.edr_geometry.specs.Ranges.{IsRange, lies_in};
ghost use Rattle.edr_geometry.specs.Spans.{has};

use crate::crossings::{crossed_in_column, crossed_in_row, on_in_column, on_in_row};
use crate::spans::Span;
use edr_axes::Axis;
use edr_base::Spot;
use std::marker::Model;

/// Numbers along a row of one y, or along a column of one x, in metres.
#[derive(Drop)]
pub struct Line<'a> {
    upright: bool,
    at: i64,
    values: &'a Axis,
}

impl<'a> Model for Line<'a> {
    ghost use Rattle.edr_geometry.specs.Lines.{LineValue};

    ghost Value = { LineValue };

    ghost view = { λ l. record { upright = l.upright; at = l.at; values = l.values.now } };
}

impl<'a> Line<'a> {
    /// The places of a row.
    pub fn row(y: i64, xs: &'a Axis) -> Line<'a>
        ensures { result ≡ record { upright = false; at = y; values = xs.now } }
    {
        Line {
            upright: false,
            at: y,
            values: xs,
        }
    }

    /// The places of a column.
    pub fn column(x: i64, ys: &'a Axis) -> Line<'a>
        ensures { result ≡ record { upright = true; at = x; values = ys.now } }
    {
        Line {
            upright: true,
            at: x,
            values: ys,
        }
    }

    /// How many places it has.
    pub fn len(&self) -> usize
        ensures { result ≡ length self.now.values }
    {
        self.values.len()
    }

    // The numbers along it for whose places an edge crosses.
    fn crossed(&self, a: &Spot, b: &Spot) -> Span
        requires line { IsLine self.now }
        requires a_in { IsSpot a.now }
        requires b_in { IsSpot b.now }
        ensures { (v : ℤ) → IsCoordinate v → has result v ≡ plane.crosses (spot_on self.now v) a.now b.now }
    {
        if self.upright {
            crossed_in_column(self.at, a, b)
        } else {
            crossed_in_row(self.at, a, b)
        }
    }

    // The numbers along it whose places are on an edge.
    fn on(&self, a: &Spot, b: &Spot) -> Span
        requires line { IsLine self.now }
        requires a_in { IsSpot a.now }
        requires b_in { IsSpot b.now }
        ensures { (v : ℤ) → IsCoordinate v → has result v ≡ plane.on_segment (spot_on self.now v) a.now b.now }
    {
        if self.upright {
            on_in_column(self.at, a, b)
        } else {
            on_in_row(self.at, a, b)
        }
    }

    /// The places for which an edge crosses: the first, and the one behind the last.
    pub fn places_crossed(&self, a: &Spot, b: &Spot) -> (usize, usize)
        requires line { IsLine self.now }
        requires a_in { IsSpot a.now }
        requires b_in { IsSpot b.now }
        ensures inside { IsRange (length self.now.values) result }
        ensures lies { (place : ℕ) → place < length self.now.values → lies_in result place ≡ plane.crosses (spot_along self.now place) a.now b.now }
    {
        self.crossed(a, b).places_on(self.values)
    }

    /// The places on an edge: the first, and the one behind the last.
    pub fn places_on(&self, a: &Spot, b: &Spot) -> (usize, usize)
        requires line { IsLine self.now }
        requires a_in { IsSpot a.now }
        requires b_in { IsSpot b.now }
        ensures inside { IsRange (length self.now.values) result }
        ensures lies { (place : ℕ) → place < length self.now.values → lies_in result place ≡ plane.on_segment (spot_along self.now place) a.now b.now }
    {
        self.on(a, b).places_on(self.values)
    }
}
