//! Numbers about a range, and their places on an axis.
ghost use Rattle.std.specs.Prelude.{◌≡◌, ◌≤◌, ◌<◌, ◌+◌, ◌/◌, ℕ, true, false, ℤ, pos, ◌-ℤ◌, ◌+ℤ◌, ◌*ℤ◌, int_le, length};
ghost use Rattle.std.specs.List.{All};
ghost use Rattle.std.specs.Int.RustNames.{unsigned_abs};
ghost use Rattle.edr_axes.specs.Axes.{value_at};
ghost use Rattle.edr_base.specs.Limits.{IsCoordinate, IsMetres, coordinate_limit, distance_limit};
ghost use Rattle.edr_geometry.specs.Ranges.{lies_in};
ghost use Rattle.edr_corridor.specs.Parts.{IsBand, IsAbout, band_has};

use edr_axes::Axis;
use edr_geometry::places_between;

/// The numbers at most half a whole below a low number and above a high one.
#[derive(Clone, Copy)]
pub struct Band {
    pub low: i64,
    pub high: i64,
    pub whole: i64,
}

impl Band {
    /// The numbers at most half a whole away from those from one to the other.
    pub fn about(one: i64, other: i64, whole: i64) -> Band
        requires one_in { IsCoordinate one }
        requires other_in { IsCoordinate other }
        requires whole_in { IsMetres whole }
        ensures band { IsBand result }
        ensures has { IsAbout result one other whole }
    {
        Band {
            low: one.min(other),
            high: one.max(other),
            whole,
        }
    }

    // Whether a number isn't too low.
    fn is_from(&self, number: i64) -> bool
        requires band { IsBand self.now }
        requires number_in { IsCoordinate number }
        ensures { result ≡ int_le (pos 2 *ℤ self.now.low -ℤ self.now.whole) (pos 2 *ℤ number) }
    {
        2 * self.low - self.whole <= 2 * number
    }

    // Whether a number isn't too high.
    fn is_to(&self, number: i64) -> bool
        requires band { IsBand self.now }
        requires number_in { IsCoordinate number }
        ensures { result ≡ int_le (pos 2 *ℤ number) (pos 2 *ℤ self.now.high +ℤ self.now.whole) }
    {
        2 * number <= 2 * self.high + self.whole
    }

    /// Whether it has a number.
    pub fn has(&self, number: i64) -> bool
        requires band { IsBand self.now }
        requires number_in { IsCoordinate number }
        ensures { result ≡ band_has self.now number }
    {
        self.is_from(number) && self.is_to(number)
    }

    // The least number that it has.
    fn least(&self) -> i64
        requires { IsBand self.now }
        ensures small { unsigned_abs result ≤ coordinate_limit + distance_limit / 2 }
        ensures least { (v : ℤ) → int_le result v ≡ int_le (pos 2 *ℤ self.now.low -ℤ self.now.whole) (pos 2 *ℤ v) }
    {
        self.low - self.whole / 2
    }

    // The greatest number that it has.
    fn greatest(&self) -> i64
        requires { IsBand self.now }
        ensures small { unsigned_abs result ≤ coordinate_limit + distance_limit / 2 }
        ensures greatest { (v : ℤ) → int_le v result ≡ int_le (pos 2 *ℤ v) (pos 2 *ℤ self.now.high +ℤ self.now.whole) }
    {
        self.high + self.whole / 2
    }

    /// Whether an axis has none of it, as all values are too high, or too low.
    pub fn misses(&self, axis: &Axis) -> bool
        requires band { IsBand self.now }
        requires axis_in { All IsCoordinate axis.now }
        ensures { result ≡ true → (place : ℕ) → place < length axis.now → band_has self.now (value_at axis.now place) ≡ false }
    {
        axis.values();
        !self.is_to(axis.value(0)) || !self.is_from(axis.value(axis.len() - 1))
    }

    /// The places, from 0, of the values of an axis that it has: the first, and the one behind the last.
    pub fn places_on(&self, axis: &Axis) -> (usize, usize)
        requires { IsBand self.now }
        ensures inside { (result.0 ≤ result.1) × (result.1 ≤ length axis.now) }
        ensures lies { (place : ℕ) → place < length axis.now → lies_in result place ≡ band_has self.now (value_at axis.now place) }
    {
        places_between(axis, self.least(), self.greatest())
    }
}
