//! Whole numbers from one to another, and the places of an axis that have them.
ghost use Rattle.std.specs.Prelude.{◌≡◌, ◌≤◌, ◌<◌, ◌&&◌, ℕ, ℤ, pos, ◌-ℤ◌, ◌*ℤ◌, ◌<ℤ◌, int_le, true, false, length};
ghost use Rattle.std.specs.List.{All};
ghost use Rattle.std.specs.Int.RustNames.{unsigned_abs};
ghost use Rattle.edr_axes.specs.Axes.{value_at};
ghost use Rattle.edr_base.specs.Boxes.{is_between};
ghost use Rattle.edr_base.specs.Limits.{IsCoordinate};
ghost use Rattle.edr_geometry.specs.Ranges.{lies_in, IsRange};
ghost use Rattle.edr_geometry.specs.Spans.{has, IsPart, IsBound};

use edr_axes::{Axis, bounds_split_axes};
use edr_base::COORDINATE_LIMIT;

/// The places, from 0, of the values from a low number to a high one: the first, and the one behind the last. It takes no memory.
pub fn places_between(axis: &Axis, low: i64, high: i64) -> (usize, usize)
    ensures inside { IsRange (length axis.now) result }
    ensures lies { (place : ℕ) → place < length axis.now → lies_in result place ≡ is_between low high (value_at axis.now place) }
{
    bounds_split_axes();
    let _ascending = axis.values();
    axis.range(low, high)
}

// The greatest number that a divisor makes at most a limit.
fn floor_of(limit: i64, divisor: i64) -> i64
    requires limit_in { IsBound limit }
    requires divisor_in { IsPart divisor }
    requires some { pos 0 <ℤ divisor }
    ensures small { IsBound result }
    ensures most { (v : ℤ) → int_le v result ≡ int_le (divisor *ℤ v) limit }
{
    limit.div_euclid(divisor)
}

/// The whole numbers from a low one to a high one, both included; none where the low one is above the high one.
#[derive(Clone, Copy)]
pub struct Span {
    pub low: i64,
    pub high: i64,
}

impl Span {
    // Each coordinate.
    fn each() -> Span
        ensures { (v : ℤ) → IsCoordinate v → has result v ≡ true }
    {
        let limit = COORDINATE_LIMIT as i64;
        Span {
            low: -limit,
            high: limit,
        }
    }

    /// No number.
    pub fn none() -> Span
        ensures { (v : ℤ) → has result v ≡ false }
    {
        Span { low: 1, high: 0 }
    }

    /// Whether it has no number.
    pub fn is_empty(&self) -> bool
        ensures { result ≡ true → (v : ℤ) → has self.now v ≡ false }
    {
        self.high < self.low
    }

    /// The numbers that two have.
    pub fn with(self, other: Span) -> Span
        ensures { (v : ℤ) → has result v ≡ (has self v && has other v) }
    {
        Span {
            low: self.low.max(other.low),
            high: self.high.min(other.high),
        }
    }

    /// The coordinates that a factor makes at most a limit.
    pub fn at_most(factor: i64, limit: i64) -> Span
        requires factor_in { IsPart factor }
        requires limit_in { IsBound limit }
        ensures { (v : ℤ) → IsCoordinate v → has result v ≡ int_le (factor *ℤ v) limit }
    {
        let each = Span::each();
        if 0 < factor {
            Span {
                low: each.low,
                high: floor_of(limit, factor),
            }
        } else if factor < 0 {
            Span {
                low: -floor_of(limit, -factor),
                high: each.high,
            }
        } else if 0 <= limit {
            each
        } else {
            Span::none()
        }
    }

    /// The coordinates that a factor makes at least a limit.
    pub fn at_least(factor: i64, limit: i64) -> Span
        requires factor_in { IsPart factor }
        requires limit_in { IsBound limit }
        ensures { (v : ℤ) → IsCoordinate v → has result v ≡ int_le limit (factor *ℤ v) }
    {
        Span::at_most(-factor, -limit)
    }

    /// The numbers whose squared distance to a centre is at most a square.
    pub fn about(centre: i64, square: i64) -> Span
        requires centre_in { IsCoordinate centre }
        requires square_in { IsBound square }
        ensures { (v : ℤ) → has result v ≡ int_le ((v -ℤ centre) *ℤ (v -ℤ centre)) square }
    {
        if square < 0 {
            return Span::none();
        }
        let reach = square.isqrt();
        Span {
            low: centre - reach,
            high: centre + reach,
        }
    }

    /// The places, from 0, of the values of an axis that it has: the first, and the one behind the last. It takes no memory.
    pub fn places_on(&self, axis: &Axis) -> (usize, usize)
        ensures inside { IsRange (length axis.now) result }
        ensures lies { (place : ℕ) → place < length axis.now → lies_in result place ≡ has self.now (value_at axis.now place) }
    {
        if self.is_empty() {
            return (0, 0);
        }
        places_between(axis, self.low, self.high)
    }
}
