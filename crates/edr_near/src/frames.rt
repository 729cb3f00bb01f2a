//! Boxes round places.
ghost use Rattle.std.specs.Prelude.{◌≡◌, ◌≤◌, ◌≤ℤ◌, ◌-ℤ◌, ℤ, unsigned_abs};
ghost use Rattle.edr_base.specs.declared.places.Spot.{Spot};
ghost use Rattle.edr_base.specs.Boxes as boxes;
ghost use Rattle.edr_base.specs.Limits.{IsCoordinate};
ghost use Rattle.edr_near.specs.Squares.{IsSpot, squared_distance};
ghost use Rattle.edr_near.specs.Frames.{Holds, IsFrame};

use edr_base::{Spot, in_box};

/// A box with its borders, by its lower and its upper corner.
#[derive(Clone, Copy, Debug, PartialEq, Eq)]
pub struct Frame {
    pub lo: Spot,
    pub hi: Spot,
}

// The lesser of two coordinates.
fn lesser(a: i64, b: i64) -> i64
    requires a_in { IsCoordinate a }
    requires b_in { IsCoordinate b }
    ensures first { result ≤ℤ a }
    ensures second { result ≤ℤ b }
    ensures within { IsCoordinate result }
{
    if a <= b { a } else { b }
}

// The greater of two coordinates.
fn greater(a: i64, b: i64) -> i64
    requires a_in { IsCoordinate a }
    requires b_in { IsCoordinate b }
    ensures first { a ≤ℤ result }
    ensures second { b ≤ℤ result }
    ensures within { IsCoordinate result }
{
    if a <= b { b } else { a }
}

// How far a coordinate is from those from one to another; 0 among them.
fn gap(low: i64, high: i64, value: i64) -> u64
    requires low_in { IsCoordinate low }
    requires high_in { IsCoordinate high }
    requires value_in { IsCoordinate value }
    ensures least { (c : ℤ) → low ≤ℤ c → c ≤ℤ high → result ≤ unsigned_abs (c -ℤ value) }
    ensures small { result ≤ 200_000_000 }
{
    if value < low {
        low.abs_diff(value)
    } else if high < value {
        value.abs_diff(high)
    } else {
        0
    }
}

impl Frame {
    /// The box of one place.
    pub fn of(spot: Spot) -> Frame
        requires { IsSpot spot }
        ensures frame { IsFrame result }
        ensures holds { Holds result spot }
    {
        Frame { lo: spot, hi: spot }
    }

    /// The least box round two.
    pub fn and(&self, other: &Frame) -> Frame
        requires own { IsFrame self.now }
        requires other { IsFrame other.now }
        ensures frame { IsFrame result }
        ensures first { (s : Spot) → Holds self.now s → Holds result s }
        ensures second { (s : Spot) → Holds other.now s → Holds result s }
    {
        Frame {
            lo: Spot {
                x: lesser(self.lo.x, other.lo.x),
                y: lesser(self.lo.y, other.lo.y),
            },
            hi: Spot {
                x: greater(self.hi.x, other.hi.x),
                y: greater(self.hi.y, other.hi.y),
            },
        }
    }

    /// The least box round it and a place.
    pub fn with(&self, spot: Spot) -> Frame
        requires own { IsFrame self.now }
        requires spot { IsSpot spot }
        ensures frame { IsFrame result }
        ensures first { (s : Spot) → Holds self.now s → Holds result s }
        ensures second { Holds result spot }
    {
        self.and(&Frame::of(spot))
    }

    /// Whether it has a place.
    pub fn holds(&self, spot: &Spot) -> bool
        ensures { result ≡ boxes.in_box spot.now self.now.lo self.now.hi }
    {
        in_box(*spot, self.lo, self.hi)
    }

    /// How far it is from a place, squared: no place in it is nearer.
    pub fn distance(&self, spot: &Spot) -> u64
        requires own { IsFrame self.now }
        requires spot { IsSpot spot.now }
        ensures { (s : Spot) → Holds self.now s → result ≤ squared_distance s spot.now }
    {
        let across = gap(self.lo.x, self.hi.x, spot.x);
        let along = gap(self.lo.y, self.hi.y, spot.y);
        across * across + along * along
    }
}
