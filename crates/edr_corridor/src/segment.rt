//! One segment of a line: the times, levels and places that it takes.
ghost use Rattle.std.specs.Prelude.{◌≡◌, ◌≤◌, ◌<◌, ◌&&◌, ℕ, ℤ, Option, Some, None, true, IfSome, IsSome, length, option_map};
ghost use Rattle.std.specs.List.{All};
ghost use Rattle.edr_base.specs.Limits.{IsCoordinate};
ghost use Rattle.edr_base.specs.declared.places.Spot.{Spot};
ghost use Rattle.edr_axes.specs.Axes.{value_at, axis_length};
ghost use Rattle.edr_geometry.specs.Planar as plane;
ghost use Rattle.edr_geometry.specs.Ranges.{lies_in};
ghost use Rattle.edr_geometry.specs.Limits.{IsSpot};
ghost use Rattle.edr_corridor.specs.Boxes.{level_at};
ghost use Rattle.edr_corridor.specs.Parts.{HasNone, IsSegment, IsPlacedNode, IsBand, IsAbout, needs_level, has_level, has_time, has_height, has_spot};

use crate::bands::Band;
use edr_axes::Axis;
use edr_base::{Position, Spot};
use edr_geometry::{near_segment, places_between, spot_of};

/// What a corridor asks of each segment of its line, in metres.
#[derive(Clone, Copy, Debug)]
pub struct Rule {
    pub has_z: bool,
    pub has_m: bool,
    pub width: i64,
    pub level: Option<i64>,
    pub height: Option<i64>,
}

/// The time of a node, its level where it has one, and its place.
#[derive(Clone, Copy)]
pub struct Node {
    pub t: i64,
    pub z: Option<i64>,
    pub spot: Spot,
}

/// A segment of a line, and the rule of its corridor.
#[derive(Clone, Copy)]
pub struct Segment {
    pub start: Position,
    pub end: Position,
    pub rule: Rule,
}

impl Segment {
    // Whether a time lies from the m of one end to that of the other.
    fn is_during(&self, node: &Node) -> bool
        ensures { result ≡ plane.is_among self.now.start.m self.now.end.m node.now.t }
    {
        (self.start.m <= node.t && node.t <= self.end.m)
            || (self.end.m <= node.t && node.t <= self.start.m)
    }

    // Whether it takes the time of a node.
    fn takes_time(&self, node: &Node) -> bool
        ensures { result ≡ has_time self.now (Some node.now.t) }
    {
        !self.rule.has_m || self.is_during(node)
    }

    // The levels that it takes, or None where it takes all of them.
    fn levels(&self) -> Option<Band>
        requires { IsSegment self.now }
        ensures band { IfSome result IsBand }
        ensures has { (z : Option ℤ) → has_level result z ≡ has_height self.now z }
    {
        let height = self.rule.height?;
        if self.rule.has_z {
            return Some(Band::about(self.start.z, self.end.z, height));
        }
        let level = self.rule.level?;
        Some(Band::about(level, level, height))
    }

    // Whether it takes the level of a node.
    fn takes_level(&self, node: &Node) -> bool
        requires segment { IsSegment self.now }
        requires node { IsPlacedNode node.now }
        ensures { result ≡ has_height self.now node.now.z }
    {
        match (self.levels(), node.z) {
            (None, _) => true,
            (Some(_), None) => false,
            (Some(band), Some(level)) => band.has(level),
        }
    }

    /// Whether it takes the place of a node.
    pub fn takes_spot(&self, spot: Spot) -> bool
        requires segment { IsSegment self.now }
        requires spot_in { IsSpot spot }
        ensures { result ≡ plane.near_segment spot (plane.spot_of self.now.start) (plane.spot_of self.now.end) self.now.rule.width }
    {
        let start = spot_of(&self.start);
        let end = spot_of(&self.end);
        near_segment(spot, start, end, self.rule.width)
    }

    /// Whether it takes time, level and place of a node.
    pub fn takes(&self, node: &Node) -> bool
        requires segment { IsSegment self.now }
        requires node { IsPlacedNode node.now }
        ensures { result ≡ (has_time self.now (Some node.now.t) && (has_height self.now node.now.z && has_spot self.now node.now.spot.y node.now.spot.x)) }
    {
        self.takes_time(node) && self.takes_level(node) && self.takes_spot(node.spot)
    }

    /// The places, from 0, of the times that it takes: the first, and the one behind the last.
    pub fn times_on(&self, ts: &Axis) -> (usize, usize)
        ensures inside { (result.0 ≤ result.1) × (result.1 ≤ length ts.now) }
        ensures lies { (t : ℕ) → t < length ts.now → lies_in result t ≡ has_time self.now (Some (value_at ts.now t)) }
    {
        if !self.rule.has_m {
            return (0, ts.len());
        }
        let first = self.start.m.min(self.end.m);
        let last = self.start.m.max(self.end.m);
        places_between(ts, first, last)
    }

    /// The places, from 0, of the levels that it takes: the first, and the one behind the last.
    ///
    /// Without an axis of levels these are 0 and 1. Where the line has z or a level is asked, there is one.
    pub fn levels_on(&self, zs: Option<&Axis>) -> (usize, usize)
        requires segment { IsSegment self.now }
        requires levels { needs_level self.now.rule ≡ true → IsSome zs }
        ensures inside { (result.0 ≤ result.1) × (result.1 ≤ axis_length (option_map (λ zs. zs.now) zs.entry)) }
        ensures without { zs.entry ≡ None → result ≡ (0, 1) }
        ensures lies { (z : ℕ) → z < axis_length (option_map (λ zs. zs.now) zs.entry) → lies_in result z ≡ has_height self.now (level_at (option_map (λ zs. zs.now) zs.entry) z) }
    {
        let Some(zs) = zs else {
            return (0, 1);
        };
        match self.levels() {
            Some(band) => band.places_on(zs),
            None => (0, zs.len()),
        }
    }

    /// The y that are at most half the width away from those of its ends.
    pub fn rows(&self) -> Band
        requires { IsSegment self.now }
        ensures band { IsBand result }
        ensures has { IsAbout result self.now.start.y self.now.end.y self.now.rule.width }
    {
        Band::about(self.start.y, self.end.y, self.rule.width)
    }

    /// The x that are at most half the width away from those of its ends.
    pub fn columns(&self) -> Band
        requires { IsSegment self.now }
        ensures band { IsBand result }
        ensures has { IsAbout result self.now.start.x self.now.end.x self.now.rule.width }
    {
        Band::about(self.start.x, self.end.x, self.rule.width)
    }

    // Whether some y and x have only one place, and that isn't near it.
    fn misses_one(&self, ys: &Axis, xs: &Axis) -> bool
        requires segment { IsSegment self.now }
        requires ys_in { All IsCoordinate ys.now }
        requires xs_in { All IsCoordinate xs.now }
        ensures { result ≡ true → HasNone self.now ys.now xs.now }
    {
        if ys.len() != 1 || xs.len() != 1 {
            return false;
        }
        let spot = Spot {
            x: xs.value(0),
            y: ys.value(0),
        };
        !self.takes_spot(spot)
    }

    // Whether all of some y, or all x, are more than half the width away.
    fn is_outside(&self, ys: &Axis, xs: &Axis) -> bool
        requires segment { IsSegment self.now }
        requires ys_in { All IsCoordinate ys.now }
        requires xs_in { All IsCoordinate xs.now }
        ensures { result ≡ true → HasNone self.now ys.now xs.now }
    {
        self.columns().misses(xs) || self.rows().misses(ys)
    }

    /// Whether no place of some y and x is near it, as all y, or all x, are more than half the width away, or the only place is far.
    pub fn misses(&self, ys: &Axis, xs: &Axis) -> bool
        requires segment { IsSegment self.now }
        requires ys_in { All IsCoordinate ys.now }
        requires xs_in { All IsCoordinate xs.now }
        ensures { result ≡ true → HasNone self.now ys.now xs.now }
    {
        self.is_outside(ys, xs) || self.misses_one(ys, xs)
    }
}
