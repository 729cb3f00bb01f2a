//! Places near a segment, in whole numbers.
ghost use Rattle.std.specs.Prelude.{◌≡◌, true, false, ◌*ℤ◌, int_le, pos};
ghost use Rattle.edr_geometry.specs.Limits.{IsSpot};
ghost use Rattle.edr_base.specs.Limits.{IsMetres};
ghost use Rattle.edr_geometry.specs.Ways.{IsSegment};
ghost use Rattle.edr_geometry.specs.Planar as plane;

use crate::points::{Way, squared_distance};
use edr_base::Spot;

/// A segment with the width of the strip about it, in metres.
#[derive(Clone, Copy)]
pub struct Segment {
    pub a: Spot,
    pub b: Spot,
    pub width: i64,
}

impl Segment {
    /// The square of the width, in square metres.
    pub fn squared_width(&self) -> i128
        requires { IsSegment self.now }
        ensures { result ≡ self.now.width *ℤ self.now.width }
    {
        (self.width * self.width) as i128
    }

    /// The square of the length, in square metres.
    pub fn squared_length(&self) -> i128
        requires { IsSegment self.now }
        ensures { result ≡ plane.squared_distance self.now.a self.now.b }
    {
        squared_distance(self.a, self.b)
    }

    // The cross product of the segment and the way from its start to a place.
    fn cross(&self, p: &Spot) -> i64
        requires segment { IsSegment self.now }
        requires p_in { IsSpot p.now }
        ensures { result ≡ plane.cross p.now self.now.a self.now.b }
    {
        Way::of(&self.a, &self.b).cross(&Way::of(&self.a, p))
    }

    // The scalar product of the two.
    fn along(&self, p: &Spot) -> i64
        requires segment { IsSegment self.now }
        requires p_in { IsSpot p.now }
        ensures { result ≡ plane.along p.now self.now.a self.now.b }
    {
        Way::of(&self.a, &self.b).along(&Way::of(&self.a, p))
    }

    // Whether a place is at most half the width from an end.
    fn is_near_end(&self, p: &Spot, end: &Spot) -> bool
        requires segment { IsSegment self.now }
        requires p_in { IsSpot p.now }
        requires end_in { IsSpot end.now }
        ensures { result ≡ int_le (pos 4 *ℤ plane.squared_distance p.now end.now) (self.now.width *ℤ self.now.width) }
    {
        4 * squared_distance(*p, *end) <= self.squared_width()
    }

    // Whether a place is at most half the width from the line through the segment.
    fn is_near_line(&self, p: &Spot) -> bool
        requires segment { IsSegment self.now }
        requires p_in { IsSpot p.now }
        ensures { result ≡ int_le (pos 4 *ℤ (plane.cross p.now self.now.a self.now.b *ℤ plane.cross p.now self.now.a self.now.b)) (self.now.width *ℤ self.now.width *ℤ plane.squared_distance self.now.a self.now.b) }
    {
        let cross = self.cross(p) as i128;
        4 * (cross * cross) <= self.squared_width() * self.squared_length()
    }

    // Whether the segment has no length.
    fn is_point(&self) -> bool
        requires { IsSegment self.now }
        ensures { result ≡ int_le (plane.squared_distance self.now.a self.now.b) (pos 0) }
    {
        self.squared_length() <= 0
    }

    // Whether a place stands before the start, seen along the segment.
    fn is_before_start(&self, p: &Spot) -> bool
        requires segment { IsSegment self.now }
        requires p_in { IsSpot p.now }
        ensures { result ≡ int_le (plane.along p.now self.now.a self.now.b) (pos 0) }
    {
        self.along(p) <= 0
    }

    // Whether a place stands behind the end, seen along the segment.
    fn is_behind_end(&self, p: &Spot) -> bool
        requires segment { IsSegment self.now }
        requires p_in { IsSpot p.now }
        ensures { result ≡ int_le (plane.squared_distance self.now.a self.now.b) (plane.along p.now self.now.a self.now.b) }
    {
        self.squared_length() <= self.along(p) as i128
    }

    // Whether a place is so far aside of the line through the segment that it can't be near, by a test in small numbers.
    fn is_aside(&self, p: &Spot) -> bool
        requires segment { IsSegment self.now }
        requires p_in { IsSpot p.now }
        ensures { result ≡ true → plane.near_segment p.now self.now.a self.now.b self.now.width ≡ false }
    {
        let way = Way::of(&self.a, &self.b);
        let sides = way.x.unsigned_abs() + way.y.unsigned_abs();
        self.width.unsigned_abs() * sides < 2 * self.cross(p).unsigned_abs()
    }

    // Whether a place is at most half the width from the segment, by its distance.
    fn is_close(&self, p: &Spot) -> bool
        requires segment { IsSegment self.now }
        requires p_in { IsSpot p.now }
        ensures { result ≡ plane.near_segment p.now self.now.a self.now.b self.now.width }
    {
        let before = self.is_point() || self.is_before_start(p);
        if before {
            self.is_near_end(p, &self.a)
        } else if self.is_behind_end(p) {
            self.is_near_end(p, &self.b)
        } else {
            self.is_near_line(p)
        }
    }

    /// Whether a place is at most half the width from the segment.
    pub fn is_near(&self, p: &Spot) -> bool
        requires segment { IsSegment self.now }
        requires p_in { IsSpot p.now }
        ensures { result ≡ plane.near_segment p.now self.now.a self.now.b self.now.width }
    {
        !self.is_aside(p) && self.is_close(p)
    }
}

/// Whether a place is at most half a width, in metres, from a segment, ends included.
///
/// `width` is the whole width of the strip about the segment from `a` to `b`, which may be one place. It takes no memory.
pub fn near_segment(p: Spot, a: Spot, b: Spot, width: i64) -> bool
    requires p_in { IsSpot p }
    requires a_in { IsSpot a }
    requires b_in { IsSpot b }
    requires width_in { IsMetres width }
    ensures { result ≡ plane.near_segment p a b width }
{
    Segment { a, b, width }.is_near(&p)
}
