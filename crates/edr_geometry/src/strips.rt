//! The strip about a segment, and what it has of rows.
ghost use Rattle.std.specs.Prelude.{◌≡◌, ◌≤◌, ◌<◌, ◌+◌, ◌*◌, ℕ, ℤ, pos, ◌-ℤ◌, ◌+ℤ◌, ◌*ℤ◌, int_le, int_lt, ◌&&◌, length};
ghost use Rattle.std.specs.List.{All};
ghost use Rattle.std.specs.Int.RustNames.{unsigned_abs};
ghost use Rattle.edr_axes.specs.Axes.{value_at};
ghost use Rattle.edr_base.specs.Boxes.{is_between};
ghost use Rattle.edr_base.specs.Limits.{IsCoordinate, IsMetres};
ghost use Rattle.edr_geometry.specs.Limits.{IsSpot};
ghost use Rattle.edr_geometry.specs.Masks.{spot_at};
ghost use Rattle.edr_geometry.specs.Planar as plane;
ghost use Rattle.edr_geometry.specs.Ranges.{lies_in_some, AreRanges};
ghost use Rattle.edr_geometry.specs.Spans.{has, AreMeasures, is_before_start, is_beside, is_behind_end};
ghost use Rattle.edr_geometry.specs.Ways.{IsSegment};

use crate::near::Segment;
use crate::points::Way;
use crate::spans::Span;
use edr_axes::Axis;
use edr_base::Spot;
use std::marker::Model;

/// The places of a row near a segment, by three ranges: those before its start, beside it and behind its end.
///
/// A range has its first place, from 0, and the one behind its last; the two are equal where it has none.
#[derive(Clone, Copy, Debug)]
pub struct NearRanges {
    pub before: (usize, usize),
    pub beside: (usize, usize),
    pub behind: (usize, usize),
}

/// A segment, and the numbers of the strip about it that are the same for each row.
#[derive(Clone, Copy)]
pub struct Measures {
    pub segment: Segment,
    /// The way from its start to its end.
    pub way: Way,
    /// The square of its length, in square metres.
    pub length: i64,
    /// The square of half the width, in square metres, rounded down.
    pub radius: i64,
    /// The greatest cross product of the segment and the way to a place near its line, in square metres.
    pub breadth: i64,
}

// The greatest cross product of a segment and the way to a place near its line.
fn breadth_of(segment: &Segment) -> i64
    requires { IsSegment segment.now }
    ensures small { unsigned_abs result ≤ 60_000_000_000_000_000 }
    ensures near { (s : ℤ) → is_between (pos 0 -ℤ result) result s ≡ int_le (pos 4 *ℤ (s *ℤ s)) (segment.now.width *ℤ segment.now.width *ℤ plane.squared_distance segment.now.a segment.now.b) }
{
    let square = segment.squared_width() * segment.squared_length() / 4;
    square.isqrt() as i64
}

// The square of half the width of a segment, rounded down.
fn radius_of(segment: &Segment) -> i64
    requires { IsSegment segment.now }
    ensures small { unsigned_abs result ≤ 40_000_000_000_000_000 }
    ensures near { (d : ℤ) → int_le d result ≡ int_le (pos 4 *ℤ d) (segment.now.width *ℤ segment.now.width) }
{
    segment.width * segment.width / 4
}

impl Measures {
    // Those of a segment.
    fn of(segment: Segment) -> Measures
        requires { IsSegment segment }
        ensures are { AreMeasures result }
        ensures same { result.segment ≡ segment }
    {
        let way = Way::of(&segment.a, &segment.b);
        Measures {
            segment,
            way,
            length: way.along(&way),
            radius: radius_of(&segment),
            breadth: breadth_of(&segment),
        }
    }

    // What an x of a row, times the way's, is at most where the place stands before the start.
    fn start_on(&self, y: i64) -> i64
        requires are { AreMeasures self.now }
        requires y_in { IsCoordinate y }
        ensures small { unsigned_abs result ≤ 60_000_000_000_000_000 }
        ensures is { result ≡ self.now.way.x *ℤ self.now.segment.a.x +ℤ self.now.way.y *ℤ (self.now.segment.a.y -ℤ y) }
    {
        let from = self.segment.a;
        self.way.along(&Way {
            x: from.x,
            y: from.y - y,
        })
    }

    // What an x of a row, times the way's y, is where the place stands on the segment's line.
    fn line_on(&self, y: i64) -> i64
        requires are { AreMeasures self.now }
        requires y_in { IsCoordinate y }
        ensures small { unsigned_abs result ≤ 60_000_000_000_000_000 }
        ensures is { result ≡ self.now.way.x *ℤ (y -ℤ self.now.segment.a.y) +ℤ self.now.way.y *ℤ self.now.segment.a.x }
    {
        let from = self.segment.a;
        self.way.along(&Way {
            x: y - from.y,
            y: from.x,
        })
    }

    // The x of a row in the disc about an end.
    fn about_end(&self, y: i64, end: &Spot) -> Span
        requires are { AreMeasures self.now }
        requires y_in { IsCoordinate y }
        requires end_in { IsSpot end.now }
        ensures { (x : ℤ) → has result x ≡ int_le (pos 4 *ℤ plane.squared_distance (spot_at y x) end.now) (self.now.segment.width *ℤ self.now.segment.width) }
    {
        let away = y - end.y;
        Span::about(end.x, self.radius - away * away)
    }

    // The x of a row before the start and in the disc about it.
    fn before_on(&self, y: i64) -> Span
        requires are { AreMeasures self.now }
        requires y_in { IsCoordinate y }
        ensures { (x : ℤ) → IsCoordinate x → has result x ≡ is_before_start (spot_at y x) self.now.segment.a self.now.segment.b self.now.segment.width }
    {
        let about = self.about_end(y, &self.segment.a);
        if about.is_empty() {
            return about;
        }
        Span::at_most(self.way.x, self.start_on(y)).with(about)
    }

    // The x of a row near the segment's line.
    fn near_line_on(&self, y: i64) -> Span
        requires are { AreMeasures self.now }
        requires y_in { IsCoordinate y }
        ensures { (x : ℤ) → IsCoordinate x → has result x ≡ int_le (pos 4 *ℤ (plane.cross (spot_at y x) self.now.segment.a self.now.segment.b *ℤ plane.cross (spot_at y x) self.now.segment.a self.now.segment.b)) (self.now.segment.width *ℤ self.now.segment.width *ℤ plane.squared_distance self.now.segment.a self.now.segment.b) }
    {
        let line = self.line_on(y);
        let high = Span::at_most(self.way.y, line + self.breadth);
        high.with(Span::at_least(self.way.y, line - self.breadth))
    }

    // The x of a row beside the segment.
    fn between_on(&self, y: i64) -> Span
        requires are { AreMeasures self.now }
        requires y_in { IsCoordinate y }
        ensures { (x : ℤ) → IsCoordinate x → has result x ≡ (int_lt (pos 0) (plane.along (spot_at y x) self.now.segment.a self.now.segment.b) && int_lt (plane.along (spot_at y x) self.now.segment.a self.now.segment.b) (plane.squared_distance self.now.segment.a self.now.segment.b)) }
    {
        let start = self.start_on(y);
        let low = Span::at_least(self.way.x, start + 1);
        low.with(Span::at_most(self.way.x, start + self.length - 1))
    }

    // The x of a row beside the segment and near its line.
    fn beside_on(&self, y: i64) -> Span
        requires are { AreMeasures self.now }
        requires y_in { IsCoordinate y }
        ensures { (x : ℤ) → IsCoordinate x → has result x ≡ is_beside (spot_at y x) self.now.segment.a self.now.segment.b self.now.segment.width }
    {
        self.between_on(y).with(self.near_line_on(y))
    }

    // The x of a row behind the end and in the disc about it.
    fn behind_on(&self, y: i64) -> Span
        requires are { AreMeasures self.now }
        requires y_in { IsCoordinate y }
        ensures { (x : ℤ) → IsCoordinate x → has result x ≡ is_behind_end (spot_at y x) self.now.segment.a self.now.segment.b self.now.segment.width }
    {
        let about = self.about_end(y, &self.segment.b);
        if about.is_empty() {
            return about;
        }
        Span::at_least(self.way.x, self.start_on(y) + self.length).with(about)
    }

    // The places of a row near the segment.
    fn near_row(&self, y: i64, xs: &Axis) -> NearRanges
        requires are { AreMeasures self.now }
        requires y_in { IsCoordinate y }
        requires xs_in { All IsCoordinate xs.now }
        ensures inside { AreRanges (length xs.now) result }
        ensures near { (place : ℕ) → place < length xs.now → lies_in_some result place ≡ plane.near_segment (spot_at y (value_at xs.now place)) self.now.segment.a self.now.segment.b self.now.segment.width }
    {
        NearRanges {
            before: self.before_on(y).places_on(xs),
            beside: self.beside_on(y).places_on(xs),
            behind: self.behind_on(y).places_on(xs),
        }
    }
}

/// The strip about a segment, of which the places of any row are found by their ends (OGC 06-103r4, section 6.1).
#[derive(Drop)]
pub struct Strip {
    measures: Measures,
}

impl Model for Strip {
    ghost use Rattle.edr_geometry.specs.Ranges.{StripValue};

    ghost Value = { StripValue };

    ghost view = { λ s. record { a = s.measures.segment.a; b = s.measures.segment.b; width = s.measures.segment.width } };

    ghost use Rattle.edr_geometry.specs.Spans.{AreMeasures};

    ghost invariant = { λ s. AreMeasures s.measures };
}

impl Strip {
    /// The strip about the segment from `a` to `b`, which may be one place, of a whole width in metres. It takes no memory.
    pub fn of(a: Spot, b: Spot, width: i64) -> Strip
        requires a_in { IsSpot a }
        requires b_in { IsSpot b }
        requires width_in { IsMetres width }
        ensures { result ≡ record { a = a; b = b; width = width } }
    {
        Strip {
            measures: Measures::of(Segment { a, b, width }),
        }
    }

    /// The places of a row at most half the width from the segment. It takes no memory.
    ///
    /// `y` and the values of `xs` are metres. A place lies in one of the ranges exactly where `near_segment` of that node is. The
    /// time goes with the logarithm of the row's length.
    pub fn near_row(&self, y: i64, xs: &Axis) -> NearRanges
        requires y_in { IsCoordinate y }
        requires xs_in { All IsCoordinate xs.now }
        ensures inside { AreRanges (length xs.now) result }
        ensures near { (place : ℕ) → place < length xs.now → lies_in_some result place ≡ plane.near_segment (spot_at y (value_at xs.now place)) self.now.a self.now.b self.now.width }
    {
        self.measures.near_row(y, xs)
    }
}
