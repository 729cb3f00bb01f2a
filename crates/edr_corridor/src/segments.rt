//! The segments of a line.
ghost use Rattle.std.specs.Prelude.{◌≡◌, ◌+◌, ◌<◌, ◌≤◌, ◌&&◌, nat_lt, None, true, false, length, option_map, IfOk, IfSome, IsSome};
ghost use Rattle.std.specs.List.{All};
ghost use Rattle.edr_wkt.specs.Faults.{IsInRange};
ghost use Rattle.edr_base.specs.Limits.{IsCoordinate, IsMetres};
ghost use Rattle.edr_geometry.specs.Masks.{spot_at};
ghost use Rattle.edr_corridor.specs.Values.{needs_level};
ghost use Rattle.edr_corridor.specs.Segments as segments;
ghost use Rattle.edr_corridor.specs.Boxes.{AddsNothing, TakesNodes, LiesOn, LiesNear};
ghost use Rattle.edr_corridor.specs.Parts.{IsSegment, IsSegmentAt};

use crate::boxes::SegmentBox;
use crate::rectangles::rectangles_where;
use crate::repeats::repeats_of;
use crate::segment::{Node, Rule, Segment};
use edr_axes::Axis;
use edr_base::{OutOfMemory, Position, Spot};
use std::alloc::Global;
use std::marker::Model;

/// The segments of a line, and what a corridor asks of each of them (OGC 19-086r6, section 8).
///
/// A segment takes the places at most half the width away from it. With m it takes the times from one end to the other, both
/// included, and else every time. With z it takes the levels at most half the height away from those from one end to the other;
/// else those at most half the height away from a single level that is asked; else every level, and nodes that have none.
#[derive(Debug, Drop)]
pub struct Segments {
    line: Vec<Position>,
    // For each segment whether it is the same as one before.
    repeats: Vec<bool>,
    rule: Rule,
}

impl Model for Segments {
    ghost use Rattle.edr_corridor.specs.Values.{SegmentsValue};

    ghost Value = { SegmentsValue };

    ghost use Rattle.edr_corridor.specs.Values.{IsSegments};

    ghost view = { λ s. record {
      line = s.line.items;
      has_z = s.rule.has_z;
      has_m = s.rule.has_m;
      width = s.rule.width;
      level = s.rule.level;
      height = s.rule.height;
    } };

    ghost use Rattle.edr_corridor.specs.Repeats.{AreRepeats};

    ghost invariant = { λ s. IsSegments (record {
      line = s.line.items;
      has_z = s.rule.has_z;
      has_m = s.rule.has_m;
      width = s.rule.width;
      level = s.rule.level;
      height = s.rule.height;
    }) × AreRepeats s.line.items s.repeats.items };
}

// Whether two ranges have places.
fn have_places(times: (usize, usize), levels: (usize, usize)) -> bool
    ensures { result ≡ (nat_lt times.0 times.1 && nat_lt levels.0 levels.1) }
{
    times.0 < times.1 && levels.0 < levels.1
}

impl Segments {
    /// The segments of a line, or want of memory.
    ///
    /// `has_z` and `has_m` say whether its positions have a level and a time. `width` and `height` are the whole ones, in metres.
    /// `level` is a single level that is asked; it has no effect where the line has z.
    pub fn of(
        alloc: Global,
        line: &[Position],
        has_z: bool,
        has_m: bool,
        width: i64,
        level: Option<i64>,
        height: Option<i64>,
    ) -> Result<Segments, OutOfMemory>
        requires some { 2 ≤ length line.now }
        requires line_in { All IsInRange line.now }
        requires width_in { IsMetres width }
        requires level_in { IfSome level IsCoordinate }
        requires height_in { IfSome height IsMetres }
        requires height_about_z { has_z ≡ true → IsSome height }
        requires height_about_level { IsSome level → IsSome height }
        ensures { IfOk result (λ s. s ≡ record { line = line.now; has_z = has_z; has_m = has_m; width = width; level = level; height = height }) }
    {
        Ok(Segments {
            line: Vec::from_slice(alloc, line)?,
            repeats: repeats_of(alloc, line)?,
            rule: Rule {
                has_z,
                has_m,
                width,
                level,
                height,
            },
        })
    }

    /// How many segments there are, one less than the positions of the line.
    pub fn len(&self) -> usize
        ensures { result + 1 ≡ length self.now.line }
    {
        self.line.len() - 1
    }

    // The segment of a number, from 0.
    fn segment(&self, number: usize) -> Segment
        requires { number + 1 < length self.now.line }
        ensures segment { IsSegment result }
        ensures at { IsSegmentAt self.now number result }
    {
        Segment {
            start: self.line[number],
            end: self.line[number + 1],
            rule: self.rule,
        }
    }

    /// Whether one and the same segment takes a time, a level and a place. It takes no memory.
    ///
    /// `t` is in seconds since 1970-01-01T00:00:00Z; `z`, where there is a level, `y` and `x` are in metres.
    /// Where the line has z or a level is asked, a node without a level isn't taken.
    pub fn wants(&self, t: i64, z: Option<i64>, y: i64, x: i64) -> bool
        requires z_in { IfSome z IsCoordinate }
        requires y_in { IsCoordinate y }
        requires x_in { IsCoordinate x }
        ensures { result ≡ segments.wants self.now t z (spot_at y x) }
    {
        let node = Node {
            t,
            z,
            spot: Spot { x, y },
        };
        for number in 0..self.len() {
            if self.segment(number).takes(&node) {
                return true;
            }
        }
        false
    }

    /// Whether the segment of a number, from 0, may take places of some y and x that none before it takes. It takes no memory.
    ///
    /// It may not where it is the same as one before, and where all y, or all x, are more than half the width away from it.
    pub fn adds(&self, number: usize, ys: &Axis, xs: &Axis) -> bool
        requires inside { number + 1 < length self.now.line }
        requires ys_in { All IsCoordinate ys.now }
        requires xs_in { All IsCoordinate xs.now }
        ensures { result ≡ false → AddsNothing self.now number ys.now xs.now }
    {
        !self.repeats[number] && !self.segment(number).misses(ys, xs)
    }

    /// What the segment of a number, from 0, takes of the nodes of a grid, or want of memory.
    ///
    /// The axes have times in seconds since 1970-01-01T00:00:00Z, and levels, y and x in metres. Where the line has z or a level is
    /// asked there is an axis of levels. Only rows, or columns where these are fewer, at most
    /// half the width away from the segment are looked at.
    pub fn box_of(
        &self,
        alloc: Global,
        segment: usize,
        ts: &Axis,
        zs: Option<&Axis>,
        ys: &Axis,
        xs: &Axis,
    ) -> Result<SegmentBox, OutOfMemory>
        requires inside { segment + 1 < length self.now.line }
        requires levels { needs_level self.now ≡ true → IsSome zs }
        requires ys_in { All IsCoordinate ys.now }
        requires xs_in { All IsCoordinate xs.now }
        ensures takes { IfOk result (λ taken. TakesNodes self.now segment (record { ts = ts.now; zs = option_map (λ zs. zs.now) zs.entry; ys = ys.now; xs = xs.now }) taken) }
        ensures on { IfOk result (λ taken. LiesOn (record { ts = ts.now; zs = option_map (λ zs. zs.now) zs.entry; ys = ys.now; xs = xs.now }) taken) }
        ensures near { IfOk result (λ taken. LiesNear self.now segment (record { ts = ts.now; zs = option_map (λ zs. zs.now) zs.entry; ys = ys.now; xs = xs.now }) taken) }
        ensures without_levels { IfOk result (λ taken. zs.entry ≡ None → taken.levels ≡ (0, 1)) }
    {
        let segment = self.segment(segment);
        let times = segment.times_on(ts);
        let levels = segment.levels_on(zs);
        let asked = have_places(times, levels);
        Ok(SegmentBox {
            times,
            levels,
            rectangles: rectangles_where(alloc, asked, &segment, ys, xs)?,
        })
    }
}
