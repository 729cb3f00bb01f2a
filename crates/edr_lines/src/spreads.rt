//! How far what a corridor takes spreads along the axes of some nodes.
ghost use Rattle.std.specs.Prelude.{◌≡◌, ◌+◌, ◌<◌, ◌≤◌, true, false, length, IfOk, OnOk, IsSome};
ghost use Rattle.std.specs.List.{All};
ghost use Rattle.edr_base.specs.Limits.{IsCoordinate};
ghost use Rattle.edr_corridor.specs.Values.{needs_level};
ghost use Rattle.edr_axes.specs.Axes.{axis_length};
ghost use Rattle.edr_corridor.specs.Boxes.{LiesOn, IsWithin, has_place};
ghost use Rattle.edr_lines.specs.Plans.{axes_of, IsFew};
ghost use Rattle.edr_lines.specs.Taken.{NodeTest, counts_of, either};
ghost use Rattle.edr_lines.specs.Corridors.{LiesAlong, takes, takes_first};
ghost use Rattle.edr_lines.specs.Boxes.{MatchPlane, IsExtentOf, IsSpreadOf, SetAsked, extent_with, joined_extent, box_passes, some_asked, has_node};

use crate::corridors::Corridor;
use edr_axes::Axis;
use edr_base::OutOfMemory;
use edr_corridor::{Rectangle, SegmentBox};
use edr_edition::GridInstance;
use std::alloc::Global;
use std::marker::Model;

/// The axes of nodes: times in seconds since 1970-01-01T00:00:00Z, and levels where there are any, y and x in metres.
#[derive(Drop)]
pub struct Axes<'a> {
    pub ts: &'a Axis,
    pub zs: Option<&'a Axis>,
    pub ys: &'a Axis,
    pub xs: &'a Axis,
}

impl<'a> Model for Axes<'a> {
    ghost use Rattle.std.specs.Prelude.{option_map};
    ghost use Rattle.edr_corridor.specs.Boxes.{GridAxes};

    ghost Value = { GridAxes };

    ghost view = { λ a. record {
      ts = a.ts.now;
      zs = option_map (λ zs. zs.now) a.zs;
      ys = a.ys.now;
      xs = a.xs.now;
    } };
}

impl<'a> Axes<'a> {
    // The axes of a grid.
    pub(crate) fn of_grid(instance: &'a GridInstance) -> Axes<'a>
        ensures { result ≡ axes_of instance.now }
    {
        Axes {
            ts: instance.times(),
            zs: instance.levels(),
            ys: instance.ys(),
            xs: instance.xs(),
        }
    }

    // How many levels there are; without an axis of levels each node stands at the one without a level.
    pub(crate) fn level_count(&self) -> usize
        ensures { result ≡ axis_length self.now.zs }
    {
        match self.zs {
            Some(axis) => axis.len(),
            None => 1,
        }
    }
}

// The least box of rows and columns with some nodes: the first and the last of each.
#[derive(Clone, Copy)]
pub(crate) struct Extent {
    pub(crate) top: usize,
    pub(crate) bottom: usize,
    pub(crate) left: usize,
    pub(crate) right: usize,
}

impl Extent {
    // The least one with another.
    fn with(self, other: Extent) -> Extent
        ensures { result ≡ extent_with self other }
    {
        Extent {
            top: self.top.min(other.top),
            bottom: self.bottom.max(other.bottom),
            left: self.left.min(other.left),
            right: self.right.max(other.right),
        }
    }
}

// The least one with another, where there is one.
fn joined(extent: Option<Extent>, other: Extent) -> Extent
    ensures { result ≡ joined_extent extent other }
{
    match extent {
        Some(extent) => extent.with(other),
        None => other,
    }
}

// The extent of the nodes of a rectangle.
fn extent_of_rectangle(axes: &Axes<'_>, rectangle: &Rectangle) -> Extent
    requires { IsWithin (length axes.now.ys) (length axes.now.xs) rectangle.now }
    ensures { IsExtentOf (counts_of axes.now) (has_place rectangle.now) result }
{
    let _ = axes;
    Extent {
        top: rectangle.rows.0,
        bottom: rectangle.rows.1 - 1,
        left: rectangle.columns.0,
        right: rectangle.columns.1 - 1,
    }
}

// The extent of the nodes of a plane that a box has, or None where it has none.
fn extent_of(axes: &Axes<'_>, taken: &SegmentBox) -> Option<Extent>
    requires on { LiesOn axes.now taken.now }
    ensures { MatchPlane (counts_of axes.now) (has_node taken.now) result }
{
    let mut extent = None;
    for number in 0..taken.rectangles.len() {
        let other = extent_of_rectangle(axes, &taken.rectangles[number]);
        extent = Some(joined(extent, other));
    }
    extent
}

// Whether a place of a range is asked.
pub(crate) fn has_asked(asked: &[bool], range: (usize, usize)) -> bool
    requires ordered { range.0 ≤ range.1 }
    requires inside { range.1 ≤ length asked.now }
    ensures { result ≡ some_asked asked.now range }
{
    for place in range.0..range.1 {
        if asked[place] {
            return true;
        }
    }
    false
}

// Sets the places of a range that are asked.
fn set_asked(set: &mut [bool], asked: &[bool], range: (usize, usize))
    requires ordered { range.0 ≤ range.1 }
    requires inside { range.1 ≤ length asked.now }
    requires full { length set.old ≡ length asked.now }
    ensures { SetAsked asked.now range set.old set.new }
{
    for place in range.0..range.1 {
        if asked[place] {
            set[place] = true;
        }
    }
}

// The times and the levels that occur, by their places, and the extent of the nodes.
#[derive(Drop)]
pub(crate) struct Spread {
    pub(crate) times: Vec<bool>,
    pub(crate) levels: Vec<bool>,
    pub(crate) extent: Option<Extent>,
}

impl Model for Spread {
    ghost use Rattle.edr_lines.specs.Boxes.{SpreadValue};

    ghost Value = { SpreadValue };

    ghost view = { λ s. record { times = s.times.items; levels = s.levels.items; extent = s.extent } };
}

// Of no node.
pub(crate) fn no_spread(alloc: Global, axes: &Axes<'_>) -> Result<Spread, OutOfMemory>
    ensures { IfOk result (IsSpreadOf (counts_of axes.now) (λ t z y x. false)) }
{
    let mut times = Vec::new(alloc);
    times.resize(axes.ts.len(), false)?;
    let mut levels = Vec::new(alloc);
    levels.resize(axes.level_count(), false)?;
    Ok(Spread {
        times,
        levels,
        extent: None,
    })
}

impl Spread {
    // Adds what a box takes of what is asked.
    fn add(&mut self, corridor: &Corridor<'_>, axes: &Axes<'_>, taken: &SegmentBox)
        requires along { LiesAlong axes.now corridor.now }
        requires on { LiesOn axes.now taken.now }
        requires full { (length self.old.times ≡ length axes.now.ts) × (length self.old.levels ≡ axis_length axes.now.zs) }
        ensures { (takes : NodeTest) → IsSpreadOf (counts_of axes.now) takes self.old → IsSpreadOf (counts_of axes.now) (either takes (box_passes corridor.now taken.now)) self.new }
    {
        let Some(extent) = extent_of(axes, taken) else {
            return;
        };
        if !has_asked(&corridor.times, taken.times) || !has_asked(&corridor.levels, taken.levels) {
            return;
        }
        set_asked(&mut self.times, &corridor.times, taken.times);
        set_asked(&mut self.levels, &corridor.levels, taken.levels);
        self.extent = Some(joined(self.extent, extent));
    }

    // Adds what the segment of a number takes of what is asked, besides those before it.
    pub(crate) fn add_segment(
        &mut self,
        alloc: Global,
        corridor: &Corridor<'_>,
        axes: &Axes<'_>,
        number: usize,
    ) -> Result<(), OutOfMemory>
        requires along { LiesAlong axes.now corridor.now }
        requires levels { needs_level corridor.now.segments ≡ true → IsSome axes.now.zs }
        requires ys_in { All IsCoordinate axes.now.ys }
        requires xs_in { All IsCoordinate axes.now.xs }
        requires inside { number + 1 < length corridor.now.segments.line }
        requires spread { IsSpreadOf (counts_of axes.now) (takes_first corridor.now axes.now number) self.old }
        ensures { OnOk result (IsSpreadOf (counts_of axes.now) (takes_first corridor.now axes.now (number + 1)) self.new) }
    {
        if corridor.segments.adds(number, axes.ys, axes.xs) {
            let taken = corridor
                .segments
                .box_of(alloc, number, axes.ts, axes.zs, axes.ys, axes.xs)?;
            self.add(corridor, axes, &taken);
        }
        Ok(())
    }
}

// How far what a corridor takes spreads.
pub(crate) fn spread_of(
    alloc: Global,
    corridor: &Corridor<'_>,
    axes: &Axes<'_>,
) -> Result<Spread, OutOfMemory>
    requires few { IsFew axes.now }
    requires along { LiesAlong axes.now corridor.now }
    requires levels { needs_level corridor.now.segments ≡ true → IsSome axes.now.zs }
    requires ys_in { All IsCoordinate axes.now.ys }
    requires xs_in { All IsCoordinate axes.now.xs }
    ensures { IfOk result (IsSpreadOf (counts_of axes.now) (takes corridor.now axes.now)) }
{
    let mut spread = no_spread(alloc, axes)?;
    for number in 0..corridor.segments.len() {
        spread.add_segment(alloc, corridor, axes, number)?;
    }
    Ok(spread)
}
