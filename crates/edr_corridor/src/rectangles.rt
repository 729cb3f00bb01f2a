//! Rectangles of the nodes of a plane that are near a segment.
ghost use Rattle.std.specs.Prelude.{◌≡◌, ◌==◌, ◌<◌, ◌≤◌, ◌+◌, ◌^◌, ◌&&◌, ◌||◌, ℕ, true, length, IfOk, OnOk};
ghost use Rattle.std.specs.List.{All};
ghost use Rattle.edr_base.specs.Limits.{IsCoordinate};
ghost use Rattle.edr_geometry.specs.Ranges as ranges;
ghost use Rattle.edr_geometry.specs.Ranges.{IsRange, AreRanges, lies_in_some};
ghost use Rattle.edr_corridor.specs.Boxes.{IsWithin};
ghost use Rattle.edr_corridor.specs.Parts.{IsSegment, HasPlaces, HaveSpots, HaveMore, HaveNear, AreNear, AreAlong, have_along, near_x, near_y, rectangle_along};

use crate::boxes::Rectangle;
use crate::segment::Segment;
use edr_axes::Axis;
use edr_base::{OutOfMemory, Spot};
use edr_geometry::{NearRanges, Strip, near_is_exchanged, spot_of};
use std::alloc::{AllocError, Global};

// The rectangle of a range of places along a row, or along a column where it is upright.
fn along(upright: bool, line: usize, range: (usize, usize)) -> Rectangle
    requires { line + 1 < 2 ^ 64 }
    ensures { result ≡ rectangle_along upright line range }
{
    let one = (line, line + 1);
    if upright {
        Rectangle {
            rows: range,
            columns: one,
        }
    } else {
        Rectangle {
            rows: one,
            columns: range,
        }
    }
}

// Adds a range of places along a row or a column, where it has some.
fn add(
    rectangles: &mut Vec<Rectangle>,
    upright: bool,
    line: usize,
    range: (usize, usize),
) -> Result<(), AllocError>
    requires { line + 1 < 2 ^ 64 }
    ensures more { OnOk result (HaveMore upright line range rectangles.old.items rectangles.new.items) }
    ensures along { OnOk result ((lines places : ℕ) → line < lines → IsRange places range → AreAlong upright lines places rectangles.old.items → AreAlong upright lines places rectangles.new.items) }
{
    if range.0 < range.1 {
        rectangles.push(along(upright, line, range))?;
    }
    Ok(())
}

// Adds the places of a row or a column near a segment.
fn add_line(
    rectangles: &mut Vec<Rectangle>,
    upright: bool,
    line: usize,
    ranges: &NearRanges,
) -> Result<(), AllocError>
    requires { line + 1 < 2 ^ 64 }
    ensures more { OnOk result ((l p : ℕ) → have_along upright rectangles.new.items l p ≡ (have_along upright rectangles.old.items l p || ((l == line) && lies_in_some ranges.now p))) }
    ensures along { OnOk result ((lines places : ℕ) → line < lines → AreRanges places ranges.now → AreAlong upright lines places rectangles.old.items → AreAlong upright lines places rectangles.new.items) }
{
    add(rectangles, upright, line, ranges.before)?;
    add(rectangles, upright, line, ranges.beside)?;
    add(rectangles, upright, line, ranges.behind)
}

// The places near a segment of the rows of a range, or of the columns.
fn lines_near(
    alloc: Global,
    upright: bool,
    strip: &Strip,
    lines: &Axis,
    range: (usize, usize),
    across: &Axis,
) -> Result<Vec<Rectangle>, OutOfMemory>
    requires inside { IsRange (length lines.now) range }
    requires lines_in { All IsCoordinate lines.now }
    requires across_in { All IsCoordinate across.now }
    ensures near { IfOk result (λ rectangles. HaveNear upright strip.now lines.now across.now range rectangles.items) }
    ensures along { IfOk result (λ rectangles. AreAlong upright (length lines.now) (length across.now) rectangles.items) }
{
    let mut rectangles = Vec::new(alloc);
    for line in range.0..range.1 {
        let ranges = strip.near_row(lines.value(line), across);
        add_line(&mut rectangles, upright, line, &ranges)?;
    }
    Ok(rectangles)
}

// The nodes near a segment, row by row.
fn rows_near(
    alloc: Global,
    segment: &Segment,
    ys: &Axis,
    xs: &Axis,
    rows: (usize, usize),
) -> Result<Vec<Rectangle>, OutOfMemory>
    requires segment { IsSegment segment.now }
    requires ys_in { All IsCoordinate ys.now }
    requires xs_in { All IsCoordinate xs.now }
    requires rows { HasPlaces ys.now (near_y segment.now) rows }
    ensures spots { IfOk result (λ rectangles. HaveSpots segment.now ys.now xs.now rectangles.items) }
    ensures within { IfOk result (λ rectangles. All (IsWithin (length ys.now) (length xs.now)) rectangles.items) }
{
    let start = spot_of(&segment.start);
    let end = spot_of(&segment.end);
    let strip = Strip::of(start, end, segment.rule.width);
    let rectangles = lines_near(alloc, false, &strip, ys, rows, xs)?;
    Ok(rectangles)
}

// A place with x and y exchanged.
fn exchanged(spot: &Spot) -> Spot
    ensures { result ≡ ranges.exchanged spot.now }
{
    Spot {
        x: spot.y,
        y: spot.x,
    }
}

// The nodes near a segment, column by column.
fn columns_near(
    alloc: Global,
    segment: &Segment,
    ys: &Axis,
    xs: &Axis,
    columns: (usize, usize),
) -> Result<Vec<Rectangle>, OutOfMemory>
    requires segment { IsSegment segment.now }
    requires ys_in { All IsCoordinate ys.now }
    requires xs_in { All IsCoordinate xs.now }
    requires columns { HasPlaces xs.now (near_x segment.now) columns }
    ensures spots { IfOk result (λ rectangles. HaveSpots segment.now ys.now xs.now rectangles.items) }
    ensures within { IfOk result (λ rectangles. All (IsWithin (length ys.now) (length xs.now)) rectangles.items) }
{
    near_is_exchanged();
    let start = exchanged(&spot_of(&segment.start));
    let end = exchanged(&spot_of(&segment.end));
    let strip = Strip::of(start, end, segment.rule.width);
    let rectangles = lines_near(alloc, true, &strip, xs, columns, ys)?;
    Ok(rectangles)
}

// The node of one row and one column, where it is near a segment.
fn node_near(
    alloc: Global,
    segment: &Segment,
    ys: &Axis,
    xs: &Axis,
    rows: (usize, usize),
    columns: (usize, usize),
) -> Result<Vec<Rectangle>, OutOfMemory>
    requires segment { IsSegment segment.now }
    requires ys_in { All IsCoordinate ys.now }
    requires xs_in { All IsCoordinate xs.now }
    requires rows { HasPlaces ys.now (near_y segment.now) rows }
    requires columns { HasPlaces xs.now (near_x segment.now) columns }
    requires one { (rows.1 ≡ rows.0 + 1) × (columns.1 ≡ columns.0 + 1) }
    ensures spots { IfOk result (λ rectangles. HaveSpots segment.now ys.now xs.now rectangles.items) }
    ensures within { IfOk result (λ rectangles. All (IsWithin (length ys.now) (length xs.now)) rectangles.items) }
{
    let mut rectangles = Vec::new(alloc);
    let spot = Spot {
        x: xs.value(columns.0),
        y: ys.value(rows.0),
    };
    if segment.takes_spot(spot) {
        rectangles.push(Rectangle { rows, columns })?;
    }
    Ok(rectangles)
}

// Whether a range has one place.
fn is_one(range: (usize, usize)) -> bool
    requires { range.0 ≤ range.1 }
    ensures { result ≡ true → range.1 ≡ range.0 + 1 }
{
    range.1 - range.0 == 1
}

// Whether a range has no place.
fn is_none(range: (usize, usize)) -> bool
    ensures { result ≡ true → range.1 ≤ range.0 }
{
    range.1 <= range.0
}

/// The nodes of a plane near a segment, or want of memory.
///
/// They are found row by row, or column by column where there are fewer of these, and one node by itself. Only rows or columns at
/// most half the width away from the segment are looked at, and no distance is reckoned where there are none of these.
pub fn rectangles_of(
    alloc: Global,
    segment: &Segment,
    ys: &Axis,
    xs: &Axis,
) -> Result<Vec<Rectangle>, OutOfMemory>
    requires segment { IsSegment segment.now }
    requires ys_in { All IsCoordinate ys.now }
    requires xs_in { All IsCoordinate xs.now }
    ensures spots { IfOk result (λ rectangles. HaveSpots segment.now ys.now xs.now rectangles.items) }
    ensures within { IfOk result (λ rectangles. All (IsWithin (length ys.now) (length xs.now)) rectangles.items) }
{
    let rows = segment.rows().places_on(ys);
    if is_none(rows) {
        return Ok(Vec::new(alloc));
    }
    let columns = segment.columns().places_on(xs);
    if is_none(columns) {
        return Ok(Vec::new(alloc));
    }
    if is_one(rows) && is_one(columns) {
        node_near(alloc, segment, ys, xs, rows, columns)
    } else if columns.1 - columns.0 < rows.1 - rows.0 {
        columns_near(alloc, segment, ys, xs, columns)
    } else {
        rows_near(alloc, segment, ys, xs, rows)
    }
}

/// The same where some nodes are asked, and else no nodes.
pub fn rectangles_where(
    alloc: Global,
    asked: bool,
    segment: &Segment,
    ys: &Axis,
    xs: &Axis,
) -> Result<Vec<Rectangle>, OutOfMemory>
    requires segment { IsSegment segment.now }
    requires ys_in { All IsCoordinate ys.now }
    requires xs_in { All IsCoordinate xs.now }
    ensures spots { asked ≡ true → IfOk result (λ rectangles. HaveSpots segment.now ys.now xs.now rectangles.items) }
    ensures within { IfOk result (λ rectangles. All (IsWithin (length ys.now) (length xs.now)) rectangles.items) }
    ensures near { IfOk result (λ rectangles. AreNear segment.now ys.now xs.now rectangles.items) }
{
    if !asked {
        return Ok(Vec::new(alloc));
    }
    let rectangles = rectangles_of(alloc, segment, ys, xs)?;
    Ok(rectangles)
}
