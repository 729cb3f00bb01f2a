//! Corridors that people can draw: a line for each row of nodes, cut here. `#` is a place that is wanted, `.` one that isn't.
ghost use Rattle.std.specs.Prelude.{◌≡◌, ◌<◌, true, length, IfSome, IsSome};
ghost use Rattle.std.specs.List.{All};
ghost use Rattle.edr_wkt.specs.Faults.{IsGeometry};
ghost use Rattle.edr_base.specs.Limits.{IsCoordinate, IsMetres};
ghost use Rattle.edr_corridor.specs.Values.{needs_level};

use crate::words::{axis_of, coordinate, distance, is_marked};
use edr_axes::Axis;
use edr_corridor::{Rectangle, SegmentBox, Segments};
use edr_wkt::{Geometry, read_wkt};
use std::alloc::Global;
use std::rt::HostRuntime;

// The width, a single level that is asked, the height; a line; the time, the level and the y of a row; its x; which of its nodes are wanted.
const ROWS: &str = "\
# half the width on both sides, and a metre less
100 - -;LINESTRING(0 50,200 50);1704070800 - 0;0 100 200 => ###
100 - -;LINESTRING(0 50,200 50);1704070800 - 100;0 100 200 => ###
99 - -;LINESTRING(0 50,200 50);1704070800 - 0;0 100 200 => ...
100 - -;LINESTRING(0 50,200 50);1704070800 - 101;0 100 200 => ...
# an end half the width away, before and behind, and of a width that is odd
100 - -;LINESTRING(50 0,150 0);0 - 0;-1 0 100 200 201 => .###.
99 - -;LINESTRING(50 0,150 0);0 - 0;0 1 100 199 200 => .###.
1 - -;LINESTRING(0 0,2 2);0 - 1;-1 0 1 2 3 => ..#..
# about a segment of no length, a disc
100 - -;LINESTRING(100 0,100 0);0 - 30;59 60 100 140 141 => .###.
# vertices outside the axes
0 - -;LINESTRING(-50 -50,250 250);0 - 100;0 100 200 => .#.
100 - -;LINESTRING(-500 0,-51 0);0 - 0;0 100 => ..
100 - -;LINESTRING(-500 0,-50 0);0 - 0;0 100 => #.
# one segment or the other, and the last of three
0 - -;LINESTRING(0 0,0 100,100 100);0 - 100;0 50 100 101 => ###.
0 - -;LINESTRING(0 0,0 100,100 100);0 - 50;0 50 100 => #..
0 - -;LINESTRING(0 0,0 100,100 100,100 0);0 - 50;0 50 100 => #.#
# the times of a segment, both ends included
0 - -;LINESTRINGM(0 0 1704067200,200 0 1704070800);1704067200 - 0;0 100 200 => ###
0 - -;LINESTRINGM(0 0 1704067200,200 0 1704070800);1704070800 - 0;0 100 200 => ###
0 - -;LINESTRINGM(0 0 1704067200,200 0 1704070800);1704070801 - 0;0 100 200 => ...
0 - -;LINESTRINGM(0 0 1704067200,200 0 1704070800);1704067199 - 0;0 100 200 => ...
# one and the same segment takes time and place
100 - -;LINESTRINGM(100 0 1704067201,150 -1000 1704067202,150 -2000 1704070801);1704070800 - 0;0 100 200 => ...
100 - -;LINESTRINGM(100 0 1704067201,150 -1000 1704067202,150 -2000 1704070801);1704067201 - 0;0 100 200 => .#.
0 - -;LINESTRINGM(0 0 1704067200,100 0 1704067201,200 100 1704070800);1704070800 - 0;0 100 200 => .#.
0 - -;LINESTRINGM(0 0 1704067200,100 0 1704067201,200 100 1704070800);1704070800 - 100;0 100 200 => ..#
# m that is equal along the line is one time
0 - -;LINESTRINGM(0 0 5,100 0 5,200 0 5);4 - 0;0 100 200 => ...
0 - -;LINESTRINGM(0 0 5,100 0 5,200 0 5);5 - 0;0 100 200 => ###
0 - -;LINESTRINGM(0 0 5,100 0 5,200 0 5);6 - 0;0 100 200 => ...
# a line that crosses itself: each segment has times of its own
0 - -;LINESTRINGM(0 0 0,100 100 10,100 0 20,0 100 30);5 - 50;0 50 100 => .#.
0 - -;LINESTRINGM(0 0 0,100 100 10,100 0 20,0 100 30);15 - 50;0 50 100 => ..#
0 - -;LINESTRINGM(0 0 0,100 100 10,100 0 20,0 100 30);20 - 50;0 50 100 => .##
0 - -;LINESTRINGM(0 0 0,100 100 10,100 0 20,0 100 30);25 - 50;0 50 100 => .#.
# half the height above and below a single level, and a metre less
0 10 20;LINESTRING(0 0,0 0);1704067200 0 0;0 => #
0 10 20;LINESTRING(0 0,0 0);1704067200 20 0;0 => #
0 10 19;LINESTRING(0 0,0 0);1704067200 0 0;0 => .
0 10 19;LINESTRING(0 0,0 0);1704067200 10 0;0 => #
0 10 19;LINESTRING(0 0,0 0);1704067200 20 0;0 => .
0 10 21;LINESTRING(0 0,0 0);1704067200 -1 0;0 => .
0 10 21;LINESTRING(0 0,0 0);1704067200 0 0;0 => #
0 10 0;LINESTRING(0 0,0 0);1704067200 10 0;0 => #
0 10 0;LINESTRING(0 0,0 0);1704067200 11 0;0 => .
# half the height above and below the z of a segment
0 - 5;LINESTRING Z(0 0 5,0 0 8);1704067200 2 0;0 => .
0 - 5;LINESTRING Z(0 0 5,0 0 8);1704067200 3 0;0 => #
0 - 5;LINESTRING Z(0 0 5,0 0 8);1704067200 10 0;0 => #
0 - 5;LINESTRING Z(0 0 5,0 0 8);1704067200 11 0;0 => .
0 - 0;LINESTRING Z(0 0 20,0 0 0);1704067200 10 0;0 => #
# one and the same segment takes level and place
0 - 0;LINESTRING Z(0 0 0,100 0 0,100 100 20);1704067200 20 0;0 100 => .#
0 - 0;LINESTRING Z(0 0 0,100 0 0,100 100 20);1704067200 0 0;0 100 => ##
# a height alone has no effect, and every level and none is taken
0 - 5;LINESTRING(0 0,0 0);1704067200 1000 0;0 => #
0 - 5;LINESTRING(0 0,0 0);1704067200 - 0;0 => #
# z and m together
0 - 2;LINESTRING ZM(0 0 0 5,10 0 10 9);9 11 0;-1 0 10 11 => .##.
0 - 2;LINESTRING ZM(0 0 0 5,10 0 10 9);9 12 0;-1 0 10 11 => ....
0 - 2;LINESTRING ZM(0 0 0 5,10 0 10 9);10 11 0;-1 0 10 11 => ....
# at the ends of the limits
400000000 - -;LINESTRING(100000000 -100000000,100000000 100000000);0 - 0;-100000000 0 100000000 => ###
0 100000000 400000000;LINESTRING(0 0,0 0);0 -100000000 0;0 => #
0 100000000 399999999;LINESTRING(0 0,0 0);0 -100000000 0;0 => .
";

// Corridors whose nodes are tested one by one, of a tall plane and of a wide one.
const PLANES: &str = "\
10 - -;LINESTRING(-30 -20,30 20)
10 - -;LINESTRING(-20 -30,20 30,-20 35,0 -40)
0 - -;LINESTRING(0 0,5 10)
0 - -;LINESTRING(5 -100,5 100)
7 - -;LINESTRING(-100 4,100 5)
24 - -;LINESTRING(0 0,0 0)
400000000 - -;LINESTRING(0 0,1 1)
30 - -;LINESTRING(100 0,100 100)
";

const MANY: &str = "-40 -35 -30 -25 -20 -15 -10 -5 0 5 10 15 20 25 30 35 40";

const FEW: &str = "-5 0 5";

// A level, where there is one.
fn level_if(text: &str) -> Option<i64>
    ensures { IfSome result IsCoordinate }
{
    if text == "-" { None } else { coordinate(text) }
}

// A height, where there is one.
fn height_if(text: &str) -> Option<i64>
    ensures { IfSome result IsMetres }
{
    if text == "-" { None } else { distance(text) }
}

// An axis of levels, where there are any.
fn levels_of(alloc: Global, text: &str) -> Option<Axis>
    ensures { IfSome result (λ axis. All IsCoordinate axis) }
{
    if text == "-" {
        None
    } else {
        axis_of(alloc, text)
    }
}

// An axis of times.
fn times_of(alloc: Global, text: &str) -> Option<Axis> {
    let mut times = Vec::new(alloc);
    for word in text.split(' ') {
        times.push(word.parse::<i64>().ok()?).ok()?;
    }
    Axis::of(alloc, &times).ok()
}

// The axes of some nodes, where those without a level have no axis of levels.
#[derive(Drop)]
struct Axes {
    ts: Axis,
    zs: Option<Axis>,
    ys: Axis,
    xs: Axis,
}

// The axes of four texts.
fn axes_of(alloc: Global, times: &str, levels: &str, rows: &str, columns: &str) -> Option<Axes>
    ensures zs_in { IfSome result (λ axes. IfSome axes.zs (All IsCoordinate)) }
    ensures ys_in { IfSome result (λ axes. All IsCoordinate axes.ys) }
    ensures xs_in { IfSome result (λ axes. All IsCoordinate axes.xs) }
{
    let zs = levels_of(alloc, levels);
    match (
        times_of(alloc, times),
        axis_of(alloc, rows),
        axis_of(alloc, columns),
    ) {
        (Some(ts), Some(ys), Some(xs)) => Some(Axes { ts, zs, ys, xs }),
        _ => None,
    }
}

// The segments of a geometry that is a line, for nodes that have a level or not.
fn segments_along(
    alloc: Global,
    geometry: &Geometry,
    width: i64,
    level: Option<i64>,
    height: Option<i64>,
    zs: Option<&Axis>,
) -> Option<Segments>
    requires geometry { IsGeometry geometry.now }
    requires width_in { IsMetres width }
    requires level_in { IfSome level IsCoordinate }
    requires height_in { IfSome height IsMetres }
    ensures { IfSome result (λ segments. needs_level segments ≡ true → IsSome zs.entry) }
{
    let Geometry::Line {
        has_z,
        has_m,
        positions,
    } = geometry
    else {
        return None;
    };
    let about = *has_z || level.is_some();
    if about && (height.is_none() || zs.is_none()) {
        return None;
    }
    let line = positions.items();
    Segments::of(alloc, line, *has_z, *has_m, width, level, height).ok()
}

// The segments of a line as text.
fn segments_of(alloc: Global, asked: &str, line: &str, zs: Option<&Axis>) -> Option<Segments>
    ensures { IfSome result (λ segments. needs_level segments ≡ true → IsSome zs.entry) }
{
    let (first, rest) = asked.split_once(' ')?;
    let (second, third) = rest.split_once(' ')?;
    let width = distance(first)?;
    let level = level_if(second);
    let height = height_if(third);
    let geometry = read_wkt(alloc, line.as_bytes()).ok()?;
    segments_along(alloc, &geometry, width, level, height, zs)
}

// Whether the nodes of a row are wanted so, each asked by itself.
fn are_wanted(segments: &Segments, t: i64, z: Option<i64>, y: i64, xs: &Axis, picture: &str) -> bool
    requires z_in { IfSome z IsCoordinate }
    requires y_in { IsCoordinate y }
    requires xs_in { All IsCoordinate xs.now }
{
    let mut right = xs.len() == picture.len();
    for place in 0..xs.len() {
        let wanted = segments.wants(t, z, y, xs.value(place));
        right = wanted == is_marked(picture, place) && right;
    }
    right
}

// Whether a place lies in a range.
fn lies_in(range: (usize, usize), place: usize) -> bool {
    range.0 <= place && place < range.1
}

// Whether one of some rectangles has a row and a column.
fn have_place(rectangles: &[Rectangle], row: usize, column: usize) -> bool {
    let mut has = false;
    for one in rectangles {
        has = lies_in(one.rows, row) && lies_in(one.columns, column) || has;
    }
    has
}

// Whether a box takes the node of the first time and level in a row and a column.
fn takes_place(taken: &SegmentBox, row: usize, column: usize) -> bool {
    taken.times == (0, 1) && taken.levels == (0, 1) && have_place(&taken.rectangles, row, column)
}

// Whether one of some boxes does.
fn one_takes(boxes: &[SegmentBox], row: usize, column: usize) -> bool {
    let mut taken = false;
    for one in boxes {
        taken = takes_place(one, row, column) || taken;
    }
    taken
}

// Whether the boxes of all segments together take so the nodes of the first time, level and row.
fn are_taken(boxes: &[SegmentBox], count: usize, picture: &str) -> bool {
    let mut right = count == picture.len();
    for place in 0..count {
        right = one_takes(boxes, 0, place) == is_marked(picture, place) && right;
    }
    right
}

// The boxes of all segments.
fn boxes_of(
    alloc: Global,
    segments: &Segments,
    ts: &Axis,
    zs: Option<&Axis>,
    ys: &Axis,
    xs: &Axis,
) -> Option<Vec<SegmentBox>>
    requires levels { needs_level segments.now ≡ true → IsSome zs }
    requires ys_in { All IsCoordinate ys.now }
    requires xs_in { All IsCoordinate xs.now }
{
    let mut boxes = Vec::new(alloc);
    for number in 0..segments.len() {
        let taken = segments.box_of(alloc, number, ts, zs, ys, xs).ok()?;
        boxes.push(taken).ok()?;
    }
    Some(boxes)
}

// The first value of an axis.
fn first_of(axis: &Axis) -> i64
    ensures { All IsCoordinate axis.now → IsCoordinate result }
{
    let _some = axis.len();
    axis.value(0)
}

// The first level, where there is one.
fn first_level(zs: Option<&Axis>) -> Option<i64>
    requires { IfSome zs (λ zs. All IsCoordinate zs.now) }
    ensures { IfSome result IsCoordinate }
{
    match zs {
        Some(zs) => Some(first_of(zs)),
        None => None,
    }
}

// Whether the nodes of a row are wanted so by some segments: by themselves, and by the boxes of all segments.
fn is_wanted(alloc: Global, segments: &Segments, axes: &Axes, picture: &str) -> Option<bool>
    requires levels { needs_level segments.now ≡ true → IsSome axes.now.zs }
    requires zs_in { IfSome axes.now.zs (All IsCoordinate) }
    requires ys_in { All IsCoordinate axes.now.ys }
    requires xs_in { All IsCoordinate axes.now.xs }
{
    let zs = axes.zs.as_ref();
    let y = first_of(&axes.ys);
    let boxes = boxes_of(alloc, segments, &axes.ts, zs, &axes.ys, &axes.xs)?;
    let wanted = are_wanted(
        segments,
        first_of(&axes.ts),
        first_level(zs),
        y,
        &axes.xs,
        picture,
    );
    Some(wanted && are_taken(&boxes, axes.xs.len(), picture))
}

// Whether the nodes of a row are wanted so by a corridor along a line.
fn is_along(alloc: Global, corridor: &str, line: &str, axes: &Axes, picture: &str) -> Option<bool>
    requires zs_in { IfSome axes.now.zs (All IsCoordinate) }
    requires ys_in { All IsCoordinate axes.now.ys }
    requires xs_in { All IsCoordinate axes.now.xs }
{
    let segments = segments_of(alloc, corridor, line, axes.zs.as_ref())?;
    is_wanted(alloc, &segments, axes, picture)
}

// The axes of a row: its time, its level and its y, and its x.
fn axes_at(alloc: Global, at: &str, along: &str) -> Option<Axes>
    ensures zs_in { IfSome result (λ axes. IfSome axes.zs (All IsCoordinate)) }
    ensures ys_in { IfSome result (λ axes. All IsCoordinate axes.ys) }
    ensures xs_in { IfSome result (λ axes. All IsCoordinate axes.xs) }
{
    let (first, rest) = at.split_once(' ')?;
    let (second, third) = rest.split_once(' ')?;
    axes_of(alloc, first, second, third, along)
}

// Whether a row as text is wanted so by a corridor.
fn is_row(alloc: Global, corridor: &str, line: &str, at: &str, along: &str, picture: &str) -> bool {
    match axes_at(alloc, at, along) {
        Some(axes) => is_along(alloc, corridor, line, &axes, picture) == Some(true),
        None => false,
    }
}

// Whether each node of a row is wanted exactly where a box takes it.
fn is_row_in(segments: &Segments, boxes: &[SegmentBox], axes: &Axes, row: usize) -> bool
    requires ys_in { All IsCoordinate axes.now.ys }
    requires xs_in { All IsCoordinate axes.now.xs }
    requires row { row < length axes.now.ys }
{
    let time = first_of(&axes.ts);
    let y = axes.ys.value(row);
    let mut right = true;
    for column in 0..axes.xs.len() {
        let wanted = segments.wants(time, None, y, axes.xs.value(column));
        right = one_takes(boxes, row, column) == wanted && right;
    }
    right
}

// Whether each node of a plane is wanted exactly where a box takes it.
fn is_plane(alloc: Global, corridor: &str, line: &str, axes: &Axes) -> Option<bool>
    requires ys_in { All IsCoordinate axes.now.ys }
    requires xs_in { All IsCoordinate axes.now.xs }
{
    let segments = segments_of(alloc, corridor, line, None)?;
    let boxes = boxes_of(alloc, &segments, &axes.ts, None, &axes.ys, &axes.xs)?;
    let mut right = true;
    for row in 0..axes.ys.len() {
        right = is_row_in(&segments, &boxes, axes, row) && right;
    }
    Some(right)
}

// Whether the nodes of a plane of these rows and columns are wanted so.
fn is_right_plane(alloc: Global, corridor: &str, rows: &str, columns: &str) -> bool {
    let (asked, line) = corridor.split_once(';').unwrap_or((corridor, ""));
    match axes_of(alloc, "0", "-", rows, columns) {
        Some(axes) => is_plane(alloc, asked, line, &axes) == Some(true),
        None => false,
    }
}

// The first corridor of which a plane isn't right, tall or wide; none is empty.
fn first_wrong_plane(alloc: Global, corridors: &str) -> &str {
    for line in corridors.lines() {
        if !is_right_plane(alloc, line, MANY, FEW) || !is_right_plane(alloc, line, FEW, MANY) {
            return line;
        }
    }
    ""
}

// Whether a line is right.
fn is_right(alloc: Global, asked: &str, picture: &str) -> bool {
    let (corridor, rest) = asked.split_once(';').unwrap_or((asked, ""));
    let (line, rest) = rest.split_once(';').unwrap_or((rest, ""));
    let (at, along) = rest.split_once(';').unwrap_or((rest, ""));
    is_row(alloc, corridor, line, at, along, picture)
}

// The first line that isn't right; none is empty.
fn first_wrong(alloc: Global, lines: &str) -> &str {
    for line in lines.lines() {
        let (asked, picture) = line.split_once(" => ").unwrap_or((line, ""));
        if !line.starts_with('#') && !is_right(alloc, asked, picture) {
            return line;
        }
    }
    ""
}

// Whether the first place of some rectangles is in the first row and the second column, and the last in the second row and the
// fourth column.
fn are_corners(rectangles: &[Rectangle]) -> Option<bool> {
    let first = rectangles.first()?;
    let last = rectangles.last()?;
    Some(first.rows.0 == 0 && first.columns.0 == 1 && last.rows.1 == 2 && last.columns.1 == 4)
}

// Whether the second of two segments takes these times, levels, rows and columns of a grid.
fn is_second_box(alloc: Global, segments: &Segments, axes: &Axes) -> Option<bool>
    requires levels { needs_level segments.now ≡ true → IsSome axes.now.zs }
    requires ys_in { All IsCoordinate axes.now.ys }
    requires xs_in { All IsCoordinate axes.now.xs }
{
    if segments.len() != 2 {
        return None;
    }
    let zs = axes.zs.as_ref();
    let taken = segments
        .box_of(alloc, 1, &axes.ts, zs, &axes.ys, &axes.xs)
        .ok()?;
    let ranges = taken.times == (1, 3) && taken.levels == (0, 4);
    Some(ranges && are_corners(&taken.rectangles)?)
}

// Whether the last of the two segments of a line takes its part of a grid.
fn is_last_box(alloc: Global, axes: &Axes) -> Option<bool>
    requires ys_in { All IsCoordinate axes.now.ys }
    requires xs_in { All IsCoordinate axes.now.xs }
{
    let line = "LINESTRING ZM(0 0 0 1704067200,100 0 0 1704067201,300 100 20 1704070800)";
    let segments = segments_of(alloc, "10 - 20", line, axes.zs.as_ref())?;
    is_second_box(alloc, &segments, axes)
}

fn is_box(alloc: Global) -> Option<bool> {
    let times = "1704067200 1704067201 1704070800";
    let axes = axes_of(alloc, times, "0 10 20 30", "0 100 200 300", "0 100 200 300")?;
    is_last_box(alloc, &axes)
}

#[test]
fn rows_of_nodes(rt: HostRuntime) {
    assert_eq!(rt; first_wrong(rt.alloc(), ROWS), "");
}

#[test]
fn planes_of_nodes(rt: HostRuntime) {
    assert_eq!(rt; first_wrong_plane(rt.alloc(), PLANES), "");
}

#[test]
fn ranges_and_rectangles(rt: HostRuntime) {
    assert_eq!(rt; is_box(rt.alloc()), Some(true));
}
