//! Places that people can draw: a line for each case, cut here. `#` is a place that is taken, `.` one that isn't.
ghost use Rattle.std.specs.Prelude.{IfSome, length, ◌+◌, ◌<◌};
ghost use Rattle.std.specs.List.{All};
ghost use Rattle.edr_wkt.specs.Faults.{IsGeometry};
ghost use Rattle.edr_base.specs.Limits.{IsCoordinate, IsMetres};
ghost use Rattle.edr_geometry.specs.Limits.{IsSpot, IsPlacedPolygon};

use crate::words::{axis_of, coordinate, coordinates, distance, is_marked};
use edr_axes::Axis;
use edr_base::Spot;
use edr_geometry::{
    NearRanges, RowMask, Strip, geometries_are_placed, in_disc, in_polygons, near_segment,
    on_segment, squared_distance,
};
use edr_wkt::{Geometry, Polygon, read_wkt};
use std::alloc::Global;
use std::rt::HostRuntime;

// A row's y, its x, a shape, and which of its places are taken.
const ROWS: &str = "\
# on edges and vertices, inside and outside
0;0 100 200;POLYGON((0 0,200 0,0 100,0 0)) => ###
100;0 100 200;POLYGON((0 0,200 0,0 100,0 0)) => #..
50;0 100 101 200;POLYGON((0 0,200 0,0 100,0 0)) => ##..
-1;0 100 200;POLYGON((0 0,200 0,0 100,0 0)) => ...
101;0 100 200;POLYGON((0 0,200 0,0 100,0 0)) => ...
# the other way round, and with positions that repeat
0;0 100 200;POLYGON((0 0,0 100,200 0,0 0)) => ###
50;0 100 101 200;POLYGON((0 0,0 0,0 100,0 100,200 0,200 0,0 0,0 0)) => ##..
# a hole: its border belongs, its inside doesn't
0;0 50 100 150 200;POLYGON((-50 -50,250 -50,250 150,-50 150,-50 -50),(50 0,150 0,150 120,50 120,50 0)) => #####
100;0 50 100 150 200;POLYGON((-50 -50,250 -50,250 150,-50 150,-50 -50),(50 0,150 0,150 120,50 120,50 0)) => ##.##
120;0 50 100 150 200;POLYGON((-50 -50,250 -50,250 150,-50 150,-50 -50),(50 0,150 0,150 120,50 120,50 0)) => #####
# a hole that touches the outer ring, and an island in a hole
4;0 1 2 3 4 5 6 7 8;POLYGON((0 0,8 0,8 8,0 8,0 0),(0 4,4 2,4 6,0 4)) => #...#####
4;0 1 2 3 4 5 6 7 8;MULTIPOLYGON(((0 0,8 0,8 8,0 8,0 0),(1 1,7 1,7 7,1 7,1 1)),((3 3,5 3,5 5,3 5,3 3))) => ##.###.##
# polygons that overlap are one of them
2;0 1 2 3 4 5 6;MULTIPOLYGON(((0 0,4 0,4 4,0 4,0 0)),((2 0,6 0,6 4,2 4,2 0))) => #######
0;0 100 200;MULTIPOLYGON(((0 0,50 0,50 50,0 0)),((150 50,200 50,200 100,150 50))) => #..
100;0 100 200;MULTIPOLYGON(((0 0,50 0,50 50,0 0)),((150 50,200 50,200 100,150 50))) => ..#
# rows through vertices that point up, down and aside
2;0 1 2 3 4 5 6;POLYGON((0 0,2 2,4 0,6 4,0 4,0 0)) => ######.
2;0 1 2 3 4 5 6;POLYGON((0 0,6 0,6 4,4 2,2 4,0 4,0 0)) => #######
2;0 1 2 3 4 5 6;POLYGON((0 2,3 0,6 2,3 4,0 2)) => #######
0;0 1 2 3 4 5 6;POLYGON((0 2,3 0,6 2,3 4,0 2)) => ...#...
4;0 1 2 3 4 5 6;POLYGON((0 2,3 0,6 2,3 4,0 2)) => ...#...
0;0 1 2 3 4 5 6;POLYGON((0 0,1 4,2 0,3 4,4 0,5 4,6 4,6 9,0 9,0 0)) => #.#.#..
# rows along level edges, one at the top, one at the bottom, steps between
2;0 1 2 3 4 5 6;POLYGON((0 0,3 0,3 2,6 2,6 4,0 4,0 0)) => #######
2;0 1 2 3 4 5 6;POLYGON((0 0,6 0,6 4,4 4,4 2,2 2,2 4,0 4,0 0)) => #######
2;-1 0 1 2 3 4 5 6 7;POLYGON((0 2,2 2,2 4,4 4,4 2,6 2,6 6,0 6,0 2)) => .###.###.
0;-1 0 5 9 10;POLYGON((0 0,9 0,9 9,0 9,0 0)) => .###.
9;-1 0 5 9 10;POLYGON((0 0,9 0,9 9,0 9,0 0)) => .###.
# polygons without an inside
3;0 1 2 3 4 5 6;POLYGON((1 3,5 3,1 3,1 3)) => .#####.
3;0 1 2 3 4 5 6;POLYGON((0 0,6 6,0 0,0 0)) => ...#...
3;0 1 2 3 4 5 6;POLYGON((3 3,3 3,3 3,3 3)) => ...#...
# a ring that crosses itself
1;0 1 2 3 4;POLYGON((0 0,4 4,4 0,0 4,0 0)) => ##.##
# at the ends of the limits
100000000;-100000000 0 100000000;POLYGON((-100000000 -100000000,100000000 -100000000,100000000 100000000,-100000000 100000000,-100000000 -100000000)) => ###
0;-100000000 -1 0 1 100000000;POLYGON((-100000000 -100000000,100000000 100000000,-100000000 100000000,-100000000 -100000000)) => ###..
# discs: equality, a metre less, a radius of 0 on a node and between nodes
0;0 100 200;DISC 100 100 0 => ###
100;0 100 200;DISC 100 100 0 => .#.
0;0 100 200;DISC 99 100 0 => .#.
3;-5 -4 0 4 5;DISC 5 0 0 => .###.
4;-4 -3 0 3 4;DISC 5 0 0 => .###.
0;0 100 200;DISC 0 100 0 => .#.
0;0 100 200;DISC 0 99 0 => ...
0;-100000000 0 100000000;DISC 200000000 -100000000 0 => ###
0;-100000000 0 100000000;DISC 199999999 -100000000 0 => ##.
100000000;-100000000 0 100000000;DISC 400000000 100000000 -100000000 => ###
# segments: ends half the width away, a metre less, before and behind
0;0 100 200;SEGMENT 100 0 50 200 50 => ###
0;0 100 200;SEGMENT 99 0 50 200 50 => ...
0;-6 -5 -4 0 10 14 15 16;SEGMENT 10 0 0 10 0 => .######.
3;-5 -4 0 10 14 15;SEGMENT 10 0 0 10 0 => .####.
3;-5 -4 -3 3 4 5;SEGMENT 10 0 0 0 0 => .####.
0;0 1 2 3 4 5 6 7;SEGMENT 0 1 0 6 0 => .######.
0;0 1 2;SEGMENT 0 1 0 1 0 => .#.
1;0 1 2;SEGMENT 1 1 0 1 0 => ...
5;0 1 3 5 7 9;SEGMENT 5 0 0 10 10 => ..###.
0;-100000000 0 100000000;SEGMENT 400000000 100000000 -100000000 100000000 100000000 => ###
0;-100000000 0 100000000;SEGMENT 141421357 -100000000 -100000000 100000000 100000000 => ###
0;-100000000 0 100000000;SEGMENT 141421356 -100000000 -100000000 100000000 100000000 => .#.
";

// Segments by width and ends: slanted, flat, upright, back, of no length, far away, of width 0 and 1, with places on their border.
const STRIPS: &str = "\
10 -7 -3 6 8
10 6 8 -7 -3
10 -7 8 6 -3
10 6 -3 -7 8
10 -6 0 7 0
10 7 0 -6 0
10 0 -6 0 7
10 0 7 0 -6
10 1 2 1 2
10 40 40 60 80
10 -40 2 60 4
0 -8 -6 8 6
0 -3 -3 5 5
0 4 4 4 4
1 0 0 2 2
1 -9 1 9 0
2 0 0 2 2
3 -9 -1 9 0
5 0 0 10 10
7 3 -15 4 15
24 -2 -1 2 1
40 -1 0 0 1
400000000 0 0 1 1
0 -100000000 -100000000 100000000 100000000
1 -100000000 99999999 100000000 -100000000
10 -100000000 -99999997 100000000 100000000
";

// Numbers from below the segments to above them.
const SQUARE: &str =
    "-16 -15 -14 -13 -12 -11 -10 -9 -8 -7 -6 -5 -4 -3 -2 -1 0 1 2 3 4 5 6 7 8 9 10 11 12 13 14 15 16";

// Segments and numbers at the ends of the limits.
const WIDEST: &str = "\
141421357 -100000000 -100000000 100000000 100000000
141421356 -100000000 -100000000 100000000 100000000
282842713 100000000 -100000000 -100000000 100000000
400000000 -100000000 100000000 -100000000 100000000
399999999 100000000 100000000 100000000 100000000
400000000 100000000 -100000000 100000000 100000000
1 -100000000 100000000 99999999 -100000000
";

const WHOLE: &str = "-100000000 -99999999 -50000000 -1 0 1 50000000 50000001 99999999 100000000";

// The numbers of two ends and a place, whether the place is on the segment, and its squared distance to the first end.
const SEGMENTS: &str = "\
0 0 10 10 5 5 => true 50
0 0 10 10 5 6 => false 61
0 0 10 10 0 0 => true 0
0 0 10 10 10 10 => true 200
0 0 10 10 11 11 => false 242
0 0 10 10 -1 -1 => false 2
10 10 0 0 5 5 => true 50
3 0 3 9 3 4 => true 16
3 0 3 9 3 10 => false 100
0 4 9 4 5 4 => true 25
0 4 9 4 10 4 => false 100
7 7 7 7 7 7 => true 0
7 7 7 7 7 8 => false 1
-100000000 -100000000 100000000 100000000 0 0 => true 20000000000000000
-100000000 -100000000 100000000 100000000 100000000 100000000 => true 80000000000000000
-100000000 -100000000 100000000 99999999 0 0 => false 20000000000000000
";

// The place whose two numbers stand from this one on.
fn spot_at(numbers: &[i64], first: usize) -> Spot
    requires numbers_in { All IsCoordinate numbers.now }
    requires inside { first + 1 < length numbers.now }
    ensures { IsSpot result }
{
    Spot {
        x: numbers[first],
        y: numbers[first + 1],
    }
}

// A disc, its radius in metres.
#[derive(Clone, Copy)]
struct Disc {
    centre: Spot,
    radius: i64,
}

// A disc: its radius and its centre.
fn disc_of(alloc: Global, text: &str) -> Option<Disc>
    ensures centre { IfSome result (λ disc. IsSpot disc.centre) }
    ensures radius { IfSome result (λ disc. IsMetres disc.radius) }
{
    let (first, rest) = text.split_once(' ')?;
    let radius = distance(first)?;
    let numbers = coordinates(alloc, rest)?;
    if numbers.len() != 2 {
        return None;
    }
    let centre = spot_at(&numbers, 0);
    Some(Disc { centre, radius })
}

// A segment with the width of the strip about it, in metres.
#[derive(Clone, Copy)]
struct Segment {
    a: Spot,
    b: Spot,
    width: i64,
}

// A segment: its width and its ends.
fn segment_of(alloc: Global, text: &str) -> Option<Segment>
    ensures a { IfSome result (λ segment. IsSpot segment.a) }
    ensures b { IfSome result (λ segment. IsSpot segment.b) }
    ensures width { IfSome result (λ segment. IsMetres segment.width) }
{
    let (first, rest) = text.split_once(' ')?;
    let width = distance(first)?;
    let numbers = coordinates(alloc, rest)?;
    if numbers.len() != 4 {
        return None;
    }
    let a = spot_at(&numbers, 0);
    let b = spot_at(&numbers, 2);
    Some(Segment { a, b, width })
}

// The polygons of a geometry that is some.
fn polygons_in(geometry: &Geometry) -> Option<&[Polygon]>
    requires { IsGeometry geometry.now }
    ensures { IfSome result (λ polygons. All IsPlacedPolygon polygons.now) }
{
    geometries_are_placed();
    match geometry {
        Geometry::Polygons { polygons, .. } => Some(polygons.items()),
        _ => None,
    }
}

// The mask of a shape.
fn mask_of(alloc: Global, shape: &str, y: i64, xs: &Axis) -> Option<RowMask>
    requires y_in { IsCoordinate y }
    requires xs_in { All IsCoordinate xs.now }
{
    if let Some(text) = shape.strip_prefix("DISC ") {
        let disc = disc_of(alloc, text)?;
        return RowMask::of_disc(alloc, disc.centre, disc.radius, y, xs).ok();
    }
    let geometry = read_wkt(alloc, shape.as_bytes()).ok()?;
    RowMask::of_polygons(alloc, polygons_in(&geometry)?, y, xs).ok()
}

// The test of one place by a shape.
fn is_taken(alloc: Global, shape: &str, p: Spot) -> Option<bool>
    requires p_in { IsSpot p }
{
    if let Some(text) = shape.strip_prefix("DISC ") {
        let disc = disc_of(alloc, text)?;
        return Some(in_disc(p, disc.centre, disc.radius));
    }
    if let Some(text) = shape.strip_prefix("SEGMENT ") {
        let segment = segment_of(alloc, text)?;
        return Some(near_segment(p, segment.a, segment.b, segment.width));
    }
    let geometry = read_wkt(alloc, shape.as_bytes()).ok()?;
    Some(in_polygons(p, polygons_in(&geometry)?))
}

// Whether a mask has these places, and their first and last one.
fn is_mask(mask: &RowMask, picture: &str) -> bool {
    let mut whole = mask.len() == picture.len();
    for place in 0..mask.len() {
        whole = mask.is_set(place) == is_marked(picture, place) && whole;
    }
    whole && mask.first() == picture.find('#') && mask.last() == picture.rfind('#')
}

// Whether the test of one place each takes these.
fn are_taken(alloc: Global, shape: &str, y: i64, xs: &Axis, picture: &str) -> bool
    requires y_in { IsCoordinate y }
    requires xs_in { All IsCoordinate xs.now }
{
    let mut whole = xs.len() == picture.len();
    for place in 0..xs.len() {
        let p = Spot {
            x: xs.value(place),
            y,
        };
        whole = is_taken(alloc, shape, p) == Some(is_marked(picture, place)) && whole;
    }
    whole
}

// Whether a place lies in a range.
fn lies_in(range: (usize, usize), place: usize) -> bool {
    range.0 <= place && place < range.1
}

// Whether a place lies in one of three ranges.
fn lies_in_some(ranges: &NearRanges, place: usize) -> bool {
    let before = lies_in(ranges.before, place);
    let beside = lies_in(ranges.beside, place);
    before || beside || lies_in(ranges.behind, place)
}

// Whether the ranges of a row near a segment have these places.
fn is_near_row(alloc: Global, text: &str, y: i64, xs: &Axis, picture: &str) -> bool
    requires y_in { IsCoordinate y }
    requires xs_in { All IsCoordinate xs.now }
{
    let Some(segment) = segment_of(alloc, text) else {
        return false;
    };
    let ranges = Strip::of(segment.a, segment.b, segment.width).near_row(y, xs);
    let mut whole = xs.len() == picture.len();
    for place in 0..xs.len() {
        whole = lies_in_some(&ranges, place) == is_marked(picture, place) && whole;
    }
    whole
}

// Whether the ranges of a row are those of the test of each of its places.
fn is_tested_row(segment: &Segment, y: i64, xs: &Axis) -> bool
    requires a_in { IsSpot segment.now.a }
    requires b_in { IsSpot segment.now.b }
    requires width_in { IsMetres segment.now.width }
    requires y_in { IsCoordinate y }
    requires xs_in { All IsCoordinate xs.now }
{
    let ranges = Strip::of(segment.a, segment.b, segment.width).near_row(y, xs);
    let mut whole = true;
    for place in 0..xs.len() {
        let p = Spot {
            x: xs.value(place),
            y,
        };
        let near = near_segment(p, segment.a, segment.b, segment.width);
        whole = lies_in_some(&ranges, place) == near && whole;
    }
    whole
}

// Whether the ranges of the rows of a square are those of the test of each of its places.
fn is_tested(alloc: Global, text: &str, square: &Axis) -> bool
    requires { All IsCoordinate square.now }
{
    let Some(segment) = segment_of(alloc, text) else {
        return false;
    };
    let mut whole = true;
    for place in 0..square.len() {
        whole = is_tested_row(&segment, square.value(place), square) && whole;
    }
    whole
}

// The first of some segments of which a row of a square isn't right; none is empty.
fn first_untested<'a>(alloc: Global, segments: &'a str, values: &'a str) -> &'a str {
    let Some(square) = axis_of(alloc, values) else {
        return values;
    };
    for line in segments.lines() {
        if !is_tested(alloc, line, &square) {
            return line;
        }
    }
    ""
}

fn is_masked(alloc: Global, shape: &str, y: i64, xs: &Axis, picture: &str) -> bool
    requires y_in { IsCoordinate y }
    requires xs_in { All IsCoordinate xs.now }
{
    if let Some(text) = shape.strip_prefix("SEGMENT ") {
        return is_near_row(alloc, text, y, xs, picture);
    }
    match mask_of(alloc, shape, y, xs) {
        Some(mask) => is_mask(&mask, picture),
        None => false,
    }
}

// Whether a row is taken so by a shape: by its mask or its ranges, and by the test of each place.
fn is_row(alloc: Global, row: &str, shape: &str, picture: &str) -> bool {
    let (first, second) = row.split_once(';').unwrap_or((row, ""));
    match (coordinate(first), axis_of(alloc, second)) {
        (Some(y), Some(xs)) => {
            is_masked(alloc, shape, y, &xs, picture) && are_taken(alloc, shape, y, &xs, picture)
        }
        _ => false,
    }
}

// Whether a place is on a segment, or not, and has this squared distance to the first end.
fn is_apart(alloc: Global, text: &str, on: bool, square: i128) -> bool {
    let Some(numbers) = coordinates(alloc, text) else {
        return false;
    };
    if numbers.len() != 6 {
        return false;
    }
    let a = spot_at(&numbers, 0);
    let b = spot_at(&numbers, 2);
    let p = spot_at(&numbers, 4);
    on_segment(p, a, b) == on && squared_distance(a, p) == square
}

fn is_measured(alloc: Global, text: &str, answer: &str) -> bool {
    let (on, square) = answer.split_once(' ').unwrap_or((answer, ""));
    match square.parse::<i128>() {
        Ok(square) => is_apart(alloc, text, on == "true", square),
        Err(_) => false,
    }
}

// Whether a line is right: one with a shape behind the last `;` is a row, another one a segment and a place.
fn is_right(alloc: Global, asked: &str, answer: &str) -> bool {
    match asked.rsplit_once(';') {
        Some((row, shape)) => is_row(alloc, row, shape, answer),
        None => is_measured(alloc, asked, answer),
    }
}

// The first line that isn't right; none is empty.
fn first_wrong(alloc: Global, lines: &str) -> &str {
    for line in lines.lines() {
        let (asked, answer) = line.split_once(" => ").unwrap_or((line, ""));
        if !line.starts_with('#') && !is_right(alloc, asked, answer) {
            return line;
        }
    }
    ""
}

// Whether a mask has the places of two once they are joined.
fn are_joined(mask: &mut RowMask, other: &RowMask, picture: &str) -> bool {
    if mask.len() != other.len() {
        return false;
    }
    mask.join(other);
    is_mask(mask, picture)
}

// Whether of a row of four places two shapes together take these.
fn join_to(alloc: Global, first: &str, second: &str, picture: &str) -> bool {
    let Some(xs) = axis_of(alloc, "0 100 200 300") else {
        return false;
    };
    match (
        mask_of(alloc, first, 0, &xs),
        mask_of(alloc, second, 0, &xs),
    ) {
        (Some(mut mask), Some(other)) => are_joined(&mut mask, &other, picture),
        _ => false,
    }
}

#[test]
fn rows_and_segments(rt: HostRuntime) {
    assert_eq!(rt; first_wrong(rt.alloc(), ROWS), "");
    assert_eq!(rt; first_wrong(rt.alloc(), SEGMENTS), "");
}

#[test]
fn strips_are_tested(rt: HostRuntime) {
    assert_eq!(rt; first_untested(rt.alloc(), STRIPS, SQUARE), "");
    assert_eq!(rt; first_untested(rt.alloc(), WIDEST, WHOLE), "");
}

#[test]
fn masks_are_joined(rt: HostRuntime) {
    let alloc = rt.alloc();
    assert!(rt; is_row(alloc, "0;0 100 200 300", "DISC 100 0 0", "##.."));
    assert!(rt; is_row(alloc, "0;0 100 200 300", "DISC 0 300 0", "...#"));
    assert!(rt; join_to(alloc, "DISC 100 0 0", "DISC 0 300 0", "##.#"));
}
