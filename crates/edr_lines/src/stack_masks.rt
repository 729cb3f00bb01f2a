//! Which nodes of a stack a corridor takes.
ghost use Rattle.std.specs.Prelude.{◌≡◌, ℕ, ◌<◌, ◌≤◌, ◌+◌, ◌*◌, nat_lt, true, length, IfOk, OnOk, IsSome};
ghost use Rattle.std.specs.List.{All, slice_index_or};
ghost use Rattle.edr_base.specs.Limits.{IsCoordinate};
ghost use Rattle.edr_corridor.specs.Values.{needs_level};
ghost use Rattle.edr_geometry.specs.Ranges.{lies_in};
ghost use Rattle.edr_corridor.specs.Boxes.{box_takes, has_place};
ghost use Rattle.edr_select.specs.Listings.{NumbersRise};
ghost use Rattle.edr_select.specs.Stacks.{plane_size, time_at, level_at};
ghost use Rattle.edr_lines.specs.Bits.{RangeSet, RowFits, RowsFit, is_among_rows, ColumnsFit, RectangleFits, BoxFits, is_in_row, PlaneSet, LevelsFit, LevelSet, LevelsSet, takes_below, TimesFit, TimeSet, TimesSet, time_size, DoRise, IsSmall};
ghost use Rattle.edr_lines.specs.Boxes.{has_node};
ghost use Rattle.edr_lines.specs.Corridors.{LiesAlong, takes, takes_first};
ghost use Rattle.edr_lines.specs.Taken.{counts_of, AreSidesOf, HasBits};

use crate::corridors::Corridor;
use crate::spreads::Axes;
use edr_base::OutOfMemory;
use edr_corridor::{Rectangle, SegmentBox};
use edr_select::StackSides;
use std::alloc::Global;

// Sets the truth values from a place to before another.
fn set_range(values: &mut [bool], from: usize, end: usize)
    requires ordered { from ≤ end }
    requires inside { end ≤ length values.old }
    ensures { RangeSet (from, end) values.old values.new }
{
    values[from..end].fill(true);
}

// Sets the truth values of a row of a plane, of some columns.
fn set_row(plane: &mut [bool], sides: &StackSides, row: usize, columns: (usize, usize))
    requires small { IsSmall sides.now }
    requires full { length plane.old ≡ plane_size sides.now }
    requires row { RowFits sides.now row }
    requires columns { ColumnsFit sides.now columns }
    ensures { PlaneSet sides.now (is_in_row row columns) plane.old plane.new }
{
    let width = sides.columns as usize;
    let column = sides.column as usize;
    let start = (row - sides.row as usize) * width;
    let values = &mut plane[start..start + width];
    set_range(values, columns.0 - column, columns.1 - column);
}

// Sets the truth values of some rows of a plane, which stand together.
fn set_rows(plane: &mut [bool], sides: &StackSides, rows: (usize, usize))
    requires small { IsSmall sides.now }
    requires full { length plane.old ≡ plane_size sides.now }
    requires rows { RowsFit sides.now rows }
    ensures { PlaneSet sides.now (is_among_rows rows) plane.old plane.new }
{
    let width = sides.columns as usize;
    let row = sides.row as usize;
    set_range(plane, (rows.0 - row) * width, (rows.1 - row) * width);
}

// Whether some columns are all of the sides.
fn are_all(sides: &StackSides, columns: (usize, usize)) -> bool
    requires small { IsSmall sides.now }
    ensures { result ≡ true → (columns.0 ≡ sides.now.column) × (columns.1 ≡ sides.now.column + sides.now.columns) }
{
    let column = sides.column as usize;
    columns.0 == column && columns.1 == column + sides.columns as usize
}

// Sets the truth values of a plane where a rectangle has a node, row by row.
fn set_each_row(plane: &mut [bool], sides: &StackSides, rectangle: &Rectangle)
    requires small { IsSmall sides.now }
    requires full { length plane.old ≡ plane_size sides.now }
    requires fits { RectangleFits sides.now rectangle.now }
    ensures { PlaneSet sides.now (has_place rectangle.now) plane.old plane.new }
{
    for row in rectangle.rows.0..rectangle.rows.1 {
        set_row(plane, sides, row, rectangle.columns);
    }
}

// Sets the truth values of a plane where a rectangle has a node: at once where it has all columns.
fn set_rectangle(plane: &mut [bool], sides: &StackSides, rectangle: &Rectangle)
    requires small { IsSmall sides.now }
    requires full { length plane.old ≡ plane_size sides.now }
    requires fits { RectangleFits sides.now rectangle.now }
    ensures { PlaneSet sides.now (has_place rectangle.now) plane.old plane.new }
{
    if are_all(sides, rectangle.columns) {
        set_rows(plane, sides, rectangle.rows)
    } else {
        set_each_row(plane, sides, rectangle)
    }
}

// Sets the truth values of a plane where a box has a node.
fn set_plane(plane: &mut [bool], sides: &StackSides, taken: &SegmentBox)
    requires small { IsSmall sides.now }
    requires full { length plane.old ≡ plane_size sides.now }
    requires fits { BoxFits sides.now taken.now }
    ensures { PlaneSet sides.now (has_node taken.now) plane.old plane.new }
{
    for number in 0..taken.rectangles.len() {
        set_rectangle(plane, sides, &taken.rectangles[number]);
    }
}

// How many places are before another. They come first.
fn count_before(places: &[u64], bound: usize) -> usize
    requires { NumbersRise places.now }
    ensures inside { result ≤ length places.now }
    ensures before { (k : ℕ) → k < length places.now → nat_lt (slice_index_or places.now k 0) bound ≡ nat_lt k result }
{
    places.partition_point(|place| *place < bound as u64)
}

// The numbers of the places that lie in a range: the first, and the one behind the last.
fn numbers_in(places: &[u64], range: (usize, usize)) -> (usize, usize)
    requires { NumbersRise places.now }
    ensures inside { result.1 ≤ length places.now }
    ensures lie { (k : ℕ) → k < length places.now → lies_in result k ≡ lies_in range (slice_index_or places.now k 0) }
{
    (count_before(places, range.0), count_before(places, range.1))
}

// Sets the truth values of a plane of one time where a box takes a node.
fn set_level(planes: &mut [bool], sides: &StackSides, taken: &SegmentBox, number: usize)
    requires small { IsSmall sides.now }
    requires full { length planes.old ≡ length sides.now.levels * plane_size sides.now }
    requires fit { LevelsFit sides.now taken.now }
    requires number { number < length sides.now.levels }
    requires lies { lies_in taken.now.levels (level_at sides.now number) ≡ true }
    ensures { LevelSet sides.now (takes_below taken.now) number planes.old planes.new }
{
    let size = sides.rows as usize * sides.columns as usize;
    let start = number * size;
    let plane = &mut planes[start..start + size];
    set_plane(plane, sides, taken);
}

// Sets the truth values of the planes of one time where a box takes a node, level by level.
fn set_levels(planes: &mut [bool], sides: &StackSides, taken: &SegmentBox)
    requires rise { DoRise sides.now }
    requires small { IsSmall sides.now }
    requires full { length planes.old ≡ length sides.now.levels * plane_size sides.now }
    requires fit { LevelsFit sides.now taken.now }
    ensures { LevelsSet sides.now (takes_below taken.now) planes.old planes.new }
{
    let (first, end) = numbers_in(sides.levels.items(), taken.levels);
    for number in first..end {
        set_level(planes, sides, taken, number);
    }
}

// Sets the truth values of the planes of a time of a stack where a box takes a node.
fn set_time(mask: &mut [bool], sides: &StackSides, taken: &SegmentBox, number: usize)
    requires rise { DoRise sides.now }
    requires small { IsSmall sides.now }
    requires full { length mask.old ≡ length sides.now.times * time_size sides.now }
    requires fit { TimesFit sides.now taken.now }
    requires number { number < length sides.now.times }
    requires lies { lies_in taken.now.times (time_at sides.now number) ≡ true }
    ensures { TimeSet sides.now (box_takes taken.now) number mask.old mask.new }
{
    let size = sides.levels.items().len() * (sides.rows as usize * sides.columns as usize);
    let start = number * size;
    let planes = &mut mask[start..start + size];
    set_levels(planes, sides, taken);
}

// Sets the truth values of a stack where a box takes a node, time by time.
fn set_times(mask: &mut [bool], sides: &StackSides, taken: &SegmentBox)
    requires rise { DoRise sides.now }
    requires small { IsSmall sides.now }
    requires full { length mask.old ≡ length sides.now.times * time_size sides.now }
    requires fit { TimesFit sides.now taken.now }
    ensures { TimesSet sides.now (box_takes taken.now) mask.old mask.new }
{
    let (first, end) = numbers_in(sides.times.items(), taken.times);
    for number in first..end {
        set_time(mask, sides, taken, number);
    }
}

// Sets the truth values of a stack where the segment of a number takes a node, besides those before it.
fn set_segment(
    alloc: Global,
    mask: &mut [bool],
    corridor: &Corridor<'_>,
    axes: &Axes<'_>,
    sides: &StackSides,
    number: usize,
) -> Result<(), OutOfMemory>
    requires along { LiesAlong axes.now corridor.now }
    requires levels { needs_level corridor.now.segments ≡ true → IsSome axes.now.zs }
    requires ys_in { All IsCoordinate axes.now.ys }
    requires xs_in { All IsCoordinate axes.now.xs }
    requires sides { AreSidesOf (counts_of axes.now) (takes corridor.now axes.now) sides.now }
    requires small { IsSmall sides.now }
    requires inside { number + 1 < length corridor.now.segments.line }
    requires mask { HasBits (takes_first corridor.now axes.now number) (record { sides = sides.now; mask = mask.old }) }
    ensures full { OnOk result (length mask.new ≡ length mask.old) }
    ensures mask { OnOk result (HasBits (takes_first corridor.now axes.now (number + 1)) (record { sides = sides.now; mask = mask.new })) }
{
    if corridor.segments.adds(number, axes.ys, axes.xs) {
        let taken = corridor
            .segments
            .box_of(alloc, number, axes.ts, axes.zs, axes.ys, axes.xs)?;
        set_times(mask, sides, &taken);
    }
    Ok(())
}

// For each node of a stack whether a corridor takes it, in the order t, z, y, x.
pub(crate) fn mask_of(
    alloc: Global,
    corridor: &Corridor<'_>,
    axes: &Axes<'_>,
    sides: &StackSides,
) -> Result<Vec<bool>, OutOfMemory>
    requires along { LiesAlong axes.now corridor.now }
    requires levels { needs_level corridor.now.segments ≡ true → IsSome axes.now.zs }
    requires ys_in { All IsCoordinate axes.now.ys }
    requires xs_in { All IsCoordinate axes.now.xs }
    requires sides { AreSidesOf (counts_of axes.now) (takes corridor.now axes.now) sides.now }
    requires small { IsSmall sides.now }
    ensures { IfOk result (λ mask. HasBits (takes corridor.now axes.now) (record { sides = sides.now; mask = mask.items })) }
{
    let planes = sides.times.items().len() * sides.levels.items().len();
    let mut mask = Vec::new(alloc);
    mask.resize(
        planes * (sides.rows as usize * sides.columns as usize),
        false,
    )?;
    for number in 0..corridor.segments.len() {
        set_segment(alloc, &mut mask, corridor, axes, sides, number)?;
    }
    Ok(mask)
}
