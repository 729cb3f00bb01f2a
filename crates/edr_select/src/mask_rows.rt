//! Which nodes of a row a disc, some polygons or a box takes.
ghost use Rattle.std.specs.Prelude.{◌≡◌, ◌<◌, ◌≤◌, ◌+◌, ◌++◌, false, length, map, slice_index_or, All, IfOk, OnOk, MatchOption};
ghost use Rattle.edr_axes.specs.Axes.{value_at};
ghost use Rattle.edr_base.specs.Limits.{node_limit, IsCoordinate};
ghost use Rattle.edr_base.specs.Boxes.{in_box};
ghost use Rattle.edr_edition.specs.Instances.{HasGrid};
ghost use Rattle.edr_geometry.specs.Masks.{row_of, spot_at, IsSet, NoneSet};
ghost use Rattle.edr_query.specs.Queries.{IsShape};
ghost use Rattle.edr_select.specs.Masks.{AreTall, IsArea, LiesInColumns, NoneIn, IsTakenRow, bits_at, takes_spot};

use crate::grid_ranges::Columns;
use crate::reaches::{centre_of, polygons_of};
use edr_axes::Axis;
use edr_base::{OutOfMemory, Spot, in_box};
use edr_edition::GridInstance;
use edr_geometry::RowMask;
use edr_query::Shape;
use std::alloc::Global;

/// The first and the last column of a grid that is taken of a row.
#[derive(Clone, Copy)]
pub struct RowEnds {
    pub first: usize,
    pub last: usize,
}

// The places of one y and a box, in metres.
#[derive(Clone, Copy)]
struct BoxRow {
    lo: Spot,
    hi: Spot,
    y: i64,
}

impl BoxRow {
    // Whether the place of an x is in the box.
    fn has(&self, x: i64) -> bool
        ensures { result ≡ in_box (spot_at self.now.y x) self.now.lo self.now.hi }
    {
        in_box(Spot { x, y: self.y }, self.lo, self.hi)
    }
}

// Adds the truth values of the nodes of a row in a box, one by one.
fn add_each(bits: &mut Vec<bool>, row: &BoxRow, xs: &[i64]) -> Result<(), OutOfMemory>
    ensures { OnOk result (bits.new.items ≡ bits.old.items ++ row_of (λ p. in_box p row.now.lo row.now.hi) row.now.y xs.now) }
{
    for x in xs {
        bits.push(row.has(*x))?;
    }
    Ok(())
}

// Adds the truth values of the nodes of a row in a box. Where the first and the last are in it, all are.
fn add_box(bits: &mut Vec<bool>, row: &BoxRow, xs: &Axis) -> Result<(), OutOfMemory>
    ensures { OnOk result (bits.new.items ≡ bits.old.items ++ row_of (λ p. in_box p row.now.lo row.now.hi) row.now.y xs.now) }
{
    let xs = xs.values();
    if row.has(xs[0]) && row.has(xs[xs.len() - 1]) {
        bits.resize(bits.len() + xs.len(), true)?;
        return Ok(());
    }
    add_each(bits, row, xs)
}

// Puts the truth values of a mask in place of as many others.
fn copy_mask(row: &mut [bool], mask: &RowMask)
    requires { length row.old ≡ length mask.now }
    ensures { row.new ≡ mask.now }
{
    for column in 0..row.len() {
        row[column] = mask.is_set(column);
    }
}

// Adds the truth values of a mask.
fn add_mask(bits: &mut Vec<bool>, mask: &RowMask) -> Result<(), OutOfMemory>
    requires { length mask.now ≤ node_limit }
    ensures { OnOk result (bits.new.items ≡ bits.old.items ++ mask.now) }
{
    let start = bits.len();
    bits.resize(start + mask.len(), false)?;
    copy_mask(&mut bits[start..], mask);
    Ok(())
}

// Adds the truth values of the nodes of a row.
fn add_bits(
    alloc: Global,
    bits: &mut Vec<bool>,
    shape: &Shape,
    y: i64,
    xs: &Axis,
) -> Result<(), OutOfMemory>
    requires area { IsArea shape.now }
    requires shape { IsShape shape.now }
    requires y_in { IsCoordinate y }
    requires xs_in { All IsCoordinate xs.now }
    requires few { length xs.now ≤ node_limit }
    ensures { OnOk result (bits.new.items ≡ bits.old.items ++ row_of (takes_spot shape.now) y xs.now) }
{
    match shape {
        Shape::Radius { geometry, within } => {
            let mask = RowMask::of_disc(alloc, centre_of(geometry), *within, y, xs)?;
            add_mask(bits, &mask)
        }
        Shape::Area(geometry) => {
            let mask = RowMask::of_polygons(alloc, polygons_of(geometry), y, xs)?;
            add_mask(bits, &mask)
        }
        Shape::Cube { lo, hi, .. } => {
            let row = BoxRow {
                lo: *lo,
                hi: *hi,
                y,
            };
            add_box(bits, &row, xs)
        }
        _ => unreachable!(),
    }
}

// Adds the truth values of a row, one of each column.
fn add_across(bits: &mut Vec<bool>, tall: &[RowMask], y: usize) -> Result<(), OutOfMemory>
    requires { All (λ mask. y < length mask) tall.now }
    ensures { OnOk result (bits.new.items ≡ bits.old.items ++ map (λ mask. slice_index_or mask y false) tall.now) }
{
    for mask in tall {
        bits.push(mask.is_set(y))?;
    }
    Ok(())
}

// Adds the truth values of the nodes of some columns in a row: those of the columns where there are some, and else the row's own.
fn add_taken(
    alloc: Global,
    bits: &mut Vec<bool>,
    instance: &GridInstance,
    shape: &Shape,
    columns: &Columns,
    tall: &[RowMask],
    y: usize,
) -> Result<(), OutOfMemory>
    requires instance { HasGrid instance.now }
    requires area { IsArea shape.now }
    requires shape { IsShape shape.now }
    requires columns { LiesInColumns instance.now shape.now columns.now }
    requires tall { 0 < length tall.now → AreTall instance.now shape.now columns.now tall.now }
    requires inside { y < length instance.now.ys }
    ensures { OnOk result (bits.new.items ≡ bits.old.items ++ bits_at instance.now shape.now columns.now y) }
{
    if tall.is_empty() {
        return add_bits(alloc, bits, shape, instance.ys().value(y), &columns.xs);
    }
    add_across(bits, tall, y)
}

// The first column that is taken, or None where none is.
fn first_taken(bits: &[bool]) -> Option<usize>
    ensures { MatchOption result (NoneSet bits.now 0 (length bits.now)) (λ column. IsSet bits.now column × NoneSet bits.now 0 column) }
{
    for column in 0..bits.len() {
        if bits[column] {
            return Some(column);
        }
    }
    None
}

// The last column that is taken, or None where none is.
fn last_taken(bits: &[bool]) -> Option<usize>
    ensures { MatchOption result (NoneSet bits.now 0 (length bits.now)) (λ column. IsSet bits.now column × NoneSet bits.now (column + 1) (length bits.now)) }
{
    let mut left = bits.len();
    'columns: while 0 < left {
        left -= 1;
        if bits[left] {
            return Some(left);
        }
    }
    None
}

// Adds the truth values of a row, for so many columns as can have nodes that are taken. Its ends, or None where none of its
// nodes is taken.
pub(crate) fn add_row(
    alloc: Global,
    bits: &mut Vec<bool>,
    instance: &GridInstance,
    shape: &Shape,
    columns: &Columns,
    tall: &[RowMask],
    y: usize,
) -> Result<Option<RowEnds>, OutOfMemory>
    requires instance { HasGrid instance.now }
    requires area { IsArea shape.now }
    requires shape { IsShape shape.now }
    requires columns { LiesInColumns instance.now shape.now columns.now }
    requires tall { 0 < length tall.now → AreTall instance.now shape.now columns.now tall.now }
    requires inside { y < length instance.now.ys }
    ensures added { OnOk result (bits.new.items ≡ bits.old.items ++ bits_at instance.now shape.now columns.now y) }
    ensures found { IfOk result (λ found. MatchOption found (NoneIn instance.now shape.now y (y + 1)) (λ ends. IsTakenRow instance.now shape.now y ends)) }
{
    let start = bits.len();
    add_taken(alloc, bits, instance, shape, columns, tall, y)?;
    let row = &bits[start..];
    let Some(first) = first_taken(row) else {
        return Ok(None);
    };
    let Some(last) = last_taken(row) else {
        return Ok(None);
    };
    Ok(Some(RowEnds {
        first: columns.left + first,
        last: columns.left + last,
    }))
}
