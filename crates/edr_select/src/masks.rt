//! Which nodes of a plane a disc, some polygons or a box takes.
ghost use Rattle.std.specs.Prelude.{◌≡◌, ◌+◌, ◌*◌, ◌<◌, ◌≤◌, ◌^◌, length, IfOk, OnOk, MatchOption};
ghost use Rattle.edr_base.specs.Limits.{node_limit};
ghost use Rattle.edr_edition.specs.Instances.{HasGrid};
ghost use Rattle.edr_query.specs.Queries.{IsShape};
ghost use Rattle.edr_select.specs.Masks.{AreTall, IsArea, NoneTaken, IsMask, NoneIn, LiesInRows, LiesInColumns, IsMaskBefore, mask_of_row, with_row, right_of};

use crate::grid_ranges::{Columns, ranges_of};
use crate::mask_rows::{RowEnds, add_row};
use crate::tall_masks::tall_masks;
use edr_base::OutOfMemory;
use edr_edition::GridInstance;
use edr_geometry::RowMask;
use edr_query::Shape;
use std::alloc::Global;
use std::marker::Model;

// The least box with all nodes that are taken: for each of its rows truth values for so many columns of the grid from one on.
#[derive(Drop)]
pub(crate) struct Mask {
    pub(crate) row: u32,
    pub(crate) rows: u32,
    pub(crate) column: u32,
    pub(crate) columns: u32,
    pub(crate) left: u32,
    pub(crate) width: u32,
    pub(crate) bits: Vec<bool>,
}

impl Model for Mask {
    ghost use Rattle.edr_select.specs.Masks.{MaskValue};

    ghost Value = { MaskValue };

    ghost view = { λ m. record {
      row = m.row;
      rows = m.rows;
      column = m.column;
      columns = m.columns;
      left = m.left;
      width = m.width;
      bits = m.bits.items;
    } };
}

impl Mask {
    // The box of one row.
    fn of_row(columns: &Columns, y: usize, ends: RowEnds, bits: Vec<bool>) -> Mask
        requires y_in { y < node_limit }
        requires ordered { ends.first ≤ ends.last }
        requires last_in { ends.last < node_limit }
        requires columns_in { columns.now.left + length columns.now.xs ≤ node_limit }
        ensures { result ≡ mask_of_row columns.now y ends bits.items }
    {
        Mask {
            row: y as u32,
            rows: 1,
            column: ends.first as u32,
            columns: (ends.last + 1 - ends.first) as u32,
            left: columns.left as u32,
            width: columns.xs.len() as u32,
            bits,
        }
    }

    // Goes on to a row behind it. No node between is taken.
    fn reach_row(&mut self, y: usize, ends: RowEnds)
        requires behind { self.old.row ≤ y }
        requires y_in { y < node_limit }
        requires last_in { ends.last < node_limit }
        requires ordered { ends.first ≤ ends.last }
        requires right_in { right_of self.old ≤ node_limit }
        ensures { self.new ≡ with_row self.old y ends }
    {
        let right = (self.column + self.columns).max(ends.last as u32 + 1);
        self.rows = y as u32 + 1 - self.row;
        self.column = self.column.min(ends.first as u32);
        self.columns = right - self.column;
    }
}

// The box of the first row with a node that is taken, from one row to before another.
fn first_row(
    alloc: Global,
    instance: &GridInstance,
    shape: &Shape,
    columns: &Columns,
    tall: &[RowMask],
    from: usize,
    end: usize,
) -> Result<Option<Mask>, OutOfMemory>
    requires instance { HasGrid instance.now }
    requires area { IsArea shape.now }
    requires shape { IsShape shape.now }
    requires columns { LiesInColumns instance.now shape.now columns.now }
    requires tall { 0 < length tall.now → AreTall instance.now shape.now columns.now tall.now }
    requires ordered { from ≤ end }
    requires inside { end ≤ length instance.now.ys }
    requires before { NoneIn instance.now shape.now 0 from }
    ensures { IfOk result (λ found. MatchOption found (NoneIn instance.now shape.now 0 end) (λ mask. (mask.row < end) × IsMaskBefore instance.now shape.now columns.now (mask.row + 1) mask)) }
{
    let mut bits = Vec::with_capacity(alloc, (end - from) * columns.xs.len())?;
    for y in from..end {
        if let Some(ends) = add_row(alloc, &mut bits, instance, shape, columns, tall, y)? {
            return Ok(Some(Mask::of_row(columns, y, ends, bits)));
        }
        bits.clear();
    }
    Ok(None)
}

// Goes on over the rows from one to before another.
fn add_rows(
    alloc: Global,
    mask: &mut Mask,
    instance: &GridInstance,
    shape: &Shape,
    columns: &Columns,
    tall: &[RowMask],
    from: usize,
    end: usize,
) -> Result<(), OutOfMemory>
    requires instance { HasGrid instance.now }
    requires area { IsArea shape.now }
    requires shape { IsShape shape.now }
    requires columns { LiesInColumns instance.now shape.now columns.now }
    requires tall { 0 < length tall.now → AreTall instance.now shape.now columns.now tall.now }
    requires ordered { from ≤ end }
    requires inside { end ≤ length instance.now.ys }
    requires mask { IsMaskBefore instance.now shape.now columns.now from mask.old }
    ensures { OnOk result (IsMaskBefore instance.now shape.now columns.now end mask.new) }
{
    for y in from..end {
        if let Some(ends) = add_row(alloc, &mut mask.bits, instance, shape, columns, tall, y)? {
            mask.reach_row(y, ends);
        }
    }
    Ok(())
}

// The nodes of some columns that a shape takes, from one row to before another, or None where it takes none.
fn mask_over(
    alloc: Global,
    instance: &GridInstance,
    shape: &Shape,
    columns: &Columns,
    from: usize,
    end: usize,
) -> Result<Option<Mask>, OutOfMemory>
    requires instance { HasGrid instance.now }
    requires area { IsArea shape.now }
    requires shape { IsShape shape.now }
    requires columns { LiesInColumns instance.now shape.now columns.now }
    requires rows { LiesInRows instance.now shape.now from end }
    ensures { IfOk result (λ found. MatchOption found (NoneTaken instance.now shape.now) (λ mask. IsMask instance.now shape.now mask)) }
{
    let tall = tall_masks(alloc, instance, shape, columns, end - from)?;
    let Some(mut mask) = first_row(alloc, instance, shape, columns, &tall, from, end)? else {
        return Ok(None);
    };
    let next = mask.row as usize + 1;
    add_rows(alloc, &mut mask, instance, shape, columns, &tall, next, end)?;
    mask.bits.truncate(mask.rows as usize * mask.width as usize);
    Ok(Some(mask))
}

// The nodes that a shape takes, or None where it takes none. Only rows and columns that can have such a node are looked at.
pub(crate) fn mask_of(
    alloc: Global,
    instance: &GridInstance,
    shape: &Shape,
) -> Result<Option<Mask>, OutOfMemory>
    requires instance { HasGrid instance.now }
    requires area { IsArea shape.now }
    requires shape { IsShape shape.now }
    ensures { IfOk result (λ found. MatchOption found (NoneTaken instance.now shape.now) (λ mask. IsMask instance.now shape.now mask)) }
{
    let Some((from, end, columns)) = ranges_of(alloc, instance, shape)? else {
        return Ok(None);
    };
    mask_over(alloc, instance, shape, &columns, from, end)
}
