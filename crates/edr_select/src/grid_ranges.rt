//! The rows and the columns of a plane that can have nodes which a disc, some polygons or a box takes.
ghost use Rattle.std.specs.Prelude.{IfOk, MatchOption};
ghost use Rattle.edr_edition.specs.Instances.{HasGrid};
ghost use Rattle.edr_query.specs.Queries.{IsShape};
ghost use Rattle.edr_select.specs.Masks.{IsArea, NoneTaken, LiesInRows, LiesInColumns};

use crate::reaches::reach_of;
use edr_axes::{Axis, bounds_split_axes};
use edr_base::OutOfMemory;
use edr_edition::GridInstance;
use edr_query::Shape;
use std::alloc::Global;
use std::marker::Model;

// Some columns of a grid: the first, and the x of each in metres.
#[derive(Drop)]
pub(crate) struct Columns {
    pub(crate) left: usize,
    pub(crate) xs: Axis,
}

impl Model for Columns {
    ghost use Rattle.edr_select.specs.Masks.{ColumnsValue};

    ghost Value = { ColumnsValue };

    ghost view = { λ columns. record {
      left = columns.left;
      xs = columns.xs;
    } };
}

// The rows and the columns that can have nodes which a shape takes, or None where there are no such columns: the first row, the
// one behind the last, and the columns.
pub(crate) fn ranges_of(
    alloc: Global,
    instance: &GridInstance,
    shape: &Shape,
) -> Result<Option<(usize, usize, Columns)>, OutOfMemory>
    requires instance { HasGrid instance.now }
    requires area { IsArea shape.now }
    requires shape { IsShape shape.now }
    ensures { IfOk result (λ found. MatchOption found (NoneTaken instance.now shape.now)
        (λ ranges. LiesInRows instance.now shape.now ranges.0 ranges.1 × LiesInColumns instance.now shape.now ranges.2)) }
{
    bounds_split_axes();
    let reach = reach_of(shape);
    let (from, end) = instance.ys().range(reach.low, reach.high);
    let (left, right) = instance.xs().range(reach.left, reach.right);
    if left == right {
        return Ok(None);
    }
    let xs = instance.xs().part(alloc, left, right)?;
    Ok(Some((from, end, Columns { left, xs })))
}
