//! The nodes of a plane that are nearest to points.
ghost use Rattle.std.specs.Prelude.{◌≡◌, ◌*◌, ◌≤◌, ◌<◌, ℕ, length, IfOk, IfSome};
ghost use Rattle.edr_base.specs.Limits.{node_limit};
ghost use Rattle.edr_axes.specs.Axes.{IsAxis};
ghost use Rattle.edr_select.specs.Wanted as wanted;
ghost use Rattle.edr_select.specs.Choices.{spot_places, is_nearest_place, is_number, row_of, column_of};

use crate::numbers::ascending_once;
use edr_axes::Axis;
use edr_base::{OutOfMemory, Position};
use std::alloc::Global;

// Whether a coordinate is from the least to the greatest of an axis, both included.
fn is_along(axis: &Axis, c: i64) -> bool
    ensures { result ≡ wanted.is_along axis.now c }
{
    let values = axis.values();
    values[0] <= c && c <= values[values.len() - 1]
}

// The number of the node that is nearest to a point, row by row; None where the point is outside the box of the axes.
fn spot_of(ys: &Axis, xs: &Axis, point: &Position) -> Option<u64>
    requires rows { IsAxis ys.now }
    requires columns { IsAxis xs.now }
    requires few { length ys.now * length xs.now ≤ node_limit }
    ensures inside { IfSome result (λ spot. spot < length ys.now * length xs.now) }
    ensures nearest { (k : ℕ) → k < length ys.now * length xs.now
        → is_nearest_place ys.now xs.now (row_of xs.now k) (column_of xs.now k) point.now ≡ is_number result k }
{
    if !is_along(ys, point.y) || !is_along(xs, point.x) {
        return None;
    }
    let (row, column) = (ys.nearest(point.y), xs.nearest(point.x));
    Some((row * xs.len() + column) as u64)
}

// The numbers of the nodes that are nearest to some points, those outside left out.
pub(crate) fn spots_taken(
    alloc: Global,
    ys: &Axis,
    xs: &Axis,
    points: &[Position],
) -> Result<Vec<u64>, OutOfMemory>
    requires rows { IsAxis ys.now }
    requires columns { IsAxis xs.now }
    requires few { length ys.now * length xs.now ≤ node_limit }
    ensures { IfOk result (λ places. places.items ≡ spot_places ys.now xs.now points.now) }
{
    let mut places = Vec::new(alloc);
    for point in points {
        match spot_of(ys, xs, point) {
            Some(spot) => places.push(spot)?,
            None => {}
        }
    }
    Ok(ascending_once(places))
}
