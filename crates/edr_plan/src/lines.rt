//! The corridor of a query, and what it takes of the axes of a station.
ghost use Rattle.std.specs.Prelude.{◌≡◌, [], ◌∷◌, IfOk};
ghost use Rattle.edr_lines.specs.Corridors.{IsCorridorOf};
ghost use Rattle.edr_query.specs.Queries.{IsShape};
ghost use Rattle.edr_plan.specs.CorridorPlans.{IsLineOf, axes_of};

use edr_axes::Axis;
use edr_base::OutOfMemory;
use edr_corridor::Segments;
use edr_lines::{Axes, Corridor, corridor_of};
use edr_query::Query;
use edr_station::Station;
use edr_wkt::Geometry;
use std::alloc::Global;
use std::marker::Model;
use std::slice;

// The segments of a corridor, its line, its width and its height.
#[derive(Drop)]
pub(crate) struct Line<'a> {
    pub(crate) segments: &'a Segments,
    pub(crate) geometry: &'a Geometry,
    pub(crate) width: i64,
    pub(crate) height: Option<i64>,
}

impl<'a> Model for Line<'a> {
    ghost use Rattle.edr_plan.specs.CorridorPlans.{LineValue};

    ghost Value = { LineValue };

    ghost view = { λ l. record {
      segments = l.segments.now;
      corridor = record {
        line = l.geometry.now;
        width = l.width;
        height = l.height;
      };
    } };
}

// The axis of one value.
pub(crate) fn axis_at(alloc: Global, value: i64) -> Result<Axis, OutOfMemory>
    ensures { IfOk result (λ axis. axis ≡ value ∷ []) }
{
    Axis::over(alloc, slice::from_ref(&value))
}

// The axes of a station as of a grid of one row and one column.
pub(crate) fn axes_at<'a>(station: &'a Station, ys: &'a Axis, xs: &'a Axis) -> Axes<'a>
    requires ys { ys.now ≡ station.now.y ∷ [] }
    requires xs { xs.now ≡ station.now.x ∷ [] }
    ensures { result ≡ axes_of station.now }
{
    Axes {
        ts: station.times(),
        zs: station.levels(),
        ys,
        xs,
    }
}

// What the corridor of a query takes of some axes.
pub(crate) fn corridor_at<'a>(
    alloc: Global,
    query: &Query,
    line: &Line<'a>,
    axes: &Axes<'_>,
) -> Result<Corridor<'a>, OutOfMemory>
    requires shape { IsShape query.now.shape }
    requires line { IsLineOf query.now line.now }
    ensures { IfOk result (IsCorridorOf query.now line.now.corridor.line line.now.corridor.width line.now.corridor.height axes.now) }
{
    let corridor = corridor_of(
        alloc,
        query,
        line.geometry,
        line.width,
        line.height,
        line.segments,
        axes,
    )?;
    Ok(corridor)
}
