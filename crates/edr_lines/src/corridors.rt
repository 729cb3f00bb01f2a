//! What a corridor takes: the segments of its line, and which times and levels are asked beside them.
ghost use Rattle.std.specs.Prelude.{◌≡◌, ◌<◌, ◌||◌, ◌==◌, ℕ, true, false, Some, All, length, replicate, IfOk, IfSome};
ghost use Rattle.std.specs.List.{slice_index_or, list_any};
ghost use Rattle.edr_axes.specs.Axes.{value_at, IsAscending, axis_length};
ghost use Rattle.edr_wkt.specs.Geometries as geometries;
ghost use Rattle.edr_wkt.specs.Wkt.{has_z_of, has_m_of};
ghost use Rattle.edr_corridor.specs.Boxes.{level_at};
ghost use Rattle.edr_query.specs.Queries.{IsShape, IsTaken};
ghost use Rattle.edr_query.specs.declared.shapes.Shape.TheVariants as at;
ghost use Rattle.edr_query.specs.declared.addresses.QueryKind.TheVariants as kinds;
ghost use Rattle.edr_select.specs.Lines as lines;
ghost use Rattle.edr_select.specs.Wanted.{takes_time, takes_level};
ghost use Rattle.edr_lines.specs.Corridors.{IsCorridorOf, IsCorridor};

use crate::spreads::Axes;
use edr_axes::{Axis, Levels};
use edr_base::{OutOfMemory, Position};
use edr_corridor::Segments;
use edr_query::Query;
use edr_select::{levels_of_query, times_taken};
use edr_wkt::Geometry;
use std::alloc::Global;
use std::marker::Model;

/// The segments of a line, and for each place on the axes of times and levels whether it is asked beside them.
///
/// Where the segments have times of their own each time is asked, and where they have levels of their own or a height goes about
/// a single level each level is.
#[derive(Drop)]
pub struct Corridor<'a> {
    pub(crate) segments: &'a Segments,
    pub(crate) times: Vec<bool>,
    pub(crate) levels: Vec<bool>,
}

impl<'a> Model for Corridor<'a> {
    ghost use Rattle.edr_lines.specs.Corridors.{CorridorValue};

    ghost Value = { CorridorValue };

    ghost view = { λ c. record { segments = c.segments.now; times = c.times.items; levels = c.levels.items } };
}

// For each place on an axis of so many values whether it is among some.
fn are_among(alloc: Global, count: usize, places: &[u64]) -> Result<Vec<bool>, OutOfMemory>
    requires { All (λ place. place < count) places.now }
    ensures len { IfOk result (λ among. length among.items ≡ count) }
    ensures among { IfOk result (λ among. (k : ℕ) → k < count → slice_index_or among.items k false ≡ list_any (λ place. place == k) places.now) }
{
    let mut among = Vec::new(alloc);
    among.resize(count, false)?;
    for place in places {
        among[*place as usize] = true;
    }
    Ok(among)
}

// For each place on an axis of so many values that it is asked.
fn are_all(alloc: Global, count: usize) -> Result<Vec<bool>, OutOfMemory>
    ensures { IfOk result (λ all. all.items ≡ replicate count true) }
{
    let mut all = Vec::new(alloc);
    all.resize(count, true)?;
    Ok(all)
}

// The single level that is asked, where a height goes about it.
fn single_level(levels: &Option<Levels>, height: Option<i64>) -> Option<i64>
    ensures { result ≡ lines.single_level levels.now height }
{
    match levels {
        Some(Levels::At(level)) if height.is_some() => Some(*level),
        _ => None,
    }
}

// The positions of a line, and whether they have levels and times.
pub(crate) fn line_of(geometry: &Geometry) -> (&[Position], bool, bool)
    requires { IsTaken kinds.Trajectory geometry.now }
    ensures positions { result.0.now ≡ geometries.line_of geometry.now }
    ensures has_z { result.1 ≡ has_z_of geometry.now }
    ensures has_m { result.2 ≡ has_m_of geometry.now }
{
    let Geometry::Line {
        has_z,
        has_m,
        positions,
    } = geometry
    else {
        unreachable!()
    };
    (positions.items(), *has_z, *has_m)
}

/// The segments of the line of a corridor.
pub fn segments_of(
    alloc: Global,
    query: &Query,
    geometry: &Geometry,
    width: i64,
    height: Option<i64>,
) -> Result<Segments, OutOfMemory>
    requires shape { query.now.shape ≡ at.Corridor geometry.now width height }
    requires valid { IsShape query.now.shape }
    ensures { IfOk result (λ segments. segments ≡ lines.segments_of query.now geometry.now width height) }
{
    let (line, has_z, has_m) = line_of(geometry);
    let level = single_level(&query.levels, height);
    Segments::of(alloc, line, has_z, has_m, width, level, height)
}

// For each place on the axis of times whether it is asked beside a corridor.
fn times_asked(
    alloc: Global,
    query: &Query,
    has_m: bool,
    axes: &Axes<'_>,
) -> Result<Vec<bool>, OutOfMemory>
    ensures len { IfOk result (λ asked. length asked.items ≡ length axes.now.ts) }
    ensures asked { IfOk result (λ asked. (t : ℕ) → t < length axes.now.ts → slice_index_or asked.items t false ≡ (has_m || takes_time query.now.times (Some (value_at axes.now.ts t)))) }
{
    if has_m {
        return are_all(alloc, axes.ts.len());
    }
    let places = times_taken(alloc, &query.times, axes.ts)?;
    are_among(alloc, axes.ts.len(), &places)
}

// An axis of levels ascends.
fn levels_ascend(zs: Option<&Axis>)
    ensures { IfSome zs.entry (λ zs. IsAscending zs.now) }
{
    if let Some(zs) = zs {
        zs.values();
    }
}

// For each place of levels whether it is asked beside a corridor.
fn levels_asked(
    alloc: Global,
    query: &Query,
    has_each: bool,
    axes: &Axes<'_>,
) -> Result<Vec<bool>, OutOfMemory>
    requires corridor { IsCorridor query.now.shape }
    requires valid { IsShape query.now.shape }
    ensures len { IfOk result (λ asked. length asked.items ≡ axis_length axes.now.zs) }
    ensures asked { IfOk result (λ asked. (z : ℕ) → z < axis_length axes.now.zs → slice_index_or asked.items z false ≡ (has_each || takes_level query.now.levels (level_at axes.now.zs z))) }
{
    if has_each {
        return are_all(alloc, axes.level_count());
    }
    levels_ascend(axes.zs);
    let places = levels_of_query(alloc, query, axes.zs)?;
    are_among(alloc, axes.level_count(), &places)
}

/// What a corridor, of which the segments are known, takes of some axes.
pub fn corridor_of<'a>(
    alloc: Global,
    query: &Query,
    geometry: &Geometry,
    width: i64,
    height: Option<i64>,
    segments: &'a Segments,
    axes: &Axes<'_>,
) -> Result<Corridor<'a>, OutOfMemory>
    requires shape { query.now.shape ≡ at.Corridor geometry.now width height }
    requires valid { IsShape query.now.shape }
    requires segments { segments.now ≡ lines.segments_of query.now geometry.now width height }
    ensures { IfOk result (IsCorridorOf query.now geometry.now width height axes.now) }
{
    let (_, has_z, has_m) = line_of(geometry);
    let has_each = has_z || single_level(&query.levels, height).is_some();
    Ok(Corridor {
        segments,
        times: times_asked(alloc, query, has_m, axes)?,
        levels: levels_asked(alloc, query, has_each, axes)?,
    })
}
