//! What a query takes of an instance.
ghost use Rattle.std.specs.Prelude.{◌≡◌, option_map, IfOk, IfSome};
ghost use Rattle.edr_axes.specs.Axes.{IsAscending};
ghost use Rattle.edr_axes.specs.declared.levels.Levels.TheVariants.{Between};
ghost use Rattle.edr_wkt.specs.Geometries.{positions_of};
ghost use Rattle.edr_wkt.specs.Wkt.{has_z_of};
ghost use Rattle.edr_edition.specs.Instances.{HasGrid};
ghost use Rattle.edr_query.specs.declared.shapes.Shape.TheVariants as at;
ghost use Rattle.edr_query.specs.Queries.{IsShape};
ghost use Rattle.edr_select.specs.Wanted as wanted;
ghost use Rattle.edr_select.specs.Wanted.{levels_asked};
ghost use Rattle.edr_select.specs.Choices.{IsPoints, chosen, level_places, parameter_places};

use crate::chosen_levels::levels_taken;
use crate::chosen_spots::spots_taken;
use crate::chosen_times::times_taken;
use edr_axes::{Axis, Levels};
use edr_base::{OutOfMemory, Position};
use edr_edition::GridInstance;
use edr_query::{Query, Shape};
use edr_wkt::Geometry;
use std::alloc::Global;
use std::marker::Model;

// The places of the parameters, the times, the levels and the nodes of a plane that are taken.
#[derive(Drop)]
pub(crate) struct Choice {
    pub(crate) parameters: Vec<u64>,
    pub(crate) times: Vec<u64>,
    pub(crate) levels: Vec<u64>,
    pub(crate) spots: Vec<u64>,
}

impl Model for Choice {
    ghost use Rattle.edr_select.specs.Choices.{Chosen};

    ghost Value = { Chosen };

    ghost view = { λ c. record {
      parameters = c.parameters.items;
      times = c.times.items;
      levels = c.levels.items;
      spots = c.spots.items;
    } };
}

// The points of a POINT or a MULTIPOINT.
fn points_of(geometry: &Geometry) -> &[Position]
    requires { IsPoints geometry.now }
    ensures { result.now ≡ positions_of geometry.now }
{
    match geometry {
        Geometry::Points { positions, .. } => positions.items(),
        Geometry::Line { .. } => unreachable!(),
        Geometry::Polygons { .. } => unreachable!(),
    }
}

// The level of the first point, where points have levels.
fn level_of(geometry: &Geometry) -> Option<Levels>
    requires { IsPoints geometry.now }
    ensures { result ≡ wanted.level_of (has_z_of geometry.now) (positions_of geometry.now) }
{
    if !geometry.has_z() {
        return None;
    }
    match points_of(geometry).first() {
        Some(point) => Some(Levels::At(point.z)),
        None => None,
    }
}

// The levels of a box.
fn levels_between(levels: &Option<(i64, i64)>) -> Option<Levels>
    ensures { result ≡ option_map (λ range. Between range.0 range.1) levels.now }
{
    match levels {
        Some((low, high)) => Some(Levels::Between(*low, *high)),
        None => None,
    }
}

// The levels that a shape asks for: a point's z, or those of a box.
fn levels_of_shape(shape: &Shape) -> Option<Levels>
    requires { IsShape shape.now }
    ensures { result ≡ wanted.levels_of shape.now }
{
    match shape {
        Shape::Position(geometry) => level_of(geometry),
        Shape::Radius { geometry, .. } => level_of(geometry),
        Shape::Cube { levels, .. } => levels_between(levels),
        _ => None,
    }
}

/// The places of the levels that a query asks for, by `z` or by its shape.
pub fn levels_of_query(
    alloc: Global,
    query: &Query,
    axis: Option<&Axis>,
) -> Result<Vec<u64>, OutOfMemory>
    requires shape { IsShape query.now.shape }
    requires axis { IfSome axis (λ axis. IsAscending axis.now) }
    ensures { IfOk result (λ places. places.items ≡ level_places (levels_asked query.now) (option_map (λ axis. axis.now) axis.entry)) }
{
    match &query.levels {
        Some(levels) => levels_taken(alloc, Some(levels), axis),
        None => match levels_of_shape(&query.shape) {
            Some(levels) => levels_taken(alloc, Some(&levels), axis),
            None => levels_taken(alloc, None, axis),
        },
    }
}

// What a position takes of an instance, of which the parameters are known.
pub(crate) fn choose(
    alloc: Global,
    query: &Query,
    geometry: &Geometry,
    instance: &GridInstance,
    parameters: Vec<u64>,
) -> Result<Choice, OutOfMemory>
    requires points { IsPoints geometry.now }
    requires shape { query.now.shape ≡ at.Position geometry.now }
    requires valid { IsShape query.now.shape }
    requires instance { HasGrid instance.now }
    requires parameters { parameters.items ≡ parameter_places query.now.parameters instance.now.parameters }
    ensures { IfOk result (λ choice. choice ≡ chosen instance.now query.now) }
{
    let times = times_taken(alloc, &query.times, instance.times())?;
    let levels = levels_of_query(alloc, query, instance.levels())?;
    let spots = spots_taken(alloc, instance.ys(), instance.xs(), points_of(geometry))?;
    Ok(Choice {
        parameters,
        times,
        levels,
        spots,
    })
}
