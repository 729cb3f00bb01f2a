//! The query that a target asks.
ghost use Rattle.std.specs.Prelude.{◌≡◌, None, IfOk, IfSome, IsUtf8, option_map};
ghost use Rattle.edr_query.specs.declared.parameters.Parameter.TheVariants as p;
ghost use Rattle.edr_query.specs.Parameters.{value_of};
ghost use Rattle.edr_query.specs.Queries.{around, along, inside, shape_of, names_in, AreNames, IsQuery};

use crate::addresses::QueryKind;
use crate::filters::{read_crs, read_names};
use crate::pairs::Parameters;
use crate::queries::Query;
use crate::shapes::{BoundingBox, Shape};
use edr_axes::{Levels, Times};
use edr_base::{Items, OutOfMemory, Text};
use edr_wkt::Geometry;
use std::alloc::Global;

// A radius, where its parts are given.
fn around(coords: Option<Geometry>, within: Option<i64>) -> Option<Shape>
    ensures { result ≡ around coords within }
{
    match (coords, within) {
        (Some(geometry), Some(within)) => Some(Shape::Radius { geometry, within }),
        _ => None,
    }
}

// A corridor, where its parts are given.
fn along(coords: Option<Geometry>, width: Option<i64>, height: Option<i64>) -> Option<Shape>
    ensures { result ≡ along coords width height }
{
    match (coords, width) {
        (Some(geometry), Some(width)) => Some(Shape::Corridor {
            geometry,
            width,
            height,
        }),
        _ => None,
    }
}

// A box, where it is given.
fn inside(bbox: Option<BoundingBox>) -> Option<Shape>
    ensures { result ≡ inside bbox }
{
    match bbox {
        Some(found) => Some(Shape::Cube {
            lo: found.lo,
            hi: found.hi,
            levels: found.levels,
        }),
        None => None,
    }
}

/// Where a query of a kind selects, by its parts; None where a part is absent.
pub fn shape_of(
    kind: QueryKind,
    coords: Option<Geometry>,
    within: Option<i64>,
    bbox: Option<BoundingBox>,
    width: Option<i64>,
    height: Option<i64>,
) -> Option<Shape>
    ensures { result ≡ shape_of kind coords within bbox width height }
{
    match kind {
        QueryKind::Position => match coords {
            Some(geometry) => Some(Shape::Position(geometry)),
            None => None,
        },
        QueryKind::Radius => around(coords, within),
        QueryKind::Area => match coords {
            Some(geometry) => Some(Shape::Area(geometry)),
            None => None,
        },
        QueryKind::Cube => inside(bbox),
        QueryKind::Trajectory => match coords {
            Some(geometry) => Some(Shape::Trajectory(geometry)),
            None => None,
        },
        QueryKind::Corridor => along(coords, width, height),
    }
}

// The names and the reference system that the parameters say.
fn read_filters(
    alloc: Global,
    parameters: &Parameters<'_>,
) -> Result<(Option<Items<Text>>, Option<Text>), OutOfMemory>
    ensures names { IfOk result (λ read. (read.0 ≡ option_map names_in (value_of p.ParameterName parameters.now)) × IfSome read.0 AreNames) }
    ensures crs { IfOk result (λ read. (read.1 ≡ value_of p.Crs parameters.now) × IfSome read.1 IsUtf8) }
{
    let names = read_names(alloc, parameters)?;
    let crs = read_crs(alloc, parameters)?;
    Ok((names, crs))
}

/// The query of a collection that selects there, with the names and the reference system that the parameters say.
pub fn ask(
    alloc: Global,
    collection: Text,
    instance: Option<Text>,
    shape: Shape,
    times: Option<Times>,
    levels: Option<Levels>,
    parameters: &Parameters<'_>,
) -> Result<Query, OutOfMemory>
    requires { IsQuery (record { collection = collection; instance = instance; shape = shape; times = times; levels = levels; parameters = None; crs = None }) }
    ensures { IfOk result (λ query. query ≡ record {
      collection = collection;
      instance = instance;
      shape = shape;
      times = times;
      levels = levels;
      parameters = option_map names_in (value_of p.ParameterName parameters.now);
      crs = value_of p.Crs parameters.now;
    }) }
{
    let (names, crs) = read_filters(alloc, parameters)?;
    Ok(Query {
        collection,
        instance,
        shape,
        times,
        levels,
        parameters: names,
        crs,
    })
}
