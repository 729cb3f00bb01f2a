//! Copies of queries.
ghost use Rattle.std.specs.Prelude.{◌≡◌, IfOk};
ghost use Rattle.edr_query.specs.Queries.{IsQuery};

use crate::queries::Query;
use crate::shapes::Shape;
use edr_axes::Levels;
use edr_base::{Items, OutOfMemory, Text};
use std::alloc::Global;

fn copy_texts(alloc: Global, texts: &[Text]) -> Result<Items<Text>, OutOfMemory>
    ensures { IfOk result (λ copy. copy ≡ texts.now) }
{
    let mut copies = Vec::new(alloc);
    for text in texts {
        copies.push(Text::of(alloc, text.bytes())?)?;
    }
    Ok(Items::of(copies))
}

fn copy_names(
    alloc: Global,
    names: &Option<Items<Text>>,
) -> Result<Option<Items<Text>>, OutOfMemory>
    ensures { IfOk result (λ copy. copy ≡ names.now) }
{
    match names {
        Some(names) => Ok(Some(copy_texts(alloc, names.items())?)),
        None => Ok(None),
    }
}

fn copy_shape(alloc: Global, shape: &Shape) -> Result<Shape, OutOfMemory>
    ensures { IfOk result (λ copy. copy ≡ shape.now) }
{
    match shape {
        Shape::Position(geometry) => Ok(Shape::Position(geometry.copy(alloc)?)),
        Shape::Radius { geometry, within } => Ok(Shape::Radius {
            geometry: geometry.copy(alloc)?,
            within: *within,
        }),
        Shape::Area(geometry) => Ok(Shape::Area(geometry.copy(alloc)?)),
        Shape::Cube { lo, hi, levels } => Ok(Shape::Cube {
            lo: *lo,
            hi: *hi,
            levels: *levels,
        }),
        Shape::Trajectory(geometry) => Ok(Shape::Trajectory(geometry.copy(alloc)?)),
        Shape::Corridor {
            geometry,
            width,
            height,
        } => Ok(Shape::Corridor {
            geometry: geometry.copy(alloc)?,
            width: *width,
            height: *height,
        }),
        Shape::Location(station) => Ok(Shape::Location(Text::of(alloc, station.bytes())?)),
    }
}

fn copy_levels(alloc: Global, levels: &Option<Levels>) -> Result<Option<Levels>, OutOfMemory>
    ensures { IfOk result (λ copy. copy ≡ levels.now) }
{
    match levels {
        Some(levels) => Ok(Some(levels.copy(alloc)?)),
        None => Ok(None),
    }
}

// The ids in the path of a query.
fn copy_ids(
    alloc: Global,
    collection: &Text,
    instance: &Option<Text>,
) -> Result<(Text, Option<Text>), OutOfMemory>
    ensures { IfOk result (λ copies. (copies.0 ≡ collection.now) × (copies.1 ≡ instance.now)) }
{
    let collection = Text::of(alloc, collection.bytes())?;
    let instance = Text::copied(alloc, instance)?;
    Ok((collection, instance))
}

// Where a query selects.
fn copy_place(
    alloc: Global,
    shape: &Shape,
    levels: &Option<Levels>,
) -> Result<(Shape, Option<Levels>), OutOfMemory>
    ensures { IfOk result (λ copies. (copies.0 ≡ shape.now) × (copies.1 ≡ levels.now)) }
{
    let shape = copy_shape(alloc, shape)?;
    let levels = copy_levels(alloc, levels)?;
    Ok((shape, levels))
}

// The names and the reference system of a query.
fn copy_filters(
    alloc: Global,
    names: &Option<Items<Text>>,
    crs: &Option<Text>,
) -> Result<(Option<Items<Text>>, Option<Text>), OutOfMemory>
    ensures { IfOk result (λ copies. (copies.0 ≡ names.now) × (copies.1 ≡ crs.now)) }
{
    let names = copy_names(alloc, names)?;
    let crs = Text::copied(alloc, crs)?;
    Ok((names, crs))
}

impl Query {
    /// An equal query, or want of memory.
    pub fn copy(&self, alloc: Global) -> Result<Query, OutOfMemory>
        ensures same { IfOk result (λ copy. copy ≡ self.now) }
        ensures query { IsQuery self.now }
    {
        let (collection, instance) = copy_ids(alloc, &self.collection, &self.instance)?;
        let (shape, levels) = copy_place(alloc, &self.shape, &self.levels)?;
        let (parameters, crs) = copy_filters(alloc, &self.parameters, &self.crs)?;
        Ok(Query {
            collection,
            instance,
            shape,
            times: self.times,
            levels,
            parameters,
            crs,
        })
    }
}
