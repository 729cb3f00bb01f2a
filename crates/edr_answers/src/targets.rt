//! What a target is read as, in a plain notation.
use crate::faults::AnswerFault;
use crate::notation::{Notation, put_geometry, put_levels, put_times};
use edr_base::{Items, Spot, Text};
use edr_query::{Page, Query, Shape, TargetFault, read_target};
use edr_wkt::Geometry;
use std::alloc::Global;

fn put_pair(
    word: &str,
    first: &Text,
    second: &Text,
    notation: &mut Notation,
) -> Result<(), AnswerFault> {
    notation.put(word.as_bytes())?;
    notation.put(b"(")?;
    notation.put(first.bytes())?;
    notation.put(b",")?;
    notation.put(second.bytes())?;
    notation.put(b")")
}

fn put_optional(text: Option<&Text>, notation: &mut Notation) -> Result<(), AnswerFault> {
    match text {
        Some(text) => notation.put_named("", text),
        None => notation.put(b"-"),
    }
}

fn put_named_geometry(
    alloc: Global,
    word: &str,
    geometry: &Geometry,
    notation: &mut Notation,
) -> Result<(), AnswerFault> {
    notation.put(word.as_bytes())?;
    notation.put(b"(")?;
    put_geometry(alloc, geometry, notation)
}

fn put_box(
    alloc: Global,
    lo: Spot,
    hi: Spot,
    levels: Option<(i64, i64)>,
    notation: &mut Notation,
) -> Result<(), AnswerFault> {
    let sides = format!(in alloc; "Cube({},{},{},{}", lo.x, lo.y, hi.x, hi.y)?;
    notation.put(sides.as_bytes())?;
    if let Some((low, high)) = levels {
        let levels = format!(in alloc; ",{low},{high}")?;
        notation.put(levels.as_bytes())?;
    }
    notation.put(b")")
}

fn put_shape(alloc: Global, shape: &Shape, notation: &mut Notation) -> Result<(), AnswerFault> {
    match shape {
        Shape::Position(geometry) => {
            put_named_geometry(alloc, "Position", geometry, notation)?;
            notation.put(b")")
        }
        Shape::Radius { geometry, within } => {
            put_named_geometry(alloc, "Radius", geometry, notation)?;
            let within = format!(in alloc; ",{within})")?;
            notation.put(within.as_bytes())
        }
        Shape::Area(geometry) => {
            put_named_geometry(alloc, "Area", geometry, notation)?;
            notation.put(b")")
        }
        Shape::Cube { lo, hi, levels } => put_box(alloc, *lo, *hi, *levels, notation),
        Shape::Trajectory(geometry) => {
            put_named_geometry(alloc, "Trajectory", geometry, notation)?;
            notation.put(b")")
        }
        Shape::Corridor {
            geometry,
            width,
            height,
        } => {
            put_named_geometry(alloc, "Corridor", geometry, notation)?;
            let width = format!(in alloc; ",{width},")?;
            notation.put(width.as_bytes())?;
            put_height(alloc, *height, notation)
        }
        Shape::Location(station) => notation.put_named("Location", station),
    }
}

fn put_height(
    alloc: Global,
    height: Option<i64>,
    notation: &mut Notation,
) -> Result<(), AnswerFault> {
    match height {
        Some(height) => {
            let height = format!(in alloc; "{height})")?;
            notation.put(height.as_bytes())
        }
        None => notation.put(b"-)"),
    }
}

fn put_names(names: Option<&Items<Text>>, notation: &mut Notation) -> Result<(), AnswerFault> {
    let Some(names) = names else {
        return notation.put(b"-");
    };
    for name in names.items() {
        notation.put_named("", name)?;
    }
    Ok(())
}

fn put_filters(alloc: Global, query: &Query, notation: &mut Notation) -> Result<(), AnswerFault> {
    match &query.times {
        Some(times) => put_times(alloc, times, notation)?,
        None => notation.put(b"-")?,
    }
    notation.put(b"; ")?;
    match &query.levels {
        Some(levels) => put_levels(alloc, levels, notation)?,
        None => notation.put(b"-")?,
    }
    notation.put(b"; ")?;
    put_names(query.parameters.as_ref(), notation)?;
    notation.put(b"; ")?;
    put_optional(query.crs.as_ref(), notation)
}

fn put_query(alloc: Global, query: &Query, notation: &mut Notation) -> Result<(), AnswerFault> {
    notation.put_named("Ask ", &query.collection)?;
    notation.put(b"; ")?;
    put_optional(query.instance.as_ref(), notation)?;
    notation.put(b"; ")?;
    put_shape(alloc, &query.shape, notation)?;
    notation.put(b"; ")?;
    put_filters(alloc, query, notation)
}

fn put_page(alloc: Global, page: &Page, notation: &mut Notation) -> Result<(), AnswerFault> {
    match page {
        Page::Landing => notation.put(b"Landing"),
        Page::Conformance => notation.put(b"Conformance"),
        Page::Collections => notation.put(b"Collections"),
        Page::Collection(collection) => notation.put_named("Collection", collection),
        Page::Instances(collection) => notation.put_named("Instances", collection),
        Page::Instance(collection, instance) => {
            put_pair("Instance", collection, instance, notation)
        }
        Page::Locations(collection) => notation.put_named("Locations", collection),
        Page::Ask(query) => put_query(alloc, query, notation),
    }
}

/// Puts the page that a target asks for, or the number of its refusal.
pub fn put_target(alloc: Global, text: &[u8], notation: &mut Notation) -> Result<(), AnswerFault> {
    match read_target(alloc, text) {
        Ok(page) => put_page(alloc, &page, notation),
        Err(TargetFault::Refused(refusal)) => {
            let number = format!(in alloc; "refused {}", refusal.number())?;
            notation.put(number.as_bytes())
        }
        Err(TargetFault::OutOfMemory) => Err(AnswerFault::OutOfMemory),
    }
}
