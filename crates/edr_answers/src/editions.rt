//! What a feed is read as, in a plain notation.
ghost use Rattle.std.specs.Prelude.{IsTrue};
ghost use Rattle.edr_chunk.specs.Places.{Within};

use crate::faults::AnswerFault;
use crate::notation::{Notation, put_coverage_fault};
use covjson_value::Parameter;
use edr_axes::Axis;
use edr_base::MemorySource;
use edr_chunk::{GridPlace, GridShape, PackedGrid, Reads};
use edr_draft::ChangeFault;
use edr_edition::{CollectionData, Edition, GridInstance};
use edr_feed::{Feed, FeedFault, read_feed};
use edr_station::{Station, Stations};
use std::alloc::Global;

// How many bytes a read of the feed gives at most.
const PIECE: usize = 1000;

fn put_axis(alloc: Global, axis: &Axis, notation: &mut Notation) -> Result<(), AnswerFault> {
    for place in 0..axis.len() {
        notation.put_number(alloc, axis.value(place))?;
    }
    notation.put(b"; ")
}

fn put_parameters(parameters: &[Parameter], notation: &mut Notation) -> Result<(), AnswerFault> {
    for parameter in parameters {
        notation.put(parameter.id.bytes())?;
        notation.put(b",")?;
        notation.put(parameter.lang.bytes())?;
        notation.put(b",")?;
        notation.put(parameter.label.bytes())?;
        notation.put(b",")?;
        match &parameter.unit {
            Some(unit) => notation.put(unit.bytes())?,
            None => notation.put(b"-")?,
        }
        notation.put(b"; ")?;
    }
    Ok(())
}

fn put_sample(
    alloc: Global,
    sample: Option<i64>,
    notation: &mut Notation,
) -> Result<(), AnswerFault> {
    match sample {
        Some(number) => notation.put_number(alloc, number),
        None => notation.put(b"- "),
    }
}

fn is_within(shape: GridShape, place: GridPlace) -> bool
    ensures { IsTrue result → Within shape place }
{
    place.parameter < shape.parameters
        && place.t < shape.times
        && place.z < shape.levels
        && place.y < shape.rows
        && place.x < shape.columns
}

// The sample at a place, from its tile.
fn sample_at(alloc: Global, grid: &PackedGrid, place: GridPlace) -> Result<Option<i64>, AnswerFault>
    requires { Within grid.now.shape place }
{
    let mut reads = Reads::new(alloc);
    let tile = grid.open(alloc, grid.tile_of(place), &mut reads)?;
    Ok(tile.get(place.y, place.x))
}

// The samples of one parameter at one time and level.
fn put_rows(
    alloc: Global,
    grid: &PackedGrid,
    first: GridPlace,
    notation: &mut Notation,
) -> Result<(), AnswerFault> {
    let shape = grid.shape();
    for y in 0..shape.rows {
        for x in 0..shape.columns {
            let place = GridPlace { y, x, ..first };
            if is_within(shape, place) {
                put_sample(alloc, sample_at(alloc, grid, place)?, notation)?;
            }
        }
    }
    Ok(())
}

fn put_samples(
    alloc: Global,
    grid: &PackedGrid,
    notation: &mut Notation,
) -> Result<(), AnswerFault> {
    let shape = grid.shape();
    for parameter in 0..shape.parameters {
        for t in 0..shape.times {
            for z in 0..shape.levels {
                let first = GridPlace {
                    parameter,
                    t,
                    z,
                    y: 0,
                    x: 0,
                };
                put_rows(alloc, grid, first, notation)?;
            }
        }
    }
    Ok(())
}

fn put_instance(
    alloc: Global,
    instance: &GridInstance,
    notation: &mut Notation,
) -> Result<(), AnswerFault> {
    notation.put(b"\n  instance ")?;
    notation.put(instance.id())?;
    notation.put(b": ")?;
    put_axis(alloc, instance.times(), notation)?;
    match instance.levels() {
        Some(levels) => put_axis(alloc, levels, notation)?,
        None => notation.put(b"- ; ")?,
    }
    put_axis(alloc, instance.ys(), notation)?;
    put_axis(alloc, instance.xs(), notation)?;
    put_samples(alloc, instance.grid(), notation)
}

// Where and when a station is.
fn put_station(
    alloc: Global,
    station: &Station,
    notation: &mut Notation,
) -> Result<(), AnswerFault> {
    notation.put(b"\n  station ")?;
    notation.put(station.id())?;
    notation.put(b": ")?;
    notation.put(station.label())?;
    notation.put(b"; ")?;
    notation.put_number(alloc, station.x())?;
    notation.put_number(alloc, station.y())?;
    notation.put(b"; ")?;
    put_axis(alloc, station.times(), notation)?;
    match station.levels() {
        Some(levels) => put_axis(alloc, levels, notation),
        None => notation.put(b"- ; "),
    }
}

// The stations, and then their samples, block by block.
fn put_stations(
    alloc: Global,
    stations: &Stations,
    notation: &mut Notation,
) -> Result<(), AnswerFault> {
    for place in 0..stations.len() {
        put_station(alloc, stations.station(place), notation)?;
    }
    notation.put(b"\n  blocks: ")?;
    let mut reads = Reads::new(alloc);
    for number in 0..stations.blocks() {
        for sample in stations.open_block(alloc, number, &mut reads)? {
            put_sample(alloc, sample, notation)?;
        }
        notation.put(b"; ")?;
    }
    Ok(())
}

fn put_collection(
    alloc: Global,
    collection: &CollectionData,
    notation: &mut Notation,
) -> Result<(), AnswerFault> {
    notation.put(b"\n collection ")?;
    notation.put(collection.id())?;
    notation.put(b": ")?;
    notation.put(collection.title())?;
    notation.put(b"; ")?;
    notation.put(collection.referencing().crs.bytes())?;
    notation.put(b"; ")?;
    match &collection.referencing().vertical {
        Some(vertical) => notation.put(vertical.bytes())?,
        None => notation.put(b"-")?,
    }
    notation.put(b"; ")?;
    put_parameters(collection.parameters(), notation)?;
    for place in 0..collection.instances() {
        put_instance(alloc, collection.instance_at(place), notation)?;
    }
    match collection.stations() {
        Some(stations) => put_stations(alloc, stations, notation),
        None => Ok(()),
    }
}

fn put_edition(
    alloc: Global,
    edition: &Edition,
    notation: &mut Notation,
) -> Result<(), AnswerFault> {
    let number = edition.number();
    let head = format!(in alloc; "edition {number}")?;
    notation.put(head.as_bytes())?;
    for place in 0..edition.len() {
        put_collection(alloc, edition.collection_at(place), notation)?;
    }
    notation.put(b"\n")
}

fn put_editions(alloc: Global, feed: &Feed, notation: &mut Notation) -> Result<(), AnswerFault> {
    for edition in feed.editions.items() {
        put_edition(alloc, edition, notation)?;
    }
    Ok(())
}

/// Puts what a feed is read as.
pub fn put_feed(alloc: Global, text: &[u8], notation: &mut Notation) -> Result<(), AnswerFault> {
    let mut bytes = Vec::with_capacity(alloc, text.len())?;
    bytes.extend_from_slice(text)?;
    let mut source = MemorySource::of(bytes, PIECE, Vec::new(alloc));
    match read_feed(alloc, &mut source) {
        Ok(feed) => put_editions(alloc, &feed, notation),
        Err(fault) => put_feed_fault(alloc, &fault, notation),
    }
}

fn put_feed_fault(
    alloc: Global,
    fault: &FeedFault,
    notation: &mut Notation,
) -> Result<(), AnswerFault> {
    match fault {
        FeedFault::OutOfMemory => Err(AnswerFault::OutOfMemory),
        FeedFault::Cov(line, inner) => {
            let head = format!(in alloc; "Cov({line}) ")?;
            notation.put(head.as_bytes())?;
            put_coverage_fault(alloc, inner, notation)
        }
        FeedFault::Change(line, inner) => {
            let head = format!(in alloc; "Change({line}) ")?;
            notation.put(head.as_bytes())?;
            put_change_fault(alloc, inner, notation)
        }
        _ => {
            let answer = format!(in alloc; "{fault:?}")?;
            notation.put(answer.as_bytes())
        }
    }
}

fn put_change_fault(
    alloc: Global,
    fault: &ChangeFault,
    notation: &mut Notation,
) -> Result<(), AnswerFault> {
    match fault {
        ChangeFault::OutOfMemory => Err(AnswerFault::OutOfMemory),
        ChangeFault::ParametersDiffer(id) => notation.put_named("ParametersDiffer", id),
        _ => {
            let answer = format!(in alloc; "{fault:?}")?;
            notation.put(answer.as_bytes())
        }
    }
}
