//! What each command does.
ghost use Rattle.covjson_value.specs.Coverages.{IsValidDocument};

use crate::answers::{Answer, BenchFault};
use crate::commands::Command;
use crate::feeds::answer_from_feed;
use crate::grids::{Rows, grid_of};
use crate::targets::{decode_pairs, read_targets};
use crate::tiles::open_tiles;
use covjson_read::read_document;
use covjson_value::{Document, document_tree};
use covjson_write::write_whole;
use edr_base::{Items, OutOfMemory, Position, Source, read_all};
use edr_json::read_tree;
use edr_wkt::{Geometry, Polygon, WktFault, read_wkt};
use serde_json::Value;
use std::alloc::Global;

const MOST_INPUT: usize = 67_108_864;

fn positions_in_rings(rings: &[Items<Position>]) -> usize {
    let mut count: usize = 0;
    for ring in rings {
        count = count.saturating_add(ring.items().len());
    }
    count
}

fn positions_in_polygons(polygons: &[Polygon]) -> usize {
    let mut count: usize = 0;
    for polygon in polygons {
        count = count.saturating_add(positions_in_rings(polygon.rings.items()));
    }
    count
}

fn count_positions(geometry: &Geometry) -> usize {
    match geometry {
        Geometry::Points { positions, .. } | Geometry::Line { positions, .. } => {
            positions.items().len()
        }
        Geometry::Polygons { polygons, .. } => positions_in_polygons(polygons.items()),
    }
}

// The input, whole.
fn text_of<S: Source>(alloc: Global, input: &mut S) -> Result<Vec<u8>, BenchFault> {
    Ok(read_all(alloc, input, MOST_INPUT)?)
}

fn read_geometry<S: Source>(alloc: Global, input: &mut S) -> Result<Answer, BenchFault> {
    let text = text_of(alloc, input)?;
    match read_wkt(alloc, &text) {
        Ok(geometry) => Ok(Answer::Count(count_positions(&geometry))),
        Err(WktFault::OutOfMemory) => Err(BenchFault::OutOfMemory),
        Err(fault) => Ok(Answer::NoGeometry(fault)),
    }
}

// The document of a grid.
fn made(alloc: Global, rows: Rows) -> Result<Document, BenchFault> {
    Ok(Document::One(grid_of(alloc, rows)?))
}

fn count_samples(document: &Document) -> usize {
    match document {
        Document::One(coverage) => coverage.domain.count().unwrap_or(0),
        Document::Many(coverages) => coverages.items().len(),
    }
}

fn make(alloc: Global, rows: Rows) -> Result<Answer, BenchFault> {
    Ok(Answer::Count(count_samples(&made(alloc, rows)?)))
}

// Writes a document so many times, and answers the length of its text.
fn write_rounds(alloc: Global, document: &Document, rounds: u32) -> Result<usize, OutOfMemory>
    requires { IsValidDocument document.now }
{
    let mut length = 0;
    for _ in 0..rounds {
        length = write_whole(alloc, document)?.bytes().len();
    }
    Ok(length)
}

// Writes a tree so many times, and answers the length of its text.
fn tree_rounds(alloc: Global, tree: &Value, rounds: u32) -> Result<usize, OutOfMemory> {
    let mut length = 0;
    for _ in 0..rounds {
        length = tree.to_vec(alloc)?.len();
    }
    Ok(length)
}

fn write(alloc: Global, rows: Rows, rounds: u32) -> Result<Answer, BenchFault> {
    let document = made(alloc, rows)?;
    if !document.is_valid() {
        return Err(BenchFault::NotValid);
    }
    Ok(Answer::Count(write_rounds(alloc, &document, rounds)?))
}

fn write_tree(alloc: Global, rows: Rows, rounds: u32) -> Result<Answer, BenchFault> {
    let document = made(alloc, rows)?;
    if !document.is_valid() {
        return Err(BenchFault::NotValid);
    }
    let tree = document_tree(alloc, &document)?;
    Ok(Answer::Count(tree_rounds(alloc, &tree, rounds)?))
}

// Reads a document so many times, and answers how many values or coverages it has.
fn read_rounds(alloc: Global, text: &[u8], rounds: u32) -> Result<usize, BenchFault> {
    let mut count = 0;
    for _ in 0..rounds {
        count = count_samples(&read_document(alloc, text)?);
    }
    Ok(count)
}

// Reads a tree so many times, and answers how many members it has.
fn parse_rounds(alloc: Global, text: &[u8], rounds: u32) -> Result<usize, BenchFault> {
    let mut count = 0;
    for _ in 0..rounds {
        let tree = read_tree(alloc, text).map_err(|_| BenchFault::NotValid)?;
        match tree.as_object() {
            Some(members) => count = members.len(),
            None => count = 0,
        }
    }
    Ok(count)
}

// The target that the words give.
fn target_of(words: &[String]) -> &[u8] {
    match words {
        [_, target, _] => target.as_str().as_bytes(),
        _ => b"",
    }
}

/// Does what a command asks for. Only `wkt`, `read`, `parse`, `targets`, `pairs` and `answers` read the input.
pub fn carry_out<S: Source>(
    alloc: Global,
    words: &[String],
    command: Command,
    input: &mut S,
) -> Result<Answer, BenchFault> {
    match command {
        Command::Wkt => read_geometry(alloc, input),
        Command::Make(rows) => make(alloc, rows),
        Command::Write(rows, rounds) => write(alloc, rows, rounds),
        Command::Tree(rows, rounds) => write_tree(alloc, rows, rounds),
        Command::Tiles(samples, rounds) => Ok(Answer::Count(open_tiles(alloc, samples, rounds)?)),
        Command::Answers(rounds) => {
            let target = target_of(words);
            Ok(Answer::Count(answer_from_feed(alloc, input, target, rounds)?))
        }
        Command::Read(rounds) => {
            let text = text_of(alloc, input)?;
            Ok(Answer::Count(read_rounds(alloc, &text, rounds)?))
        }
        Command::Targets(rounds) => {
            let text = text_of(alloc, input)?;
            Ok(Answer::Count(read_targets(alloc, &text, rounds)?))
        }
        Command::Pairs(rounds) => {
            let text = text_of(alloc, input)?;
            Ok(Answer::Count(decode_pairs(alloc, &text, rounds)?))
        }
        Command::Parse(rounds) => {
            let text = text_of(alloc, input)?;
            Ok(Answer::Count(parse_rounds(alloc, &text, rounds)?))
        }
    }
}
