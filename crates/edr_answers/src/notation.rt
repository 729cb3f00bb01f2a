//! What readers answer, in a plain notation that another program can write too.
use crate::cases::{Case, Reader};
use crate::editions::put_feed;
use crate::faults::AnswerFault;
use crate::targets::put_target;
use covjson_checks::CovFault;
use covjson_read::read_document;
use covjson_write::write_whole;
use edr_axes::{LevelFault, Levels, Times, read_instant, read_levels, read_times, write_instant};
use edr_base::{Text, whole_number};
use edr_wkt::{Geometry, WktFault, read_wkt, write_wkt};
use std::alloc::Global;

const MOST_NUMBER: i64 = 100_000_000;

/// A text that grows by pieces.
#[derive(Drop)]
pub struct Notation {
    bytes: Vec<u8>,
}

impl Notation {
    /// An empty text.
    pub fn new(alloc: Global) -> Notation {
        Notation {
            bytes: Vec::new(alloc),
        }
    }

    /// Puts some bytes at its end.
    pub fn put(&mut self, piece: &[u8]) -> Result<(), AnswerFault> {
        self.bytes.extend_from_slice(piece)?;
        Ok(())
    }

    /// Puts a word and a text in brackets.
    pub fn put_named(&mut self, word: &str, text: &Text) -> Result<(), AnswerFault> {
        self.put(word.as_bytes())?;
        self.put(b"(")?;
        self.put(text.bytes())?;
        self.put(b")")
    }

    /// Puts a number and a space.
    pub fn put_number(&mut self, alloc: Global, number: i64) -> Result<(), AnswerFault> {
        let digits = format!(in alloc; "{number} ")?;
        self.put(digits.as_bytes())
    }

    /// The text.
    pub fn bytes(&self) -> &[u8] {
        &self.bytes
    }
}

fn put_whole(alloc: Global, text: &[u8], notation: &mut Notation) -> Result<(), AnswerFault> {
    let whole = whole_number(text, MOST_NUMBER);
    let answer = format!(in alloc; "{whole:?}")?;
    notation.put(answer.as_bytes())
}

fn put_instant(alloc: Global, text: &[u8], notation: &mut Notation) -> Result<(), AnswerFault> {
    match read_instant(text) {
        Some(time) => {
            notation.put_number(alloc, time)?;
            notation.put(&write_instant(time))
        }
        None => notation.put(b"None"),
    }
}

fn put_has_time(times: &Times, time: i64, notation: &mut Notation) -> Result<(), AnswerFault> {
    let middle = times.has(time);
    let before = times.has(time.saturating_sub(1));
    let after = times.has(time.saturating_add(1));
    for has in [before, middle, after] {
        notation.put(if has { b"1" } else { b"0" })?;
    }
    Ok(())
}

/// Puts the times of a request, and whether they have those round their ends.
pub fn put_times(alloc: Global, times: &Times, notation: &mut Notation) -> Result<(), AnswerFault> {
    let answer = format!(in alloc; "{times:?} ")?;
    notation.put(answer.as_bytes())?;
    match times {
        Times::All => put_has_time(times, 0, notation),
        Times::At(time) => put_has_time(times, *time, notation),
        Times::Between(first, last) => {
            put_has_time(times, first.unwrap_or(0), notation)?;
            put_has_time(times, last.unwrap_or(0), notation)
        }
    }
}

fn put_read_times(alloc: Global, text: &[u8], notation: &mut Notation) -> Result<(), AnswerFault> {
    match read_times(text) {
        Some(times) => put_times(alloc, &times, notation),
        None => notation.put(b"None"),
    }
}

fn put_has_level(levels: &Levels, level: i64, notation: &mut Notation) -> Result<(), AnswerFault> {
    let middle = levels.has(level);
    let before = levels.has(level.saturating_sub(1));
    let after = levels.has(level.saturating_add(1));
    for has in [before, middle, after] {
        notation.put(if has { b"1" } else { b"0" })?;
    }
    Ok(())
}

/// Puts the levels of a request, and whether they have those round each of them.
pub fn put_levels(
    alloc: Global,
    levels: &Levels,
    notation: &mut Notation,
) -> Result<(), AnswerFault> {
    match levels {
        Levels::All => notation.put(b"All"),
        Levels::At(level) => {
            notation.put(b"At ")?;
            notation.put_number(alloc, *level)?;
            put_has_level(levels, *level, notation)
        }
        Levels::Between(least, greatest) => {
            notation.put(b"Between ")?;
            notation.put_number(alloc, *least)?;
            notation.put_number(alloc, *greatest)?;
            put_has_level(levels, *least, notation)?;
            put_has_level(levels, *greatest, notation)
        }
        Levels::List(list) => {
            notation.put(b"List ")?;
            for level in list.items() {
                notation.put_number(alloc, *level)?;
                put_has_level(levels, *level, notation)?;
                notation.put(b" ")?;
            }
            Ok(())
        }
        Levels::Series { n, first, step } => {
            notation.put(b"Series ")?;
            notation.put_number(alloc, *n)?;
            notation.put_number(alloc, *first)?;
            notation.put_number(alloc, *step)?;
            put_has_level(levels, *first, notation)?;
            put_has_level(levels, first.saturating_add(*step), notation)?;
            put_has_level(
                levels,
                first.saturating_add(step.saturating_mul(n.saturating_sub(1))),
                notation,
            )
        }
    }
}

fn put_read_levels(alloc: Global, text: &[u8], notation: &mut Notation) -> Result<(), AnswerFault> {
    match read_levels(alloc, text) {
        Ok(levels) => put_levels(alloc, &levels, notation),
        Err(LevelFault::NotLevels) => notation.put(b"NotLevels"),
        Err(LevelFault::OutOfMemory) => Err(AnswerFault::OutOfMemory),
    }
}

/// Puts the written form of a geometry.
pub fn put_geometry(
    alloc: Global,
    geometry: &Geometry,
    notation: &mut Notation,
) -> Result<(), AnswerFault> {
    notation.put(write_wkt(alloc, geometry)?.bytes())
}

fn put_read_geometry(
    alloc: Global,
    text: &[u8],
    notation: &mut Notation,
) -> Result<(), AnswerFault> {
    match read_wkt(alloc, text) {
        Ok(geometry) => put_geometry(alloc, &geometry, notation),
        Err(WktFault::OutOfMemory) => Err(AnswerFault::OutOfMemory),
        Err(fault) => {
            let answer = format!(in alloc; "{fault:?}")?;
            notation.put(answer.as_bytes())
        }
    }
}

/// Puts the fault of a document or a coverage.
pub fn put_coverage_fault(
    alloc: Global,
    fault: &CovFault,
    notation: &mut Notation,
) -> Result<(), AnswerFault> {
    match fault {
        CovFault::OutOfMemory => Err(AnswerFault::OutOfMemory),
        CovFault::UnsupportedDomain(text) => notation.put_named("UnsupportedDomain", text),
        CovFault::UnsupportedSystem(text) => notation.put_named("UnsupportedSystem", text),
        CovFault::UnsupportedRange(text) => notation.put_named("UnsupportedRange", text),
        _ => {
            let answer = format!(in alloc; "{fault:?}")?;
            notation.put(answer.as_bytes())
        }
    }
}

fn put_document(alloc: Global, text: &[u8], notation: &mut Notation) -> Result<(), AnswerFault> {
    match read_document(alloc, text) {
        Ok(document) => notation.put(write_whole(alloc, &document)?.bytes()),
        Err(fault) => put_coverage_fault(alloc, &fault, notation),
    }
}

/// Puts the answer to a case.
pub fn put_answer(
    alloc: Global,
    case: Case<'_>,
    notation: &mut Notation,
) -> Result<(), AnswerFault> {
    let text = case.text;
    match case.reader {
        Reader::Number => put_whole(alloc, text, notation),
        Reader::Instant => put_instant(alloc, text, notation),
        Reader::Times => put_read_times(alloc, text, notation),
        Reader::Levels => put_read_levels(alloc, text, notation),
        Reader::Geometry => put_read_geometry(alloc, text, notation),
        Reader::Document => put_document(alloc, text, notation),
        Reader::Feed => put_feed(alloc, text, notation),
        Reader::Target => put_target(alloc, text, notation),
    }
}
