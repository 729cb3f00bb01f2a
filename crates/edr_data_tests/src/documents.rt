//! Documents of lines, for tests.
//!
//! A document is a coverage, or coverages between `[` and `]`. A coverage is its domain type and some words: `t`, `z`, `y`
//! and `x` of the domain, `at` with its tuples x/y/z/m, and `own` where these have levels of their own. `ids` has its
//! parameters, each an id, and behind colons the language and the text of its label and its unit, where these aren't `en`,
//! `A` and none. `values` has the values of each parameter, `-` for an absent one, with bars between parameters where they
//! differ; `ranges` is how many have them, where not all have. A coverage may have an `id`, a `crs` and a `vertical`. In
//! texts `?` stands for a byte that is no UTF-8, `_` for a blank and `^` for a line feed. What can't be read isn't there, and
//! so is that for which memory is wanting; a coordinate is 0 then, and a domain that can't be without it gives nothing.
use covjson_value::{Coverage, Document, Domain, NdArray, Parameter, Referencing};
use edr_axes::Axis;
use edr_base::{Items, Position, Text};
use std::alloc::Global;

// The value of a word, where a line has it.
fn word<'a>(line: &'a str, name: &str) -> Option<&'a str> {
    for part in line.split(' ') {
        if let Some((key, value)) = part.split_once('=') {
            if key == name {
                return Some(value);
            }
        }
    }
    None
}

fn number(text: &str) -> Option<i64> {
    text.parse::<i64>().ok()
}

fn number_in(line: &str, name: &str) -> Option<i64> {
    number(word(line, name)?)
}

fn axis(alloc: Global, line: &str, name: &str) -> Option<Axis> {
    let text = word(line, name)?;
    let mut values = Vec::new(alloc);
    for part in text.split(',') {
        if let Some(value) = number(part) {
            let _ = values.push(value);
        }
    }
    Axis::of(alloc, &values).ok()
}

// The number of a part, and 0 where there is none.
fn coordinate(part: Option<&str>) -> i64 {
    number(part.unwrap_or("")).unwrap_or(0)
}

fn tuple(text: &str) -> Position {
    let mut parts = text.split('/');
    Position {
        x: coordinate(parts.next()),
        y: coordinate(parts.next()),
        z: coordinate(parts.next()),
        m: coordinate(parts.next()),
    }
}

fn tuples(alloc: Global, line: &str) -> Items<Position> {
    let mut items = Vec::new(alloc);
    if let Some(text) = word(line, "at") {
        for part in text.split(',') {
            let _ = items.push(tuple(part));
        }
    }
    Items::of(items)
}

fn grid(alloc: Global, line: &str) -> Option<Domain> {
    let y = axis(alloc, line, "y")?;
    let x = axis(alloc, line, "x")?;
    Some(Domain::Grid {
        t: axis(alloc, line, "t"),
        z: axis(alloc, line, "z"),
        y,
        x,
    })
}

fn point(line: &str) -> Domain {
    Domain::Point {
        t: number_in(line, "t"),
        z: number_in(line, "z"),
        y: coordinate(word(line, "y")),
        x: coordinate(word(line, "x")),
    }
}

fn point_series(alloc: Global, line: &str) -> Option<Domain> {
    Some(Domain::PointSeries {
        t: axis(alloc, line, "t")?,
        z: number_in(line, "z"),
        y: coordinate(word(line, "y")),
        x: coordinate(word(line, "x")),
    })
}

fn vertical_profile(alloc: Global, line: &str) -> Option<Domain> {
    Some(Domain::VerticalProfile {
        t: number_in(line, "t"),
        z: axis(alloc, line, "z")?,
        y: coordinate(word(line, "y")),
        x: coordinate(word(line, "x")),
    })
}

fn multi_point(alloc: Global, line: &str) -> Domain {
    Domain::MultiPoint {
        t: number_in(line, "t"),
        has_z: word(line, "own").is_some(),
        spots: tuples(alloc, line),
    }
}

fn trajectory(alloc: Global, line: &str) -> Domain {
    Domain::Trajectory {
        z: number_in(line, "z"),
        has_z: word(line, "own").is_some(),
        steps: tuples(alloc, line),
    }
}

/// The domain of a line.
pub fn domain(alloc: Global, line: &str) -> Option<Domain> {
    let (kind, _) = line.split_once(' ').unwrap_or((line, ""));
    match kind {
        "Grid" => grid(alloc, line),
        "Point" => Some(point(line)),
        "PointSeries" => point_series(alloc, line),
        "VerticalProfile" => vertical_profile(alloc, line),
        "MultiPoint" => Some(multi_point(alloc, line)),
        "Trajectory" => Some(trajectory(alloc, line)),
        _ => None,
    }
}

fn text_of(alloc: Global, word: &str) -> Text {
    let mut bytes = Vec::new(alloc);
    for byte in word.bytes() {
        let meant = match byte {
            b'?' => 0xff,
            b'_' => b' ',
            b'^' => b'\n',
            other => other,
        };
        let _ = bytes.push(meant);
    }
    Text::from_vec(bytes)
}

fn text_if(alloc: Global, word: Option<&str>) -> Option<Text> {
    Some(text_of(alloc, word?))
}

fn parameter(alloc: Global, word: &str) -> Parameter {
    let mut parts = word.split(':');
    Parameter {
        id: text_of(alloc, parts.next().unwrap_or("")),
        lang: text_of(alloc, parts.next().unwrap_or("en")),
        label: text_of(alloc, parts.next().unwrap_or("A")),
        unit: text_if(alloc, parts.next()),
    }
}

fn parameters(alloc: Global, ids: &str) -> Items<Parameter> {
    let mut items = Vec::new(alloc);
    if !ids.is_empty() {
        for id in ids.split(',') {
            let _ = items.push(parameter(alloc, id));
        }
    }
    Items::of(items)
}

fn range(alloc: Global, text: &str) -> NdArray {
    let mut values = Vec::new(alloc);
    if !text.is_empty() {
        for part in text.split(',') {
            let _ = values.push(number(part));
        }
    }
    NdArray {
        values: Items::of(values),
    }
}

fn ranges(alloc: Global, count: usize, text: &str) -> Items<NdArray> {
    let mut items = Vec::new(alloc);
    let mut parts = text.split('|');
    let mut part = parts.next().unwrap_or("");
    for _ in 0..count {
        let _ = items.push(range(alloc, part));
        part = parts.next().unwrap_or(part);
    }
    Items::of(items)
}

// How many parameters of a line have values.
fn count_of(line: &str, parameters: usize) -> usize {
    match word(line, "ranges") {
        Some(text) => text.parse::<usize>().unwrap_or(0),
        None => parameters,
    }
}

/// The coverage of a line, with these ids of parameters where it has none.
pub fn coverage(alloc: Global, line: &str, ids: &str) -> Option<Coverage> {
    let domain = domain(alloc, line)?;
    let parameters = parameters(alloc, word(line, "ids").unwrap_or(ids));
    let count = count_of(line, parameters.items().len());
    Some(Coverage {
        id: text_if(alloc, word(line, "id")),
        domain,
        referencing: Referencing {
            crs: text_of(alloc, word(line, "crs").unwrap_or("")),
            vertical: text_if(alloc, word(line, "vertical")),
        },
        parameters,
        ranges: ranges(alloc, count, word(line, "values").unwrap_or("")),
    })
}

fn coverages(alloc: Global, lines: &str, ids: &str) -> Option<Items<Coverage>> {
    let mut items = Vec::new(alloc);
    if !lines.is_empty() {
        for line in lines.split(';') {
            items.push(coverage(alloc, line, ids)?).ok()?;
        }
    }
    Some(Items::of(items))
}

/// The document of a line, with these ids of parameters where a coverage has none.
pub fn document(alloc: Global, line: &str, ids: &str) -> Option<Document> {
    match line.strip_prefix('[') {
        Some(lines) => {
            let lines = lines.strip_suffix(']').unwrap_or(lines);
            Some(Document::Many(coverages(alloc, lines, ids)?))
        }
        None => Some(Document::One(coverage(alloc, line, ids)?)),
    }
}
