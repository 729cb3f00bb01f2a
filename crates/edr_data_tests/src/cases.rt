//! Tables of cases: a line for each, what is asked and the answer behind ` => `. Lines that begin with `#` say what follows.
use crate::{axes, feeds, geometries, ids, numbers, reading, tables, texts, validity, writing};
use std::alloc::Global;
use std::fmt::Debug;
use std::process::Abort;

/// What the lines of a table ask.
#[derive(Clone, Copy)]
pub enum Cases {
    /// Digits, and the number that they write.
    Digits,
    /// A whole number as text, and its value.
    Wholes,
    /// Words that are set, and an id that is taken out.
    Ids,
    /// Well-known text, and its written form or its fault.
    Geometries,
    /// How many positions a line has, and whether it is read, or its fault.
    Counts,
    /// What is asked of axes, and times, levels and distances as text.
    Axes,
    /// A document, and whether it is valid.
    Documents,
    /// A domain, and its axes.
    Domains,
    /// A document, and its text.
    Texts,
    /// A text, and the text of the document that it is read as, or its fault.
    Readings,
    /// A document, and the lines of its table.
    Tables,
    /// Lines of a feed, and what it is read as.
    Feeds,
    /// Bytes of a feed, and what it is read as.
    Bytes,
    /// Lines of a feed, and the summary of its last edition.
    Summaries,
    /// Lines of a feed, and the label of its first station.
    Labels,
}

// Whether this is the answer; none where there is nothing of which it is asked.
fn is_right(alloc: Global, cases: Cases, asked: &'static str, answer: &str) -> Option<bool> {
    match cases {
        Cases::Digits => Some(texts::is_answered(asked.as_bytes(), answer)),
        Cases::Wholes => Some(numbers::is_answered(asked, answer)),
        Cases::Ids => Some(ids::is_answered(alloc, asked, answer)),
        Cases::Geometries => Some(geometries::is_answered(alloc, asked.as_bytes(), answer)),
        Cases::Counts => Some(geometries::is_counted(alloc, asked, answer)),
        Cases::Axes => Some(axes::is_answered(alloc, asked, answer)),
        Cases::Documents => validity::is_judged(alloc, asked, answer),
        Cases::Domains => validity::is_domain(alloc, asked, answer),
        Cases::Texts => writing::is_written(alloc, asked, answer),
        Cases::Readings => Some(reading::is_right(alloc, asked, answer)),
        Cases::Tables => tables::is_right(alloc, asked, answer),
        Cases::Feeds => Some(feeds::is_answered(alloc, asked, answer)),
        Cases::Bytes => Some(feeds::are_answered(alloc, asked, answer)),
        Cases::Summaries => feeds::is_summed(alloc, asked, answer),
        Cases::Labels => feeds::is_labelled(alloc, asked, answer),
    }
}

/// What stands behind ` => ` in the first line of a table that asks this; nothing where there is none.
pub fn answer_in(lines: &'static str, asked: &str) -> &'static str {
    for line in lines.lines() {
        if let Some((other, answer)) = line.split_once(" => ")
            && other == asked
        {
            return answer;
        }
    }
    ""
}

// The first line that isn't right; none is empty.
fn first_wrong(alloc: Global, cases: Cases, lines: &'static str) -> &'static str {
    for line in lines.lines() {
        let (asked, answer) = line.split_once(" => ").unwrap_or((line, ""));
        if !line.starts_with('#') && is_right(alloc, cases, asked, answer) != Some(true) {
            return line;
        }
    }
    ""
}

/// Ends the test at the first line that isn't right.
pub fn are_right(rt: &impl Abort, alloc: Global, cases: Cases, lines: &'static str) {
    assert_eq!(*rt; first_wrong(alloc, cases, lines), "");
}

/// Whether a value is shown so.
pub fn is_shown<T: Debug>(alloc: Global, value: &T, answer: &str) -> bool {
    match format!(in alloc; "{value:?}") {
        Ok(shown) => shown.as_str() == answer,
        Err(_) => false,
    }
}
