//! Tables of documents, written by hand.
use crate::cases::{Cases, are_right};
use crate::documents::document;
use covjson_value::Document;
use edr_base::{MemorySink, QuietSink, SendFault};
use edr_table::write_table;
use std::alloc::Global;
use std::rt::HostRuntime;

// A document of a line, and the lines of its table with `_` for each tab and a bar between lines; `none` where it has none.
const TABLES: &str = "# one value, without a level
Point t=1704067200 y=0 x=0 ids=temp values=10 => temp_2024-01-01T00:00:00Z_-_0_0_10
# neither time nor level, and a missing value
Point y=-5 x=7 ids=a values=- => a_-_-_-5_7_-
Point t=-62167219200 z=0 y=0 x=-100000000 ids=a values=-9007199254740991 => a_0000-01-01T00:00:00Z_0_0_-100000000_-9007199254740991
# parameter by parameter, in ascending order of ids, x fastest
Grid t=0,60 z=-5,5 y=0,1 x=7,8 ids=B,a values=1,2,3,4,5,6,7,8,9,10,11,12,13,14,15,-|0,0,0,0,0,0,0,0,0,0,0,0,0,0,0,1 => B_1970-01-01T00:00:00Z_-5_0_7_1|B_1970-01-01T00:00:00Z_-5_0_8_2|B_1970-01-01T00:00:00Z_-5_1_7_3|B_1970-01-01T00:00:00Z_-5_1_8_4|B_1970-01-01T00:00:00Z_5_0_7_5|B_1970-01-01T00:00:00Z_5_0_8_6|B_1970-01-01T00:00:00Z_5_1_7_7|B_1970-01-01T00:00:00Z_5_1_8_8|B_1970-01-01T00:01:00Z_-5_0_7_9|B_1970-01-01T00:01:00Z_-5_0_8_10|B_1970-01-01T00:01:00Z_-5_1_7_11|B_1970-01-01T00:01:00Z_-5_1_8_12|B_1970-01-01T00:01:00Z_5_0_7_13|B_1970-01-01T00:01:00Z_5_0_8_14|B_1970-01-01T00:01:00Z_5_1_7_15|B_1970-01-01T00:01:00Z_5_1_8_-|a_1970-01-01T00:00:00Z_-5_0_7_0|a_1970-01-01T00:00:00Z_-5_0_8_0|a_1970-01-01T00:00:00Z_-5_1_7_0|a_1970-01-01T00:00:00Z_-5_1_8_0|a_1970-01-01T00:00:00Z_5_0_7_0|a_1970-01-01T00:00:00Z_5_0_8_0|a_1970-01-01T00:00:00Z_5_1_7_0|a_1970-01-01T00:00:00Z_5_1_8_0|a_1970-01-01T00:01:00Z_-5_0_7_0|a_1970-01-01T00:01:00Z_-5_0_8_0|a_1970-01-01T00:01:00Z_-5_1_7_0|a_1970-01-01T00:01:00Z_-5_1_8_0|a_1970-01-01T00:01:00Z_5_0_7_0|a_1970-01-01T00:01:00Z_5_0_8_0|a_1970-01-01T00:01:00Z_5_1_7_0|a_1970-01-01T00:01:00Z_5_1_8_1
Grid y=3 x=1,2 ids=a values=1,- => a_-_-_3_1_1|a_-_-_3_2_-
# a series and a profile
PointSeries t=0,1 z=9 y=2 x=1 ids=a values=-,-1 => a_1970-01-01T00:00:00Z_9_2_1_-|a_1970-01-01T00:00:01Z_9_2_1_-1
VerticalProfile z=-4,0,5 y=2 x=1 ids=a values=8,-,9 => a_-_-4_2_1_8|a_-_0_2_1_-|a_-_5_2_1_9
# tuples, with times and levels of their own and without
MultiPoint t=0 at=2/1/0/0,1/2/0/0 ids=a values=3,- => a_1970-01-01T00:00:00Z_-_1_2_3|a_1970-01-01T00:00:00Z_-_2_1_-
MultiPoint at=1/2/3/0 own=z ids=a,b values=5|6 => a_-_3_2_1_5|b_-_3_2_1_6
Trajectory z=5 at=1/2/0/0,3/4/0/9 ids=a values=6,- => a_1970-01-01T00:00:00Z_5_2_1_6|a_1970-01-01T00:00:09Z_5_4_3_-
Trajectory at=1/2/3/0,1/2/-3/9 own=z ids=a values=-,7 => a_1970-01-01T00:00:00Z_3_2_1_-|a_1970-01-01T00:00:09Z_-3_2_1_7
# collections, in their order
[] => none
[Point y=2 x=1 ids=b values=8;Point y=4 x=3 ids=a values=9] => b_-_-_2_1_8|a_-_-_4_3_9
";

// Whether a table has these lines, which are written in one.
fn has_lines(table: &[u8], lines: &str) -> bool {
    let mut rest = table;
    for byte in lines.bytes() {
        let meant = match byte {
            b'_' => b'\t',
            b'|' => b'\n',
            other => other,
        };
        match rest.split_first() {
            Some((first, more)) if *first == meant => rest = more,
            _ => return false,
        }
    }
    rest == b"\n".as_slice()
}

fn is_written(alloc: Global, document: &Document, lines: &str) -> bool {
    if !document.is_valid() {
        return false;
    }
    let mut sink = QuietSink::of(alloc, 3);
    let is_whole = write_table(alloc, document, &mut sink).is_ok();
    let table = sink.written();
    is_whole && (has_lines(table, lines) || lines == "none" && table.is_empty())
}

/// Whether a document is written as this table.
pub fn is_right(alloc: Global, words: &str, lines: &str) -> Option<bool> {
    let document = document(alloc, words, "")?;
    Some(is_written(alloc, &document, lines))
}

#[test]
fn documents_are_written_as_tables(rt: HostRuntime) {
    are_right(&rt, rt.alloc(), Cases::Tables, TABLES);
}

// The numbers below a count, with commas between them.
fn numbers(alloc: Global, count: u32) -> Option<String> {
    let mut words = String::from_str(alloc, "0").ok()?;
    for number in 1..count {
        words.push_str(&format!(in alloc; ",{number}").ok()?).ok()?;
    }
    Some(words)
}

// A row of so many values, each its x.
fn row(alloc: Global, count: u32) -> Option<Document> {
    let numbers = numbers(alloc, count)?;
    let mut line = String::new(alloc);
    for part in ["Grid y=0 x=", &numbers, " values=", &numbers] {
        line.push_str(part).ok()?;
    }
    document(alloc, &line, "temperature")
}

// What is written of a document where the calls of these numbers fail, and none where the call ends in another way.
fn written(
    alloc: Global,
    document: &Document,
    fails: &[u64],
    end: Result<(), SendFault>,
) -> Option<Vec<u8>> {
    if !document.is_valid() {
        return None;
    }
    let fails = Vec::from_slice(alloc, fails).ok()?;
    let mut sink = MemorySink::of(alloc, 1_000_000, fails);
    if write_table(alloc, document, &mut sink) != end {
        return None;
    }
    Vec::from_slice(alloc, sink.written()).ok()
}

// Whether a long table begins with two pieces of some 8,192 bytes.
fn begins_with_pieces(table: &[u8], begun: &[u8]) -> bool {
    table.len() > 50_000
        && table.starts_with(begun)
        && begun.len() >= 2 * 8_192
        && begun.len() < 2 * 8_192 + 200
}

// A table of some 60,000 bytes goes out in pieces of some 8,192, and after a fault two of them are written.
fn goes_out_in_pieces(alloc: Global) -> Option<bool> {
    let document = row(alloc, 2_000)?;
    let whole = written(alloc, &document, &[], Ok(()))?;
    let broken = written(alloc, &document, &[3], Err(SendFault::WriteFault))?;
    Some(begins_with_pieces(&whole, &broken))
}

#[test]
fn long_tables_go_out_in_pieces(rt: HostRuntime) {
    assert!(rt; goes_out_in_pieces(rt.alloc()) == Some(true));
}
