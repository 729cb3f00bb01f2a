//! What the words ask for.

use edr_base::{OutOfMemory, Text};
use edr_console::{Asked, Settings, asked_by};
use std::alloc::{AllocError, Global};
use std::rt::HostRuntime;

// A line for each row of words, between bars: what is asked for, as feed, port, workers, every, connections, idle and requests, and whether
// the last edition alone is served. A `?` stands
// for a byte that UTF-8 hasn't.
const WORDS: &str = "\
feed|--port|0 => feed 0 2 60 0 30 100
feed|--port|65535 => feed 65535 2 60 0 30 100
feed|--port|65536 => none
feed|--port|80|--port|80 => none
feed => none
--port|80 => none
 => none
feed|other|--port|80 => none
feed|--port => none
feed|--port|80|--workers|1 => feed 80 1 60 0 30 100
feed|--port|80|--workers|64 => feed 80 64 60 0 30 100
feed|--port|80|--workers|0 => none
feed|--port|80|--workers|65 => none
feed|--port|80|--every|0 => feed 80 2 0 0 30 100
feed|--port|80|--every|86400 => feed 80 2 86400 0 30 100
feed|--port|80|--every|86401 => none
feed|--port|80|--connections|0 => feed 80 2 60 0 30 100
feed|--port|80|--connections|1000000 => feed 80 2 60 1000000 30 100
feed|--port|80|--connections|1000001 => none
feed|--port|80|--idle|1 => feed 80 2 60 0 1 100
feed|--port|80|--idle|86400 => feed 80 2 60 0 86400 100
feed|--port|80|--idle|0 => none
feed|--port|80|--idle|86401 => none
feed|--port=80 => feed 80 2 60 0 30 100
feed|--port=80|--workers=3|--every=4|--connections=5 => feed 80 3 4 5 30 100
feed|--port|-1 => none
feed|--port|+80 => none
feed|--port|8 0 => none
feed|--port| => none
feed|--port= => none
feed|--port|0x50 => none
feed|--port|00000000000000000080 => feed 80 2 60 0 30 100
feed|--port|000000000000000000080 => none
feed|--port|99999999999999999999 => none
feed|--port|80|--help => none
feed|--port|80|--every|9|--every|9 => none
feed|--port|80|--verbose => none
feed|--port|80|-p => none
feed|--por|80 => none
f?|--port|80 => none
feed|--port|? => none
--port|80|--workers|3|feed => feed 80 3 60 0 30 100
--connections|7|--every|5|--port|80|feed => feed 80 2 5 7 30 100
--port|80|--|feed => feed 80 2 60 0 30 100
--port|80|--|--feed => --feed 80 2 60 0 30 100
feed|--|--port|80 => none
feed|--port|80|--requests|1 => feed 80 2 60 0 30 1
feed|--port|80|--requests=1000 => feed 80 2 60 0 30 1000
feed|--port|80|--requests|0 => none
feed|--port|80|--requests|1001 => none
feed|--port|80|--last => feed 80 2 60 0 30 100 last
--last|--port|80|--idle|9|feed => feed 80 2 60 0 9 100 last
feed|--port|80|--last|--last => none
feed|--port|80|--last=true => none
feed|--port|80|--last|true => none
--help => help
--version => version
--help|--version => none
--version|feed => none
-h => none
feed|--port|80|--version => none
";

// A word; see WORDS.
fn word_of(alloc: Global, cell: &str) -> Result<Text, OutOfMemory> {
    let mut bytes = Vec::new(alloc);
    for byte in cell.bytes() {
        bytes.push(if byte == b'?' { 0xff } else { byte })?;
    }
    Ok(Text::from_vec(bytes))
}

// The words of a row.
pub(crate) fn words_of(alloc: Global, row: &str) -> Result<Vec<Text>, OutOfMemory> {
    let mut words = Vec::new(alloc);
    if row.is_empty() {
        return Ok(words);
    }
    for cell in row.split('|') {
        words.push(word_of(alloc, cell)?)?;
    }
    Ok(words)
}

// Settings as a line.
fn line_of(alloc: Global, settings: &Settings) -> Result<String, AllocError> {
    let feed = str::from_utf8(settings.feed.bytes()).unwrap_or("?");
    let (port, workers) = (settings.port, settings.workers);
    let (every, connections, idle) = (settings.every, settings.connections, settings.idle);
    let (requests, last) = (settings.requests, if settings.last { " last" } else { "" });
    format!(in alloc; "{feed} {port} {workers} {every} {connections} {idle} {requests}{last}")
}

// Whether a row of words asks for this.
fn is_asked(alloc: Global, row: &str, wanted: &str) -> Result<bool, OutOfMemory> {
    let words = words_of(alloc, row)?;
    match asked_by(alloc, &words)? {
        Asked::Serve(settings) => Ok(line_of(alloc, &settings)?.as_str() == wanted),
        Asked::Help => Ok(wanted == "help"),
        Asked::Version => Ok(wanted == "version"),
        Asked::Nothing => Ok(wanted == "none"),
    }
}

// The first line of WORDS that isn't so; none is empty.
fn first_wrong_row(alloc: Global) -> &'static str {
    for line in WORDS.lines() {
        let (row, wanted) = line.split_once(" => ").unwrap_or((line, ""));
        if !is_asked(alloc, row, wanted).unwrap_or(false) {
            return line;
        }
    }
    ""
}

#[test]
fn words_ask_within_limits(rt: HostRuntime) {
    assert_eq!(rt; first_wrong_row(rt.alloc()), "");
}
