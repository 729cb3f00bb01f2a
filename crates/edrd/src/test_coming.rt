//! The connections that come through doors in memory, and what they were answered.

use crate::test_doors::{Coming, MemoryDoor};
use crate::test_sink::{Hold, HoldingSink};
use crate::test_texts::FROM_FIRST;
use edr_base::{MemorySink, MemorySource, OutOfMemory};
use edr_serve::Connection;
use std::alloc::Global;

/// A connection with a request. Its sink fails at the call of this number, and at none where it is 0; and it may hold.
pub(crate) fn connection(
    alloc: Global,
    request: &[u8],
    fails: u64,
    hold: Option<Hold>,
) -> Result<Coming, OutOfMemory> {
    let mut failing = Vec::new(alloc);
    if fails > 0 {
        failing.push(fails)?;
    }
    let source = MemorySource::of(Vec::from_slice(alloc, request)?, 4096, Vec::new(alloc));
    let sink = MemorySink::of(alloc, 4096, failing);
    Ok(Connection::of(source, HoldingSink::of(sink, hold)))
}

// What each accept of a door comes to, by the letters of a word: `x` is one that fails, a digit a connection whose sink fails
// at the call of that number, and any other letter a connection.
fn accepts_of(
    alloc: Global,
    request: &[u8],
    word: &str,
) -> Result<Vec<Option<Coming>>, OutOfMemory> {
    let mut accepts = Vec::new(alloc);
    for letter in word.chars() {
        if letter == 'x' {
            accepts.push(None)?;
        } else {
            let fails = u64::from(letter.to_digit(10).unwrap_or(0));
            accepts.push(Some(connection(alloc, request, fails, None)?))?;
        }
    }
    Ok(accepts)
}

/// The same for each door, by the words of a row.
pub(crate) fn doors_of(
    alloc: Global,
    request: &[u8],
    row: &str,
) -> Result<Vec<Vec<Option<Coming>>>, OutOfMemory> {
    let mut doors = Vec::new(alloc);
    for word in row.split(' ') {
        doors.push(accepts_of(alloc, request, word)?)?;
    }
    Ok(doors)
}

/// A request for the conformance page.
pub(crate) const CONFORMANCE: &[u8] = b"GET /conformance HTTP/1.1\r\nHost: a\r\n\r\n";

// The reply around the number of its edition.
const REPLY_FRONT: &[u8] = b"HTTP/1.1 200 OK\r\nContent-Type: application/json\r\nX-Edr-Edition: ";

const REPLY_END: &[u8] =
    b"\r\nTransfer-Encoding: chunked\r\n\r\n11\r\n{\"conformsTo\":[]}\r\n0\r\n\r\n";

// Whether this is the whole reply from one of the first editions.
fn is_conformance(written: &[u8], last: u64) -> bool {
    let Some(rest) = written.strip_prefix(REPLY_FRONT) else {
        return false;
    };
    match rest.strip_suffix(REPLY_END) {
        Some([digit]) => *digit >= b'1' && u64::from(*digit) <= last.saturating_add(48),
        _ => false,
    }
}

/// What has to stand in a sink.
#[derive(Clone, Copy)]
pub(crate) enum Wanted {
    /// A reply to `CONFORMANCE`, from an edition up to this one.
    Conformance(u64),
    /// `FROM_FIRST`.
    Value,
}

impl Wanted {
    // Whether this is it.
    fn is(self, written: &[u8]) -> bool {
        match self {
            Wanted::Conformance(last) => is_conformance(written, last),
            Wanted::Value => written == FROM_FIRST,
        }
    }
}

/// How many connections were answered by what is wanted.
pub(crate) fn replies(doors: &[MemoryDoor], wanted: Wanted) -> u64 {
    let mut count: u64 = 0;
    for door in doors {
        for served in door.served() {
            if wanted.is(served.sink().written()) {
                count = count.saturating_add(1);
            }
        }
    }
    count
}
