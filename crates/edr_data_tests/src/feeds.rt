//! Feeds line by line, each as a case of a table.
ghost use Rattle.std.specs.Prelude.{◌≤◌};

use crate::cases::{Cases, answer_in, are_right, is_shown};
use crate::lines::{BYTES, FEEDS, LABELS, LINES, SUMMARIES};
use edr_base::{MemorySink, MemorySource};
use edr_draft::ChangeFault;
use edr_edition::Edition;
use edr_feed::{Feed, FeedFault, read_feed, summary};
use edr_make::make_feed;
use std::alloc::Global;
use std::rt::HostRuntime;

// The line of a grid or of a station: its place is a collection and an instance, or a collection and a station's id.
fn coverage_line(alloc: Global, place: &str, coverage: &str) -> Option<String> {
    match place.split_once('@') {
        Some((collection, id)) => format!(in alloc;
            "{{\"station\":{{\"collection\":\"{collection}\",\"id\":\"{id}\",\"label\":\"S\",\"coverage\":{coverage}}}}}"
        ).ok(),
        None => {
            let (collection, instance) = place.split_once('/').unwrap_or((place, "1"));
            format!(in alloc;
                "{{\"grid\":{{\"collection\":\"{collection}\",\"instance\":\"{instance}\",\"coverage\":{coverage}}}}}"
            ).ok()
        }
    }
}

// The line of a word.
fn line_of(alloc: Global, word: &str) -> Option<String> {
    match word.split_once('=') {
        Some((place, coverage)) => coverage_line(alloc, place, answer_in(LINES, coverage)),
        None => String::from_str(alloc, answer_in(LINES, word)).ok(),
    }
}

// The lines of words, each with a line feed, but for the last one; where memory is wanting they are broken.
fn feed_of(alloc: Global, words: &str) -> String {
    let mut feed = String::new(alloc);
    for word in words.split(' ') {
        if let Some(line) = line_of(alloc, word) {
            let between = if feed.is_empty() { "" } else { "\n" };
            let _ = feed.push_str(between);
            let _ = feed.push_str(&line);
        }
    }
    feed
}

// Whether a fault has this beside its refusal.
fn has_more(alloc: Global, fault: &FeedFault, more: &str) -> bool {
    match fault {
        FeedFault::Cov(_, inner) => is_shown(alloc, inner, more),
        FeedFault::Change(_, ChangeFault::ParametersDiffer(id)) => {
            match more.strip_prefix("ParametersDiffer ") {
                Some(text) => text.as_bytes() == id.bytes(),
                None => false,
            }
        }
        FeedFault::Change(_, inner) => is_shown(alloc, inner, more),
        _ => more.is_empty(),
    }
}

// Whether bytes are no feed for this reason, and what the fault has beside that.
fn is_fault(alloc: Global, fault: &FeedFault, answer: &str) -> bool {
    let (first, more) = answer.split_once(' ').unwrap_or((answer, ""));
    match fault.refusal() {
        Some(refusal) => is_shown(alloc, &refusal, first) && has_more(alloc, fault, more),
        None => is_shown(alloc, fault, answer),
    }
}

// Whether an edition has these collections.
fn are_collections(edition: &Edition, ids: &str) -> bool {
    let mut place = 0;
    for id in ids.split(' ') {
        if !id.is_empty() {
            if place >= edition.len() || edition.collection_at(place).id() != id.as_bytes() {
                return false;
            }
            place += 1;
        }
    }
    place == edition.len()
}

// Whether there are so many editions, and the last one has these collections.
fn is_feed(feed: &Feed, answer: &str) -> bool {
    let (count, ids) = answer.split_once(':').unwrap_or((answer, ""));
    let editions = feed.editions.items();
    match editions.last() {
        Some(last) => {
            count.parse::<usize>().ok() == Some(editions.len()) && are_collections(last, ids)
        }
        None => false,
    }
}

fn is_read(alloc: Global, source: &mut MemorySource, answer: &str) -> bool {
    match read_feed(alloc, source) {
        Ok(feed) => is_feed(&feed, answer),
        Err(fault) => is_fault(alloc, &fault, answer),
    }
}

// The bytes as a source that gives so many at once.
fn source_of(alloc: Global, bytes: &[u8], cut: usize) -> MemorySource
    requires { 1 ≤ cut }
{
    let mut copy = Vec::new(alloc);
    let _ = copy.extend_from_slice(bytes);
    MemorySource::of(copy, cut, Vec::new(alloc))
}

// Whether bytes are read so, given so many at once.
fn are_read(alloc: Global, bytes: &[u8], cut: usize, answer: &str) -> bool
    requires { 1 ≤ cut }
{
    is_read(alloc, &mut source_of(alloc, bytes, cut), answer)
}

/// Whether a feed is read so, all at once, and byte by byte with a line feed at its end.
pub fn is_answered(alloc: Global, words: &str, answer: &str) -> bool {
    let mut feed = feed_of(alloc, words);
    are_read(alloc, feed.as_bytes(), 1_000_000, answer)
        && feed.push('\n').is_ok()
        && are_read(alloc, feed.as_bytes(), 1, answer)
}

fn bytes_of(word: &str) -> &'static [u8] {
    match word {
        "return" => b"\r",
        "feed" => b"\n",
        "space" => b" ",
        "tab" => b"\t",
        "null" => b"\0",
        "other" => b"\xff",
        "mark" => b"\xef\xbb\xbf",
        _ => answer_in(LINES, word).as_bytes(),
    }
}

/// Whether bytes are read so.
pub fn are_answered(alloc: Global, words: &str, answer: &str) -> bool {
    let mut feed = Vec::new(alloc);
    for word in words.split(' ') {
        let _ = feed.extend_from_slice(bytes_of(word));
    }
    are_read(alloc, &feed, 2, answer)
}

fn feed_in(alloc: Global, bytes: &[u8]) -> Option<Feed> {
    read_feed(alloc, &mut source_of(alloc, bytes, 1_000_000)).ok()
}

// Whether that line, with a line feed, is the summary of a feed's last edition.
fn has_summary(alloc: Global, feed: &Feed, answer: &str) -> bool {
    match feed.editions.items().last() {
        Some(last) => match summary(alloc, last) {
            Ok(line) => line.bytes().strip_suffix(b"\n") == Some(answer.as_bytes()),
            Err(_) => false,
        },
        None => false,
    }
}

// The label of the first station of the first collection of an edition.
fn first_label(edition: &Edition) -> Option<&[u8]> {
    if edition.len() == 0 {
        return None;
    }
    let stations = edition.collection_at(0).stations()?;
    if stations.len() == 0 {
        return None;
    }
    Some(stations.station(0).label())
}

// Whether that is the label of the first station of the first collection of a feed's last edition.
fn has_label(feed: &Feed, answer: &str) -> bool {
    match feed.editions.items().last() {
        Some(last) => first_label(last) == Some(answer.as_bytes()),
        None => false,
    }
}

/// Whether that line is the summary of the last edition of a feed.
pub fn is_summed(alloc: Global, words: &str, answer: &str) -> Option<bool> {
    let feed = feed_in(alloc, feed_of(alloc, words).as_bytes())?;
    Some(has_summary(alloc, &feed, answer))
}

/// Whether that is the label of the first station of a feed.
pub fn is_labelled(alloc: Global, words: &str, answer: &str) -> Option<bool> {
    let feed = feed_in(alloc, feed_of(alloc, words).as_bytes())?;
    Some(has_label(&feed, answer))
}

// Whether some bytes and so many blanks behind them are read so.
fn is_long(alloc: Global, front: &[u8], blanks: usize, answer: &str) -> bool {
    let mut line = Vec::new(alloc);
    line.extend_from_slice(front).is_ok()
        && line
            .resize(front.len().saturating_add(blanks), b' ')
            .is_ok()
        && are_read(alloc, &line, 1_000_000, answer)
}

// Whether so many lists in each other are read so.
fn is_nested(alloc: Global, depth: u8, answer: &str) -> bool {
    let depth = depth as usize;
    let mut line = Vec::new(alloc);
    line.resize(depth, b'[').is_ok()
        && line.resize(2 * depth, b']').is_ok()
        && are_read(alloc, &line, 100, answer)
}

// Whether a source of one line, in pieces, whose second call fails is read so.
fn is_failing(alloc: Global, name: &str, answer: &str) -> bool {
    let mut line = Vec::new(alloc);
    let _ = line.extend_from_slice(answer_in(LINES, name).as_bytes());
    let mut fails = Vec::new(alloc);
    let _ = fails.push(2u64);
    is_read(alloc, &mut MemorySource::of(line, 100, fails), answer)
}

#[test]
fn feeds_are_read_and_refused(rt: HostRuntime) {
    are_right(&rt, rt.alloc(), Cases::Feeds, FEEDS);
    are_right(&rt, rt.alloc(), Cases::Bytes, BYTES);
    assert!(rt; is_failing(rt.alloc(), "G", "ReadFault"));
}

#[test]
fn editions_have_summaries(rt: HostRuntime) {
    are_right(&rt, rt.alloc(), Cases::Summaries, SUMMARIES);
    are_right(&rt, rt.alloc(), Cases::Labels, LABELS);
}

// Whether the feed that is made of a number is read, and has that summary.
fn is_made(alloc: Global, number: u64, answer: &str) -> bool {
    let mut sink = MemorySink::of(alloc, 1_000, Vec::new(alloc));
    if make_feed(alloc, number, &mut sink).is_err() {
        return false;
    }
    match feed_in(alloc, sink.written()) {
        Some(feed) => has_summary(alloc, &feed, answer),
        None => false,
    }
}

#[test]
fn made_feeds_are_read(rt: HostRuntime) {
    let summary =
        "edition 1: collections 2, instances 1, stations 40, samples 532000, present 492000, sum 2214000";
    assert!(rt; is_made(rt.alloc(), 7, summary));
}

#[test]
fn lines_have_limits(rt: HostRuntime) {
    let alloc = rt.alloc();
    assert!(rt; is_long(alloc, b"", 16_777_216, "NothingPublished"));
    assert!(rt; is_long(alloc, b"", 16_777_217, "LineTooLong(1)"));
    assert!(rt; is_long(alloc, b"{\"publish\":{}}\n", 16_777_217, "LineTooLong(2)"));
    assert!(rt; is_nested(alloc, 127, "NotFeedLine(1)") && is_nested(alloc, 128, "NotJson(1)"));
}
