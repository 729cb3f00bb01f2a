//! Queries along lines: corridors and trajectories.

use crate::station_tests::MASTS;
use crate::tests::{Case, GRID, run_cut};
use edr_base::{MemorySink, MemorySource};
use edr_edition::SteppedShelf;
use edr_feed::read_feed;
use edr_make::make_feed;
use edr_serve::{REQUEST_LIMIT, serve_session};
use std::alloc::Global;
use std::test::Fail;

// A line for each target: the target, and what it is answered with, be it on the output or on the errors.
const OF_THE_GRID: &str = "\
/collections/grid/corridor?coords=LINESTRING(0 0,100 0,100 100)&corridor-width=0&width-units=m&datetime=2024-01-01T00:00:00Z => {\"domain\":{\"axes\":{\"t\":{\"values\":[\"2024-01-01T00:00:00Z\"]},\"x\":{\"values\":[0,100]},\"y\":{\"values\":[0,100]}},\"domainType\":\"Grid\",\"referencing\":[{\"coordinates\":[\"x\",\"y\"],\"system\":{\"id\":\"http://www.opengis.net/def/crs/EPSG/0/32633\",\"type\":\"ProjectedCRS\"}},{\"coordinates\":[\"t\"],\"system\":{\"calendar\":\"Gregorian\",\"type\":\"TemporalRS\"}}],\"type\":\"Domain\"},\"parameters\":{\"temp\":{\"observedProperty\":{\"label\":{\"en\":\"Temperature\"}},\"type\":\"Parameter\",\"unit\":{\"symbol\":\"Cel\"}}},\"ranges\":{\"temp\":{\"axisNames\":[\"t\",\"y\",\"x\"],\"dataType\":\"integer\",\"shape\":[1,2,2],\"type\":\"NdArray\",\"values\":[10,11,null,null]}},\"type\":\"Coverage\"}
/collections/grid/corridor?coords=LINESTRING M(0 0 1704067200,100 0 1704067200,200 0 1704070800)&corridor-width=0&width-units=m => {\"domain\":{\"axes\":{\"t\":{\"values\":[\"2024-01-01T00:00:00Z\",\"2024-01-01T01:00:00Z\"]},\"x\":{\"num\":3,\"start\":0,\"stop\":200},\"y\":{\"values\":[0]}},\"domainType\":\"Grid\",\"referencing\":[{\"coordinates\":[\"x\",\"y\"],\"system\":{\"id\":\"http://www.opengis.net/def/crs/EPSG/0/32633\",\"type\":\"ProjectedCRS\"}},{\"coordinates\":[\"t\"],\"system\":{\"calendar\":\"Gregorian\",\"type\":\"TemporalRS\"}}],\"type\":\"Domain\"},\"parameters\":{\"temp\":{\"observedProperty\":{\"label\":{\"en\":\"Temperature\"}},\"type\":\"Parameter\",\"unit\":{\"symbol\":\"Cel\"}}},\"ranges\":{\"temp\":{\"axisNames\":[\"t\",\"y\",\"x\"],\"dataType\":\"integer\",\"shape\":[2,1,3],\"type\":\"NdArray\",\"values\":[10,11,12,null,21,22]}},\"type\":\"Coverage\"}
/collections/grid/corridor?coords=LINESTRING(50 0,50 0)&corridor-width=100&width-units=m&datetime=2024-01-01T00:00:00Z => {\"domain\":{\"axes\":{\"t\":{\"values\":[\"2024-01-01T00:00:00Z\"]},\"x\":{\"values\":[0,100]},\"y\":{\"values\":[0]}},\"domainType\":\"Grid\",\"referencing\":[{\"coordinates\":[\"x\",\"y\"],\"system\":{\"id\":\"http://www.opengis.net/def/crs/EPSG/0/32633\",\"type\":\"ProjectedCRS\"}},{\"coordinates\":[\"t\"],\"system\":{\"calendar\":\"Gregorian\",\"type\":\"TemporalRS\"}}],\"type\":\"Domain\"},\"parameters\":{\"temp\":{\"observedProperty\":{\"label\":{\"en\":\"Temperature\"}},\"type\":\"Parameter\",\"unit\":{\"symbol\":\"Cel\"}}},\"ranges\":{\"temp\":{\"axisNames\":[\"t\",\"y\",\"x\"],\"dataType\":\"integer\",\"shape\":[1,1,2],\"type\":\"NdArray\",\"values\":[10,11]}},\"type\":\"Coverage\"}
/collections/grid/corridor?coords=LINESTRING(50 0,50 0)&corridor-width=99&width-units=m => {\"code\":\"NoSamples\",\"number\":25}
/collections/grid/trajectory?coords=LINESTRING(0 0,50 0,50 300,200 100,0 0)&datetime=2024-01-01T00:00:00Z => {\"domain\":{\"axes\":{\"composite\":{\"coordinates\":[\"t\",\"x\",\"y\"],\"dataType\":\"tuple\",\"values\":[[\"2024-01-01T00:00:00Z\",0,0],[\"2024-01-01T00:00:00Z\",200,100],[\"2024-01-01T00:00:00Z\",0,0]]}},\"domainType\":\"Trajectory\",\"referencing\":[{\"coordinates\":[\"x\",\"y\"],\"system\":{\"id\":\"http://www.opengis.net/def/crs/EPSG/0/32633\",\"type\":\"ProjectedCRS\"}},{\"coordinates\":[\"t\"],\"system\":{\"calendar\":\"Gregorian\",\"type\":\"TemporalRS\"}}],\"type\":\"Domain\"},\"parameters\":{\"temp\":{\"observedProperty\":{\"label\":{\"en\":\"Temperature\"}},\"type\":\"Parameter\",\"unit\":{\"symbol\":\"Cel\"}}},\"ranges\":{\"temp\":{\"axisNames\":[\"composite\"],\"dataType\":\"integer\",\"shape\":[3],\"type\":\"NdArray\",\"values\":[10,15,10]}},\"type\":\"Coverage\"}
/collections/grid/trajectory?coords=LINESTRING(0 0,100 100) => {\"coverages\":[{\"domain\":{\"axes\":{\"composite\":{\"coordinates\":[\"t\",\"x\",\"y\"],\"dataType\":\"tuple\",\"values\":[[\"2024-01-01T00:00:00Z\",0,0],[\"2024-01-01T00:00:00Z\",100,100]]}},\"domainType\":\"Trajectory\",\"referencing\":[{\"coordinates\":[\"x\",\"y\"],\"system\":{\"id\":\"http://www.opengis.net/def/crs/EPSG/0/32633\",\"type\":\"ProjectedCRS\"}},{\"coordinates\":[\"t\"],\"system\":{\"calendar\":\"Gregorian\",\"type\":\"TemporalRS\"}}],\"type\":\"Domain\"},\"parameters\":{\"temp\":{\"observedProperty\":{\"label\":{\"en\":\"Temperature\"}},\"type\":\"Parameter\",\"unit\":{\"symbol\":\"Cel\"}}},\"ranges\":{\"temp\":{\"axisNames\":[\"composite\"],\"dataType\":\"integer\",\"shape\":[2],\"type\":\"NdArray\",\"values\":[10,null]}},\"type\":\"Coverage\"},{\"domain\":{\"axes\":{\"composite\":{\"coordinates\":[\"t\",\"x\",\"y\"],\"dataType\":\"tuple\",\"values\":[[\"2024-01-01T01:00:00Z\",0,0],[\"2024-01-01T01:00:00Z\",100,100]]}},\"domainType\":\"Trajectory\",\"referencing\":[{\"coordinates\":[\"x\",\"y\"],\"system\":{\"id\":\"http://www.opengis.net/def/crs/EPSG/0/32633\",\"type\":\"ProjectedCRS\"}},{\"coordinates\":[\"t\"],\"system\":{\"calendar\":\"Gregorian\",\"type\":\"TemporalRS\"}}],\"type\":\"Domain\"},\"parameters\":{\"temp\":{\"observedProperty\":{\"label\":{\"en\":\"Temperature\"}},\"type\":\"Parameter\",\"unit\":{\"symbol\":\"Cel\"}}},\"ranges\":{\"temp\":{\"axisNames\":[\"composite\"],\"dataType\":\"integer\",\"shape\":[2],\"type\":\"NdArray\",\"values\":[20,24]}},\"type\":\"Coverage\"}],\"type\":\"CoverageCollection\"}
/collections/grid/trajectory?coords=LINESTRING M(0 0 1704067200,100 0 1704069000,200 0 1704070800) => {\"domain\":{\"axes\":{\"composite\":{\"coordinates\":[\"t\",\"x\",\"y\"],\"dataType\":\"tuple\",\"values\":[[\"2024-01-01T00:00:00Z\",0,0],[\"2024-01-01T00:00:00Z\",100,0],[\"2024-01-01T01:00:00Z\",200,0]]}},\"domainType\":\"Trajectory\",\"referencing\":[{\"coordinates\":[\"x\",\"y\"],\"system\":{\"id\":\"http://www.opengis.net/def/crs/EPSG/0/32633\",\"type\":\"ProjectedCRS\"}},{\"coordinates\":[\"t\"],\"system\":{\"calendar\":\"Gregorian\",\"type\":\"TemporalRS\"}}],\"type\":\"Domain\"},\"parameters\":{\"temp\":{\"observedProperty\":{\"label\":{\"en\":\"Temperature\"}},\"type\":\"Parameter\",\"unit\":{\"symbol\":\"Cel\"}}},\"ranges\":{\"temp\":{\"axisNames\":[\"composite\"],\"dataType\":\"integer\",\"shape\":[3],\"type\":\"NdArray\",\"values\":[10,11,22]}},\"type\":\"Coverage\"}
/collections/grid/trajectory?coords=LINESTRING(-1 0,201 0) => {\"code\":\"NoSamples\",\"number\":25}
";

const OF_THE_MASTS: &str = "\
/collections/masts/corridor?coords=LINESTRING ZM(10 20 2 1704067200,10 20 3 1704067201,10 20 49 1704070799,10 20 50 1704070800)&corridor-width=0&width-units=m&corridor-height=0&height-units=m&parameter-name=temp => {\"coverages\":[{\"domain\":{\"axes\":{\"t\":{\"values\":[\"2024-01-01T00:00:00Z\",\"2024-01-01T01:00:00Z\"]},\"x\":{\"values\":[10]},\"y\":{\"values\":[20]},\"z\":{\"values\":[2,50]}},\"domainType\":\"Grid\",\"referencing\":[{\"coordinates\":[\"x\",\"y\"],\"system\":{\"id\":\"plane\",\"type\":\"ProjectedCRS\"}},{\"coordinates\":[\"z\"],\"system\":{\"id\":\"height\",\"type\":\"VerticalCRS\"}},{\"coordinates\":[\"t\"],\"system\":{\"calendar\":\"Gregorian\",\"type\":\"TemporalRS\"}}],\"type\":\"Domain\"},\"id\":\"M\",\"parameters\":{\"temp\":{\"observedProperty\":{\"label\":{\"en\":\"Temperature\"}},\"type\":\"Parameter\"}},\"ranges\":{\"temp\":{\"axisNames\":[\"t\",\"z\",\"y\",\"x\"],\"dataType\":\"integer\",\"shape\":[2,2,1,1],\"type\":\"NdArray\",\"values\":[1,null,null,4]}},\"type\":\"Coverage\"}],\"type\":\"CoverageCollection\"}
/collections/masts/trajectory?coords=LINESTRING(10 20,10 20) => {\"code\":\"QueryNotOffered\",\"number\":21}
";

// Whether `ask` answers a target of a feed so.
fn is_answered(alloc: Global, feed: &[u8], target: &str, answer: &str) -> bool {
    let case = Case {
        words: &[b"ask", target.as_bytes()],
        input: feed,
        status: 0,
        output: answer.as_bytes(),
        errors: b"",
    };
    let Ok((status, output, errors)) = run_cut(alloc, &case, 4096, &[]) else {
        return false;
    };
    if status == 0 {
        return output.written() == case.output;
    }
    let told = errors.written();
    status == 6 && told.strip_suffix(b"\n") == Some(case.output)
}

// The first line that isn't answered so; none is empty.
fn first_wrong<'a>(alloc: Global, feed: &[u8], lines: &'a str) -> &'a str {
    for line in lines.lines() {
        let (target, answer) = line.split_once(" => ").unwrap_or((line, ""));
        if !is_answered(alloc, feed, target, answer) {
            return line;
        }
    }
    ""
}

#[test]
fn lines_are_answered(rt: HostRuntime) {
    assert_eq!(rt; first_wrong(rt.alloc(), GRID, OF_THE_GRID), "");
    assert_eq!(rt; first_wrong(rt.alloc(), MASTS, OF_THE_MASTS), "");
}

// A corridor of two nodes in two tiles, a trajectory whose tiles are in another order than the text's, and a corridor of a
// station whose times begin with its second block.
const LINES: &[u8] =
    b"GET /collections/grid/corridor?coords=LINESTRING(6300%200,6400%200)&corridor-width=0&width-units=m HTTP/1.1\r\nHost: a\r\n\r\nGET /collections/grid/trajectory?coords=LINESTRING(6400%206400,0%200,6400%206400) HTTP/1.1\r\nHost: a\r\n\r\nGET /collections/sites/corridor?coords=LINESTRING%20M(1000%20500%201704988800,1000%20500%201705000000)&corridor-width=0&width-units=m HTTP/1.1\r\nHost: a\r\n\r\n";

#[test]
fn lines_open_what_they_select(rt: HostRuntime) -> Result<(), Fail> {
    let alloc = rt.alloc();
    let mut made = MemorySink::of(alloc, 4096, Vec::new(alloc));
    make_feed(alloc, 7, &mut made).expect(&rt, "a feed that is made");
    let mut file = MemorySource::of(
        Vec::from_slice(alloc, made.written())?,
        4096,
        Vec::new(alloc),
    );
    let feed = read_feed(alloc, &mut file).expect(&rt, "a feed");
    let mut shelf = SteppedShelf::of(alloc, feed.editions.into_vec())?;
    let mut input = MemorySource::of(Vec::from_slice(alloc, LINES)?, 4096, Vec::new(alloc));
    let mut output = MemorySink::of(alloc, 4096, Vec::new(alloc));
    let report = serve_session(alloc, &mut input, &mut output, &mut shelf, REQUEST_LIMIT).expect(
        &rt,
        "a whole session",
    );
    let reads = report.reads.items();
    assert_eq!(rt; reads.len(), 3);
    assert!(rt; reads[0].numbers() == [0u64, 1].as_slice());
    assert!(rt; reads[1].numbers() == [0u64, 18].as_slice());
    assert!(rt; reads[2].numbers() == [3u64].as_slice());
    Ok(())
}
