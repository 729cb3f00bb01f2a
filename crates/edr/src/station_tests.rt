//! Queries of stations.

use crate::tests::{Case, run_cut};
use edr_base::{MemorySink, MemorySource};
use edr_edition::SteppedShelf;
use edr_feed::read_feed;
use edr_make::make_feed;
use edr_serve::{REQUEST_LIMIT, serve_session};
use std::test::Fail;

// A mast: two parameters at two times and two levels, of which one value of each is missing.
pub(crate) const MASTS: &[u8] =
    b"{\"collection\":{\"id\":\"masts\",\"kind\":\"station\",\"title\":\"Masts\",\"crs\":\"plane\",\"vertical\":\"height\"}}\n{\"station\":{\"collection\":\"masts\",\"id\":\"M\",\"label\":\"Mast\",\"coverage\":{\"type\":\"Coverage\",\"domain\":{\"type\":\"Domain\",\"domainType\":\"Grid\",\"axes\":{\"x\":{\"values\":[10]},\"y\":{\"values\":[20]},\"z\":{\"values\":[2,50]},\"t\":{\"values\":[\"2024-01-01T00:00:00Z\",\"2024-01-01T01:00:00Z\"]}},\"referencing\":[{\"coordinates\":[\"x\",\"y\"],\"system\":{\"type\":\"ProjectedCRS\",\"id\":\"plane\"}},{\"coordinates\":[\"z\"],\"system\":{\"type\":\"VerticalCRS\",\"id\":\"height\"}},{\"coordinates\":[\"t\"],\"system\":{\"type\":\"TemporalRS\",\"calendar\":\"Gregorian\"}}]},\"parameters\":{\"temp\":{\"type\":\"Parameter\",\"observedProperty\":{\"label\":{\"en\":\"Temperature\"}}},\"wind\":{\"type\":\"Parameter\",\"observedProperty\":{\"label\":{\"en\":\"Wind\"}}}},\"ranges\":{\"temp\":{\"type\":\"NdArray\",\"dataType\":\"integer\",\"axisNames\":[\"t\",\"z\",\"y\",\"x\"],\"shape\":[2,2,1,1],\"values\":[1,2,null,4]},\"wind\":{\"type\":\"NdArray\",\"dataType\":\"integer\",\"axisNames\":[\"t\",\"z\",\"y\",\"x\"],\"shape\":[2,2,1,1],\"values\":[5,6,7,null]}}}}}\n{\"publish\":{}}\n";

const GRID: &[u8] =
    b"{\"domain\":{\"axes\":{\"t\":{\"values\":[\"2024-01-01T00:00:00Z\",\"2024-01-01T01:00:00Z\"]},\"x\":{\"values\":[10]},\"y\":{\"values\":[20]},\"z\":{\"values\":[2,50]}},\"domainType\":\"Grid\",\"referencing\":[{\"coordinates\":[\"x\",\"y\"],\"system\":{\"id\":\"plane\",\"type\":\"ProjectedCRS\"}},{\"coordinates\":[\"z\"],\"system\":{\"id\":\"height\",\"type\":\"VerticalCRS\"}},{\"coordinates\":[\"t\"],\"system\":{\"calendar\":\"Gregorian\",\"type\":\"TemporalRS\"}}],\"type\":\"Domain\"},\"id\":\"M\",\"parameters\":{\"temp\":{\"observedProperty\":{\"label\":{\"en\":\"Temperature\"}},\"type\":\"Parameter\"},\"wind\":{\"observedProperty\":{\"label\":{\"en\":\"Wind\"}},\"type\":\"Parameter\"}},\"ranges\":{\"temp\":{\"axisNames\":[\"t\",\"z\",\"y\",\"x\"],\"dataType\":\"integer\",\"shape\":[2,2,1,1],\"type\":\"NdArray\",\"values\":[1,2,null,4]},\"wind\":{\"axisNames\":[\"t\",\"z\",\"y\",\"x\"],\"dataType\":\"integer\",\"shape\":[2,2,1,1],\"type\":\"NdArray\",\"values\":[5,6,7,null]}},\"type\":\"Coverage\"}";

const SERIES: &[u8] =
    b"{\"domain\":{\"axes\":{\"t\":{\"values\":[\"2024-01-01T00:00:00Z\",\"2024-01-01T01:00:00Z\"]},\"x\":{\"values\":[10]},\"y\":{\"values\":[20]},\"z\":{\"values\":[50]}},\"domainType\":\"PointSeries\",\"referencing\":[{\"coordinates\":[\"x\",\"y\"],\"system\":{\"id\":\"plane\",\"type\":\"ProjectedCRS\"}},{\"coordinates\":[\"z\"],\"system\":{\"id\":\"height\",\"type\":\"VerticalCRS\"}},{\"coordinates\":[\"t\"],\"system\":{\"calendar\":\"Gregorian\",\"type\":\"TemporalRS\"}}],\"type\":\"Domain\"},\"id\":\"M\",\"parameters\":{\"temp\":{\"observedProperty\":{\"label\":{\"en\":\"Temperature\"}},\"type\":\"Parameter\"}},\"ranges\":{\"temp\":{\"axisNames\":[\"t\"],\"dataType\":\"integer\",\"shape\":[2],\"type\":\"NdArray\",\"values\":[2,4]}},\"type\":\"Coverage\"}";

const PROFILE: &[u8] =
    b"{\"domain\":{\"axes\":{\"t\":{\"values\":[\"2024-01-01T00:00:00Z\"]},\"x\":{\"values\":[10]},\"y\":{\"values\":[20]},\"z\":{\"values\":[2,50]}},\"domainType\":\"VerticalProfile\",\"referencing\":[{\"coordinates\":[\"x\",\"y\"],\"system\":{\"id\":\"plane\",\"type\":\"ProjectedCRS\"}},{\"coordinates\":[\"z\"],\"system\":{\"id\":\"height\",\"type\":\"VerticalCRS\"}},{\"coordinates\":[\"t\"],\"system\":{\"calendar\":\"Gregorian\",\"type\":\"TemporalRS\"}}],\"type\":\"Domain\"},\"id\":\"M\",\"parameters\":{\"wind\":{\"observedProperty\":{\"label\":{\"en\":\"Wind\"}},\"type\":\"Parameter\"}},\"ranges\":{\"wind\":{\"axisNames\":[\"z\"],\"dataType\":\"integer\",\"shape\":[2],\"type\":\"NdArray\",\"values\":[5,6]}},\"type\":\"Coverage\"}";

const POINTS: &[u8] =
    b"{\"coverages\":[{\"domain\":{\"axes\":{\"t\":{\"values\":[\"2024-01-01T01:00:00Z\"]},\"x\":{\"values\":[10]},\"y\":{\"values\":[20]},\"z\":{\"values\":[50]}},\"domainType\":\"Point\",\"referencing\":[{\"coordinates\":[\"x\",\"y\"],\"system\":{\"id\":\"plane\",\"type\":\"ProjectedCRS\"}},{\"coordinates\":[\"z\"],\"system\":{\"id\":\"height\",\"type\":\"VerticalCRS\"}},{\"coordinates\":[\"t\"],\"system\":{\"calendar\":\"Gregorian\",\"type\":\"TemporalRS\"}}],\"type\":\"Domain\"},\"id\":\"M\",\"parameters\":{\"wind\":{\"observedProperty\":{\"label\":{\"en\":\"Wind\"}},\"type\":\"Parameter\"}},\"ranges\":{\"wind\":{\"dataType\":\"integer\",\"type\":\"NdArray\",\"values\":[null]}},\"type\":\"Coverage\"}],\"type\":\"CoverageCollection\"}";

#[test]
fn stations_are_answered(rt: HostRuntime) -> Result<(), Fail> {
    let table = [
        Case {
            words: &[b"ask", b"/collections/masts/locations/M"],
            input: MASTS,
            status: 0,
            output: GRID,
            errors: b"",
        },
        Case {
            words: &[
                b"ask",
                b"/collections/masts/locations/M?z=50&parameter-name=temp",
            ],
            input: MASTS,
            status: 0,
            output: SERIES,
            errors: b"",
        },
        Case {
            words: &[
                b"ask",
                b"/collections/masts/locations/M?datetime=2024-01-01T00:00:00Z&parameter-name=wind",
            ],
            input: MASTS,
            status: 0,
            output: PROFILE,
            errors: b"",
        },
        Case {
            words: &[
                b"ask",
                b"/collections/masts/radius?coords=POINT Z(10 20 50)&within=0&within-units=m&datetime=2024-01-01T01:00:00Z&parameter-name=wind",
            ],
            input: MASTS,
            status: 0,
            output: POINTS,
            errors: b"",
        },
        Case {
            words: &[b"ask", b"/collections/masts/locations/M?z=30"],
            input: MASTS,
            status: 6,
            output: b"",
            errors: b"{\"code\":\"NoSamples\",\"number\":25}\n",
        },
        Case {
            words: &[b"ask", b"/collections/masts/locations/m"],
            input: MASTS,
            status: 6,
            output: b"",
            errors: b"{\"code\":\"UnknownLocation\",\"number\":20}\n",
        },
        Case {
            words: &[b"ask", b"/collections/masts/position?coords=POINT(10 20)"],
            input: MASTS,
            status: 6,
            output: b"",
            errors: b"{\"code\":\"QueryNotOffered\",\"number\":21}\n",
        },
    ];
    for case in table.iter() {
        let (status, output, errors) = run_cut(rt.alloc(), case, 4096, &[])?;
        assert_eq!(rt; status, case.status);
        assert!(rt; output.written() == case.output);
        assert!(rt; errors.written() == case.errors);
    }
    Ok(())
}

// Each station that is made has 300 values, so two blocks; the last of these begins with the value of the 257th time.
const STATIONS: &[u8] =
    b"GET /collections/sites/locations/s00 HTTP/1.1\r\nHost: a\r\n\r\nGET /collections/sites/locations/s01?datetime=2024-01-11T15:00:00Z HTTP/1.1\r\nHost: a\r\n\r\nGET /collections/sites/locations/s01?datetime=2024-01-11T16:00:00Z HTTP/1.1\r\nHost: a\r\n\r\nHEAD /collections/sites/locations/s01 HTTP/1.1\r\nHost: a\r\n\r\n";

// Of the 136 tiles of the grid that is made, both boxes take values from 128: one has 500,000 values, the other 500,500.
const BOXES: &[u8] =
    b"GET /collections/grid/cube?bbox=0,0,99900,49900 HTTP/1.1\r\nHost: a\r\n\r\nGET /collections/grid/cube?bbox=0,0,100000,49900 HTTP/1.1\r\nHost: a\r\n\r\n";

#[test]
fn made_feeds_open_what_is_selected(rt: HostRuntime) -> Result<(), Fail> {
    let alloc = rt.alloc();
    let mut made = MemorySink::of(alloc, 4096, Vec::new(alloc));
    make_feed(alloc, 7, &mut made).expect(&rt, "a feed that is made");
    let mut file = MemorySource::of(
        Vec::from_slice(alloc, made.written())?,
        4096,
        Vec::new(alloc),
    );
    let feed = read_feed(alloc, &mut file).expect(&rt, "a feed");
    let mut shelf = SteppedShelf::of(alloc, feed.editions.into_vec())?;
    let mut input = Vec::from_slice(alloc, STATIONS)?;
    input.extend_from_slice(BOXES)?;
    let mut input = MemorySource::of(input, 4096, Vec::new(alloc));
    let mut output = MemorySink::of(alloc, 4096, Vec::new(alloc));
    let report = serve_session(alloc, &mut input, &mut output, &mut shelf, REQUEST_LIMIT).expect(
        &rt,
        "a whole session",
    );
    let reads = report.reads.items();
    assert_eq!(rt; reads.len(), 6);
    assert!(rt; reads[0].numbers() == [0u64, 1].as_slice());
    assert!(rt; reads[1].numbers() == [2u64].as_slice());
    assert!(rt; reads[2].numbers() == [3u64].as_slice());
    assert!(rt; reads[3].numbers() == [].as_slice());
    assert_eq!(rt; reads[4].numbers().len(), 128);
    assert_eq!(rt; reads[5].numbers().len(), 128);
    Ok(())
}
