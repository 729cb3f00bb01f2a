ghost use Rattle.std.specs.Prelude.{◌<◌};

use crate::running::run;
use edr_base::{MemoryFiles, MemoryLink, MemorySink, MemorySource, OutOfMemory, Text};
use edr_edition::SteppedShelf;
use edr_feed::read_feed;
use edr_make::make_feed;
use edr_serve::{End, REQUEST_LIMIT, serve_session};
use std::alloc::Global;
use std::test::Fail;

pub(crate) const GRID: &[u8] =
    b"{\"type\":\"Coverage\",\"domain\":{\"type\":\"Domain\",\"domainType\":\"Grid\",\"axes\":{\"x\":{\"values\":[0,100,200]},\"y\":{\"values\":[0,100]},\"t\":{\"values\":[\"2024-01-01T00:00:00Z\",\"2024-01-01T01:00:00Z\"]}},\"referencing\":[{\"coordinates\":[\"x\",\"y\"],\"system\":{\"type\":\"ProjectedCRS\",\"id\":\"http://www.opengis.net/def/crs/EPSG/0/32633\"}},{\"coordinates\":[\"t\"],\"system\":{\"type\":\"TemporalRS\",\"calendar\":\"Gregorian\"}}]},\"parameters\":{\"temp\":{\"type\":\"Parameter\",\"unit\":{\"symbol\":\"Cel\"},\"observedProperty\":{\"label\":{\"en\":\"Temperature\"}}}},\"ranges\":{\"temp\":{\"type\":\"NdArray\",\"dataType\":\"integer\",\"axisNames\":[\"t\",\"y\",\"x\"],\"shape\":[2,2,3],\"values\":[10,11,12,13,null,15,20,21,22,23,24,25]}}}";

const FIRST: &[u8] =
    b"{\"domain\":{\"axes\":{\"t\":{\"values\":[\"2024-01-01T00:00:00Z\"]},\"x\":{\"values\":[0]},\"y\":{\"values\":[0]}},\"domainType\":\"Point\",\"referencing\":[{\"coordinates\":[\"x\",\"y\"],\"system\":{\"id\":\"http://www.opengis.net/def/crs/EPSG/0/32633\",\"type\":\"ProjectedCRS\"}},{\"coordinates\":[\"t\"],\"system\":{\"calendar\":\"Gregorian\",\"type\":\"TemporalRS\"}}],\"type\":\"Domain\"},\"parameters\":{\"temp\":{\"observedProperty\":{\"label\":{\"en\":\"Temperature\"}},\"type\":\"Parameter\",\"unit\":{\"symbol\":\"Cel\"}}},\"ranges\":{\"temp\":{\"dataType\":\"integer\",\"type\":\"NdArray\",\"values\":[10]}},\"type\":\"Coverage\"}";

const SECOND: &[u8] =
    b"{\"domain\":{\"axes\":{\"t\":{\"values\":[\"2024-01-01T00:00:00Z\"]},\"x\":{\"values\":[100]},\"y\":{\"values\":[0]}},\"domainType\":\"Point\",\"referencing\":[{\"coordinates\":[\"x\",\"y\"],\"system\":{\"id\":\"http://www.opengis.net/def/crs/EPSG/0/32633\",\"type\":\"ProjectedCRS\"}},{\"coordinates\":[\"t\"],\"system\":{\"calendar\":\"Gregorian\",\"type\":\"TemporalRS\"}}],\"type\":\"Domain\"},\"parameters\":{\"temp\":{\"observedProperty\":{\"label\":{\"en\":\"Temperature\"}},\"type\":\"Parameter\",\"unit\":{\"symbol\":\"Cel\"}}},\"ranges\":{\"temp\":{\"dataType\":\"integer\",\"type\":\"NdArray\",\"values\":[11]}},\"type\":\"Coverage\"}";

const MISSING: &[u8] =
    b"{\"domain\":{\"axes\":{\"t\":{\"values\":[\"2024-01-01T00:00:00Z\"]},\"x\":{\"values\":[100]},\"y\":{\"values\":[100]}},\"domainType\":\"Point\",\"referencing\":[{\"coordinates\":[\"x\",\"y\"],\"system\":{\"id\":\"http://www.opengis.net/def/crs/EPSG/0/32633\",\"type\":\"ProjectedCRS\"}},{\"coordinates\":[\"t\"],\"system\":{\"calendar\":\"Gregorian\",\"type\":\"TemporalRS\"}}],\"type\":\"Domain\"},\"parameters\":{\"temp\":{\"observedProperty\":{\"label\":{\"en\":\"Temperature\"}},\"type\":\"Parameter\",\"unit\":{\"symbol\":\"Cel\"}}},\"ranges\":{\"temp\":{\"dataType\":\"integer\",\"type\":\"NdArray\",\"values\":[null]}},\"type\":\"Coverage\"}";

// Two editions: the second has another instance.
const FEED: &[u8] =
    b"{\"collection\":{\"id\":\"c\",\"kind\":\"grid\",\"title\":\"C\",\"crs\":\"plane\"}}\n{\"grid\":{\"collection\":\"c\",\"instance\":\"1\",\"coverage\":{\"type\":\"Coverage\",\"domain\":{\"type\":\"Domain\",\"domainType\":\"Grid\",\"axes\":{\"x\":{\"values\":[0,10]},\"y\":{\"values\":[0]},\"t\":{\"values\":[\"2024-01-01T00:00:00Z\"]}},\"referencing\":[{\"coordinates\":[\"x\",\"y\"],\"system\":{\"type\":\"ProjectedCRS\",\"id\":\"plane\"}},{\"coordinates\":[\"t\"],\"system\":{\"type\":\"TemporalRS\",\"calendar\":\"Gregorian\"}}]},\"parameters\":{\"temp\":{\"type\":\"Parameter\",\"observedProperty\":{\"label\":{\"en\":\"Temperature\"}}}},\"ranges\":{\"temp\":{\"type\":\"NdArray\",\"dataType\":\"integer\",\"axisNames\":[\"t\",\"y\",\"x\"],\"shape\":[1,1,2],\"values\":[1,2]}}}}}\n{\"publish\":{}}\n{\"grid\":{\"collection\":\"c\",\"instance\":\"2\",\"coverage\":{\"type\":\"Coverage\",\"domain\":{\"type\":\"Domain\",\"domainType\":\"Grid\",\"axes\":{\"x\":{\"values\":[0,10]},\"y\":{\"values\":[0]},\"t\":{\"values\":[\"2024-01-01T00:00:00Z\"]}},\"referencing\":[{\"coordinates\":[\"x\",\"y\"],\"system\":{\"type\":\"ProjectedCRS\",\"id\":\"plane\"}},{\"coordinates\":[\"t\"],\"system\":{\"type\":\"TemporalRS\",\"calendar\":\"Gregorian\"}}]},\"parameters\":{\"temp\":{\"type\":\"Parameter\",\"observedProperty\":{\"label\":{\"en\":\"Temperature\"}}}},\"ranges\":{\"temp\":{\"type\":\"NdArray\",\"dataType\":\"integer\",\"axisNames\":[\"t\",\"y\",\"x\"],\"shape\":[1,1,2],\"values\":[3,4]}}}}}\n{\"drop\":{\"collection\":\"c\",\"instance\":\"1\"}}\n{\"publish\":{}}\n";

const SEVERAL: &[u8] =
    b"{\"domain\":{\"axes\":{\"composite\":{\"coordinates\":[\"x\",\"y\"],\"dataType\":\"tuple\",\"values\":[[0,0],[10,0]]},\"t\":{\"values\":[\"2024-01-01T00:00:00Z\"]}},\"domainType\":\"MultiPoint\",\"referencing\":[{\"coordinates\":[\"x\",\"y\"],\"system\":{\"id\":\"plane\",\"type\":\"ProjectedCRS\"}},{\"coordinates\":[\"t\"],\"system\":{\"calendar\":\"Gregorian\",\"type\":\"TemporalRS\"}}],\"type\":\"Domain\"},\"parameters\":{\"temp\":{\"observedProperty\":{\"label\":{\"en\":\"Temperature\"}},\"type\":\"Parameter\"}},\"ranges\":{\"temp\":{\"axisNames\":[\"composite\"],\"dataType\":\"integer\",\"shape\":[2],\"type\":\"NdArray\",\"values\":[3,4]}},\"type\":\"Coverage\"}";

const IN_POLYGON: &[u8] =
    b"{\"domain\":{\"axes\":{\"t\":{\"values\":[\"2024-01-01T00:00:00Z\"]},\"x\":{\"values\":[0,10]},\"y\":{\"values\":[0]}},\"domainType\":\"Grid\",\"referencing\":[{\"coordinates\":[\"x\",\"y\"],\"system\":{\"id\":\"plane\",\"type\":\"ProjectedCRS\"}},{\"coordinates\":[\"t\"],\"system\":{\"calendar\":\"Gregorian\",\"type\":\"TemporalRS\"}}],\"type\":\"Domain\"},\"parameters\":{\"temp\":{\"observedProperty\":{\"label\":{\"en\":\"Temperature\"}},\"type\":\"Parameter\"}},\"ranges\":{\"temp\":{\"axisNames\":[\"t\",\"y\",\"x\"],\"dataType\":\"integer\",\"shape\":[1,1,2],\"type\":\"NdArray\",\"values\":[3,4]}},\"type\":\"Coverage\"}";

// A row of 70 nodes, which is more than a tile has, each value being its node's x.
const WIDE: &[u8] =
    b"{\"domain\":{\"axes\":{\"t\":{\"values\":[\"2024-01-01T00:00:00Z\"]},\"x\":{\"num\":70,\"start\":0,\"stop\":69},\"y\":{\"values\":[0]}},\"domainType\":\"Grid\",\"referencing\":[{\"coordinates\":[\"x\",\"y\"],\"system\":{\"id\":\"plane\",\"type\":\"ProjectedCRS\"}},{\"coordinates\":[\"t\"],\"system\":{\"calendar\":\"Gregorian\",\"type\":\"TemporalRS\"}}],\"type\":\"Domain\"},\"parameters\":{\"temp\":{\"observedProperty\":{\"label\":{\"en\":\"Temperature\"}},\"type\":\"Parameter\"}},\"ranges\":{\"temp\":{\"axisNames\":[\"t\",\"y\",\"x\"],\"dataType\":\"integer\",\"shape\":[1,1,70],\"type\":\"NdArray\",\"values\":[0,1,2,3,4,5,6,7,8,9,10,11,12,13,14,15,16,17,18,19,20,21,22,23,24,25,26,27,28,29,30,31,32,33,34,35,36,37,38,39,40,41,42,43,44,45,46,47,48,49,50,51,52,53,54,55,56,57,58,59,60,61,62,63,64,65,66,67,68,69]}},\"type\":\"Coverage\"}";

const OVER_TWO_TILES: &[u8] =
    b"{\"domain\":{\"axes\":{\"t\":{\"values\":[\"2024-01-01T00:00:00Z\"]},\"x\":{\"num\":7,\"start\":60,\"stop\":66},\"y\":{\"values\":[0]}},\"domainType\":\"Grid\",\"referencing\":[{\"coordinates\":[\"x\",\"y\"],\"system\":{\"id\":\"plane\",\"type\":\"ProjectedCRS\"}},{\"coordinates\":[\"t\"],\"system\":{\"calendar\":\"Gregorian\",\"type\":\"TemporalRS\"}}],\"type\":\"Domain\"},\"parameters\":{\"temp\":{\"observedProperty\":{\"label\":{\"en\":\"Temperature\"}},\"type\":\"Parameter\"}},\"ranges\":{\"temp\":{\"axisNames\":[\"t\",\"y\",\"x\"],\"dataType\":\"integer\",\"shape\":[1,1,7],\"type\":\"NdArray\",\"values\":[60,61,62,63,64,65,66]}},\"type\":\"Coverage\"}";

const INSTANCE: &[u8] =
    b"{\"crs\":[\"plane\"],\"data_queries\":{\"area\":{\"link\":{\"href\":\"/collections/c/instances/2/area\",\"rel\":\"data\"}},\"corridor\":{\"link\":{\"href\":\"/collections/c/instances/2/corridor\",\"rel\":\"data\"}},\"cube\":{\"link\":{\"href\":\"/collections/c/instances/2/cube\",\"rel\":\"data\"}},\"position\":{\"link\":{\"href\":\"/collections/c/instances/2/position\",\"rel\":\"data\"}},\"radius\":{\"link\":{\"href\":\"/collections/c/instances/2/radius\",\"rel\":\"data\"}},\"trajectory\":{\"link\":{\"href\":\"/collections/c/instances/2/trajectory\",\"rel\":\"data\"}}},\"extent\":{\"spatial\":{\"bbox\":[[0,0,10,0]],\"crs\":\"plane\"},\"temporal\":{\"interval\":[[\"2024-01-01T00:00:00Z\",\"2024-01-01T00:00:00Z\"]]}},\"id\":\"2\",\"links\":[],\"output_formats\":[\"CoverageJSON\"],\"parameter_names\":{\"temp\":{\"observedProperty\":{\"label\":{\"en\":\"Temperature\"}},\"type\":\"Parameter\"}},\"title\":\"C\"}";

// Two editions: each present value of the second is higher by 100.
const TWO_GRIDS: &[u8] =
    b"{\"type\":\"Coverage\",\"domain\":{\"type\":\"Domain\",\"domainType\":\"Grid\",\"axes\":{\"x\":{\"values\":[0,100,200]},\"y\":{\"values\":[0,100]},\"t\":{\"values\":[\"2024-01-01T00:00:00Z\",\"2024-01-01T01:00:00Z\"]}},\"referencing\":[{\"coordinates\":[\"x\",\"y\"],\"system\":{\"type\":\"ProjectedCRS\",\"id\":\"http://www.opengis.net/def/crs/EPSG/0/32633\"}},{\"coordinates\":[\"t\"],\"system\":{\"type\":\"TemporalRS\",\"calendar\":\"Gregorian\"}}]},\"parameters\":{\"temp\":{\"type\":\"Parameter\",\"unit\":{\"symbol\":\"Cel\"},\"observedProperty\":{\"label\":{\"en\":\"Temperature\"}}}},\"ranges\":{\"temp\":{\"type\":\"NdArray\",\"dataType\":\"integer\",\"axisNames\":[\"t\",\"y\",\"x\"],\"shape\":[2,2,3],\"values\":[10,11,12,13,null,15,20,21,22,23,24,25]}}}\n{\"type\":\"Coverage\",\"domain\":{\"type\":\"Domain\",\"domainType\":\"Grid\",\"axes\":{\"x\":{\"values\":[0,100,200]},\"y\":{\"values\":[0,100]},\"t\":{\"values\":[\"2024-01-01T00:00:00Z\",\"2024-01-01T01:00:00Z\"]}},\"referencing\":[{\"coordinates\":[\"x\",\"y\"],\"system\":{\"type\":\"ProjectedCRS\",\"id\":\"http://www.opengis.net/def/crs/EPSG/0/32633\"}},{\"coordinates\":[\"t\"],\"system\":{\"type\":\"TemporalRS\",\"calendar\":\"Gregorian\"}}]},\"parameters\":{\"temp\":{\"type\":\"Parameter\",\"unit\":{\"symbol\":\"Cel\"},\"observedProperty\":{\"label\":{\"en\":\"Temperature\"}}}},\"ranges\":{\"temp\":{\"type\":\"NdArray\",\"dataType\":\"integer\",\"axisNames\":[\"t\",\"y\",\"x\"],\"shape\":[2,2,3],\"values\":[110,111,112,113,null,115,120,121,122,123,124,125]}}}";

// Three requests for the same value.
const THREE: &[u8] =
    b"GET /collections/grid/position?coords=POINT(50%200)&datetime=2024-01-01T00:00:00Z HTTP/1.1\r\nHost: a\r\n\r\nGET /collections/grid/position?coords=POINT(50%200)&datetime=2024-01-01T00:00:00Z HTTP/1.1\r\nHost: a\r\n\r\nGET /collections/grid/position?coords=POINT(50%200)&datetime=2024-01-01T00:00:00Z HTTP/1.1\r\nHost: a\r\n\r\n";

const FROM_FIRST: &[u8] =
    b"HTTP/1.1 200 OK\r\nContent-Type: application/prs.coverage+json\r\nX-Edr-Edition: 1\r\nTransfer-Encoding: chunked\r\n\r\n221\r\n{\"domain\":{\"axes\":{\"t\":{\"values\":[\"2024-01-01T00:00:00Z\"]},\"x\":{\"values\":[0]},\"y\":{\"values\":[0]}},\"domainType\":\"Point\",\"referencing\":[{\"coordinates\":[\"x\",\"y\"],\"system\":{\"id\":\"http://www.opengis.net/def/crs/EPSG/0/32633\",\"type\":\"ProjectedCRS\"}},{\"coordinates\":[\"t\"],\"system\":{\"calendar\":\"Gregorian\",\"type\":\"TemporalRS\"}}],\"type\":\"Domain\"},\"parameters\":{\"temp\":{\"observedProperty\":{\"label\":{\"en\":\"Temperature\"}},\"type\":\"Parameter\",\"unit\":{\"symbol\":\"Cel\"}}},\"ranges\":{\"temp\":{\"dataType\":\"integer\",\"type\":\"NdArray\",\"values\":[10]}},\"type\":\"Coverage\"}\r\n0\r\n\r\nHTTP/1.1 200 OK\r\nContent-Type: application/prs.coverage+json\r\nX-Edr-Edition: 1\r\nTransfer-Encoding: chunked\r\n\r\n221\r\n{\"domain\":{\"axes\":{\"t\":{\"values\":[\"2024-01-01T00:00:00Z\"]},\"x\":{\"values\":[0]},\"y\":{\"values\":[0]}},\"domainType\":\"Point\",\"referencing\":[{\"coordinates\":[\"x\",\"y\"],\"system\":{\"id\":\"http://www.opengis.net/def/crs/EPSG/0/32633\",\"type\":\"ProjectedCRS\"}},{\"coordinates\":[\"t\"],\"system\":{\"calendar\":\"Gregorian\",\"type\":\"TemporalRS\"}}],\"type\":\"Domain\"},\"parameters\":{\"temp\":{\"observedProperty\":{\"label\":{\"en\":\"Temperature\"}},\"type\":\"Parameter\",\"unit\":{\"symbol\":\"Cel\"}}},\"ranges\":{\"temp\":{\"dataType\":\"integer\",\"type\":\"NdArray\",\"values\":[10]}},\"type\":\"Coverage\"}\r\n0\r\n\r\nHTTP/1.1 200 OK\r\nContent-Type: application/prs.coverage+json\r\nX-Edr-Edition: 1\r\nTransfer-Encoding: chunked\r\n\r\n221\r\n{\"domain\":{\"axes\":{\"t\":{\"values\":[\"2024-01-01T00:00:00Z\"]},\"x\":{\"values\":[0]},\"y\":{\"values\":[0]}},\"domainType\":\"Point\",\"referencing\":[{\"coordinates\":[\"x\",\"y\"],\"system\":{\"id\":\"http://www.opengis.net/def/crs/EPSG/0/32633\",\"type\":\"ProjectedCRS\"}},{\"coordinates\":[\"t\"],\"system\":{\"calendar\":\"Gregorian\",\"type\":\"TemporalRS\"}}],\"type\":\"Domain\"},\"parameters\":{\"temp\":{\"observedProperty\":{\"label\":{\"en\":\"Temperature\"}},\"type\":\"Parameter\",\"unit\":{\"symbol\":\"Cel\"}}},\"ranges\":{\"temp\":{\"dataType\":\"integer\",\"type\":\"NdArray\",\"values\":[10]}},\"type\":\"Coverage\"}\r\n0\r\n\r\n";

const FROM_EACH: &[u8] =
    b"HTTP/1.1 200 OK\r\nContent-Type: application/prs.coverage+json\r\nX-Edr-Edition: 1\r\nTransfer-Encoding: chunked\r\n\r\n221\r\n{\"domain\":{\"axes\":{\"t\":{\"values\":[\"2024-01-01T00:00:00Z\"]},\"x\":{\"values\":[0]},\"y\":{\"values\":[0]}},\"domainType\":\"Point\",\"referencing\":[{\"coordinates\":[\"x\",\"y\"],\"system\":{\"id\":\"http://www.opengis.net/def/crs/EPSG/0/32633\",\"type\":\"ProjectedCRS\"}},{\"coordinates\":[\"t\"],\"system\":{\"calendar\":\"Gregorian\",\"type\":\"TemporalRS\"}}],\"type\":\"Domain\"},\"parameters\":{\"temp\":{\"observedProperty\":{\"label\":{\"en\":\"Temperature\"}},\"type\":\"Parameter\",\"unit\":{\"symbol\":\"Cel\"}}},\"ranges\":{\"temp\":{\"dataType\":\"integer\",\"type\":\"NdArray\",\"values\":[10]}},\"type\":\"Coverage\"}\r\n0\r\n\r\nHTTP/1.1 200 OK\r\nContent-Type: application/prs.coverage+json\r\nX-Edr-Edition: 2\r\nTransfer-Encoding: chunked\r\n\r\n222\r\n{\"domain\":{\"axes\":{\"t\":{\"values\":[\"2024-01-01T00:00:00Z\"]},\"x\":{\"values\":[0]},\"y\":{\"values\":[0]}},\"domainType\":\"Point\",\"referencing\":[{\"coordinates\":[\"x\",\"y\"],\"system\":{\"id\":\"http://www.opengis.net/def/crs/EPSG/0/32633\",\"type\":\"ProjectedCRS\"}},{\"coordinates\":[\"t\"],\"system\":{\"calendar\":\"Gregorian\",\"type\":\"TemporalRS\"}}],\"type\":\"Domain\"},\"parameters\":{\"temp\":{\"observedProperty\":{\"label\":{\"en\":\"Temperature\"}},\"type\":\"Parameter\",\"unit\":{\"symbol\":\"Cel\"}}},\"ranges\":{\"temp\":{\"dataType\":\"integer\",\"type\":\"NdArray\",\"values\":[110]}},\"type\":\"Coverage\"}\r\n0\r\n\r\nHTTP/1.1 200 OK\r\nContent-Type: application/prs.coverage+json\r\nX-Edr-Edition: 2\r\nTransfer-Encoding: chunked\r\n\r\n222\r\n{\"domain\":{\"axes\":{\"t\":{\"values\":[\"2024-01-01T00:00:00Z\"]},\"x\":{\"values\":[0]},\"y\":{\"values\":[0]}},\"domainType\":\"Point\",\"referencing\":[{\"coordinates\":[\"x\",\"y\"],\"system\":{\"id\":\"http://www.opengis.net/def/crs/EPSG/0/32633\",\"type\":\"ProjectedCRS\"}},{\"coordinates\":[\"t\"],\"system\":{\"calendar\":\"Gregorian\",\"type\":\"TemporalRS\"}}],\"type\":\"Domain\"},\"parameters\":{\"temp\":{\"observedProperty\":{\"label\":{\"en\":\"Temperature\"}},\"type\":\"Parameter\",\"unit\":{\"symbol\":\"Cel\"}}},\"ranges\":{\"temp\":{\"dataType\":\"integer\",\"type\":\"NdArray\",\"values\":[110]}},\"type\":\"Coverage\"}\r\n0\r\n\r\n";

// A description, its head alone, a query that is refused, a method that isn't allowed, and the beginning of a head.
const SEVERAL_REQUESTS: &[u8] =
    b"GET /conformance HTTP/1.1\r\nHost: a\r\n\r\nHEAD /conformance HTTP/1.1\r\nHost: a\r\n\r\nGET /collections/grid/position?coords=POINT(-1%200)&datetime=2024-01-01T00:00:00Z HTTP/1.1\r\nHost: a\r\n\r\nPOST / HTTP/1.1\r\nHost: a\r\n\r\nGET / HTTP/1.1\r\n";

const SEVERAL_REPLIES: &[u8] =
    b"HTTP/1.1 200 OK\r\nContent-Type: application/json\r\nX-Edr-Edition: 1\r\nTransfer-Encoding: chunked\r\n\r\n11\r\n{\"conformsTo\":[]}\r\n0\r\n\r\nHTTP/1.1 200 OK\r\nContent-Type: application/json\r\nX-Edr-Edition: 2\r\nTransfer-Encoding: chunked\r\n\r\nHTTP/1.1 404 Not Found\r\nContent-Type: application/json\r\nX-Edr-Edition: 2\r\nTransfer-Encoding: chunked\r\n\r\n20\r\n{\"code\":\"NoSamples\",\"number\":25}\r\n0\r\n\r\nHTTP/1.1 405 Method Not Allowed\r\nContent-Type: application/json\r\nAllow: GET, HEAD\r\nTransfer-Encoding: chunked\r\n\r\n26\r\n{\"code\":\"MethodNotOffered\",\"number\":5}\r\n0\r\n\r\nHTTP/1.1 400 Bad Request\r\nContent-Type: application/json\r\nTransfer-Encoding: chunked\r\nConnection: close\r\n\r\n1d\r\n{\"code\":\"BadHead\",\"number\":1}\r\n0\r\n\r\n";

const USAGE: &[u8] =
    b"usage: edr ask TARGET | replay FEED [--advance] | check [--summary] [--why] | make NUMBER | work NUMBER | show [--why] | fetch URL [--why] | import | export TARGET | --help | --version\n";

// What is run, and what has to come of it.
#[derive(Drop)]
pub(crate) struct Case<'a> {
    pub(crate) words: &'a [&'a [u8]],
    pub(crate) input: &'a [u8],
    pub(crate) status: u8,
    pub(crate) output: &'a [u8],
    pub(crate) errors: &'a [u8],
}

pub(crate) fn words_of(alloc: Global, words: &[&[u8]]) -> Result<Vec<Text>, OutOfMemory> {
    let mut kept = Vec::new(alloc);
    for word in words {
        kept.push(Text::of(alloc, word)?)?;
    }
    Ok(kept)
}

// A feed of two editions, and a file that is no feed.
fn files(alloc: Global) -> Result<Vec<(Vec<u8>, Vec<u8>)>, OutOfMemory> {
    let mut files = Vec::new(alloc);
    files.push((
        Vec::from_slice(alloc, b"feed")?,
        Vec::from_slice(alloc, TWO_GRIDS)?,
    ))?;
    files.push((
        Vec::from_slice(alloc, b"other")?,
        Vec::from_slice(alloc, b"{")?,
    ))?;
    Ok(files)
}

// The status, the output and the errors of a run over objects in memory that give and take at most `cut` bytes a call.
pub(crate) fn run_cut(
    alloc: Global,
    case: &Case<'_>,
    cut: usize,
    fails: &[u64],
) -> Result<(u8, MemorySink, MemorySink), OutOfMemory>
    requires { 0 < cut }
{
    let words = words_of(alloc, case.words)?;
    let mut input = MemorySource::of(
        Vec::from_slice(alloc, case.input)?,
        cut,
        Vec::from_slice(alloc, fails)?,
    );
    let mut output = MemorySink::of(alloc, cut, Vec::new(alloc));
    let mut errors = MemorySink::of(alloc, cut, Vec::new(alloc));
    let mut files = MemoryFiles::of(alloc, files(alloc)?, cut, Vec::new(alloc));
    let mut link = MemoryLink::of(alloc, Vec::new(alloc), 1, Vec::new(alloc));
    let status = run(
        alloc,
        &words,
        &mut input,
        &mut output,
        &mut errors,
        &mut files,
        &mut link,
    );
    Ok((status, output, errors))
}

#[test]
fn runs_end_as_they_have_to(rt: HostRuntime) -> Result<(), Fail> {
    let alloc = rt.alloc();
    let table = [
        Case {
            words: &[
                b"ask",
                b"/collections/grid/position?coords=POINT(50 0)&datetime=2024-01-01T00:00:00Z",
            ],
            input: GRID,
            status: 0,
            output: FIRST,
            errors: b"",
        },
        Case {
            words: &[
                b"ask",
                b"/collections/grid/position?coords=POINT(51 50)&datetime=2024-01-01T00:00:00Z",
            ],
            input: GRID,
            status: 0,
            output: SECOND,
            errors: b"",
        },
        Case {
            words: &[
                b"ask",
                b"/collections/grid/position?coords=POINT(100 100)&datetime=2024-01-01T00:00:00Z",
            ],
            input: GRID,
            status: 0,
            output: MISSING,
            errors: b"",
        },
        Case {
            words: &[
                b"ask",
                b"/collections/grid/position?coords= Point ( 50.0\t-00 ) &datetime=2024-01-01t02:00 02:00",
            ],
            input: GRID,
            status: 0,
            output: FIRST,
            errors: b"",
        },
        Case {
            words: &[
                b"ask",
                b"/collections/grid/position?coords=POINT(-1 0)&datetime=2024-01-01T00:00:00Z",
            ],
            input: GRID,
            status: 6,
            output: b"",
            errors: b"{\"code\":\"NoSamples\",\"number\":25}\n",
        },
        Case {
            words: &[
                b"ask",
                b"/collections/grid/position?coords=POINT(0 0)&datetime=2024-01-01T00:00:01Z",
            ],
            input: GRID,
            status: 6,
            output: b"",
            errors: b"{\"code\":\"NoSamples\",\"number\":25}\n",
        },
        Case {
            words: &[
                b"ask",
                b"/collections/grid/items?coords=POINT(0 0)&datetime=2024-01-01T00:00:00Z",
            ],
            input: GRID,
            status: 6,
            output: b"",
            errors: b"{\"code\":\"NoSuchPage\",\"number\":6}\n",
        },
        Case {
            words: &[
                b"ask",
                b"/collections/grid/position?coords=POINT(0.5 0)&datetime=2024-01-01T00:00:00Z",
            ],
            input: GRID,
            status: 6,
            output: b"",
            errors: b"{\"code\":\"BadCoords\",\"number\":11}\n",
        },
        Case {
            words: &[
                b"ask",
                b"/collections/c/position?coords=MULTIPOINT((0 0),(10 0))",
            ],
            input: FEED,
            status: 0,
            output: SEVERAL,
            errors: b"",
        },
        Case {
            words: &[b"ask", b"/collections/c/instances/2"],
            input: FEED,
            status: 0,
            output: INSTANCE,
            errors: b"",
        },
        Case {
            words: &[b"ask", b"/collections/c/instances/1"],
            input: FEED,
            status: 6,
            output: b"",
            errors: b"{\"code\":\"UnknownInstance\",\"number\":19}\n",
        },
        Case {
            words: &[b"ask", b"/collections/x/position?coords=POINT(0 0)"],
            input: FEED,
            status: 6,
            output: b"",
            errors: b"{\"code\":\"UnknownCollection\",\"number\":18}\n",
        },
        Case {
            words: &[
                b"ask",
                b"/collections/c/area?coords=POLYGON((0 0,10 0,5 5,0 0))",
            ],
            input: FEED,
            status: 0,
            output: IN_POLYGON,
            errors: b"",
        },
        Case {
            words: &[b"ask", b"/collections/grid/cube?bbox=60,0,66,0"],
            input: WIDE,
            status: 0,
            output: OVER_TWO_TILES,
            errors: b"",
        },
        Case {
            words: &[b"ask", b"/"],
            input: b"{}",
            status: 2,
            output: b"",
            errors: b"feed: NotFeedLine line 1\n",
        },
        Case {
            words: &[b"check"],
            input: GRID,
            status: 0,
            output: b"ok: 1 editions\n",
            errors: b"",
        },
        Case {
            words: &[b"check", b"--summary"],
            input: GRID,
            status: 0,
            output: b"edition 1: collections 1, instances 1, stations 0, samples 12, present 11, sum 196\n",
            errors: b"",
        },
        Case {
            words: &[b"check"],
            input: b"",
            status: 2,
            output: b"",
            errors: b"feed: NothingPublished\n",
        },
        Case {
            words: &[b"check"],
            input: b"\n{",
            status: 2,
            output: b"",
            errors: b"feed: NotJson line 2\n",
        },
        Case {
            words: &[b"replay", b"feed"],
            input: THREE,
            status: 0,
            output: FROM_FIRST,
            errors: b"",
        },
        Case {
            words: &[b"replay", b"feed", b"--advance"],
            input: THREE,
            status: 0,
            output: FROM_EACH,
            errors: b"",
        },
        Case {
            words: &[b"replay", b"feed", b"--advance"],
            input: SEVERAL_REQUESTS,
            status: 0,
            output: SEVERAL_REPLIES,
            errors: b"",
        },
        Case {
            words: &[b"replay", b"feed"],
            input: b"",
            status: 0,
            output: b"",
            errors: b"",
        },
        Case {
            words: &[b"replay", b"other"],
            input: THREE,
            status: 2,
            output: b"",
            errors: b"feed: NotJson line 1\n",
        },
        Case {
            words: &[b"replay", b"none"],
            input: THREE,
            status: 9,
            output: b"",
            errors: b"open fault\n",
        },
        Case {
            words: &[b"replay", b"\xff"],
            input: THREE,
            status: 1,
            output: b"",
            errors: USAGE,
        },
        Case {
            words: &[b"ask"],
            input: GRID,
            status: 1,
            output: b"",
            errors: USAGE,
        },
        Case {
            words: &[],
            input: GRID,
            status: 1,
            output: b"",
            errors: USAGE,
        },
    ];
    for case in table.iter() {
        for cut in [1usize, 4096] {
            let (status, output, errors) = run_cut(alloc, case, cut, &[])?;
            assert_eq!(rt; status, case.status);
            assert!(rt; output.written() == case.output);
            assert!(rt; errors.written() == case.errors);
        }
    }
    Ok(())
}

#[test]
fn a_read_that_fails_gives_nothing(rt: HostRuntime) -> Result<(), Fail> {
    let case = Case {
        words: &[
            b"ask",
            b"/collections/grid/position?coords=POINT(50 0)&datetime=2024-01-01T00:00:00Z",
        ],
        input: GRID,
        status: 3,
        output: b"",
        errors: b"read fault\n",
    };
    let (status, output, errors) = run_cut(rt.alloc(), &case, 100, &[2])?;
    assert_eq!(rt; status, case.status);
    assert!(rt; output.written() == case.output);
    assert!(rt; errors.written() == case.errors);
    Ok(())
}

// Three requests over a shelf that gives one edition after another, and then the last again.
#[test]
fn requests_find_ascending_editions(rt: HostRuntime) -> Result<(), Fail> {
    let alloc = rt.alloc();
    let mut file = MemorySource::of(Vec::from_slice(alloc, TWO_GRIDS)?, 4096, Vec::new(alloc));
    let feed = read_feed(alloc, &mut file).expect(&rt, "a feed");
    let mut shelf = SteppedShelf::of(alloc, feed.editions.into_vec())?;
    let mut input = MemorySource::of(Vec::from_slice(alloc, THREE)?, 4096, Vec::new(alloc));
    let mut output = MemorySink::of(alloc, 4096, Vec::new(alloc));
    let report = serve_session(alloc, &mut input, &mut output, &mut shelf, REQUEST_LIMIT).expect(
        &rt,
        "a whole session",
    );
    assert!(rt; report.editions.items() == [1u64, 2, 2].as_slice());
    assert_eq!(rt; report.requests, 3);
    assert!(rt; report.end == End::EndOfInput);
    assert!(rt; output.written() == FROM_EACH);
    Ok(())
}

// The greatest number that is one, and one with zeros before it.
#[test]
fn feeds_are_made(rt: HostRuntime) -> Result<(), Fail> {
    let alloc = rt.alloc();
    let table = [
        (b"18446744073709551615".as_slice(), u64::MAX),
        (b"00000000000000000007".as_slice(), 7),
    ];
    for (word, number) in table.iter() {
        let mut made = MemorySink::of(alloc, 4096, Vec::new(alloc));
        make_feed(alloc, *number, &mut made).expect(&rt, "a feed that is made");
        let case = Case {
            words: &[b"make", word],
            input: GRID,
            status: 0,
            output: made.written(),
            errors: b"",
        };
        let (status, output, errors) = run_cut(alloc, &case, 4096, &[])?;
        assert_eq!(rt; status, case.status);
        assert!(rt; output.written() == case.output);
        assert!(rt; errors.written() == case.errors);
    }
    Ok(())
}
