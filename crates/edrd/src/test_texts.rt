//! The texts that come and that are answered.

use std::alloc::{AllocError, Global};

/// A feed of one grid.
pub(crate) const GRID: &[u8] =
    b"{\"type\":\"Coverage\",\"domain\":{\"type\":\"Domain\",\"domainType\":\"Grid\",\"axes\":{\"x\":{\"values\":[0,100,200]},\"y\":{\"values\":[0,100]},\"t\":{\"values\":[\"2024-01-01T00:00:00Z\",\"2024-01-01T01:00:00Z\"]}},\"referencing\":[{\"coordinates\":[\"x\",\"y\"],\"system\":{\"type\":\"ProjectedCRS\",\"id\":\"http://www.opengis.net/def/crs/EPSG/0/32633\"}},{\"coordinates\":[\"t\"],\"system\":{\"type\":\"TemporalRS\",\"calendar\":\"Gregorian\"}}]},\"parameters\":{\"temp\":{\"type\":\"Parameter\",\"unit\":{\"symbol\":\"Cel\"},\"observedProperty\":{\"label\":{\"en\":\"Temperature\"}}}},\"ranges\":{\"temp\":{\"type\":\"NdArray\",\"dataType\":\"integer\",\"axisNames\":[\"t\",\"y\",\"x\"],\"shape\":[2,2,3],\"values\":[10,11,12,13,null,15,20,21,22,23,24,25]}}}";

/// The same with each value raised by 100.
pub(crate) const RAISED: &[u8] =
    b"{\"type\":\"Coverage\",\"domain\":{\"type\":\"Domain\",\"domainType\":\"Grid\",\"axes\":{\"x\":{\"values\":[0,100,200]},\"y\":{\"values\":[0,100]},\"t\":{\"values\":[\"2024-01-01T00:00:00Z\",\"2024-01-01T01:00:00Z\"]}},\"referencing\":[{\"coordinates\":[\"x\",\"y\"],\"system\":{\"type\":\"ProjectedCRS\",\"id\":\"http://www.opengis.net/def/crs/EPSG/0/32633\"}},{\"coordinates\":[\"t\"],\"system\":{\"type\":\"TemporalRS\",\"calendar\":\"Gregorian\"}}]},\"parameters\":{\"temp\":{\"type\":\"Parameter\",\"unit\":{\"symbol\":\"Cel\"},\"observedProperty\":{\"label\":{\"en\":\"Temperature\"}}}},\"ranges\":{\"temp\":{\"type\":\"NdArray\",\"dataType\":\"integer\",\"axisNames\":[\"t\",\"y\",\"x\"],\"shape\":[2,2,3],\"values\":[110,111,112,113,null,115,120,121,122,123,124,125]}}}";

/// The reply to a request for a position from the grid.
pub(crate) const FROM_FIRST: &[u8] =
    b"HTTP/1.1 200 OK\r\nContent-Type: application/prs.coverage+json\r\nX-Edr-Edition: 1\r\nTransfer-Encoding: chunked\r\n\r\n221\r\n{\"domain\":{\"axes\":{\"t\":{\"values\":[\"2024-01-01T00:00:00Z\"]},\"x\":{\"values\":[0]},\"y\":{\"values\":[0]}},\"domainType\":\"Point\",\"referencing\":[{\"coordinates\":[\"x\",\"y\"],\"system\":{\"id\":\"http://www.opengis.net/def/crs/EPSG/0/32633\",\"type\":\"ProjectedCRS\"}},{\"coordinates\":[\"t\"],\"system\":{\"calendar\":\"Gregorian\",\"type\":\"TemporalRS\"}}],\"type\":\"Domain\"},\"parameters\":{\"temp\":{\"observedProperty\":{\"label\":{\"en\":\"Temperature\"}},\"type\":\"Parameter\",\"unit\":{\"symbol\":\"Cel\"}}},\"ranges\":{\"temp\":{\"dataType\":\"integer\",\"type\":\"NdArray\",\"values\":[10]}},\"type\":\"Coverage\"}\r\n0\r\n\r\n";

/// The same from the raised grid, as the second edition.
pub(crate) const FROM_SECOND: &[u8] =
    b"HTTP/1.1 200 OK\r\nContent-Type: application/prs.coverage+json\r\nX-Edr-Edition: 2\r\nTransfer-Encoding: chunked\r\n\r\n222\r\n{\"domain\":{\"axes\":{\"t\":{\"values\":[\"2024-01-01T00:00:00Z\"]},\"x\":{\"values\":[0]},\"y\":{\"values\":[0]}},\"domainType\":\"Point\",\"referencing\":[{\"coordinates\":[\"x\",\"y\"],\"system\":{\"id\":\"http://www.opengis.net/def/crs/EPSG/0/32633\",\"type\":\"ProjectedCRS\"}},{\"coordinates\":[\"t\"],\"system\":{\"calendar\":\"Gregorian\",\"type\":\"TemporalRS\"}}],\"type\":\"Domain\"},\"parameters\":{\"temp\":{\"observedProperty\":{\"label\":{\"en\":\"Temperature\"}},\"type\":\"Parameter\",\"unit\":{\"symbol\":\"Cel\"}}},\"ranges\":{\"temp\":{\"dataType\":\"integer\",\"type\":\"NdArray\",\"values\":[110]}},\"type\":\"Coverage\"}\r\n0\r\n\r\n";

/// A feed of three editions, of which the second and the third are the same.
pub(crate) fn three_grids(alloc: Global) -> Result<Vec<u8>, AllocError> {
    let mut feed = Vec::from_slice(alloc, GRID)?;
    feed.push(b'\n')?;
    feed.extend_from_slice(RAISED)?;
    feed.push(b'\n')?;
    feed.extend_from_slice(RAISED)?;
    Ok(feed)
}
