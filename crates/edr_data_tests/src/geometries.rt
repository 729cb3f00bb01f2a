//! Rows of well-known text.
use crate::cases::{Cases, are_right, is_shown};
use edr_wkt::{Geometry, read_wkt, write_wkt};
use std::alloc::Global;
use std::rt::HostRuntime;

// A line for each text: the text, and the answer to it, which is its written form or its fault.
const TABLE: &str = "\
# each tag with each dims
POINT(1 2) => POINT(1 2)
pointz(1 2 3) => POINT Z(1 2 3)
POINTM(1 2 3) => POINT M(1 2 3)
Point\tzM (1 2 3 4) => POINT ZM(1 2 3 4)
MULTIPOINT(1 2) => MULTIPOINT((1 2))
MultiPoint Z((1 2 3),(4 5 6)) => MULTIPOINT Z((1 2 3),(4 5 6))
multipointm(1 2 3,4 5 2) => MULTIPOINT M((1 2 3),(4 5 2))
MULTIPOINTZM(1 2 3 4) => MULTIPOINT ZM((1 2 3 4))
LINESTRING(1 2,1 2) => LINESTRING(1 2,1 2)
lineStringZ(1 2 3,4 5 2) => LINESTRING Z(1 2 3,4 5 2)
LINESTRINGM(100 0 1704067201,150 -1000 1704067202) => LINESTRING M(100 0 1704067201,150 -1000 1704067202)
 LineString zm ( 1 2 3 4 , 5 6 7 8 )  => LINESTRING ZM(1 2 3 4,5 6 7 8)
polygon((0 0,200 0,0 100,0 0)) => POLYGON((0 0,200 0,0 100,0 0))
POLYGON Z((0 0 1,9 0 2,0 9 3,0 0 1)) => POLYGON Z((0 0 1,9 0 2,0 9 3,0 0 1))
Polygon m((0 0 5,9 0 4,0 9 3,0 0 5)) => POLYGON M((0 0 5,9 0 4,0 9 3,0 0 5))
POLYGONZM((0 0 1 5,9 0 1 4,0 9 1 3,0 0 1 5)) => POLYGON ZM((0 0 1 5,9 0 1 4,0 9 1 3,0 0 1 5))
MULTIPOLYGON(((0 0,9 0,0 9,0 0)),((1 1,2 1,1 2,1 1))) => MULTIPOLYGON(((0 0,9 0,0 9,0 0)),((1 1,2 1,1 2,1 1)))
multipolygonz(((0 0 1,9 0 1,0 9 1,0 0 1))) => MULTIPOLYGON Z(((0 0 1,9 0 1,0 9 1,0 0 1)))
MULTIPOLYGON M(((0 0 1,9 0 1,0 9 1,0 0 1))) => MULTIPOLYGON M(((0 0 1,9 0 1,0 9 1,0 0 1)))
MULTIPOLYGON Zm(((0 0 1 2,9 0 1 2,0 9 1 2,0 0 1 2))) => MULTIPOLYGON ZM(((0 0 1 2,9 0 1 2,0 9 1 2,0 0 1 2)))
# blanks, brackets and numbers
POINT(.0 007.00) => POINT(0 7)
MULTIPOINT ( ( 1 2 ) , 3 4\t) => MULTIPOINT((1 2),(3 4))
MULTIPOINT(1 2,(3 4),5 6) => MULTIPOINT((1 2),(3 4),(5 6))
multipoint(0 0,0.0\t200,900 900) => MULTIPOINT((0 0),(0 200),(900 900))
POLYGON ( ( 0 0 , 9 0 , 0 9 , 0 0 ) , ( 1 1 , 2 1 , 1 2 , 1 1 ) ) => POLYGON((0 0,9 0,0 9,0 0),(1 1,2 1,1 2,1 1))
MULTIPOLYGON ( ( ( 0 0 , 9 0 , 0 9 , 0 0 ) ) , ( ( 1 1 , 2 1 , 1 2 , 1 1 ) ) ) => MULTIPOLYGON(((0 0,9 0,0 9,0 0)),((1 1,2 1,1 2,1 1)))
# the ends of the limits
POINT(100000000 -100000000) => POINT(100000000 -100000000)
POINT Z(0 0 -100000000) => POINT Z(0 0 -100000000)
POINT M(0 0 -62167219200) => POINT M(0 0 -62167219200)
POINT M(0 0 253402300799) => POINT M(0 0 253402300799)
# tags and dims that are none
 => NotWkt
POINT => NotWkt
POINTS(1 2) => NotWkt
POIN(1 2) => NotWkt
MULTI POINT(1 2) => NotWkt
MULTILINESTRING((1 2,3 4)) => NotWkt
GEOMETRYCOLLECTION(POINT(1 2)) => NotWkt
POINT Z M(1 2 3 4) => NotWkt
POINT MZ(1 2 3 4) => NotWkt
POINT EMPTY => NotWkt
MULTIPOLYGON EMPTY => NotWkt
LINESTRING(EMPTY) => NotWkt
# numbers that are none
POINT(0.5 0) => NotWkt
POINT(0 1e3) => NotWkt
POINT(- 1 2) => NotWkt
POINT(1. .) => NotWkt
POINT(1\x0b2) => NotWkt
# positions of other lengths than the dims say
POINT(1) => NotWkt
POINT(1 2 3) => NotWkt
POINT Z(1 2) => NotWkt
POINT M(1 2 3 4) => NotWkt
POINT ZM(1 2 3) => NotWkt
# brackets and commas of other kinds
POINT() => NotWkt
POINT(1 2 => NotWkt
POINT 1 2) => NotWkt
POINT(1 2) x => NotWkt
POINT(1 2,3 4) => NotWkt
POINT((1 2)) => NotWkt
MULTIPOINT((1 2,3 4)) => NotWkt
MULTIPOINT((1 2) (3 4)) => NotWkt
LINESTRING(1 2) => NotWkt
LINESTRING((1 2),(3 4)) => NotWkt
POLYGON((0 0,1 0,0 0)) => NotWkt
POLYGON(0 0,1 0,1 1,0 0) => NotWkt
POLYGON(((0 0,1 0,1 1,0 0))) => NotWkt
MULTIPOLYGON((0 0,1 0,1 1,0 0)) => NotWkt
# at the first place, a middle one and the last
LINESTRING(,0 0,1 1) => NotWkt
LINESTRING(0 0,,1 1) => NotWkt
LINESTRING(0 0,1 1,) => NotWkt
LINESTRING(x 0,1 1,2 2) => NotWkt
LINESTRING(0 0,1 x,2 2) => NotWkt
LINESTRING(0 0,1 1,2 x) => NotWkt
MULTIPOLYGON(((0 0,1 0,0 0)),((0 0,1 0,1 1,0 0))) => NotWkt
MULTIPOLYGON(((0 0,1 0,1 1,0 0)),((0 0,1 0,0 0))) => NotWkt
# numbers beyond the limits
POINT(100000001 0) => OutOfRange(1)
LINESTRING(0 -100000001,0 0,0 0) => OutOfRange(1)
POINT Z(0 0 100000001) => OutOfRange(1)
POINT M(0 0 253402300800) => OutOfRange(1)
MULTIPOINT(0 0,(0 -100000001),0 0) => OutOfRange(2)
MULTIPOINT(0 0,0 0,0 -99999999999999999999,0 100000001) => OutOfRange(3)
LINESTRING M(0 0 0,0 0 1,0 0 -62167219201) => OutOfRange(3)
POLYGON((0 0,1 0,1 1,0 0),(0 100000001,1 0,1 1,0 100000001)) => OutOfRange(5)
MULTIPOLYGON Z(((0 0 0,1 0 0,1 1 0,0 0 0)),((0 0 0,1 0 0,1 1 100000001,0 0 0))) => OutOfRange(7)
# rings that aren't closed
POLYGON((0 0,1 0,1 1,0 1)) => OpenRing(1)
MULTIPOLYGON(((0 0,1 0,1 1,0 1)),((0 0,1 0,1 1,0 1))) => OpenRing(1)
POLYGON Z((0 0 0,1 0 0,1 1 0,0 0 1)) => OpenRing(1)
POLYGON M((0 0 0,1 0 0,1 1 0,0 0 1)) => OpenRing(1)
POLYGON((0 0,1 0,1 1,0 0),(0 0,1 0,1 1,1 0),(0 0,1 0,1 1,0 1)) => OpenRing(2)
MULTIPOLYGON(((0 0,1 0,1 1,0 0)),((0 0,1 0,1 1,0 0),(0 0,1 0,1 1,0 1))) => OpenRing(3)
# lines that go back in time
LINESTRING M(0 0 5,1 0 4,2 0 3) => DecreasingM(2)
LINESTRING M(0 0 5,1 0 5,2 0 4,3 0 3) => DecreasingM(3)
LINESTRING ZM(0 0 9 -2,1 0 8 0,2 0 7 -1) => DecreasingM(3)
# two faults at once
LINESTRING(100000001 0,1 1,x 2) => NotWkt
POLYGON((0 0,1 0,1 1,0 1),(0 0,1 0,0 0)) => NotWkt
LINESTRING M(0 0 5,1 0 4) x => NotWkt
POLYGON((0 0,1 0,1 1,0 1),(0 0,1 0,1 1,100000001 0)) => OutOfRange(8)
LINESTRING M(0 0 5,1 0 4,100000001 0 6) => OutOfRange(3)
";

fn has_form(alloc: Global, geometry: &Geometry, form: &str) -> bool {
    match write_wkt(alloc, geometry) {
        Ok(written) => written.bytes() == form.as_bytes(),
        Err(_) => false,
    }
}

// Whether a text is read, and written in this form.
fn is_written(alloc: Global, text: &[u8], form: &str) -> bool {
    match read_wkt(alloc, text) {
        Ok(geometry) => has_form(alloc, &geometry, form),
        Err(_) => false,
    }
}

/// Whether this is the answer to a text. A written form is also read as it stands.
pub fn is_answered(alloc: Global, text: &[u8], answer: &str) -> bool {
    match read_wkt(alloc, text) {
        Ok(geometry) => {
            has_form(alloc, &geometry, answer) && is_written(alloc, answer.as_bytes(), answer)
        }
        Err(fault) => is_shown(alloc, &fault, answer),
    }
}

// How many positions a line has beyond two, and what stands behind them; and whether it is read, or its fault. 10,000 positions
// are read, and no more.
const COUNTS: &str = "\
9998/) => read
9999/) => TooManyPositions
100000/) => TooManyPositions
9998/,100000001 0) => TooManyPositions
9998/ => NotWkt
9999/ x) => NotWkt
";

/// Whether a line of so many positions is read, or has this fault.
pub fn is_counted(alloc: Global, asked: &str, answer: &str) -> bool {
    let (more, end) = asked.split_once('/').unwrap_or((asked, ""));
    let mut text = Vec::new(alloc);
    let _ = text.extend_from_slice(b"LINESTRING(1 2,3 4");
    for _ in 0..more.parse::<u32>().unwrap_or(0) {
        let _ = text.extend_from_slice(b", 3 4");
    }
    let _ = text.extend_from_slice(end.as_bytes());
    match read_wkt(alloc, &text) {
        Ok(_) => answer == "read",
        Err(fault) => is_shown(alloc, &fault, answer),
    }
}

#[test]
fn texts_are_read_and_refused(rt: HostRuntime) {
    let alloc = rt.alloc();
    are_right(&rt, alloc, Cases::Geometries, TABLE);
    are_right(&rt, alloc, Cases::Counts, COUNTS);
    assert!(rt; is_answered(alloc, b"\r\n\tPoint\r\n(+5. -0)\n", "POINT(5 0)"));
    let line = b"LINESTRING(\n0\n0\n,\n1 \t 1\n)";
    assert!(rt; is_answered(alloc, line, "LINESTRING(0 0,1 1)"));
}
