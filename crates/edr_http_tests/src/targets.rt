//! Targets of queries, as they are written.
use edr_query::{Page, read_target};
use edr_target::target_of;
use std::alloc::Global;
use std::rt::HostRuntime;

// A target that is read as a query, and the written form of that query.
const TARGETS: &str = "\
/collections/grid/radius?coords=POINT(100 0)&within=0.1&within-units=km&datetime=2024-01-01T00:00:00Z => /collections/grid/radius?coords=POINT%28100+0%29&within=100&within-units=m&datetime=2024-01-01T00%3A00%3A00Z
/collections/grid/position?coords=multipoint(0+0,0.0%200,9+9)&datetime=../.. => /collections/grid/position?coords=MULTIPOINT%28%280+0%29%2C%280+0%29%2C%289+9%29%29&datetime=..%2F..
/collections/c%20d~%2F/instances/%C3%A9+1/position?z=20,10&coords=point(-1+2) => /collections/c%20d~%2F/instances/%C3%A9%2B1/position?coords=POINT%28-1+2%29&z=20%2C10
/collections/grid/area?coords=POLYGON((0 0,9 0,0 9,0 0))&parameter-name=b,a b,,b&crs=x%26y~ => /collections/grid/area?coords=POLYGON%28%280+0%2C9+0%2C0+9%2C0+0%29%29&parameter-name=b%2Ca+b%2C&crs=x%26y%7E
/collections/grid/cube?bbox=-1,0,10,2.0,3,20&datetime=1970-01-01T00:00Z/ => /collections/grid/cube?bbox=-1%2C0%2C10%2C2%2C3%2C20&datetime=1970-01-01T00%3A00%3A00Z%2F..
/collections/grid/cube?z=R30/0/10&bbox=1,2,3,4 => /collections/grid/cube?bbox=1%2C2%2C3%2C4&z=R30%2F0%2F10
/collections/grid/trajectory?coords=LINESTRING ZM(0 1 2 3,4 5 6 7) => /collections/grid/trajectory?coords=LINESTRING+ZM%280+1+2+3%2C4+5+6+7%29
/collections/grid/corridor?coords=LINESTRING(0 50,200 50)&width-units=KM&corridor-width=.0&z=5 =>
/collections/grid/corridor?z=-5/10&coords=LINESTRING(0 50,200 50)&width-units=KM&corridor-width=0.5 => /collections/grid/corridor?coords=LINESTRING%280+50%2C200+50%29&corridor-width=500&width-units=m&z=-5%2F10
/collections/grid/corridor?coords=LINESTRING Z(0 0 5,0 0 8)&corridor-width=0&width-units=m&height-units=m&corridor-height=5 => /collections/grid/corridor?coords=LINESTRING+Z%280+0+5%2C0+0+8%29&corridor-width=0&width-units=m&corridor-height=5&height-units=m
/collections/sites/locations/A/ => /collections/sites/locations/A
/collections/sites/locations/A?f=json&datetime=/1970-01-01T00:00:01Z => /collections/sites/locations/A?datetime=..%2F1970-01-01T00%3A00%3A01Z
";

// Whether a target asks for a query whose written form this is; nothing stands for no query.
fn is_written(alloc: Global, target: &str, wanted: &str) -> bool {
    let Ok(Page::Ask(query)) = read_target(alloc, target.as_bytes()) else {
        return wanted.is_empty();
    };
    match target_of(alloc, &query) {
        Ok(text) => text.bytes() == wanted.as_bytes(),
        Err(_) => false,
    }
}

// The first line that isn't written so; none is empty.
fn first_wrong(alloc: Global, lines: &str) -> &str {
    for line in lines.lines() {
        let (target, wanted) = line.split_once(" =>").unwrap_or((line, "?"));
        if !is_written(alloc, target, wanted.trim()) {
            return line;
        }
    }
    ""
}

#[test]
fn queries_are_written_as_targets(rt: HostRuntime) {
    assert_eq!(rt; first_wrong(rt.alloc(), TARGETS), "");
}
