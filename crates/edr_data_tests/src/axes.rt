//! Values that people know, by the calendar and by hand: a line for each case, cut here.
use crate::cases::{Cases, are_right, is_shown};
use edr_axes::{
    Axis, AxisFault, Levels, Times, read_distance, read_instant, read_levels, read_times,
    write_instant,
};
use std::alloc::Global;
use std::rt::HostRuntime;

fn is_refused(alloc: Global, values: &[i64], wanted: AxisFault) -> bool {
    match Axis::of(alloc, values) {
        Ok(_) => false,
        Err(fault) => fault == wanted,
    }
}

fn is_copied(alloc: Global, axis: &Axis) -> bool {
    match axis.copy(alloc) {
        Ok(copy) => copy.values() == axis.values(),
        Err(_) => false,
    }
}

// Whether some values are an axis of so many, and so is its copy.
fn is_axis(alloc: Global, values: &[i64], count: usize) -> bool {
    match Axis::of(alloc, values) {
        Ok(axis) => axis.values() == values && axis.len() == count && is_copied(alloc, &axis),
        Err(_) => false,
    }
}

// Whether an axis answers so.
fn is_place(alloc: Global, axis: &Axis, asked: &str, low: i64, high: i64, answer: &str) -> bool {
    match asked {
        "nearest" => is_shown(alloc, &axis.nearest(low), answer),
        "place_of" => is_shown(alloc, &axis.place_of(low), answer),
        _ => is_shown(alloc, &axis.range(low, high), answer),
    }
}

// Whether the axis 0, 100, 200 answers so to numbers in words, where the second one is the first if it isn't given.
fn is_found(alloc: Global, asked: &str, numbers: &str, answer: &str) -> bool {
    let (low, high) = numbers.split_once('/').unwrap_or((numbers, numbers));
    match (
        Axis::of(alloc, &[0, 100, 200]),
        low.parse::<i64>(),
        high.parse::<i64>(),
    ) {
        (Ok(axis), Ok(low), Ok(high)) => is_place(alloc, &axis, asked, low, high, answer),
        _ => false,
    }
}

#[test]
fn axes_are_made(rt: HostRuntime) {
    let alloc = rt.alloc();
    assert!(rt; is_refused(alloc, &[], AxisFault::Empty));
    assert!(rt; is_refused(alloc, &[1, 1], AxisFault::NotAscending(1)));
    assert!(rt; is_axis(alloc, &[0, 100], 2));
}

// What is asked of the axis 0, 100, 200 with which numbers, or what a text is read as; and the answer. `written` is an instant
// that is written back, `levels` and `times` are those that the text has among -1, 0, 10, 15, 20 and 30, and among four times
// round an hour.
const TABLE: &str = "\
# places of an axis
nearest=50 => 0
nearest=51 => 1
nearest=-7 => 0
nearest=150 => 1
nearest=1000 => 2
place_of=0 => Some(0)
place_of=200 => Some(2)
place_of=100 => Some(1)
place_of=99 => None
place_of=201 => None
range=1/200 => (1, 3)
range=0/100 => (0, 2)
range=100/100 => (1, 2)
range=101/199 => (2, 2)
range=201/300 => (3, 3)
range=-9/-1 => (0, 0)
range=100/50 => (1, 1)
# times that are written
written=0000-01-01T00:00:00Z => -62167219200
written=9999-12-31T23:59:59Z => 253402300799
written=1970-01-01T00:00:00Z => 0
written=1969-12-31T23:59:59Z => -1
written=2024-02-29T00:00:00Z => 1709164800
written=2000-02-29T00:00:00Z => 951782400
written=1900-02-28T00:00:00Z => -2203977600
written=1900-03-01T00:00:00Z => -2203891200
written=2024-01-01T01:00:00Z => 1704070800
# other instants
instant=2024-06-19T17:30:05Z => Some(1718818205)
instant=2024-01-01t00:00z => Some(1704067200)
instant=2024-01-01T00:00:00.000Z => Some(1704067200)
instant=2024-01-01T00:00:59.0-00:00 => Some(1704067259)
instant=2024-01-01T01:00:00+01:00 => Some(1704067200)
instant=2024-01-01T01:00:00 01:00 => Some(1704067200)
instant=2024-01-01T01:00-23:59 => Some(1704157140)
instant=2024-02-29T12:00:00Z => Some(1709208000)
instant=0000-02-29T00:00Z => Some(-62162121600)
instant=0000-01-01T00:01+00:01 => Some(-62167219200)
instant=0000-01-01T00:00+00:01 => None
instant=9999-12-31T23:59:59.00 00:01 => Some(253402300739)
instant=9999-12-31T23:59:00-00:01 => None
instant=9999-12-31T23:59:59-00:01 => None
instant=2023-02-29T00:00:00Z => None
instant=1900-02-29T00:00:00Z => None
instant=2024-00-01T00:00:00Z => None
instant=2024-13-01T00:00:00Z => None
instant=2024-04-31T00:00:00Z => None
instant=2024-01-00T00:00:00Z => None
instant=2016-12-31T23:59:60Z => None
instant=2024-01-01T24:00:00Z => None
instant=2024-01-01T00:60:00Z => None
instant=2024-01-01T00:00:00.10Z => None
instant=2024-01-01T00:00:00.Z => None
instant=2024-01-01T00:00.0Z => None
instant=2024-01-01T00:00:00+24:00 => None
instant=2024-01-01T00:00:00+00:60 => None
instant=2024-01-01T00:00:00+0100 => None
instant=2024-01-01T00:00:00+01:00Z => None
instant=2024-01-01T00:00:00 => None
instant=2024-01-01T00:00:00Z  => None
instant= 2024-01-01T00:00:00Z => None
instant=2024-06-15 00:00:00Z => None
instant=2024-01-01T00:00:Z => None
instant=2024-01-01T0:00:00Z => None
instant=2024-1-01T00:00:00Z => None
instant=+2024-01-01T00:00:00Z => None
instant=2024-06-15 => None
instant=T00:00Z => None
instant= => None
# one instant
datetime=2024-01-01T00:00:00Z => Some(At(1704067200))
datetime=2024-01-01t00:00z => Some(At(1704067200))
datetime=2024-01-01T00:00:00.00Z => Some(At(1704067200))
datetime=2024-01-01T02:00 01:00 => Some(At(1704070800))
datetime=2024-01-01T00:00:00-01:00 => Some(At(1704070800))
datetime=9999-12-31T23:59:59Z => Some(At(253402300799))
# two sides
datetime=2024-01-01T00:00:00Z/2024-01-01T01:00:00Z => Some(Between(Some(1704067200), Some(1704070800)))
datetime=2024-01-01t00:00z/2024-01-01T01:00:00.0 00:00 => Some(Between(Some(1704067200), Some(1704070800)))
datetime=2024-01-01T00:00Z/2024-01-01T00:00:00.0+00:00 => Some(Between(Some(1704067200), Some(1704067200)))
datetime=0000-01-01T00:00:00Z/9999-12-31T23:59:59Z => Some(Between(Some(-62167219200), Some(253402300799)))
datetime=2024-01-01T00:00:00Z/.. => Some(Between(Some(1704067200), None))
datetime=2024-01-01T00:00:00Z/ => Some(Between(Some(1704067200), None))
datetime=../2024-01-01T01:00:00Z => Some(Between(None, Some(1704070800)))
datetime=/2024-01-01T01:00:00Z => Some(Between(None, Some(1704070800)))
datetime=../.. => Some(All)
datetime=/.. => Some(All)
datetime=../ => Some(All)
datetime=/ => Some(All)
# no times
datetime= => None
datetime=.. => None
datetime=. => None
datetime=// => None
datetime=../../.. => None
datetime=./.. => None
datetime=.../.. => None
datetime= ../.. => None
datetime=../ .. => None
datetime=now => None
datetime=2024-01-01T01:00:00Z/2024-01-01T00:00:00Z => None
datetime=2024-01-01T00:00:00Z/2024-01-01T00:00:00+00:01 => None
datetime=2024-01-01T00:00:00Z// => None
datetime=2024-01-01T00:00:00Z/../.. => None
datetime=2024-01-01T00:00:00Z/2024-01-01T00:00:00Z/ => None
datetime=2024-01-01T00:00:00Z/P1D => None
datetime=2024-06-15/.. => None
datetime=2024-01-01T00:00:00Z /.. => None
datetime=2024-01-01T00:00:00Z,2024-01-01T01:00:00Z => None
datetime=2024-02-30T00:00:00Z/.. => None
datetime=../2016-12-31T23:59:60Z => None
datetime=2024-01-01T24:00:00Z => None
datetime=0000-01-01T00:00:00+00:01/.. => None
# one level
z=5 => Ok(At(5))
z=-5.0 => Ok(At(-5))
z= +05.  => Ok(At(5))
z=-.0 => Ok(At(0))
z=100000000 => Ok(At(100000000))
z=-100000000 => Ok(At(-100000000))
# the levels between two
z=1/2 => Ok(Between(1, 2))
z=2/2 => Ok(Between(2, 2))
z=-20/-10 => Ok(Between(-20, -10))
z= 1 / 2.0  => Ok(Between(1, 2))
z=-100000000/100000000 => Ok(Between(-100000000, 100000000))
# lists
z=3,1,2 => Ok(List(Items { items: [3, 1, 2] }))
z= 3 ,1.0,+2 => Ok(List(Items { items: [3, 1, 2] }))
z=7,7 => Ok(List(Items { items: [7, 7] }))
z=100000000,-100000000 => Ok(List(Items { items: [100000000, -100000000] }))
# series
z=R1/0/1 => Ok(Series { n: 1, first: 0, step: 1 })
z=R3/-10/20 => Ok(Series { n: 3, first: -10, step: 20 })
z=R 2/+0/20.0 => Ok(Series { n: 2, first: 0, step: 20 })
z=R2/0/100000000 => Ok(Series { n: 2, first: 0, step: 100000000 })
z=R1/100000000/1 => Ok(Series { n: 1, first: 100000000, step: 1 })
z=R100000000/1/1 => Ok(Series { n: 100000000, first: 1, step: 1 })
# no levels
z= => Err(NotLevels)
z=  => Err(NotLevels)
z=x => Err(NotLevels)
z=5.5 => Err(NotLevels)
z=1e3 => Err(NotLevels)
z=100000001 => Err(NotLevels)
z=-100000001 => Err(NotLevels)
z=2/1 => Err(NotLevels)
z=1/ => Err(NotLevels)
z=/1 => Err(NotLevels)
z=/ => Err(NotLevels)
z=1/2/3 => Err(NotLevels)
z=1/100000001 => Err(NotLevels)
z=../2 => Err(NotLevels)
z=1, => Err(NotLevels)
z=,1 => Err(NotLevels)
z=, => Err(NotLevels)
z=1,,2 => Err(NotLevels)
z=1,2, => Err(NotLevels)
z=1,2,x => Err(NotLevels)
z=1,100000001 => Err(NotLevels)
z=1,2/3 => Err(NotLevels)
z=R0/0/1 => Err(NotLevels)
z=R1/0/0 => Err(NotLevels)
z=R-1/0/1 => Err(NotLevels)
z=R2/0/-1 => Err(NotLevels)
z=R2/1/100000000 => Err(NotLevels)
z=R100000000/2/1 => Err(NotLevels)
z=R100000001/0/1 => Err(NotLevels)
z=R2/0 => Err(NotLevels)
z=R2/0/1/1 => Err(NotLevels)
z=R2/0/1,3 => Err(NotLevels)
z=R/0/1 => Err(NotLevels)
z=r2/0/1 => Err(NotLevels)
z= R2/0/1 => Err(NotLevels)
z=R => Err(NotLevels)
z=R 1 => Err(NotLevels)
# levels that are had
levels=10 => 10
levels=0/20 => 0 10 15 20
levels=20,0 => 0 20
levels=R3/0/10 => 0 10 20
levels=R1/10/5 => 10
# times that are had
times=2024-01-01T00:00:00Z => 1704067200
times=2024-01-01T00:00:00Z/2024-01-01T01:00:00Z => 1704067200 1704070800
times=2024-01-01T00:00:00Z/.. => 1704067200 1704070800 1704070801
times=../2024-01-01T01:00:00Z => 1704067199 1704067200 1704070800
times=../.. => 1704067199 1704067200 1704070800 1704070801
# distances
distance=5 m => 5
distance=5. M => 5
distance=005.000 m => 5
distance=0 km => 0
distance=0.1 km => 100
distance=1.5 Km => 1500
distance=1.234 kM => 1234
distance=1.23400 km => 1234
distance=400000 km => 400000000
distance=400000000.0 m => 400000000
distance=00000000000000000000000000000001 m => 1
distance=.5 km => none
distance=5.1 m => none
distance=1.2345 km => none
distance=1.0001 km => none
distance=400000.001 km => none
distance=400000001 m => none
distance=99999999999999999999999999999999 m => none
distance=+5 m => none
distance=-5 m => none
distance=5e3 m => none
distance=5,0 m => none
distance=1.2.3 km => none
distance=. m => none
distance=5 mi => none
distance=5 mm => none
distance=5 k => none
";

// Whether a number is one of some words.
fn is_among(number: i64, words: &str) -> bool {
    for word in words.split(' ') {
        if word.parse::<i64>() == Ok(number) {
            return true;
        }
    }
    false
}

// Whether of some levels these are had.
fn has_levels(levels: &Levels, had: &str) -> bool {
    let mut whole = true;
    for level in [-1, 0, 10, 15, 20, 30] {
        whole = levels.has(level) == is_among(level, had) && whole;
    }
    whole
}

// Whether of some times these are had.
fn has_times(times: &Times, had: &str) -> bool {
    let mut whole = true;
    for time in [1_704_067_199, 1_704_067_200, 1_704_070_800, 1_704_070_801] {
        whole = times.has(time) == is_among(time, had) && whole;
    }
    whole
}

fn are_levels(alloc: Global, text: &str, had: &str) -> bool {
    match read_levels(alloc, text.as_bytes()) {
        Ok(levels) => has_levels(&levels, had),
        Err(_) => false,
    }
}

fn are_times(text: &str, had: &str) -> bool {
    match read_times(text.as_bytes()) {
        Some(times) => has_times(&times, had),
        None => false,
    }
}

// Whether an instant is this time, and is written back as it is.
fn is_written(text: &str, time: &str) -> bool {
    match read_instant(text.as_bytes()) {
        Some(read) => is_among(read, time) && write_instant(read).as_slice() == text.as_bytes(),
        None => false,
    }
}

// Whether a number and a unit are so many metres.
fn is_distance(text: &str, answer: &str) -> bool {
    match text.split_once(' ') {
        Some((number, unit)) => {
            read_distance(number.as_bytes(), unit.as_bytes()) == answer.parse::<i64>().ok()
        }
        None => false,
    }
}

/// Whether this is the answer to what is asked, with its name before it.
pub fn is_answered(alloc: Global, asked: &str, answer: &str) -> bool {
    let (name, text) = asked.split_once('=').unwrap_or((asked, ""));
    match name {
        "nearest" | "place_of" | "range" => is_found(alloc, name, text, answer),
        "written" => is_written(text, answer),
        "instant" => is_shown(alloc, &read_instant(text.as_bytes()), answer),
        "datetime" => is_shown(alloc, &read_times(text.as_bytes()), answer),
        "times" => are_times(text, answer),
        "levels" => are_levels(alloc, text, answer),
        "distance" => is_distance(text, answer),
        _ => is_shown(alloc, &read_levels(alloc, text.as_bytes()), answer),
    }
}

#[test]
fn places_times_levels_and_distances(rt: HostRuntime) {
    are_right(&rt, rt.alloc(), Cases::Axes, TABLE);
}
