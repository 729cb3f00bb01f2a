//! Blocks that are numbered and opened.
ghost use Rattle.std.specs.Prelude.{◌≡◌};
ghost use Rattle.edr_axes.specs.Axes.{axis_length};

use crate::station_words::{sample_at, stations_of};
use edr_chunk::Reads;
use edr_station::{Station, Stations};
use std::alloc::Global;
use std::rt::HostRuntime;

// One value less than a block, a block, one more, and two levels at each time.
const SERIES: &str = "a@1,0:255 b@2,0:256 c@3,0:257 d@4,0:200x2";

// The places of a station, a parameter, a time and a level, and the number of their block.
const PLACES: &str = "\
0 0 0 0 => 0
0 0 254 0 => 0
0 1 0 0 => 1
0 1 254 0 => 1
1 0 0 0 => 2
1 0 255 0 => 2
1 1 255 0 => 3
2 0 0 0 => 4
2 0 255 0 => 4
2 0 256 0 => 5
2 1 255 0 => 6
2 1 256 0 => 7
3 0 0 1 => 8
3 0 127 1 => 8
3 0 128 0 => 9
3 0 199 1 => 9
3 1 127 1 => 10
3 1 128 0 => 11
";

// The numbers of blocks in their order, and whose values each has: the x of the station, the parameter, the first place in
// the order t, z, and how many.
const BLOCKS: &str = "\
0 => 1 0 0 255
1 => 1 1 0 255
2 => 2 0 0 256
3 => 2 1 0 256
4 => 3 0 0 256
5 => 3 0 256 1
6 => 3 1 0 256
7 => 3 1 256 1
8 => 4 0 0 256
9 => 4 0 256 144
10 => 4 1 0 256
11 => 4 1 256 144
";

// Four numbers with blanks between.
#[derive(Clone, Copy)]
struct Four {
    first: u32,
    second: u32,
    third: u32,
    fourth: u32,
}

fn four_of(text: &str) -> Option<Four> {
    let (front, back) = text.split_once(' ')?;
    let (second, back) = back.split_once(' ')?;
    let (third, fourth) = back.split_once(' ')?;
    Some(Four {
        first: front.parse::<u32>().ok()?,
        second: second.parse::<u32>().ok()?,
        third: third.parse::<u32>().ok()?,
        fourth: fourth.parse::<u32>().ok()?,
    })
}

// How many levels a station has, and 1 where it has none.
fn levels_in(station: &Station) -> usize
    ensures { result ≡ axis_length station.now.zs }
{
    match station.levels() {
        Some(levels) => levels.len(),
        None => 1,
    }
}

// Whether the block of a station, a parameter, a time and a level has this number.
fn is_numbered(stations: &Stations, place: &Four, number: u64) -> bool {
    let (at, parameter) = (place.first as usize, place.second as usize);
    if at >= stations.len() || parameter >= stations.parameters() {
        return false;
    }
    let station = stations.station(at);
    let (time, level) = (place.third as usize, place.fourth as usize);
    if time >= station.times().len() || level >= levels_in(station) {
        return false;
    }
    stations.block_of(at, parameter, time, level) == number
}

// Whether these are so many values of a parameter of a station, from a place on.
fn are_values(values: &[Option<i64>], asked: &Four) -> bool {
    let mut whole = values.len() == asked.fourth as usize;
    let mut place = asked.third;
    for value in values {
        whole = *value == sample_at(asked.first as i64, asked.second, place) && whole;
        place = place.saturating_add(1);
    }
    whole
}

// Whether a block has these values, and its number is noted.
fn is_opened(
    alloc: Global,
    stations: &Stations,
    reads: &mut Reads,
    number: u64,
    asked: &Four,
) -> bool {
    if number >= stations.blocks() {
        return false;
    }
    match stations.open_block(alloc, number, reads) {
        Ok(values) => are_values(&values, asked) && reads.numbers().last() == Some(&number),
        Err(_) => false,
    }
}

// Whether all places have these numbers.
fn are_numbered(stations: &Stations, lines: &str) -> bool {
    let mut whole = true;
    for line in lines.lines() {
        let (words, number) = line.split_once(" => ").unwrap_or((line, ""));
        whole = match (four_of(words), number.parse::<u64>()) {
            (Some(place), Ok(number)) => is_numbered(stations, &place, number),
            _ => false,
        } && whole;
    }
    whole
}

// Whether all blocks have these values.
fn are_opened(alloc: Global, stations: &Stations, reads: &mut Reads, lines: &str) -> bool {
    let mut whole = true;
    for line in lines.lines() {
        let (number, words) = line.split_once(" => ").unwrap_or((line, ""));
        whole = match (number.parse::<u64>(), four_of(words)) {
            (Ok(number), Some(asked)) => is_opened(alloc, stations, reads, number, &asked),
            _ => false,
        } && whole;
    }
    whole
}

fn have_blocks(alloc: Global, stations: &Stations) -> bool {
    let mut reads = Reads::new(alloc);
    stations.blocks() == 12
        && are_numbered(stations, PLACES)
        && are_opened(alloc, stations, &mut reads, BLOCKS)
        && reads.numbers() == [0u64, 1, 2, 3, 4, 5, 6, 7, 8, 9, 10, 11].as_slice()
}

fn is_filled(alloc: Global, words: &str) -> bool {
    match stations_of(alloc, words) {
        Some(stations) => have_blocks(alloc, &stations),
        None => false,
    }
}

#[test]
fn blocks_are_numbered_and_opened(rt: HostRuntime) {
    assert!(rt; is_filled(rt.alloc(), SERIES));
}
