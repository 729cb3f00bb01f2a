//! Stations that are set, found, taken out, shared, inside boxes, and made of inputs.
ghost use Rattle.std.specs.Prelude.{IfSome, All};
ghost use Rattle.edr_station.specs.Inputs.{IsInput};

use crate::station_words::{are_stations, input_of, is_station, is_word_set, stations_of};
use edr_base::{Spot, Text};
use edr_station::{StationFault, StationInput, Stations};
use std::alloc::{AllocError, Global};
use std::rt::HostRuntime;

// Stations and a change. A word is set: then these are the stations, and a copy stays as it was. An id is taken out: it has
// this place, and these are left.
const CHANGES: &str = "\
s10@1,0 s2@2,0/s1@3,0 => s1@3,0 s10@1,0 s2@2,0
s10@1,0 s2@2,0/s100@3,0 => s10@1,0 s100@3,0 s2@2,0
s10@1,0 s2@2,0/s3@3,0 => s10@1,0 s2@2,0 s3@3,0
s10@1,0 s2@2,0/s10@3,4:3 => s10@3,4:3 s2@2,0
s10@1,0 s2@2,0/s2@3,4:2x3 => s10@1,0 s2@3,4:2x3
a@1,0/a@2,0 => a@2,0
a@1,0:3x2 b@2,0:3x2/c@3,0:3x2 => a@1,0:3x2 b@2,0:3x2 c@3,0:3x2
a@1,0:3x2 c@2,0:3x2/b@3,0:3 => a@1,0:3x2 b@3,0:3 c@2,0:3x2
a@1,0:3x2 c@2,0:3x2/b@3,0:3x3 => a@1,0:3x2 b@3,0:3x3 c@2,0:3x2
a@1,0:3x2 c@2,0:3x2/b@3,0:2x2 => a@1,0:3x2 b@3,0:2x2 c@2,0:3x2
a@5,5 b@5,5/c@5,5 => a@5,5 b@5,5 c@5,5
s2@2,0 s10@1,0/s10 => 0 s2@2,0
s2@2,0 s10@1,0/s2 => 1 s10@1,0
s2@2,0 s10@1,0/s1 => none s10@1,0 s2@2,0
s2@2,0 s10@1,0/s100 => none s10@1,0 s2@2,0
s2@2,0 s10@1,0/s3 => none s10@1,0 s2@2,0
s2@2,0 s10@1,0/ => none s10@1,0 s2@2,0
s2@2,0 s10@1,0 s2@3,4:2/s10 => 0 s2@3,4:2
a@1,0/a => 0 -
a@1,0/b => none a@1,0
/a => none -
h@1,0 g@2,0 f@3,0 e@4,0 d@5,0 c@6,0 b@7,0 a@8,0/d => 3 a@8,0 b@7,0 c@6,0 e@4,0 f@3,0 g@2,0 h@1,0
é@1,0 z@2,0 Z@3,0/z => 1 Z@3,0 é@1,0
";

fn takes_out(alloc: Global, stations: &mut Stations, id: &str, was: bool) -> bool {
    match stations.take_out(alloc, id.as_bytes()) {
        Ok(done) => done == was,
        Err(_) => false,
    }
}

// Whether an id has this place and is taken out, and not of a copy.
fn is_taken_out(alloc: Global, stations: &mut Stations, id: &str, answer: &str) -> bool {
    let (number, left) = answer.split_once(' ').unwrap_or((answer, ""));
    let place = number.parse::<usize>().ok();
    match stations.share() {
        Ok(copy) => {
            stations.by_id(id.as_bytes()) == place
                && takes_out(alloc, stations, id, place.is_some())
                && are_stations(stations, left)
                && copy.by_id(id.as_bytes()) == place
        }
        Err(_) => false,
    }
}

// Whether these are the stations once another one is set, and a copy stays as it was.
fn is_changed(
    alloc: Global,
    stations: &mut Stations,
    words: &str,
    text: &str,
    answer: &str,
) -> bool {
    match stations.share() {
        Ok(copy) => {
            is_word_set(alloc, stations, text, text)
                && are_stations(stations, answer)
                && are_stations(&copy, words)
        }
        Err(_) => false,
    }
}

fn is_change(alloc: Global, words: &str, asked: &str, answer: &str) -> bool {
    match stations_of(alloc, words) {
        Some(mut stations) => {
            if asked.contains('@') {
                is_changed(alloc, &mut stations, words, asked, answer)
            } else {
                is_taken_out(alloc, &mut stations, asked, answer)
            }
        }
        None => false,
    }
}

// Stations in a square and about it.
const SPOTS: &str = "a@0,0 b@10,0 c@10,10 d@0,10 e@5,5 f@5,5 g@11,5 h@5,-1 i@-100000000,100000000";

// The stations, the corners of a box, and the places of the stations inside.
const BOXES: &str = "\
spots/0,0 10,10 => 0 1 2 3 4 5
spots/1,1 9,9 => 4 5
spots/5,5 5,5 => 4 5
spots/10,0 11,10 => 1 2 6
spots/5,-1 5,5 => 4 5 7
spots/0,0 0,10 => 0 3
spots/11,6 12,7 => -
spots/6,5 5,5 => -
spots/5,6 5,5 => -
spots/-100000000,-100000000 100000000,100000000 => 0 1 2 3 4 5 6 7 8
spots/-100000000,100000000 -100000000,100000000 => 8
spots/-100000000,99999999 -99999999,99999999 => -
/-100000000,-100000000 100000000,100000000 => -
";

// Whether these are the numbers; `-` is none.
fn are_numbers(numbers: &[usize], words: &str) -> bool {
    let mut place = 0;
    for word in words.split(' ') {
        if word != "-" {
            if place >= numbers.len() || word.parse::<usize>() != Ok(numbers[place]) {
                return false;
            }
            place += 1;
        }
    }
    place == numbers.len()
}

fn spot_of(text: &str) -> Option<Spot> {
    let (x, y) = text.split_once(',')?;
    Some(Spot {
        x: x.parse::<i64>().ok()?,
        y: y.parse::<i64>().ok()?,
    })
}

fn are_inside(alloc: Global, stations: &Stations, lo: Spot, hi: Spot, places: &str) -> bool {
    match stations.in_box(alloc, lo, hi) {
        Ok(found) => are_numbers(&found, places),
        Err(_) => false,
    }
}

fn is_boxed(alloc: Global, words: &str, corners: &str, places: &str) -> bool {
    let (first, second) = corners.split_once(' ').unwrap_or((corners, ""));
    let words = if words == "spots" { SPOTS } else { words };
    match (stations_of(alloc, words), spot_of(first), spot_of(second)) {
        (Some(stations), Some(lo), Some(hi)) => are_inside(alloc, &stations, lo, hi, places),
        _ => false,
    }
}

// Inputs, and the stations in their order or the first fault.
const INPUTS: &str = "\
/ => -
s2@1,0 s10@2,0:3x2/ => s10@2,0:3x2 s2@1,0
a@5,5 b@5,5/ => a@5,5 b@5,5
a@1,0 a@2,0/ => SameId a
b@1,0 b@2,0 a@3,0 a@4,0/ => SameId a
s2@1,0 s10@2,0 s2@3,0 s10@4,0/ => SameId s10
c@1,0 a@2,0 b@3,0 c@4,0/ => SameId c
a@1,0:2=1,2 b@2,0 b@3,0/ => SameId b
b@1,0:2=1,2 b@2,0:2=1,2/ => SameId b
a@1,0:2=2/ => WrongCount a
a@1,0:2=2,2,2/ => WrongCount a
a@1,0:2=2,1/ => WrongCount a
a@1,0:2=3,2/ => WrongCount a
a@1,0:2x3=6,5/ => WrongCount a
a@1,0:2x3=6,6/ => a@1,0:2x3
b@1,0:2=1,2 c@2,0 a@3,0:2=2,1/ => WrongCount a
s2@1,0:2=2 s10@2,0:2=2 s3@3,0/ => WrongCount s10
";

fn inputs_of(alloc: Global, words: &str) -> Option<Vec<StationInput>>
    ensures { IfSome result (λ inputs. All IsInput inputs.items) }
{
    let mut inputs = Vec::new(alloc);
    for text in words.split(' ') {
        if !text.is_empty() {
            inputs.push(input_of(alloc, text, text)?).ok()?;
        }
    }
    Some(inputs)
}

fn ends_with_id(answer: &str, name: &str, id: &Text) -> bool {
    match answer.strip_prefix(name) {
        Some(text) => text.as_bytes() == id.bytes(),
        None => false,
    }
}

fn is_fault(fault: &StationFault, answer: &str) -> bool {
    match fault {
        StationFault::SameId(id) => ends_with_id(answer, "SameId ", id),
        StationFault::WrongCount(id) => ends_with_id(answer, "WrongCount ", id),
        StationFault::OutOfMemory => false,
    }
}

fn are_made(alloc: Global, inputs: Vec<StationInput>, answer: &str) -> bool
    requires { All IsInput inputs.items }
{
    match Stations::of(alloc, 2, inputs) {
        Ok(stations) => are_stations(&stations, answer),
        Err(fault) => is_fault(&fault, answer),
    }
}

fn is_made(alloc: Global, words: &str, answer: &str) -> bool {
    match inputs_of(alloc, words) {
        Some(inputs) => are_made(alloc, inputs, answer),
        None => false,
    }
}

#[derive(Clone, Copy)]
enum Table {
    Changes,
    Boxes,
    Inputs,
}

fn is_right(alloc: Global, table: Table, words: &str, asked: &str, answer: &str) -> bool {
    match table {
        Table::Changes => is_change(alloc, words, asked, answer),
        Table::Boxes => is_boxed(alloc, words, asked, answer),
        Table::Inputs => is_made(alloc, words, answer),
    }
}

// The first line of a table that isn't right; none is empty.
fn first_wrong(alloc: Global, table: Table, lines: &str) -> &str {
    for line in lines.lines() {
        let (before, answer) = line.split_once(" => ").unwrap_or((line, ""));
        let (words, asked) = before.split_once('/').unwrap_or((before, ""));
        if !is_right(alloc, table, words, asked, answer) {
            return line;
        }
    }
    ""
}

#[test]
fn stations_are_changed_found_and_made(rt: HostRuntime) {
    assert_eq!(rt; first_wrong(rt.alloc(), Table::Changes, CHANGES), "");
    assert_eq!(rt; first_wrong(rt.alloc(), Table::Boxes, BOXES), "");
    assert_eq!(rt; first_wrong(rt.alloc(), Table::Inputs, INPUTS), "");
}

// A line for each label; the first one is empty.
const LABELS: &str = "
Zugspitze
Höhe, \"Süd\" \\ 50 %\t=> ~
山 🏔 é
\0 \x1f \x7f
";

fn has_label(stations: &Stations, label: &str) -> bool {
    if stations.len() != 1 {
        return false;
    }
    let station = stations.station(0);
    station.label() == label.as_bytes() && is_station(station, "a@1,-2:3x2")
}

// Whether a station keeps a label.
fn is_labelled(alloc: Global, label: &str) -> bool {
    let mut stations = Stations::new(2);
    is_word_set(alloc, &mut stations, "a@1,-2:3x2", label) && has_label(&stations, label)
}

// The first line that isn't kept, or `none`.
fn first_lost(alloc: Global, lines: &str) -> &str {
    for line in lines.lines() {
        if !is_labelled(alloc, line) {
            return line;
        }
    }
    "none"
}

#[test]
fn labels_are_kept(rt: HostRuntime) {
    assert_eq!(rt; first_lost(rt.alloc(), LABELS), "none");
}

// The word of a station of a number of three digits, so that ids stand in the order of their numbers.
fn numbered(alloc: Global, number: u32) -> Result<String, AllocError> {
    format!(in alloc; "n{number:03}@{number},0")
}

// Stations of all numbers below 1,000, set in another order.
fn thousand(alloc: Global) -> Option<Stations> {
    let mut stations = Stations::new(2);
    for step in 0..1000u32 {
        let text = numbered(alloc, step * 367 % 1000).ok()?;
        if !is_word_set(alloc, &mut stations, text.as_str(), "") {
            return None;
        }
    }
    Some(stations)
}

// Whether the station of a word has this place.
fn stands_at(stations: &Stations, text: &str, place: usize) -> bool {
    let (id, _) = text.split_once('@').unwrap_or((text, ""));
    place < stations.len()
        && stations.by_id(id.as_bytes()) == Some(place)
        && is_station(stations.station(place), text)
}

fn are_thousand(alloc: Global, stations: &Stations) -> bool {
    let mut whole = stations.len() == 1000 && stations.blocks() == 2000;
    for number in 0..1000u32 {
        whole = match numbered(alloc, number) {
            Ok(text) => stands_at(stations, text.as_str(), number as usize),
            Err(_) => false,
        } && whole;
    }
    whole
}

// Whether all are taken out, in another order.
fn are_taken_out(alloc: Global, stations: &mut Stations) -> bool {
    let mut whole = true;
    for step in 0..1000u32 {
        whole = match numbered(alloc, step * 619 % 1000) {
            Ok(text) => {
                let (id, _) = text.as_str().split_once('@').unwrap_or(("", ""));
                takes_out(alloc, stations, id, true)
            }
            Err(_) => false,
        } && whole;
    }
    whole && stations.len() == 0 && stations.blocks() == 0
}

// Whether 1,000 stations are set and taken out, and a copy keeps them.
fn come_and_go(alloc: Global) -> bool {
    let Some(mut stations) = thousand(alloc) else {
        return false;
    };
    match stations.share() {
        Ok(copy) => {
            are_thousand(alloc, &stations)
                && are_taken_out(alloc, &mut stations)
                && are_thousand(alloc, &copy)
        }
        Err(_) => false,
    }
}

#[test]
fn a_thousand_stations_come_and_go(rt: HostRuntime) {
    assert!(rt; come_and_go(rt.alloc()));
}
