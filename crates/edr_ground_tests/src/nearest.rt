//! The nearest station, and the cells whose stations were looked at.
ghost use Rattle.std.specs.Prelude.{IfSome};
ghost use Rattle.edr_near.specs.Squares.{IsSpot};

use crate::station_words::stations_of;
use crate::words::coordinate;
use edr_base::Spot;
use edr_near::Looks;
use edr_station::Stations;
use std::alloc::Global;
use std::rt::HostRuntime;

// Stations that are set one after another, behind `!` the id of one that is taken out then, and a place; the place of the
// nearest station among those that are left, and the numbers of the cells that were looked at. `-` is none.
const NEAREST: &str = "\
a@0,0 b@100,0/50,0 => 0:0
a@0,0 b@100,0/51,0 => 1:0
a@0,0 b@100,0/49,0 => 0:0
b@0,0 a@100,0/50,0 => 0:0
s2@0,0 s10@0,100/0,50 => 0:0
c@5,5 b@5,5 a@5,5/5,5 => 0:0
c@3,4 b@-3,4 a@4,-3 d@-4,-3/0,0 => 0:0 1 2 3
b@3,4 c@4,3 a@5,1/0,0 => 1:0
a@0,0 b@1000000,0/10,0 => 0:0
a@65534,0 b@65600,0/65535,0 => 0:0 1
b@65534,0 a@65536,0/65535,0 => 0:0 1
a@0,65534 b@0,65537/0,65535 => 0:0 1
a@0,65533 b@0,65537/0,65535 => 0:0 1
a@0,65533 b@0,65536/0,65535 => 1:0 1
a@-1,-1 b@1,1/-1,-1 => 0:0
a@-1,0 b@2,0/0,0 => 0:0 1
a@-65536,0 b@-65537,0/-65537,0 => 1:0
a@-65536,0 b@-65537,0/-65536,0 => 0:1
a@-65535,-65535 b@-1,-1/-65536,-65536 => 0:0
a@-131073,5 b@131072,5/0,5 => 1:1
a@-131072,5 b@131072,5/0,5 => 0:0 1
a@0,0 b@70000,0/100000000,0 => 1:1
a@0,0 b@70000,0/-100000000,0 => 0:0
a@100000000,100000000 b@-100000000,-100000000/0,0 => 0:0 1
a@100000000,-100000000/-100000000,100000000 => 0:0
a@-7,-7/100000000,-100000000 => 0:0
/0,0 => -:-
/-100000000,100000000 => -:-
a@0,0 b@100,0 a@200000,0/0,0 => 1:0
a@0,0 a@200000,0/0,0 => 0:0
a@0,0 a@1,0/0,0 => 0:0
a@0,0 b@200000,0!a/0,0 => 0:0
a@5,5 b@5,5 c@6,6!a/5,5 => 0:0
a@5,5!a/5,5 => -:-
a@5,5!b/5,5 => 0:0
";

fn spot_of(text: &str) -> Option<Spot>
    ensures { IfSome result IsSpot }
{
    let (x, y) = text.split_once(',')?;
    Some(Spot {
        x: coordinate(x)?,
        y: coordinate(y)?,
    })
}

fn is_left_out(alloc: Global, stations: &mut Stations, id: &str) -> bool {
    id.is_empty() || stations.take_out(alloc, id.as_bytes()).is_ok()
}

fn left_of(alloc: Global, words: &str) -> Option<Stations> {
    let (words, id) = words.split_once('!').unwrap_or((words, ""));
    let mut stations = stations_of(alloc, words)?;
    if is_left_out(alloc, &mut stations, id) {
        Some(stations)
    } else {
        None
    }
}

// Whether these are the numbers.
fn are_numbers(numbers: &[u64], words: &str) -> bool {
    let mut place = 0;
    for word in words.split(' ') {
        if word != "-" {
            if place >= numbers.len() || word.parse::<u64>() != Ok(numbers[place]) {
                return false;
            }
            place += 1;
        }
    }
    place == numbers.len()
}

fn is_nearest(alloc: Global, stations: &Stations, spot: Spot, answer: &str) -> bool
    requires { IsSpot spot }
{
    let (place, numbers) = answer.split_once(':').unwrap_or((answer, ""));
    let mut looks = Looks::new(alloc);
    match stations.nearest(alloc, spot, &mut looks) {
        Ok(found) => found == place.parse::<usize>().ok() && are_numbers(looks.numbers(), numbers),
        Err(_) => false,
    }
}

fn is_found(alloc: Global, words: &str, spot: &str, answer: &str) -> bool {
    match (left_of(alloc, words), spot_of(spot)) {
        (Some(stations), Some(spot)) => is_nearest(alloc, &stations, spot, answer),
        _ => false,
    }
}

// The first line that isn't right; none is empty.
fn first_wrong(alloc: Global, lines: &str) -> &str {
    for line in lines.lines() {
        let (before, answer) = line.split_once(" => ").unwrap_or((line, ""));
        let (words, spot) = before.split_once('/').unwrap_or((before, ""));
        if !is_found(alloc, words, spot, answer) {
            return line;
        }
    }
    ""
}

#[test]
fn the_nearest_station_is_found(rt: HostRuntime) {
    assert_eq!(rt; first_wrong(rt.alloc(), NEAREST), "");
}
