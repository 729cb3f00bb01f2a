//! What serving through doors comes to.

use crate::doors::{Doors, DoorsAsked};
use crate::test_coming::{CONFORMANCE, Wanted, doors_of, replies};
use crate::test_doors::MemoryDoors;
use crate::test_gate::TurnsGate;
use crate::test_serving::{Outcome, serve_feed};
use crate::test_texts::three_grids;
use edr_base::OutOfMemory;
use edr_console::{ENDLESS, WORKER_LIMIT};
use std::alloc::Global;
use std::rt::HostRuntime;
use std::sync::Wait;
use std::thread::Threads;

// A line for each row of doors over a feed of three editions, and how often the gate says true: how many sessions, faults of
// sessions, accepts that failed and publishes there are, the last edition, and how many connections are answered whole. Each
// word is a door with a letter for each accept: `c` is a connection, `x` an accept that fails, and a digit a connection whose
// sink fails at that call. A reply takes four writes and a flush.
const DOORS: &str = "\
cc 0 => 2 0 0 0 1 2
c 1 => 1 0 0 1 2 1
c 2 => 1 0 0 2 3 1
c 9 => 1 0 0 2 3 1
xcc 0 => 0 0 1 0 1 0
cxc 0 => 1 0 1 0 1 1
ccx 0 => 2 0 1 0 1 2
1c 0 => 2 1 0 0 1 1
2c 0 => 2 1 0 0 1 1
3c 0 => 2 1 0 0 1 1
4c 0 => 2 1 0 0 1 1
5c 0 => 2 1 0 0 1 2
6c 0 => 2 0 0 0 1 2
c1 1 => 2 1 0 1 2 1
11 0 => 2 2 0 0 1 0
cc ccc 2 => 5 0 0 2 3 5
x xcc 9 => 0 0 2 2 3 0
x 1c cx cccc 1 => 7 1 2 1 2 6
c c c c c c c c c c c c c c c c c c c c c c c c c c c c c c c c c c c c c c c c c c c c c c c c c c c c c c c c c c c c c c c c 2 => 64 0 0 2 3 64
";

// What serving through the doors of a row comes to, as a line.
fn served_as<R: Threads + Wait + Sync>(
    rt: &R,
    alloc: Global,
    row: &str,
) -> Result<String, OutOfMemory> {
    let (row, turns) = row.rsplit_once(' ').unwrap_or((row, "0"));
    let coming = doors_of(alloc, CONFORMANCE, row)?;
    let count = coming.len();
    if count == 0 || count > WORKER_LIMIT as usize {
        return Err(OutOfMemory);
    }
    let mut doors = MemoryDoors::of(alloc, coming, false);
    let asked = DoorsAsked {
        port: 0,
        count,
        connections: ENDLESS,
        idle: 30,
    };
    let Ok(open) = doors.open(alloc, asked) else {
        return Err(OutOfMemory);
    };
    let gate = TurnsGate::of(turns.parse().unwrap_or(0));
    let outcome = serve_feed(rt, alloc, &three_grids(alloc)?, open, gate)?;
    let Outcome {
        sessions,
        session_faults,
        accept_faults,
        published,
        last,
        acceptors,
    } = outcome;
    let answered = replies(&acceptors, Wanted::Conformance(last));
    Ok(format!(in alloc;
        "{sessions} {session_faults} {accept_faults} {published} {last} {answered}"
    )?)
}

// Whether serving through the doors of a row comes to this.
fn is_served<R: Threads + Wait + Sync>(rt: &R, alloc: Global, row: &str, wanted: &str) -> bool {
    match served_as(rt, alloc, row) {
        Ok(line) => line.as_str() == wanted,
        Err(OutOfMemory) => false,
    }
}

// The first line of DOORS that isn't so; none is empty.
fn first_wrong_doors<R: Threads + Wait + Sync>(rt: &R, alloc: Global) -> &'static str {
    for line in DOORS.lines() {
        let (row, wanted) = line.split_once(" => ").unwrap_or((line, ""));
        if !is_served(rt, alloc, row, wanted) {
            return line;
        }
    }
    ""
}

#[test]
fn connections_are_served_beside_publishes(rt: HostRuntime) {
    assert_eq!(rt; first_wrong_doors(&rt, rt.alloc()), "");
}
