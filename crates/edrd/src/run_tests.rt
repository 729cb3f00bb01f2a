//! How whole runs end.

use crate::running::edrd_run;
use crate::test_coming::{Wanted, doors_of, replies};
use crate::test_doors::MemoryDoors;
use crate::test_gate::TurnsGate;
use crate::test_texts::{GRID, three_grids};
use crate::word_tests::words_of;
use edr_base::{MemoryFiles, MemorySink, OutOfMemory};
use edr_share::Places;
use std::alloc::Global;
use std::rt::HostRuntime;
use std::sync::Wait;
use std::thread::Threads;

// A request for a position, as a usual client sends it.
const POSITION: &[u8] =
    b"GET /collections/grid/position?coords=POINT(50%200)&datetime=2024-01-01T00:00:00.000Z&parameter-name=temp&crs=http://www.opengis.net/def/crs/EPSG/0/32633&f=CoverageJSON HTTP/1.1\r\nHost: localhost:8080\r\nUser-Agent: curl/8.5.0\r\nAccept: */*\r\n\r\n";

// A line for each row of words, between bars, behind what is wrong or special: the status, the pause of the gate, how many doors
// were closed, how many connections were answered, the errors, and the standard output, whose line feeds are `;`. `bind` are
// doors that refuse to open, `told` is the first write of the errors, `said` that of the standard output, `peer` a connection
// whose reply can't be sent, `turns` a gate that lets all editions pass and doors through which nothing comes, and a number that
// call of the files. Else two connections come through the first door, and one through the second, and the gate lets none pass. A reply to the last
// request that a connection may have is another one.
const RUNS: &str = "\
nothing => 1 0 0 0 usage: edrd FEED --port P [--workers W] [--every S] [--connections C] [--idle I] [--requests R] [--last];
nothing feed => 1 0 0 0 usage: edrd FEED --port P [--workers W] [--every S] [--connections C] [--idle I] [--requests R] [--last];
nothing feed|--port|0|--workers|65 => 1 0 0 0 usage: edrd FEED --port P [--workers W] [--every S] [--connections C] [--idle I] [--requests R] [--last];
nothing ?|--port|0 => 1 0 0 0 usage: edrd FEED --port P [--workers W] [--every S] [--connections C] [--idle I] [--requests R] [--last];
told feed => 1 0 0 0 
nothing feed|--port|0|--workers|1 => 0 60 1 2 listening on 127.0.0.1:50000;edition 1;connections 2, faults 0;
nothing feed|--port|8080|--every|5 => 0 5 2 3 listening on 127.0.0.1:8080;edition 1;connections 3, faults 0;
nothing feed|--port|0|--requests|1 => 0 60 2 0 listening on 127.0.0.1:50000;edition 1;connections 3, faults 0;
nothing feed|--port|0|--requests|2 => 0 60 2 3 listening on 127.0.0.1:50000;edition 1;connections 3, faults 0;
nothing three|--port|0|--every|0 => 0 0 2 3 listening on 127.0.0.1:50000;edition 1;connections 3, faults 0;
turns three|--port|0 => 0 60 2 0 listening on 127.0.0.1:50000;edition 1;edition 2;edition 3;connections 0, faults 0;
turns three|--port|0|--last => 0 60 2 0 listening on 127.0.0.1:50000;edition 3;connections 0, faults 0;
nothing feed|--last|--port|0 => 0 60 2 3 listening on 127.0.0.1:50000;edition 1;connections 3, faults 0;
turns behind|--port|0 => 0 60 2 0 listening on 127.0.0.1:50000;feed: 2 lines after the last publish;edition 1;edition 2;connections 0, faults 0;
turns behind|--port|0|--last => 0 60 2 0 listening on 127.0.0.1:50000;feed: 2 lines after the last publish;edition 2;connections 0, faults 0;
nothing --version => 0 0 0 0 edrd 1.0.0;
said --version => 0 0 0 0 
peer feed|--port|0 => 0 60 2 2 listening on 127.0.0.1:50000;edition 1;connections 3, faults 1;
said feed|--port|0 => 0 60 2 3 edition 1;connections 3, faults 0;
nothing feed|--port|0|--workers|3|--connections|1 => 0 60 3 2 listening on 127.0.0.1:50000;edition 1;connections 2, faults 0;
nothing feed|--port|0|--workers|3|--connections|0 => 0 60 3 3 listening on 127.0.0.1:50000;edition 1;connections 3, faults 0;
nothing feed|--port|0|--workers|64|--connections|1 => 0 60 64 2 listening on 127.0.0.1:50000;edition 1;connections 2, faults 0;
nothing feed|--port|0|--workers|64|--connections|1000000 => 0 60 64 3 listening on 127.0.0.1:50000;edition 1;connections 3, faults 0;
nothing other|--port|0 => 9 0 0 0 open fault;open fault other;
1 feed|--port|0 => 9 0 0 0 open fault;open fault feed;
2 feed|--port|0 => 3 0 0 0 read fault;
3 feed|--port|0 => 3 0 0 0 read fault;
4 feed|--port|0 => 0 60 2 3 listening on 127.0.0.1:50000;edition 1;connections 3, faults 0;
nothing broken|--port|0 => 2 0 0 0 feed: NotJson line 2;
nothing empty|--port|0 => 2 0 0 0 feed: NothingPublished;
bind feed|--port|8080|--every|5 => 10 5 0 0 bind fault;bind fault 8080;
bind broken|--port|0 => 2 0 0 0 feed: NotJson line 2;
nothing --help => 0 0 0 0 usage: edrd FEED --port P [--workers W] [--every S] [--connections C] [--idle I] [--requests R] [--last];  --port P         the port of 127.0.0.1, 0 to 65535; 0 lets the system choose one;  --workers W      connections that are served at once, 1 to 64; else 2;  --every S        seconds before each further edition is served, 0 to 86400; else 60;  --connections C  connections that each worker serves, up to 1000000; else 0, no end of them;  --idle I         seconds that a connection may be idle, 1 to 86400; else 30;  --requests R     requests that a connection may have, 1 to 1000; else 100;  --last           serves the last edition of the feed from the start;  --help           writes these lines, where it stands alone;  --version        writes the version, where it stands alone;
";

// A file of a name.
fn file(alloc: Global, name: &[u8], content: &[u8]) -> Result<(Vec<u8>, Vec<u8>), OutOfMemory> {
    Ok((
        Vec::from_slice(alloc, name)?,
        Vec::from_slice(alloc, content)?,
    ))
}

// Lines behind the last publish, a blank one between them.
const BEHIND: &[u8] =
    b"\n{\"publish\":{}}\n{\"collection\":{\"id\":\"a\",\"kind\":\"grid\",\"title\":\"A\",\"crs\":\"http://www.opengis.net/def/crs/EPSG/0/32633\"}}\n \n{\"drop\":{\"collection\":\"a\"}}\n";

// A feed, one of three editions, one that is broken in its second, one with lines behind its last publish, and an empty file.
fn files(alloc: Global) -> Result<Vec<(Vec<u8>, Vec<u8>)>, OutOfMemory> {
    let mut broken = Vec::from_slice(alloc, GRID)?;
    broken.extend_from_slice(b"\n{\"type\":\"Coverage\",")?;
    let mut files = Vec::new(alloc);
    files.push(file(alloc, b"feed", GRID)?)?;
    files.push(file(alloc, b"three", &three_grids(alloc)?)?)?;
    files.push(file(alloc, b"broken", &broken)?)?;
    let mut behind = Vec::from_slice(alloc, GRID)?;
    behind.extend_from_slice(BEHIND)?;
    files.push(file(alloc, b"behind", &behind)?)?;
    files.push(file(alloc, b"empty", b"")?)?;
    Ok(files)
}

// The one call that fails, or none.
fn failing(alloc: Global, call: Option<u64>) -> Result<Vec<u64>, OutOfMemory> {
    let mut calls = Vec::new(alloc);
    if let Some(call) = call {
        calls.push(call)?;
    }
    Ok(calls)
}

// What was written, with `;` for each line feed.
fn lines_in(alloc: Global, sink: &MemorySink) -> Result<String, OutOfMemory> {
    let mut lines = String::new(alloc);
    for line in str::from_utf8(sink.written()).unwrap_or("").lines() {
        lines.push_str(line)?;
        lines.push_str(";")?;
    }
    Ok(lines)
}

// What comes through the doors of a row.
fn coming_of(wrong: &str) -> &str {
    match wrong {
        "turns" => "",
        "peer" => "1c c",
        _ => "cc c",
    }
}

// What a run comes to, as a line.
fn run_as<R: Threads + Wait + Sync>(
    rt: &R,
    alloc: Global,
    wrong: &str,
    row: &str,
) -> Result<String, OutOfMemory> {
    let words = words_of(alloc, row)?;
    let coming = doors_of(alloc, POSITION, coming_of(wrong))?;
    let mut doors = MemoryDoors::of(alloc, coming, wrong == "bind");
    let calls = failing(alloc, wrong.parse().ok())?;
    let mut files = MemoryFiles::of(alloc, files(alloc)?, 4096, calls);
    let mut places = Places::new();
    let writes = failing(alloc, (wrong == "told").then_some(1))?;
    let mut errors = MemorySink::of(alloc, 4096, writes);
    let writes = failing(alloc, (wrong == "said").then_some(1))?;
    let mut output = MemorySink::of(alloc, 4096, writes);
    let (status, gate) = edrd_run(
        rt,
        alloc,
        &words,
        &mut files,
        &mut doors,
        &mut places,
        TurnsGate::of(if wrong == "turns" { 9 } else { 0 }),
        &mut output,
        &mut errors,
    );
    let Some(gate) = gate else {
        return Err(OutOfMemory);
    };
    let seconds = gate.seconds();
    let closed = doors.back().len();
    let answered = replies(doors.back(), Wanted::Value);
    let told = lines_in(alloc, &errors)?;
    let said = lines_in(alloc, &output)?;
    Ok(format!(in alloc; "{status} {seconds} {closed} {answered} {told}{said}")?)
}

// Whether a run comes to this.
fn is_run<R: Threads + Wait + Sync>(rt: &R, alloc: Global, row: &str, wanted: &str) -> bool {
    let (wrong, row) = row.split_once(' ').unwrap_or((row, ""));
    match run_as(rt, alloc, wrong, row) {
        Ok(line) => line.as_str() == wanted,
        Err(OutOfMemory) => false,
    }
}

// The first line of RUNS that isn't so; none is empty.
fn first_wrong_run<R: Threads + Wait + Sync>(rt: &R, alloc: Global) -> &'static str {
    for line in RUNS.lines() {
        let (row, wanted) = line.split_once(" => ").unwrap_or((line, ""));
        if !is_run(rt, alloc, row, wanted) {
            return line;
        }
    }
    ""
}

#[test]
fn runs_end_as_they_have_to(rt: HostRuntime) {
    assert_eq!(rt; first_wrong_run(&rt, rt.alloc()), "");
}
