//! The feed that is made of a number.
ghost use Rattle.std.specs.Prelude.{◌≡◌, ◌≤◌, ◌<◌, ◌++◌, IfOk, IsErrOf, codes};
ghost use Rattle.edr_base.specs.Outside.{Rose};
ghost use Rattle.edr_base.specs.Calls.{SinkLent, Writes};
ghost use Rattle.edr_make.specs.Made.{grid_text, series_text, station_id, grid_line, station_line, station_lines, made};

use crate::made_heads::{grid_head, series_head};
use crate::made_texts::{write_coverage, write_grid_coverage};
use crate::made_values::series_of;
use edr_base::{OutOfMemory, SendFault, Sink, send};
use std::alloc::Global;

const ROWS: u32 = 500;

const COLUMNS: u32 = 1_040;

const STATIONS: u32 = 40;

const TIMES: u32 = 300;

const GRIDS: &[u8] =
    b"{\"collection\":{\"crs\":\"local\",\"id\":\"grid\",\"kind\":\"grid\",\"title\":\"grid\"}}\n";

const SITES: &[u8] =
    b"{\"collection\":{\"crs\":\"local\",\"id\":\"sites\",\"kind\":\"station\",\"title\":\"sites\"}}\n";

const PUBLISH: &[u8] = b"{\"publish\":{}}\n";

// Writes the coverage of the grid.
fn write_grid<K: Sink>(
    alloc: Global,
    number: u64,
    rows: u32,
    columns: u32,
    sink: &mut K,
) -> Result<(), SendFault>
    requires rows { (0 < rows) × (rows ≤ 1_000_000) }
    requires columns { (0 < columns) × (columns ≤ 1_000_000) }
    ensures text { Writes result (grid_text number rows columns) (K.written sink.old) (K.written sink.new) }
    ensures lent { SinkLent (K.beside sink.old) (K.beside sink.new) (K.faults sink.old) (K.faults sink.new) }
    ensures cause { IsErrOf result SendFault.WriteFault → Rose (K.faults sink.old) (K.faults sink.new) }
{
    let head = grid_head(alloc, rows, columns)?;
    write_grid_coverage(alloc, sink, &head, number, rows, columns)
}

// Writes the line of the grid.
fn write_grid_line<K: Sink>(
    alloc: Global,
    number: u64,
    rows: u32,
    columns: u32,
    sink: &mut K,
) -> Result<(), SendFault>
    requires rows { (0 < rows) × (rows ≤ 1_000_000) }
    requires columns { (0 < columns) × (columns ≤ 1_000_000) }
    ensures text { Writes result (grid_line number rows columns) (K.written sink.old) (K.written sink.new) }
    ensures lent { SinkLent (K.beside sink.old) (K.beside sink.new) (K.faults sink.old) (K.faults sink.new) }
    ensures cause { IsErrOf result SendFault.WriteFault → Rose (K.faults sink.old) (K.faults sink.new) }
{
    send(sink, b"{\"grid\":{\"collection\":\"grid\",\"coverage\":")?;
    write_grid(alloc, number, rows, columns, sink)?;
    send(sink, b",\"instance\":\"1\"}}\n")
}

// Writes the coverage of a station.
fn write_series<K: Sink>(
    alloc: Global,
    number: u64,
    times: u32,
    station: u32,
    sink: &mut K,
) -> Result<(), SendFault>
    requires times { (0 < times) × (times ≤ 1_000_000) }
    requires station { station < 100 }
    ensures text { Writes result (series_text number times station) (K.written sink.old) (K.written sink.new) }
    ensures lent { SinkLent (K.beside sink.old) (K.beside sink.new) (K.faults sink.old) (K.faults sink.new) }
    ensures cause { IsErrOf result SendFault.WriteFault → Rose (K.faults sink.old) (K.faults sink.new) }
{
    let values = series_of(alloc, number, times, station)?;
    let head = series_head(alloc, times, station)?;
    write_coverage(alloc, sink, &head, &values)
}

// What stands behind the coverage of a station in its line.
fn station_end(alloc: Global, station: u32) -> Result<Vec<u8>, OutOfMemory>
    requires { station < 100 }
    ensures { IfOk result (λ text. text.items ≡ codes ",\"id\":\"" ++ station_id station ++ codes "\",\"label\":\"" ++ station_id station ++ codes "\"}}\n") }
{
    let id = [
        b's',
        b'0' + (station / 10) as u8,
        b'0' + (station % 10) as u8,
    ];
    let mut text = Vec::new(alloc);
    text.extend_from_slice(b",\"id\":\"")?;
    text.extend_from_slice(&id)?;
    text.extend_from_slice(b"\",\"label\":\"")?;
    text.extend_from_slice(&id)?;
    text.extend_from_slice(b"\"}}\n")?;
    Ok(text)
}

// Writes the line of a station.
fn write_station<K: Sink>(
    alloc: Global,
    number: u64,
    times: u32,
    station: u32,
    sink: &mut K,
) -> Result<(), SendFault>
    requires times { (0 < times) × (times ≤ 1_000_000) }
    requires station { station < 100 }
    ensures text { Writes result (station_line number times station) (K.written sink.old) (K.written sink.new) }
    ensures lent { SinkLent (K.beside sink.old) (K.beside sink.new) (K.faults sink.old) (K.faults sink.new) }
    ensures cause { IsErrOf result SendFault.WriteFault → Rose (K.faults sink.old) (K.faults sink.new) }
{
    let end = station_end(alloc, station)?;
    send(
        sink,
        b"{\"station\":{\"collection\":\"sites\",\"coverage\":",
    )?;
    write_series(alloc, number, times, station, sink)?;
    send(sink, &end)
}

// Writes the lines of the stations.
fn write_stations<K: Sink>(
    alloc: Global,
    number: u64,
    times: u32,
    stations: u32,
    sink: &mut K,
) -> Result<(), SendFault>
    requires times { (0 < times) × (times ≤ 1_000_000) }
    requires stations { stations ≤ 100 }
    ensures text { Writes result (station_lines number times stations) (K.written sink.old) (K.written sink.new) }
    ensures lent { SinkLent (K.beside sink.old) (K.beside sink.new) (K.faults sink.old) (K.faults sink.new) }
    ensures cause { IsErrOf result SendFault.WriteFault → Rose (K.faults sink.old) (K.faults sink.new) }
{
    for station in 0..stations {
        write_station(alloc, number, times, station, sink)?;
    }
    Ok(())
}

/// Writes the feed that is made of a number, to try a program and to measure it: the collection `grid` with a grid of 520,000
/// nodes at one time, the collection `sites` with 40 stations at 300 times each, and a publish. Its values are digits that the
/// number shifts, so two numbers with one last digit make one feed.
///
/// It keeps one row of the grid, or the values of one station, at a time. After a fault a beginning of the feed was written.
pub fn make_feed<K: Sink>(alloc: Global, number: u64, sink: &mut K) -> Result<(), SendFault>
    ensures text { Writes result (made number) (K.written sink.old) (K.written sink.new) }
    ensures lent { SinkLent (K.beside sink.old) (K.beside sink.new) (K.faults sink.old) (K.faults sink.new) }
    ensures cause { IsErrOf result SendFault.WriteFault → Rose (K.faults sink.old) (K.faults sink.new) }
{
    send(sink, GRIDS)?;
    write_grid_line(alloc, number, ROWS, COLUMNS, sink)?;
    send(sink, SITES)?;
    write_stations(alloc, number, TIMES, STATIONS, sink)?;
    send(sink, PUBLISH)
}
