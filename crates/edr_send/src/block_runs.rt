//! Runs of values of at most one block, of which some aren't taken: each block is opened, and its values are written before the
//! next is.
ghost use Rattle.std.specs.Prelude.{◌≡◌, ◌<◌, ◌≤◌, ◌+◌, ◌%◌, ◌^◌, None, Some, All, length, map, slice_index_or, OnOk, IsErrOf};
ghost use Rattle.std.specs.List.{slice_range};
ghost use Rattle.edr_base.specs.Outside.{Rose};
ghost use Rattle.edr_base.specs.Calls.{SinkLent, Writes};
ghost use Rattle.covjson_write.specs.declared.stages.Stage.TheVariants.{Open};
ghost use Rattle.covjson_write.specs.Pieces.{values_from};
ghost use Rattle.covjson_write.specs.Writers.{with_values};
ghost use Rattle.edr_station.specs.Stations.{values_along};
ghost use Rattle.edr_station.specs.Blocks.{block_length};
ghost use Rattle.edr_select.specs.Samples.{ascending_once};
ghost use Rattle.edr_select.specs.Series.{RiseApart, block_at, blocks_of_range, cells_taken, series_range};
ghost use Rattle.edr_send.specs.Filling.{Adds};
ghost use Rattle.edr_send.specs.SeriesTexts.{collection_of, blocks_in, station_of, IsOver, IsRun, BlocksApart, picked_of};
ghost use Rattle.edr_send.specs.SeriesTexts as texts;

use crate::coverages::Buffers;
use covjson_write::Writer;
use edr_base::{OutOfMemory, SendFault, Sink};
use edr_edition::Store;
use edr_select::StationSeries;
use edr_station::BLOCK_LENGTH;
use std::alloc::Global;

// How many cells a run has at most.
const MOST_CELLS: usize = BLOCK_LENGTH;

// Whether a cell goes on with a run: behind a cell that is taken, one of its block or one that isn't taken; behind one that isn't,
// another such.
fn goes_on(first: Option<u64>, cell: Option<u64>) -> bool
    ensures { result ≡ texts.goes_on first cell }
{
    match (first, cell) {
        (Some(first), Some(cell)) => cell / BLOCK_LENGTH as u64 == first / BLOCK_LENGTH as u64,
        (Some(_), None) => true,
        (None, Some(_)) => false,
        (None, None) => true,
    }
}

// The place behind a run, the first cell of which stands at a place. No cell behind it is of a block of the run.
fn run_end(cells: &[Option<u64>], from: usize) -> usize
    requires from { from < length cells.now }
    requires rise { RiseApart cells.now }
    ensures more { from < result }
    ensures end { result ≤ length cells.now }
    ensures run { IsRun (slice_range cells.now from result) }
    ensures apart { BlocksApart cells.now from result }
{
    let first = cells[from];
    let mut at = from + 1;
    while at < cells.len() && at - from < MOST_CELLS && goes_on(first, cells[at]) {
        at += 1;
    }
    at
}

// Takes the values of some cells out of those of their block, and none at the others.
fn pick(
    block: &[Option<i64>],
    cells: &[Option<u64>],
    values: &mut Vec<Option<i64>>,
) -> Result<(), OutOfMemory>
    requires { All (λ cell. cell % block_length < length block.now) (cells_taken cells.now) }
    ensures { OnOk result (values.new.items ≡ map (picked_of block.now) cells.now) }
{
    values.clear();
    for cell in cells {
        match cell {
            Some(cell) => values.push(block[*cell as usize % BLOCK_LENGTH])?,
            None => values.push(None)?,
        }
    }
    Ok(())
}

// The number of the block of a parameter at a cell.
fn block_number(series: &StationSeries, parameter: u64, cell: u64) -> u64
    requires { block_at series.now parameter cell < 2 ^ 64 }
    ensures { result ≡ block_at series.now parameter cell }
{
    series.first + parameter * series.blocks + cell / BLOCK_LENGTH as u64
}

// Reads the values of a parameter at some cells, the first of which is taken and the others not or of its block, which it opens.
fn read_block(
    alloc: Global,
    store: &mut Store<'_>,
    series: &StationSeries,
    parameter: u64,
    first: u64,
    cells: &[Option<u64>],
    values: &mut Vec<Option<i64>>,
) -> Result<(), OutOfMemory>
    requires over { IsOver (collection_of store.old.subject.held) series.now }
    requires parameter { parameter < (collection_of store.old.subject.held).parameters }
    requires some { 0 < length cells.now }
    requires cells { All (λ cell. cell < values_along (station_of (collection_of store.old.subject.held) series.now)) (cells_taken cells.now) }
    requires run { IsRun cells.now }
    requires first { slice_index_or cells.now 0 None ≡ Some first }
    ensures values { OnOk result (values.new.items ≡ (series_range (station_of (collection_of store.old.subject.held) series.now) cells.now parameter).values) }
    ensures reads { Adds result (ascending_once (blocks_in (collection_of store.old.subject.held)) (map (block_at series.now parameter) (cells_taken cells.now))) store.old.numbers store.new.numbers }
    ensures subject { store.new.subject ≡ store.old.subject }
{
    let block = store.block(alloc, block_number(series, parameter, first))?;
    pick(&block, cells, values)
}

// As many values as there are cells, none of which is taken.
fn leave_out(cells: &[Option<u64>], values: &mut Vec<Option<i64>>) -> Result<(), OutOfMemory>
    ensures { OnOk result (values.new.items ≡ map (λ cell. None) cells.now) }
{
    values.clear();
    for _ in cells {
        values.push(None)?;
    }
    Ok(())
}

// Reads the values of a parameter at some cells of at most one block, which it opens where one is taken.
fn read_run(
    alloc: Global,
    store: &mut Store<'_>,
    series: &StationSeries,
    parameter: u64,
    cells: &[Option<u64>],
    values: &mut Vec<Option<i64>>,
) -> Result<(), OutOfMemory>
    requires over { IsOver (collection_of store.old.subject.held) series.now }
    requires parameter { parameter < (collection_of store.old.subject.held).parameters }
    requires some { 0 < length cells.now }
    requires cells { All (λ cell. cell < values_along (station_of (collection_of store.old.subject.held) series.now)) (cells_taken cells.now) }
    requires run { IsRun cells.now }
    ensures values { OnOk result (values.new.items ≡ (series_range (station_of (collection_of store.old.subject.held) series.now) cells.now parameter).values) }
    ensures reads { Adds result (ascending_once (blocks_in (collection_of store.old.subject.held)) (map (block_at series.now parameter) (cells_taken cells.now))) store.old.numbers store.new.numbers }
    ensures subject { store.new.subject ≡ store.old.subject }
{
    match cells[0] {
        Some(first) => read_block(alloc, store, series, parameter, first, cells, values),
        None => leave_out(cells, values),
    }
}

// Reads the values of a parameter at some cells of at most one block and writes them, as the next values of the open range.
fn write_run<K: Sink>(
    series: &StationSeries,
    parameter: u64,
    cells: &[Option<u64>],
    store: &mut Store<'_>,
    writer: &mut Writer,
    sink: &mut K,
    buffers: &mut Buffers,
) -> Result<(), SendFault>
    requires over { IsOver (collection_of store.old.subject.held) series.now }
    requires parameter { parameter < (collection_of store.old.subject.held).parameters }
    requires some { 0 < length cells.now }
    requires cells { All (λ cell. cell < values_along (station_of (collection_of store.old.subject.held) series.now)) (cells_taken cells.now) }
    requires run { IsRun cells.now }
    requires open { writer.old.stage ≡ Open }
    requires room { writer.old.values + length cells.now ≤ writer.old.head.count }
    ensures bytes { Writes result (values_from writer.old.values (series_range (station_of (collection_of store.old.subject.held) series.now) cells.now parameter).values) (K.written sink.old) (K.written sink.new) }
    ensures writer { OnOk result (writer.new ≡ with_values writer.old (length cells.now)) }
    ensures reads { Adds result (ascending_once (blocks_in (collection_of store.old.subject.held)) (map (block_at series.now parameter) (cells_taken cells.now))) store.old.numbers store.new.numbers }
    ensures subject { store.new.subject ≡ store.old.subject }
    ensures lent { SinkLent (K.beside sink.old) (K.beside sink.new) (K.faults sink.old) (K.faults sink.new) }
    ensures cause { IsErrOf result SendFault.WriteFault → Rose (K.faults sink.old) (K.faults sink.new) }
{
    read_run(
        buffers.alloc,
        store,
        series,
        parameter,
        cells,
        &mut buffers.values,
    )?;
    writer.values(sink, &buffers.values)
}

// Writes the values of the open range of a parameter, block by block.
pub(crate) fn write_runs<K: Sink>(
    series: &StationSeries,
    parameter: u64,
    store: &mut Store<'_>,
    writer: &mut Writer,
    sink: &mut K,
    buffers: &mut Buffers,
) -> Result<(), SendFault>
    requires over { IsOver (collection_of store.old.subject.held) series.now }
    requires parameter { parameter < (collection_of store.old.subject.held).parameters }
    requires open { writer.old.stage ≡ Open }
    requires none { writer.old.values ≡ 0 }
    requires whole { length series.now.cells ≡ writer.old.head.count }
    ensures bytes { Writes result (values_from 0 (series_range (station_of (collection_of store.old.subject.held) series.now) series.now.cells parameter).values) (K.written sink.old) (K.written sink.new) }
    ensures writer { OnOk result (writer.new ≡ with_values writer.old (length series.now.cells)) }
    ensures reads { Adds result (ascending_once (blocks_in (collection_of store.old.subject.held)) (blocks_of_range series.now parameter)) store.old.numbers store.new.numbers }
    ensures subject { store.new.subject ≡ store.old.subject }
    ensures lent { SinkLent (K.beside sink.old) (K.beside sink.new) (K.faults sink.old) (K.faults sink.new) }
    ensures cause { IsErrOf result SendFault.WriteFault → Rose (K.faults sink.old) (K.faults sink.new) }
{
    let cells = series.cells.items();
    let mut at = 0;
    while at < cells.len() {
        let end = run_end(cells, at);
        let run = &cells[at..end];
        write_run(series, parameter, run, store, writer, sink, buffers)?;
        at = end;
    }
    Ok(())
}
