//! Runs of values: each is filled and written before the next.
ghost use Rattle.std.specs.Prelude.{◌≡◌, ◌≢◌, ◌<◌, ◌≤◌, ◌+◌, ◌-◌, ◌^◌, ℕ, All, length, OnOk, IsErrOf, slice_index_or};
ghost use Rattle.edr_base.specs.Outside.{Rose};
ghost use Rattle.edr_base.specs.Calls.{SinkLent, Writes};
ghost use Rattle.covjson_write.specs.declared.stages.Stage.TheVariants.{Open};
ghost use Rattle.covjson_write.specs.Pieces.{values_from};
ghost use Rattle.covjson_write.specs.Writers.{with_values};
ghost use Rattle.edr_chunk.specs.Places.{Within, IsShape, count};
ghost use Rattle.edr_chunk.specs.Tiles.{tiles};
ghost use Rattle.edr_select.specs.Samples.{ascending_once};
ghost use Rattle.edr_select.specs.Listings.{place_at, range_over, tiles_of_range};
ghost use Rattle.edr_send.specs.Filling.{grid_of, Adds};
ghost use Rattle.edr_send.specs.Bands.{band_of, BandsRise};

use crate::bands::band_number;
use crate::coverages::Buffers;
use crate::filling::fill;
use crate::slots::push_range;
use covjson_write::Writer;
use edr_base::{OutOfMemory, SendFault, Sink};
use edr_chunk::{GridShape, numbers_tell_places, tiles_are_numbered};
use edr_edition::Store;
use edr_select::GridNode;

// How many values a run has at least, unless it is the last of a range.
const LEAST_VALUES: usize = 1_024;

// The place behind the run that starts at a place: it ends with the first band that gives it the least number of values, or
// with all.
fn run_end(shape: GridShape, cells: &[GridNode], from: usize) -> usize
    requires shape { IsShape shape }
    requires fits { count shape < 2 ^ 64 }
    requires cells { All (λ cell. Within shape (place_at 0 cell)) cells.now }
    requires from { from < length cells.now }
    ensures more { from < result }
    ensures end { result ≤ length cells.now }
    ensures first { (k : ℕ) (d : GridNode) → from + 1_024 ≤ k → k < result → band_of shape (slice_index_or cells.now (k - 1) d) ≡ band_of shape (slice_index_or cells.now k d) }
    ensures other { (d : GridNode) → result < length cells.now → band_of shape (slice_index_or cells.now (result - 1) d) ≢ band_of shape (slice_index_or cells.now result d) }
{
    if cells.len() - from <= LEAST_VALUES {
        return cells.len();
    }
    let mut at = from + LEAST_VALUES;
    while at < cells.len() && band_number(shape, cells[at - 1]) == band_number(shape, cells[at]) {
        at += 1;
    }
    at
}

// Fills a run with the values of a parameter at some cells.
fn fill_run(
    store: &mut Store<'_>,
    shape: GridShape,
    parameter: u64,
    cells: &[GridNode],
    buffers: &mut Buffers,
) -> Result<(), OutOfMemory>
    requires grid { shape ≡ (grid_of store.old.subject.held).shape }
    requires shape { IsShape shape }
    requires fits { count shape < 2 ^ 64 }
    requires parameter { parameter < shape.parameters }
    requires cells { All (λ cell. Within shape (place_at 0 cell)) cells.now }
    ensures values { OnOk result (buffers.new.values.items ≡ (range_over (grid_of store.old.subject.held) cells.now parameter).values) }
    ensures reads { Adds result (ascending_once (tiles shape) (tiles_of_range shape cells.now parameter)) store.old.numbers store.new.numbers }
    ensures subject { store.new.subject ≡ store.old.subject }
{
    buffers.slots.clear();
    push_range(&mut buffers.slots, shape, parameter, cells)?;
    fill(
        buffers.alloc,
        store,
        &mut buffers.slots,
        &mut buffers.values,
    )
}

// Fills a run and writes it, as the next values of the open range.
fn write_run<K: Sink>(
    shape: GridShape,
    parameter: u64,
    cells: &[GridNode],
    store: &mut Store<'_>,
    writer: &mut Writer,
    sink: &mut K,
    buffers: &mut Buffers,
) -> Result<(), SendFault>
    requires grid { shape ≡ (grid_of store.old.subject.held).shape }
    requires shape { IsShape shape }
    requires fits { count shape < 2 ^ 64 }
    requires parameter { parameter < shape.parameters }
    requires cells { All (λ cell. Within shape (place_at 0 cell)) cells.now }
    requires open { writer.old.stage ≡ Open }
    requires room { writer.old.values + length cells.now ≤ writer.old.head.count }
    ensures bytes { Writes result (values_from writer.old.values (range_over (grid_of store.old.subject.held) cells.now parameter).values) (K.written sink.old) (K.written sink.new) }
    ensures writer { OnOk result (writer.new ≡ with_values writer.old (length cells.now)) }
    ensures reads { Adds result (ascending_once (tiles shape) (tiles_of_range shape cells.now parameter)) store.old.numbers store.new.numbers }
    ensures subject { store.new.subject ≡ store.old.subject }
    ensures lent { SinkLent (K.beside sink.old) (K.beside sink.new) (K.faults sink.old) (K.faults sink.new) }
    ensures cause { IsErrOf result SendFault.WriteFault → Rose (K.faults sink.old) (K.faults sink.new) }
{
    fill_run(store, shape, parameter, cells, buffers)?;
    writer.values(sink, &buffers.values)
}

// Writes the values of the open range of a parameter, run by run.
pub(crate) fn write_runs<K: Sink>(
    shape: GridShape,
    parameter: u64,
    cells: &[GridNode],
    store: &mut Store<'_>,
    writer: &mut Writer,
    sink: &mut K,
    buffers: &mut Buffers,
) -> Result<(), SendFault>
    requires grid { shape ≡ (grid_of store.old.subject.held).shape }
    requires shape { IsShape shape }
    requires fits { count shape < 2 ^ 64 }
    requires parameter { parameter < shape.parameters }
    requires cells { All (λ cell. Within shape (place_at 0 cell)) cells.now }
    requires rise { BandsRise shape cells.now }
    requires open { writer.old.stage ≡ Open }
    requires none { writer.old.values ≡ 0 }
    requires whole { length cells.now ≡ writer.old.head.count }
    ensures bytes { Writes result (values_from 0 (range_over (grid_of store.old.subject.held) cells.now parameter).values) (K.written sink.old) (K.written sink.new) }
    ensures writer { OnOk result (writer.new ≡ with_values writer.old (length cells.now)) }
    ensures reads { Adds result (ascending_once (tiles shape) (tiles_of_range shape cells.now parameter)) store.old.numbers store.new.numbers }
    ensures subject { store.new.subject ≡ store.old.subject }
    ensures lent { SinkLent (K.beside sink.old) (K.beside sink.new) (K.faults sink.old) (K.faults sink.new) }
    ensures cause { IsErrOf result SendFault.WriteFault → Rose (K.faults sink.old) (K.faults sink.new) }
{
    tiles_are_numbered();
    numbers_tell_places();
    let mut at = 0;
    while at < cells.len() {
        let end = run_end(shape, cells, at);
        let run = &cells[at..end];
        write_run(shape, parameter, run, store, writer, sink, buffers)?;
        at = end;
    }
    Ok(())
}
