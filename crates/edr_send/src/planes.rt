//! Planes: the values of a frame at one time and level, which are written strip by strip: those of its rows in one row of tiles.
ghost use Rattle.std.specs.Prelude.{◌≡◌, ◌<◌, ◌≤◌, ◌+◌, ◌-◌, ◌/◌, ◌*◌, ◌^◌, length, map, min, max, OnOk, IsErrOf};
ghost use Rattle.edr_base.specs.Outside.{Rose};
ghost use Rattle.edr_base.specs.Calls.{SinkLent, Writes};
ghost use Rattle.covjson_write.specs.declared.stages.Stage.TheVariants.{Open};
ghost use Rattle.covjson_write.specs.Pieces.{values_from};
ghost use Rattle.covjson_write.specs.Writers.{with_values};
ghost use Rattle.edr_chunk.specs.Places.{IsShape, count};
ghost use Rattle.edr_chunk.specs.Tiles.{tile_side, tiles};
ghost use Rattle.edr_select.specs.Samples.{ascending_once};
ghost use Rattle.edr_select.specs.Listings.{tiles_of_range};
ghost use Rattle.edr_select.specs.Framings.{IsFrame, strip_cells, plane_cells, taken, cell_value};
ghost use Rattle.edr_send.specs.Filling.{grid_of, Adds};
ghost use Rattle.edr_send.specs.Strips.{HasRows};

use crate::coverages::Buffers;
use crate::strips::{Layer, Strip, fill_strip};
use covjson_write::Writer;
use edr_base::{SendFault, Sink};
use edr_chunk::{GridShape, TILE_SIDE, sides_are_small, tiles_are_numbered};
use edr_edition::Store;
use edr_select::Frame;

// Reads a strip and writes it, as the next values of the open range.
fn write_strip<K: Sink>(
    shape: GridShape,
    frame: &Frame,
    strip: Strip,
    store: &mut Store<'_>,
    writer: &mut Writer,
    sink: &mut K,
    buffers: &mut Buffers,
) -> Result<(), SendFault>
    requires grid { shape ≡ (grid_of store.old.subject.held).shape }
    requires shape { IsShape shape }
    requires fits { count shape < 2 ^ 64 }
    requires frame { IsFrame shape frame.now }
    requires parameter { strip.layer.parameter < shape.parameters }
    requires t { strip.layer.t < shape.times }
    requires z { strip.layer.z < shape.levels }
    requires rows { HasRows frame.now strip.from strip.to }
    requires one { strip.to ≤ strip.from / tile_side * tile_side + tile_side }
    requires open { writer.old.stage ≡ Open }
    requires room { writer.old.values + length (strip_cells frame.now strip.layer.t strip.layer.z strip.from (strip.to - strip.from)) ≤ writer.old.head.count }
    ensures bytes { Writes result (values_from writer.old.values (map (cell_value (grid_of store.old.subject.held) strip.layer.parameter) (strip_cells frame.now strip.layer.t strip.layer.z strip.from (strip.to - strip.from)))) (K.written sink.old) (K.written sink.new) }
    ensures writer { OnOk result (writer.new ≡ with_values writer.old (length (strip_cells frame.now strip.layer.t strip.layer.z strip.from (strip.to - strip.from)))) }
    ensures reads { Adds result (ascending_once (tiles shape) (tiles_of_range shape (taken (strip_cells frame.now strip.layer.t strip.layer.z strip.from (strip.to - strip.from))) strip.layer.parameter)) store.old.numbers store.new.numbers }
    ensures subject { store.new.subject ≡ store.old.subject }
    ensures lent { SinkLent (K.beside sink.old) (K.beside sink.new) (K.faults sink.old) (K.faults sink.new) }
    ensures cause { IsErrOf result SendFault.WriteFault → Rose (K.faults sink.old) (K.faults sink.new) }
{
    fill_strip(store, shape, frame, strip, buffers)?;
    writer.values(sink, &buffers.values)
}

// Where the rows of a frame in a row of tiles begin.
fn strip_edge(frame: &Frame, down: u32) -> u32
    requires down { down < 2 ^ 26 }
    requires rows { frame.now.row + frame.now.rows < 2 ^ 32 }
    ensures { result ≡ min (max (down * tile_side) frame.now.row) (frame.now.row + frame.now.rows) }
{
    (down * TILE_SIDE)
        .max(frame.row)
        .min(frame.row + frame.rows)
}

// Writes the values of a frame at a time and a level, strip by strip.
pub(crate) fn write_strips<K: Sink>(
    shape: GridShape,
    frame: &Frame,
    layer: Layer,
    store: &mut Store<'_>,
    writer: &mut Writer,
    sink: &mut K,
    buffers: &mut Buffers,
) -> Result<(), SendFault>
    requires grid { shape ≡ (grid_of store.old.subject.held).shape }
    requires shape { IsShape shape }
    requires fits { count shape < 2 ^ 64 }
    requires frame { IsFrame shape frame.now }
    requires parameter { layer.parameter < shape.parameters }
    requires t { layer.t < shape.times }
    requires z { layer.z < shape.levels }
    requires open { writer.old.stage ≡ Open }
    requires room { writer.old.values + length (plane_cells frame.now layer.t layer.z) ≤ writer.old.head.count }
    ensures bytes { Writes result (values_from writer.old.values (map (cell_value (grid_of store.old.subject.held) layer.parameter) (plane_cells frame.now layer.t layer.z))) (K.written sink.old) (K.written sink.new) }
    ensures writer { OnOk result (writer.new ≡ with_values writer.old (length (plane_cells frame.now layer.t layer.z))) }
    ensures reads { Adds result (ascending_once (tiles shape) (tiles_of_range shape (taken (plane_cells frame.now layer.t layer.z)) layer.parameter)) store.old.numbers store.new.numbers }
    ensures subject { store.new.subject ≡ store.old.subject }
    ensures lent { SinkLent (K.beside sink.old) (K.beside sink.new) (K.faults sink.old) (K.faults sink.new) }
    ensures cause { IsErrOf result SendFault.WriteFault → Rose (K.faults sink.old) (K.faults sink.new) }
{
    sides_are_small();
    tiles_are_numbered();
    let row = frame.row;
    let end = row + frame.rows;
    for down in row / TILE_SIDE..end.div_ceil(TILE_SIDE) {
        let from = strip_edge(frame, down);
        let to = strip_edge(frame, down + 1);
        let strip = Strip { layer, from, to };
        write_strip(shape, frame, strip, store, writer, sink, buffers)?;
    }
    Ok(())
}
