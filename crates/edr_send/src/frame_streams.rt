//! A reply over a frame, whose values are written strip by strip: those of its rows in one row of tiles, at one time and level.
ghost use Rattle.std.specs.Prelude.{◌≡◌, ◌<◌, ◌≤◌, ◌+◌, ◌-◌, ◌/◌, ◌*◌, ◌++◌, true, false, All, length, map, OnOk, IsErrOf};
ghost use Rattle.std.specs.List.{flat_map};
ghost use Rattle.edr_base.specs.Outside.{Rose};
ghost use Rattle.edr_base.specs.Calls.{SinkLent, Writes};
ghost use Rattle.covjson_write.specs.declared.stages.Stage.TheVariants.{Ready, Within, Open};
ghost use Rattle.covjson_write.specs.Pieces.{values_from, range_end, range_piece, ranges_from, document_end};
ghost use Rattle.covjson_write.specs.Writers.{with_values, without_range};
ghost use Rattle.edr_chunk.specs.Tiles.{tiles};
ghost use Rattle.edr_select.specs.Samples.{ascending_once};
ghost use Rattle.edr_select.specs.Listings.{tiles_of_range, NumbersRise};
ghost use Rattle.edr_send.specs.Filling.{grid_of, Adds};
ghost use Rattle.edr_send.specs.Forms.{framing_sent};
ghost use Rattle.edr_select.specs.Framings.{strip_cells, plane_cells, frame_cells, taken, cell_value, framed_range, framed_tiles};
ghost use Rattle.edr_send.specs.Strips.{HasRows};

use crate::coverages::{Buffers, Coverages, RangePlace, parameter_at};
use crate::planes::write_strips;
use crate::strips::Layer;
use covjson_value::Coverage;
use covjson_write::Writer;
use edr_base::{SendFault, Sink};
use edr_chunk::{numbers_tell_places, sides_are_small, tiles_are_numbered};
use edr_edition::Store;
use edr_select::{Framing, framing_stands};

// Writes the values of a time and a level.
fn write_plane<K: Sink>(
    framing: &Framing,
    layer: Layer,
    store: &mut Store<'_>,
    writer: &mut Writer,
    sink: &mut K,
    buffers: &mut Buffers,
) -> Result<(), SendFault>
    requires grid { framing.now.shape ≡ (grid_of store.old.subject.held).shape }
    requires parameter { layer.parameter < framing.now.shape.parameters }
    requires t { layer.t < framing.now.shape.times }
    requires z { layer.z < framing.now.shape.levels }
    requires open { writer.old.stage ≡ Open }
    requires room { writer.old.values + length (plane_cells framing.now.frame layer.t layer.z) ≤ writer.old.head.count }
    ensures bytes { Writes result (values_from writer.old.values (map (cell_value (grid_of store.old.subject.held) layer.parameter) (plane_cells framing.now.frame layer.t layer.z))) (K.written sink.old) (K.written sink.new) }
    ensures writer { OnOk result (writer.new ≡ with_values writer.old (length (plane_cells framing.now.frame layer.t layer.z))) }
    ensures reads { Adds result (ascending_once (tiles framing.now.shape) (tiles_of_range framing.now.shape (taken (plane_cells framing.now.frame layer.t layer.z)) layer.parameter)) store.old.numbers store.new.numbers }
    ensures subject { store.new.subject ≡ store.old.subject }
    ensures lent { SinkLent (K.beside sink.old) (K.beside sink.new) (K.faults sink.old) (K.faults sink.new) }
    ensures cause { IsErrOf result SendFault.WriteFault → Rose (K.faults sink.old) (K.faults sink.new) }
{
    framing_stands(framing);
    write_strips(
        framing.shape,
        &framing.frame,
        layer,
        store,
        writer,
        sink,
        buffers,
    )
}

// Writes the values of a time, level by level.
fn write_levels<K: Sink>(
    framing: &Framing,
    parameter: u64,
    t: u32,
    store: &mut Store<'_>,
    writer: &mut Writer,
    sink: &mut K,
    buffers: &mut Buffers,
) -> Result<(), SendFault>
    requires grid { framing.now.shape ≡ (grid_of store.old.subject.held).shape }
    requires parameter { parameter < framing.now.shape.parameters }
    requires t { t < framing.now.shape.times }
    requires open { writer.old.stage ≡ Open }
    requires room { writer.old.values + length (flat_map (plane_cells framing.now.frame t) framing.now.frame.levels) ≤ writer.old.head.count }
    ensures bytes { Writes result (values_from writer.old.values (map (cell_value (grid_of store.old.subject.held) parameter) (flat_map (plane_cells framing.now.frame t) framing.now.frame.levels))) (K.written sink.old) (K.written sink.new) }
    ensures writer { OnOk result (writer.new ≡ with_values writer.old (length (flat_map (plane_cells framing.now.frame t) framing.now.frame.levels))) }
    ensures reads { Adds result (ascending_once (tiles framing.now.shape) (tiles_of_range framing.now.shape (taken (flat_map (plane_cells framing.now.frame t) framing.now.frame.levels)) parameter)) store.old.numbers store.new.numbers }
    ensures subject { store.new.subject ≡ store.old.subject }
    ensures lent { SinkLent (K.beside sink.old) (K.beside sink.new) (K.faults sink.old) (K.faults sink.new) }
    ensures cause { IsErrOf result SendFault.WriteFault → Rose (K.faults sink.old) (K.faults sink.new) }
{
    framing_stands(framing);
    sides_are_small();
    tiles_are_numbered();
    let levels = framing.frame.levels.items();
    for place in 0..levels.len() {
        let z = levels[place] as u32;
        let layer = Layer { parameter, t, z };
        write_plane(framing, layer, store, writer, sink, buffers)?;
    }
    Ok(())
}

// Writes the values of the open range of a parameter, time by time.
fn write_times<K: Sink>(
    framing: &Framing,
    parameter: u64,
    store: &mut Store<'_>,
    writer: &mut Writer,
    sink: &mut K,
    buffers: &mut Buffers,
) -> Result<(), SendFault>
    requires grid { framing.now.shape ≡ (grid_of store.old.subject.held).shape }
    requires parameter { parameter < framing.now.shape.parameters }
    requires open { writer.old.stage ≡ Open }
    requires room { writer.old.values + length (frame_cells framing.now.frame) ≤ writer.old.head.count }
    ensures bytes { Writes result (values_from writer.old.values (map (cell_value (grid_of store.old.subject.held) parameter) (frame_cells framing.now.frame))) (K.written sink.old) (K.written sink.new) }
    ensures writer { OnOk result (writer.new ≡ with_values writer.old (length (frame_cells framing.now.frame))) }
    ensures reads { Adds result (ascending_once (tiles framing.now.shape) (tiles_of_range framing.now.shape (taken (frame_cells framing.now.frame)) parameter)) store.old.numbers store.new.numbers }
    ensures subject { store.new.subject ≡ store.old.subject }
    ensures lent { SinkLent (K.beside sink.old) (K.beside sink.new) (K.faults sink.old) (K.faults sink.new) }
    ensures cause { IsErrOf result SendFault.WriteFault → Rose (K.faults sink.old) (K.faults sink.new) }
{
    framing_stands(framing);
    sides_are_small();
    tiles_are_numbered();
    let times = framing.frame.times.items();
    for place in 0..times.len() {
        let t = times[place] as u32;
        write_levels(framing, parameter, t, store, writer, sink, buffers)?;
    }
    Ok(())
}

impl Coverages for Framing {
    ghost over = { λ framing held. framing.shape ≡ (grid_of held).shape };

    ghost sent = { framing_sent };

    ghost size = { λ _. 1 };

    fn are_many(&self) -> bool {
        false
    }

    fn count(&self) -> usize {
        1
    }

    fn head(&self, _: usize) -> &Coverage {
        &self.head
    }

    fn send_values<K: Sink>(
        &self,
        place: RangePlace,
        store: &mut Store<'_>,
        writer: &mut Writer,
        sink: &mut K,
        buffers: &mut Buffers,
    ) -> Result<(), SendFault> {
        framing_stands(self);
        let parameter = parameter_at(self.parameters.items(), place.range);
        write_times(self, parameter, store, writer, sink, buffers)
    }
}
