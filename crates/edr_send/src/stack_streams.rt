//! A reply over a stack, whose values are written plane by plane, and those of a plane strip by strip.
ghost use Rattle.std.specs.Prelude.{◌≡◌, ◌<◌, ◌≤◌, ◌+◌, ◌*◌, ◌++◌, [], ◌∷◌, true, false, All, length, map, slice_range, IfOk, OnOk, IsErrOf};
ghost use Rattle.std.specs.List.{flat_map};
ghost use Rattle.edr_base.specs.Limits.{node_limit};
ghost use Rattle.edr_base.specs.Outside.{Rose};
ghost use Rattle.edr_base.specs.Calls.{SinkLent, Writes};
ghost use Rattle.covjson_write.specs.declared.stages.Stage.TheVariants.{Ready, Within, Open};
ghost use Rattle.covjson_write.specs.Pieces.{values_from, range_end, range_piece, ranges_from, document_end};
ghost use Rattle.covjson_write.specs.Writers.{with_values, without_range};
ghost use Rattle.edr_chunk.specs.Tiles.{tiles};
ghost use Rattle.edr_select.specs.Samples.{ascending_once};
ghost use Rattle.edr_select.specs.Listings.{tiles_of_range, NumbersRise};
ghost use Rattle.edr_send.specs.Filling.{grid_of, Adds};
ghost use Rattle.edr_send.specs.Forms.{stacking_sent};
ghost use Rattle.edr_select.specs.Framings.{taken, cell_value};
ghost use Rattle.edr_select.specs.Stacks.{stack_count, plane_at, cells_of_plane, cells_of_time, stack_cells, stacked_range, stacked_tiles};

use crate::coverages::{Buffers, Coverages, RangePlace, parameter_at};
use crate::planes::write_strips;
use crate::strips::Layer;
use covjson_value::Coverage;
use covjson_write::Writer;
use edr_base::{Items, OutOfMemory, SendFault, Sink};
use edr_chunk::{numbers_tell_places, sides_are_small, tiles_are_numbered};
use edr_edition::Store;
use edr_select::{Frame, Stack, Stacking, stacking_stands};
use std::alloc::Global;

// A plane of a stack, by the numbers of its time and its level among those of the stack.
#[derive(Clone, Copy, Debug)]
struct PlanePlace {
    time: usize,
    level: usize,
}

// One of some numbers alone.
fn alone(alloc: Global, number: u64) -> Result<Items<u64>, OutOfMemory>
    ensures { IfOk result (λ numbers. numbers ≡ number ∷ []) }
{
    let mut numbers = Vec::new(alloc);
    numbers.push(number)?;
    Ok(Items::of(numbers))
}

// The truth values of the plane of a number, of so many nodes.
fn bits_of(
    alloc: Global,
    mask: &[bool],
    number: usize,
    size: usize,
) -> Result<Items<bool>, OutOfMemory>
    requires { number * size + size ≤ length mask.now }
    ensures { IfOk result (λ bits. bits ≡ slice_range mask.now (number * size) (number * size + size)) }
{
    let start = number * size;
    Ok(Items::of(Vec::from_slice(alloc, &mask[start..start + size])?))
}

// The plane of a time and a level, which are told by their numbers, as a frame.
fn plane_of(alloc: Global, stack: &Stack, i: usize, j: usize) -> Result<Frame, OutOfMemory>
    requires time { i < length stack.now.sides.times }
    requires level { j < length stack.now.sides.levels }
    requires times { length stack.now.sides.times ≤ node_limit }
    requires levels { length stack.now.sides.levels ≤ node_limit }
    requires mask { length stack.now.mask ≡ stack_count stack.now.sides }
    ensures { IfOk result (λ plane. plane ≡ plane_at stack.now i j) }
{
    let sides = &stack.sides;
    let times = sides.times.items();
    let levels = sides.levels.items();
    let size = sides.rows as usize * sides.columns as usize;
    let mask = bits_of(alloc, stack.mask.items(), i * levels.len() + j, size)?;
    Ok(Frame {
        times: alone(alloc, times[i])?,
        levels: alone(alloc, levels[j])?,
        row: sides.row,
        rows: sides.rows,
        column: sides.column,
        columns: sides.columns,
        left: sides.column,
        width: sides.columns,
        mask,
    })
}

// Writes the values of the plane of a time and a level.
fn write_stacked<K: Sink>(
    stacking: &Stacking,
    parameter: u64,
    place: PlanePlace,
    store: &mut Store<'_>,
    writer: &mut Writer,
    sink: &mut K,
    buffers: &mut Buffers,
) -> Result<(), SendFault>
    requires grid { stacking.now.shape ≡ (grid_of store.old.subject.held).shape }
    requires parameter { parameter < stacking.now.shape.parameters }
    requires time { place.time < length stacking.now.stack.sides.times }
    requires level { place.level < length stacking.now.stack.sides.levels }
    requires open { writer.old.stage ≡ Open }
    requires room { writer.old.values + length (cells_of_plane stacking.now.stack place.time place.level) ≤ writer.old.head.count }
    ensures bytes { Writes result (values_from writer.old.values (map (cell_value (grid_of store.old.subject.held) parameter) (cells_of_plane stacking.now.stack place.time place.level))) (K.written sink.old) (K.written sink.new) }
    ensures writer { OnOk result (writer.new ≡ with_values writer.old (length (cells_of_plane stacking.now.stack place.time place.level))) }
    ensures reads { Adds result (ascending_once (tiles stacking.now.shape) (tiles_of_range stacking.now.shape (taken (cells_of_plane stacking.now.stack place.time place.level)) parameter)) store.old.numbers store.new.numbers }
    ensures subject { store.new.subject ≡ store.old.subject }
    ensures lent { SinkLent (K.beside sink.old) (K.beside sink.new) (K.faults sink.old) (K.faults sink.new) }
    ensures cause { IsErrOf result SendFault.WriteFault → Rose (K.faults sink.old) (K.faults sink.new) }
{
    stacking_stands(stacking);
    sides_are_small();
    let sides = &stacking.stack.sides;
    let t = sides.times.items()[place.time] as u32;
    let z = sides.levels.items()[place.level] as u32;
    let plane = plane_of(buffers.alloc, &stacking.stack, place.time, place.level)?;
    let layer = Layer { parameter, t, z };
    write_strips(stacking.shape, &plane, layer, store, writer, sink, buffers)
}

// Writes the values of a time, level by level.
fn write_levels<K: Sink>(
    stacking: &Stacking,
    parameter: u64,
    i: usize,
    store: &mut Store<'_>,
    writer: &mut Writer,
    sink: &mut K,
    buffers: &mut Buffers,
) -> Result<(), SendFault>
    requires grid { stacking.now.shape ≡ (grid_of store.old.subject.held).shape }
    requires parameter { parameter < stacking.now.shape.parameters }
    requires time { i < length stacking.now.stack.sides.times }
    requires open { writer.old.stage ≡ Open }
    requires room { writer.old.values + length (cells_of_time stacking.now.stack i) ≤ writer.old.head.count }
    ensures bytes { Writes result (values_from writer.old.values (map (cell_value (grid_of store.old.subject.held) parameter) (cells_of_time stacking.now.stack i))) (K.written sink.old) (K.written sink.new) }
    ensures writer { OnOk result (writer.new ≡ with_values writer.old (length (cells_of_time stacking.now.stack i))) }
    ensures reads { Adds result (ascending_once (tiles stacking.now.shape) (tiles_of_range stacking.now.shape (taken (cells_of_time stacking.now.stack i)) parameter)) store.old.numbers store.new.numbers }
    ensures subject { store.new.subject ≡ store.old.subject }
    ensures lent { SinkLent (K.beside sink.old) (K.beside sink.new) (K.faults sink.old) (K.faults sink.new) }
    ensures cause { IsErrOf result SendFault.WriteFault → Rose (K.faults sink.old) (K.faults sink.new) }
{
    stacking_stands(stacking);
    sides_are_small();
    tiles_are_numbered();
    for j in 0..stacking.stack.sides.levels.items().len() {
        let place = PlanePlace { time: i, level: j };
        write_stacked(stacking, parameter, place, store, writer, sink, buffers)?;
    }
    Ok(())
}

// Writes the values of the open range of a parameter, time by time.
fn write_times<K: Sink>(
    stacking: &Stacking,
    parameter: u64,
    store: &mut Store<'_>,
    writer: &mut Writer,
    sink: &mut K,
    buffers: &mut Buffers,
) -> Result<(), SendFault>
    requires grid { stacking.now.shape ≡ (grid_of store.old.subject.held).shape }
    requires parameter { parameter < stacking.now.shape.parameters }
    requires open { writer.old.stage ≡ Open }
    requires room { writer.old.values + length (stack_cells stacking.now.stack) ≤ writer.old.head.count }
    ensures bytes { Writes result (values_from writer.old.values (map (cell_value (grid_of store.old.subject.held) parameter) (stack_cells stacking.now.stack))) (K.written sink.old) (K.written sink.new) }
    ensures writer { OnOk result (writer.new ≡ with_values writer.old (length (stack_cells stacking.now.stack))) }
    ensures reads { Adds result (ascending_once (tiles stacking.now.shape) (tiles_of_range stacking.now.shape (taken (stack_cells stacking.now.stack)) parameter)) store.old.numbers store.new.numbers }
    ensures subject { store.new.subject ≡ store.old.subject }
    ensures lent { SinkLent (K.beside sink.old) (K.beside sink.new) (K.faults sink.old) (K.faults sink.new) }
    ensures cause { IsErrOf result SendFault.WriteFault → Rose (K.faults sink.old) (K.faults sink.new) }
{
    stacking_stands(stacking);
    sides_are_small();
    tiles_are_numbered();
    for i in 0..stacking.stack.sides.times.items().len() {
        write_levels(stacking, parameter, i, store, writer, sink, buffers)?;
    }
    Ok(())
}

impl Coverages for Stacking {
    ghost over = { λ stacking held. stacking.shape ≡ (grid_of held).shape };

    ghost sent = { stacking_sent };

    ghost size = { λ _. 1 };

    fn are_many(&self) -> bool {
        false
    }

    fn count(&self) -> usize {
        1
    }

    fn head(&self, _: usize) -> &Coverage {
        &self.head
    }

    fn send_values<K: Sink>(
        &self,
        place: RangePlace,
        store: &mut Store<'_>,
        writer: &mut Writer,
        sink: &mut K,
        buffers: &mut Buffers,
    ) -> Result<(), SendFault> {
        stacking_stands(self);
        let parameter = parameter_at(self.parameters.items(), place.range);
        write_times(self, parameter, store, writer, sink, buffers)
    }
}
