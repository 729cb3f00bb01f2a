//! Values are read from the tiles of a store, which are opened in ascending order, each once.
ghost use Rattle.std.specs.Prelude.{◌≡◌, ◌≢◌, ◌<◌, ◌≤◌, ℕ, All, OnOk, length, map, slice_index_or};
ghost use Rattle.std.specs.List.{range_with_len, slice_range};
ghost use Rattle.std.specs.List.Sorted.{IsNonDecreasingBy};
ghost use Rattle.edr_chunk.specs.Tiles.{LiesIn, tiles};
ghost use Rattle.edr_send.specs.declared.slots.Slot.{Slot as SlotValue};
ghost use Rattle.edr_select.specs.Samples.{ascending_once};
ghost use Rattle.edr_send.specs.Filling.{grid_of, slot_tile, slot_number, IsSlot, value_of, seen_in, put_all, Adds};

use crate::slots::Slot;
use edr_base::OutOfMemory;
use edr_chunk::{Tile, tiles_are_numbered};
use edr_edition::Store;
use std::alloc::Global;

// Puts the values of the slots of one tile, the first of which stands at a place of the list. It answers the first place
// behind them.
fn fill_tile(tile: Tile, slots: &[Slot], from: usize, values: &mut [Option<i64>]) -> usize
    requires from { from < length slots.now }
    requires inside { All (λ slot. slot_number slot < length values.old) slots.now }
    requires lies { (place : ℕ) (other : SlotValue) → place < length slots.now → (slice_index_or slots.now place other).tile ≡ (slice_index_or slots.now from other).tile → LiesIn tile (slice_index_or slots.now place other).place.y (slice_index_or slots.now place other).place.x }
    ensures after { from < result }
    ensures end { result ≤ length slots.now }
    ensures same { (place : ℕ) (other : SlotValue) → from ≤ place → place < result → (slice_index_or slots.now place other).tile ≡ (slice_index_or slots.now from other).tile }
    ensures other { (other : SlotValue) → result < length slots.now → (slice_index_or slots.now result other).tile ≢ (slice_index_or slots.now from other).tile }
    ensures values { values.new ≡ put_all slot_number (seen_in tile) (slice_range slots.now from result) values.old }
{
    let number = slots[from].tile;
    let mut at = from;
    while at < slots.len() && slots[at].tile == number {
        let slot = slots[at];
        values[slot.number] = tile.get(slot.place.y, slot.place.x);
        at += 1;
    }
    at
}

// Puts the value of each slot at its number. The slots stand in the order of their tiles.
fn fill_sorted(
    alloc: Global,
    store: &mut Store<'_>,
    slots: &[Slot],
    values: &mut [Option<i64>],
) -> Result<(), OutOfMemory>
    requires slots { All (IsSlot (grid_of store.old.subject.held).shape) slots.now }
    requires ascending { IsNonDecreasingBy slot_tile slots.now }
    requires inside { All (λ slot. slot_number slot < length values.old) slots.now }
    ensures values { OnOk result (values.new ≡ put_all slot_number (value_of (grid_of store.old.subject.held)) slots.now values.old) }
    ensures reads { Adds result (ascending_once (tiles (grid_of store.old.subject.held).shape) (map slot_tile slots.now)) store.old.numbers store.new.numbers }
    ensures subject { store.new.subject ≡ store.old.subject }
{
    tiles_are_numbered();
    let mut at = 0;
    while at < slots.len() {
        let tile = store.tile(alloc, slots[at].tile)?;
        at = fill_tile(tile, slots, at, values);
    }
    Ok(())
}

// The values of slots that are numbered from 0 on, in the order of their numbers. The slots are sorted by their tiles.
pub(crate) fn fill(
    alloc: Global,
    store: &mut Store<'_>,
    slots: &mut Vec<Slot>,
    values: &mut Vec<Option<i64>>,
) -> Result<(), OutOfMemory>
    requires slots { All (IsSlot (grid_of store.old.subject.held).shape) slots.old.items }
    requires numbered { map slot_number slots.old.items ≡ range_with_len 0 (length slots.old.items) }
    ensures values { OnOk result (values.new.items ≡ map (value_of (grid_of store.old.subject.held)) slots.old.items) }
    ensures reads { Adds result (ascending_once (tiles (grid_of store.old.subject.held).shape) (map slot_tile slots.old.items)) store.old.numbers store.new.numbers }
    ensures subject { store.new.subject ≡ store.old.subject }
{
    values.clear();
    values.resize(slots.len(), None)?;
    slots.sort_unstable_by_key(|slot| slot.tile);
    fill_sorted(alloc, store, slots, values)
}
