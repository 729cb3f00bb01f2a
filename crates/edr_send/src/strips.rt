//! Strips: the values of the rows of a frame in one row of tiles, which are read tile by tile.
ghost use Rattle.std.specs.Prelude.{◌≡◌, ◌≢◌, ◌<◌, ◌≤◌, ◌+◌, ◌-◌, ◌*◌, ◌/◌, ◌++◌, ◌⊎◌, ◌^◌, ℕ, None, if◌then◌else◌, length, map, slice_index_or, OnOk, OnErr, IsTrue, true};
ghost use Rattle.std.specs.List.{list_any, range_with_len};
ghost use Rattle.edr_chunk.specs.Places.{IsShape, count};
ghost use Rattle.edr_chunk.specs.Tiles.{tile_side, LiesIn, value_in, tiles};
ghost use Rattle.edr_select.specs.Samples.{ascending_once};
ghost use Rattle.edr_select.specs.Listings.{tiles_of_range};
ghost use Rattle.edr_send.specs.Filling.{grid_of, Adds};
ghost use Rattle.edr_select.specs.Framings.{IsFrame, is_set, cell_at, strip_cells, taken, cell_value};
ghost use Rattle.edr_send.specs.Strips.{HasMask, HasRows, HasColumns, some_taken, shown, tile_read};

use crate::coverages::Buffers;
use crate::slots::tile_number;
use edr_base::OutOfMemory;
use edr_chunk::{GridPlace, GridShape, TILE_SIDE, Tile, sides_are_small, tiles_are_numbered};
use edr_edition::Store;
use edr_select::Frame;
use std::alloc::Global;

// A parameter at a time and a level of a grid.
#[derive(Clone, Copy, Debug)]
pub(crate) struct Layer {
    pub(crate) parameter: u64,
    pub(crate) t: u32,
    pub(crate) z: u32,
}

// Some rows of a layer, from one up to another.
#[derive(Clone, Copy, Debug)]
pub(crate) struct Strip {
    pub(crate) layer: Layer,
    pub(crate) from: u32,
    pub(crate) to: u32,
}

// Where the truth values of a row of a frame begin.
fn row_start(frame: &Frame, y: u32) -> usize
    requires mask { HasMask frame.now }
    requires low { frame.now.row ≤ y }
    requires high { y < frame.now.row + frame.now.rows }
    ensures start { result ≡ (y - frame.now.row) * frame.now.width }
    ensures end { result + frame.now.width ≤ length frame.now.mask }
{
    (y - frame.row) as usize * frame.width as usize
}

// Whether a node of a row is taken, from one column up to another.
fn row_has_taken(frame: &Frame, y: u32, left: u32, right: u32) -> bool
    requires mask { HasMask frame.now }
    requires low { frame.now.row ≤ y }
    requires high { y < frame.now.row + frame.now.rows }
    requires columns { HasColumns frame.now left right }
    ensures { result ≡ list_any (is_set frame.now y) (range_with_len left (right - left)) }
{
    let bits = frame.mask.items();
    let start = row_start(frame, y);
    for x in left..right {
        if bits[start + (x - frame.left) as usize] {
            return true;
        }
    }
    false
}

// Whether a node of some rows and columns is taken.
fn has_taken(frame: &Frame, from: u32, to: u32, left: u32, right: u32) -> bool
    requires mask { HasMask frame.now }
    requires rows { HasRows frame.now from to }
    requires columns { HasColumns frame.now left right }
    ensures { result ≡ some_taken frame.now from to left right }
{
    for y in from..to {
        if row_has_taken(frame, y, left, right) {
            return true;
        }
    }
    false
}

// Whether each node of a row is taken, from one column up to another.
fn row_is_taken(frame: &Frame, y: u32, left: u32, right: u32) -> bool
    requires mask { HasMask frame.now }
    requires low { frame.now.row ≤ y }
    requires high { y < frame.now.row + frame.now.rows }
    requires columns { HasColumns frame.now left right }
    ensures { IsTrue result → (x : ℕ) → left ≤ x → x < right → is_set frame.now y x ≡ true }
{
    let bits = frame.mask.items();
    let start = row_start(frame, y);
    for x in left..right {
        if !bits[start + (x - frame.left) as usize] {
            return false;
        }
    }
    true
}

// Puts the values of a tile at the nodes of a row that are taken, one by one.
fn fill_taken(
    tile: &Tile,
    frame: &Frame,
    y: u32,
    left: u32,
    right: u32,
    first: usize,
    values: &mut [Option<i64>],
)
    requires mask { HasMask frame.now }
    requires low { frame.now.row ≤ y }
    requires high { y < frame.now.row + frame.now.rows }
    requires columns { HasColumns frame.now left right }
    requires narrow { right ≤ left + tile_side }
    requires inside { first + frame.now.columns ≤ length values.old }
    requires lies { (x : ℕ) → left ≤ x → x < right → LiesIn tile.now y x }
    ensures long { length values.new ≡ length values.old }
    ensures here { (x : ℕ) → left ≤ x → x < right → slice_index_or values.new (first + (x - frame.now.column)) None ≡ (if is_set frame.now y x then value_in tile.now y x else slice_index_or values.old (first + (x - frame.now.column)) None) }
    ensures before { (k : ℕ) → k + frame.now.column < first + left → slice_index_or values.new k None ≡ slice_index_or values.old k None }
    ensures behind { (k : ℕ) → first + right ≤ k + frame.now.column → slice_index_or values.new k None ≡ slice_index_or values.old k None }
{
    let bits = frame.mask.items();
    let start = row_start(frame, y);
    let mut samples = [None; TILE_SIDE as usize];
    tile.copy_row(y, left, &mut samples[..(right - left) as usize]);
    for x in left..right {
        if bits[start + (x - frame.left) as usize] {
            values[first + (x - frame.column) as usize] = samples[(x - left) as usize];
        }
    }
}

// Puts the values of a tile at the nodes of a row that are taken, from one column up to another. The value of the frame's
// first column stands at a place of the values.
fn fill_row(
    tile: &Tile,
    frame: &Frame,
    y: u32,
    left: u32,
    right: u32,
    first: usize,
    values: &mut [Option<i64>],
)
    requires mask { HasMask frame.now }
    requires low { frame.now.row ≤ y }
    requires high { y < frame.now.row + frame.now.rows }
    requires columns { HasColumns frame.now left right }
    requires narrow { right ≤ left + tile_side }
    requires inside { first + frame.now.columns ≤ length values.old }
    requires lies { (x : ℕ) → left ≤ x → x < right → LiesIn tile.now y x }
    ensures long { length values.new ≡ length values.old }
    ensures here { (x : ℕ) → left ≤ x → x < right → slice_index_or values.new (first + (x - frame.now.column)) None ≡ (if is_set frame.now y x then value_in tile.now y x else slice_index_or values.old (first + (x - frame.now.column)) None) }
    ensures before { (k : ℕ) → k + frame.now.column < first + left → slice_index_or values.new k None ≡ slice_index_or values.old k None }
    ensures behind { (k : ℕ) → first + right ≤ k + frame.now.column → slice_index_or values.new k None ≡ slice_index_or values.old k None }
{
    if row_is_taken(frame, y, left, right) {
        let place = first + (left - frame.column) as usize;
        tile.copy_row(y, left, &mut values[place..place + (right - left) as usize]);
    } else {
        fill_taken(tile, frame, y, left, right, first, values);
    }
}

// Puts the values of a tile at the nodes of some rows and columns that are taken.
fn fill_tile(
    tile: &Tile,
    frame: &Frame,
    from: u32,
    to: u32,
    left: u32,
    right: u32,
    values: &mut [Option<i64>],
)
    requires mask { HasMask frame.now }
    requires rows { HasRows frame.now from to }
    requires columns { HasColumns frame.now left right }
    requires narrow { right ≤ left + tile_side }
    requires long { length values.old ≡ (to - from) * frame.now.columns }
    requires lies { (y x : ℕ) → from ≤ y → y < to → left ≤ x → x < right → LiesIn tile.now y x }
    ensures long { length values.new ≡ length values.old }
    ensures here { (y x : ℕ) → from ≤ y → y < to → left ≤ x → x < right → shown frame.now from values.new y x ≡ (if is_set frame.now y x then value_in tile.now y x else shown frame.now from values.old y x) }
    ensures other { (y x : ℕ) → from ≤ y → y < to → frame.now.column ≤ x → x < frame.now.column + frame.now.columns → (x < left) ⊎ (right ≤ x) → shown frame.now from values.new y x ≡ shown frame.now from values.old y x }
{
    for y in from..to {
        let first = (y - from) as usize * frame.columns as usize;
        fill_row(tile, frame, y, left, right, first, values);
    }
}

// Reads the tile of some rows in a column of tiles, and puts its values at the nodes that are taken. It isn't opened where
// none is.
fn read_tile(
    alloc: Global,
    store: &mut Store<'_>,
    shape: GridShape,
    frame: &Frame,
    strip: Strip,
    across: u32,
    values: &mut [Option<i64>],
) -> Result<(), OutOfMemory>
    requires grid { shape ≡ (grid_of store.old.subject.held).shape }
    requires shape { IsShape shape }
    requires fits { count shape < 2 ^ 64 }
    requires frame { IsFrame shape frame.now }
    requires parameter { strip.layer.parameter < shape.parameters }
    requires t { strip.layer.t < shape.times }
    requires z { strip.layer.z < shape.levels }
    requires rows { HasRows frame.now strip.from strip.to }
    requires one { strip.to ≤ strip.from / tile_side * tile_side + tile_side }
    requires low { frame.now.column < across * tile_side + tile_side }
    requires high { across * tile_side < frame.now.column + frame.now.columns }
    requires long { length values.old ≡ (strip.to - strip.from) * frame.now.columns }
    requires blank { (y x : ℕ) → strip.from ≤ y → y < strip.to → frame.now.column ≤ x → x < frame.now.column + frame.now.columns → x / tile_side ≡ across → shown frame.now strip.from values.old y x ≡ None }
    ensures long { length values.new ≡ length values.old }
    ensures here { OnOk result ((y x : ℕ) → strip.from ≤ y → y < strip.to → frame.now.column ≤ x → x < frame.now.column + frame.now.columns → x / tile_side ≡ across → shown frame.now strip.from values.new y x ≡ cell_value (grid_of store.old.subject.held) strip.layer.parameter (cell_at frame.now strip.layer.t strip.layer.z y x)) }
    ensures other { (y x : ℕ) → strip.from ≤ y → y < strip.to → frame.now.column ≤ x → x < frame.now.column + frame.now.columns → x / tile_side ≢ across → shown frame.now strip.from values.new y x ≡ shown frame.now strip.from values.old y x }
    ensures read { OnOk result (store.new.numbers ≡ store.old.numbers ++ tile_read shape frame.now strip.layer.parameter strip.layer.t strip.layer.z strip.from strip.to across) }
    ensures unread { OnErr result (store.new.numbers ≡ store.old.numbers) }
    ensures subject { store.new.subject ≡ store.old.subject }
{
    sides_are_small();
    tiles_are_numbered();
    let left = (across * TILE_SIDE).max(frame.column);
    let right = (across * TILE_SIDE + TILE_SIDE).min(frame.column + frame.columns);
    if !has_taken(frame, strip.from, strip.to, left, right) {
        return Ok(());
    }
    let number = tile_number(
        shape,
        GridPlace {
            parameter: strip.layer.parameter,
            t: strip.layer.t,
            z: strip.layer.z,
            y: strip.from,
            x: across * TILE_SIDE,
        },
    );
    let tile = store.tile(alloc, number)?;
    fill_tile(&tile, frame, strip.from, strip.to, left, right, values);
    Ok(())
}

// Reads the values of a strip, tile by tile. None of them was read before.
fn read_tiles(
    alloc: Global,
    store: &mut Store<'_>,
    shape: GridShape,
    frame: &Frame,
    strip: Strip,
    values: &mut [Option<i64>],
) -> Result<(), OutOfMemory>
    requires grid { shape ≡ (grid_of store.old.subject.held).shape }
    requires shape { IsShape shape }
    requires fits { count shape < 2 ^ 64 }
    requires frame { IsFrame shape frame.now }
    requires parameter { strip.layer.parameter < shape.parameters }
    requires t { strip.layer.t < shape.times }
    requires z { strip.layer.z < shape.levels }
    requires rows { HasRows frame.now strip.from strip.to }
    requires one { strip.to ≤ strip.from / tile_side * tile_side + tile_side }
    requires long { length values.old ≡ (strip.to - strip.from) * frame.now.columns }
    requires blank { (k : ℕ) → k < length values.old → slice_index_or values.old k None ≡ None }
    ensures long { length values.new ≡ length values.old }
    ensures values { OnOk result (values.new ≡ map (cell_value (grid_of store.old.subject.held) strip.layer.parameter) (strip_cells frame.now strip.layer.t strip.layer.z strip.from (strip.to - strip.from))) }
    ensures reads { Adds result (ascending_once (tiles shape) (tiles_of_range shape (taken (strip_cells frame.now strip.layer.t strip.layer.z strip.from (strip.to - strip.from))) strip.layer.parameter)) store.old.numbers store.new.numbers }
    ensures subject { store.new.subject ≡ store.old.subject }
{
    sides_are_small();
    tiles_are_numbered();
    for across in frame.column / TILE_SIDE..(frame.column + frame.columns).div_ceil(TILE_SIDE) {
        read_tile(alloc, store, shape, frame, strip, across, values)?;
    }
    Ok(())
}

// The values of a parameter, time and level in some rows of a frame, in the order of the text. The rows stand in one row of
// tiles, of which those are opened that have a node which is taken, in ascending order.
pub(crate) fn fill_strip(
    store: &mut Store<'_>,
    shape: GridShape,
    frame: &Frame,
    strip: Strip,
    buffers: &mut Buffers,
) -> Result<(), OutOfMemory>
    requires grid { shape ≡ (grid_of store.old.subject.held).shape }
    requires shape { IsShape shape }
    requires fits { count shape < 2 ^ 64 }
    requires frame { IsFrame shape frame.now }
    requires parameter { strip.layer.parameter < shape.parameters }
    requires t { strip.layer.t < shape.times }
    requires z { strip.layer.z < shape.levels }
    requires rows { HasRows frame.now strip.from strip.to }
    requires one { strip.to ≤ strip.from / tile_side * tile_side + tile_side }
    ensures values { OnOk result (buffers.new.values.items ≡ map (cell_value (grid_of store.old.subject.held) strip.layer.parameter) (strip_cells frame.now strip.layer.t strip.layer.z strip.from (strip.to - strip.from))) }
    ensures reads { Adds result (ascending_once (tiles shape) (tiles_of_range shape (taken (strip_cells frame.now strip.layer.t strip.layer.z strip.from (strip.to - strip.from))) strip.layer.parameter)) store.old.numbers store.new.numbers }
    ensures subject { store.new.subject ≡ store.old.subject }
{
    let count = (strip.to - strip.from) as usize * frame.columns as usize;
    let values = &mut buffers.values;
    values.clear();
    values.resize(count, None)?;
    read_tiles(buffers.alloc, store, shape, frame, strip, values)
}
