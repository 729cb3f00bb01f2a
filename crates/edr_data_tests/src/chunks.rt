ghost use Rattle.std.specs.Prelude.{◌≡◌, ◌<◌, ◌+◌, ◌^◌, IfOk, OnOk, IsTrue, length};
ghost use Rattle.edr_chunk.specs.Places.{count, nodes};
ghost use Rattle.edr_chunk.specs.Tiles.{with_parameters};
ghost use Rattle.edr_base.specs.Limits.{HasSample, AreSamples};

use edr_base::{OutOfMemory, SAMPLE_LIMIT};
use edr_chunk::{
    GridPacker, GridPlace, GridShape, Packed, PackedGrid, Reads, open_packed, place_of,
};
use std::alloc::Global;
use std::rt::HostRuntime;

const NUMBERED: GridShape = GridShape {
    parameters: 2,
    times: 2,
    levels: 3,
    rows: 4,
    columns: 5,
};

// Whether the values of a grid are numbered with x fastest, then y, z, t and the parameter.
fn is_numbered() -> bool {
    for n in 0..240u32 {
        let place = GridPlace {
            parameter: (n / 120) as u64,
            t: n / 60 % 2,
            z: n / 20 % 3,
            y: n / 5 % 4,
            x: n % 5,
        };
        if NUMBERED.number(place) != n as u64 || NUMBERED.node_number(place) != (n % 120) as u64 {
            return false;
        }
    }
    true
}

// A sample as it is written; what isn't one is missing.
fn sample_of(word: &str) -> Option<i64>
    ensures { HasSample result }
{
    match word.parse::<i64>() {
        Ok(number) if number.unsigned_abs() <= SAMPLE_LIMIT => Some(number),
        _ => None,
    }
}

fn samples_of(alloc: Global, line: &str) -> Result<Vec<Option<i64>>, OutOfMemory>
    ensures { IfOk result (λ samples. AreSamples samples.items) }
{
    let mut samples = Vec::new(alloc);
    for word in line.split(' ') {
        if !word.is_empty() {
            samples.push(sample_of(word))?;
        }
    }
    Ok(samples)
}

// A mixed list, the empty one, equal ones, and the last span of each width with the first of the next.
const LISTS: &str = "5 null -3 9007199254740991

7 7 7
null null
-9007199254740991 9007199254740991
0 null 254
0 null 255
-1 null 65533
-1 null 65534
0 null 16777214
0 null 16777215
0 null 4294967294
0 null 4294967295";

// Whether a list is packed and comes back where its opening is noted by a number.
fn comes_back(alloc: Global, samples: &[Option<i64>], number: u64, reads: &mut Reads) -> bool
    requires { AreSamples samples.now }
{
    let Ok(packed) = Packed::pack(alloc, samples) else {
        return false;
    };
    match open_packed(alloc, &packed, number, reads) {
        Ok(opened) => opened.as_slice() == samples,
        Err(_) => false,
    }
}

// Whether the list of a line comes back, noted by the next number.
fn line_comes_back(alloc: Global, line: &str, reads: &mut Reads) -> bool {
    let number = reads.numbers().len() as u64;
    match samples_of(alloc, line) {
        Ok(samples) => comes_back(alloc, &samples, number, reads),
        Err(_) => false,
    }
}

// Whether all lists come back, and are noted by their numbers.
fn all_come_back(alloc: Global, lists: &str) -> bool {
    let mut reads = Reads::new(alloc);
    let mut whole = true;
    for line in lists.lines() {
        whole = line_comes_back(alloc, line, &mut reads) && whole;
    }
    whole && reads.numbers() == [0, 1, 2, 3, 4, 5, 6, 7, 8, 9, 10, 11, 12].as_slice()
}

const SQUARE: GridShape = GridShape {
    parameters: 1,
    times: 1,
    levels: 1,
    rows: 65,
    columns: 65,
};

const SEVERAL: GridShape = GridShape {
    parameters: 2,
    times: 2,
    levels: 2,
    rows: 65,
    columns: 66,
};

// A value for each number, some of them missing.
fn sample_at(number: u32) -> Option<i64>
    ensures { HasSample result }
{
    if number % 11 == 10 {
        return None;
    }
    Some(number as i64 * 3 - 5_000)
}

fn samples_from(alloc: Global, first: u32, count: u32) -> Result<Vec<Option<i64>>, OutOfMemory>
    requires { first + count < 2 ^ 32 }
    ensures samples { IfOk result (λ samples. AreSamples samples.items) }
    ensures count { IfOk result (λ samples. length samples.items ≡ count) }
{
    let mut samples = Vec::new(alloc);
    for number in 0..count {
        samples.push(sample_at(first + number))?;
    }
    Ok(samples)
}

// The value of a number, read from its tile.
fn value_at(
    alloc: Global,
    grid: &PackedGrid,
    number: u64,
    reads: &mut Reads,
) -> Result<Option<i64>, OutOfMemory>
    requires { number < count grid.now.shape }
{
    let place = place_of(grid.shape(), number);
    let tile = grid.open(alloc, grid.tile_of(place), reads)?;
    Ok(tile.get(place.y, place.x))
}

// Whether each 17th value of a grid, read from its tile, is that of a list: some of each row and of each column.
fn has_many(alloc: Global, grid: &PackedGrid, samples: &[Option<i64>]) -> bool
    requires { length samples.now ≡ count grid.now.shape }
{
    let mut reads = Reads::new(alloc);
    let mut whole = true;
    for step in 0..samples.len() / 17 {
        let number = step * 17;
        whole = value_at(alloc, grid, number as u64, &mut reads) == Ok(samples[number]) && whole;
    }
    whole && reads.numbers().len() == samples.len() / 17
}

const BELOW: GridPlace = GridPlace {
    parameter: 0,
    t: 0,
    z: 0,
    y: 64,
    x: 0,
};

// Whether the first and the last value of the lowest row of a square are read from the tiles 2 and 3.
fn has_lowest_row(alloc: Global, grid: &PackedGrid) -> bool
    requires { count grid.now.shape ≡ 4225 }
{
    let mut reads = Reads::new(alloc);
    let first = value_at(alloc, grid, 4_160, &mut reads);
    let last = value_at(alloc, grid, 4_224, &mut reads);
    first == Ok(Some(7_480)) && last == Ok(Some(7_672)) && reads.numbers() == [2, 3].as_slice()
}

// Whether the tiles of a square of these values are numbered row by row, and each is opened for its values.
fn is_tiled(alloc: Global, samples: &[Option<i64>]) -> bool
    requires samples { AreSamples samples.now }
    requires count { length samples.now ≡ 4225 }
{
    match PackedGrid::pack(alloc, SQUARE, samples) {
        Ok(grid) => {
            grid.tiles() == 4
                && grid.tile_of(BELOW) == 2
                && has_lowest_row(alloc, &grid)
                && has_many(alloc, &grid, samples)
        }
        Err(_) => false,
    }
}

// Adds a parameter with the values from a number on.
fn add_from(alloc: Global, packer: &mut GridPacker, first: u32) -> Result<(), OutOfMemory>
    requires fits { first + 17160 < 2 ^ 32 }
    requires whole { nodes packer.old.shape ≡ 17160 }
    ensures { OnOk result (packer.new.shape ≡ with_parameters packer.old.shape (packer.old.shape.parameters + 1)) }
{
    packer.add(alloc, &samples_from(alloc, first, 17_160)?)
}

// A grid that gets its parameters in turn.
fn added(alloc: Global) -> Result<PackedGrid, OutOfMemory> {
    let mut packer = GridPacker::new(alloc, SEVERAL);
    add_from(alloc, &mut packer, 0)?;
    add_from(alloc, &mut packer, 17_160)?;
    Ok(packer.finish())
}

// Whether a shape is that of several parameters.
fn is_several_shape(shape: GridShape) -> bool
    ensures { IsTrue result → count shape ≡ 34320 }
{
    let GridShape {
        parameters,
        times,
        levels,
        rows,
        columns,
    } = shape;
    parameters == 2 && times == 2 && levels == 2 && rows == 65 && columns == 66
}

// Whether a grid has several parameters, in so many tiles, and these values.
fn is_several(alloc: Global, grid: Result<PackedGrid, OutOfMemory>, samples: &[Option<i64>]) -> bool
    requires { length samples.now ≡ 34320 }
{
    match grid {
        Ok(grid) => {
            is_several_shape(grid.shape()) && grid.tiles() == 32 && has_many(alloc, &grid, samples)
        }
        Err(_) => false,
    }
}

// Whether a grid of several parameters has these values, and so has one that got them in turn.
fn is_packed(alloc: Global, samples: &[Option<i64>]) -> bool
    requires samples { AreSamples samples.now }
    requires count { length samples.now ≡ 34320 }
{
    is_several(alloc, PackedGrid::pack(alloc, SEVERAL, samples), samples)
        && is_several(alloc, added(alloc), samples)
}

// Whether grids of the values of the first numbers have them in their tiles.
fn are_packed(alloc: Global) -> Result<bool, OutOfMemory> {
    let square = samples_from(alloc, 0, 4_225)?;
    let several = samples_from(alloc, 0, 34_320)?;
    Ok(is_tiled(alloc, &square) && is_packed(alloc, &several))
}

#[test]
fn lists_and_grids_come_back(rt: HostRuntime) {
    let alloc = rt.alloc();
    assert!(rt; is_numbered() && all_come_back(alloc, LISTS));
    assert!(rt; are_packed(alloc) == Ok(true));
}
