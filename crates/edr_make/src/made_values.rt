//! The values of the feed that is made of a number.
ghost use Rattle.std.specs.Prelude.{◌≡◌, ◌+◌, ◌*◌, ◌≤◌, ◌<◌, OnOk, IfOk, IsErrOf};
ghost use Rattle.edr_base.specs.Outside.{Rose};
ghost use Rattle.edr_base.specs.Calls.{SinkLent, Writes};
ghost use Rattle.covjson_write.specs.declared.stages.Stage.TheVariants.{Open};
ghost use Rattle.covjson_write.specs.Pieces.{values_from};
ghost use Rattle.covjson_write.specs.Writers.{with_values};
ghost use Rattle.edr_make.specs.Made.{node_value, row_values, grid_values, station_value, series_values};

use covjson_write::Writer;
use edr_base::{OutOfMemory, SendFault, Sink};
use std::alloc::Global;

// The value of a node of the grid. The sum is that of the whole number, as far as its last digit tells.
fn node_value(number: u64, row: u32, column: u32) -> Option<i64>
    ensures { result ≡ node_value number row column }
{
    let (row, column) = (row as u64, column as u64);
    if (column + row) % 13 == 0 {
        return None;
    }
    Some(((number % 10 + column + 3 * row) % 10) as i64)
}

// The value of a station at a time.
fn station_value(number: u64, station: u32, time: u32) -> Option<i64>
    ensures { result ≡ station_value number station time }
{
    Some(((number % 10 + station as u64 + time as u64) % 10) as i64)
}

// Fills the values of a row.
#[tactic(auto, using(crate::proofs::MadeLists::no_row, crate::proofs::MadeLists::row_more))]
fn fill_row(
    values: &mut Vec<Option<i64>>,
    number: u64,
    columns: u32,
    row: u32,
) -> Result<(), OutOfMemory>
    ensures { OnOk result (values.new.items ≡ row_values number columns row) }
{
    values.clear();
    for column in 0..columns {
        values.push(node_value(number, row, column))?;
    }
    Ok(())
}

/// The values of a station.
#[tactic(auto, using(crate::proofs::MadeLists::no_series, crate::proofs::MadeLists::series_more))]
pub fn series_of(
    alloc: Global,
    number: u64,
    times: u32,
    station: u32,
) -> Result<Vec<Option<i64>>, OutOfMemory>
    ensures { IfOk result (λ values. values.items ≡ series_values number times station) }
{
    let mut values = Vec::new(alloc);
    for time in 0..times {
        values.push(station_value(number, station, time))?;
    }
    Ok(values)
}

// Fills the values of a row and writes them, as the next ones of the open range.
fn write_row<K: Sink>(
    writer: &mut Writer,
    sink: &mut K,
    number: u64,
    columns: u32,
    row: u32,
    values: &mut Vec<Option<i64>>,
) -> Result<(), SendFault>
    requires open { writer.old.stage ≡ Open }
    requires room { writer.old.values + columns ≤ writer.old.head.count }
    ensures bytes { Writes result (values_from writer.old.values (row_values number columns row)) (K.written sink.old) (K.written sink.new) }
    ensures writer { OnOk result (writer.new ≡ with_values writer.old columns) }
    ensures lent { SinkLent (K.beside sink.old) (K.beside sink.new) (K.faults sink.old) (K.faults sink.new) }
    ensures cause { IsErrOf result SendFault.WriteFault → Rose (K.faults sink.old) (K.faults sink.new) }
{
    fill_row(values, number, columns, row)?;
    writer.values(sink, values)
}

/// Writes the values of the grid, row by row, as those of the open range. Each row takes the memory of the one before.
pub fn write_rows<K: Sink>(
    alloc: Global,
    writer: &mut Writer,
    sink: &mut K,
    number: u64,
    rows: u32,
    columns: u32,
) -> Result<(), SendFault>
    requires open { writer.old.stage ≡ Open }
    requires none { writer.old.values ≡ 0 }
    requires room { rows * columns ≤ writer.old.head.count }
    ensures bytes { Writes result (values_from 0 (grid_values number rows columns)) (K.written sink.old) (K.written sink.new) }
    ensures writer { OnOk result (writer.new ≡ with_values writer.old (rows * columns)) }
    ensures lent { SinkLent (K.beside sink.old) (K.beside sink.new) (K.faults sink.old) (K.faults sink.new) }
    ensures cause { IsErrOf result SendFault.WriteFault → Rose (K.faults sink.old) (K.faults sink.new) }
{
    let mut values = Vec::new(alloc);
    for row in 0..rows {
        write_row(writer, sink, number, columns, row, &mut values)?;
    }
    Ok(())
}
