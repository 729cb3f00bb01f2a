//! Coverages of one parameter, written round their values.
ghost use Rattle.std.specs.Prelude.{◌≡◌, ◌*◌, true, false, length, IfOk, OnOk, IsErrOf};
ghost use Rattle.edr_base.specs.Outside.{Rose};
ghost use Rattle.edr_base.specs.Calls.{SinkLent, Writes};
ghost use Rattle.covjson_value.specs.Domains.{count_of};
ghost use Rattle.covjson_write.specs.declared.stages.Stage.TheVariants.{Open};
ghost use Rattle.covjson_write.specs.Writers.{IsHead, started, with_coverage, with_range};
ghost use Rattle.edr_make.specs.Made.{grid_values};
ghost use Rattle.edr_make.specs.MadeParts.{opening, closing, around};

use crate::made_values::write_rows;
use covjson_value::Coverage;
use covjson_write::Writer;
use edr_base::{SendFault, Sink};
use std::alloc::Global;

// Writes a coverage into a document that was begun, as far as the values of its first range.
fn open_range<K: Sink>(
    alloc: Global,
    writer: &mut Writer,
    sink: &mut K,
    head: &Coverage,
) -> Result<(), SendFault>
    requires started { writer.old ≡ started false }
    requires head { IsHead head.now }
    ensures writer { OnOk result (writer.new ≡ with_range (with_coverage (started false) head.now)) }
    ensures bytes { Writes result (opening head.now) (K.written sink.old) (K.written sink.new) }
    ensures lent { SinkLent (K.beside sink.old) (K.beside sink.new) (K.faults sink.old) (K.faults sink.new) }
    ensures cause { IsErrOf result SendFault.WriteFault → Rose (K.faults sink.old) (K.faults sink.new) }
{
    writer.coverage(alloc, sink, head)?;
    writer.range_begin(alloc, sink, 0)
}

// Begins a document of one coverage, and writes it as far as the values of its first range.
fn begin_coverage<K: Sink>(
    alloc: Global,
    sink: &mut K,
    head: &Coverage,
) -> Result<Writer, SendFault>
    requires head { IsHead head.now }
    ensures writer { IfOk result (λ writer. writer ≡ with_range (with_coverage (started false) head.now)) }
    ensures bytes { Writes result (opening head.now) (K.written sink.old) (K.written sink.new) }
    ensures lent { SinkLent (K.beside sink.old) (K.beside sink.new) (K.faults sink.old) (K.faults sink.new) }
    ensures cause { IsErrOf result SendFault.WriteFault → Rose (K.faults sink.old) (K.faults sink.new) }
{
    let mut writer = Writer::begin(alloc, sink, false)?;
    open_range(alloc, &mut writer, sink, head)?;
    Ok(writer)
}

// Writes what stands behind the values of the one range.
fn end_coverage<K: Sink>(writer: Writer, sink: &mut K) -> Result<(), SendFault>
    requires open { writer.stage ≡ Open }
    requires begun { writer.begun ≡ true }
    requires none { writer.ranges ≡ 0 }
    requires one { length writer.head.keys ≡ 1 }
    requires alone { writer.many ≡ false }
    requires whole { writer.values ≡ writer.head.count }
    ensures bytes { Writes result (closing writer.head) (K.written sink.old) (K.written sink.new) }
    ensures lent { SinkLent (K.beside sink.old) (K.beside sink.new) (K.faults sink.old) (K.faults sink.new) }
    ensures cause { IsErrOf result SendFault.WriteFault → Rose (K.faults sink.old) (K.faults sink.new) }
{
    let mut writer = writer;
    writer.range_end(sink)?;
    writer.finish(sink)
}

/// Writes a coverage with these values.
pub fn write_coverage<K: Sink>(
    alloc: Global,
    sink: &mut K,
    head: &Coverage,
    values: &[Option<i64>],
) -> Result<(), SendFault>
    requires head { IsHead head.now }
    requires one { length head.now.parameters ≡ 1 }
    requires count { length values.now ≡ count_of head.now.domain }
    ensures text { Writes result (around head.now values.now) (K.written sink.old) (K.written sink.new) }
    ensures lent { SinkLent (K.beside sink.old) (K.beside sink.new) (K.faults sink.old) (K.faults sink.new) }
    ensures cause { IsErrOf result SendFault.WriteFault → Rose (K.faults sink.old) (K.faults sink.new) }
{
    let mut writer = begin_coverage(alloc, sink, head)?;
    writer.values(sink, values)?;
    end_coverage(writer, sink)
}

/// Writes a coverage with the values of the grid.
pub fn write_grid_coverage<K: Sink>(
    alloc: Global,
    sink: &mut K,
    head: &Coverage,
    number: u64,
    rows: u32,
    columns: u32,
) -> Result<(), SendFault>
    requires head { IsHead head.now }
    requires one { length head.now.parameters ≡ 1 }
    requires count { rows * columns ≡ count_of head.now.domain }
    ensures text { Writes result (around head.now (grid_values number rows columns)) (K.written sink.old) (K.written sink.new) }
    ensures lent { SinkLent (K.beside sink.old) (K.beside sink.new) (K.faults sink.old) (K.faults sink.new) }
    ensures cause { IsErrOf result SendFault.WriteFault → Rose (K.faults sink.old) (K.faults sink.new) }
{
    let mut writer = begin_coverage(alloc, sink, head)?;
    write_rows(alloc, &mut writer, sink, number, rows, columns)?;
    end_coverage(writer, sink)
}
