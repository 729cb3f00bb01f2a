//! Documents written as tables.
ghost use Rattle.std.specs.Prelude.{◌≡◌, All, IsErrOf, length};
ghost use Rattle.std.specs.List.{flat_map};
ghost use Rattle.edr_base.specs.Outside.{Rose};
ghost use Rattle.edr_base.specs.Calls.{SinkLent, Writes};
ghost use Rattle.covjson_value.specs.Coverages.{HasAxes, HasTuples, IsValid, IsValidDocument};
ghost use Rattle.covjson_value.specs.Samples.{nodes_of};
ghost use Rattle.edr_table.specs.Gathering.{Gathers};
ghost use Rattle.edr_table.specs.Tables.{coverage_lines, line_text, table_of};
ghost use Rattle.edr_table.specs.Turns.{lines_from};

use crate::lines::Lines;
use crate::turns::put_parameter;
use covjson_value::{Coverage, Document, Domain, NdArray, Parameter};
use edr_base::{SendFault, Sink, send};
use std::alloc::Global;

// Puts the lines of parameters with their ranges.
fn put_parameters<K: Sink>(
    sink: &mut K,
    lines: &mut Lines,
    domain: &Domain,
    parameters: &[Parameter],
    ranges: &[NdArray],
) -> Result<(), SendFault>
    requires axes { HasAxes domain.now }
    requires tuples { HasTuples domain.now }
    requires as_many { length ranges.now ≡ length parameters.now }
    ensures lines { Gathers result (lines_from (nodes_of domain.now) parameters.now ranges.now)
        (K.written sink.old) (K.written sink.new) lines.old.gathered.items lines.new.gathered.items }
    ensures flushed { K.flushed sink.new ≡ K.flushed sink.old }
    ensures lent { SinkLent (K.beside sink.old) (K.beside sink.new) (K.faults sink.old) (K.faults sink.new) }
    ensures cause { IsErrOf result SendFault.WriteFault → Rose (K.faults sink.old) (K.faults sink.new) }
{
    for place in 0..parameters.len() {
        let id = parameters[place].id.bytes();
        put_parameter(sink, lines, domain, id, ranges[place].values.items())?;
    }
    Ok(())
}

// Puts the lines of a coverage.
fn put_coverage<K: Sink>(
    sink: &mut K,
    lines: &mut Lines,
    coverage: &Coverage,
) -> Result<(), SendFault>
    requires { IsValid coverage.now }
    ensures lines { Gathers result (flat_map line_text (coverage_lines coverage.now))
        (K.written sink.old) (K.written sink.new) lines.old.gathered.items lines.new.gathered.items }
    ensures flushed { K.flushed sink.new ≡ K.flushed sink.old }
    ensures lent { SinkLent (K.beside sink.old) (K.beside sink.new) (K.faults sink.old) (K.faults sink.new) }
    ensures cause { IsErrOf result SendFault.WriteFault → Rose (K.faults sink.old) (K.faults sink.new) }
{
    put_parameters(
        sink,
        lines,
        &coverage.domain,
        coverage.parameters.items(),
        coverage.ranges.items(),
    )
}

// Puts the lines of coverages.
fn put_coverages<K: Sink>(
    sink: &mut K,
    lines: &mut Lines,
    coverages: &[Coverage],
) -> Result<(), SendFault>
    requires { All IsValid coverages.now }
    ensures lines { Gathers result (flat_map line_text (flat_map coverage_lines coverages.now))
        (K.written sink.old) (K.written sink.new) lines.old.gathered.items lines.new.gathered.items }
    ensures flushed { K.flushed sink.new ≡ K.flushed sink.old }
    ensures lent { SinkLent (K.beside sink.old) (K.beside sink.new) (K.faults sink.old) (K.faults sink.new) }
    ensures cause { IsErrOf result SendFault.WriteFault → Rose (K.faults sink.old) (K.faults sink.new) }
{
    for coverage in coverages {
        put_coverage(sink, lines, coverage)?;
    }
    Ok(())
}

// Puts the lines of a document.
fn put_document<K: Sink>(
    sink: &mut K,
    lines: &mut Lines,
    document: &Document,
) -> Result<(), SendFault>
    requires { IsValidDocument document.now }
    ensures lines { Gathers result (table_of document.now)
        (K.written sink.old) (K.written sink.new) lines.old.gathered.items lines.new.gathered.items }
    ensures flushed { K.flushed sink.new ≡ K.flushed sink.old }
    ensures lent { SinkLent (K.beside sink.old) (K.beside sink.new) (K.faults sink.old) (K.faults sink.new) }
    ensures cause { IsErrOf result SendFault.WriteFault → Rose (K.faults sink.old) (K.faults sink.new) }
{
    match document {
        Document::One(coverage) => put_coverage(sink, lines, coverage),
        Document::Many(coverages) => put_coverages(sink, lines, coverages.items()),
    }
}

/// Writes the table of a document that is valid (`Document::is_valid`): one line for each value of each range, coverage by
/// coverage and parameter by parameter, in the order of the NdArray (OGC 21-069r2).
///
/// A line has the parameter's id, t (`YYYY-MM-DDTHH:MM:SSZ`), z, y, x (in metres) and the value, with tabs between them
/// and a line feed behind them. A time or a level that the domain hasn't, and a missing value, are `-`.
///
/// It keeps no more than some thousand bytes of the table, and writes these at once; it doesn't flush. After a fault a
/// beginning of the table was written: `WriteFault` is a fault of the sink, which counted it, and `OutOfMemory` is want of
/// memory.
pub fn write_table<K: Sink>(
    alloc: Global,
    document: &Document,
    sink: &mut K,
) -> Result<(), SendFault>
    requires { IsValidDocument document.now }
    ensures table { Writes result (table_of document.now) (K.written sink.old) (K.written sink.new) }
    ensures flushed { K.flushed sink.new ≡ K.flushed sink.old }
    ensures lent { SinkLent (K.beside sink.old) (K.beside sink.new) (K.faults sink.old) (K.faults sink.new) }
    ensures cause { IsErrOf result SendFault.WriteFault → Rose (K.faults sink.old) (K.faults sink.new) }
{
    let mut lines = Lines::new(alloc);
    put_document(sink, &mut lines, document)?;
    send(sink, &lines.gathered)
}
