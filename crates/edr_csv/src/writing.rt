//! The values of documents, written as a table.
ghost use Rattle.std.specs.Prelude.{◌≡◌, All, IsErrOf, length};
ghost use Rattle.std.specs.List.{flat_map};
ghost use Rattle.edr_base.specs.Outside.{Rose};
ghost use Rattle.edr_base.specs.Calls.{SinkLent, Writes};
ghost use Rattle.covjson_value.specs.Coverages.{HasAxes, HasTuples, IsValid, IsValidDocument};
ghost use Rattle.covjson_value.specs.Samples.{nodes_of};
ghost use Rattle.edr_csv.specs.Gathering.{Gathers};
ghost use Rattle.edr_csv.specs.Rows.{document_records};
ghost use Rattle.edr_csv.specs.Tables.{table_text};
ghost use Rattle.edr_csv.specs.Turns.{coverage_text, records_from, values_text};

use crate::records::Records;
use crate::turns::put_parameter;
use covjson_value::{Coverage, Document, Domain, NdArray, Parameter};
use edr_base::{SendFault, Sink, Text, send};
use std::alloc::Global;

// Puts the records of parameters with their ranges, in a coverage of this id.
fn put_parameters<K: Sink>(
    sink: &mut K,
    records: &mut Records,
    domain: &Domain,
    id: &Option<Text>,
    parameters: &[Parameter],
    ranges: &[NdArray],
) -> Result<(), SendFault>
    requires axes { HasAxes domain.now }
    requires tuples { HasTuples domain.now }
    requires as_many { length ranges.now ≡ length parameters.now }
    ensures records { Gathers result (records_from id.now (nodes_of domain.now) parameters.now ranges.now)
        (K.written sink.old) (K.written sink.new) records.old.gathered.items records.new.gathered.items }
    ensures flushed { K.flushed sink.new ≡ K.flushed sink.old }
    ensures lent { SinkLent (K.beside sink.old) (K.beside sink.new) (K.faults sink.old) (K.faults sink.new) }
    ensures cause { IsErrOf result SendFault.WriteFault → Rose (K.faults sink.old) (K.faults sink.new) }
{
    for place in 0..parameters.len() {
        let parameter = parameters[place].id.bytes();
        put_parameter(
            sink,
            records,
            domain,
            id,
            parameter,
            ranges[place].values.items(),
        )?;
    }
    Ok(())
}

// Puts the records of a coverage.
fn put_coverage<K: Sink>(
    sink: &mut K,
    records: &mut Records,
    coverage: &Coverage,
) -> Result<(), SendFault>
    requires { IsValid coverage.now }
    ensures records { Gathers result (coverage_text coverage.now)
        (K.written sink.old) (K.written sink.new) records.old.gathered.items records.new.gathered.items }
    ensures flushed { K.flushed sink.new ≡ K.flushed sink.old }
    ensures lent { SinkLent (K.beside sink.old) (K.beside sink.new) (K.faults sink.old) (K.faults sink.new) }
    ensures cause { IsErrOf result SendFault.WriteFault → Rose (K.faults sink.old) (K.faults sink.new) }
{
    put_parameters(
        sink,
        records,
        &coverage.domain,
        &coverage.id,
        coverage.parameters.items(),
        coverage.ranges.items(),
    )
}

// Puts the records of coverages.
fn put_coverages<K: Sink>(
    sink: &mut K,
    records: &mut Records,
    coverages: &[Coverage],
) -> Result<(), SendFault>
    requires { All IsValid coverages.now }
    ensures records { Gathers result (flat_map coverage_text coverages.now)
        (K.written sink.old) (K.written sink.new) records.old.gathered.items records.new.gathered.items }
    ensures flushed { K.flushed sink.new ≡ K.flushed sink.old }
    ensures lent { SinkLent (K.beside sink.old) (K.beside sink.new) (K.faults sink.old) (K.faults sink.new) }
    ensures cause { IsErrOf result SendFault.WriteFault → Rose (K.faults sink.old) (K.faults sink.new) }
{
    for coverage in coverages {
        put_coverage(sink, records, coverage)?;
    }
    Ok(())
}

// Puts the records of a document.
#[tactic(auto, using(crate::proofs::RecordLemmas::one_text))]
fn put_document<K: Sink>(
    sink: &mut K,
    records: &mut Records,
    document: &Document,
) -> Result<(), SendFault>
    requires { IsValidDocument document.now }
    ensures records { Gathers result (values_text document.now)
        (K.written sink.old) (K.written sink.new) records.old.gathered.items records.new.gathered.items }
    ensures flushed { K.flushed sink.new ≡ K.flushed sink.old }
    ensures lent { SinkLent (K.beside sink.old) (K.beside sink.new) (K.faults sink.old) (K.faults sink.new) }
    ensures cause { IsErrOf result SendFault.WriteFault → Rose (K.faults sink.old) (K.faults sink.new) }
{
    match document {
        Document::One(coverage) => put_coverage(sink, records, coverage),
        Document::Many(coverages) => put_coverages(sink, records, coverages.items()),
    }
}

/// Writes the values of a document that is valid (`Document::is_valid`) as a table of comma-separated values (RFC 4180), each
/// record with a line feed behind it: the header `parameter,t,z,y,x,id,value`, and one record for each value of each range
/// that isn't missing, coverage by coverage and parameter by parameter, in the order of the NdArray (OGC 21-069r2).
///
/// A record has the parameter's id, t (`YYYY-MM-DDTHH:MM:SSZ`), z, y, x (in metres), the coverage's id and the value. A time
/// or a level that the domain hasn't, and an id that the coverage hasn't, are an empty field. A field with a comma, a
/// quotation mark or a line end in it stands in quotation marks, those within it written twice. So the table is read back as
/// these records (`written_values_are_read`).
///
/// It keeps no more than some thousand bytes of the table, and writes these at once; it doesn't flush. After a fault a
/// beginning of the table was written: `WriteFault` is a fault of the sink, which counted it, and `OutOfMemory` is want of
/// memory.
pub fn write_rows<K: Sink>(
    alloc: Global,
    document: &Document,
    sink: &mut K,
) -> Result<(), SendFault>
    requires { IsValidDocument document.now }
    ensures table { Writes result (table_text (document_records document.now)) (K.written sink.old) (K.written sink.new) }
    ensures flushed { K.flushed sink.new ≡ K.flushed sink.old }
    ensures lent { SinkLent (K.beside sink.old) (K.beside sink.new) (K.faults sink.old) (K.faults sink.new) }
    ensures cause { IsErrOf result SendFault.WriteFault → Rose (K.faults sink.old) (K.faults sink.new) }
{
    let mut records = Records::with_header(alloc)?;
    put_document(sink, &mut records, document)?;
    send(sink, &records.gathered)
}
