//! Values of queries as tables.
ghost use Rattle.std.specs.Prelude.{IsErrOf};
ghost use Rattle.edr_base.specs.Outside.{Rose};
ghost use Rattle.edr_base.specs.Calls.{SinkLent};
ghost use Rattle.edr_query.specs.declared.pages.Page.TheVariants.{Ask};
ghost use Rattle.edr_serve.specs.Answers.{Answers};
ghost use Rattle.edr_export.specs.Exports.{IsTableFor, IsTableTo};

use crate::documents::document_of;
use edr_base::{Refusal, Sink};
use edr_csv::{write_rows, written_values_are_read};
use edr_edition::Edition;
use edr_query::{Page, Query, read_target};
use edr_serve::AnswerFault;
use std::alloc::Global;

// Writes the table of a query.
fn export_query<K: Sink>(
    alloc: Global,
    query: &Query,
    edition: &Edition,
    sink: &mut K,
) -> Result<(), AnswerFault>
    ensures written { Answers result (IsTableFor edition.now (Ask query.now)) (K.written sink.old) (K.written sink.new) }
    ensures lent { SinkLent (K.beside sink.old) (K.beside sink.new) (K.faults sink.old) (K.faults sink.new) }
    ensures cause { IsErrOf result AnswerFault.WriteFault → Rose (K.faults sink.old) (K.faults sink.new) }
{
    let document = document_of(alloc, query, edition)?;
    written_values_are_read();
    Ok(write_rows(alloc, &document, sink)?)
}

// Writes the table of a page.
fn export_page<K: Sink>(
    alloc: Global,
    page: &Page,
    edition: &Edition,
    sink: &mut K,
) -> Result<(), AnswerFault>
    ensures written { Answers result (IsTableFor edition.now page.now) (K.written sink.old) (K.written sink.new) }
    ensures lent { SinkLent (K.beside sink.old) (K.beside sink.new) (K.faults sink.old) (K.faults sink.new) }
    ensures cause { IsErrOf result AnswerFault.WriteFault → Rose (K.faults sink.old) (K.faults sink.new) }
{
    match page {
        Page::Ask(query) => export_query(alloc, query, edition, sink),
        _ => Err(AnswerFault::Refused(Refusal::NoSuchPage)),
    }
}

/// Writes the values of what an edition answers to a query (OGC 19-086r6, section 8) as a table of comma-separated values (RFC
/// 4180): the header `parameter,t,z,y,x,id,value`, and one record for each value of the document that isn't missing, in the
/// document's order (`edr_csv::write_rows`); or answers the first refusal that applies, by its number. A page that describes has
/// no table, and is refused by `NoSuchPage`.
///
/// The document is held whole before its first record is written. With `Ok` the whole table was written, and with a refusal
/// nothing. After `WriteFault` a beginning of the table was written, and after `OutOfMemory` a beginning of it or nothing.
pub fn export_values<K: Sink>(
    alloc: Global,
    target: &[u8],
    edition: &Edition,
    sink: &mut K,
) -> Result<(), AnswerFault>
    ensures written { Answers result (IsTableTo edition.now target.now) (K.written sink.old) (K.written sink.new) }
    ensures lent { SinkLent (K.beside sink.old) (K.beside sink.new) (K.faults sink.old) (K.faults sink.new) }
    ensures cause { IsErrOf result AnswerFault.WriteFault → Rose (K.faults sink.old) (K.faults sink.new) }
{
    let page = read_target(alloc, target)?;
    let outcome = export_page(alloc, &page, edition, sink);
    drop(page);
    outcome
}
