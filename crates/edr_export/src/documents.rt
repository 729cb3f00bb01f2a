//! The documents of queries, held whole.
ghost use Rattle.std.specs.Prelude.{◌≡◌, [], Some, option_map, IfOk, OnOk};
ghost use Rattle.covjson_value.specs.declared.coverages.Document.{Document};
ghost use Rattle.covjson_value.specs.Coverages.{IsValidDocument};
ghost use Rattle.covjson_value.specs.Trees.{document_text};
ghost use Rattle.edr_select.specs.Documents.{document};
ghost use Rattle.edr_select.specs.Plans.{StandsFor};
ghost use Rattle.edr_select.specs.Planning.{IsPlanFor};
ghost use Rattle.edr_export.specs.Documents.{MatchDocument};

use covjson_checks::CovFault;
use covjson_read::{read_document, texts_have_one_document, written_documents_are_read};
use covjson_value::Document;
use edr_base::{OutOfMemory, QuietSink, SendFault, Sink};
use edr_edition::{Edition, Store};
use edr_plan::plan;
use edr_query::Query;
use edr_select::Plan;
use edr_send::send;
use edr_serve::AnswerFault;
use std::alloc::Global;

// The id of the instance that a query names.
fn instance_named(query: &Query) -> Option<&[u8]>
    ensures { option_map (λ id. id.now) result ≡ query.now.instance }
{
    match &query.instance {
        Some(id) => Some(id.bytes()),
        None => None,
    }
}

// Sends the document of a plan to memory.
fn send_to(
    alloc: Global,
    plan: &Plan,
    store: &mut Store<'_>,
    sink: &mut QuietSink,
) -> Result<(), OutOfMemory>
    requires stands { StandsFor plan.now store.old.subject }
    requires unread { store.old.numbers ≡ [] }
    requires empty { ⟦<QuietSink as Sink>⟧.written sink.old ≡ Some [] }
    ensures { OnOk result (⟦<QuietSink as Sink>⟧.written sink.new
        ≡ Some (document_text (document store.old.subject plan.now.query))) }
{
    match send(alloc, plan, store, sink) {
        Ok(()) => Ok(()),
        Err(SendFault::WriteFault) => unreachable!(),
        Err(SendFault::OutOfMemory) => Err(OutOfMemory),
    }
}

// The document that a text is written of.
fn read_back(alloc: Global, text: &[u8]) -> Result<Document, OutOfMemory>
    requires { (document : Document) × IsValidDocument document × (text.now ≡ document_text document) }
    ensures { (document : Document) → IsValidDocument document → text.now ≡ document_text document
        → IfOk result (λ read. read ≡ document) }
{
    written_documents_are_read();
    texts_have_one_document();
    match read_document(alloc, text) {
        Ok(document) => Ok(document),
        Err(CovFault::OutOfMemory) => Err(OutOfMemory),
        Err(_) => unreachable!(),
    }
}

// The document of a query, by its plan.
fn document_planned(
    alloc: Global,
    plan: &Plan,
    query: &Query,
    edition: &Edition,
) -> Result<Document, OutOfMemory>
    requires { IsPlanFor edition.now query.now plan.now }
    ensures { (planned : IsPlanFor edition.now query.now plan.now)
        → IfOk result (λ d. d ≡ document planned.subject query.now) }
{
    let mut store = Store::of(
        alloc,
        edition,
        query.collection.bytes(),
        instance_named(query),
    );
    let mut sink = QuietSink::of(alloc, usize::MAX);
    send_to(alloc, plan, &mut store, &mut sink)?;
    read_back(alloc, sink.written())
}

/// The document that a query gets from an edition, or the first refusal that applies.
pub(crate) fn document_of(
    alloc: Global,
    query: &Query,
    edition: &Edition,
) -> Result<Document, AnswerFault>
    ensures { MatchDocument result edition.now query.now }
{
    let plan = plan(alloc, query, edition)?;
    let outcome = document_planned(alloc, &plan, query, edition);
    drop(plan);
    match outcome {
        Ok(document) => Ok(document),
        Err(_) => Err(AnswerFault::OutOfMemory),
    }
}
