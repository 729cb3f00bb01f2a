//! Counts of what documents have.
ghost use Rattle.std.specs.Prelude.{◌≡◌, Ok, IfOk};
ghost use Rattle.std.specs.List.{flat_map};
ghost use Rattle.covjson_value.specs.declared.coverages.Document.{Document};
ghost use Rattle.covjson_value.specs.Coverages.{IsValidDocument};
ghost use Rattle.covjson_value.specs.Trees.{document_text};
ghost use Rattle.edr_station.specs.Tallies.{tally_of, and_of};
ghost use Rattle.edr_work.specs.Lines.{coverage_values, document_values};

use covjson_checks::CovFault;
use covjson_read::{read_document, texts_have_one_document, written_documents_are_read};
use covjson_value::{Coverage, Document};
use edr_base::OutOfMemory;
use edr_station::{Tally, tallies_add_up};
use std::alloc::Global;

// With the values of one coverage more.
fn with_coverage(tally: Tally, coverage: &Coverage) -> Result<Tally, OutOfMemory>
    ensures { IfOk result (λ now. now ≡ and_of tally (tally_of (coverage_values coverage.now))) }
{
    tallies_add_up();
    let mut now = tally;
    for range in coverage.ranges.items() {
        now = now.with_all(range.values.items())?;
    }
    Ok(now)
}

// The tally of the values of some coverages.
fn tally_of_coverages(coverages: &[Coverage]) -> Result<Tally, OutOfMemory>
    ensures { IfOk result (λ tally. tally ≡ tally_of (flat_map coverage_values coverages.now)) }
{
    tallies_add_up();
    let mut tally = Tally::none();
    for coverage in coverages {
        tally = with_coverage(tally, coverage)?;
    }
    Ok(tally)
}

// The tally of the values of a document.
fn tally_of_document(document: &Document) -> Result<Tally, OutOfMemory>
    ensures { IfOk result (λ tally. tally ≡ tally_of (document_values document.now)) }
{
    match document {
        Document::One(coverage) => with_coverage(Tally::none(), coverage),
        Document::Many(coverages) => tally_of_coverages(coverages.items()),
    }
}

/// The tally of the values of the document that a text is read as (OGC 21-069r2), where it is written of a valid one. Want of
/// memory, its only error, stands for a count or a sum above what can be held, too.
pub(crate) fn tally_of_text(alloc: Global, text: &[u8]) -> Result<Tally, OutOfMemory>
    requires { (document : Document) × IsValidDocument document × (text.now ≡ document_text document) }
    ensures { (document : Document) → IsValidDocument document → text.now ≡ document_text document → IfOk result (λ tally. tally ≡ tally_of (document_values document)) }
{
    written_documents_are_read();
    texts_have_one_document();
    match read_document(alloc, text) {
        Ok(document) => tally_of_document(&document),
        Err(CovFault::OutOfMemory) => Err(OutOfMemory),
        Err(_) => unreachable!(),
    }
}
