//! Documents (OGC 21-069r2, CoverageJSON documents).
ghost use Rattle.std.specs.Prelude.{◌≡◌, ◌≢◌, ◌⊎◌, All, IfOk, IfErr, MatchResult, Ok, Err};
ghost use Rattle.edr_samples.specs.Trees.{tree_view, items_view, list_view};
ghost use Rattle.covjson_value.specs.Coverages.{IsValid, IsValidDocument};
ghost use Rattle.covjson_checks.specs.Answers.{GivesUnlessMemory, each};
ghost use Rattle.covjson_value.specs.declared.coverages.Document.{Document};
ghost use Rattle.covjson_read.specs.CoverageAnswers.{AnswersText, document_of_type, coverage_in};
ghost use Rattle.covjson_read.specs.Standing.{StandsForDocument};
ghost use Rattle.covjson_read.specs.Rows.{DocumentRows};
ghost use Rattle.covjson_read.specs.CoverageAnswers as answers;

use crate::coverages::{coverage_alone, coverage_in};
use crate::laws::{
    coverage_answers_follow_rows, coverage_rows_have_one_answer, document_rows_are_what_stands,
    document_rows_have_one_answer,
};
use covjson_checks::{CovFault, Member, list_at, need, object_at};
use covjson_value::{Coverage, Document};
use edr_base::Items;
use edr_json::{List, Tree, read_tree, text_or_empty};
use std::alloc::Global;

// The coverages of a collection, in turn.
fn coverages_in(
    alloc: Global,
    items: &Vec<Tree>,
    collection: &Tree,
) -> Result<Vec<Coverage>, CovFault>
    ensures answer { GivesUnlessMemory (λ v. v.items) result (each (coverage_in (tree_view collection.now)) (items_view items.now.items)) }
    ensures valid { IfOk result (λ v. All IsValid v.items) }
{
    let mut coverages = Vec::new(alloc);
    for item in items {
        let coverage = coverage_in(alloc, item, collection)?;
        coverages.push(coverage)?;
    }
    Ok(coverages)
}

// The coverages of a list, in turn. Samples are none: WrongType.
fn coverages_of(alloc: Global, list: List<'_>, collection: &Tree) -> Result<Vec<Coverage>, CovFault>
    ensures answer { GivesUnlessMemory (λ v. v.items) result (each (coverage_in (tree_view collection.now)) (list_view list.entry)) }
    ensures valid { IfOk result (λ v. All IsValid v.items) }
{
    match list {
        List::Samples(samples) => {
            if samples.len() != 0 {
                return Err(CovFault::WrongType(Member::Coverages));
            }
            Ok(Vec::new(alloc))
        }
        List::Items(items) => coverages_in(alloc, items, collection),
    }
}

fn many_coverages(alloc: Global, tree: &Tree) -> Result<Document, CovFault>
    ensures answer { GivesUnlessMemory (λ d. d) result (answers.many_coverages (tree_view tree.now)) }
    ensures valid { IfOk result IsValidDocument }
{
    let list = need(tree, "coverages", Member::Coverages)?;
    let items = list_at(list, Member::Coverages)?;
    let coverages = coverages_of(alloc, items, tree)?;
    Ok(Document::Many(Items::of(coverages)))
}

fn document_of_type(alloc: Global, tree: &Tree, kind: &str) -> Result<Document, CovFault>
    ensures answer { GivesUnlessMemory (λ d. d) result (document_of_type kind.now (tree_view tree.now)) }
    ensures valid { IfOk result IsValidDocument }
{
    if kind == "Coverage" {
        Ok(Document::One(coverage_alone(alloc, tree)?))
    } else if kind == "CoverageCollection" {
        many_coverages(alloc, tree)
    } else {
        Err(CovFault::WrongType(Member::Kind))
    }
}

// The document that a tree stands for: its object and its type, and then coverage by coverage.
fn document_of(alloc: Global, tree: &Tree) -> Result<Document, CovFault>
    ensures answer { GivesUnlessMemory (λ d. d) result (answers.document_of (tree_view tree.now)) }
    ensures valid { IfOk result IsValidDocument }
{
    let _members = object_at(tree, Member::Document)?;
    let _kind = need(tree, "type", Member::Kind)?;
    document_of_type(alloc, tree, text_or_empty(tree, "type"))
}

// The answer of a text: NotJson where it isn't JSON, else that of its tree.
fn answer_of(alloc: Global, bytes: &[u8]) -> Result<Document, CovFault>
    ensures answer { MatchResult result (λ d. AnswersText bytes.now (Ok d)) (λ f. AnswersText bytes.now (Err f) ⊎ (f ≡ CovFault.OutOfMemory)) }
    ensures valid { IfOk result IsValidDocument }
{
    let tree = read_tree(alloc, bytes)?;
    document_of(alloc, &tree)
}

/// The document that a text of CoverageJSON stands for (OGC 21-069r2, CoverageJSON documents), or the first check that it
/// fails: NotJson where it isn't JSON (RFC 8259), then WrongType and Missing of the document's object, type and coverages,
/// and then coverage by coverage as `coverage_of` has it. A collection lends its coverages the `domainType`, `referencing`
/// and `parameters` that they lack.
pub fn read_document(alloc: Global, bytes: &[u8]) -> Result<Document, CovFault>
    ensures stands { IfOk result (StandsForDocument bytes.now) }
    ensures none { IfErr result (λ fault. fault ≢ CovFault.OutOfMemory → (document : Document) → ¬ (StandsForDocument bytes.now document)) }
    ensures first_fault { IfErr result (λ fault. fault ≢ CovFault.OutOfMemory → DocumentRows bytes.now (Err fault)) }
    ensures valid { IfOk result IsValidDocument }
{
    coverage_rows_have_one_answer();
    coverage_answers_follow_rows();
    document_rows_have_one_answer();
    document_rows_are_what_stands();
    answer_of(alloc, bytes)
}
