//! What holds of coverages and documents as they are read.
ghost use Rattle.covjson_read.specs.CoverageAnswers.{CoverageAnswersFollowRows, AnswersAreWhatStands};
ghost use Rattle.covjson_read.specs.Laws.{CoverageRowsHaveOneAnswer, CoverageRowsAreWhatStands, TreesStandForOne, ReadCoveragesAreValid, DocumentRowsHaveOneAnswer, DocumentRowsAreWhatStands, TextsHaveOneDocument, ReadDocumentsAreValid, WrittenDocumentsAreRead};

use covjson_domains::{
    domain_answers_follow_rows, domain_rows_are_what_stands, domain_rows_have_one_answer,
    written_domains_stand,
};
use covjson_ranges::{
    range_answers_follow_rows, range_rows_are_what_stand, range_rows_have_one_answer,
    ranges_are_valid, written_ranges_stand,
};
use covjson_value::document_texts_read_back;
use edr_json::{texts_have_one_tree, texts_have_trees};

/// The checks of a coverage, one after the other, have one answer.
pub fn coverage_rows_have_one_answer()
    ensures { CoverageRowsHaveOneAnswer }
{
    domain_rows_have_one_answer();
    domain_answers_follow_rows();
    range_rows_have_one_answer();
    range_answers_follow_rows();
}

/// They end in a coverage exactly where the tree stands for it (OGC 21-069r2, Coverage objects).
pub fn coverage_rows_are_what_stands()
    ensures { CoverageRowsAreWhatStands }
{
    domain_rows_are_what_stands();
    range_rows_are_what_stand();
}

/// A tree stands for at most one coverage.
pub fn trees_stand_for_one()
    ensures { TreesStandForOne }
{
    coverage_rows_have_one_answer();
    coverage_rows_are_what_stands();
}

/// What a tree that was read stands for is valid.
pub fn read_coverages_are_valid()
    ensures { ReadCoveragesAreValid }
{
    ranges_are_valid();
}

/// The checks of a document, one after the other, have one answer.
pub fn document_rows_have_one_answer()
    ensures { DocumentRowsHaveOneAnswer }
{
    texts_have_one_tree();
    coverage_rows_have_one_answer();
    coverage_answers_follow_rows();
}

/// They end in a document exactly where the text stands for it (OGC 21-069r2, CoverageJSON documents).
pub fn document_rows_are_what_stands()
    ensures { DocumentRowsAreWhatStands }
{
    coverage_rows_are_what_stands();
}

/// A text stands for at most one document.
pub fn texts_have_one_document()
    ensures { TextsHaveOneDocument }
{
    document_rows_have_one_answer();
    document_rows_are_what_stands();
}

/// What a text stands for is valid.
pub fn read_documents_are_valid()
    ensures { ReadDocumentsAreValid }
{
    texts_have_trees();
    read_coverages_are_valid();
}

/// What is written of a valid document stands for it.
pub fn written_documents_are_read()
    ensures { WrittenDocumentsAreRead }
{
    document_texts_read_back();
    written_domains_stand();
    written_ranges_stand();
}

/// The computed answer to a tree follows the checks.
pub fn coverage_answers_follow_rows()
    ensures { CoverageAnswersFollowRows }
{
    domain_rows_have_one_answer();
    domain_answers_follow_rows();
    range_rows_have_one_answer();
    range_answers_follow_rows();
}

/// The answer to a tree is a coverage exactly where the tree stands for that coverage.
pub fn answers_are_what_stands()
    ensures { AnswersAreWhatStands }
{
    coverage_rows_have_one_answer();
    coverage_rows_are_what_stands();
    coverage_answers_follow_rows();
}
