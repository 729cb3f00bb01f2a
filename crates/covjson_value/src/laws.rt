//! What the texts of coverages tell.
ghost use Rattle.covjson_value.specs.Plain.{PlainTextsReadBack, CoveragesArePlain};
ghost use Rattle.covjson_value.specs.Laws.{TextsReadBack, TextsTellCoverages, DocumentTextsReadBack, TextsTellDocuments};

use edr_axes::{texts_tell_times, times_are_written};

/// The compact text of plain JSON (RFC 8259), nested no deeper than a reader goes, is read back as what was written.
pub fn plain_texts_read_back()
    ensures { PlainTextsReadBack }
{}

/// The JSON of a valid coverage is plain: its numbers are whole, its texts are UTF-8, and the names of its objects ascend.
pub fn coverages_are_plain()
    ensures { CoveragesArePlain }
{
    times_are_written();
}

/// A valid coverage's text (OGC 21-069r2, Coverage objects) is UTF-8, and what is read in it is the JSON of the coverage.
pub fn texts_read_back()
    ensures { TextsReadBack }
{
    times_are_written();
}

/// Valid coverages with one text are equal: in their ids, domains, referencing, parameters and values.
pub fn texts_tell_coverages()
    ensures { TextsTellCoverages }
{
    texts_read_back();
    texts_tell_times();
}

/// A valid document's text is UTF-8, and what is read in it is the JSON of the document.
pub fn document_texts_read_back()
    ensures { DocumentTextsReadBack }
{
    times_are_written();
}

/// Valid documents with one text are equal.
pub fn texts_tell_documents()
    ensures { TextsTellDocuments }
{
    document_texts_read_back();
    texts_tell_times();
}
