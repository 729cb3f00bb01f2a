//! What is written of the entries of a feed is read back.
ghost use Rattle.edr_feed.specs.Written.{WrittenLinesAreRead, WrittenFeedsAreRead};

use covjson_read::written_documents_are_read;
use covjson_value::{coverages_are_plain, plain_texts_read_back};

/// The text of an entry is one line of a feed that isn't blank, and is read as that entry: a new collection, an instance, a
/// station, a bare coverage, what is dropped, and a publish.
pub fn written_lines_are_read()
    ensures { WrittenLinesAreRead }
{
    plain_texts_read_back();
    coverages_are_plain();
    written_documents_are_read();
}

/// The text of entries, within the limits of lines and feeds, is a feed of the editions that the entries publish.
pub fn written_feeds_are_read()
    ensures { WrittenFeedsAreRead }
{
    written_lines_are_read();
}
