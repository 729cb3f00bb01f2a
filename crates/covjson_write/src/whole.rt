//! The text of a whole document.
ghost use Rattle.std.specs.Prelude.{◌≡◌, IfOk};
ghost use Rattle.covjson_value.specs.Coverages.{IsValidDocument};
ghost use Rattle.covjson_value.specs.Trees.{document_text};

use covjson_value::{Document, document_tree};
use edr_base::{OutOfMemory, Text};
use std::alloc::Global;

/// The text of a document (OGC 21-069r2, Coverage and CoverageCollection objects) that is valid (`Document::is_valid`):
/// compact JSON, with the members of each object in ascending order of their keys. Want of memory is the only error.
pub fn write_whole(alloc: Global, document: &Document) -> Result<Text, OutOfMemory>
    requires { IsValidDocument document.now }
    ensures { IfOk result (λ text. text ≡ document_text document.now) }
{
    let tree = document_tree(alloc, document)?;
    let text = tree.to_vec(alloc)?;
    Ok(Text::from_vec(text))
}
