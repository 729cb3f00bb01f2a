//! Texts of JSON, read to trees.
ghost use Rattle.std.specs.Prelude.{◌≡◌, IfOk, IsErrOf};
ghost use Rattle.edr_samples.specs.Trees.{tree_view};
ghost use Rattle.edr_json.specs.Json.{IsJson, IsNoJson, TextsHaveOneTree};
ghost use Rattle.edr_json.specs.ReadTrees.{TextsHaveTrees};

use edr_samples::{JsonFault, Tree};
use std::alloc::Global;

/// The tree of a text of JSON: NotJson exactly where the text has none.
pub fn read_tree(alloc: Global, text: &[u8]) -> Result<Tree, JsonFault>
    ensures tree { IfOk result (λ tree. IsJson text.now (tree_view tree)) }
    ensures none { IsErrOf result JsonFault.NotJson → IsNoJson text.now }
{
    edr_samples::read_tree(alloc, text)
}

/// A text is JSON of one tree at most.
pub fn texts_have_one_tree()
    ensures { TextsHaveOneTree }
{}

/// The tree of a text has texts of UTF-8 only, keys too, and the keys of each of its objects ascend byte by byte, so that each
/// is there once.
pub fn texts_have_trees()
    ensures { TextsHaveTrees }
{}
