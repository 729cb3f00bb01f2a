//! Samples as trees, each by itself, for a list in which another item follows.
ghost use Rattle.std.specs.Prelude.{◌≡◌, IfOk, map};
ghost use Rattle.edr_samples.specs.Codes.{sample_of};
ghost use Rattle.edr_samples.specs.Tokens.{sample_data};
ghost use Rattle.edr_samples.specs.Trees.{tree_view};

use crate::codes::sample_of;
use crate::trees::Tree;
use serde_json::Number;
use std::alloc::{AllocError, Global};

// The tree of a sample, by its code.
#[inline(always)]
fn tree_of(code: i32) -> Tree
    ensures { tree_view result ≡ sample_data (sample_of code) }
{
    match sample_of(code) {
        Some(number) => Tree::Number(Number::from(number)),
        None => Tree::Null,
    }
}

// The trees of samples, by their codes.
pub(crate) fn unpacked(alloc: Global, codes: &[i32]) -> Result<Vec<Tree>, AllocError>
    ensures { IfOk result (λ v. map tree_view v.items ≡ map sample_data (map sample_of codes.now)) }
{
    let mut found = Vec::with_capacity(alloc, codes.len())?;
    for code in codes {
        found.push(tree_of(*code))?;
    }
    Ok(found)
}
