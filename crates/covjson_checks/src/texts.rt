//! Texts of a tree, kept.
ghost use Rattle.std.specs.Prelude.{◌≡◌, IfOk, IfSome, IsUtf8, Ok, option_map};
ghost use Rattle.covjson_checks.specs.Answers.{GivesUnlessMemory};

use crate::faults::CovFault;
use edr_base::Text;
use std::alloc::Global;

/// A text of its own.
pub fn text_of(alloc: Global, text: &str) -> Result<Text, CovFault>
    ensures value { GivesUnlessMemory (λ t. t) result (Ok text.now) }
    ensures utf8 { IfOk result IsUtf8 }
{
    Ok(Text::of(alloc, text.as_bytes())?)
}

/// The text, where there is one.
pub fn text_where_given(alloc: Global, text: Option<&str>) -> Result<Option<Text>, CovFault>
    ensures value { GivesUnlessMemory (λ t. t) result (Ok (option_map (λ s. s.now) text.entry)) }
    ensures utf8 { IfOk result (λ t. IfSome t IsUtf8) }
{
    match text {
        Some(text) => Ok(Some(text_of(alloc, text)?)),
        None => Ok(None),
    }
}
