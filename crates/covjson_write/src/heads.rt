//! The texts of a coverage without its ranges.
ghost use Rattle.std.specs.Prelude.{◌≡◌, ◌++◌, IfOk, OnOk, IfSome, IsUtf8, All, map};
ghost use Rattle.json.specs.Print.{quoted};
ghost use Rattle.serde_json.specs.Written.{comma_if};
ghost use Rattle.covjson_value.specs.Coverages.{IsParameter, ids_of};
ghost use Rattle.covjson_write.specs.Pieces.{id_text, coverage_begin};
ghost use Rattle.covjson_write.specs.Writers.{IsHead};

use crate::domain_texts::push_domain;
use crate::leaves::{push_bytes, push_comma, push_quoted};
use crate::parameter_texts::push_parameters;
use covjson_value::{Coverage, Parameter};
use edr_base::{Items, OutOfMemory, Text};
use std::alloc::Global;

// The text of a small coverage without its ranges has fewer bytes.
const HEAD_SIZE: usize = 1024;

fn push_id(text: &mut Vec<u8>, alloc: Global, id: &Option<Text>) -> Result<(), OutOfMemory>
    requires { IfSome id.now IsUtf8 }
    ensures { OnOk result (text.new.items ≡ text.old.items ++ id_text id.now) }
{
    let Some(id) = id else {
        return Ok(());
    };
    push_quoted(text, alloc, b",\"id\":", id.bytes())
}

fn push_head(
    text: &mut Vec<u8>,
    alloc: Global,
    later: bool,
    head: &Coverage,
) -> Result<(), OutOfMemory>
    requires { IsHead head.now }
    ensures { OnOk result (text.new.items ≡ text.old.items ++ (comma_if later ++ coverage_begin head.now)) }
{
    push_comma(text, later)?;
    push_bytes(text, b"{\"domain\":")?;
    push_domain(text, alloc, &head.domain, &head.referencing)?;
    push_id(text, alloc, &head.id)?;
    push_bytes(text, b",\"parameters\":")?;
    push_parameters(text, alloc, head.parameters.items())?;
    push_bytes(text, b",\"ranges\":{")
}

/// A Coverage object as far as its ranges (OGC 21-069r2), with a comma before it if it is a later one of a collection. Want
/// of memory is the only error.
pub fn coverage_text(alloc: Global, later: bool, head: &Coverage) -> Result<Vec<u8>, OutOfMemory>
    requires { IsHead head.now }
    ensures { IfOk result (λ text. text.items ≡ comma_if later ++ coverage_begin head.now) }
{
    let mut text = Vec::with_capacity(alloc, HEAD_SIZE)?;
    push_head(&mut text, alloc, later, head)?;
    Ok(text)
}

// A text as a text of JSON.
fn quoted_text(alloc: Global, text: &Text) -> Result<Text, OutOfMemory>
    requires { IsUtf8 text.now }
    ensures { IfOk result (λ quotation. quotation ≡ quoted text.now) }
{
    let mut quotation = Vec::with_capacity(alloc, text.bytes().len())?;
    push_quoted(&mut quotation, alloc, b"", text.bytes())?;
    Ok(Text::from_vec(quotation))
}

/// The keys of the ranges of some parameters, as texts of JSON. Want of memory is the only error.
pub fn keys_of(alloc: Global, parameters: &[Parameter]) -> Result<Items<Text>, OutOfMemory>
    requires { All IsParameter parameters.now }
    ensures { IfOk result (λ keys. keys ≡ map quoted (ids_of parameters.now)) }
{
    let mut keys = Vec::with_capacity(alloc, parameters.len())?;
    for parameter in parameters {
        let key = quoted_text(alloc, &parameter.id)?;
        keys.push(key)?;
    }
    Ok(Items::of(keys))
}

/// A range's key and what stands between it and its values, with a comma before it if it is a later one. Want of memory is
/// the only error.
pub fn range_text(
    alloc: Global,
    later: bool,
    key: &Text,
    opening: &Text,
) -> Result<Vec<u8>, OutOfMemory>
    ensures { IfOk result (λ text. text.items ≡ comma_if later ++ (key.now ++ opening.now)) }
{
    let mut text = Vec::new(alloc);
    push_comma(&mut text, later)?;
    push_bytes(&mut text, key.bytes())?;
    push_bytes(&mut text, opening.bytes())?;
    Ok(text)
}
