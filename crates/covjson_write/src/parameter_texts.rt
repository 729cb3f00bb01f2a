//! The texts of parameters.
ghost use Rattle.std.specs.Prelude.{◌≡◌, ◌++◌, OnOk, IfSome, IsUtf8, All};
ghost use Rattle.serde_json.specs.Written.{compact_text};
ghost use Rattle.covjson_value.specs.Coverages.{IsParameter};
ghost use Rattle.covjson_value.specs.Trees.{parameters_data};
ghost use Rattle.covjson_write.specs.HeadTexts.{unit_member, keyed_parameter};

use crate::leaves::{push_bytes, push_comma, push_quoted};
use covjson_value::Parameter;
use edr_base::{OutOfMemory, Text};
use std::alloc::Global;

fn push_unit(text: &mut Vec<u8>, alloc: Global, unit: &Option<Text>) -> Result<(), OutOfMemory>
    requires { IfSome unit.now IsUtf8 }
    ensures { OnOk result (text.new.items ≡ text.old.items ++ unit_member unit.now) }
{
    let Some(unit) = unit else {
        return Ok(());
    };
    push_quoted(text, alloc, b",\"unit\":{\"symbol\":", unit.bytes())?;
    push_bytes(text, b"}")
}

fn push_parameter(
    text: &mut Vec<u8>,
    alloc: Global,
    parameter: &Parameter,
) -> Result<(), OutOfMemory>
    requires { IsParameter parameter.now }
    ensures { OnOk result (text.new.items ≡ text.old.items ++ keyed_parameter parameter.now) }
{
    push_quoted(text, alloc, b"", parameter.id.bytes())?;
    push_quoted(
        text,
        alloc,
        b":{\"observedProperty\":{\"label\":{",
        parameter.lang.bytes(),
    )?;
    push_quoted(text, alloc, b":", parameter.label.bytes())?;
    push_bytes(text, b"}},\"type\":\"Parameter\"")?;
    push_unit(text, alloc, &parameter.unit)?;
    push_bytes(text, b"}")
}

/// Puts some parameters, by their ids.
pub fn push_parameters(
    text: &mut Vec<u8>,
    alloc: Global,
    parameters: &[Parameter],
) -> Result<(), OutOfMemory>
    requires { All IsParameter parameters.now }
    ensures { OnOk result (text.new.items ≡ text.old.items ++ compact_text (parameters_data parameters.now)) }
{
    push_bytes(text, b"{")?;
    for place in 0..parameters.len() {
        push_comma(text, place > 0)?;
        push_parameter(text, alloc, &parameters[place])?;
    }
    push_bytes(text, b"}")
}
