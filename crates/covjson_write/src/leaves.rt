//! Texts and numbers of JSON, put behind a text.
ghost use Rattle.std.specs.Prelude.{◌≡◌, ◌++◌, OnOk, IsUtf8, decimal};
ghost use Rattle.std.specs.Bool.{OnTrue};
ghost use Rattle.json.specs.Print.{escape, quoted};
ghost use Rattle.serde_json.specs.Written.{compact_text, comma_if};
ghost use Rattle.edr_axes.specs.Instants.{IsTime, instant_text};
ghost use Rattle.covjson_value.specs.Domains.{coordinate_key};
ghost use Rattle.covjson_value.specs.Trees.{integer};
ghost use Rattle.covjson_value.specs.AxisNames.{axis_key};

use covjson_value::{AxisName, CoordinateName, text_of};
use edr_axes::{times_are_written, write_instant};
use edr_base::OutOfMemory;
use itoa::Buffer;
use json::Writer;
use std::alloc::Global;
use std::mem;

/// Puts bytes as they are.
pub fn push_bytes(text: &mut Vec<u8>, bytes: &[u8]) -> Result<(), OutOfMemory>
    ensures { OnOk result (text.new.items ≡ text.old.items ++ bytes.now) }
{
    text.extend_from_slice(bytes)?;
    Ok(())
}

/// Puts a comma, where others stand before.
pub fn push_comma(text: &mut Vec<u8>, later: bool) -> Result<(), OutOfMemory>
    ensures { OnOk result (text.new.items ≡ text.old.items ++ comma_if later) }
{
    if later {
        push_bytes(text, b",")
    } else {
        Ok(())
    }
}

// Whether the bytes stand in a text of JSON as they are.
fn is_plain(bytes: &[u8]) -> bool
    ensures { OnTrue result (escape bytes.now ≡ bytes.now) }
{
    for byte in bytes {
        if *byte < 32 || *byte == b'"' || *byte == b'\\' {
            return false;
        }
    }
    true
}

fn push_plain(text: &mut Vec<u8>, bytes: &[u8]) -> Result<(), OutOfMemory>
    requires { escape bytes.now ≡ bytes.now }
    ensures { OnOk result (text.new.items ≡ text.old.items ++ quoted bytes.now) }
{
    push_bytes(text, b"\"")?;
    push_bytes(text, bytes)?;
    push_bytes(text, b"\"")
}

// By the library of JSON, which escapes what has to be.
#[tactic(auto, using(crate::proofs::HeadTextLemmas::print_text))]
fn push_escaped(text: &mut Vec<u8>, alloc: Global, bytes: &[u8]) -> Result<(), OutOfMemory>
    requires { IsUtf8 bytes.now }
    ensures { OnOk result (text.new.items ≡ text.old.items ++ quoted bytes.now) }
{
    let mut writer = Writer::new(mem::replace(text, Vec::new(alloc)));
    writer.string(text_of(bytes))?;
    *text = writer.into_inner();
    Ok(())
}

/// Puts bytes as they are, and a text of UTF-8 in quotes behind them.
pub fn push_quoted(
    text: &mut Vec<u8>,
    alloc: Global,
    before: &[u8],
    bytes: &[u8],
) -> Result<(), OutOfMemory>
    requires { IsUtf8 bytes.now }
    ensures { OnOk result (text.new.items ≡ text.old.items ++ (before.now ++ quoted bytes.now)) }
{
    push_bytes(text, before)?;
    if is_plain(bytes) {
        push_plain(text, bytes)
    } else {
        push_escaped(text, alloc, bytes)
    }
}

/// Puts a count.
pub fn push_number(text: &mut Vec<u8>, count: usize) -> Result<(), OutOfMemory>
    ensures { OnOk result (text.new.items ≡ text.old.items ++ decimal count) }
{
    let mut buffer = Buffer::new();
    push_bytes(text, buffer.format(count).as_bytes())
}

/// Puts an integer.
#[tactic(auto, using(crate::proofs::HeadTextLemmas::integer_text))]
pub fn push_integer(text: &mut Vec<u8>, value: i64) -> Result<(), OutOfMemory>
    ensures { OnOk result (text.new.items ≡ text.old.items ++ compact_text (integer value)) }
{
    let mut buffer = Buffer::new();
    push_bytes(text, buffer.format(value).as_bytes())
}

/// Puts a time, in seconds since 1970-01-01T00:00:00Z, as its text in quotes.
pub fn push_time(text: &mut Vec<u8>, time: i64) -> Result<(), OutOfMemory>
    requires { IsTime time }
    ensures { OnOk result (text.new.items ≡ text.old.items ++ quoted (instant_text time)) }
{
    times_are_written();
    push_plain(text, &write_instant(time))
}

/// The identifier of a coordinate, in quotes.
#[tactic(auto, unfolding(json::proofs::OnLiterals::json_on_literals))]
pub fn quoted_name(name: CoordinateName) -> &'static [u8]
    ensures { result.now ≡ quoted (coordinate_key name) }
{
    match name {
        CoordinateName::T => b"\"t\"",
        CoordinateName::Z => b"\"z\"",
        CoordinateName::Y => b"\"y\"",
        CoordinateName::X => b"\"x\"",
    }
}

/// The name of an axis, in quotes.
#[tactic(auto, unfolding(json::proofs::OnLiterals::json_on_literals))]
pub fn quoted_axis(name: AxisName) -> &'static [u8]
    ensures { result.now ≡ quoted (axis_key name) }
{
    match name {
        AxisName::T => b"\"t\"",
        AxisName::Z => b"\"z\"",
        AxisName::Y => b"\"y\"",
        AxisName::X => b"\"x\"",
        AxisName::Composite => b"\"composite\"",
    }
}
