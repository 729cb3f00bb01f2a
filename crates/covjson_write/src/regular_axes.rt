//! The short form of axes of numbers that are equally far apart (OGC 21-069r2, regularly spaced axes).
ghost use Rattle.std.specs.Prelude.{◌≡◌, ◌<◌, ◌++◌, OnOk, length};
ghost use Rattle.serde_json.specs.Written.{compact_text};
ghost use Rattle.covjson_value.specs.Trees.{span_data};

use crate::leaves::{push_bytes, push_integer, push_number};
use edr_base::OutOfMemory;

/// Puts an axis by its count of values, the first and the last.
pub fn push_span(text: &mut Vec<u8>, values: &[i64]) -> Result<(), OutOfMemory>
    requires { 0 < length values.now }
    ensures { OnOk result (text.new.items ≡ text.old.items ++ compact_text (span_data values.now)) }
{
    push_bytes(text, b"{\"num\":")?;
    push_number(text, values.len())?;
    push_bytes(text, b",\"start\":")?;
    push_integer(text, values[0])?;
    push_bytes(text, b",\"stop\":")?;
    push_integer(text, values[values.len() - 1])?;
    push_bytes(text, b"}")
}
