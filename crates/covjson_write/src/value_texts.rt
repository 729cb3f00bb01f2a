//! The texts of values, put into a buffer that has room.
ghost use Rattle.std.specs.Prelude.{◌≡◌, ◌+◌, ◌*◌, ◌≤◌, length};
ghost use Rattle.json.specs.Filled.{Placed};
ghost use Rattle.serde_json.specs.Written.{compact_text};
ghost use Rattle.covjson_value.specs.Trees.{sample_data};
ghost use Rattle.covjson_write.specs.Pieces.{value_piece, values_from};

use crate::places::{place_byte, place_comma, place_integer, place_slice};

/// A value and the comma before it have no more bytes than this.
pub const VALUE_SIZE: usize = 24;

// Puts a value at a place, or null where it is absent. The answer is the place behind it.
#[inline(always)]
#[tactic(auto, using(crate::proofs::HeadTextLemmas::integer_text))]
fn place_value(buffer: &mut [u8], at: usize, sample: Option<i64>) -> usize
    requires { at + 21 ≤ length buffer.old }
    ensures text { Placed buffer.old buffer.new at (compact_text (sample_data sample)) result }
    ensures short { result ≤ at + 21 }
{
    match sample {
        Some(value) => place_integer(buffer, at, value),
        None => place_slice(buffer, at, b"null"),
    }
}

/// Puts value number `number` at the front of a buffer, with a comma before it unless it is the first.
pub fn place_one(buffer: &mut [u8], number: usize, sample: Option<i64>) -> usize
    requires { 24 ≤ length buffer.old }
    ensures text { Placed buffer.old buffer.new 0 (value_piece number sample) result }
    ensures short { result ≤ 24 }
{
    let next = place_comma(buffer, 0, number > 0);
    place_value(buffer, next, sample)
}

/// Puts values behind others, each with a comma before it.
pub fn place_values(buffer: &mut [u8], start: usize, samples: &[Option<i64>]) -> usize
    requires { start + 24 * length samples.now ≤ length buffer.old }
    ensures text { Placed buffer.old buffer.new start (values_from 1 samples.now) result }
    ensures short { result ≤ length buffer.old }
{
    let mut at = start;
    for sample in samples {
        let next = place_byte(buffer, at, b',');
        at = place_value(buffer, next, *sample);
    }
    at
}
