//! Bytes and integers put at a place of a buffer that has room.
ghost use Rattle.std.specs.Prelude.{◌≡◌, ◌+◌, ◌<◌, ◌≤◌, ◌∷◌, [], length, decimal};
ghost use Rattle.std.specs.Fmt.{signed_decimal};
ghost use Rattle.json.specs.Filled.{Placed};
ghost use Rattle.serde_json.specs.Written.{comma_if};

use itoa::Buffer;

/// Puts a byte at a place. The answer is the place behind it.
#[inline(always)]
pub fn place_byte(buffer: &mut [u8], at: usize, byte: u8) -> usize
    requires { at < length buffer.old }
    ensures { Placed buffer.old buffer.new at (byte ∷ []) result }
{
    buffer[at] = byte;
    at + 1
}

/// Puts a comma at a place, where others stand before.
#[inline(always)]
pub fn place_comma(buffer: &mut [u8], at: usize, later: bool) -> usize
    requires { at < length buffer.old }
    ensures { Placed buffer.old buffer.new at (comma_if later) result }
{
    if later {
        place_byte(buffer, at, b',')
    } else {
        at
    }
}

/// Puts bytes at a place.
#[inline(always)]
pub fn place_slice(buffer: &mut [u8], at: usize, bytes: &[u8]) -> usize
    requires { at + length bytes.now ≤ length buffer.old }
    ensures { Placed buffer.old buffer.new at bytes.now result }
{
    let end = at + bytes.len();
    buffer[at..end].copy_from_slice(bytes);
    end
}

// A digit.
#[inline(always)]
fn place_digit(buffer: &mut [u8], at: usize, digit: u64) -> usize
    requires room { at < length buffer.old }
    requires digit { digit < 10 }
    ensures { Placed buffer.old buffer.new at ((48 + digit) ∷ []) result }
{
    place_byte(buffer, at, b'0' + digit as u8)
}

#[inline(always)]
fn place_two(buffer: &mut [u8], at: usize, number: u64) -> usize
    requires room { at + 2 ≤ length buffer.old }
    requires two { (10 ≤ number) × (number < 100) }
    ensures { Placed buffer.old buffer.new at (decimal number) result }
{
    let next = place_digit(buffer, at, number / 10);
    place_digit(buffer, next, number % 10)
}

#[inline(always)]
fn place_three(buffer: &mut [u8], at: usize, number: u64) -> usize
    requires room { at + 3 ≤ length buffer.old }
    requires three { (100 ≤ number) × (number < 1000) }
    ensures { Placed buffer.old buffer.new at (decimal number) result }
{
    let next = place_two(buffer, at, number / 10);
    place_digit(buffer, next, number % 10)
}

#[inline(never)]
fn place_long(buffer: &mut [u8], at: usize, number: u64) -> usize
    requires { at + 20 ≤ length buffer.old }
    ensures { Placed buffer.old buffer.new at (decimal number) result }
{
    let mut digits = Buffer::new();
    place_slice(buffer, at, digits.format(number).as_bytes())
}

#[inline(always)]
#[tactic(auto, using(crate::proofs::PlaceLemmas::number_short))]
fn place_number(buffer: &mut [u8], at: usize, number: u64) -> usize
    requires { at + 20 ≤ length buffer.old }
    ensures text { Placed buffer.old buffer.new at (decimal number) result }
    ensures short { result ≤ at + 20 }
{
    if number < 10 {
        place_digit(buffer, at, number)
    } else if number < 100 {
        place_two(buffer, at, number)
    } else if number < 1000 {
        place_three(buffer, at, number)
    } else {
        place_long(buffer, at, number)
    }
}

/// Puts an integer at a place.
#[inline(always)]
pub fn place_integer(buffer: &mut [u8], at: usize, value: i64) -> usize
    requires { at + 21 ≤ length buffer.old }
    ensures text { Placed buffer.old buffer.new at (signed_decimal value) result }
    ensures short { result ≤ at + 21 }
{
    if value >= 0 {
        return place_number(buffer, at, value as u64);
    }
    let next = place_byte(buffer, at, b'-');
    place_number(buffer, next, value.unsigned_abs())
}
