//! Whole numbers as text.
ghost use Rattle.std.specs.Prelude.{◌≡◌, ◌≤◌, ◌<◌, ◌^◌, ◌==◌, ℕ, ℤ, pos, ◌≤ℤ◌, IsTrue, ◌↔◌, MatchOption, not, replicate, List};
ghost use Rattle.std.specs.Int.RustNames.{unsigned_abs};
ghost use Rattle.std.specs.Fmt.{signed_decimal};
ghost use Rattle.std.specs.Char.{is_ascii_digit};
ghost use Rattle.std.specs.Str.Parse.{AllDigits, digits_value};
ghost use Rattle.edr_base.specs.Numbers.{IsPoint, IsUnsigned, IsNumeral, IsWhole, MatchWhole, signed};
ghost use Rattle.edr_base.specs.NumberParts.{MatchUnsigned, IsSplit, IsSignSplit};

/// What a text is as a whole number.
#[derive(Clone, Copy, Debug, PartialEq, Eq)]
pub enum Whole {
    /// Its value.
    Value(i64),
    /// It is a whole number whose size (its absolute value) is above the limit.
    TooLarge,
    /// It is no whole number.
    NotWhole,
}

// What a text is as a whole number without a sign.
enum Unsigned {
    Size(u64),
    TooLarge,
    NotWhole,
}

// The sign of a number, as it is written.
#[derive(Clone, Copy)]
enum Sign {
    NoSign,
    Plus,
    Minus,
}

// The sign at the front, and the rest.
fn split_sign(text: &[u8]) -> (Sign, &[u8])
    ensures { IsSignSplit text.now result.0 result.1.now }
{
    match text {
        [first, rest @ ..] => {
            if *first == b'+' {
                (Sign::Plus, rest)
            } else if *first == b'-' {
                (Sign::Minus, rest)
            } else {
                (Sign::NoSign, text)
            }
        }
        [] => (Sign::NoSign, text),
    }
}

// The number of a size that has the sign.
fn value_of(sign: Sign, size: u64) -> i64
    requires { size < 9223372036854775808 }
    ensures { result ≡ signed sign size }
{
    match sign {
        Sign::Minus => -(size as i64),
        _ => size as i64,
    }
}

// The digits at the front, and the rest.
fn split_digits(text: &[u8]) -> (&[u8], &[u8])
    ensures { IsSplit (λ c. not (is_ascii_digit c)) text.now result.0.now result.1.now }
{
    for (i, byte) in text.iter().enumerate() {
        if !byte.is_ascii_digit() {
            return text.split_at(i);
        }
    }
    (text, &[])
}

// What stands behind the spaces at the front.
fn without_spaces(text: &[u8]) -> &[u8]
    ensures { (spaces : ℕ) × IsSplit (λ c. not (c == 32)) text.now (replicate spaces 32) result.now }
{
    for (i, byte) in text.iter().enumerate() {
        if *byte != b' ' {
            return &text[i..];
        }
    }
    &[]
}

// What stands before the first space, and the rest.
fn split_word(text: &[u8]) -> (&[u8], &[u8])
    ensures { IsSplit (λ c. c == 32) text.now result.0.now result.1.now }
{
    for (i, byte) in text.iter().enumerate() {
        if *byte == b' ' {
            return text.split_at(i);
        }
    }
    (text, &[])
}

// Whether the text is nothing, or a point and zeros.
fn is_point(text: &[u8]) -> bool
    ensures { IsTrue result ↔ IsPoint text.now }
{
    match text {
        [] => true,
        [point, zeros @ ..] => *point == b'.' && zeros.iter().all(|zero| *zero == b'0'),
    }
}

// The number that the digits write, if it isn't above the limit.
pub(crate) fn size_within(digits: &[u8], limit: u64) -> Option<u64>
    requires { AllDigits 10 digits.now }
    ensures { MatchOption result (limit < digits_value 10 digits.now) (λ size. (size ≡ digits_value 10 digits.now) × (size ≤ limit)) }
{
    let mut size: u64 = 0;
    for digit in digits {
        let next = size as u128 * 10 + (*digit - b'0') as u128;
        if next > limit as u128 {
            return None;
        }
        size = next as u64;
    }
    Some(size)
}

// A whole number without a sign and without spaces.
fn without_sign(text: &[u8], limit: u64) -> Unsigned
    ensures { MatchUnsigned result text.now limit }
{
    let (digits, point) = split_digits(text);
    if !is_point(point) {
        return Unsigned::NotWhole;
    }
    if digits.is_empty() && point.len() < 2 {
        return Unsigned::NotWhole;
    }
    match size_within(digits, limit) {
        Some(size) => Unsigned::Size(size),
        None => Unsigned::TooLarge,
    }
}

/// The whole number that a text without spaces is: an optional sign, digits, and an optional point with zeros after it.
///
/// At least one digit stands in all, before or after the point. Its size is at most `limit`.
pub fn numeral(text: &[u8], limit: i64) -> Whole
    requires { pos 0 ≤ℤ limit }
    ensures { MatchWhole result (IsNumeral text.now) limit }
{
    let (sign, rest) = split_sign(text);
    match without_sign(rest, limit as u64) {
        Unsigned::Size(size) => Whole::Value(value_of(sign, size)),
        Unsigned::TooLarge => Whole::TooLarge,
        Unsigned::NotWhole => Whole::NotWhole,
    }
}

/// The whole number that a text is, with spaces around it or without.
///
/// Its size is at most `limit`.
pub fn whole_number(text: &[u8], limit: i64) -> Whole
    requires { pos 0 ≤ℤ limit }
    ensures { MatchWhole result (IsWhole text.now) limit }
{
    let (word, spaces) = split_word(without_spaces(text));
    if without_spaces(spaces).is_empty() {
        numeral(word, limit)
    } else {
        Whole::NotWhole
    }
}

/// A text is at most one whole number; and a number as it is written by `Display` is a numeral, and stands for the number.
pub fn numerals_tell_numbers()
    ensures numeral { (text : List ℕ) (v w : ℤ) → IsNumeral text v → IsNumeral text w → v ≡ w }
    ensures whole { (text : List ℕ) (v w : ℤ) → IsWhole text v → IsWhole text w → v ≡ w }
    ensures written { (z : ℤ) → unsigned_abs z < 2 ^ 64 → IsNumeral (signed_decimal z) z }
{}
