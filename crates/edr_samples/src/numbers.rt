//! Numbers of JSON (RFC 8259, section 6), as `serde_json` reads them.
ghost use Rattle.std.specs.Prelude.{◌≡◌, ◌∷◌, [], ◌==◌, ◌<◌, length, slice_index, IsTrue, IfSome, Some, option_map, true, false};
ghost use Rattle.serde_json.specs.Find.{of_integer};
ghost use Rattle.serde_json.specs.Read.{number_of, number_from, float_of};
ghost use Rattle.serde_json.specs.View.{number_view};
ghost use Rattle.json.specs.Reads.{token_of};
ghost use Rattle.edr_samples.specs.Codes.{sample_of};
ghost use Rattle.edr_samples.specs.Tokens.{IsSample};

use crate::codes::code_of;
use fast_float::Numeral;
use json::Token;
use serde_json::Number;

#[inline(always)]
fn has_minus(bytes: &[u8]) -> bool
    ensures value { result ≡ (slice_index bytes.now 0 == 45) }
    ensures some { IsTrue result → 0 < length bytes.now }
{
    !bytes.is_empty() && bytes[0] == b'-'
}

// The number that a text of one byte writes, where that is a digit.
#[inline(always)]
fn digit_of(byte: u8) -> Option<i64>
    ensures { IfSome result (λ z. number_of (byte ∷ []) ≡ Some (of_integer z)) }
{
    let digit = byte.wrapping_sub(b'0');
    if digit <= 9 { Some(digit as i64) } else { None }
}

// The whole number of 64 bits that a text writes, where it writes one.
#[inline(always)]
fn whole_of(text: &str) -> Option<i64>
    ensures { IfSome result (λ z. number_of text.now ≡ Some (of_integer z)) }
{
    let bytes = text.as_bytes();
    if bytes.len() == 1 {
        return digit_of(bytes[0]);
    }
    if has_minus(bytes) {
        negative_of(&Numeral::scan(&bytes[1..]))
    } else {
        positive_of(&Numeral::scan(bytes))
    }
}

#[inline(always)]
fn positive_of(numeral: &Numeral<'_>) -> Option<i64>
    ensures { IfSome result (λ z. number_from false numeral.now ≡ Some (of_integer z)) }
{
    numeral.to_i64(false)
}

// `-0` is no whole number: it is read as a number with a floating point.
#[inline(always)]
fn negative_of(numeral: &Numeral<'_>) -> Option<i64>
    ensures { IfSome result (λ z. number_from true numeral.now ≡ Some (of_integer z)) }
{
    let number = numeral.to_i64(true)?;
    if number < 0 { Some(number) } else { None }
}

// The code of the sample that a token is, where it is one that has a code.
#[inline(always)]
pub(crate) fn code_in(token: Token<'_>) -> Option<i32>
    ensures { IfSome result (λ code. IsSample (token_of token.entry) (sample_of code)) }
{
    match token {
        Token::Number(text) => match whole_of(text) {
            Some(number) => code_of(Some(number)),
            None => None,
        },
        Token::Null => code_of(None),
        _ => None,
    }
}

#[inline(always)]
fn nearest(negative: bool, numeral: &Numeral<'_>) -> Option<Number>
    ensures { option_map number_view result ≡ float_of negative numeral.now }
{
    Number::from_f64(numeral.to_float::<f64>(negative))
}

fn unsigned(numeral: &Numeral<'_>) -> Option<Number>
    ensures { option_map number_view result ≡ number_from false numeral.now }
{
    match numeral.to_u64() {
        Some(number) => Some(Number::from(number)),
        None => nearest(false, numeral),
    }
}

fn negative(numeral: &Numeral<'_>) -> Option<Number>
    ensures { option_map number_view result ≡ number_from true numeral.now }
{
    if let Some(number) = numeral.to_i64(true) {
        if number < 0 {
            return Some(Number::from(number));
        }
    }
    nearest(true, numeral)
}

// The number that the text of a token writes, where a number of 64 bits holds it, whole or with a floating point.
pub(crate) fn number_of(text: &str) -> Option<Number>
    ensures { option_map number_view result ≡ number_of text.now }
{
    let bytes = text.as_bytes();
    if has_minus(bytes) {
        negative(&Numeral::scan(&bytes[1..]))
    } else {
        unsigned(&Numeral::scan(bytes))
    }
}
