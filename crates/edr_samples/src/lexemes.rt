//! What stands at a place of a plain text of JSON (RFC 8259): whole numbers, `null`, texts without a backslash, and blanks.
//! A reader here answers None at whatever it doesn't know.
ghost use Rattle.std.specs.Prelude.{◌≡◌, ◌≢◌, ◌≤◌, ◌<◌, ◌+◌, ◌^◌, ◌||◌, ◌∷◌, ◌++◌, IfSome, IsTrue, true, length, drop, decimal};
ghost use Rattle.std.specs.List.{prefix_len};
ghost use Rattle.json.specs.Token.{string};
ghost use Rattle.json.specs.Word.{head, is_operator, is_space, ends_word};
ghost use Rattle.json.specs.Lex.{between, lex, token};
ghost use Rattle.json.specs.Run.{is_plain};
ghost use Rattle.edr_samples.specs.Codes.{sample_of};
ghost use Rattle.edr_samples.specs.Lexemes.{Gives, GivesWhole, GivesSample};

use crate::codes::{NULL, code_of};

// The byte at a place, or a blank behind the end.
#[inline(always)]
pub(crate) fn byte_at(text: &[u8], at: usize) -> u8
    ensures value { result ≡ head (drop at text.now) }
    ensures inside { result ≢ 32 → at < length text.now }
{
    if at < text.len() { text[at] } else { b' ' }
}

#[inline(always)]
fn is_blank(byte: u8) -> bool
    ensures { result ≡ is_space byte }
{
    (byte == b' ') | (byte == b'\t') | (byte == b'\n') | (byte == b'\r')
}

// Whether a number or a word may end before that byte.
#[inline(always)]
fn is_delimiter(byte: u8) -> bool
    ensures { result ≡ (is_operator byte || is_space byte) }
{
    let operator = (byte == b'{')
        | (byte == b'}')
        | (byte == b'[')
        | (byte == b']')
        | (byte == b':')
        | (byte == b',');
    let space = (byte == b' ') | (byte == b'\t') | (byte == b'\n') | (byte == b'\r');
    operator | space
}

// Where the blanks from a place on end.
#[inline(always)]
pub(crate) fn blanks_end(text: &[u8], from: usize) -> usize
    requires { from ≤ length text.now }
    ensures same { lex between (drop result text.now) ≡ lex between (drop from text.now) }
    ensures within { result ≤ length text.now }
{
    let mut at = from;
    'blanks: while at < text.len() && is_blank(text[at]) {
        at += 1;
    }
    at
}

// From this on a further digit isn't read.
const MANY: u64 = 100_000_000_000_000_000;

// The number that the digits from a place on write, and where they end: at most 18 digits, and no nought before others.
#[inline(always)]
fn digits_at(text: &[u8], from: usize) -> Option<(u64, usize)>
    ensures digits { IfSome result (λ r. drop from text.now ≡ decimal r.0 ++ drop r.1 text.now) }
    ensures few { IfSome result (λ r. r.0 < 10 ^ 18) }
    ensures within { IfSome result (λ r. r.1 ≤ length text.now) }
{
    let first = byte_at(text, from);
    if first < b'0' || b'9' < first {
        return None;
    }
    let mut number = (first - b'0') as u64;
    let mut at = from + 1;
    'digits: while at < text.len() && b'0' <= text[at] && text[at] <= b'9' {
        if number == 0 || MANY <= number {
            return None;
        }
        number = number * 10 + (text[at] - b'0') as u64;
        at += 1;
    }
    Some((number, at))
}

#[inline(always)]
fn natural_at(text: &[u8], from: usize) -> Option<(i64, usize)>
    ensures number { IfSome result (λ r. GivesWhole (drop from text.now) r.0 (drop r.1 text.now)) }
    ensures within { IfSome result (λ r. r.1 ≤ length text.now) }
{
    let Some((number, end)) = digits_at(text, from) else {
        return None;
    };
    if is_delimiter(byte_at(text, end)) {
        Some((number as i64, end))
    } else {
        None
    }
}

// `-0` is no whole number.
#[inline(always)]
fn negative_at(text: &[u8], from: usize) -> Option<(i64, usize)>
    requires minus { head (drop from text.now) ≡ 45 }
    requires inside { from < length text.now }
    ensures number { IfSome result (λ r. GivesWhole (drop from text.now) r.0 (drop r.1 text.now)) }
    ensures within { IfSome result (λ r. r.1 ≤ length text.now) }
{
    let Some((number, end)) = digits_at(text, from + 1) else {
        return None;
    };
    if number != 0 && is_delimiter(byte_at(text, end)) {
        Some((-(number as i64), end))
    } else {
        None
    }
}

// The whole number at a place, and where it ends.
#[inline(always)]
pub(crate) fn whole_at(text: &[u8], from: usize) -> Option<(i64, usize)>
    ensures number { IfSome result (λ r. GivesWhole (drop from text.now) r.0 (drop r.1 text.now)) }
    ensures within { IfSome result (λ r. r.1 ≤ length text.now) }
{
    if byte_at(text, from) == b'-' {
        negative_at(text, from)
    } else {
        natural_at(text, from)
    }
}

// Whether `null` stands at a place.
#[inline(always)]
pub(crate) fn is_null_at(text: &[u8], from: usize) -> bool
    requires { from ≤ length text.now }
    ensures null { IsTrue result → drop from text.now ≡ 110 ∷ 117 ∷ 108 ∷ 108 ∷ drop (from + 4) text.now }
    ensures ended { IsTrue result → ends_word (drop (from + 4) text.now) ≡ true }
    ensures within { IsTrue result → from + 4 ≤ length text.now }
{
    text.len() - from >= 4
        && text[from] == b'n'
        && text[from + 1] == b'u'
        && text[from + 2] == b'l'
        && text[from + 3] == b'l'
        && is_delimiter(byte_at(text, from + 4))
}

// The code of `null` at a place, and where it ends.
#[inline(always)]
fn null_at(text: &[u8], from: usize) -> Option<(i32, usize)>
    requires { from ≤ length text.now }
    ensures sample { IfSome result (λ r. GivesSample (drop from text.now) (sample_of r.0) (drop r.1 text.now)) }
    ensures within { IfSome result (λ r. r.1 ≤ length text.now) }
{
    if is_null_at(text, from) {
        Some((NULL, from + 4))
    } else {
        None
    }
}

// The code of the sample at a place, where it has one, and where the sample ends.
#[inline(always)]
pub(crate) fn code_at(text: &[u8], from: usize) -> Option<(i32, usize)>
    requires { from ≤ length text.now }
    ensures sample { IfSome result (λ r. GivesSample (drop from text.now) (sample_of r.0) (drop r.1 text.now)) }
    ensures within { IfSome result (λ r. r.1 ≤ length text.now) }
{
    let Some((number, end)) = whole_at(text, from) else {
        return null_at(text, from);
    };
    match code_of(Some(number)) {
        Some(code) => Some((code, end)),
        None => None,
    }
}

// Where the text that begins at a place has a quote, a backslash or a byte below a blank, or ends.
fn plain_end(text: &[u8], from: usize) -> usize
    requires { from ≤ length text.now }
    ensures plain { result ≡ from + prefix_len is_plain (drop from text.now) }
    ensures within { result ≤ length text.now }
{
    let mut at = from;
    'bytes: while at < text.len() && text[at] != b'"' && text[at] != b'\\' && text[at] >= b' ' {
        at += 1;
    }
    at
}

// The text between the quotes at a place, which has no backslash, and where it ends.
#[inline(always)]
pub(crate) fn text_at(text: &[u8], from: usize) -> Option<(&str, usize)>
    ensures text { IfSome result (λ r. Gives (drop from text.now) (token (string r.0.now)) (drop r.1 text.now)) }
    ensures within { IfSome result (λ r. r.1 ≤ length text.now) }
{
    if byte_at(text, from) != b'"' {
        return None;
    }
    let start = from + 1;
    let end = plain_end(text, start);
    if byte_at(text, end) != b'"' {
        return None;
    }
    match std::str::from_utf8(&text[start..end]) {
        Ok(found) => Some((found, end + 1)),
        Err(_) => None,
    }
}
