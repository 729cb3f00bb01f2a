//! What the fields of a head say of the reply.
ghost use Rattle.std.specs.Prelude.{◌≡◌, ◌↔◌, ℕ, List, [], ◌∷◌, length, map, codes, IsTrue, All, MatchOption};
ghost use Rattle.std.specs.Char.{to_ascii_lowercase};
ghost use Rattle.httparse.specs.Spans.{IsHeaderWithin, header_bytes};
ghost use Rattle.edr_http.specs.Checks.{is_named};
ghost use Rattle.edr_reply.specs.Messages.{values_of, IsEdition, IsInChunks, IsFraming};
ghost use Rattle.edr_reply.specs.Finding.{TellsField};

use crate::framing::Framing;
use crate::messages::BODY_LIMIT;
use crate::numbers::{Number, number_of};
use httparse::spans::HeaderSpan;

// Whether a field has a name, which is given in small letters.
fn is_named(bytes: &[u8], field: HeaderSpan, name: &[u8]) -> bool
    requires small { map to_ascii_lowercase name.now ≡ name.now }
    requires within { IsHeaderWithin (length bytes.now) field }
    ensures { result ≡ is_named name.now (header_bytes bytes.now field) }
{
    field.name.of(bytes).eq_ignore_ascii_case(name)
}

// The value of the one field of a name, which is given in small letters.
fn one_value<'a>(bytes: &'a [u8], fields: &[HeaderSpan], name: &[u8]) -> Option<&'a [u8]>
    requires small { map to_ascii_lowercase name.now ≡ name.now }
    requires within { All (IsHeaderWithin (length bytes.now)) fields.now }
    ensures { MatchOption result
        ((value : List ℕ) → ¬ (values_of name.now (map (header_bytes bytes.now) fields.now) ≡ value ∷ []))
        (λ value. values_of name.now (map (header_bytes bytes.now) fields.now) ≡ value.now ∷ []) }
{
    let mut count: usize = 0;
    let mut value: &[u8] = &[];
    for field in fields {
        if is_named(bytes, *field, name) {
            value = field.value.of(bytes);
            count += 1;
        }
    }
    if count == 1 { Some(value) } else { None }
}

// What the one field of a name is as a number.
fn number_in(bytes: &[u8], fields: &[HeaderSpan], name: &[u8]) -> Number
    requires small { map to_ascii_lowercase name.now ≡ name.now }
    requires within { All (IsHeaderWithin (length bytes.now)) fields.now }
    ensures { TellsField name.now (map (header_bytes bytes.now) fields.now) result }
{
    match one_value(bytes, fields, name) {
        Some(value) => number_of(value),
        None => Number::NoNumber,
    }
}

// Whether the body is in chunks.
fn is_in_chunks(bytes: &[u8], fields: &[HeaderSpan]) -> bool
    requires { All (IsHeaderWithin (length bytes.now)) fields.now }
    ensures { IsTrue result ↔ IsInChunks (map (header_bytes bytes.now) fields.now) }
{
    match one_value(bytes, fields, b"transfer-encoding") {
        Some(coding) => coding == b"chunked".as_slice(),
        None => false,
    }
}

/// How the end of the body is known.
pub(crate) fn framing_of(bytes: &[u8], fields: &[HeaderSpan]) -> Framing
    requires { All (IsHeaderWithin (length bytes.now)) fields.now }
    ensures { IsFraming (map (header_bytes bytes.now) fields.now) result }
{
    if is_in_chunks(bytes, fields) {
        return Framing::Chunked;
    }
    match number_in(bytes, fields, b"content-length") {
        Number::Value(size) => {
            if size <= BODY_LIMIT as u64 {
                Framing::Sized(size)
            } else {
                Framing::TooLong
            }
        }
        Number::TooLarge => Framing::TooLong,
        Number::NoNumber => Framing::ToEnd,
    }
}

/// The number of the edition, where the fields give one.
pub(crate) fn edition_of(bytes: &[u8], fields: &[HeaderSpan]) -> Option<u64>
    requires { All (IsHeaderWithin (length bytes.now)) fields.now }
    ensures { IsEdition (map (header_bytes bytes.now) fields.now) result }
{
    match number_in(bytes, fields, b"x-edr-edition") {
        Number::Value(number) => Some(number),
        Number::TooLarge => None,
        Number::NoNumber => None,
    }
}
