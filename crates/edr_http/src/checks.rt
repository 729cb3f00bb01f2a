//! What a head is refused for, and whether the connection is closed after it.
ghost use Rattle.std.specs.Prelude.{◌≡◌, ◌==◌, map, length, filter, reverse, codes};
ghost use Rattle.std.specs.Char.{to_ascii_lowercase};
ghost use Rattle.std.specs.List.{list_any, list_all};
ghost use Rattle.httparse.specs.Grammar.{is_ows, skip_ows, trim_ows};
ghost use Rattle.edr_http.specs.Checks.{is_word, is_named, are_zeros, brings_body, lists_close, closes, says_close, is_head, Refuses};

use crate::heads::Head;
use edr_base::{Refusal, Text};

/// What a head asks of the reply and of the connection.
#[derive(Clone, Copy, Debug, PartialEq, Eq)]
pub struct Ask {
    /// The method is `HEAD`: the reply has no body.
    pub is_head: bool,
    /// The connection is to be closed after the reply (RFC 9112, section 9.6).
    pub close: bool,
    /// The first refusal that applies to the head, of `BodyNotAllowed`, `BadHost`, `VersionNotOffered` and
    /// `MethodNotOffered`.
    pub refusal: Option<Refusal>,
}

// Whether a text is a word, in any case; the word is given in small letters.
fn is_word(text: &[u8], word: &[u8]) -> bool
    requires { map to_ascii_lowercase word.now ≡ word.now }
    ensures { result ≡ is_word word.now text.now }
{
    text.eq_ignore_ascii_case(word)
}

// Whether a field has a name, which is given in small letters.
fn is_named(field: &(Text, Text), name: &[u8]) -> bool
    requires { map to_ascii_lowercase name.now ≡ name.now }
    ensures { result ≡ is_named name.now field.now }
{
    is_word(field.0.bytes(), name)
}

fn is_all_zeros(text: &[u8]) -> bool
    ensures { result ≡ list_all (λ byte. byte == 48) text.now }
{
    text.iter().all(|byte| *byte == b'0')
}

// Whether a text is one or more zeros.
fn are_zeros(text: &[u8]) -> bool
    ensures { result ≡ are_zeros text.now }
{
    text.len() != 0 && is_all_zeros(text)
}

// Whether a field announces a body.
fn brings_body(field: &(Text, Text)) -> bool
    ensures { result ≡ brings_body field.now }
{
    is_named(field, b"transfer-encoding")
        || (is_named(field, b"content-length") && !are_zeros(field.1.bytes()))
}

// Whether a byte is a space or a tab.
fn is_space_or_tab(byte: u8) -> bool
    ensures { result ≡ is_ows byte }
{
    byte == b' ' || byte == b'\t'
}

// A text without the spaces and tabs before it.
#[tactic(auto, using(crate::proofs::CheckLemmas::skip_yes, crate::proofs::CheckLemmas::skip_no))]
fn skip_blanks(text: &[u8]) -> &[u8]
    ensures { result.now ≡ skip_ows text.now }
{
    let mut rest = text;
    while let Some((first, behind)) = rest.split_first() {
        if !is_space_or_tab(*first) {
            return rest;
        }
        rest = behind;
    }
    rest
}

// A text without the spaces and tabs behind it.
#[tactic(auto, using(crate::proofs::CheckLemmas::drop_yes, crate::proofs::CheckLemmas::drop_no))]
fn drop_blanks(text: &[u8]) -> &[u8]
    ensures { reverse result.now ≡ skip_ows (reverse text.now) }
{
    let mut rest = text;
    while let Some((last, before)) = rest.split_last() {
        if !is_space_or_tab(*last) {
            return rest;
        }
        rest = before;
    }
    rest
}

// A text without the spaces and tabs at its ends.
#[tactic(auto, using(crate::proofs::CheckLemmas::trimmed))]
fn trim_blanks(text: &[u8]) -> &[u8]
    ensures { result.now ≡ trim_ows text.now }
{
    drop_blanks(skip_blanks(text))
}

// Whether one of the texts between the commas of a value is `close`.
fn lists_close(value: &[u8]) -> bool
    ensures { result ≡ lists_close value.now }
{
    value
        .split(|byte| *byte == b',')
        .any(|part| is_word(trim_blanks(part), b"close"))
}

// Whether a field asks for the connection to be closed.
fn closes(field: &(Text, Text)) -> bool
    ensures { result ≡ closes field.now }
{
    is_named(field, b"connection") && lists_close(field.1.bytes())
}

// Whether a head announces a body.
fn has_body(head: &Head) -> bool
    ensures { result ≡ list_any brings_body head.now.fields }
{
    head.fields.items().iter().any(|field| brings_body(field))
}

// How many hosts a head has.
fn hosts(head: &Head) -> usize
    ensures { result ≡ length (filter (is_named (codes "host")) head.now.fields) }
{
    head.fields
        .items()
        .iter()
        .filter(|field| is_named(field, b"host"))
        .count()
}

// Whether a head asks for the connection to be closed.
fn says_close(head: &Head) -> bool
    ensures { result ≡ says_close head.now }
{
    head.fields.items().iter().any(|field| closes(field))
}

// The first refusal that applies to a head.
fn refusal_of(head: &Head) -> Option<Refusal>
    ensures { Refuses head.now result }
{
    let method = head.method.bytes();
    if has_body(head) {
        Some(Refusal::BodyNotAllowed)
    } else if hosts(head) != 1 {
        Some(Refusal::BadHost)
    } else if head.minor != 1 {
        Some(Refusal::VersionNotOffered)
    } else if method != b"GET".as_slice() && method != b"HEAD".as_slice() {
        Some(Refusal::MethodNotOffered)
    } else {
        None
    }
}

/// What a head asks, and the first refusal that applies to it. It takes no memory.
pub fn check_head(head: &Head) -> Ask
    ensures is_head { result.is_head ≡ is_head head.now }
    ensures close { result.close ≡ says_close head.now }
    ensures refusal { Refuses head.now result.refusal }
{
    Ask {
        is_head: head.method.bytes() == b"HEAD".as_slice(),
        close: says_close(head),
        refusal: refusal_of(head),
    }
}
