//! A reader of the tokens of plain texts of JSON (RFC 8259), past the JSON library's own: it stands at a place of the text, and
//! gives up at whatever it doesn't know.
ghost use Rattle.std.specs.Prelude.{◌≡◌, ◌≢◌, ◌≤◌, ◌⊎◌, ◌∷◌, [], ℕ, List, Some, IfSome, IsTrue, MatchOption, drop, length, option_map};
ghost use Rattle.std.specs.Bool.{MatchBool};
ghost use Rattle.json.specs.Token.{Token as SpecToken, begin_array, begin_object, end_array, end_object, key, string, number, null};
ghost use Rattle.json.specs.Json.{read_key};
ghost use Rattle.json.specs.Lex.{after_value, between, lex, may_begin, may_close, punctuate, tokens};
ghost use Rattle.serde_json.specs.Find.{of_integer};
ghost use Rattle.serde_json.specs.Read.{number_of};
ghost use Rattle.edr_samples.specs.Codes.{sample_of};
ghost use Rattle.edr_samples.specs.Tokens.{IsSample};
ghost use Rattle.edr_samples.specs.Plain.{place_of, tokens_at};

use crate::lexemes::{blanks_end, byte_at, code_at, is_null_at, text_at, whole_at};
use std::marker::Model;

// What may stand where the text goes on.
#[derive(Clone, Copy)]
pub(crate) enum Place {
    // A value, a name or the end.
    Fresh,
    // The end.
    AfterValue,
    // A value or a name.
    AfterComma,
}

impl Place {
    #[inline(always)]
    fn may_begin(self) -> bool
        ensures { result ≡ may_begin (place_of self) }
    {
        matches!(self, Place::Fresh | Place::AfterComma)
    }

    #[inline(always)]
    fn may_close(self) -> bool
        ensures { result ≡ may_close (place_of self) }
    {
        matches!(self, Place::Fresh | Place::AfterValue)
    }
}

// A clause sees the tokens that are still to come.
#[derive(Drop)]
pub(crate) struct Plain<'a> {
    text: &'a [u8],
    at: usize,
    place: Place,
}

impl<'a> Model for Plain<'a> {
    ghost use Rattle.std.specs.Prelude.{◌≤◌, List, drop, length};
    ghost use Rattle.json.specs.Token.{Token as SpecToken, tokens_code};
    ghost use Rattle.edr_samples.specs.Plain.{tokens_at};

    ghost Value = { List SpecToken };

    ghost coded = { tokens_code };

    ghost view = { λ p. tokens_at p.place (drop p.at p.text.now) };

    ghost invariant = { λ p. p.at ≤ length p.text.now };
}

// Where the text goes on behind a value that ends at a place, and the comma that may follow it.
#[inline(always)]
fn behind(text: &[u8], end: usize) -> (usize, Place)
    requires { end ≤ length text.now }
    ensures same { tokens_at result.1 (drop result.0 text.now) ≡ punctuate after_value (lex between (drop end text.now)) }
    ensures within { result.0 ≤ length text.now }
{
    let at = blanks_end(text, end);
    if byte_at(text, at) == b',' {
        (blanks_end(text, at + 1), Place::AfterComma)
    } else {
        (at, Place::AfterValue)
    }
}

// Whether that byte may follow a value: a comma, or what closes a list or an object.
#[inline(always)]
fn is_end(byte: u8) -> bool
    ensures mark { IsTrue result → (byte ≡ 44) ⊎ ((byte ≡ 93) ⊎ (byte ≡ 125)) }
    ensures no_blank { IsTrue result → byte ≢ 32 }
{
    byte == b',' || byte == b']' || byte == b'}'
}

impl<'a> Plain<'a> {
    pub(crate) fn new(text: &'a [u8]) -> Plain<'a>
        ensures { result ≡ tokens text.now }
    {
        Plain {
            text,
            at: blanks_end(text, 0),
            place: Place::Fresh,
        }
    }

    // The byte with which the next token begins, or a blank at the end.
    #[inline(always)]
    pub(crate) fn byte(&self) -> u8 {
        byte_at(self.text, self.at)
    }

    // Whether the text is at its end, and may be.
    pub(crate) fn is_done(&self) -> bool
        ensures { IsTrue result → self.now ≡ [] }
    {
        self.at == self.text.len() && self.place.may_close()
    }

    // Takes the bracket that begins a list, if it is next.
    #[inline(always)]
    pub(crate) fn take_begin_array(&mut self) -> bool
        ensures { IsTrue result → self.old ≡ begin_array ∷ self.new }
    {
        if byte_at(self.text, self.at) != b'[' || !self.place.may_begin() {
            return false;
        }
        self.at = blanks_end(self.text, self.at + 1);
        self.place = Place::Fresh;
        true
    }

    // Takes the brace that begins an object, if it is next.
    #[inline(always)]
    pub(crate) fn take_begin_object(&mut self) -> bool
        ensures { IsTrue result → self.old ≡ begin_object ∷ self.new }
    {
        if byte_at(self.text, self.at) != b'{' || !self.place.may_begin() {
            return false;
        }
        self.at = blanks_end(self.text, self.at + 1);
        self.place = Place::Fresh;
        true
    }

    // Takes the bracket that closes a list, if it is next.
    #[inline(always)]
    pub(crate) fn take_end_array(&mut self) -> bool
        ensures { MatchBool result (self.old ≡ end_array ∷ self.new) (self.new ≡ self.old) }
    {
        if byte_at(self.text, self.at) != b']' || !self.place.may_close() {
            return false;
        }
        let (at, place) = behind(self.text, self.at + 1);
        self.at = at;
        self.place = place;
        true
    }

    // Takes the brace that closes an object, if it is next.
    #[inline(always)]
    fn take_end_object(&mut self) -> bool
        ensures { MatchBool result (self.old ≡ end_object ∷ self.new) (self.new ≡ self.old) }
    {
        if byte_at(self.text, self.at) != b'}' || !self.place.may_close() {
            return false;
        }
        let (at, place) = behind(self.text, self.at + 1);
        self.at = at;
        self.place = place;
        true
    }

    // Takes a sample that has a code, if one is next.
    #[inline(always)]
    pub(crate) fn take_code(&mut self) -> Option<i32>
        ensures { MatchOption result (self.new ≡ self.old) (λ code. (t : SpecToken) × IsSample t (sample_of code) × (self.old ≡ t ∷ self.new)) }
    {
        if !self.place.may_begin() {
            return None;
        }
        let Some((code, end)) = code_at(self.text, self.at) else {
            return None;
        };
        let (at, place) = behind(self.text, end);
        self.at = at;
        self.place = place;
        Some(code)
    }

    // Takes a whole number, if one is next.
    #[inline(always)]
    pub(crate) fn take_whole(&mut self) -> Option<i64>
        ensures { IfSome result (λ z. (s : List ℕ) × (number_of s ≡ Some (of_integer z)) × (self.old ≡ number s ∷ self.new)) }
    {
        if !self.place.may_begin() {
            return None;
        }
        let Some((whole, end)) = whole_at(self.text, self.at) else {
            return None;
        };
        let (at, place) = behind(self.text, end);
        self.at = at;
        self.place = place;
        Some(whole)
    }

    // Takes `null`, if it is next.
    #[inline(always)]
    pub(crate) fn take_null(&mut self) -> bool
        ensures { IsTrue result → self.old ≡ null ∷ self.new }
    {
        if !self.place.may_begin() || !is_null_at(self.text, self.at) {
            return false;
        }
        let (at, place) = behind(self.text, self.at + 4);
        self.at = at;
        self.place = place;
        true
    }

    // Takes a text that is a value, if one is next.
    #[inline(always)]
    pub(crate) fn take_text(&mut self) -> Option<&'a str>
        ensures { IfSome result (λ s. self.old ≡ string s.now ∷ self.new) }
    {
        if !self.place.may_begin() {
            return None;
        }
        let Some((found, end)) = text_at(self.text, self.at) else {
            return None;
        };
        let end = blanks_end(self.text, end);
        if !is_end(byte_at(self.text, end)) {
            return None;
        }
        let (at, place) = behind(self.text, end);
        self.at = at;
        self.place = place;
        Some(found)
    }

    // Takes the name of a member and its colon, if they are next.
    #[inline(always)]
    fn take_key(&mut self) -> Option<&'a str>
        ensures { IfSome result (λ s. self.old ≡ key s.now ∷ self.new) }
    {
        if !self.place.may_begin() {
            return None;
        }
        let Some((found, end)) = text_at(self.text, self.at) else {
            return None;
        };
        let end = blanks_end(self.text, end);
        if byte_at(self.text, end) != b':' {
            return None;
        }
        self.at = blanks_end(self.text, end + 1);
        self.place = Place::Fresh;
        Some(found)
    }

    // The name of the next member, or None at the brace that closes the object.
    #[inline(always)]
    pub(crate) fn next_key(&mut self) -> Option<Option<&'a str>>
        ensures { IfSome result (λ k. read_key self.old ≡ Some (option_map (λ s. s.now) k, self.new)) }
    {
        if self.take_end_object() {
            return Some(None);
        }
        match self.take_key() {
            Some(name) => Some(Some(name)),
            None => None,
        }
    }
}
