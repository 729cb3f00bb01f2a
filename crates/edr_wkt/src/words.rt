//! Blanks, brackets, commas and the words between them.
ghost use Rattle.std.specs.Prelude.{◌≡◌, ℕ, List, not, false, MatchOption};
ghost use Rattle.edr_base.specs.NumberParts.{IsSplit};
ghost use Rattle.edr_base.specs.Names.{is_blank};
ghost use Rattle.edr_wkt.specs.Grammar.{is_end, IsMark};
ghost use Rattle.edr_wkt.specs.Reads.{not_blank, HasNoMark, BeginsWithMark, BeginsWithWord};

use edr_base::{is_blank, without_front};

// Whether a byte ends a word.
fn is_end(byte: u8) -> bool
    ensures { result ≡ is_end byte }
{
    is_blank(byte) || byte == b'(' || byte == b')' || byte == b','
}

/// What stands behind the blanks at the front.
pub fn without_blanks(text: &[u8]) -> &[u8]
    ensures { (blanks : List ℕ) × IsSplit not_blank text.now blanks result.now }
{
    for (i, byte) in text.iter().enumerate() {
        if !is_blank(*byte) {
            return &text[i..];
        }
    }
    &[]
}

/// The first byte that is no blank, and what stands behind it.
pub fn read_mark(text: &[u8]) -> Option<(u8, &[u8])>
    ensures { MatchOption result (HasNoMark text.now) (λ r. BeginsWithMark text.now r.0 r.1.now) }
{
    match without_blanks(text) {
        [mark, rest @ ..] => Some((*mark, rest)),
        [] => None,
    }
}

/// What stands behind a mark, if the text begins with it, with blanks before it or without.
pub fn behind(text: &[u8], mark: u8) -> Option<&[u8]>
    requires { is_blank mark ≡ false }
    ensures { MatchOption result ((rest : List ℕ) → ¬ (IsMark mark text.now rest)) (λ r. IsMark mark text.now r.now) }
{
    without_front(without_blanks(text), &[mark])
}

/// The word behind the blanks at the front, and what stands behind it.
pub fn read_word(text: &[u8]) -> (&[u8], &[u8])
    ensures { BeginsWithWord text.now result.0.now result.1.now }
{
    split_word(without_blanks(text))
}

fn split_word(text: &[u8]) -> (&[u8], &[u8])
    ensures { IsSplit is_end text.now result.0.now result.1.now }
{
    for (i, byte) in text.iter().enumerate() {
        if is_end(*byte) {
            return text.split_at(i);
        }
    }
    (text, &[])
}
