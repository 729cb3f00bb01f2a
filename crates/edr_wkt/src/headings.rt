//! Tags and dims.
ghost use Rattle.std.specs.Prelude.{◌≡◌, ℕ, Bool, List, ◌++◌, map, MatchOption};
ghost use Rattle.edr_wkt.specs.Headings.{tag_text, dims_text};
ghost use Rattle.edr_wkt.specs.HeadingReads.{HasNoLetters, BeginsWithLetters, HasNoKind, BeginsWithKind, HasNoHeading, BeginsWithHeading};
ghost use Rattle.edr_base.specs.Names.{IsAnyCase};

use crate::words::{behind, read_word, without_blanks};

/// The kinds of geometry, by their tags.
#[derive(Clone, Copy)]
pub enum Kind {
    Point,
    MultiPoint,
    LineString,
    Polygon,
    MultiPolygon,
}

/// What stands before the brackets of a geometry.
#[derive(Clone, Copy)]
pub struct Heading {
    pub kind: Kind,
    pub has_z: bool,
    pub has_m: bool,
}

// What stands behind a word at the front, which is read in any case.
fn behind_letters<'a>(text: &'a [u8], word: &[u8]) -> Option<&'a [u8]>
    ensures { MatchOption result (HasNoLetters text.now word.now) (λ r. BeginsWithLetters text.now word.now r.now) }
{
    if text.len() < word.len() {
        return None;
    }
    let (letters, rest) = text.split_at(word.len());
    if letters.eq_ignore_ascii_case(word) {
        Some(rest)
    } else {
        None
    }
}

// The kinds.
const KINDS: [Kind; 5] = [
    Kind::Point,
    Kind::MultiPoint,
    Kind::LineString,
    Kind::Polygon,
    Kind::MultiPolygon,
];

/// The tag of a kind, in capitals.
pub fn tag(kind: Kind) -> &'static [u8]
    ensures { result.now ≡ tag_text kind }
{
    match kind {
        Kind::Point => b"POINT",
        Kind::MultiPoint => b"MULTIPOINT",
        Kind::LineString => b"LINESTRING",
        Kind::Polygon => b"POLYGON",
        Kind::MultiPolygon => b"MULTIPOLYGON",
    }
}

// The tag at the front, and what stands behind it.
fn read_kind(text: &[u8]) -> Option<(Kind, &[u8])>
    ensures { MatchOption result (HasNoKind text.now) (λ r. BeginsWithKind text.now r.0 r.1.now) }
{
    for kind in &KINDS {
        if let Some(rest) = behind_letters(text, tag(*kind)) {
            return Some((*kind, rest));
        }
    }
    None
}

// Whether dims have z and m.
fn dims_of(word: &[u8]) -> Option<(bool, bool)>
    ensures { MatchOption result ((has_z has_m : Bool) → ¬ (IsAnyCase word.now (dims_text has_z has_m))) (λ r. IsAnyCase word.now (dims_text r.0 r.1)) }
{
    if word.is_empty() {
        return Some((false, false));
    }
    if word.eq_ignore_ascii_case(b"Z") {
        return Some((true, false));
    }
    if word.eq_ignore_ascii_case(b"M") {
        return Some((false, true));
    }
    if word.eq_ignore_ascii_case(b"ZM") {
        return Some((true, true));
    }
    None
}

/// The tag and the dims at the front, and what stands behind the bracket that opens behind them.
pub fn read_heading(text: &[u8]) -> Option<(Heading, &[u8])>
    ensures { MatchOption result (HasNoHeading text.now) (λ r. BeginsWithHeading text.now r.0.kind r.0.has_z r.0.has_m r.1.now) }
{
    let Some((kind, after)) = read_kind(without_blanks(text)) else {
        return None;
    };
    let (word, body) = read_word(after);
    let Some((has_z, has_m)) = dims_of(word) else {
        return None;
    };
    let Some(inside) = behind(body, b'(') else {
        return None;
    };
    Some((Heading { kind, has_z, has_m }, inside))
}
