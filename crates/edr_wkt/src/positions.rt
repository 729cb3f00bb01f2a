//! Numbers and positions.
ghost use Rattle.std.specs.Prelude.{MatchOption};
ghost use Rattle.edr_wkt.specs.Reads.{HasNoNumber, BeginsWithNumber, HasNoNumberIf, BeginsWithNumberIf, HasNoPosition, BeginsWithPosition, HasNoMember, BeginsWithMember, HasNoClosed, BeginsWithClosed};

use crate::words::{behind, read_word};
use edr_base::{LATEST_TIME, Position, Whole, numeral};

// The number at the front, and what stands behind it.
fn read_number(text: &[u8]) -> Option<(i64, &[u8])>
    ensures { MatchOption result (HasNoNumber text.now) (λ r. BeginsWithNumber text.now r.0 r.1.now) }
{
    let (word, rest) = read_word(text);
    match numeral(word, LATEST_TIME) {
        Whole::Value(value) => Some((value, rest)),
        Whole::TooLarge => Some((LATEST_TIME + 1, rest)),
        Whole::NotWhole => None,
    }
}

// The number at the front, where a position has it.
fn read_number_if(has: bool, text: &[u8]) -> Option<(i64, &[u8])>
    ensures { MatchOption result (HasNoNumberIf has text.now) (λ r. BeginsWithNumberIf has text.now r.0 r.1.now) }
{
    if has {
        read_number(text)
    } else {
        Some((0, text))
    }
}

// The position at the front, and what stands behind it.
fn read_position(has_z: bool, has_m: bool, text: &[u8]) -> Option<(Position, &[u8])>
    ensures { MatchOption result (HasNoPosition has_z has_m text.now) (λ r. BeginsWithPosition has_z has_m text.now r.0 r.1.now) }
{
    let Some((x, after_x)) = read_number(text) else {
        return None;
    };
    let Some((y, after_y)) = read_number(after_x) else {
        return None;
    };
    let Some((z, after_z)) = read_number_if(has_z, after_y) else {
        return None;
    };
    let Some((m, rest)) = read_number_if(has_m, after_z) else {
        return None;
    };
    Some((Position { x, y, z, m }, rest))
}

// The position at the front and the bracket that closes behind it, and what stands behind that.
fn read_closed(has_z: bool, has_m: bool, text: &[u8]) -> Option<(Position, &[u8])>
    ensures { MatchOption result (HasNoClosed has_z has_m text.now) (λ r. BeginsWithClosed has_z has_m text.now r.0 r.1.now) }
{
    let Some((position, after)) = read_position(has_z, has_m, text) else {
        return None;
    };
    let Some(rest) = behind(after, b')') else {
        return None;
    };
    Some((position, rest))
}

/// The member of a list of positions at the front, and what stands behind it.
pub fn read_member(multi: bool, has_z: bool, has_m: bool, text: &[u8]) -> Option<(Position, &[u8])>
    ensures { MatchOption result (HasNoMember multi has_z has_m text.now) (λ r. BeginsWithMember multi has_z has_m text.now r.0 r.1.now) }
{
    if !multi {
        return read_position(has_z, has_m, text);
    }
    match behind(text, b'(') {
        Some(inside) => read_closed(has_z, has_m, inside),
        None => read_position(has_z, has_m, text),
    }
}
