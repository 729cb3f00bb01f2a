//! Distances as text.
ghost use Rattle.std.specs.Prelude.{◌≡◌, ◌≤◌, ◌<◌, ◌^◌, ◌*◌, pos, IsTrue, ◌↔◌, MatchOption, Contains};
ghost use Rattle.std.specs.Str.Parse.{AllDigits, digits_value_after};
ghost use Rattle.edr_base.specs.Limits.{distance_limit};
ghost use Rattle.edr_axes.specs.Distances.{DistancesAreUnique, IsUnit, IsDecimal, IsDistance, HasNoDistance};
ghost use Rattle.edr_axes.specs.Metres.{HasNoUnit, AreDigits, AreZeros, IsSize, HasNoSize};

use edr_base::{are_digits, cut_at};

/// A distance is at most so many metres.
pub const DISTANCE_LIMIT: u64 = 400_000_000;

// How many places the point of a number moves, where it is told in metres.
fn places_of(unit: &[u8]) -> Option<usize>
    ensures { MatchOption result (HasNoUnit unit.now) (λ places. (places ≤ 3) × IsUnit unit.now (10 ^ places)) }
{
    if unit.eq_ignore_ascii_case(b"m") {
        return Some(0);
    }
    if unit.eq_ignore_ascii_case(b"km") {
        return Some(3);
    }
    None
}

// What stands before the point of a number, and what stands behind it.
fn parts_of(number: &[u8]) -> (&[u8], &[u8])
    ensures parts { IsDecimal number.now result.0.now result.1.now }
    ensures first { ¬ (Contains result.0.now 46) }
{
    match cut_at(number, b'.') {
        Some(parts) => parts,
        None => (number, &[]),
    }
}

fn are_zeros(text: &[u8]) -> bool
    ensures { IsTrue result ↔ AreZeros text.now }
{
    text.iter().all(|byte| *byte == b'0')
}

// The number that digits write behind those of another, if it isn't above the limit.
fn with_digits(size: u64, digits: &[u8]) -> Option<u64>
    requires few { size ≤ distance_limit }
    requires digits { AreDigits digits.now }
    ensures { MatchOption result (distance_limit < digits_value_after 10 size digits.now) (λ n. (n ≡ digits_value_after 10 size digits.now) × (n ≤ distance_limit)) }
{
    let mut more = size;
    for digit in digits {
        more = more * 10 + (*digit - b'0') as u64;
        if more > DISTANCE_LIMIT {
            return None;
        }
    }
    Some(more)
}

// The number with zeros behind it, if it isn't above the limit.
fn with_zeros(size: u64, zeros: usize) -> Option<u64>
    requires few { size ≤ distance_limit }
    requires zeros { zeros ≤ 3 }
    ensures { MatchOption result (distance_limit < size * 10 ^ zeros) (λ n. (n ≡ size * 10 ^ zeros) × (n ≤ distance_limit)) }
{
    let more = match zeros {
        0 => size,
        1 => size * 10,
        2 => size * 100,
        _ => size * 1000,
    };
    if more > DISTANCE_LIMIT {
        None
    } else {
        Some(more)
    }
}

// The whole number that a decimal number is whose point moves by so many places.
fn size_of(whole: &[u8], fraction: &[u8], places: usize) -> Option<u64>
    requires whole { AreDigits whole.now }
    requires fraction { AreDigits fraction.now }
    requires places { places ≤ 3 }
    ensures { MatchOption result (HasNoSize whole.now fraction.now places) (λ size. IsSize whole.now fraction.now places size) }
{
    let count = fraction.len().min(places);
    let (moved, rest) = fraction.split_at(count);
    if !are_zeros(rest) {
        return None;
    }
    let size = with_digits(0, whole)?;
    let size = with_digits(size, moved)?;
    with_zeros(size, places - count)
}

/// The distance that a number and a unit are, in whole metres; or None where they are none (OGC 19-086r6, the
/// parameters `within`, `corridor-width` and `corridor-height`).
///
/// The number is digits, an optional point and digits behind it, with a digit before the point at least. The unit is
/// `m` or `km` in any case. The distance is whole and at most `DISTANCE_LIMIT`.
pub fn read_distance(number: &[u8], unit: &[u8]) -> Option<i64>
    ensures { MatchOption result (HasNoDistance number.now unit.now) (λ metres. IsDistance number.now unit.now metres) }
{
    let places = places_of(unit)?;
    let (whole, fraction) = parts_of(number);
    if whole.is_empty() {
        return None;
    }
    if !are_digits(whole) {
        return None;
    }
    if !are_digits(fraction) {
        return None;
    }
    let size = size_of(whole, fraction, places)?;
    Some(size as i64)
}

/// A number and a unit are one distance at most.
pub fn distances_are_unique()
    ensures { DistancesAreUnique }
{}
