//! Times read from text.
ghost use Rattle.std.specs.Prelude.{◌≡◌, ◌+◌, ◌*◌, ◌+ℤ◌, ◌-ℤ◌, ◌*ℤ◌, ◌<◌, ◌≤◌, ℤ, ℕ, List, [], ◌∷◌, All, length, take, drop, pos, neg_ℤ, MatchOption, IfSome};
ghost use Rattle.jiff_core.specs.Calendar.{IsBetween, IsEpochDay, days_from_civil};
ghost use Rattle.edr_axes.specs.Instants.{IsDay, IsTime};
ghost use Rattle.edr_axes.specs.InstantComputed.{InstantsAreRead};
ghost use Rattle.edr_axes.specs.InstantGrammar.{IsInstant, IsOffset, IsZone, InstantsAreUnique, WrittenTimesAreInstants};
ghost use Rattle.edr_axes.specs.InstantPieces.{IsPair, HasNoPair, BeginsWithDate, HasNoDate, BeginsWithMark, HasNoMark, BeginsWithMinutes, HasNoMinutes, HasNoOffset, HasNoZone, IsZoneEnd, HasNoZoneEnd, IsEnd, HasNoEnd};

use edr_base::{EARLIEST_TIME, LATEST_TIME, without_front};
use jiff::civil::Date;

// The number that two digits write, and the bytes after them.
fn two_digits(text: &[u8]) -> Option<(u8, &[u8])>
    ensures { MatchOption result (HasNoPair text.now) (λ r. IsPair text.now r.0 r.1.now) }
{
    match text {
        [tens, ones, rest @ ..] => {
            if *tens < b'0' || *tens > b'9' || *ones < b'0' || *ones > b'9' {
                return None;
            }
            Some(((*tens - b'0') * 10 + (*ones - b'0'), rest))
        }
        _ => None,
    }
}

// The number of a day, 0 for 1 January 1970, if the calendar has it.
fn day_number(year: u16, month: u8, day: u8) -> Option<i64>
    requires year_in { year ≤ 9999 }
    requires month_in { month < 100 }
    requires day_in { day < 100 }
    ensures value { MatchOption result (¬ (IsDay year month day))
        (λ n. IsDay year month day × (n ≡ days_from_civil (pos year) month day)) }
    ensures bound { IfSome result IsEpochDay }
{
    match Date::new(year as i16, month as i8, day as i8) {
        Ok(date) => Some(date.to_plain().to_unix_epoch_day() as i64),
        Err(_) => None,
    }
}

// The number of the day of a date, `YYYY-MM-DD`, and the bytes after it.
fn read_date(text: &[u8]) -> Option<(i64, &[u8])>
    ensures value { MatchOption result (HasNoDate text.now) (λ r. BeginsWithDate text.now r.0 r.1.now) }
    ensures bound { IfSome result (λ r. IsEpochDay r.0) }
{
    let Some((century, text)) = two_digits(text) else {
        return None;
    };
    let Some((of_century, text)) = two_digits(text) else {
        return None;
    };
    let Some(text) = without_front(text, b"-") else {
        return None;
    };
    let Some((month, text)) = two_digits(text) else {
        return None;
    };
    let Some(text) = without_front(text, b"-") else {
        return None;
    };
    let Some((day, text)) = two_digits(text) else {
        return None;
    };
    match day_number(century as u16 * 100 + of_century as u16, month, day) {
        Some(number) => Some((number, text)),
        None => None,
    }
}

// The bytes after the `T` between a date and a time of day.
fn after_mark(text: &[u8]) -> Option<&[u8]>
    ensures { MatchOption result (HasNoMark text.now) (λ r. BeginsWithMark text.now r.now) }
{
    match without_front(text, b"T") {
        Some(rest) => Some(rest),
        None => without_front(text, b"t"),
    }
}

// The seconds of hours and minutes, `HH:MM`, and the bytes after them.
fn read_minutes(text: &[u8]) -> Option<(u32, &[u8])>
    ensures value { MatchOption result (HasNoMinutes text.now) (λ r. BeginsWithMinutes text.now r.0 r.1.now) }
    ensures bound { IfSome result (λ r. r.0 ≤ 86340) }
{
    let Some((hour, text)) = two_digits(text) else {
        return None;
    };
    let Some(text) = without_front(text, b":") else {
        return None;
    };
    let Some((minute, text)) = two_digits(text) else {
        return None;
    };
    if hour > 23 || minute > 59 {
        return None;
    }
    Some((hour as u32 * 3600 + minute as u32 * 60, text))
}

// The seconds of an offset, `HH:MM`, and nothing after it.
fn read_offset(text: &[u8]) -> Option<i64>
    ensures value { MatchOption result (HasNoOffset text.now) (λ seconds. IsOffset text.now seconds) }
    ensures bound { IfSome result (IsBetween (pos 0) (pos 86340)) }
{
    let Some((seconds, rest)) = read_minutes(text) else {
        return None;
    };
    if rest.is_empty() {
        Some(seconds as i64)
    } else {
        None
    }
}

// The seconds that the clocks of a zone are ahead, by its first byte and the others.
fn zone_of(first: u8, rest: &[u8]) -> Option<i64>
    ensures value { MatchOption result (HasNoZone (first ∷ rest.now))
        (λ ahead. IsZone (first ∷ rest.now) ahead) }
    ensures bound { IfSome result (IsBetween (neg_ℤ (pos 86340)) (pos 86340)) }
{
    match first {
        b'Z' | b'z' => { if rest.is_empty() { Some(0) } else { None } }
        b'+' | b' ' => read_offset(rest),
        b'-' => match read_offset(rest) {
            Some(seconds) => Some(-seconds),
            None => None,
        },
        _ => None,
    }
}

// The seconds that the clocks of a zone are ahead.
fn read_zone(text: &[u8]) -> Option<i64>
    ensures value { MatchOption result (HasNoZone text.now) (λ ahead. IsZone text.now ahead) }
    ensures bound { IfSome result (IsBetween (neg_ℤ (pos 86340)) (pos 86340)) }
{
    let Some((first, rest)) = text.split_first() else {
        return None;
    };
    zone_of(*first, rest)
}

// How many zeros a text begins with.
fn zero_count(text: &[u8]) -> usize
    ensures within { result ≤ length text.now }
    ensures zeros { All (λ byte. byte ≡ 48) (take result text.now) }
    ensures other { (rest : List ℕ) → ¬ (drop result text.now ≡ 48 ∷ rest) }
{
    let mut count = 0;
    while count < text.len() && text[count] == b'0' {
        count += 1;
    }
    count
}

// The zone after a fraction of zeros, which may be left out.
fn read_zone_end(text: &[u8]) -> Option<i64>
    ensures value { MatchOption result (HasNoZoneEnd text.now) (λ ahead. IsZoneEnd text.now ahead) }
    ensures bound { IfSome result (IsBetween (neg_ℤ (pos 86340)) (pos 86340)) }
{
    let Some(digits) = without_front(text, b".") else {
        return read_zone(text);
    };
    let zeros = zero_count(digits);
    if zeros == 0 {
        return None;
    }
    read_zone(&digits[zeros..])
}

// The seconds of the minute, which may be left out, and those that the zone's clocks are ahead.
fn read_end(text: &[u8]) -> Option<(u8, i64)>
    ensures value { MatchOption result (HasNoEnd text.now) (λ r. IsEnd text.now r.0 r.1) }
    ensures second { IfSome result (λ r. r.0 ≤ 59) }
    ensures ahead { IfSome result (λ r. IsBetween (neg_ℤ (pos 86340)) (pos 86340) r.1) }
{
    let Some(text) = without_front(text, b":") else {
        return match read_zone(text) {
            Some(ahead) => Some((0, ahead)),
            None => None,
        };
    };
    let Some((second, text)) = two_digits(text) else {
        return None;
    };
    if second > 59 {
        return None;
    }
    match read_zone_end(text) {
        Some(ahead) => Some((second, ahead)),
        None => None,
    }
}

// The time at so many seconds of a day, by clocks that are ahead.
fn time_at(day: i64, seconds: u32, ahead: i64) -> i64
    requires day_in { IsEpochDay day }
    requires seconds_in { seconds < 86400 }
    requires ahead_in { IsBetween (neg_ℤ (pos 86340)) (pos 86340) ahead }
    ensures { result ≡ (day *ℤ pos 86400 +ℤ pos seconds) -ℤ ahead }
{
    day * 86_400 + seconds as i64 - ahead
}

// The time, if it lies in the years 0000 to 9999.
fn within_years(time: i64) -> Option<i64>
    ensures { MatchOption result (¬ (IsTime time)) (λ same. (same ≡ time) × IsTime time) }
{
    if time < EARLIEST_TIME || time > LATEST_TIME {
        None
    } else {
        Some(time)
    }
}

/// The time that a text stands for, in seconds since 1970-01-01T00:00:00Z. None where it is no instant.
///
/// An instant is `YYYY-MM-DDTHH:MM:SSZ` (RFC 3339, section 5.6), of a day that the calendar has. `T` and `Z`
/// may be small. The seconds may be left out, and may have a fraction of zeros. In place of `Z` may stand an
/// offset, `+HH:MM` or `-HH:MM`; its `+` may be a space. With the offset taken off, the time has to lie from
/// 0000-01-01T00:00:00Z to 9999-12-31T23:59:59Z. It takes no memory.
pub fn read_instant(text: &[u8]) -> Option<i64>
    ensures { MatchOption result ((time : ℤ) → ¬ (IsInstant text.now time))
        (λ time. IsInstant text.now time) }
{
    let Some((day, text)) = read_date(text) else {
        return None;
    };
    let Some(text) = after_mark(text) else {
        return None;
    };
    let Some((seconds, text)) = read_minutes(text) else {
        return None;
    };
    let Some((second, ahead)) = read_end(text) else {
        return None;
    };
    within_years(time_at(day, seconds + second as u32, ahead))
}

/// A text is at most one instant.
pub fn instants_are_unique()
    ensures { InstantsAreUnique }
{}

/// The instant of a text, as it is computed piece by piece, is the one that the grammar gives.
pub fn instants_are_read()
    ensures { InstantsAreRead }
{}

/// The text that is written of a time is an instant, and stands for that time; so it is read back.
pub fn written_times_are_instants()
    ensures { WrittenTimesAreInstants }
{}
