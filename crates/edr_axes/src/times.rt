//! Times that a request selects.
ghost use Rattle.std.specs.Prelude.{◌≡◌, ◌↔◌, IsTrue, IfSome, MatchOption};
ghost use Rattle.edr_axes.specs.Times.{AreInOrder, HasNoSide, HasNoTimes, HasTime, IsFrom, IsSideText, IsSideTime, IsTimes, IsTimesText, IsUntil, TimesAreUnique, times_between};

use crate::reading_instants::read_instant;
use edr_base::cut_at;

/// Times that a request selects (OGC 19-086r6, the parameter `datetime`), in seconds since 1970-01-01T00:00:00Z.
#[derive(Clone, Copy, Debug)]
pub enum Times {
    /// Each time.
    All,
    /// One time.
    At(i64),
    /// The times from the first side to the last, both included. A side that is `None` is open.
    Between(Option<i64>, Option<i64>),
}

// Whether a time isn't before the first side.
fn is_from(first: Option<i64>, time: i64) -> bool
    ensures { IsTrue result ↔ IsFrom first time }
{
    match first {
        Some(first) => first <= time,
        None => true,
    }
}

// Whether a time isn't after the last side.
fn is_until(last: Option<i64>, time: i64) -> bool
    ensures { IsTrue result ↔ IsUntil last time }
{
    match last {
        Some(last) => time <= last,
        None => true,
    }
}

// The side that a text is; `Some(None)` where it is open.
fn read_side(text: &[u8]) -> Option<Option<i64>>
    ensures value { MatchOption result (HasNoSide text.now) (λ side. IsSideText text.now side) }
    ensures time { IfSome result IsSideTime }
{
    match text {
        [] | [b'.', b'.'] => Some(None),
        _ => match read_instant(text) {
            Some(time) => Some(Some(time)),
            None => None,
        },
    }
}

// The times between two sides, or `None` where the first is after the last.
fn between(first: Option<i64>, last: Option<i64>) -> Option<Times>
    ensures { MatchOption result (¬ (AreInOrder first last)) (λ times. AreInOrder first last × (times ≡ times_between first last)) }
{
    match (first, last) {
        (None, None) => Some(Times::All),
        (Some(from), Some(until)) if from > until => None,
        _ => Some(Times::Between(first, last)),
    }
}

/// The times that a text stands for, or `None` where it stands for none.
///
/// It is an instant, as `read_instant` reads it, or two sides with `/` between them. A side is an instant, or it is
/// open and is `..` or nothing. Two open sides are all times. The first of two instants isn't after the second.
/// It takes no memory.
pub fn read_times(text: &[u8]) -> Option<Times>
    ensures value { MatchOption result (HasNoTimes text.now) (λ times. IsTimesText text.now times) }
    ensures times { IfSome result IsTimes }
{
    let Some((front, back)) = cut_at(text, b'/') else {
        return match read_instant(text) {
            Some(time) => Some(Times::At(time)),
            None => None,
        };
    };
    let Some(first) = read_side(front) else {
        return None;
    };
    let Some(last) = read_side(back) else {
        return None;
    };
    between(first, last)
}

impl Times {
    /// Whether a time is one of these.
    pub fn has(&self, time: i64) -> bool
        ensures { IsTrue result ↔ HasTime self.now time }
    {
        match *self {
            Times::All => true,
            Times::At(only) => time == only,
            Times::Between(first, last) => is_from(first, time) && is_until(last, time),
        }
    }
}

/// A text stands for one set of times at most.
pub fn times_are_unique()
    ensures { TimesAreUnique }
{}
