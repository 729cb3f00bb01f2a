//! Levels that a request selects.
ghost use Rattle.std.specs.Prelude.{◌≡◌, ◌*◌, ◌<◌, ◌≤ℤ◌, ◌↔◌, ℕ, ℤ, List, [], ◌∷◌, ◌++◌, IsTrue, IfOk, IfSome, OnOk, MatchOption, Contains, Err};
ghost use Rattle.edr_axes.specs.Levels.{AreLevelTexts, HasLevel, HasNoLevels, IsInSeries, IsLevel, IsLevels, IsLevelText, IsLevelsText, IsRangeText, IsSeries, IsSeriesText, LevelsAreUnique};

use edr_base::{COORDINATE_LIMIT, Items, OutOfMemory, Whole, cut_at, whole_number, without_front};
use std::alloc::{AllocFailed, Global};

/// Levels that a request selects (OGC 19-086r6, the parameter `z`).
#[derive(Debug, Drop)]
pub enum Levels {
    /// Each level.
    All,
    /// One level.
    At(i64),
    /// The levels from the first number to the second, both included.
    Between(i64, i64),
    /// These levels.
    List(Items<i64>),
    /// The levels `first`, `first + step` and so on, `n` in all.
    Series {
        /// How many there are.
        n: i64,
        /// The first one.
        first: i64,
        /// How far each is above the one before.
        step: i64,
    },
}

/// Why a text was read as no levels.
#[derive(Clone, Copy, Debug)]
pub enum LevelFault {
    /// It stands for none.
    NotLevels,
    /// Memory was wanting.
    OutOfMemory,
}

impl<T: Drop> From<AllocFailed<T>> for LevelFault {
    ghost use Rattle.edr_axes.specs.declared.levels.LevelFault.TheVariants.{OutOfMemory};

    ghost from_gives = { λ _ fault. fault ≡ OutOfMemory };

    fn from(_: AllocFailed<T>) -> LevelFault {
        LevelFault::OutOfMemory
    }
}

// Whether a distance is a multiple of a step, by less than a count.
fn is_multiple(distance: u64, step: u64, count: u64) -> bool
    requires { 0 < step }
    ensures { IsTrue result ↔ ((k : ℕ) × (k < count) × (distance ≡ k * step)) }
{
    distance % step == 0 && distance / step < count
}

// Whether a level is in a series. It takes the same time for each series.
fn is_in_series(n: i64, first: i64, step: i64, level: i64) -> bool
    ensures { IsTrue result ↔ IsInSeries n first step level }
{
    if n < 1 {
        return false;
    }
    if step == 0 {
        return level == first;
    }
    let distance = level.abs_diff(first);
    if step > 0 {
        first <= level && is_multiple(distance, step.unsigned_abs(), n as u64)
    } else {
        level <= first && is_multiple(distance, step.unsigned_abs(), n as u64)
    }
}

// The number within the limit that a text is.
fn level_of(text: &[u8]) -> Option<i64>
    ensures { MatchOption result ((level : ℤ) → ¬ (IsLevelText text.now level)) (λ level. IsLevelText text.now level) }
{
    match whole_number(text, COORDINATE_LIMIT as i64) {
        Whole::Value(level) => Some(level),
        _ => None,
    }
}

// The two numbers of an interval.
fn range_of(text: &[u8]) -> Option<(i64, i64)>
    ensures { MatchOption result ((low high : ℤ) → ¬ (IsRangeText text.now low high)) (λ range. IsRangeText text.now range.0 range.1) }
{
    let (front, back) = cut_at(text, b'/')?;
    let low = level_of(front)?;
    let high = level_of(back)?;
    if low > high {
        return None;
    }
    Some((low, high))
}

// Whether numbers within the limit are those of a series.
fn is_series(n: i64, first: i64, step: i64) -> bool
    requires n_in { IsLevel n }
    requires first_in { IsLevel first }
    requires step_in { IsLevel step }
    ensures { IsTrue result ↔ IsSeries n first step }
{
    if n < 1 {
        return false;
    }
    if step < 1 {
        return false;
    }
    first + (n - 1) * step <= COORDINATE_LIMIT as i64
}

// The three numbers of a series.
fn series_of(text: &[u8]) -> Option<(i64, i64, i64)>
    ensures { MatchOption result ((n first step : ℤ) → ¬ (IsSeriesText text.now n first step))
        (λ series. IsSeriesText text.now series.0 series.1 series.2) }
{
    let (count, rest) = cut_at(without_front(text, b"R")?, b'/')?;
    let (start, rise) = cut_at(rest, b'/')?;
    let n = level_of(count)?;
    let first = level_of(start)?;
    let step = level_of(rise)?;
    if !is_series(n, first, step) {
        return None;
    }
    Some((n, first, step))
}

// Puts the number that a text is behind the levels so far.
fn push_level(levels: &mut Vec<i64>, text: &[u8]) -> Result<(), LevelFault>
    ensures ok { OnOk result ((level : ℤ) × IsLevelText text.now level × (levels.new.items ≡ levels.old.items ++ level ∷ [])) }
    ensures none { result ≡ Err LevelFault.NotLevels → (level : ℤ) → ¬ (IsLevelText text.now level) }
{
    let Some(level) = level_of(text) else {
        return Err(LevelFault::NotLevels);
    };
    Ok(levels.push(level)?)
}

// The numbers of a list, of which there may be one.
fn list_of(alloc: Global, text: &[u8]) -> Result<Vec<i64>, LevelFault>
    ensures ok { IfOk result (λ levels. AreLevelTexts text.now levels.items) }
    ensures none { result ≡ Err LevelFault.NotLevels → (levels : List ℤ) → ¬ (AreLevelTexts text.now levels) }
{
    let mut levels = Vec::new(alloc);
    let mut rest = text;
    while let Some((front, back)) = cut_at(rest, b',') {
        push_level(&mut levels, front)?;
        rest = back;
    }
    push_level(&mut levels, rest)?;
    Ok(levels)
}

/// The levels that a text stands for.
///
/// It is a whole number, as `whole_number` reads it; or `min/max` with `min` not above `max`; or two whole numbers or
/// more with commas between; or `Rn/min/step`, which is a series of `n` levels from `min` on. No size is above
/// `COORDINATE_LIMIT`, `n` and `step` are at least 1, and the last level of a series is at most that. Only a list,
/// which has a comma, takes memory.
pub fn read_levels(alloc: Global, text: &[u8]) -> Result<Levels, LevelFault>
    ensures text { IfOk result (λ levels. IsLevelsText text.now levels) }
    ensures levels { IfOk result IsLevels }
    ensures none { result ≡ Err LevelFault.NotLevels → HasNoLevels text.now }
    ensures memory { result ≡ Err LevelFault.OutOfMemory → Contains text.now 44 }
{
    if let Some(only) = level_of(text) {
        return Ok(Levels::At(only));
    }
    if let Some((low, high)) = range_of(text) {
        return Ok(Levels::Between(low, high));
    }
    if let Some((n, first, step)) = series_of(text) {
        return Ok(Levels::Series { n, first, step });
    }
    let Some(_) = cut_at(text, b',') else {
        return Err(LevelFault::NotLevels);
    };
    let levels = list_of(alloc, text)?;
    Ok(Levels::List(Items::of(levels)))
}

impl Levels {
    /// Equal levels, or want of memory.
    pub fn copy(&self, alloc: Global) -> Result<Levels, OutOfMemory>
        ensures { IfOk result (λ copy. copy ≡ self.now) }
    {
        match self {
            Levels::All => Ok(Levels::All),
            Levels::At(only) => Ok(Levels::At(*only)),
            Levels::Between(low, high) => Ok(Levels::Between(*low, *high)),
            Levels::List(levels) => Ok(Levels::List(Items::of(Vec::from_slice(
                alloc,
                levels.items(),
            )?))),
            Levels::Series { n, first, step } => Ok(Levels::Series {
                n: *n,
                first: *first,
                step: *step,
            }),
        }
    }

    /// Whether a level is one of these. It takes no memory, and for a series the same time for each.
    pub fn has(&self, level: i64) -> bool
        ensures { IsTrue result ↔ HasLevel self.now level }
    {
        match self {
            Levels::All => true,
            Levels::At(only) => level == *only,
            Levels::Between(low, high) => *low <= level && level <= *high,
            Levels::List(levels) => levels.items().contains(&level),
            Levels::Series { n, first, step } => is_in_series(*n, *first, *step, level),
        }
    }
}

/// A text stands for one set of levels at most.
pub fn levels_are_unique()
    ensures { LevelsAreUnique }
{}
