//! The domains of one place and of several.
ghost use Rattle.std.specs.Prelude.{◌≡◌, ◌≢◌, [], ◌∷◌, length, option_map, map, IfOk, IfSome, MatchOption};
ghost use Rattle.edr_axes.specs.Axes.{IsAxis};
ghost use Rattle.edr_select.specs.Heads as heads;

use covjson_value::Domain;
use edr_axes::Axis;
use edr_base::OutOfMemory;
use std::alloc::Global;
use std::slice;

// The only value, or None where there isn't just one.
fn only(values: &[i64]) -> Option<i64>
    ensures { MatchOption result (length values.now ≢ 1) (λ value. values.now ≡ value ∷ []) }
{
    if values.len() == 1 {
        Some(values[0])
    } else {
        None
    }
}

// The domain of a place at one time.
fn domain_at_time(
    alloc: Global,
    t: i64,
    levels: Option<&[i64]>,
    y: i64,
    x: i64,
) -> Result<Domain, OutOfMemory>
    requires { IfSome levels (λ levels. IsAxis levels.now) }
    ensures { IfOk result (λ domain. domain ≡ heads.domain_at (t ∷ []) (option_map (λ levels. levels.now) levels.entry) (y, x)) }
{
    let t = Some(t);
    let Some(levels) = levels else {
        return Ok(Domain::Point { t, z: None, y, x });
    };
    match only(levels) {
        Some(z) => Ok(Domain::Point {
            t,
            z: Some(z),
            y,
            x,
        }),
        None => Ok(Domain::VerticalProfile {
            t,
            z: Axis::over(alloc, levels)?,
            y,
            x,
        }),
    }
}

// The domain of a place at several times.
fn domain_over_times(
    alloc: Global,
    times: &[i64],
    levels: Option<&[i64]>,
    y: i64,
    x: i64,
) -> Result<Domain, OutOfMemory>
    requires times { IsAxis times.now }
    requires several { length times.now ≢ 1 }
    requires levels { IfSome levels (λ levels. IsAxis levels.now) }
    ensures { IfOk result (λ domain. domain ≡ heads.domain_at times.now (option_map (λ levels. levels.now) levels.entry) (y, x)) }
{
    let t = Axis::over(alloc, times)?;
    let Some(levels) = levels else {
        return Ok(Domain::PointSeries { t, z: None, y, x });
    };
    match only(levels) {
        Some(z) => Ok(Domain::PointSeries {
            t,
            z: Some(z),
            y,
            x,
        }),
        None => Ok(Domain::Grid {
            t: Some(t),
            z: Some(Axis::over(alloc, levels)?),
            y: Axis::over(alloc, slice::from_ref(&y))?,
            x: Axis::over(alloc, slice::from_ref(&x))?,
        }),
    }
}

/// The domain of a place, by how many times and levels there are (OGC 21-069r2, domain types).
pub fn domain_at(
    alloc: Global,
    times: &[i64],
    levels: Option<&[i64]>,
    y: i64,
    x: i64,
) -> Result<Domain, OutOfMemory>
    requires times { IsAxis times.now }
    requires levels { IfSome levels (λ levels. IsAxis levels.now) }
    ensures { IfOk result (λ domain. domain ≡ heads.domain_at times.now (option_map (λ levels. levels.now) levels.entry) (y, x)) }
{
    match only(times) {
        Some(t) => domain_at_time(alloc, t, levels, y, x),
        None => domain_over_times(alloc, times, levels, y, x),
    }
}
