//! Observations in the order of their stations, times and parameters.
ghost use Rattle.std.specs.Prelude.{◌≡◌, ◌≤◌, length};
ghost use Rattle.std.specs.List.Sorted.{IsPermutation};
ghost use Rattle.edr_import.specs.Sorting.{key_of, key_order, AreSorted};

use edr_csv::Observation;
use std::cmp::Ordering;

/// How an observation stands to a station, a time and a parameter.
pub(crate) fn order_to(
    observation: &Observation,
    station: &[u8],
    t: i64,
    parameter: &[u8],
) -> Ordering
    ensures { result ≡ key_order (key_of observation.now) (record { station = station.now; t = t; parameter = parameter.now }) }
{
    match observation.station.bytes().cmp(station) {
        Ordering::Equal => match observation.t.cmp(&t) {
            Ordering::Equal => observation.parameter.bytes().cmp(parameter),
            other => other,
        },
        other => other,
    }
}

// How two observations stand to one another.
fn order(a: &Observation, b: &Observation) -> Ordering
    ensures { result ≡ key_order (key_of a.now) (key_of b.now) }
{
    order_to(a, b.station.bytes(), b.t, b.parameter.bytes())
}

/// The observations in the order of their stations, times and parameters. It takes no memory.
pub(crate) fn sorted(observations: Vec<Observation>) -> Vec<Observation>
    ensures same { IsPermutation observations.items result.items }
    ensures sorted { AreSorted result.items }
{
    let mut observations = observations;
    observations.sort_unstable_by(|a, b| order(a, b));
    observations
}
