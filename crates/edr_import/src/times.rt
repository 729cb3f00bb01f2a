//! The times of a station.
ghost use Rattle.std.specs.Prelude.{◌≡◌, ◌↔◌, IfOk, OnOk, IsTrue};
ghost use Rattle.edr_import.specs.Sorting.{AreSorted};
ghost use Rattle.edr_import.specs.Times.{Ends, IsFirstOf, PutsTime, AreTimesOf};

use edr_base::OutOfMemory;
use edr_csv::Observation;
use std::alloc::Global;

// The place of the first observation that isn't below a station.
fn first_of(observations: &[Observation], station: &[u8]) -> usize
    requires { AreSorted observations.now }
    ensures { IsFirstOf observations.now station.now result }
{
    observations.partition_point(|observation| observation.station.bytes().cmp(station).is_lt())
}

// Puts a time behind others, unless it is the last of them.
fn put_time(times: &mut Vec<i64>, t: i64) -> Result<(), OutOfMemory>
    ensures { OnOk result (PutsTime times.old.items t times.new.items) }
{
    if let Some(last) = times.last() {
        if *last == t {
            return Ok(());
        }
    }
    Ok(times.push(t)?)
}

/// The times of the observations of a station, ascending.
pub(crate) fn times_of(
    alloc: Global,
    observations: &[Observation],
    station: &[u8],
) -> Result<Vec<i64>, OutOfMemory>
    requires { AreSorted observations.now }
    ensures { IfOk result (λ times. AreTimesOf observations.now station.now times.items) }
{
    let mut times = Vec::new(alloc);
    let mut place = first_of(observations, station);
    while place < observations.len() && observations[place].station.bytes() == station {
        put_time(&mut times, observations[place].t)?;
        place += 1;
    }
    Ok(times)
}
