//! The feed of a table.
ghost use Rattle.std.specs.Prelude.{◌≡◌, IfOk, IsErrOf};
ghost use Rattle.edr_base.specs.Outside.{Rose};
ghost use Rattle.edr_base.specs.Calls.{SinkLent};
ghost use Rattle.edr_import.specs.Imports.{Imports, TableStands, samples_in, times_in};
ghost use Rattle.edr_import.specs.Importing.{MatchStations, MatchFeed, MatchTable};
ghost use Rattle.edr_import.specs.Sorting.{AreSorted};
ghost use Rattle.edr_import.specs.Stations.{AreGood};

use crate::limits::{PARAMETER_LIMIT, SAMPLES_LIMIT};
use crate::lines::feed_of;
use crate::names::{Name, names_of};
use crate::refusals::{ImportFault, TableRefusal};
use crate::sites::{Site, sites_of};
use crate::sorting::sorted;
use crate::stations::{Station, stations_of};
use edr_base::{OutOfMemory, Sink, send};
use edr_csv::{Observation, read_table};
use edr_ids::ById;
use std::alloc::Global;

// How many times stations have together.
fn times_in(sites: &ById<Site>) -> Result<u64, OutOfMemory>
    ensures { IfOk result (λ count. count ≡ times_in sites.now) }
{
    let mut count: u64 = 0;
    for place in 0..sites.len() {
        match count.checked_add(sites.at(place).times.len() as u64) {
            Some(more) => count = more,
            None => return Err(OutOfMemory),
        }
    }
    Ok(count)
}

// How many samples they have: one for each time and each parameter.
fn samples_in(names: &ById<Name>, sites: &ById<Site>) -> Result<u64, OutOfMemory>
    ensures { IfOk result (λ count. count ≡ samples_in names.now sites.now) }
{
    let times = times_in(sites)?;
    match times.checked_mul(names.len() as u64) {
        Some(count) => Ok(count),
        None => Err(OutOfMemory),
    }
}

// The stations of observations, of which there are some, or the first limit that they pass.
fn stations_within(alloc: Global, observations: &[Observation]) -> Result<Vec<Station>, ImportFault>
    requires sorted { AreSorted observations.now }
    requires good { AreGood observations.now }
    ensures { MatchStations result observations.now }
{
    let names = names_of(alloc, observations)?;
    if names.len() > PARAMETER_LIMIT {
        return Err(ImportFault::Refused(TableRefusal::TooManyParameters(names.len())));
    }
    let sites = sites_of(alloc, observations)?;
    let samples = samples_in(&names, &sites)?;
    if samples > SAMPLES_LIMIT {
        return Err(ImportFault::Refused(TableRefusal::TooManySamples(samples)));
    }
    Ok(stations_of(alloc, observations, &names, &sites)?)
}

// The feed of observations, or the first limit that they pass.
fn feed_of_observations(
    alloc: Global,
    observations: Vec<Observation>,
) -> Result<Vec<u8>, ImportFault>
    requires { AreGood observations.items }
    ensures { MatchFeed result observations.items }
{
    let sorted = sorted(observations);
    let stations = stations_within(alloc, &sorted)?;
    Ok(feed_of(alloc, &stations)?)
}

// The feed of a table, or the first refusal.
fn feed_of_table(alloc: Global, bytes: &[u8]) -> Result<Vec<u8>, ImportFault>
    ensures { MatchTable result bytes.now }
{
    let observations = read_table(alloc, bytes)?;
    feed_of_observations(alloc, observations.into_vec())
}

/// Writes the feed of a table of comma-separated values (RFC 4180): the collection `sites` of stations, in the reference system
/// `local`; a station for each that the table names, in ascending order of their ids; and a publish. Each station has the times
/// of its records, and each parameter of the table, with its id as its label. A parameter is missing (`null`) at a time of which
/// no record tells it. Lines are compact JSON, with the members of each object in ascending order of their keys.
///
/// The table's form is that of `edr_csv::read_table`. The first refusal that applies is answered, in the order of
/// `TableRefusal`'s variants.
///
/// With `Ok` the whole feed was written, and with a refusal nothing. After `WriteFault` a beginning of the feed was written, and
/// after `OutOfMemory` a beginning of it or nothing. It doesn't flush. The feed is held whole before it is written.
pub fn feed_from_table<K: Sink>(
    alloc: Global,
    bytes: &[u8],
    sink: &mut K,
) -> Result<(), ImportFault>
    ensures written { Imports result (TableStands bytes.now) (K.written sink.old) (K.written sink.new) }
    ensures flushed { K.flushed sink.new ≡ K.flushed sink.old }
    ensures lent { SinkLent (K.beside sink.old) (K.beside sink.new) (K.faults sink.old) (K.faults sink.new) }
    ensures cause { IsErrOf result ImportFault.WriteFault → Rose (K.faults sink.old) (K.faults sink.new) }
{
    let text = feed_of_table(alloc, bytes)?;
    Ok(send(sink, &text)?)
}
