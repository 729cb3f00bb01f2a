//! What an edition has, in one line.
ghost use Rattle.std.specs.Prelude.{◌≡◌, ◌+◌, ◌++◌, [], codes, ℤ, List, Option, length, IfOk, OnOk};
ghost use Rattle.std.specs.Fmt.{decimal, signed_decimal};
ghost use Rattle.edr_station.specs.Tallies.{tally_of, and_of};
ghost use Rattle.edr_feed.specs.Summaries.{instances_of, samples_of, stations_of, series_of, tally_text, summary_line};

use edr_base::{OutOfMemory, Text};
use edr_edition::{CollectionData, Edition, Tally, tallies_add_up};
use edr_station::Stations;
use itoa::Buffer;
use std::alloc::Global;

// How many instances or stations there are, and the tally of their samples.
#[derive(Clone, Copy)]
struct Totals {
    count: usize,
    tally: Tally,
}

// Of none.
fn no_totals() -> Totals
    ensures { result ≡ record { count = 0; tally = tally_of [] } }
{
    Totals {
        count: 0,
        tally: Tally::none(),
    }
}

// With the instances of one collection more.
fn with_instances(totals: Totals, collection: &CollectionData) -> Result<Totals, OutOfMemory>
    ensures count { IfOk result (λ now. now.count ≡ totals.count + length collection.now.instances) }
    ensures tally { IfOk result (λ now. now.tally ≡ and_of totals.tally (tally_of (samples_of collection.now.instances))) }
{
    tallies_add_up();
    let count = totals
        .count
        .checked_add(collection.instances())
        .ok_or(OutOfMemory)?;
    let mut tally = totals.tally;
    for place in 0..collection.instances() {
        tally = tally.and(collection.instance_at(place).tally())?;
    }
    Ok(Totals { count, tally })
}

// With some stations more. Their blocks are opened one by one.
fn with_stations(alloc: Global, totals: Totals, stations: &Stations) -> Result<Totals, OutOfMemory>
    ensures count { IfOk result (λ now. now.count ≡ totals.count + length stations.now.stations) }
    ensures tally { IfOk result (λ now. now.tally ≡ and_of totals.tally (tally_of (series_of stations.now.stations))) }
{
    tallies_add_up();
    let count = totals.count.checked_add(stations.len()).ok_or(OutOfMemory)?;
    let mut tally = totals.tally;
    for place in 0..stations.len() {
        tally = tally.and(stations.station(place).tally(alloc)?)?;
    }
    Ok(Totals { count, tally })
}

// With the stations of one collection more.
fn with_stations_of(
    alloc: Global,
    totals: Totals,
    collection: &CollectionData,
) -> Result<Totals, OutOfMemory>
    ensures count { IfOk result (λ now. now.count ≡ totals.count + length collection.now.stations) }
    ensures tally { IfOk result (λ now. now.tally ≡ and_of totals.tally (tally_of (series_of collection.now.stations))) }
{
    match collection.stations() {
        Some(stations) => with_stations(alloc, totals, stations),
        None => Ok(totals),
    }
}

// The totals of the instances of all collections.
fn instance_totals(edition: &Edition) -> Result<Totals, OutOfMemory>
    ensures count { IfOk result (λ now. now.count ≡ length (instances_of edition.now.collections)) }
    ensures tally { IfOk result (λ now. now.tally ≡ tally_of (samples_of (instances_of edition.now.collections))) }
{
    tallies_add_up();
    let mut totals = no_totals();
    for place in 0..edition.len() {
        totals = with_instances(totals, edition.collection_at(place))?;
    }
    Ok(totals)
}

// The totals of the stations of all collections.
fn station_totals(alloc: Global, edition: &Edition) -> Result<Totals, OutOfMemory>
    ensures count { IfOk result (λ now. now.count ≡ length (stations_of edition.now.collections)) }
    ensures tally { IfOk result (λ now. now.tally ≡ tally_of (series_of (stations_of edition.now.collections))) }
{
    tallies_add_up();
    let mut totals = no_totals();
    for place in 0..edition.len() {
        totals = with_stations_of(alloc, totals, edition.collection_at(place))?;
    }
    Ok(totals)
}

// The tally of all samples.
fn whole_tally(instances: Tally, stations: Tally) -> Result<Tally, OutOfMemory>
    ensures { (samples series : List (Option ℤ)) → instances ≡ tally_of samples → stations ≡ tally_of series → IfOk result (λ tally. tally ≡ tally_of (samples ++ series)) }
{
    tallies_add_up();
    instances.and(stations)
}

fn push_count(line: &mut Vec<u8>, count: u64) -> Result<(), OutOfMemory>
    ensures { OnOk result (line.new.items ≡ line.old.items ++ decimal count) }
{
    let mut buffer = Buffer::new();
    line.extend_from_slice(buffer.format(count).as_bytes())?;
    Ok(())
}

fn push_sum(line: &mut Vec<u8>, sum: i128) -> Result<(), OutOfMemory>
    ensures { OnOk result (line.new.items ≡ line.old.items ++ signed_decimal sum) }
{
    let mut buffer = Buffer::new();
    line.extend_from_slice(buffer.format(sum).as_bytes())?;
    Ok(())
}

// Words, and a number behind them.
fn push_counted(line: &mut Vec<u8>, words: &[u8], count: u64) -> Result<(), OutOfMemory>
    ensures { OnOk result (line.new.items ≡ line.old.items ++ words.now ++ decimal count) }
{
    line.extend_from_slice(words)?;
    push_count(line, count)
}

// What is said of the samples, behind a line that has a beginning.
fn push_tally(line: &mut Vec<u8>, tally: Tally) -> Result<(), OutOfMemory>
    ensures { OnOk result (line.new.items ≡ tally_text line.old.items tally) }
{
    push_counted(line, b", samples ", tally.samples)?;
    push_counted(line, b", present ", tally.present)?;
    line.extend_from_slice(b", sum ")?;
    push_sum(line, tally.sum)?;
    line.push(b'\n')?;
    Ok(())
}

// The number of an edition, and how many collections, instances and stations it has.
fn push_counts(
    line: &mut Vec<u8>,
    edition: &Edition,
    instances: usize,
    stations: usize,
) -> Result<(), OutOfMemory>
    ensures { OnOk result (line.new.items ≡ line.old.items ++ codes "edition " ++ decimal edition.now.number ++ codes ": collections " ++ decimal (length edition.now.collections)
        ++ codes ", instances " ++ decimal instances ++ codes ", stations " ++ decimal stations) }
{
    push_counted(line, b"edition ", edition.number())?;
    push_counted(line, b": collections ", edition.len() as u64)?;
    push_counted(line, b", instances ", instances as u64)?;
    push_counted(line, b", stations ", stations as u64)
}

/// The line `edition N: collections A, instances B, stations C, samples D, present E, sum F` and a line feed: B and C count the
/// instances and the stations of all collections, D counts all samples of all instances and all stations, E those that aren't
/// missing, and F is their sum. All numbers are exact. Want of memory is the only error; it is answered too where a number is
/// above what can be held.
pub fn summary(alloc: Global, edition: &Edition) -> Result<Text, OutOfMemory>
    ensures { IfOk result (λ text. text ≡ summary_line edition.now) }
{
    let instances = instance_totals(edition)?;
    let stations = station_totals(alloc, edition)?;
    let tally = whole_tally(instances.tally, stations.tally)?;
    let mut line = Vec::new(alloc);
    push_counts(&mut line, edition, instances.count, stations.count)?;
    push_tally(&mut line, tally)?;
    Ok(Text::from_vec(line))
}
