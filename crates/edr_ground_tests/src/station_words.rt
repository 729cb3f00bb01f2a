//! Stations that are words, for tests.
ghost use Rattle.std.specs.Prelude.{◌≡◌, IfOk, IfSome, IsUtf8, All};
ghost use Rattle.edr_base.specs.Names.{IsName};
ghost use Rattle.edr_axes.specs.Instants.{IsTime};
ghost use Rattle.edr_base.specs.Limits.{IsCoordinate, HasSample, AreSamples};
ghost use Rattle.edr_station.specs.Stations.{IsAxisWithin};
ghost use Rattle.edr_station.specs.Inputs.{IsInput};

use crate::words::coordinate;
use edr_axes::Axis;
use edr_base::{Items, SAMPLE_LIMIT, Text, is_name, is_utf8};
use edr_station::{Station, StationInput, Stations, has_counts};
use std::alloc::{AllocError, Global};

// A station is a word, `id@x,y:times`, or `id@x,y:timesxlevels` where it has levels: where it is, and how many times and
// levels it has. `:1` may be left out. It has two parameters, unless the lengths of its lists stand behind `=`.
#[derive(Clone, Copy)]
struct Word<'a> {
    id: &'a str,
    x: i64,
    y: i64,
    times: u16,
    levels: u16,
    lengths: &'a str,
}

fn word_of(text: &str) -> Option<Word<'_>>
    ensures { IfSome result (λ word. IsCoordinate word.x × IsCoordinate word.y) }
{
    let (front, lengths) = text.split_once('=').unwrap_or((text, ","));
    let (place, size) = front.split_once(':').unwrap_or((front, "1"));
    let (times, levels) = size.split_once('x').unwrap_or((size, "0"));
    let (id, spot) = place.split_once('@')?;
    let (x, y) = spot.split_once(',')?;
    Some(Word {
        id,
        x: coordinate(x)?,
        y: coordinate(y)?,
        times: times.parse::<u16>().ok()?,
        levels: levels.parse::<u16>().ok()?,
        lengths,
    })
}

fn step_at(place: u16, step: u8) -> i64
    ensures time { IsTime result }
    ensures level { IsCoordinate result }
{
    place as i64 * step as i64
}

// The times and the levels of a station begin at 0, a minute and a metre apart.
fn steps(alloc: Global, count: u16, step: u8) -> Result<Vec<i64>, AllocError>
    ensures times { IfOk result (λ values. All IsTime values.items) }
    ensures levels { IfOk result (λ values. All IsCoordinate values.items) }
{
    let mut values = Vec::new(alloc);
    for place in 0..count {
        values.push(step_at(place, step))?;
    }
    Ok(values)
}

fn times_of(alloc: Global, count: u16) -> Option<Axis>
    ensures { IfSome result (IsAxisWithin IsTime) }
{
    let values = steps(alloc, count, 60).ok()?;
    Axis::of(alloc, &values).ok()
}

fn levels_of(alloc: Global, count: u16) -> Option<Axis>
    ensures { IfSome result (IsAxisWithin IsCoordinate) }
{
    let values = steps(alloc, count, 1).ok()?;
    Axis::of(alloc, &values).ok()
}

// A value for each place of a parameter, some of them missing.
pub(crate) fn sample_at(x: i64, parameter: u32, place: u32) -> Option<i64>
    ensures { HasSample result }
{
    let number = x.saturating_mul(1_000_000);
    let number = number.saturating_add(parameter as i64 * 100_000 + place as i64);
    if place % 7 == 6 || number.unsigned_abs() > SAMPLE_LIMIT {
        return None;
    }
    Some(number)
}

fn samples_of(
    alloc: Global,
    x: i64,
    parameter: u32,
    count: u32,
) -> Result<Items<Option<i64>>, AllocError>
    ensures { IfOk result (λ samples. AreSamples samples) }
{
    let mut samples = Vec::new(alloc);
    for place in 0..count {
        samples.push(sample_at(x, parameter, place))?;
    }
    Ok(Items::of(samples))
}

// Lists of these lengths, or of the count where a length is empty.
fn series_of(
    alloc: Global,
    x: i64,
    lengths: &str,
    count: u32,
) -> Result<Items<Items<Option<i64>>>, AllocError>
    ensures { IfOk result (λ series. All AreSamples series) }
{
    let mut series = Vec::new(alloc);
    let mut parameter: u32 = 0;
    for length in lengths.split(',') {
        let count = length.parse::<u32>().unwrap_or(count);
        series.push(samples_of(alloc, x, parameter, count)?)?;
        parameter = parameter.saturating_add(1);
    }
    Ok(Items::of(series))
}

fn name_of(alloc: Global, text: &str) -> Option<Text>
    ensures { IfSome result IsName }
{
    if !is_name(text.as_bytes()) {
        return None;
    }
    Text::of(alloc, text.as_bytes()).ok()
}

fn label_of(alloc: Global, text: &str) -> Option<Text>
    ensures { IfSome result IsUtf8 }
{
    if !is_utf8(text.as_bytes()) {
        return None;
    }
    Text::of(alloc, text.as_bytes()).ok()
}

// The axes of times and of levels.
fn axes_of(alloc: Global, word: &Word<'_>) -> Option<(Axis, Option<Axis>)>
    ensures times { IfSome result (λ axes. IsAxisWithin IsTime axes.0) }
    ensures levels { IfSome result (λ axes. IfSome axes.1 (IsAxisWithin IsCoordinate)) }
{
    let times = times_of(alloc, word.times)?;
    if word.levels == 0 {
        return Some((times, None));
    }
    let levels = levels_of(alloc, word.levels)?;
    Some((times, Some(levels)))
}

// The station of a word, with this label.
pub(crate) fn input_of(alloc: Global, text: &str, label: &str) -> Option<StationInput>
    ensures { IfSome result IsInput }
{
    let word = word_of(text)?;
    let count = word.times as u32 * word.levels.max(1) as u32;
    let series = series_of(alloc, word.x, word.lengths, count).ok()?;
    let id = name_of(alloc, word.id)?;
    let label = label_of(alloc, label)?;
    let (times, levels) = axes_of(alloc, &word)?;
    Some(StationInput {
        id,
        label,
        x: word.x,
        y: word.y,
        times,
        levels,
        series,
    })
}

// Sets a station, and says whether it could.
fn is_set(alloc: Global, stations: &mut Stations, input: StationInput) -> bool
    requires { IsInput input }
{
    if !has_counts(stations.parameters(), &input) {
        return false;
    }
    stations.set(alloc, input).is_ok()
}

pub(crate) fn is_word_set(alloc: Global, stations: &mut Stations, text: &str, label: &str) -> bool {
    match input_of(alloc, text, label) {
        Some(input) => is_set(alloc, stations, input),
        None => false,
    }
}

// Stations of two parameters that are set one after another.
pub(crate) fn stations_of(alloc: Global, words: &str) -> Option<Stations> {
    let mut stations = Stations::new(2);
    for text in words.split(' ') {
        if !text.is_empty() && !is_word_set(alloc, &mut stations, text, text) {
            return None;
        }
    }
    Some(stations)
}

fn are_steps(values: &[i64], count: u16, step: u8) -> bool {
    let mut whole = values.len() == count as usize;
    let mut next: i64 = 0;
    for value in values {
        whole = *value == next && whole;
        next = next.saturating_add(step as i64);
    }
    whole
}

fn has_levels(station: &Station, count: u16) -> bool {
    match station.levels() {
        Some(levels) => are_steps(levels.values(), count, 1),
        None => count == 0,
    }
}

pub(crate) fn is_station(station: &Station, text: &str) -> bool {
    match word_of(text) {
        Some(word) => {
            station.id() == word.id.as_bytes()
                && station.x() == word.x
                && station.y() == word.y
                && are_steps(station.times().values(), word.times, 60)
                && has_levels(station, word.levels)
        }
        None => false,
    }
}

// Whether these are the stations, in this order; `-` is none.
pub(crate) fn are_stations(stations: &Stations, words: &str) -> bool {
    let mut place = 0;
    for text in words.split(' ') {
        if text != "-" {
            if place >= stations.len() || !is_station(stations.station(place), text) {
                return false;
            }
            place += 1;
        }
    }
    place == stations.len()
}
