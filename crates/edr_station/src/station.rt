//! One station.
ghost use Rattle.std.specs.Prelude.{◌≡◌, ◌<◌, ◌≤◌, ◌^◌, ◌++◌, All, IsTrue, length, option_map, IfOk, OnOk, ℤ, List, Option};
ghost use Rattle.std.specs.Arc.{arc_value};
ghost use Rattle.std.specs.List.{flat_map};
ghost use Rattle.edr_base.specs.Names.{IsName};
ghost use Rattle.edr_base.specs.Limits.{AreSamples};
ghost use Rattle.edr_near.specs.Squares.{IsSpot};
ghost use Rattle.edr_station.specs.Stations.{IsPlaced, HasSeries, IsStation, station_spot, values_along};
ghost use Rattle.edr_axes.specs.Axes.{axis_length};
ghost use Rattle.edr_station.specs.Blocks.{blocks_of, cut_block, place_in_series, series_at};
ghost use Rattle.edr_station.specs.Inputs.{station_of};
ghost use Rattle.edr_station.specs.Tallies.{tally_of, and_of};
ghost use Rattle.edr_station.specs.Kept.{IsKept, station_with};

use crate::few::Few;
use crate::inputs::StationInput;
use crate::series::{BLOCK_LENGTH, Series};
use crate::tallies::Tally;
use edr_axes::Axis;
use edr_base::{Items, OutOfMemory, Spot, Text};
use edr_chunk::Packed;
use edr_ids::Identified;
use edr_near::Placed;
use std::alloc::Global;
use std::marker::Model;
use std::sync::Arc;

// Times, and levels where there are some. Stations that have the same share them.
#[derive(Drop)]
struct Axes {
    times: Axis,
    levels: Option<Axis>,
}

/// A station, such as a gauge or a mast: where it is, when it has values, and at which levels (OGC 19-086r6, locations).
///
/// Contracts see its axes, and for each parameter its values in the order t, z. They are kept in packed blocks.
#[derive(Drop)]
pub struct Station {
    // The id, and behind it the label.
    names: Text,
    id_len: u8,
    spot: Spot,
    axes: Arc<Axes>,
    series: Few<Series>,
}

impl Model for Station {
    ghost use Rattle.std.specs.Prelude.{◌≤◌, length, take, drop};
    ghost use Rattle.std.specs.Arc.{arc_value};
    ghost use Rattle.edr_station.specs.Stations.{StationValue};
    ghost use Rattle.edr_station.specs.Kept.{IsKept};

    ghost Value = { StationValue };

    ghost view = { λ s. record {
      id = take s.id_len s.names;
      label = drop s.id_len s.names;
      x = s.spot.x;
      y = s.spot.y;
      ts = (arc_value s.axes).times;
      zs = (arc_value s.axes).levels;
      series = s.series;
    } };

    ghost invariant = { λ s. IsKept (record {
      id = take s.id_len s.names;
      label = drop s.id_len s.names;
      x = s.spot.x;
      y = s.spot.y;
      ts = (arc_value s.axes).times;
      zs = (arc_value s.axes).levels;
      series = s.series;
    }) × (s.id_len ≤ length s.names) };
}

impl Identified for Station {
    ghost id_of = { λ station. station.id };

    fn id(&self) -> &[u8] {
        self.id()
    }
}

impl Placed for Station {
    ghost spot_of = { station_spot };

    fn spot(&self) -> Spot {
        self.spot()
    }
}

// Two texts, one behind the other.
fn joined(alloc: Global, first: &[u8], second: &[u8]) -> Result<Text, OutOfMemory>
    ensures { IfOk result (λ text. text ≡ first.now ++ second.now) }
{
    let mut bytes = Vec::with_capacity(alloc, first.len() + second.len())?;
    bytes.extend_from_slice(first)?;
    bytes.extend_from_slice(second)?;
    Ok(Text::from_vec(bytes))
}

// How many levels there are, and 1 where there is no axis of levels.
fn levels_in(levels: &Option<Axis>) -> usize
    ensures { result ≡ axis_length levels.now }
{
    match levels {
        Some(levels) => levels.len(),
        None => 1,
    }
}

// The packed lists of values.
fn packed(alloc: Global, series: &[Items<Option<i64>>]) -> Result<Vec<Series>, OutOfMemory>
    requires { All AreSamples series.now }
    ensures { IfOk result (λ packed. packed.items ≡ series.now) }
{
    let mut packed = Vec::with_capacity(alloc, series.len())?;
    for values in series {
        packed.push(Series::pack(alloc, values.items())?)?;
    }
    Ok(packed)
}

// Whether two axes are equal.
fn is_equal(one: &Axis, other: &Axis) -> bool
    ensures { IsTrue result → one.now ≡ other.now }
{
    one.values() == other.values()
}

// Whether two axes of levels are equal, or neither is there.
fn are_same(one: &Option<Axis>, other: &Option<Axis>) -> bool
    ensures { IsTrue result → one.now ≡ other.now }
{
    match (one, other) {
        (Some(one), Some(other)) => is_equal(one, other),
        (None, None) => true,
        _ => false,
    }
}

// The axes of a station that stands near by, where they are equal, or else new ones.
fn axes_of(
    alloc: Global,
    near: Option<&Station>,
    times: Axis,
    levels: Option<Axis>,
) -> Result<Arc<Axes>, OutOfMemory>
    ensures { IfOk result (λ axes. arc_value axes ≡ record { times = times; levels = levels }) }
{
    if let Some(near) = near
        && is_equal(&near.axes.times, &times)
        && are_same(&near.axes.levels, &levels)
    {
        return Ok(Arc::try_clone(&near.axes)?);
    }
    Ok(Arc::new(alloc, Axes { times, levels })?)
}

// The same, for an input.
fn axes_for(
    alloc: Global,
    near: Option<&Station>,
    input: StationInput,
) -> Result<Arc<Axes>, OutOfMemory>
    ensures { IfOk result (λ axes. arc_value axes ≡ record { times = input.times; levels = input.levels }) }
{
    axes_of(alloc, near, input.times, input.levels)
}

// Where an input is.
fn spot_of(input: &StationInput) -> Spot
    ensures { result ≡ record { x = input.now.x; y = input.now.y } }
{
    Spot {
        x: input.x,
        y: input.y,
    }
}

// The length of an id.
fn len_of(id: &Text) -> u8
    requires { IsName id.now }
    ensures { result ≡ length id.now }
{
    id.bytes().len() as u8
}

// What an input is called, and its packed values. Want of memory also stands for more values than can be counted.
fn names_and_series(alloc: Global, input: &StationInput) -> Result<(Text, Few<Series>), OutOfMemory>
    requires { All AreSamples input.now.series }
    ensures names { IfOk result (λ kept. kept.0 ≡ input.now.id ++ input.now.label) }
    ensures series { IfOk result (λ kept. kept.1 ≡ input.now.series) }
    ensures counted { OnOk result (values_along (station_of input.now) < 2 ^ 64) }
{
    if input
        .times
        .len()
        .checked_mul(levels_in(&input.levels))
        .is_none()
    {
        return Err(OutOfMemory);
    }
    let names = joined(alloc, input.id.bytes(), input.label.bytes())?;
    let series = packed(alloc, input.series.items())?;
    Ok((names, Few::of(series)))
}

impl Station {
    // The station that an input describes. It shares its axes with one that stands near by, where they are equal.
    pub(crate) fn of(
        alloc: Global,
        near: Option<&Station>,
        input: StationInput,
    ) -> Result<Station, OutOfMemory>
        requires placed { IsPlaced (station_of input) }
        requires series { HasSeries (length input.series) (station_of input) }
        ensures { IfOk result (λ station. station ≡ station_of input) }
    {
        let (names, series) = names_and_series(alloc, &input)?;
        let id_len = len_of(&input.id);
        let spot = spot_of(&input);
        let axes = axes_for(alloc, near, input)?;
        Ok(Station::with(names, id_len, spot, axes, series))
    }

    // The station of finished parts: its names one behind the other, where it is, its axes and its values.
    fn with(names: Text, id_len: u8, spot: Spot, axes: Arc<Axes>, series: Few<Series>) -> Station
        requires inside { id_len ≤ length names }
        requires kept { IsKept (station_with names id_len spot (arc_value axes).times (arc_value axes).levels series) }
        ensures { result ≡ station_with names id_len spot (arc_value axes).times (arc_value axes).levels series }
    {
        Station {
            names,
            id_len,
            spot,
            axes,
            series,
        }
    }

    /// Its id, which is a name.
    pub fn id(&self) -> &[u8]
        ensures id { result.now ≡ self.now.id }
        ensures station { IsStation (length self.now.series) self.now }
    {
        &self.names.bytes()[..self.id_len as usize]
    }

    /// What people call it; UTF-8.
    pub fn label(&self) -> &[u8]
        ensures label { result.now ≡ self.now.label }
        ensures station { IsStation (length self.now.series) self.now }
    {
        &self.names.bytes()[self.id_len as usize..]
    }

    /// Its first coordinate, in metres.
    pub fn x(&self) -> i64
        ensures { result ≡ self.now.x }
    {
        self.spot.x
    }

    /// Its second coordinate, in metres.
    pub fn y(&self) -> i64
        ensures { result ≡ self.now.y }
    {
        self.spot.y
    }

    /// Where it is.
    pub fn spot(&self) -> Spot
        ensures place { result ≡ station_spot self.now }
        ensures within { IsSpot (station_spot self.now) }
    {
        self.spot
    }

    /// Its times, in seconds since 1970-01-01T00:00:00Z.
    pub fn times(&self) -> &Axis
        ensures { result.now ≡ self.now.ts }
    {
        &self.axes.times
    }

    /// Its levels in metres, or None exactly where it has none.
    pub fn levels(&self) -> Option<&Axis>
        ensures { option_map (λ axis. axis.now) result ≡ self.now.zs }
    {
        self.axes.levels.as_ref()
    }

    /// How many samples it has, how many of them aren't missing, and their sum. Its packed blocks are opened one by one. Want of
    /// memory, its only error, also stands for a count or a sum above what can be held.
    pub fn tally(&self, alloc: Global) -> Result<Tally, OutOfMemory>
        ensures { IfOk result (λ tally. tally ≡ tally_of (flat_map (λ (values : List (Option ℤ)). values) self.now.series)) }
    {
        let mut tally = Tally::none();
        for parameter in 0..self.series.len() {
            tally = self.tally_with(alloc, tally, parameter)?;
        }
        Ok(tally)
    }

    // A tally and that of the values of a parameter.
    fn tally_with(
        &self,
        alloc: Global,
        tally: Tally,
        parameter: usize,
    ) -> Result<Tally, OutOfMemory>
        requires { parameter < length self.now.series }
        ensures { IfOk result (λ more. more ≡ and_of tally (tally_of (series_at self.now parameter))) }
    {
        tally.and(self.series.at(parameter).tally(alloc)?)
    }

    // Where the value of a time and a level stands among those of a parameter.
    pub(crate) fn place_in_series(&self, time: usize, level: usize) -> usize
        requires time { time < length self.now.ts }
        requires level { level < axis_length self.now.zs }
        ensures place { result ≡ place_in_series self.now time level }
        ensures inside { result < values_along self.now }
    {
        time * levels_in(&self.axes.levels) + level
    }

    // How many blocks each parameter has.
    pub(crate) fn blocks(&self) -> u64
        ensures { result ≡ blocks_of self.now }
    {
        let values = self.axes.times.len() * levels_in(&self.axes.levels);
        values.div_ceil(BLOCK_LENGTH) as u64
    }

    // A block of a parameter.
    pub(crate) fn block(&self, parameter: usize, block: usize) -> &Packed
        requires parameter { parameter < length self.now.series }
        requires block { block < blocks_of self.now }
        ensures { result.now ≡ cut_block block (series_at self.now parameter) }
    {
        self.series.at(parameter).block(block)
    }
}
