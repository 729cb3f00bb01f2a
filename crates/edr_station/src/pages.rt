//! Pages of shared stations.
ghost use Rattle.std.specs.Prelude.{◌≡◌, ◌<◌, ◌≤◌, ◌+◌, ◌^◌, ◌++◌, length, take, option_map, option_to_list, IfOk, OnOk, SomeIff};
ghost use Rattle.std.specs.List.{slice_index_or, enumerate_from};
ghost use Rattle.std.specs.Arc.{arc_value};
ghost use Rattle.edr_station.specs.Stations.{StationValue};
ghost use Rattle.edr_station.specs.Boxes.{places_from};
ghost use Rattle.edr_station.specs.Boxes as boxes;
ghost use Rattle.edr_station.specs.Shelves.{stations_of, blocks_in, splice, IsFound};

use crate::station::Station;
use edr_base::{OutOfMemory, Spot, in_box};
use std::alloc::Global;
use std::marker::Model;
use std::sync::Arc;

/// Some shared stations, and how many blocks they have for each parameter.
#[derive(Drop)]
pub struct Page {
    stations: Vec<Arc<Station>>,
    blocks: u64,
}

impl Model for Page {
    ghost use Rattle.std.specs.Prelude.{◌≡◌, ◌<◌, ◌^◌, List};
    ghost use Rattle.edr_station.specs.Stations.{StationValue};
    ghost use Rattle.edr_station.specs.Shelves.{stations_of, blocks_in};

    ghost Value = { List StationValue };

    ghost view = { λ page. stations_of page.stations.items };

    ghost invariant = { λ page. (page.blocks ≡ blocks_in (stations_of page.stations.items)) × (page.blocks < 2 ^ 64) };
}

// How many blocks stations have for each parameter, or None where these are too many to be counted.
fn count_blocks(stations: &[Arc<Station>]) -> Option<u64>
    ensures { SomeIff result (blocks_in (stations_of stations.now) < 2 ^ 64) (blocks_in (stations_of stations.now)) }
{
    let mut blocks: u64 = 0;
    for station in stations {
        blocks = blocks.checked_add(station.blocks())?;
    }
    Some(blocks)
}

// Shares some stations more.
fn share_all(stations: &[Arc<Station>], shared: &mut Vec<Arc<Station>>) -> Result<(), OutOfMemory>
    ensures { OnOk result (stations_of shared.new.items ≡ stations_of shared.old.items ++ stations_of stations.now) }
{
    for station in stations {
        shared.push(Arc::try_clone(station)?)?;
    }
    Ok(())
}

/// Adds a station, where one is given. The only error is want of memory.
pub fn push_given(
    put: Option<Arc<Station>>,
    stations: &mut Vec<Arc<Station>>,
) -> Result<(), OutOfMemory>
    ensures { OnOk result (stations_of stations.new.items ≡ stations_of stations.old.items ++ option_to_list (option_map (λ s. arc_value s) put)) }
{
    match put {
        Some(station) => stations.push(station)?,
        None => (),
    }
    Ok(())
}

impl Page {
    /// A page of these stations; its only error is that their blocks are too many to be counted.
    pub fn of(stations: Vec<Arc<Station>>) -> Result<Page, OutOfMemory>
        ensures { IfOk result (λ page. page ≡ stations_of stations.items) }
    {
        match count_blocks(&stations) {
            Some(blocks) => Ok(Page { stations, blocks }),
            None => Err(OutOfMemory),
        }
    }

    /// How many stations it has.
    pub fn len(&self) -> usize
        ensures { result ≡ length self.now }
    {
        self.stations.len()
    }

    /// How many blocks they have for each parameter.
    pub fn blocks(&self) -> u64
        ensures { result ≡ blocks_in self.now }
    {
        self.blocks
    }

    /// The station at a place, from 0.
    pub fn at(&self, place: usize) -> &Station
        requires { place < length self.now }
        ensures { (d : StationValue) → result.now ≡ slice_index_or self.now place d }
    {
        &self.stations[place]
    }

    /// How many blocks the stations before a place have for each parameter.
    pub fn blocks_before(&self, place: usize) -> u64
        requires { place ≤ length self.now }
        ensures { result ≡ blocks_in (take place self.now) }
    {
        match count_blocks(&self.stations[..place]) {
            Some(blocks) => blocks,
            None => unreachable!(),
        }
    }

    /// The place of the station that has the block of a number, and how many blocks stand before it, where the blocks of
    /// each parameter are numbered alone.
    pub fn find(&self, number: u64) -> (usize, u64)
        requires { number < blocks_in self.now }
        ensures { IsFound self.now number result.0 result.1 }
    {
        let mut before: u64 = 0;
        for place in 0..self.stations.len() {
            let blocks = self.stations[place].blocks();
            if number - before < blocks {
                return (place, before);
            }
            before += blocks;
        }
        unreachable!()
    }

    /// The shared stations with another one or none in place of those from one place up to another.
    pub fn spliced(
        &self,
        alloc: Global,
        place: usize,
        end: usize,
        put: Option<Arc<Station>>,
    ) -> Result<Vec<Arc<Station>>, OutOfMemory>
        requires order { place ≤ end }
        requires inside { end ≤ length self.now }
        ensures { IfOk result (λ stations. stations_of stations.items ≡ splice place end (option_map (λ s. arc_value s) put) self.now) }
    {
        let mut stations = Vec::with_capacity(alloc, self.stations.len() - (end - place) + 1)?;
        share_all(&self.stations[..place], &mut stations)?;
        push_given(put, &mut stations)?;
        share_all(&self.stations[end..], &mut stations)?;
        Ok(stations)
    }

    /// Adds the places of the stations inside a box, its borders included, where the first station's place is `first`.
    pub fn add_inside(
        &self,
        first: usize,
        lo: Spot,
        hi: Spot,
        places: &mut Vec<usize>,
    ) -> Result<(), OutOfMemory>
        requires { first + length self.now < 2 ^ 64 }
        ensures { OnOk result (places.new.items ≡ places.old.items ++ places_from first lo hi self.now) }
    {
        for place in 0..self.stations.len() {
            if is_inside(lo, hi, &self.stations[place]) {
                places.push(first + place)?;
            }
        }
        Ok(())
    }
}

// Whether a station is inside the box of two corners, borders included.
fn is_inside(lo: Spot, hi: Spot, station: &Station) -> bool
    ensures { result ≡ boxes.is_inside lo hi station.now }
{
    in_box(station.spot(), lo, hi)
}
