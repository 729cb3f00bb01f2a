//! Lists of stations that share what is equal.
//!
//! They stand in a balanced tree of pages. A change copies the page of its place and the forks on the way to it, and shares
//! all others with the list that it was made of. Each fork knows how many stations and blocks it has, and balances its sides
//! by the number of stations: no side has more than three times what the other has (Y. Hirai and K. Yamamoto, Balancing
//! weight-balanced trees, 2011), as far as pages aren't parted for it.
ghost use Rattle.std.specs.Prelude.{◌≡◌, ◌<◌, ◌≤◌, ◌+◌, ◌^◌, ◌++◌, ⊤, [], length, take, option_map, IfOk, OnOk, MatchOption};
ghost use Rattle.std.specs.List.{slice_index_or};
ghost use Rattle.std.specs.Arc.{arc_value};
ghost use Rattle.edr_station.specs.Stations.{StationValue};
ghost use Rattle.edr_station.specs.Boxes.{places_from};
ghost use Rattle.edr_station.specs.Shelves.{stations_of, blocks_in, splice, IsFound};

use crate::pages::{Page, push_given};
use crate::station::Station;
use edr_base::{OutOfMemory, Spot};
use std::alloc::Global;
use std::marker::Model;
use std::sync::Arc;

// How many stations a page has at most.
const PAGE: usize = 64;

/// A list of shared stations.
#[cycle(shelf)]
#[derive(Drop)]
pub struct Shelf {
    top: Top,
}

#[cycle(shelf)]
#[derive(Drop)]
enum Top {
    Nothing,
    Stations(Arc<Page>),
    Sides(Arc<Fork>),
}

// Some stations and those behind them, and how many they are and how many blocks they have for each parameter.
#[cycle(shelf)]
#[derive(Drop)]
struct Fork {
    before: Shelf,
    behind: Shelf,
    len: usize,
    blocks: u64,
}

impl Model for Shelf {
    ghost use Rattle.std.specs.Prelude.{List, length};
    ghost use Rattle.edr_station.specs.Stations.{StationValue};

    ghost Value = { List StationValue };

    ghost use Rattle.edr_station.specs.Forks.{all_in, IsCounted};

    ghost view = { λ shelf. all_in shelf.top };

    ghost invariant = { λ shelf. IsCounted shelf.top };

    ghost size = { length };

    ghost use Rattle.edr_station.specs.ForkDepths.{sides_are_shorter};

    ghost size_decreases = { λ shelf counted. sides_are_shorter shelf.top counted };
}

impl Shelf {
    /// No stations. It takes no memory.
    pub fn empty() -> Shelf
        ensures { result ≡ [] }
    {
        Shelf { top: Top::Nothing }
    }

    /// How many stations there are.
    pub fn len(&self) -> usize
        ensures len { result ≡ length self.now }
        ensures fits { length self.now < 2 ^ 64 }
    {
        match &self.top {
            Top::Nothing => 0,
            Top::Stations(page) => page.len(),
            Top::Sides(fork) => fork.len,
        }
    }

    /// How many blocks they have for each parameter.
    pub fn blocks(&self) -> u64
        ensures { result ≡ blocks_in self.now }
    {
        match &self.top {
            Top::Nothing => 0,
            Top::Stations(page) => page.blocks(),
            Top::Sides(fork) => fork.blocks,
        }
    }

    /// The station at a place, from 0.
    pub fn at(&self, place: usize) -> &Station
        requires { place < length self.now }
        ensures { (d : StationValue) → result.now ≡ slice_index_or self.now place d }
    {
        match &self.top {
            Top::Nothing => unreachable!(),
            Top::Stations(page) => page.at(place),
            Top::Sides(fork) => {
                let before = fork.before.len();
                if place < before {
                    fork.before.at(place)
                } else {
                    fork.behind.at(place - before)
                }
            }
        }
    }

    /// How many blocks the stations before a place have for each parameter.
    pub fn blocks_before(&self, place: usize) -> u64
        requires { place ≤ length self.now }
        ensures { result ≡ blocks_in (take place self.now) }
    {
        match &self.top {
            Top::Nothing => 0,
            Top::Stations(page) => page.blocks_before(place),
            Top::Sides(fork) => {
                let fork: &Fork = fork;
                let before = fork.before.len();
                if place < before {
                    fork.before.blocks_before(place)
                } else {
                    fork.before.blocks() + fork.behind.blocks_before(place - before)
                }
            }
        }
    }

    /// The place of the station that has the block of a number, and how many blocks stand before it, where the blocks of
    /// each parameter are numbered alone.
    pub fn find(&self, number: u64) -> (usize, u64)
        requires { number < blocks_in self.now }
        ensures { IsFound self.now number result.0 result.1 }
    {
        match &self.top {
            Top::Nothing => unreachable!(),
            Top::Stations(page) => page.find(number),
            Top::Sides(fork) => {
                let fork: &Fork = fork;
                let blocks = fork.before.blocks();
                if number < blocks {
                    fork.before.find(number)
                } else {
                    let (place, before) = fork.behind.find(number - blocks);
                    (fork.before.len() + place, blocks + before)
                }
            }
        }
    }

    /// An equal list, which shares all stations. It takes no memory; its only error is that there are too many copies to be
    /// counted.
    pub fn share(&self) -> Result<Shelf, OutOfMemory>
        ensures { IfOk result (λ shelf. shelf ≡ self.now) }
    {
        let top = match &self.top {
            Top::Nothing => Top::Nothing,
            Top::Stations(page) => Top::Stations(Arc::try_clone(page)?),
            Top::Sides(fork) => Top::Sides(Arc::try_clone(fork)?),
        };
        Ok(Shelf { top })
    }

    // The stations of one side and those of the other; None where they aren't parted.
    fn parts(&self) -> Result<Option<(Shelf, Shelf)>, OutOfMemory>
        ensures { IfOk result (λ found. MatchOption found ⊤ (λ parts. self.now ≡ parts.0 ++ parts.1)) }
    {
        match &self.top {
            Top::Sides(fork) => Ok(Some((fork.before.share()?, fork.behind.share()?))),
            _ => Ok(None),
        }
    }

    /// Adds the places of the stations inside a box, its borders included, where the first station's place is `first`.
    pub fn add_inside(
        &self,
        first: usize,
        lo: Spot,
        hi: Spot,
        places: &mut Vec<usize>,
    ) -> Result<(), OutOfMemory>
        requires { first + length self.now < 2 ^ 64 }
        ensures { OnOk result (places.new.items ≡ places.old.items ++ places_from first lo hi self.now) }
    {
        match &self.top {
            Top::Nothing => Ok(()),
            Top::Stations(page) => page.add_inside(first, lo, hi, places),
            Top::Sides(fork) => {
                let fork: &Fork = fork;
                fork.before.add_inside(first, lo, hi, places)?;
                fork.behind
                    .add_inside(first + fork.before.len(), lo, hi, places)
            }
        }
    }
}

// The stations of one page.
fn on_page(alloc: Global, stations: Vec<Arc<Station>>) -> Result<Shelf, OutOfMemory>
    ensures { IfOk result (λ shelf. shelf ≡ stations_of stations.items) }
{
    Ok(Shelf {
        top: Top::Stations(Arc::new(alloc, Page::of(stations)?)?),
    })
}

// The stations of one page, or of two where they are more than it may have. A page that grows at its end stays full.
fn on_pages(
    alloc: Global,
    mut stations: Vec<Arc<Station>>,
    at_end: bool,
) -> Result<Shelf, OutOfMemory>
    ensures { IfOk result (λ shelf. shelf ≡ stations_of stations.items) }
{
    if stations.is_empty() {
        return Ok(Shelf::empty());
    }
    if stations.len() <= PAGE {
        return on_page(alloc, stations);
    }
    let first = if at_end { PAGE } else { PAGE / 2 };
    let behind = stations.split_off(first)?;
    joined(alloc, on_page(alloc, stations)?, on_page(alloc, behind)?)
}

// The stations of one list and then those of another.
fn joined(alloc: Global, before: Shelf, behind: Shelf) -> Result<Shelf, OutOfMemory>
    ensures { IfOk result (λ shelf. shelf ≡ before ++ behind) }
{
    if before.len() == 0 {
        return Ok(behind);
    }
    if behind.len() == 0 {
        return Ok(before);
    }
    let Some(len) = before.len().checked_add(behind.len()) else {
        return Err(OutOfMemory);
    };
    let Some(blocks) = before.blocks().checked_add(behind.blocks()) else {
        return Err(OutOfMemory);
    };
    let fork = Fork {
        before,
        behind,
        len,
        blocks,
    };
    Ok(Shelf {
        top: Top::Sides(Arc::new(alloc, fork)?),
    })
}

// The same, where the second list is too long: it gives up its front.
fn turned_to_front(alloc: Global, before: Shelf, behind: Shelf) -> Result<Shelf, OutOfMemory>
    ensures { IfOk result (λ shelf. shelf ≡ before ++ behind) }
{
    let Some((inner, outer)) = behind.parts()? else {
        return joined(alloc, before, behind);
    };
    if inner.len() < outer.len().saturating_mul(2) {
        let front = joined(alloc, before, inner)?;
        return joined(alloc, front, outer);
    }
    let Some((low, high)) = inner.parts()? else {
        return joined(alloc, before, behind);
    };
    let front = joined(alloc, before, low)?;
    let back = joined(alloc, high, outer)?;
    joined(alloc, front, back)
}

// The same, where the first list is too long: it gives up its back.
fn turned_to_back(alloc: Global, before: Shelf, behind: Shelf) -> Result<Shelf, OutOfMemory>
    ensures { IfOk result (λ shelf. shelf ≡ before ++ behind) }
{
    let Some((outer, inner)) = before.parts()? else {
        return joined(alloc, before, behind);
    };
    if inner.len() < outer.len().saturating_mul(2) {
        let back = joined(alloc, inner, behind)?;
        return joined(alloc, outer, back);
    }
    let Some((low, high)) = inner.parts()? else {
        return joined(alloc, before, behind);
    };
    let front = joined(alloc, outer, low)?;
    let back = joined(alloc, high, behind)?;
    joined(alloc, front, back)
}

// The same, of lists that may differ by one change from the sides of a balanced tree.
fn balanced(alloc: Global, before: Shelf, behind: Shelf) -> Result<Shelf, OutOfMemory>
    ensures { IfOk result (λ shelf. shelf ≡ before ++ behind) }
{
    let (front, back) = (before.len(), behind.len());
    if back > front.saturating_mul(3) {
        turned_to_front(alloc, before, behind)
    } else if front > back.saturating_mul(3) {
        turned_to_back(alloc, before, behind)
    } else {
        joined(alloc, before, behind)
    }
}

impl Shelf {
    /// The list with another station or none in place of those from one place up to another, which are at most one.
    pub fn spliced(
        &self,
        alloc: Global,
        place: usize,
        end: usize,
        put: Option<Arc<Station>>,
    ) -> Result<Shelf, OutOfMemory>
        requires order { place ≤ end }
        requires few { end ≤ place + 1 }
        requires inside { end ≤ length self.now }
        ensures { IfOk result (λ shelf. shelf ≡ splice place end (option_map (λ s. arc_value s) put) self.now) }
    {
        match &self.top {
            Top::Nothing => {
                let mut stations = Vec::new(alloc);
                push_given(put, &mut stations)?;
                on_pages(alloc, stations, true)
            }
            Top::Stations(page) => {
                let stations = page.spliced(alloc, place, end, put)?;
                on_pages(alloc, stations, place == page.len())
            }
            Top::Sides(fork) => {
                let fork: &Fork = fork;
                let before = fork.before.len();
                if place < before {
                    let before = fork.before.spliced(alloc, place, end, put)?;
                    balanced(alloc, before, fork.behind.share()?)
                } else {
                    let behind = fork
                        .behind
                        .spliced(alloc, place - before, end - before, put)?;
                    balanced(alloc, fork.before.share()?, behind)
                }
            }
        }
    }
}
