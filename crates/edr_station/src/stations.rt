//! The stations of a collection.
ghost use Rattle.std.specs.Prelude.{◌≡◌, ◌≢◌, ◌+◌, ◌*◌, ◌<◌, ◌≤◌, ◌^◌, ◌++◌, ◌∷◌, [], None, Some, length, take, All, Contains, is_some, option_map, IfOk, IfErr, IfSome, OnOk, OnErr, MatchOption};
ghost use Rattle.std.specs.List.{slice_index_or};
ghost use Rattle.edr_base.specs.FirstThatApplies.{IsLeast, NoneApplies};
ghost use Rattle.edr_ids.specs.Ids as ids;
ghost use Rattle.edr_ids.specs.Ids.{AscendBy, with_item, without_id};
ghost use Rattle.std.specs.Arc.{arc_value};
ghost use Rattle.edr_near.specs.Squares.{IsSpot};
ghost use Rattle.edr_near.specs.Near.{Nearest};
ghost use Rattle.edr_station.specs.Stations.{StationValue, IsPlaced, HasSeries, AreStations, IsStation, station_id, station_spot, station_at};
ghost use Rattle.edr_station.specs.Blocks.{blocks, blocks_of, block_of, first_block, place_at, Within, IsBlock, block_number};
ghost use Rattle.edr_station.specs.Boxes.{places_inside};
ghost use Rattle.edr_station.specs.Nearest.{AreLookedAt};
ghost use Rattle.edr_station.specs.Inputs.{station_of, IsInput, HasCounts, rank, Applies, AreOf};
ghost use Rattle.edr_station.specs.Least.{HaveOwnIds};
ghost use Rattle.edr_station.specs.Places.{IsPlaceOf, IsSpanOf, AreKept};

use crate::cells::{cells_with, cells_without};
use crate::faults::find_fault;
use crate::inputs::{StationFault, StationInput};
use crate::series::BLOCK_LENGTH;
use crate::shelves::Shelf;
use crate::station::Station;
use edr_base::{OutOfMemory, Spot};
use edr_chunk::{Packed, Reads, open_packed};
use edr_ids::items_are_by_id;
use edr_near::{Cells, Looks};
use std::alloc::Global;
use std::cmp::Ordering;
use std::marker::Model;
use std::sync::Arc;

/// The stations of a collection, in strictly ascending order of their ids, byte by byte, each with the same number of
/// parameters (OGC 19-086r6, locations).
///
/// The values of each station and parameter are kept in packed blocks of up to `BLOCK_LENGTH`, in the order t, z. The blocks are
/// numbered by station, parameter and block, ascending from 0. `open_block` alone reads them. A station is found, set and taken
/// out in a time that grows with the logarithm of their number. An equal copy takes no memory, and a change of one of two
/// copies leaves the other as it is.
#[derive(Drop)]
pub struct Stations {
    parameters: usize,
    shelf: Shelf,
    cells: Cells<Station>,
}

impl Model for Stations {
    ghost use Rattle.edr_station.specs.Stations.{StationsValue};
    ghost use Rattle.edr_station.specs.Nearest.{HaveThese};
    ghost use Rattle.edr_station.specs.Places.{AreKept};

    ghost Value = { StationsValue };

    ghost view = { λ s. record { parameters = s.parameters; stations = s.shelf } };

    ghost invariant = { λ s. AreKept (record { parameters = s.parameters; stations = s.shelf }) × HaveThese s.cells s.shelf };
}

// The place of the station of an id, or where it would stand: a search by halves.
fn place_of(shelf: &Shelf, id: &[u8]) -> Result<usize, usize>
    requires { AscendBy station_id shelf.now }
    ensures place { IsPlaceOf id.now shelf.now result }
    ensures fits { length shelf.now < 2 ^ 64 }
{
    let mut low = 0;
    let mut high = shelf.len();
    while low < high {
        let middle = low + (high - low) / 2;
        match shelf.at(middle).id().cmp(id) {
            Ordering::Less => low = middle + 1,
            Ordering::Equal => return Ok(middle),
            Ordering::Greater => high = middle,
        }
    }
    Err(low)
}

// The place of the station of an id and that behind it, or twice the place where it would stand.
fn span_of(shelf: &Shelf, id: &[u8]) -> (usize, usize)
    requires { AscendBy station_id shelf.now }
    ensures { IsSpanOf id.now shelf.now result.0 result.1 }
{
    match place_of(shelf, id) {
        Ok(place) => (place, place + 1),
        Err(place) => (place, place),
    }
}

// A station beside a place, if there is one.
fn near(shelf: &Shelf, place: usize) -> Option<&Station> {
    if place > 0 && place <= shelf.len() {
        return Some(shelf.at(place - 1));
    }
    if place < shelf.len() {
        return Some(shelf.at(place));
    }
    None
}

// The station that an input describes, to be shared.
fn shared(
    alloc: Global,
    near: Option<&Station>,
    input: StationInput,
) -> Result<Arc<Station>, OutOfMemory>
    requires placed { IsPlaced (station_of input) }
    requires series { HasSeries (length input.series) (station_of input) }
    ensures { IfOk result (λ station. arc_value station ≡ station_of input) }
{
    let station = Station::of(alloc, near, input)?;
    Ok(Arc::new(alloc, station)?)
}

// The stations, unless the blocks of so many parameters are too many to be counted.
fn counted(parameters: usize, shelf: Shelf) -> Result<Shelf, OutOfMemory>
    ensures same { IfOk result (λ same. same ≡ shelf) }
    ensures counted { OnOk result (blocks parameters shelf < 2 ^ 64) }
{
    match (parameters as u64).checked_mul(shelf.blocks()) {
        Some(_) => Ok(shelf),
        None => Err(OutOfMemory),
    }
}

// The stations of inputs that have no fault.
fn stations_of(
    alloc: Global,
    parameters: usize,
    inputs: Vec<StationInput>,
) -> Result<Stations, OutOfMemory>
    requires inputs { All IsInput inputs.items }
    requires counts { All (HasCounts parameters) inputs.items }
    requires once { HaveOwnIds inputs.items }
    ensures parameters { IfOk result (λ stations. stations.parameters ≡ parameters) }
    ensures stations { IfOk result (λ stations. AreOf inputs.items stations.stations) }
{
    items_are_by_id::<Station>();
    let mut stations = Stations::new(parameters);
    for input in inputs {
        stations.stands();
        stations.set(alloc, input)?;
    }
    Ok(stations)
}

impl Stations {
    /// No stations, for so many parameters. It takes no memory.
    pub fn new(parameters: usize) -> Stations
        ensures { result ≡ record { parameters = parameters; stations = [] } }
    {
        Stations {
            parameters,
            shelf: Shelf::empty(),
            cells: Cells::empty(),
        }
    }

    /// The stations that some inputs describe, each of so many parameters.
    ///
    /// The first fault that applies is answered: `SameId` where two inputs have one id, then `WrongCount` where an input has
    /// no list for each parameter or a list without one value for each time and level, each with the least id in byte order.
    pub fn of(
        alloc: Global,
        parameters: usize,
        inputs: Vec<StationInput>,
    ) -> Result<Stations, StationFault>
        requires { All IsInput inputs.items }
        ensures parameters { IfOk result (λ stations. stations.parameters ≡ parameters) }
        ensures stations { IfOk result (λ stations. AreOf inputs.items stations.stations) }
        ensures none { OnOk result (NoneApplies (Applies parameters inputs.items)) }
        ensures refused { IfErr result (λ fault. fault ≢ StationFault.OutOfMemory → IsLeast rank (Applies parameters inputs.items) fault) }
    {
        find_fault(alloc, parameters, &inputs)?;
        Ok(stations_of(alloc, parameters, inputs)?)
    }

    // They stand in ascending order of their ids.
    fn stands(&self)
        ensures { AreStations self.now }
    {
        let _ = &self.shelf;
    }

    /// How many parameters each station has. It takes no memory.
    pub fn parameters(&self) -> usize
        ensures parameters { result ≡ self.now.parameters }
        ensures stations { AreStations self.now }
    {
        self.parameters
    }

    /// How many stations there are. It takes no memory.
    pub fn len(&self) -> usize
        ensures len { result ≡ length self.now.stations }
        ensures stations { AreStations self.now }
    {
        self.shelf.len()
    }

    /// The station at a place, from 0, in ascending order of ids. It takes no memory.
    pub fn station(&self, place: usize) -> &Station
        requires { place < length self.now.stations }
        ensures at { result.now ≡ station_at self.now.stations place }
        ensures station { IsStation self.now.parameters result.now }
    {
        self.shelf.at(place)
    }

    /// The place of the station of an id, from 0, or None exactly where there is no such station. It takes no memory.
    pub fn by_id(&self, id: &[u8]) -> Option<usize>
        ensures inside { IfSome result (λ place. place < length self.now.stations) }
        ensures found { option_map (λ place. station_at self.now.stations place) result ≡ ids.item_of station_id id.now self.now.stations }
    {
        match place_of(&self.shelf, id) {
            Ok(place) => Some(place),
            Err(_) => None,
        }
    }

    /// The places of the stations inside the box of two corners, its borders included, ascending. The only error is want of
    /// memory.
    pub fn in_box(&self, alloc: Global, lo: Spot, hi: Spot) -> Result<Vec<usize>, OutOfMemory>
        ensures { IfOk result (λ places. places.items ≡ places_inside lo hi self.now.stations) }
    {
        let mut places = Vec::new(alloc);
        if self.shelf.len() > 0 {
            self.shelf.add_inside(0, lo, hi, &mut places)?;
        }
        Ok(places)
    }

    /// The place of the station that is nearest to a place of the plane: it has the least pair of squared distance and id, the
    /// ids in byte order. It is None exactly where there are no stations.
    ///
    /// `looks`, which has to be empty, has the numbers of the cells whose stations were looked at: exactly of those whose squares
    /// aren't farther from the place than the station, each once, in ascending order. A cell is a square of 65,536 metres in
    /// which a station stands; they are numbered from 0, by columns, and by rows in a column. After want of memory, the only
    /// error, it is as it was.
    pub fn nearest(
        &self,
        alloc: Global,
        spot: Spot,
        looks: &mut Looks,
    ) -> Result<Option<usize>, OutOfMemory>
        requires spot { IsSpot spot }
        requires empty { looks.old ≡ [] }
        ensures inside { IfOk result (λ found. IfSome found (λ place. place < length self.now.stations)) }
        ensures nearest { IfOk result (λ found. Nearest station_id station_spot spot (Contains self.now.stations) (option_map (λ place. station_at self.now.stations place) found)) }
        ensures looks { IfOk result (λ found. AreLookedAt spot self.now.stations (option_map (λ place. station_at self.now.stations place) found) looks.new) }
        ensures kept { OnErr result (looks.new ≡ looks.old) }
    {
        items_are_by_id::<Station>();
        match self.cells.nearest(alloc, spot, looks)? {
            Some(station) => Ok(self.by_id(station.id())),
            None => Ok(None),
        }
    }

    /// An equal list, which shares all stations. It takes no memory; its only error is that there are too many copies to be
    /// counted.
    pub fn share(&self) -> Result<Stations, OutOfMemory>
        ensures { IfOk result (λ stations. stations ≡ self.now) }
    {
        Ok(Stations {
            parameters: self.parameters,
            shelf: self.shelf.share()?,
            cells: self.cells.share()?,
        })
    }

    /// Sets a station at its place, instead of that of the same id where there is one.
    ///
    /// After want of memory, its only error, which is also the answer where there would be 2 to the 64 blocks or more, the
    /// stations are as they were, and the input is given up.
    pub fn set(&mut self, alloc: Global, input: StationInput) -> Result<(), OutOfMemory>
        requires input { IsInput input }
        requires counts { HasCounts self.old.parameters input }
        ensures parameters { self.new.parameters ≡ self.old.parameters }
        ensures set { OnOk result (self.new.stations ≡ with_item station_id (station_of input) self.old.stations) }
        ensures kept { OnErr result (self.new ≡ self.old) }
    {
        let (place, end) = span_of(&self.shelf, input.id.bytes());
        let station = shared(alloc, near(&self.shelf, place), input)?;
        let cells = cells_with(alloc, &self.cells, &self.shelf, place, end, &station)?;
        let shelf = self.shelf.spliced(alloc, place, end, Some(station))?;
        self.shelf = counted(self.parameters, shelf)?;
        self.cells = cells;
        Ok(())
    }

    /// Takes out the station of an id, and says whether there was one.
    ///
    /// After want of memory, its only error, the stations are as they were. Where there is no station of the id it takes none.
    pub fn take_out(&mut self, alloc: Global, id: &[u8]) -> Result<bool, OutOfMemory>
        ensures parameters { self.new.parameters ≡ self.old.parameters }
        ensures was { IfOk result (λ was. was ≡ is_some (ids.item_of station_id id.now self.old.stations)) }
        ensures without { OnOk result (self.new.stations ≡ without_id station_id id.now self.old.stations) }
        ensures kept { OnErr result (self.new ≡ self.old) }
        ensures there { OnErr result (ids.item_of station_id id.now self.old.stations ≢ None) }
    {
        match place_of(&self.shelf, id) {
            Err(_) => Ok(false),
            Ok(place) => {
                let cells = cells_without(alloc, &self.cells, &self.shelf, place)?;
                self.shelf = self.shelf.spliced(alloc, place, place + 1, None)?;
                self.cells = cells;
                Ok(true)
            }
        }
    }

    /// How many blocks there are. It takes no memory.
    pub fn blocks(&self) -> u64
        ensures { result ≡ blocks self.now.parameters self.now.stations }
    {
        self.parameters as u64 * self.shelf.blocks()
    }

    /// The number of the block that has the value of a station, a parameter, a time and a level, each told by its place, from
    /// 0; the level is 0 where the station has none. It takes no memory.
    pub fn block_of(&self, station: usize, parameter: usize, time: usize, level: usize) -> u64
        requires { Within self.now (place_at station parameter time level) }
        ensures number { result ≡ block_of self.now (place_at station parameter time level) }
        ensures below { result < blocks self.now.parameters self.now.stations }
    {
        let place = self.shelf.at(station).place_in_series(time, level);
        self.number_of(station, parameter, (place / BLOCK_LENGTH) as u64)
    }

    // The number of a block of a parameter of a station.
    fn number_of(&self, station: usize, parameter: usize, block: u64) -> u64
        requires station { station < length self.now.stations }
        requires parameter { parameter < self.now.parameters }
        requires block { block < blocks_of (station_at self.now.stations station) }
        ensures number { result ≡ block_number (first_block self.now station) (blocks_of (station_at self.now.stations station)) parameter block }
        ensures below { result < blocks self.now.parameters self.now.stations }
    {
        let first = self.parameters as u64 * self.shelf.blocks_before(station);
        first + parameter as u64 * self.shelf.at(station).blocks() + block
    }

    // The packed block of a number.
    fn packed_block(&self, number: u64) -> &Packed
        requires { number < blocks self.now.parameters self.now.stations }
        ensures { IsBlock self.now number result.now }
    {
        let parameters = self.parameters as u64;
        let (place, before) = self.shelf.find(number / parameters);
        let station = self.shelf.at(place);
        let rest = number - parameters * before;
        let blocks = station.blocks();
        station.block((rest / blocks) as usize, (rest % blocks) as usize)
    }

    /// The values of the block of a number, or want of memory. The number is appended to `reads`, which want of memory leaves
    /// as it was.
    pub fn open_block(
        &self,
        alloc: Global,
        number: u64,
        reads: &mut Reads,
    ) -> Result<Vec<Option<i64>>, OutOfMemory>
        requires { number < blocks self.now.parameters self.now.stations }
        ensures ok { IfOk result (λ values. IsBlock self.now number values.items) }
        ensures read { OnOk result (reads.new ≡ reads.old ++ number ∷ []) }
        ensures err { OnErr result (reads.new ≡ reads.old) }
    {
        open_packed(alloc, self.packed_block(number), number, reads)
    }
}
