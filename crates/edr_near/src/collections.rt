//! Items in the cells that they stand in.
ghost use Rattle.std.specs.Prelude.{◌≡◌, false, ◌<◌, ◌≤◌, ◌^◌, ◌↔◌, ◌⊎◌, ◌++◌, ◌∷◌, [], length, Contains, IsTrue, IfSome, MatchOption, IfOk, OnOk, OnErr, option_map};
ghost use Rattle.std.specs.List.{slice_index_or};
ghost use Rattle.std.specs.Arc.{arc_value};
ghost use Rattle.edr_near.specs.Squares.{IsSpot, strips};
ghost use Rattle.edr_near.specs.Near.{Nearest, distance_of, is_it};
ghost use Rattle.edr_near.specs.Cells.{CellValue, AreCells, Has, distances, distance_at, key_of};
ghost use Rattle.edr_near.specs.Looks.{AreLooks};
ghost use Rattle.edr_near.specs.Kept.{values_of, IsWith};
ghost use Rattle.edr_near.specs.Search.{IsUnread, FirstUnread, AreNoNearer, AreBehind, IsFirstBetween, NextCell, IsSearched};

use crate::candidates::Candidate;
use crate::cells::{Cell, key_of};
use crate::looks::Looks;
use crate::placed::{Placed, distance_of};
use crate::squares::{Square, distance_of_squares, square_of};
use edr_base::{OutOfMemory, Spot};
use edr_ids::{ById, Identified, items_are_by_id};
use std::alloc::Global;
use std::marker::Model;
use std::sync::Arc;

/// Items that stand at places, such as stations, in the cells that they stand in: the squares of 65,536 metres in which
/// something stands. Contracts see the cells, each with its items, in ascending order of columns, and of rows in a column;
/// the number of a cell is its place among them.
///
/// Which item is nearest to a place is found by reading no cell that is farther from the place than the answer. An equal
/// copy takes no memory, and a change of one of two copies leaves the other as it is.
#[derive(Drop)]
pub struct Cells<T: Placed> {
    cells: ById<Cell<T>>,
}

impl<T: Placed> Model for Cells<T> {
    ghost use Rattle.std.specs.Prelude.{List};
    ghost use Rattle.std.specs.Coded.{coded_list};
    ghost use Rattle.edr_near.specs.Cells.{CellValue, cell_code, AreCells};

    ghost Value = { List (CellValue T) };

    ghost coded = { coded_list (cell_code T.code) };

    ghost view = { λ c. c.cells };

    ghost invariant = { λ c. AreCells T.spot_of c.cells };
}

impl<T: Identified + Placed> Cells<T> {
    /// No items. It takes no memory.
    pub fn empty() -> Cells<T>
        ensures { result ≡ [] }
    {
        Cells {
            cells: ById::empty(),
        }
    }

    /// An equal collection, which shares all items. It takes no memory; its only error is that there are too many copies to
    /// be counted.
    pub fn share(&self) -> Result<Cells<T>, OutOfMemory>
        ensures { IfOk result (λ cells. cells ≡ self.now) }
    {
        Ok(Cells {
            cells: self.cells.share()?,
        })
    }

    // They are cells, and can be counted.
    fn stand(&self)
        ensures cells { AreCells T.spot_of self.now }
        ensures fits { length self.now < 2 ^ 64 }
    {
        let _len = self.cells.len();
    }

    // The cell of a number, which is added to those that were read.
    fn read(&self, number: usize, numbers: &mut Vec<u64>) -> Result<&Cell<T>, OutOfMemory>
        requires { number < length self.now }
        ensures cell { IfOk result (λ cell. (d : CellValue T) → cell.now ≡ slice_index_or self.now number d) }
        ensures read { OnOk result (numbers.new.items ≡ numbers.old.items ++ number ∷ []) }
    {
        numbers.push(number as u64)?;
        Ok(self.cells.at(number))
    }

    // The cell of a number, and how far its square is from a place. Nothing that stands there is looked at.
    fn candidate(&self, place: usize, spot: &Spot) -> Candidate
        requires place { place < length self.now }
        requires spot { IsSpot spot.now }
        ensures place { result.place ≡ place }
        ensures distance { result.distance ≡ distance_at (distances spot.now self.now) place }
    {
        Candidate {
            distance: self.cells.at(place).distance(spot),
            place,
        }
    }

    // The square of the cell of a number.
    fn square_at(&self, place: usize) -> Square
        requires { place < length self.now }
        ensures column { (d : CellValue T) → result.column ≡ (slice_index_or self.now place d).column }
        ensures row { (d : CellValue T) → result.row ≡ (slice_index_or self.now place d).row }
        ensures column_in { result.column < strips }
        ensures row_in { result.row < strips }
    {
        self.cells.at(place).square()
    }

    // How far the squares of the cells from one number up to another are from a place, squared: none of them is nearer.
    fn distance_between(&self, low: usize, high: usize, spot: &Spot) -> u64
        requires order { low < high }
        requires inside { high ≤ length self.now }
        requires spot { IsSpot spot.now }
        ensures { AreNoNearer (distances spot.now self.now) low high result }
    {
        self.stand();
        distance_of_squares(self.square_at(low), self.square_at(high - 1), spot)
    }

    // Whether the cells from one number up to another are farther from a place than a candidate.
    fn are_beyond(&self, low: usize, high: usize, found: &Option<Candidate>, spot: &Spot) -> bool
        requires order { low < high }
        requires inside { high ≤ length self.now }
        requires spot { IsSpot spot.now }
        requires found { IfSome found.now (λ found. found.place < length self.now) }
        ensures { IsTrue result → AreBehind (distances spot.now self.now) low high found.now }
    {
        self.stand();
        match found {
            None => false,
            Some(found) => found.distance < self.distance_between(low, high, spot),
        }
    }

    // Whether the cell of a number stands behind the square of a place.
    fn is_behind(&self, place: usize, spot: &Spot) -> bool
        requires place { place < length self.now }
        requires spot { IsSpot spot.now }
    {
        let own = square_of(spot);
        let square = self.square_at(place);
        own.column < square.column || own.column == square.column && own.row < square.row
    }

    // Of a candidate, if one is given, and those of the cells from one number up to another that weren't read, the first.
    // Those are halved, and first the half is looked at in which the square of the place would stand.
    fn first_between(
        &self,
        low: usize,
        high: usize,
        last: &Option<Candidate>,
        found: Option<Candidate>,
        spot: &Spot,
    ) -> Option<Candidate>
        requires order { low < high }
        requires inside { high ≤ length self.now }
        requires spot { IsSpot spot.now }
        requires found { IfSome found (IsUnread (distances spot.now self.now) last.now) }
        ensures { IsFirstBetween (distances spot.now self.now) last.now low high found result }
    {
        if self.are_beyond(low, high, &found, spot) {
            return found;
        }
        if high - low == 1 {
            return self.candidate(low, spot).unless_read(last, found);
        }
        let middle = low + (high - low) / 2;
        if self.is_behind(middle, spot) {
            let first = self.first_between(low, middle, last, found, spot);
            self.first_between(middle, high, last, first, spot)
        } else {
            let first = self.first_between(middle, high, last, found, spot);
            self.first_between(low, middle, last, first, spot)
        }
    }

    // Of the cells behind the last one, in the order of their distance and number, the first.
    fn first_unread(&self, last: Option<Candidate>, spot: &Spot) -> Option<Candidate>
        requires { IsSpot spot.now }
        ensures { FirstUnread (distances spot.now self.now) last (length self.now) result }
    {
        let end = self.cells.len();
        if end == 0 {
            return None;
        }
        self.first_between(0, end, &last, None, spot)
    }

    // The same, unless it is farther than the best item so far.
    fn next(&self, best: Option<&T>, last: Option<Candidate>, spot: &Spot) -> Option<Candidate>
        requires { IsSpot spot.now }
        ensures { NextCell (distances spot.now self.now) last (option_map (λ b. distance_of T.id_of T.spot_of spot.now b.now) best.entry) result }
    {
        self.stand();
        let first = self.first_unread(last, spot)?;
        match best {
            Some(best) if distance_of(best, spot) < first.distance => None,
            _ => Some(first),
        }
    }

    // The item nearest to a place. The cells are read from the nearest on, until the next one is farther than the best item.
    fn search(&self, spot: &Spot, numbers: &mut Vec<u64>) -> Result<Option<&T>, OutOfMemory>
        requires spot { IsSpot spot.now }
        requires empty { numbers.old.items ≡ [] }
        ensures { IfOk result (λ best. IsSearched T.id_of T.spot_of spot.now self.now (option_map (λ b. b.now) best) numbers.new.items) }
    {
        self.stand();
        let mut best = None;
        let mut last = None;
        while let Some(next) = self.next(best, last, spot) {
            best = self.read(next.place, numbers)?.nearer(best, spot);
            last = Some(next);
        }
        Ok(best)
    }

    /// The item that is nearest to a place: it has the least pair of squared distance and id. It is None exactly where there
    /// are no items.
    ///
    /// `looks`, which has to be empty, has the numbers of the cells that were read: exactly of those whose squares aren't
    /// farther from the place than the answer, each once, in ascending order. After want of memory, the only error, it is
    /// as it was.
    pub fn nearest(
        &self,
        alloc: Global,
        spot: Spot,
        looks: &mut Looks,
    ) -> Result<Option<&T>, OutOfMemory>
        requires spot { IsSpot spot }
        requires empty { looks.old ≡ [] }
        ensures cells { AreCells T.spot_of self.now }
        ensures nearest { IfOk result (λ found. Nearest T.id_of T.spot_of spot (Has self.now) (option_map (λ i. i.now) found)) }
        ensures looks { IfOk result (λ found. MatchOption found (looks.new ≡ []) (λ item. AreLooks (distances spot self.now) (distance_of T.id_of T.spot_of spot item.now) looks.new)) }
        ensures kept { OnErr result (looks.new ≡ looks.old) }
    {
        self.stand();
        let mut numbers = Vec::new(alloc);
        let found = self.search(&spot, &mut numbers)?;
        *looks = Looks::of(numbers);
        Ok(found)
    }
}

impl<T: Identified + Placed + Drop> Cells<T> {
    // The cell of a square with one more item.
    fn cell_with(
        &self,
        alloc: Global,
        square: Square,
        item: &Arc<T>,
    ) -> Result<Cell<T>, OutOfMemory>
        requires column { square.column < strips }
        requires row { square.row < strips }
        ensures { IfOk result (λ cell. IsWith self.now square.column square.row (arc_value item.now) cell) }
    {
        match self.cells.item_of(&key_of(&square)) {
            Some(cell) => cell.with(alloc, item),
            None => Cell::of(alloc, square, item),
        }
    }

    /// Puts one more item into the cell of its place. After want of memory, its only error, the items are as they were.
    pub fn put(&mut self, alloc: Global, item: &Arc<T>) -> Result<(), OutOfMemory>
        ensures put { OnOk result ((v : T) → Has self.new v ↔ ((v ≡ arc_value item.now) ⊎ Has self.old v)) }
        ensures kept { OnErr result (self.new ≡ self.old) }
    {
        items_are_by_id::<Cell<T>>();
        let square = square_of(&item.spot());
        let cell = self.cell_with(alloc, square, item)?;
        self.cells.put(alloc, cell)
    }

    /// Takes out the items that have an id and stand at a place. After want of memory, its only error, the items are as they
    /// were.
    pub fn take_out(&mut self, alloc: Global, id: &[u8], spot: Spot) -> Result<(), OutOfMemory>
        requires { IsSpot spot }
        ensures others { OnOk result ((v : T) → Has self.new v ↔ (Has self.old v × (is_it T.id_of T.spot_of spot id.now v ≡ false))) }
        ensures kept { OnErr result (self.new ≡ self.old) }
    {
        items_are_by_id::<Cell<T>>();
        let key = key_of(&square_of(&spot));
        let left = match self.cells.item_of(&key) {
            Some(cell) => cell.without(alloc, id, &spot)?,
            None => return Ok(()),
        };
        match left {
            Some(cell) => self.cells.put(alloc, cell),
            None => {
                self.cells.take_out(alloc, &key)?;
                Ok(())
            }
        }
    }

    /// Some items, in the cells that they stand in. The only error is want of memory.
    pub fn of(alloc: Global, items: &[Arc<T>]) -> Result<Cells<T>, OutOfMemory>
        ensures { IfOk result (λ cells. (v : T) → Has cells v ↔ Contains (values_of items.now) v) }
    {
        let mut cells = Cells::empty();
        for item in items {
            cells.put(alloc, item)?;
        }
        Ok(cells)
    }
}
