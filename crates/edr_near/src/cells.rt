//! One cell: a square and what stands in it.
ghost use Rattle.std.specs.Prelude.{◌≡◌, ◌<◌, ◌++◌, ◌∷◌, [], length, Contains, IfOk, option_map, option_to_list};
ghost use Rattle.std.specs.Arc.{arc_value};
ghost use Rattle.edr_near.specs.Squares.{IsSpot, strips, square_distance};
ghost use Rattle.edr_near.specs.Near.{Nearest};
ghost use Rattle.edr_near.specs.Cells as keys;
ghost use Rattle.edr_near.specs.Cells.{cell_key};
ghost use Rattle.edr_near.specs.Kept.{IsMore, IsWithout};

use crate::placed::Placed;
use crate::squares::Square;
use crate::trees::Tree;
use edr_base::{OutOfMemory, Spot};
use edr_ids::Identified;
use std::alloc::Global;
use std::marker::Model;
use std::sync::Arc;

/// A square in which something stands, and what stands there.
#[derive(Drop)]
pub struct Cell<T: Placed> {
    key: [u8; 4],
    square: Square,
    items: Tree<T>,
}

impl<T: Placed> Model for Cell<T> {
    ghost use Rattle.std.specs.Prelude.{◌≡◌, ◌<◌};
    ghost use Rattle.edr_near.specs.Cells.{CellValue, cell_code, key_of};
    ghost use Rattle.edr_near.specs.Squares.{strips};

    ghost Value = { CellValue T };

    ghost coded = { cell_code T.code };

    ghost view = { λ c. record { column = c.square.column; row = c.square.row; items = c.items } };

    ghost invariant = { λ c. (c.key ≡ key_of c.square.column c.square.row) × (c.square.column < strips) × (c.square.row < strips) };
}

impl<T: Placed> Identified for Cell<T> {
    ghost id_of = { cell_key };

    fn id(&self) -> &[u8] {
        &self.key
    }
}

/// The key of a square.
pub fn key_of(square: &Square) -> [u8; 4]
    requires column { square.now.column < strips }
    requires row { square.now.row < strips }
    ensures { result ≡ keys.key_of square.now.column square.now.row }
{
    [
        (square.column / 256) as u8,
        (square.column % 256) as u8,
        (square.row / 256) as u8,
        (square.row % 256) as u8,
    ]
}

impl<T: Placed> Cell<T> {
    /// Its square.
    pub fn square(&self) -> Square
        ensures column { result.column ≡ self.now.column }
        ensures row { result.row ≡ self.now.row }
        ensures column_in { result.column < strips }
        ensures row_in { result.row < strips }
    {
        self.square
    }

    /// How far its square is from a place, squared.
    pub fn distance(&self, spot: &Spot) -> u64
        requires { IsSpot spot.now }
        ensures { result ≡ square_distance self.now.column self.now.row spot.now }
    {
        self.square.distance(spot)
    }
}

impl<T: Identified + Placed> Cell<T> {
    /// Of an item, if one is given, and those of the cell that which is nearest to a place.
    pub fn nearer<'a>(&'a self, best: Option<&'a T>, spot: &Spot) -> Option<&'a T>
        requires { IsSpot spot.now }
        ensures { Nearest T.id_of T.spot_of spot.now (Contains (option_to_list (option_map (λ b. b.now) best.entry) ++ self.now.items)) (option_map (λ i. i.now) result) }
    {
        self.items.nearer(best, spot)
    }
}

impl<T: Identified + Placed + Drop> Cell<T> {
    /// A square and one item.
    pub fn of(alloc: Global, square: Square, item: &Arc<T>) -> Result<Cell<T>, OutOfMemory>
        requires column { square.column < strips }
        requires row { square.row < strips }
        ensures { IfOk result (λ cell. cell ≡ record { column = square.column; row = square.row; items = arc_value item.now ∷ [] }) }
    {
        Ok(Cell {
            key: key_of(&square),
            square,
            items: Tree::of(alloc, item)?,
        })
    }

    /// The cell with one more item.
    pub fn with(&self, alloc: Global, item: &Arc<T>) -> Result<Cell<T>, OutOfMemory>
        ensures key { IfOk result (λ cell. cell_key cell ≡ cell_key self.now) }
        ensures items { IfOk result (λ cell. IsMore self.now.items (arc_value item.now) cell.items) }
    {
        Ok(Cell {
            key: self.key,
            square: self.square,
            items: self.items.with(alloc, item)?,
        })
    }

    /// The cell without the items that have an id and stand at a place; None where it has no others.
    pub fn without(
        &self,
        alloc: Global,
        id: &[u8],
        spot: &Spot,
    ) -> Result<Option<Cell<T>>, OutOfMemory>
        ensures { IfOk result (λ left. IsWithout T.id_of T.spot_of spot.now id.now self.now left) }
    {
        let Some(items) = self.items.without(alloc, id, spot)? else {
            return Ok(None);
        };
        items.stand();
        Ok(Some(Cell {
            key: self.key,
            square: self.square,
            items,
        }))
    }
}
