//! Stacks: a box of the nodes of a grid at some times and levels, of which at each time and level others are taken.
ghost use Rattle.std.specs.Prelude.{◌<◌, ◌^◌};
ghost use Rattle.edr_chunk.specs.Places.{count};
ghost use Rattle.edr_select.specs.Stacks.{IsStacking};

use covjson_value::Coverage;
use edr_base::Items;
use edr_chunk::GridShape;
use std::marker::Model;

/// Some times and levels of a grid, and a box of its nodes.
#[derive(Drop)]
pub struct StackSides {
    /// The places of its times on the grid's axis, ascending.
    pub times: Items<u64>,
    /// Those of its levels; 0 alone where the grid has no levels.
    pub levels: Items<u64>,
    /// Its first row.
    pub row: u32,
    /// How many rows it has.
    pub rows: u32,
    /// Its first column.
    pub column: u32,
    /// How many columns it has.
    pub columns: u32,
}

impl Model for StackSides {
    ghost use Rattle.edr_select.specs.Stacks.{SidesValue};

    ghost Value = { SidesValue };

    ghost view = { λ s. record {
      times = s.times;
      levels = s.levels;
      row = s.row;
      rows = s.rows;
      column = s.column;
      columns = s.columns;
    } };
}

/// A box of the nodes of a grid at some times and levels, and for each of these nodes whether it is taken.
#[derive(Drop)]
pub struct Stack {
    /// The times, the levels and the box.
    pub sides: StackSides,
    /// The truth values, in the order t, z, y, x.
    pub mask: Items<bool>,
}

impl Model for Stack {
    ghost use Rattle.edr_select.specs.Stacks.{StackValue};

    ghost Value = { StackValue };

    ghost view = { λ s. record { sides = s.sides; mask = s.mask } };
}

/// The one coverage of a reply but for its values, and the stack that these are read from.
#[derive(Drop)]
pub struct Stacking {
    /// The shape of the grid that they are read from.
    pub shape: GridShape,
    /// The places of the parameters that are asked, among the grid's.
    pub parameters: Items<u64>,
    /// The coverage without its ranges.
    pub head: Coverage,
    /// The stack.
    pub stack: Stack,
}

impl Model for Stacking {
    ghost use Rattle.std.specs.Prelude.{◌<◌, ◌^◌};
    ghost use Rattle.edr_chunk.specs.Places.{count};
    ghost use Rattle.edr_select.specs.Stacks.{StackingValue, IsStacking};

    ghost Value = { StackingValue };

    ghost view = { λ s. record {
      shape = s.shape;
      parameters = s.parameters;
      head = s.head;
      stack = s.stack;
    } };

    ghost invariant = { λ s. IsStacking (record {
      shape = s.shape;
      parameters = s.parameters;
      head = s.head;
      stack = s.stack;
    }) × (count s.shape < 2 ^ 64) };
}

/// Each stacking is one: its stack lies in the shape of a grid whose values can be counted.
pub fn stacking_stands(stacking: &Stacking)
    ensures is { IsStacking stacking.now }
    ensures fits { count stacking.now.shape < 2 ^ 64 }
{
    let _ = &stacking.shape;
}
