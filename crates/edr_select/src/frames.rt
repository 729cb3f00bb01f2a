//! Frames: a box of the nodes of a grid at some times and levels, of which some are taken.
ghost use Rattle.std.specs.Prelude.{◌<◌, ◌^◌};
ghost use Rattle.edr_chunk.specs.Places.{count};
ghost use Rattle.edr_select.specs.Framings.{IsFraming};

use covjson_value::Coverage;
use edr_base::Items;
use edr_chunk::GridShape;
use std::marker::Model;

/// Some times and levels of a grid, and a box of its nodes. For each row of the box it has truth values for so many columns of
/// the grid from one on, those of the box among them: whether the node there is taken.
#[derive(Drop)]
pub struct Frame {
    /// The places of its times on the grid's axis, ascending.
    pub times: Items<u64>,
    /// Those of its levels; 0 alone where the grid has no levels.
    pub levels: Items<u64>,
    /// Its first row.
    pub row: u32,
    /// How many rows it has.
    pub rows: u32,
    /// Its first column.
    pub column: u32,
    /// How many columns it has.
    pub columns: u32,
    /// The first column that truth values stand for.
    pub left: u32,
    /// How many columns they stand for in a row.
    pub width: u32,
    /// The truth values, row by row.
    pub mask: Items<bool>,
}

impl Model for Frame {
    ghost use Rattle.edr_select.specs.Framings.{FrameValue};

    ghost Value = { FrameValue };

    ghost view = { λ f. record {
      times = f.times;
      levels = f.levels;
      row = f.row;
      rows = f.rows;
      column = f.column;
      columns = f.columns;
      left = f.left;
      width = f.width;
      mask = f.mask;
    } };
}

/// The one coverage of a reply but for its values, and the frame that these are read from.
#[derive(Drop)]
pub struct Framing {
    /// The shape of the grid that they are read from.
    pub shape: GridShape,
    /// The places of the parameters that are asked, among the grid's.
    pub parameters: Items<u64>,
    /// The coverage without its ranges.
    pub head: Coverage,
    /// The frame.
    pub frame: Frame,
}

impl Model for Framing {
    ghost use Rattle.std.specs.Prelude.{◌<◌, ◌^◌};
    ghost use Rattle.edr_chunk.specs.Places.{count};
    ghost use Rattle.edr_select.specs.Framings.{FramingValue, IsFraming};

    ghost Value = { FramingValue };

    ghost view = { λ f. record {
      shape = f.shape;
      parameters = f.parameters;
      head = f.head;
      frame = f.frame;
    } };

    ghost invariant = { λ f. IsFraming (record {
      shape = f.shape;
      parameters = f.parameters;
      head = f.head;
      frame = f.frame;
    }) × (count f.shape < 2 ^ 64) };
}

/// Each framing is one: its frame lies in the shape of a grid whose values can be counted.
pub fn framing_stands(framing: &Framing)
    ensures is { IsFraming framing.now }
    ensures fits { count framing.now.shape < 2 ^ 64 }
{
    let _ = &framing.shape;
}
