//! A reply whose values are all gathered before any of them is written.
ghost use Rattle.std.specs.Prelude.{◌≡◌, ◌≤◌, ◌+◌, ◌*◌, IfOk, length, map};
ghost use Rattle.std.specs.List.{slice_range};
ghost use Rattle.edr_chunk.specs.Tiles.{tiles, tile_of};
ghost use Rattle.edr_select.specs.Samples.{ascending_once};
ghost use Rattle.edr_send.specs.Filling.{grid_of, Adds};
ghost use Rattle.edr_send.specs.Gathered.{places_of_coverages, IsGathered};
ghost use Rattle.edr_send.specs.Forms.{gathered_sent};

use crate::coverages::{Buffers, Coverages, RangePlace};
use crate::filling::fill;
use crate::slots::push_listing;
use covjson_value::Coverage;
use covjson_write::Writer;
use edr_base::{OutOfMemory, SendFault, Sink};
use edr_edition::Store;
use edr_select::Listing;
use std::alloc::Global;
use std::marker::Model;

// A listing, of each of its coverages where the first value stands among all, and the values in the order of the text.
#[derive(Drop)]
pub(crate) struct Gathered<'a> {
    listing: &'a Listing,
    starts: Vec<usize>,
    values: Vec<Option<i64>>,
}

impl<'a> Model for Gathered<'a> {
    ghost use Rattle.edr_send.specs.Gathered.{GatheredValue};

    ghost Value = { GatheredValue };

    ghost view = { λ g. record {
      plan = g.listing.now;
      starts = g.starts.items;
      values = g.values.items;
    } };
}

// Gathers the values of all ranges of a listing.
pub(crate) fn gather<'a>(
    alloc: Global,
    listing: &'a Listing,
    store: &mut Store<'_>,
) -> Result<Gathered<'a>, OutOfMemory>
    requires { listing.now.shape ≡ (grid_of store.old.subject.held).shape }
    ensures plan { IfOk result (λ gathered. gathered.plan ≡ listing.now) }
    ensures values { IfOk result (λ gathered. IsGathered gathered store.old.subject.held) }
    ensures reads { Adds result (ascending_once (tiles listing.now.shape)
        (map (tile_of listing.now.shape) (places_of_coverages listing.now.parameters
        listing.now.coverages))) store.old.numbers store.new.numbers }
    ensures subject { store.new.subject ≡ store.old.subject }
{
    let mut slots = Vec::new(alloc);
    let mut starts = Vec::new(alloc);
    push_listing(&mut slots, &mut starts, listing)?;
    let mut values = Vec::new(alloc);
    fill(alloc, store, &mut slots, &mut values)?;
    Ok(Gathered {
        listing,
        starts,
        values,
    })
}

// The values of a range, of so many cells, in a coverage whose first value stands at a place.
fn part_of(values: &[Option<i64>], start: usize, range: usize, cells: usize) -> &[Option<i64>]
    requires { start + range * cells + cells ≤ length values.now }
    ensures { result.now ≡ slice_range values.now (start + range * cells)
        (start + range * cells + cells) }
{
    let from = start + range * cells;
    &values[from..from + cells]
}

impl<'a> Coverages for Gathered<'a> {
    ghost over = { IsGathered };

    ghost sent = { λ gathered held. gathered_sent gathered.plan held };

    ghost size = { λ gathered. length gathered.plan.coverages };

    fn are_many(&self) -> bool {
        let listing = self.listing;
        listing.many
    }

    fn count(&self) -> usize {
        let listing = self.listing;
        listing.coverages.items().len()
    }

    fn head(&self, number: usize) -> &Coverage {
        let listing = self.listing;
        let planned = &listing.coverages.items()[number];
        &planned.head
    }

    fn send_values<K: Sink>(
        &self,
        place: RangePlace,
        _: &mut Store<'_>,
        writer: &mut Writer,
        sink: &mut K,
        _: &mut Buffers,
    ) -> Result<(), SendFault> {
        let listing = self.listing;
        let planned = &listing.coverages.items()[place.coverage];
        let cells = planned.cells.items().len();
        let start = self.starts[place.coverage];
        let part = part_of(&self.values, start, place.range, cells);
        writer.values(sink, part)
    }
}
