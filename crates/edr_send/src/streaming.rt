//! A reply of one coverage whose values are written as they are read.
ghost use Rattle.std.specs.Prelude.{length};
ghost use Rattle.edr_send.specs.Forms.{IsRising, listing_sent};

use crate::coverages::{Buffers, Coverages, RangePlace, parameter_at};
use crate::value_runs::write_runs;
use covjson_value::Coverage;
use covjson_write::Writer;
use edr_base::{SendFault, Sink};
use edr_edition::Store;
use edr_select::{Listing, listing_stands};

impl Coverages for Listing {
    ghost over = { IsRising };

    ghost sent = { listing_sent };

    ghost size = { λ plan. length plan.coverages };

    fn are_many(&self) -> bool {
        self.many
    }

    fn count(&self) -> usize {
        self.coverages.items().len()
    }

    fn head(&self, number: usize) -> &Coverage {
        let planned = &self.coverages.items()[number];
        &planned.head
    }

    fn send_values<K: Sink>(
        &self,
        place: RangePlace,
        store: &mut Store<'_>,
        writer: &mut Writer,
        sink: &mut K,
        buffers: &mut Buffers,
    ) -> Result<(), SendFault> {
        listing_stands(self);
        let planned = &self.coverages.items()[place.coverage];
        let parameter = parameter_at(self.parameters.items(), place.range);
        let cells = planned.cells.items();
        write_runs(self.shape, parameter, cells, store, writer, sink, buffers)
    }
}
