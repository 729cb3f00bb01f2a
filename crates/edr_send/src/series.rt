//! A reply over stations, whose values are written block by block: no two blocks are kept at a time.
ghost use Rattle.std.specs.Prelude.{length};
ghost use Rattle.edr_send.specs.SeriesTexts.{collection_of};
ghost use Rattle.edr_send.specs.SeriesTexts.{IsReplyOver};
ghost use Rattle.edr_send.specs.Forms.{series_sent};

use crate::block_runs::write_runs;
use crate::coverages::{Buffers, Coverages, RangePlace, parameter_at};
use covjson_value::Coverage;
use covjson_write::Writer;
use edr_base::{SendFault, Sink};
use edr_edition::Store;
use edr_select::{SeriesReply, series_reply_stands};

impl Coverages for SeriesReply {
    ghost over = { λ reply held. IsReplyOver (collection_of held) reply };

    ghost sent = { series_sent };

    ghost size = { λ reply. length reply.series };

    fn are_many(&self) -> bool {
        self.many
    }

    fn count(&self) -> usize {
        self.series.items().len()
    }

    fn head(&self, number: usize) -> &Coverage {
        let series = &self.series.items()[number];
        &series.head
    }

    fn send_values<K: Sink>(
        &self,
        place: RangePlace,
        store: &mut Store<'_>,
        writer: &mut Writer,
        sink: &mut K,
        buffers: &mut Buffers,
    ) -> Result<(), SendFault> {
        series_reply_stands(self);
        let series = &self.series.items()[place.coverage];
        let parameter = parameter_at(self.parameters.items(), place.range);
        write_runs(series, parameter, store, writer, sink, buffers)
    }
}
