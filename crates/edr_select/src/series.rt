//! Coverages of stations but for their values.
ghost use Rattle.edr_select.specs.Series.{IsSeriesReply};

use covjson_value::Coverage;
use edr_base::Items;
use std::marker::Model;

/// The coverage of a station but for its values.
#[derive(Drop)]
pub struct StationSeries {
    /// The coverage without its ranges.
    pub head: Coverage,
    /// The place of the station, from 0, in ascending order of ids.
    pub station: u64,
    /// The number of the station's first block.
    pub first: u64,
    /// How many blocks each of its parameters has.
    pub blocks: u64,
    /// For each value of a range its place among the station's values of a parameter, in the order t, z, ascending, or None where
    /// it isn't taken.
    pub cells: Items<Option<u64>>,
}

impl Model for StationSeries {
    ghost use Rattle.edr_select.specs.Series.{StationSeriesValue};

    ghost Value = { StationSeriesValue };

    ghost view = { λ s. record {
      head = s.head;
      station = s.station;
      first = s.first;
      blocks = s.blocks;
      cells = s.cells;
    } };
}

/// The coverages of stations but for their values, in ascending order of the stations' ids.
#[derive(Drop)]
pub struct SeriesReply {
    /// The places of the parameters that are asked, among those of the stations, ascending.
    pub parameters: Items<u64>,
    /// Whether the reply is a collection of coverages; else it has one coverage.
    pub many: bool,
    /// The coverages.
    pub series: Items<StationSeries>,
}

impl Model for SeriesReply {
    ghost use Rattle.edr_select.specs.Series.{SeriesReplyValue, IsSeriesReply};

    ghost Value = { SeriesReplyValue };

    ghost view = { λ r. record {
      parameters = r.parameters;
      many = r.many;
      series = r.series;
    } };

    ghost invariant = { λ r. IsSeriesReply (record {
      parameters = r.parameters;
      many = r.many;
      series = r.series;
    }) };
}

/// Each such reply is one: each coverage is valid but for its ranges, and has a place or none for each value.
pub fn series_reply_stands(reply: &SeriesReply)
    ensures { IsSeriesReply reply.now }
{
    let _ = &reply.parameters;
}
