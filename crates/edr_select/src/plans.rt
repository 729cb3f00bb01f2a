//! Plans.

ghost use Rattle.std.specs.Prelude.{◌≡◌, ◌<◌, ◌^◌};
ghost use Rattle.edr_chunk.specs.Places.{count};
ghost use Rattle.edr_select.specs.Listings.{IsListing};

use crate::frames::Framing;
use crate::series::SeriesReply;
use crate::stacks::Stacking;
use covjson_value::Coverage;
use edr_base::Items;
use edr_chunk::GridShape;
use edr_query::Query;
use std::marker::Model;

/// A node of a grid, by its places on the axes, from 0.
#[derive(Clone, Copy, Debug, PartialEq, Eq)]
pub struct GridNode {
    /// The place of its time.
    pub t: u32,
    /// The place of its level; 0 where the grid has no levels.
    pub z: u32,
    /// Its row.
    pub y: u32,
    /// Its column.
    pub x: u32,
}

/// A coverage of a reply but for its values.
#[derive(Drop)]
pub struct Planned {
    /// The coverage without its ranges.
    pub head: Coverage,
    /// The node that each value of a range is read from, in their order.
    pub cells: Items<GridNode>,
}

impl Model for Planned {
    ghost use Rattle.edr_select.specs.Listings.{PlannedValue};

    ghost Value = { PlannedValue };

    ghost view = { λ p. record { head = p.head; cells = p.cells } };
}

/// The coverages of a reply but for their values, each with the nodes that these are read from.
#[derive(Drop)]
pub struct Listing {
    /// The shape of the grid that they are read from.
    pub shape: GridShape,
    /// The places of the parameters that are asked, among the grid's.
    pub parameters: Items<u64>,
    /// Whether the reply is a collection of coverages; else it has one coverage.
    pub many: bool,
    /// The coverages.
    pub coverages: Items<Planned>,
}

impl Model for Listing {
    ghost use Rattle.std.specs.Prelude.{◌<◌, ◌^◌};
    ghost use Rattle.edr_chunk.specs.Places.{count};
    ghost use Rattle.edr_select.specs.Listings.{ListingValue, IsListing};

    ghost Value = { ListingValue };

    ghost view = { λ l. record {
      shape = l.shape;
      parameters = l.parameters;
      many = l.many;
      coverages = l.coverages;
    } };

    ghost invariant = { λ l. IsListing (record {
      shape = l.shape;
      parameters = l.parameters;
      many = l.many;
      coverages = l.coverages;
    }) × (count l.shape < 2 ^ 64) };
}

/// How the values of a reply are read.
#[derive(Drop)]
pub enum Reply {
    /// Each from a node of a list.
    Listed(Listing),
    /// Each from a node of a frame, where it is taken.
    Framed(Framing),
    /// Each from a node of a stack, where it is taken.
    Stacked(Stacking),
    /// Each from a place among the values of a station, where it is taken.
    Series(SeriesReply),
}

/// What a reply to a query will be: its coverages but for their values, and the nodes or places that these are read from.
///
/// It is plain data and holds no sample.
#[derive(Drop)]
pub struct Plan {
    query: Query,
    reply: Reply,
}

impl Model for Plan {
    ghost use Rattle.edr_select.specs.Plans.{PlanValue};

    ghost Value = { PlanValue };

    ghost view = { λ p. record { query = p.query; reply = p.reply } };
}

impl Plan {
    /// The plan of a query whose reply's values are read so. It takes no memory.
    pub fn of(query: Query, reply: Reply) -> Plan
        ensures { result ≡ record { query = query; reply = reply } }
    {
        Plan { query, reply }
    }

    /// The query that it is a plan of.
    pub fn query(&self) -> &Query
        ensures { result.now ≡ self.now.query }
    {
        &self.query
    }

    /// How the values of its reply are read.
    pub fn reply(&self) -> &Reply
        ensures { result.now ≡ self.now.reply }
    {
        &self.reply
    }
}

/// Each listing is one: it lies in the shape of a grid whose values can be counted.
pub fn listing_stands(listing: &Listing)
    ensures is { IsListing listing.now }
    ensures fits { count listing.now.shape < 2 ^ 64 }
{
    let _ = &listing.shape;
}
