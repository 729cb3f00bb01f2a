//! Where a query stands.
ghost use Rattle.std.specs.Prelude.{◌≡◌, IfOk};
ghost use Rattle.edr_query.specs.Spelling.{address_of};

use edr_base::{OutOfMemory, Text};
use edr_query::{Address, Query, QueryKind, Shape};
use std::alloc::Global;

/// The address of a query: its collection, its instance where it has one, and its kind, or its station.
pub fn address_of(alloc: Global, query: &Query) -> Result<Address, OutOfMemory>
    ensures { IfOk result (λ address. address ≡ address_of query.now) }
{
    let collection = Text::of(alloc, query.collection.bytes())?;
    let kind = match &query.shape {
        Shape::Position(_) => QueryKind::Position,
        Shape::Radius { .. } => QueryKind::Radius,
        Shape::Area(_) => QueryKind::Area,
        Shape::Cube { .. } => QueryKind::Cube,
        Shape::Trajectory(_) => QueryKind::Trajectory,
        Shape::Corridor { .. } => QueryKind::Corridor,
        Shape::Location(station) => {
            let station = Text::of(alloc, station.bytes())?;
            return Ok(Address::Location(collection, station));
        }
    };
    let instance = Text::copied(alloc, &query.instance)?;
    Ok(Address::Query {
        kind,
        collection,
        instance,
    })
}
