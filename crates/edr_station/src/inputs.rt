//! What stations are made of.

ghost use Rattle.std.specs.Prelude.{◌≡◌};

use edr_axes::Axis;
use edr_base::{Items, OutOfMemory, Text};
use std::alloc::AllocError;

/// A station as it is given: all that `Station` keeps.
#[derive(Debug, Drop)]
pub struct StationInput {
    /// Its id, which is a name.
    pub id: Text,
    /// What people call it; UTF-8.
    pub label: Text,
    /// Its first coordinate, in metres.
    pub x: i64,
    /// Its second coordinate, in metres.
    pub y: i64,
    /// Its times, in seconds since 1970-01-01T00:00:00Z.
    pub times: Axis,
    /// Its levels in metres, where it has them.
    pub levels: Option<Axis>,
    /// For each parameter a value for each time and level, in the order t, z; None is a missing sample.
    pub series: Items<Items<Option<i64>>>,
}

/// Why some inputs aren't the stations of a collection. Of the faults that apply the first is answered, with the least id
/// in byte order.
#[derive(Debug, Drop)]
pub enum StationFault {
    /// Two inputs have the id.
    SameId(Text),
    /// The input of the id has no list for each parameter, or a list without one value for each time and level.
    WrongCount(Text),
    /// Memory was wanting.
    OutOfMemory,
}

impl From<AllocError> for StationFault {
    ghost use Rattle.edr_station.specs.declared.inputs.StationFault.TheVariants.{OutOfMemory};

    ghost from_gives = { λ _ fault. fault ≡ OutOfMemory };

    fn from(_: AllocError) -> StationFault {
        StationFault::OutOfMemory
    }
}

impl From<OutOfMemory> for StationFault {
    ghost use Rattle.edr_station.specs.declared.inputs.StationFault.TheVariants.{OutOfMemory};

    ghost from_gives = { λ _ fault. fault ≡ OutOfMemory };

    fn from(_: OutOfMemory) -> StationFault {
        StationFault::OutOfMemory
    }
}
