//! Observations, and why a table holds none.
ghost use Rattle.std.specs.Prelude.{◌≡◌};
ghost use Rattle.edr_csv.specs.declared.observations.TableFault.TheVariants.{OutOfMemory as TableWantsMemory};

use edr_base::{OutOfMemory, Text};
use std::alloc::{AllocError, AllocFailed};

/// A value of a parameter at a station and a time.
#[derive(Drop)]
pub struct Observation {
    /// The station's id: 1 to 128 bytes of UTF-8 without bytes below 32, byte 127 and the comma.
    pub station: Text,
    /// The station's name, for people; UTF-8, of at most 128 bytes.
    pub label: Text,
    /// The first coordinate of the station, in metres.
    pub x: i64,
    /// The second, in metres.
    pub y: i64,
    /// The time, in seconds since 1970-01-01T00:00:00Z.
    pub t: i64,
    /// The parameter's id, in the form of a station's.
    pub parameter: Text,
    /// The value; None where it is missing.
    pub value: Option<i64>,
}

/// A column of a table of observations.
#[derive(Clone, Copy, Debug, PartialEq, Eq)]
pub enum Column {
    /// The station's id.
    Station,
    /// The station's name.
    Label,
    /// The first coordinate.
    X,
    /// The second coordinate.
    Y,
    /// The time.
    T,
    /// The parameter's id.
    Parameter,
    /// The value.
    Value,
}

/// Why a table holds no observations. A record is named by its number, which is 1 for the header; empty lines have none.
#[derive(Clone, Copy, Debug, PartialEq, Eq)]
pub enum TableFault {
    /// The first record isn't the header, or there is none.
    NotHeader,
    /// The first record that hasn't seven fields, or isn't UTF-8.
    BadRecord(usize),
    /// The first record with a field that isn't of its form, and the first such column.
    BadField(usize, Column),
    /// The first record whose label, x or y isn't that of its station's first record.
    PlaceDiffers(usize),
    /// The first record whose station, time and parameter are those of an earlier one.
    SameSample(usize),
    /// There is no record behind the header.
    NoRecords,
    /// Memory was wanting.
    OutOfMemory,
}

impl From<OutOfMemory> for TableFault {
    ghost from_gives = { λ _ fault. fault ≡ TableWantsMemory };

    fn from(_: OutOfMemory) -> TableFault {
        TableFault::OutOfMemory
    }
}

impl From<AllocError> for TableFault {
    ghost from_gives = { λ _ fault. fault ≡ TableWantsMemory };

    fn from(_: AllocError) -> TableFault {
        TableFault::OutOfMemory
    }
}

impl<T: Drop> From<AllocFailed<T>> for TableFault {
    ghost from_gives = { λ _ fault. fault ≡ TableWantsMemory };

    fn from(_: AllocFailed<T>) -> TableFault {
        TableFault::OutOfMemory
    }
}
