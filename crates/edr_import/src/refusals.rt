//! Why a table makes no feed.
ghost use Rattle.std.specs.Prelude.{◌≡◌};
ghost use Rattle.edr_import.specs.Faults.{of_sending, of_table};

use edr_base::{OutOfMemory, SendFault};
use edr_csv::{Column, TableFault};

/// Why a table makes no feed: the first that applies, in this order. A record is named by its number, which is 1 for the
/// header; empty lines have none.
#[derive(Clone, Copy, Debug, PartialEq, Eq)]
pub enum TableRefusal {
    /// The first record isn't the header, or there is none.
    NotHeader,
    /// The first record that hasn't seven fields, or isn't UTF-8.
    BadRecord(usize),
    /// The first record with a field that isn't of its form, and the first such column.
    BadField(usize, Column),
    /// The first record whose label, x or y isn't that of its station's first record.
    PlaceDiffers(usize),
    /// The first record whose station, time and parameter are those of an earlier one.
    SameSample(usize),
    /// There is no record behind the header.
    NoRecords,
    /// There are that many parameters, and more than `PARAMETER_LIMIT`.
    TooManyParameters(usize),
    /// The stations have that many samples together, times by parameters, and more than `SAMPLES_LIMIT`.
    TooManySamples(u64),
}

/// Why the feed of a table wasn't written.
#[derive(Clone, Copy, Debug, PartialEq, Eq)]
pub enum ImportFault {
    /// The table makes none: the first refusal that applies.
    Refused(TableRefusal),
    /// The sink failed, and counted it.
    WriteFault,
    /// Memory was wanting.
    OutOfMemory,
}

impl From<TableFault> for ImportFault {
    ghost from_gives = { λ table fault. fault ≡ of_table table };

    fn from(table: TableFault) -> ImportFault {
        match table {
            TableFault::NotHeader => ImportFault::Refused(TableRefusal::NotHeader),
            TableFault::BadRecord(number) => {
                ImportFault::Refused(TableRefusal::BadRecord(number))
            }
            TableFault::BadField(number, column) => {
                ImportFault::Refused(TableRefusal::BadField(number, column))
            }
            TableFault::PlaceDiffers(number) => {
                ImportFault::Refused(TableRefusal::PlaceDiffers(number))
            }
            TableFault::SameSample(number) => {
                ImportFault::Refused(TableRefusal::SameSample(number))
            }
            TableFault::NoRecords => ImportFault::Refused(TableRefusal::NoRecords),
            TableFault::OutOfMemory => ImportFault::OutOfMemory,
        }
    }
}

impl From<SendFault> for ImportFault {
    ghost from_gives = { λ sending fault. fault ≡ of_sending sending };

    fn from(sending: SendFault) -> ImportFault {
        match sending {
            SendFault::WriteFault => ImportFault::WriteFault,
            SendFault::OutOfMemory => ImportFault::OutOfMemory,
        }
    }
}

impl From<OutOfMemory> for ImportFault {
    ghost use Rattle.edr_import.specs.declared.refusals.ImportFault.TheVariants.{OutOfMemory as WantsMemory};

    ghost from_gives = { λ _ fault. fault ≡ WantsMemory };

    fn from(_: OutOfMemory) -> ImportFault {
        ImportFault::OutOfMemory
    }
}
