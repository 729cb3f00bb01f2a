//! Why a text or a tree stands for no coverage.
ghost use Rattle.std.specs.Prelude.{◌≡◌};
ghost use Rattle.covjson_checks.specs.declared.faults.CovFault.TheVariants.{OutOfMemory as WantsMemory};
ghost use Rattle.covjson_checks.specs.TextFaults.{fault_of_text};

use edr_base::{OutOfMemory, Text};
use edr_json::JsonFault;
use std::alloc::{AllocError, AllocFailed};

/// A member of a document, by which a fault says where it is (OGC 21-069r2, CoverageJSON objects).
#[derive(Clone, Copy, Debug)]
pub enum Member {
    /// The whole document.
    Document,
    /// `type`.
    Kind,
    /// `coverages` of a coverage collection.
    Coverages,
    /// `domain`.
    Domain,
    /// `domainType`.
    DomainType,
    /// `axes`.
    Axes,
    /// The axis of times.
    T,
    /// The axis of levels.
    Z,
    /// The axis of second coordinates.
    Y,
    /// The axis of first coordinates.
    X,
    /// The axis of tuples.
    Composite,
    /// `referencing`.
    Referencing,
    /// `parameters`.
    Parameters,
    /// `observedProperty` of a parameter.
    ObservedProperty,
    /// `unit` of a parameter.
    Unit,
    /// `ranges`.
    Ranges,
    /// `dataType` of a range.
    DataType,
    /// `axisNames` of a range.
    AxisNames,
    /// `shape` of a range.
    Shape,
    /// `values` of a range.
    Values,
}

/// Why a text or a tree stands for no coverage: the first check that fails.
#[derive(Debug, Drop)]
pub enum CovFault {
    /// The text isn't JSON.
    NotJson,
    /// The member isn't there.
    Missing(Member),
    /// The member is of another type or form.
    WrongType(Member),
    /// A domain type that isn't read.
    UnsupportedDomain(Text),
    /// A type of a reference system, or a calendar, that isn't read.
    UnsupportedSystem(Text),
    /// A type of a range, or of its values, that isn't read.
    UnsupportedRange(Text),
    /// A number that isn't held as a whole number.
    NotWhole(Member),
    /// A whole number of a spanned axis beyond its limit.
    OutOfRange(Member),
    /// The place, from 0, of the first item of a list that has a whole number beyond its limit: of a sample, of a coordinate, or of
    /// a tuple.
    OutOfRangeAt(Member, usize),
    /// The place, from 0, of a text that is no time.
    BadTime(usize),
    /// An axis whose values neither ascend nor descend.
    NotMonotonic(Member),
    /// The wanted count and the count that was found.
    WrongCount(Member, u128, u128),
    /// Memory was wanting.
    OutOfMemory,
}

impl From<OutOfMemory> for CovFault {
    ghost from_gives = { λ _ fault. fault ≡ WantsMemory };

    fn from(_: OutOfMemory) -> CovFault {
        CovFault::OutOfMemory
    }
}

impl From<AllocError> for CovFault {
    ghost from_gives = { λ _ fault. fault ≡ WantsMemory };

    fn from(_: AllocError) -> CovFault {
        CovFault::OutOfMemory
    }
}

impl<T: Drop> From<AllocFailed<T>> for CovFault {
    ghost from_gives = { λ _ fault. fault ≡ WantsMemory };

    fn from(_failed: AllocFailed<T>) -> CovFault {
        CovFault::OutOfMemory
    }
}

impl From<JsonFault> for CovFault {
    ghost from_gives = { λ json fault. fault ≡ fault_of_text json };

    fn from(json: JsonFault) -> CovFault {
        match json {
            JsonFault::NotJson => CovFault::NotJson,
            JsonFault::OutOfMemory => CovFault::OutOfMemory,
        }
    }
}
