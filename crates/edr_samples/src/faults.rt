//! Why a text isn't read.
ghost use Rattle.std.specs.Prelude.{◌≡◌};

use std::alloc::{AllocError, AllocFailed};

/// Why a text isn't read to a tree.
#[derive(Clone, Copy, Debug, PartialEq, Eq)]
pub enum JsonFault {
    /// The text isn't JSON (RFC 8259), or has more than 127 lists and objects in each other, or a number beyond those of 64 bits
    /// with a floating point.
    NotJson,
    /// Memory was wanting.
    OutOfMemory,
}

impl From<AllocError> for JsonFault {
    ghost use Rattle.edr_samples.specs.declared.faults.JsonFault.TheVariants.{OutOfMemory};

    ghost from_gives = { λ _ fault. fault ≡ OutOfMemory };

    fn from(_: AllocError) -> JsonFault {
        JsonFault::OutOfMemory
    }
}

impl<T: Drop> From<AllocFailed<T>> for JsonFault {
    ghost use Rattle.edr_samples.specs.declared.faults.JsonFault.TheVariants.{OutOfMemory};

    ghost from_gives = { λ _ fault. fault ≡ OutOfMemory };

    fn from(_failed: AllocFailed<T>) -> JsonFault {
        JsonFault::OutOfMemory
    }
}
