//! All that a source gives.
ghost use Rattle.std.specs.Prelude.{◌≡◌, ◌<◌, ◌+◌, ◌^◌, IfOk, IsErrOf};
ghost use Rattle.edr_base.specs.declared.reading.ReadStop.TheVariants.{ReadFault, OutOfMemory};
ghost use Rattle.edr_base.specs.Outside.{Rose};
ghost use Rattle.edr_base.specs.Calls.{SourceLent, ReadsAll, ReadsMore, ReadsAtMost, buffer_size};

use crate::limits::BUFFER_SIZE;
use crate::outside::{Failed, Source};
use std::alloc::{AllocError, Global};

/// Why a source wasn't read whole.
#[derive(Clone, Copy)]
pub enum ReadStop {
    /// The source failed, and counted it.
    ReadFault,
    /// More than the limit came.
    TooLong,
    /// Memory was wanting.
    OutOfMemory,
}

impl From<Failed> for ReadStop {
    ghost from_gives = { λ _ stop. stop ≡ ReadFault };

    fn from(_: Failed) -> ReadStop {
        ReadStop::ReadFault
    }
}

impl From<AllocError> for ReadStop {
    ghost from_gives = { λ _ stop. stop ≡ OutOfMemory };

    fn from(_: AllocError) -> ReadStop {
        ReadStop::OutOfMemory
    }
}

/// All that is left of a source, where that is at most `limit` bytes. Reading stops as soon as more has come.
///
/// Whatever is answered, at most `limit` and 16,384 bytes were taken from the source, and the others are left.
#[tactic(auto, using(crate::specs::KnownBytes::took_on, crate::specs::KnownBytes::prepend_nothing))]
pub fn read_all<S: Source>(alloc: Global, source: &mut S, limit: usize) -> Result<Vec<u8>, ReadStop>
    requires { limit < 2 ^ 63 }
    ensures all { IfOk result (λ bytes. ReadsAll bytes.items limit (S.left source.old) (S.left source.new)) }
    ensures too_long { IsErrOf result ReadStop.TooLong → ReadsMore limit (S.left source.old) (S.left source.new) }
    ensures bounded { ReadsAtMost (limit + buffer_size) (S.left source.old) (S.left source.new) }
    ensures lent { SourceLent (S.aside source.old) (S.aside source.new) (S.faults source.old) (S.faults source.new) }
    ensures cause { IsErrOf result ReadStop.ReadFault → Rose (S.faults source.old) (S.faults source.new) }
{
    let mut bytes = Vec::new(alloc);
    let mut buffer = [0u8; BUFFER_SIZE];
    while bytes.len() <= limit {
        let count = source.read(&mut buffer)?;
        if count == 0 {
            return Ok(bytes);
        }
        bytes.extend_from_slice(&buffer[..count])?;
    }
    Err(ReadStop::TooLong)
}
