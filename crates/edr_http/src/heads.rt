//! Heads of requests.
ghost use Rattle.std.specs.Prelude.{◌≡◌};
ghost use Rattle.edr_http.specs.declared.heads.HeadFault.TheVariants.{ReadFault, OutOfMemory as HeadWantsMemory};

use edr_base::{Failed, Items, OutOfMemory, Refusal, Text};
use std::alloc::AllocError;

/// What the head of a request says (RFC 9112, sections 2 to 5).
#[derive(Debug, Drop)]
pub struct Head {
    /// The method, such as `GET`.
    pub method: Text,
    /// The target, as it was sent.
    pub target: Text,
    /// 1 of `HTTP/1.1`, 0 of `HTTP/1.0`.
    pub minor: u8,
    /// The name and the value of each field, the value without spaces and tabs at its ends.
    pub fields: Items<(Text, Text)>,
}

/// What stands at the front of the bytes of a connection.
#[derive(Debug, Drop)]
pub enum HeadOutcome {
    /// A head of at most 64 fields and 16,384 bytes.
    Got(Head),
    /// Nothing: the bytes are at their end.
    EndOfInput,
    /// Some bytes that begin with no such head: `BadHead`.
    Refused(Refusal),
}

/// Why it isn't known what stands there.
#[derive(Clone, Copy, Debug, PartialEq, Eq)]
pub enum HeadFault {
    /// The source failed, and counted it.
    ReadFault,
    /// Memory was wanting.
    OutOfMemory,
}

impl From<Failed> for HeadFault {
    ghost from_gives = { λ _ fault. fault ≡ ReadFault };

    fn from(_: Failed) -> HeadFault {
        HeadFault::ReadFault
    }
}

impl From<OutOfMemory> for HeadFault {
    ghost from_gives = { λ _ fault. fault ≡ HeadWantsMemory };

    fn from(_: OutOfMemory) -> HeadFault {
        HeadFault::OutOfMemory
    }
}

impl From<AllocError> for HeadFault {
    ghost from_gives = { λ _ fault. fault ≡ HeadWantsMemory };

    fn from(_: AllocError) -> HeadFault {
        HeadFault::OutOfMemory
    }
}
