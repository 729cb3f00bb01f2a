//! What is reported of requests that were served.
ghost use Rattle.std.specs.Prelude.{◌≡◌};
ghost use Rattle.edr_serve.specs.declared.reports.SessionFault.TheVariants.{OutOfMemory as SessionWantsMemory};
ghost use Rattle.edr_serve.specs.Faults.{of_head, of_reply};

use crate::ends::End;
use edr_base::{Items, OutOfMemory, SendFault};
use edr_chunk::Reads;
use edr_http::HeadFault;

/// What serving one request did.
#[derive(Drop)]
pub struct OneReport {
    /// The number of the edition that it was answered from; None where it was answered from none.
    pub edition: Option<u64>,
    /// The numbers of the chunks that were opened for the reply.
    pub reads: Reads,
    /// How the session ends with it; None where it goes on.
    pub end: Option<End>,
}

/// What a session did.
#[derive(Drop)]
pub struct SessionReport {
    /// How many replies were written.
    pub requests: u32,
    /// For each request that was answered from an edition, in their order, the number of that edition.
    pub editions: Items<u64>,
    /// For each of them the numbers of the chunks that were opened for its reply.
    pub reads: Items<Reads>,
    /// How the session ended.
    pub end: End,
}

/// Why a session broke off.
#[derive(Clone, Copy, Debug, PartialEq, Eq)]
pub enum SessionFault {
    /// The source failed, and counted it.
    ReadFault,
    /// The sink failed, and counted it.
    WriteFault,
    /// Memory was wanting.
    OutOfMemory,
}

impl From<HeadFault> for SessionFault {
    ghost from_gives = { λ head fault. fault ≡ of_head head };

    fn from(head: HeadFault) -> SessionFault {
        match head {
            HeadFault::ReadFault => SessionFault::ReadFault,
            HeadFault::OutOfMemory => SessionFault::OutOfMemory,
        }
    }
}

impl From<SendFault> for SessionFault {
    ghost from_gives = { λ sending fault. fault ≡ of_reply sending };

    fn from(sending: SendFault) -> SessionFault {
        match sending {
            SendFault::WriteFault => SessionFault::WriteFault,
            SendFault::OutOfMemory => SessionFault::OutOfMemory,
        }
    }
}

impl From<OutOfMemory> for SessionFault {
    ghost from_gives = { λ _ fault. fault ≡ SessionWantsMemory };

    fn from(_: OutOfMemory) -> SessionFault {
        SessionFault::OutOfMemory
    }
}
