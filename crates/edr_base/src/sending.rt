//! Whole pieces to a sink.
ghost use Rattle.std.specs.Prelude.{◌≡◌, OnOk, OnErr, IsErrOf};
ghost use Rattle.edr_base.specs.declared.sending.SendFault.TheVariants.{OutOfMemory as SendWantsMemory};
ghost use Rattle.edr_base.specs.Sending.{fault_of};
ghost use Rattle.edr_base.specs.Outside.{Rose};
ghost use Rattle.edr_base.specs.Calls.{SinkLent, Writes, IsFlushed};

use crate::outside::{Sink, Stop};
use crate::texts::OutOfMemory;
use std::alloc::{AllocError, AllocFailed};

/// Why a piece wasn't written whole.
#[derive(Clone, Copy, Debug, PartialEq, Eq)]
pub enum SendFault {
    /// The sink failed, and counted it.
    WriteFault,
    /// Memory was wanting.
    OutOfMemory,
}

impl From<Stop> for SendFault {
    ghost from_gives = { λ stop fault. fault ≡ fault_of stop };

    fn from(stop: Stop) -> SendFault {
        match stop {
            Stop::Failed => SendFault::WriteFault,
            Stop::OutOfMemory => SendFault::OutOfMemory,
        }
    }
}

impl From<OutOfMemory> for SendFault {
    ghost from_gives = { λ _ fault. fault ≡ SendWantsMemory };

    fn from(_: OutOfMemory) -> SendFault {
        SendFault::OutOfMemory
    }
}

impl From<AllocError> for SendFault {
    ghost from_gives = { λ _ fault. fault ≡ SendWantsMemory };

    fn from(_: AllocError) -> SendFault {
        SendFault::OutOfMemory
    }
}

impl<T: Drop> From<AllocFailed<T>> for SendFault {
    ghost from_gives = { λ _ fault. fault ≡ SendWantsMemory };

    fn from(_: AllocFailed<T>) -> SendFault {
        SendFault::OutOfMemory
    }
}

/// Writes a whole piece, by as many writes as the sink wants. After a fault a beginning of it was written.
#[tactic(auto, using(crate::proofs::KnownBytes::sent_on, crate::proofs::KnownBytes::front_of, crate::specs::KnownBytes::append_nothing))]
pub fn send<K: Sink>(sink: &mut K, piece: &[u8]) -> Result<(), SendFault>
    ensures bytes { Writes result piece.now (K.written sink.old) (K.written sink.new) }
    ensures flushed { K.flushed sink.new ≡ K.flushed sink.old }
    ensures lent { SinkLent (K.beside sink.old) (K.beside sink.new) (K.faults sink.old) (K.faults sink.new) }
    ensures cause { IsErrOf result SendFault.WriteFault → Rose (K.faults sink.old) (K.faults sink.new) }
{
    let mut sent = 0;
    while sent < piece.len() {
        sent += sink.write(&piece[sent..])?;
    }
    Ok(())
}

/// Flushes a sink: after `Ok` all that was written is flushed, and after a fault no more than before.
pub fn settle<K: Sink>(sink: &mut K) -> Result<(), SendFault>
    ensures bytes { K.written sink.new ≡ K.written sink.old }
    ensures flushed { OnOk result (IsFlushed (K.written sink.new) (K.flushed sink.new)) }
    ensures kept { OnErr result (K.flushed sink.new ≡ K.flushed sink.old) }
    ensures lent { SinkLent (K.beside sink.old) (K.beside sink.new) (K.faults sink.old) (K.faults sink.new) }
    ensures cause { IsErrOf result SendFault.WriteFault → Rose (K.faults sink.old) (K.faults sink.new) }
{
    Ok(sink.flush()?)
}
