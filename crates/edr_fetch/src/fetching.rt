//! A request exchanged for a reply.
ghost use Rattle.std.specs.Prelude.{◌≡◌, IfOk, IsErrOf, OnErr, IsUtf8};
ghost use Rattle.edr_base.specs.Outside.{Rose};
ghost use Rattle.edr_base.specs.Calls.{Writes, IsFlushed, SinkLent};
ghost use Rattle.covjson_value.specs.Coverages.{IsValidDocument};
ghost use Rattle.edr_fetch.specs.Requests.{request_text};
ghost use Rattle.edr_fetch.specs.Exchanges.{Exchanged, Heard, AsksOnce, LinkKept};
ghost use Rattle.edr_fetch.specs.declared.fetching.FetchFault.TheVariants.{OutOfMemory as FetchWantsMemory};
ghost use Rattle.edr_fetch.specs.Outcomes.{fault_of, fault_of_connecting, fault_of_sending};

use crate::requests::{Request, text_of};
use covjson_checks::CovFault;
use edr_base::{Link, OutOfMemory, SendFault, Sink, Stop, Text, send, settle};
use edr_client::{Reply, ReplyFault, read_reply};
use std::alloc::Global;

/// Why a request isn't exchanged for a reply of data.
#[derive(Debug, Drop)]
pub enum FetchFault {
    /// The link couldn't be connected, and counted it.
    ConnectFault,
    /// The link failed before the whole request was written and flushed, and counted it.
    WriteFault,
    /// The link failed after that, and counted it.
    ReadFault,
    /// What the peer gave begins with no reply: at this place, from 0, the first part of one isn't there whole.
    BadReply(u64),
    /// The status of the reply isn't 200: the status, and the code that the body gives, which is empty where it gives none.
    NotData(u16, Text),
    /// The body of the reply stands for no document: the first check that it fails.
    Cov(CovFault),
    /// Memory was wanting.
    OutOfMemory,
}

impl From<OutOfMemory> for FetchFault {
    ghost from_gives = { λ _ fault. fault ≡ FetchWantsMemory };

    fn from(_: OutOfMemory) -> FetchFault {
        FetchFault::OutOfMemory
    }
}

impl From<Stop> for FetchFault {
    ghost from_gives = { λ given fault. fault ≡ fault_of_connecting given };

    fn from(given: Stop) -> FetchFault {
        match given {
            Stop::Failed => FetchFault::ConnectFault,
            Stop::OutOfMemory => FetchFault::OutOfMemory,
        }
    }
}

impl From<SendFault> for FetchFault {
    ghost from_gives = { λ given fault. fault ≡ fault_of_sending given };

    fn from(given: SendFault) -> FetchFault {
        match given {
            SendFault::WriteFault => FetchFault::WriteFault,
            SendFault::OutOfMemory => FetchFault::OutOfMemory,
        }
    }
}

impl From<ReplyFault> for FetchFault {
    ghost from_gives = { λ given fault. fault ≡ fault_of given };

    fn from(given: ReplyFault) -> FetchFault {
        match given {
            ReplyFault::ReadFault => FetchFault::ReadFault,
            ReplyFault::BadReply(place) => FetchFault::BadReply(place),
            ReplyFault::NotData(status, code) => FetchFault::NotData(status, code),
            ReplyFault::Cov(fault) => FetchFault::Cov(fault),
            ReplyFault::OutOfMemory => FetchFault::OutOfMemory,
        }
    }
}

// Writes a text whole, and flushes.
fn put<K: Sink>(sink: &mut K, text: &[u8]) -> Result<(), SendFault>
    ensures bytes { Writes result text.now (K.written sink.old) (K.written sink.new) }
    ensures flushed { IfOk result (λ _. IsFlushed (K.written sink.new) (K.flushed sink.new)) }
    ensures kept { OnErr result (K.flushed sink.new ≡ K.flushed sink.old) }
    ensures lent { SinkLent (K.beside sink.old) (K.beside sink.new) (K.faults sink.old) (K.faults sink.new) }
    ensures cause { IsErrOf result SendFault.WriteFault → Rose (K.faults sink.old) (K.faults sink.new) }
{
    send(sink, text)?;
    settle(sink)
}

/// Connects to the server that a request names, writes the request, flushes it, and only then reads the reply: one of data, that
/// is of status 200 with a body of CoverageJSON (OGC 21-069r2).
pub fn fetch<L: Link>(alloc: Global, request: &Request, link: &mut L) -> Result<Reply, FetchFault>
    requires { IsUtf8 request.now.host }
    ensures exchanged { Exchanged result (request_text request.now) (L.aside link.old).incoming
        (record { idle = (L.aside link.old).idle; left = L.left link.old; written = L.written link.old; flushed = L.flushed link.old; faults = L.faults link.old })
        (record { idle = (L.aside link.new).idle; left = L.left link.new; written = L.written link.new; flushed = L.flushed link.new; faults = L.faults link.new }) }
    ensures heard { Heard result (L.aside link.old).incoming (L.left link.new) }
    ensures valid { IfOk result (λ reply. IsValidDocument reply.document) }
    ensures asked { AsksOnce result (request.now.host, request.now.port) (L.aside link.old).asked (L.aside link.new).asked }
    ensures kept { LinkKept (L.aside link.old) (L.aside link.new) (L.faults link.old) (L.faults link.new) }
{
    let text = text_of(alloc, request)?;
    link.connect(request.host.bytes(), request.port)?;
    put(link, text.bytes())?;
    Ok(read_reply(alloc, link)?)
}
