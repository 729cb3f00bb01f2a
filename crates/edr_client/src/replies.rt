//! Replies, and why there is none.
ghost use Rattle.std.specs.Prelude.{◌≡◌};
ghost use Rattle.edr_client.specs.Answering.{TellsCov, fault_of};

use covjson_checks::CovFault;
use covjson_value::Document;
use edr_base::{OutOfMemory, Text};
use edr_reply::MessageFault;

/// A reply of data.
#[derive(Drop)]
pub struct Reply {
    /// The number of the edition that it is from, where its field `X-Edr-Edition` gives one.
    pub edition: Option<u64>,
    /// The document that its body stands for.
    pub document: Document,
}

/// Why a source gives no reply of data.
#[derive(Debug, Drop)]
pub enum ReplyFault {
    /// The source failed, and counted it.
    ReadFault,
    /// Its bytes begin with no reply: at this place, from 0, the first part of one isn't there, or isn't there whole.
    BadReply(u64),
    /// Its bytes begin with a reply whose status isn't 200: the status, and the code that the body gives, which is empty
    /// where it gives none.
    NotData(u16, Text),
    /// Its bytes begin with a reply whose body stands for no document: the first check that it fails.
    Cov(CovFault),
    /// Memory was wanting.
    OutOfMemory,
}

impl From<OutOfMemory> for ReplyFault {
    ghost use Rattle.edr_client.specs.declared.replies.ReplyFault.TheVariants as variants;

    ghost from_gives = { λ _ fault. fault ≡ variants.OutOfMemory };

    fn from(_: OutOfMemory) -> ReplyFault {
        ReplyFault::OutOfMemory
    }
}

impl From<MessageFault> for ReplyFault {
    ghost from_gives = { λ given fault. fault ≡ fault_of given };

    fn from(given: MessageFault) -> ReplyFault {
        match given {
            MessageFault::ReadFault => ReplyFault::ReadFault,
            MessageFault::Broken(place) => ReplyFault::BadReply(place),
            MessageFault::OutOfMemory => ReplyFault::OutOfMemory,
        }
    }
}

impl From<CovFault> for ReplyFault {
    ghost from_gives = { λ given fault. TellsCov given fault };

    fn from(given: CovFault) -> ReplyFault {
        match given {
            CovFault::OutOfMemory => ReplyFault::OutOfMemory,
            other => ReplyFault::Cov(other),
        }
    }
}
