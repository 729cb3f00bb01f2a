//! Faults of lines and of feeds.
ghost use Rattle.std.specs.Prelude.{◌≡◌};
ghost use Rattle.edr_feed.specs.Faults.{of_cov, of_change, of_json, at_line};
ghost use Rattle.edr_feed.specs.declared.faults.LineFault.TheVariants.{OutOfMemory as LineWantsMemory};
ghost use Rattle.edr_feed.specs.declared.faults.FeedFault.TheVariants.{OutOfMemory as FeedWantsMemory, ReadFault as SourceFailed};

use covjson_checks::CovFault;
use edr_base::{Failed, OutOfMemory};
use edr_draft::ChangeFault;
use edr_json::JsonFault;
use std::alloc::{AllocError, AllocFailed};

/// Why a line isn't done.
#[derive(Debug, Drop)]
pub enum LineFault {
    /// It has more than `edr_base::LINE_LIMIT` bytes.
    LineTooLong,
    /// It isn't JSON.
    NotJson,
    /// It has none of the forms of a line.
    NotFeedLine,
    /// Its coverage isn't one of CoverageJSON: the first check that fails.
    Cov(CovFault),
    /// Its change can't be made: the first fault that applies.
    Change(ChangeFault),
    /// Memory was wanting.
    OutOfMemory,
}

impl LineFault {
    /// The same, of a line of that number.
    pub fn at(self, line: usize) -> FeedFault
        ensures { result ≡ at_line line self }
    {
        match self {
            LineFault::LineTooLong => FeedFault::LineTooLong(line),
            LineFault::NotJson => FeedFault::NotJson(line),
            LineFault::NotFeedLine => FeedFault::NotFeedLine(line),
            LineFault::Cov(fault) => FeedFault::Cov(line, fault),
            LineFault::Change(fault) => FeedFault::Change(line, fault),
            LineFault::OutOfMemory => FeedFault::OutOfMemory,
        }
    }
}

impl From<JsonFault> for LineFault {
    ghost from_gives = { λ fault line. line ≡ of_json fault };

    fn from(fault: JsonFault) -> LineFault {
        match fault {
            JsonFault::NotJson => LineFault::NotJson,
            JsonFault::OutOfMemory => LineFault::OutOfMemory,
        }
    }
}

impl From<CovFault> for LineFault {
    ghost from_gives = { λ fault line. line ≡ of_cov fault };

    fn from(fault: CovFault) -> LineFault {
        match fault {
            CovFault::OutOfMemory => LineFault::OutOfMemory,
            fault => LineFault::Cov(fault),
        }
    }
}

impl From<ChangeFault> for LineFault {
    ghost from_gives = { λ fault line. line ≡ of_change fault };

    fn from(fault: ChangeFault) -> LineFault {
        match fault {
            ChangeFault::OutOfMemory => LineFault::OutOfMemory,
            fault => LineFault::Change(fault),
        }
    }
}

impl From<OutOfMemory> for LineFault {
    ghost from_gives = { λ _ fault. fault ≡ LineWantsMemory };

    fn from(_: OutOfMemory) -> LineFault {
        LineFault::OutOfMemory
    }
}

impl<T: Drop> From<AllocFailed<T>> for LineFault {
    ghost from_gives = { λ _ fault. fault ≡ LineWantsMemory };

    fn from(_: AllocFailed<T>) -> LineFault {
        LineFault::OutOfMemory
    }
}

/// Why a feed isn't read. Lines count from 1, and the first one at fault is named.
#[derive(Debug, Drop)]
pub enum FeedFault {
    /// The source failed, and counted it.
    ReadFault,
    /// The feed has more than `edr_base::FEED_LIMIT` bytes, and no line that ends within them, with its line feed, is at fault:
    /// what goes on beyond them isn't looked at, also where it is longer than a line may be. It comes as soon as one byte more
    /// was read; a feed of exactly so many bytes is none.
    TooLong,
    /// The line has more than `edr_base::LINE_LIMIT` bytes.
    LineTooLong(usize),
    /// The line isn't JSON.
    NotJson(usize),
    /// The line has none of the forms of a line.
    NotFeedLine(usize),
    /// The line's coverage isn't one of CoverageJSON: the first check that fails.
    Cov(usize, CovFault),
    /// The line's change can't be made: the first fault that applies.
    Change(usize, ChangeFault),
    /// No line publishes.
    NothingPublished,
    /// Memory was wanting.
    OutOfMemory,
}

impl From<Failed> for FeedFault {
    ghost from_gives = { λ _ fault. fault ≡ SourceFailed };

    fn from(_: Failed) -> FeedFault {
        FeedFault::ReadFault
    }
}

impl From<AllocError> for FeedFault {
    ghost from_gives = { λ _ fault. fault ≡ FeedWantsMemory };

    fn from(_: AllocError) -> FeedFault {
        FeedFault::OutOfMemory
    }
}
