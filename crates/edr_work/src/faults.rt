//! Why a run has no text.
ghost use Rattle.std.specs.Prelude.{◌≡◌};
ghost use Rattle.edr_work.specs.Faults.{of_feed, of_target, of_plan};

use edr_base::{OutOfMemory, Refusal};
use edr_feed::{FeedFault, FeedRefusal};
use edr_query::TargetFault;
use edr_select::PlanFault;
use std::alloc::AllocError;

/// Why a run has no text.
#[derive(Clone, Copy, Debug, PartialEq, Eq)]
pub enum WorkFault {
    /// The feed that was made is none.
    NotFeed(FeedRefusal),
    /// A target was refused: the first refusal that applies.
    Refused(Refusal),
    /// Memory was wanting.
    OutOfMemory,
}

impl From<FeedFault> for WorkFault {
    ghost from_gives = { λ feed fault. fault ≡ of_feed feed };

    fn from(feed: FeedFault) -> WorkFault {
        match feed.refusal() {
            Some(refusal) => WorkFault::NotFeed(refusal),
            None => WorkFault::OutOfMemory,
        }
    }
}

impl From<TargetFault> for WorkFault {
    ghost from_gives = { λ target fault. fault ≡ of_target target };

    fn from(target: TargetFault) -> WorkFault {
        match target {
            TargetFault::Refused(refusal) => WorkFault::Refused(refusal),
            TargetFault::OutOfMemory => WorkFault::OutOfMemory,
        }
    }
}

impl From<PlanFault> for WorkFault {
    ghost from_gives = { λ plan fault. fault ≡ of_plan plan };

    fn from(plan: PlanFault) -> WorkFault {
        match plan {
            PlanFault::Refused(refusal) => WorkFault::Refused(refusal),
            PlanFault::OutOfMemory => WorkFault::OutOfMemory,
        }
    }
}

impl From<OutOfMemory> for WorkFault {
    ghost use Rattle.edr_work.specs.declared.faults.WorkFault.TheVariants as variants;

    ghost from_gives = { λ _ fault. fault ≡ variants.OutOfMemory };

    fn from(_: OutOfMemory) -> WorkFault {
        WorkFault::OutOfMemory
    }
}

impl From<AllocError> for WorkFault {
    ghost use Rattle.edr_work.specs.declared.faults.WorkFault.TheVariants as variants;

    ghost from_gives = { λ _ fault. fault ≡ variants.OutOfMemory };

    fn from(_: AllocError) -> WorkFault {
        WorkFault::OutOfMemory
    }
}
