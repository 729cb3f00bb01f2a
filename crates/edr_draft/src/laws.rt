//! Laws of changes and of drafts.
ghost use denote.Param.Send.{IsSend, IsSync};
ghost use Rattle.edr_draft.specs.contracts.drafts.Draft as draft;
ghost use Rattle.edr_draft.specs.Outcomes.{ChangesHaveOneOutcome, ChangesKeepOthers};

use crate::drafts::Draft;
use edr_edition::{CollectionData, editions_cross_threads};
use edr_ids::items_are_by_id;

/// Each change either gives some collections or is refused by a fault, and by no second one; want of memory refuses none.
pub fn changes_have_one_outcome()
    ensures { ChangesHaveOneOutcome }
{}

/// A change leaves all collections but its own as they were, and those that it gives are in the order of their ids.
pub fn changes_keep_others()
    ensures { ChangesKeepOthers }
{
    items_are_by_id::<CollectionData>();
}

// Its type can be sent to other threads, and shared by them.
fn crosses_threads<T: Send + Sync + Drop>()
    ensures sent { IsSend T.row }
    ensures shared { IsSync T.row }
{}

/// Drafts can be sent to other threads, and shared by them.
pub fn drafts_cross_threads()
    ensures sent { IsSend draft.the_row }
    ensures shared { IsSync draft.the_row }
{
    editions_cross_threads();
    crosses_threads::<Draft>();
}
