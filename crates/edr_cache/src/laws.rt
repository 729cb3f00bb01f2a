//! Laws of stores.
ghost use denote.Param.Send.{IsSend};
ghost use Rattle.edr_cache.specs.Pairs.{AreByUse};
ghost use Rattle.edr_cache.specs.contracts.kept.Kept as kept;

use crate::kept::Kept;

/// Pairs are told by their targets: a use of one changes their order alone, and each target has the body that was put for it;
/// where one is put for a target that has none and the store is full, the least recently used falls out, and else none does.
#[tactic(auto, using(crate::proofs::UseLemmas::by_use))]
pub fn pairs_go_by_use()
    ensures { AreByUse }
{}

// Its type can be sent to other threads.
fn crosses_threads<T: Send>()
    ensures { IsSend T.row }
{}

/// A store can be sent to another thread.
pub fn stores_cross_threads()
    ensures { IsSend kept.the_row }
{
    crosses_threads::<Kept>();
}
