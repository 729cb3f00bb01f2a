//! Laws of what is nearest, and of cells.
ghost use denote.Param.Send.{IsSend, IsSync};
ghost use Rattle.edr_near.specs.contracts.collections.Cells as cells;
ghost use Rattle.edr_near.specs.Near.{IsOneNearest};

use crate::collections::Cells;
use crate::placed::Placed;
use edr_ids::Identified;

/// Of items in ascending order of their ids at most one is nearest to a place.
pub fn nearest_is_one<T: Identified + Placed>()
    ensures { IsOneNearest T.id_of T.spot_of }
{}

// Its type can be sent to other threads, and shared by them.
fn crosses_threads<T: Send + Sync + Drop>()
    ensures sent { IsSend T.row }
    ensures shared { IsSync T.row }
{}

/// Cells can be sent to other threads, and shared by them, where what stands in them can.
pub fn cells_cross_threads<T: Placed + Send + Sync + Drop>()
    ensures sent { IsSend (cells.the_row T.row T.Placed) }
    ensures shared { IsSync (cells.the_row T.row T.Placed) }
{
    crosses_threads::<Cells<T>>();
}
