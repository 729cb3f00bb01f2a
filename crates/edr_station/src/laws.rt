//! Laws of stations.
ghost use denote.Param.Send.{IsSend, IsSync};
ghost use Rattle.edr_station.specs.contracts.stations.Stations as stations;

use crate::station::Station;
use crate::stations::Stations;
use edr_near::cells_cross_threads;

// Its type can be sent to other threads, and shared by them.
fn crosses_threads<T: Send + Sync + Drop>()
    ensures sent { IsSend T.row }
    ensures shared { IsSync T.row }
{}

/// Stations can be sent to other threads, and shared by them.
pub fn stations_cross_threads()
    ensures sent { IsSend stations.the_row }
    ensures shared { IsSync stations.the_row }
{
    crosses_threads::<Station>();
    cells_cross_threads::<Station>();
    crosses_threads::<Stations>();
}
