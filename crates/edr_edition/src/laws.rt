//! Laws of instances and of editions.
ghost use denote.Param.Send.{IsSend, IsSync};
ghost use Rattle.edr_ids.specs.contracts.by_id.ById as by_id;
ghost use Rattle.edr_edition.specs.contracts.collections.CollectionData as collection;
ghost use Rattle.edr_edition.specs.contracts.editions.Edition as edition;
ghost use Rattle.edr_edition.specs.Instances.{InstancesHaveGrids};
ghost use Rattle.edr_edition.specs.Editions.{NewestIsOne};
ghost use Rattle.edr_edition.specs.Stores.{NewestIsNewest};

use crate::collections::{CollectionData, Head};
use crate::editions::Edition;
use crate::instances::GridInstance;
use covjson_value::Parameter;
use edr_base::Items;
use edr_ids::{ById, Identified};
use edr_station::stations_cross_threads;
use std::sync::Arc;

/// An instance has axes within the limits, parameters in the order of their ids, and for each of them a sample, or none, at
/// each node of a grid whose sides are the axes' lengths.
pub fn instances_have_grids()
    ensures { InstancesHaveGrids }
{}

/// No second instance is the newest.
pub fn newest_is_one()
    ensures { NewestIsOne }
{}

/// The newest of instances in the order of their ids is the one whose id no other one's is above; there is none only where
/// there is no instance.
pub fn newest_is_newest()
    ensures { NewestIsNewest }
{}

// Its type can be sent to other threads, and shared by them.
fn crosses_threads<T: Send + Sync + Drop>()
    ensures sent { IsSend T.row }
    ensures shared { IsSync T.row }
{}

/// Editions, their collections and lists of these can be sent to other threads, and shared by them.
pub fn editions_cross_threads()
    ensures sent { IsSend edition.the_row }
    ensures shared { IsSync edition.the_row }
    ensures collection_sent { IsSend collection.the_row }
    ensures collection_shared { IsSync collection.the_row }
    ensures collections_sent { IsSend (by_id.the_row collection.the_row ⟦<CollectionData as Identified>⟧) }
    ensures collections_shared { IsSync (by_id.the_row collection.the_row ⟦<CollectionData as Identified>⟧) }
{
    stations_cross_threads();
    crosses_threads::<GridInstance>();
    crosses_threads::<Arc<Head>>();
    crosses_threads::<Arc<Items<Parameter>>>();
    crosses_threads::<ById<GridInstance>>();
    crosses_threads::<CollectionData>();
    crosses_threads::<ById<CollectionData>>();
    crosses_threads::<Edition>();
}
