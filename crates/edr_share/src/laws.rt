//! Shelves and threads.
ghost use denote.Param.Send.{IsSend, IsSync};
ghost use Rattle.edr_share.specs.contracts.publishers.Publisher as publisher;
ghost use Rattle.edr_share.specs.contracts.publishers.Told as told;
ghost use Rattle.edr_share.specs.contracts.shelves.SharedShelf as shelf;

use crate::publishers::{Publisher, Told};
use crate::rule::{LogFactory, LogReader, LogWriter};
use crate::shelves::SharedShelf;
use crate::shown::Shown;
use edr_edition::editions_cross_threads;

// Its type can be sent to other threads, and shared by them.
fn is_shared<T: Send + Sync>()
    ensures sent { IsSend T.row }
    ensures shared { IsSync T.row }
{}

// Its type can be sent to other threads.
fn crosses_threads<T: Send>()
    ensures { IsSend T.row }
{}

/// A publisher, what it tells, and its readers' handles can each be sent to another thread.
pub fn shelves_cross_threads()
    ensures publisher { IsSend publisher.the_row }
    ensures told { IsSend told.the_row }
    ensures shelf { IsSend shelf.the_row }
{
    editions_cross_threads();
    is_shared::<Shown>();
    is_shared::<LogFactory>();
    crosses_threads::<LogReader>();
    crosses_threads::<LogWriter>();
    crosses_threads::<Publisher>();
    crosses_threads::<Told>();
    crosses_threads::<SharedShelf>();
}
