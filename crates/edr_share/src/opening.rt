//! How a shelf is opened.
ghost use Rattle.std.specs.Prelude.{◌≡◌, ◌<◌, ◌≤◌, ◌^◌, [], ◌∷◌, drop, vec_len, All, IfOk, IfErr, IsErrOf, true, false};
ghost use Rattle.std.specs.Arc.{arc_value};
ghost use Rattle.left_right.specs.Sides.{view};
ghost use Rattle.edr_base.specs.Adapters.{Counts};
ghost use Rattle.edr_share.specs.Values.{unread};

use crate::places::Places;
use crate::publishers::Publisher;
use crate::rule::{LogFactory, LogWriter, Open};
use crate::shelves::SharedShelf;
use crate::shown::Shown;
use edr_base::{Faults, Stop};
use edr_edition::Edition;
use left_right::writer::Writer;
use std::alloc::Global;
use std::sync::{Arc, Wait};

// A writer that may publish, with so many places for readers. Its log is the first edition alone.
fn open<R: Wait>(rt: &R, alloc: Global, first: Edition, readers: usize) -> Result<LogWriter, Stop>
    requires readers { (0 < readers) × (readers < 2 ^ 32) }
    ensures log { IfOk result (λ writer. (view writer.desk.place).seen ≡ first ∷ []) }
    ensures publishes { IfOk result (λ writer. (view writer.desk.place).publishes ≡ true) }
    ensures pending { IfOk result (λ writer. drop writer.behind writer.log.items ≡ []) }
    ensures memory { IfErr result (λ stop. stop ≡ Stop.OutOfMemory) }
{
    let first = Arc::new(alloc, first)?;
    let one = Shown {
        latest: Arc::try_clone(&first)?,
        begun: false,
    };
    let two = Shown {
        latest: Arc::try_clone(&first)?,
        begun: false,
    };
    let mut writer: LogWriter = Writer::new(alloc, one, two, readers)?;
    match writer.append(first) {
        Ok(()) => {}
        Err(_) => {
            let _shown = writer.take(rt);
            return Err(Stop::OutOfMemory);
        }
    }
    let (writer, done) = writer.publish_as::<Open, R>(rt);
    match done {
        Ok(()) => Ok(writer),
        Err(_) => {
            let _shown = writer.take(rt);
            Err(Stop::OutOfMemory)
        }
    }
}

// So many handles of readers.
fn shelves(
    alloc: Global,
    factory: &LogFactory,
    readers: usize,
    places: &mut Places,
) -> Result<Vec<SharedShelf>, Stop>
    ensures readers { IfOk result (λ shelves. vec_len shelves ≡ readers) }
    ensures shelves { IfOk result (λ shelves. All (λ shelf. shelf ≡ unread (arc_value factory.now.board).shared.table_id) shelves.items) }
    ensures counts { Counts (IsErrOf result Stop.Failed) (⟦<Places as Faults>⟧.faults places.old) (⟦<Places as Faults>⟧.faults places.new) }
{
    let mut shelves = Vec::new(alloc);
    for _ in 0..readers {
        let Ok(reader) = factory.reader() else {
            places.refused();
            return Err(Stop::Failed);
        };
        shelves.push(SharedShelf::over(reader, factory))?;
    }
    Ok(shelves)
}

/// Opens a shelf whose log is the first edition alone: its publisher, and a handle for each of so many readers, which
/// have seen nothing yet. It may wait as `publish` does.
///
/// `Failed` says that a reader was refused its place, which was counted. Where it answers an error it has ended the
/// publisher, if it had made one.
pub fn open_shelf<R: Wait>(
    rt: &R,
    alloc: Global,
    first: Edition,
    readers: usize,
    places: &mut Places,
) -> Result<(Publisher, Vec<SharedShelf>), Stop>
    requires readers { 1 ≤ readers }
    ensures publisher { IfOk result (λ opened. (opened.0.log ≡ first ∷ []) × (opened.0.closed ≡ false)) }
    ensures readers { IfOk result (λ opened. vec_len opened.1 ≡ readers) }
    ensures shelves { IfOk result (λ opened. All (λ shelf. shelf ≡ unread opened.0.origin) opened.1.items) }
    ensures counts { Counts (IsErrOf result Stop.Failed) (⟦<Places as Faults>⟧.faults places.old) (⟦<Places as Faults>⟧.faults places.new) }
{
    if readers >= 1 << 32 {
        return Err(Stop::OutOfMemory);
    }
    let number = first.number();
    let writer = open(rt, alloc, first, readers)?;
    match shelves(alloc, writer.factory(), readers, places) {
        Ok(shelves) => Ok((Publisher::over(writer, number), shelves)),
        Err(stop) => {
            let _shown = writer.take(rt);
            Err(stop)
        }
    }
}
