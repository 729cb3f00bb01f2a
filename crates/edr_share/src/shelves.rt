//! A reader's handle to a shelf that is shared.
ghost use Rattle.std.specs.Prelude.{◌≡◌, ◌≤◌, ◌⊎◌, max, [], ◌∷◌, IfOk, IfSome, OnErr, MatchResult, Some, None};
ghost use Rattle.std.specs.Arc.{arc_value};
ghost use Rattle.left_right.specs.Sides.{view};
ghost use Rattle.edr_edition.specs.Shelves.{IsShelfList, BeginsSeen, EndsWith, TakenGrew};
ghost use Rattle.edr_share.specs.Values.{IsShelfLog, unread};
ghost use Rattle.edr_share.specs.Rule.{newcomer};

use crate::publishers::Told;
use crate::rule::{LogFactory, LogReader, Look, Origin};
use edr_base::OutOfMemory;
use edr_edition::{Edition, Editions};
use std::marker::Model;
use std::snapshot::Snapshot;
use std::sync::Arc;

// One look at the newest edition. It is held for the copy of its handle alone.
fn look(reader: LogReader) -> (LogReader, Option<Arc<Edition>>)
    ensures grows { BeginsSeen (view reader.place).seen (view result.0.place).seen }
    ensures last { IfSome result.1 (λ edition. EndsWith (view result.0.place).seen (arc_value edition)) }
    ensures log { IfSome result.1 (λ _. IsShelfLog (view result.0.place).seen) }
    ensures none { ((view result.0.place).seen ≡ (view reader.place).seen) ⊎ IsShelfLog (view result.0.place).seen }
{
    match reader.enter_as::<Look>() {
        Ok(reading) => {
            let edition = Arc::try_clone(&reading.get().latest).ok();
            (reading.leave(), edition)
        }
        Err(reader) => (reader, None),
    }
}

/// A reader's handle to a shelf that is shared. It doesn't tell which editions were taken.
///
/// Contracts see what was seen through it, and its floor: the least number that a take answers.
#[derive(Drop)]
pub struct SharedShelf {
    reader: Option<LogReader>,
    floor: u64,
    origin: Origin,
}

impl Model for SharedShelf {
    ghost use Rattle.std.specs.Prelude.{[], IsSomeAnd};
    ghost use Rattle.std.specs.Option.{unwrap_or, option_map};
    ghost use Rattle.std.specs.Arc.{arc_value};
    ghost use Rattle.left_right.specs.Sides.{view as view_of};
    ghost use Rattle.edr_edition.specs.Shelves.{IsShelfList};
    ghost use Rattle.edr_share.specs.Values.{SharedValue};
    ghost use Rattle.edr_share.specs.declared.shown.Shown.{Shown};
    ghost use Rattle.edr_share.specs.declared.rule.View.{View};

    ghost Value = { SharedValue };

    ghost view = { λ shelf. record {
      seen = unwrap_or (option_map (λ reader. (view_of {T = Shown} {V = View} reader.place).seen) shelf.reader) [];
      floor = shelf.floor;
      origin = (arc_value shelf.origin.value.board).shared.table_id;
    } };

    ghost invariant = { λ shelf. IsSomeAnd shelf.reader (λ reader. IsShelfList (view_of {T = Shown} {V = View} reader.place).seen) };
}

impl SharedShelf {
    // The handle of a reader that has seen nothing yet.
    pub(crate) fn over(reader: LogReader, factory: &LogFactory) -> SharedShelf
        requires unread { view reader.place ≡ newcomer }
        requires own { reader.place.table_id ≡ (arc_value factory.now.board).shared.table_id }
        ensures { result ≡ unread reader.place.table_id }
    {
        SharedShelf {
            reader: Some(reader),
            floor: 0,
            origin: Snapshot::of(factory),
        }
    }

    /// Learns what its publisher told: from now on no take answers a lower number than that. It takes no memory.
    pub fn learn(&mut self, told: Told)
        requires { told.origin ≡ self.old.origin }
        ensures { self.new ≡ record self.old { floor = max self.old.floor told.number } }
    {
        self.floor = self.floor.max(told.number());
    }
}

impl Editions for SharedShelf {
    ghost seen = { λ shelf. shelf.seen };

    ghost taken = { λ _. None };

    /// The newest edition. It takes no lock, waits for nobody, and asks only for a copy of the edition's handle.
    ///
    /// After want of memory, its only error, what was seen is as it was, or all that was published until then.
    fn take(&mut self) -> Result<Arc<Edition>, OutOfMemory>
        ensures grows { BeginsSeen self.old.seen self.new.seen }
        ensures last { IfOk result (λ edition. EndsWith self.new.seen (arc_value edition)) }
        ensures ascending { IsShelfList self.new.seen }
        ensures taken { MatchResult result
            (λ edition. TakenGrew None None ((arc_value edition).number ∷ []))
            (λ _. TakenGrew None None []) }
        ensures untaken { OnErr result (⟦<SharedShelf as Editions>⟧.taken self.new ≡ ⟦<SharedShelf as Editions>⟧.taken self.old) }
        ensures stock { ⟦<SharedShelf as Editions>⟧.stock self.new ≡ ⟦<SharedShelf as Editions>⟧.stock self.old }
        ensures within { IfSome (⟦<SharedShelf as Editions>⟧.stock self.new) (λ all. BeginsSeen self.new.seen all) }
        ensures log { MatchResult result (λ _. IsShelfLog self.new.seen) (λ _. (self.new.seen ≡ self.old.seen) ⊎ IsShelfLog self.new.seen) }
        ensures floor { IfOk result (λ edition. self.old.floor ≤ (arc_value edition).number) }
        ensures kept { (self.new.floor ≡ self.old.floor) × (self.new.origin ≡ self.old.origin) }
    {
        let (reader, edition) = look(self.reader.take().unwrap());
        self.reader = Some(reader);
        let Some(edition) = edition else {
            return Err(OutOfMemory);
        };
        if edition.number() < self.floor {
            return Err(OutOfMemory);
        }
        Ok(edition)
    }
}
