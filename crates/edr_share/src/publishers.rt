//! The one publisher of a shelf, and what it tells.
ghost use Rattle.std.specs.Prelude.{◌≡◌, [], ◌∷◌, ◌++◌, drop, OnOk, OnErr, MatchResult, IsTrue, IsFalse, true, false, Some, None};
ghost use Rattle.std.specs.Arc.{arc_value};
ghost use Rattle.left_right.specs.Sides.{view};
ghost use Rattle.edr_edition.specs.Shelves.{IsNext};
ghost use Rattle.edr_share.specs.Values.{EndsAt, IsShelfLog};

use crate::rule::{LogWriter, Origin, Publish};
use edr_base::OutOfMemory;
use edr_edition::Edition;
use std::alloc::Global;
use std::marker::Model;
use std::snapshot::Snapshot;
use std::sync::{Arc, Wait};

/// The number of the last edition that was published when a publisher told it. Only a publisher makes one.
#[derive(Drop)]
pub struct Told {
    number: u64,
    // That of the publisher that told it.
    origin: Snapshot<Origin>,
}

impl Model for Told {
    ghost use Rattle.std.specs.Arc.{arc_value};
    ghost use Rattle.edr_share.specs.Values.{ToldValue};

    ghost Value = { ToldValue };

    ghost view = { λ told. record { number = told.number; origin = (arc_value told.origin.value.value.board).shared.table_id } };
}

impl Told {
    /// The number of the last edition that was published then.
    pub fn number(&self) -> u64
        ensures { result ≡ self.now.number }
    {
        self.number
    }
}

// Publishes one more edition, and says whether it did. Where it didn't, the log is as it was.
fn push<R: Wait>(rt: &R, writer: LogWriter, next: Arc<Edition>) -> (LogWriter, bool)
    requires pending { drop writer.behind writer.log.items ≡ [] }
    requires log { IsShelfLog (view writer.desk.place).seen }
    requires number { IsNext (view writer.desk.place).seen (arc_value next) }
    requires publishes { (view writer.desk.place).publishes ≡ true }
    ensures grew { IsTrue result.1 → (view result.0.desk.place).seen ≡ (view writer.desk.place).seen ++ arc_value next ∷ [] }
    ensures kept { IsFalse result.1 → (view result.0.desk.place).seen ≡ (view writer.desk.place).seen }
    ensures pending { IsTrue result.1 → drop result.0.behind result.0.log.items ≡ [] }
    ensures number { IsTrue result.1 → EndsAt (view result.0.desk.place).seen (arc_value next).number }
    ensures log { IsShelfLog (view result.0.desk.place).seen }
    ensures publishes { (view result.0.desk.place).publishes ≡ true }
{
    let mut writer = writer;
    match writer.append(next) {
        Ok(()) => {}
        Err(_) => return (writer, false),
    }
    let (writer, done) = writer.publish_as::<Publish, R>(rt);
    match done {
        Ok(()) => (writer, true),
        Err(_) => (writer, false),
    }
}

// Puts a writer back where it was taken from.
fn put(slot: &mut Option<LogWriter>, writer: LogWriter)
    requires { slot.old ≡ None }
    ensures { slot.new ≡ Some writer }
{
    match slot.replace(writer) {
        None => {}
        Some(_) => unreachable!(),
    }
}

/// The one publisher of a shelf. Contracts see the log, which is all that was published, in order.
///
/// It can't be dropped: use it up by `end`.
pub struct Publisher {
    writer: Option<LogWriter>,
    origin: Origin,
    // That of the last edition.
    number: u64,
    closed: bool,
}

impl Model for Publisher {
    ghost use Rattle.std.specs.Prelude.{[], ◌≡◌, drop, true, false, IsSomeAnd};
    ghost use Rattle.std.specs.Option.{unwrap_or, option_map};
    ghost use Rattle.std.specs.Arc.{arc_value};
    ghost use Rattle.left_right.specs.Sides.{view as view_of};
    ghost use Rattle.edr_share.specs.Values.{EndsAt, IsShelfLog, PublisherValue};
    ghost use Rattle.edr_share.specs.declared.shown.Shown.{Shown};
    ghost use Rattle.edr_share.specs.declared.rule.View.{View};

    ghost Value = { PublisherValue };

    ghost view = { λ publisher. record {
      log = unwrap_or (option_map (λ writer. (view_of {T = Shown} {V = View} writer.desk.place).seen) publisher.writer) [];
      closed = publisher.closed;
      origin = (arc_value publisher.origin.value.board).shared.table_id;
    } };

    ghost invariant = { λ publisher. IsSomeAnd publisher.writer (λ writer.
        ((view_of {T = Shown} {V = View} writer.desk.place).publishes ≡ true)
        × IsShelfLog (view_of {T = Shown} {V = View} writer.desk.place).seen
        × EndsAt (view_of {T = Shown} {V = View} writer.desk.place).seen publisher.number
        × (publisher.closed ≡ false → drop writer.behind writer.log.items ≡ [])) };
}

impl Publisher {
    // The publisher of a shelf whose last edition has this number.
    pub(crate) fn over(writer: LogWriter, number: u64) -> Publisher
        requires number { EndsAt (view writer.desk.place).seen number }
        requires log { IsShelfLog (view writer.desk.place).seen }
        requires publishes { (view writer.desk.place).publishes ≡ true }
        requires pending { drop writer.behind writer.log.items ≡ [] }
        ensures { result ≡ record { log = (view writer.desk.place).seen; closed = false; origin = writer.desk.place.table_id } }
    {
        let origin = Snapshot::of(writer.factory());
        Publisher {
            writer: Some(writer),
            origin,
            number,
            closed: false,
        }
    }

    /// Publishes the next edition: it is then the last of the log. It may wait for a reader that is taking an edition.
    ///
    /// Want of memory is its only error: the log is as it was, the edition is given up, and the publisher is closed, so
    /// that it publishes nothing any more.
    pub fn publish<R: Wait>(
        &mut self,
        rt: &R,
        alloc: Global,
        next: Edition,
    ) -> Result<(), OutOfMemory>
        requires { IsNext self.old.log next }
        ensures grew { OnOk result (self.new.log ≡ self.old.log ++ next ∷ []) }
        ensures kept { OnErr result (self.new.log ≡ self.old.log) }
        ensures log { IsShelfLog self.new.log }
        ensures closed { MatchResult result (λ _. (self.old.closed ≡ false) × (self.new.closed ≡ false)) (λ _. self.new.closed ≡ true) }
        ensures origin { self.new.origin ≡ self.old.origin }
    {
        if self.closed {
            return Err(OutOfMemory);
        }
        self.closed = true;
        let next = Arc::new(alloc, next)?;
        let number = next.number();
        let (writer, done) = push(rt, self.writer.take().unwrap(), next);
        put(&mut self.writer, writer);
        if !done {
            return Err(OutOfMemory);
        }
        self.closed = false;
        self.number = number;
        Ok(())
    }

    /// Tells the number of the last edition that was published, for a reader to learn. It takes no memory.
    pub fn tell(&mut self) -> Told
        ensures told { EndsAt self.old.log result.number }
        ensures origin { result.origin ≡ self.old.origin }
        ensures kept { self.new ≡ self.old }
        ensures log { IsShelfLog self.new.log }
    {
        Told {
            number: self.number,
            origin: Snapshot::of(&self.origin),
        }
    }

    /// Ends the publishing. It may wait for a reader that is taking an edition. Afterwards a take of its readers may
    /// answer want of memory.
    pub fn end<R: Wait>(self, rt: &R) {
        let Publisher {
            writer,
            origin: _,
            number: _,
            closed: _,
        } = self;
        let _shown = writer.unwrap().take(rt);
    }
}
