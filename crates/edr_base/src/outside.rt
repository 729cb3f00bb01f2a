//! The outside: what bytes come from and go to, each object with a count of its faults.
//!
//! The words of its contracts:
//!
//! - **told**: a meaning that is an `Option` is told where it is `Some`. Objects in memory tell their bytes, real files
//!   and sockets tell nothing, and an object tells a meaning always or never. Every clause holds in both cases.
//! - **aside** of a source: what no read changes, such as whether something is open, what was asked, and what files of
//!   which names hold. Of a link also what was written to the peer.
//! - **beside** of a sink: what no write and no flush changes, such as whether a peer is connected, and what is still
//!   to come from it.
//! - **idle**: files with none open, a link with no peer connected, or a layer over a sink that was ended. Reads then
//!   give nothing, and writes take nothing; neither is a fault.
//! - **lent**: an object that a call takes by `&mut`. `SourceLent` and `SinkLent` say what each such call leaves:
//!   aside and beside as they were, and a count of faults that isn't less.
//! - **bottom** of a layer over a sink: what stood in the sink below before the layer's own first byte. Of a sink that
//!   is no layer it is empty, where it is told.
//! - **held** of a layer over lent sinks: which references they are and what they tell beside, from the uppermost down;
//!   none of a sink that is over none.
ghost use Rattle.std.specs.Prelude.{◌≡◌, ◌≤◌, ◌<◌, ℕ, List, [], Bool, true, length, IfOk, OnErr, IsErrOf, IsOk, is_err, Some, Option, Ok, Err, IsUtf8};
ghost use Rattle.edr_base.specs.declared.outside.Stop.TheVariants.{OutOfMemory as WantsMemory};
ghost use Rattle.edr_base.specs.Outside.{Aside, Beside, Rose, Ties, TellsBottom, KeptByOpen};
ghost use Rattle.edr_base.specs.Calls.{SourceLent, SinkLent, Reads, Appended, Flushed, Opened, asked_after, Cause};
ghost use Rattle.edr_base.specs.Limits.{count_limit};

use std::alloc::{AllocError, AllocFailed};

/// A fault of the outside.
#[derive(Clone, Copy)]
pub struct Failed;

/// Why a call on the outside did nothing.
#[derive(Clone, Copy, Debug, PartialEq, Eq)]
pub enum Stop {
    /// A fault of the outside.
    Failed,
    /// Memory was wanting.
    OutOfMemory,
}

impl From<AllocError> for Stop {
    ghost from_gives = { λ _ stop. stop ≡ WantsMemory };

    fn from(_: AllocError) -> Stop {
        Stop::OutOfMemory
    }
}

impl<T: Drop> From<AllocFailed<T>> for Stop {
    ghost from_gives = { λ _ stop. stop ≡ WantsMemory };

    fn from(_: AllocFailed<T>) -> Stop {
        Stop::OutOfMemory
    }
}

/// What counts its faults.
pub trait Faults {
    /// How many faults there were. It never falls, and stands still at 18,446,744,073,709,551,615.
    ghost faults: { Self → ℕ };

    ghost bounded: { (s : Self) → faults s ≤ count_limit };
}

/// What bytes are read from.
pub trait Source: Faults {
    /// The bytes still to come.
    ghost left: { Self → Option (List ℕ) };

    /// The part of the object that no read changes.
    ghost aside: { Self → Aside };

    /// Reads some bytes into the front of `buf`, and says how many.
    ///
    /// None are read only into an empty buffer, or at the end of the input. `Failed` is a fault
    /// that was counted; nothing is read then.
    fn read(&mut self, buf: &mut [u8]) -> Result<usize, Failed>
        ensures bound { IfOk result (λ n. n ≤ length buf.new) }
        ensures empty { length buf.new ≡ 0 → result ≡ Ok 0 }
        ensures bytes { Reads (left self.old) (left self.new) result buf.new }
        ensures lent { SourceLent (aside self.old) (aside self.new) (Self.faults self.old) (Self.faults self.new) }
        ensures cause { OnErr result (Rose (Self.faults self.old) (Self.faults self.new)) }

        // where nothing is open or connected
        ensures idle { (aside self.old).idle ≡ true
            → (result ≡ Ok 0) × (Self.faults self.new ≡ Self.faults self.old) };
}

/// What bytes are written to.
pub trait Sink: Faults {
    /// The bytes that were written.
    ghost written: { Self → Option (List ℕ) };

    /// How many bytes were written at the last flush that answered `Ok`, and 0 before.
    ghost flushed: { Self → Option ℕ };

    /// The part of the object that no write and no flush changes.
    ghost beside: { Self → Beside };

    /// Writes some bytes from the front of `piece`, and says how many: at least one, unless the piece is empty.
    ///
    /// `Failed` is a fault that was counted. Nothing is written after either `Stop`.
    fn write(&mut self, piece: &[u8]) -> Result<usize, Stop>
        ensures bound { IfOk result (λ n. (n ≤ length piece.now) × (0 < length piece.now → 0 < n)) }
        ensures empty { length piece.now ≡ 0 → result ≡ Ok 0 }
        ensures bytes { Appended (written self.old) (written self.new) result piece.now }
        ensures flushed { flushed self.new ≡ flushed self.old }
        ensures lent { SinkLent (beside self.old) (beside self.new) (Self.faults self.old) (Self.faults self.new) }
        ensures cause { IsErrOf result Stop.Failed → Rose (Self.faults self.old) (Self.faults self.new) }

        // where nothing is connected
        ensures idle { (beside self.old).idle ≡ true → 0 < length piece.now
            → (result ≡ Err Stop.OutOfMemory) × (Self.faults self.new ≡ Self.faults self.old) };

    /// Sends on what was written.
    fn flush(&mut self) -> Result<(), Stop>
        ensures bytes { written self.new ≡ written self.old }
        ensures flushed { Flushed (written self.new) (flushed self.old) (flushed self.new) result }
        ensures lent { SinkLent (beside self.old) (beside self.new) (Self.faults self.old) (Self.faults self.new) }
        ensures cause { IsErrOf result Stop.Failed → Rose (Self.faults self.old) (Self.faults self.new) }
        ensures idle { (beside self.old).idle ≡ true
            → IsOk result × (Self.faults self.new ≡ Self.faults self.old) };

    /// Where it is told what is written, it is told what stands below.
    ghost bottomed: { (s : Self) → TellsBottom (written s) (beside s).bottom };
}

/// Files, of which one at a time is open for reading.
pub trait Files: Source {
    /// Opens the file of this name, which is UTF-8, in place of the one that was open.
    ///
    /// After a refusal nothing is open. `Failed` is a fault that was counted.
    fn open(&mut self, name: &[u8]) -> Result<(), Stop>
        requires { IsUtf8 name.now }
        ensures ready { (Self.aside self.new).idle ≡ is_err result }
        ensures left { Opened ((Self.aside self.old).content name.now) (Self.left self.new) result }
        ensures kept { KeptByOpen (Self.aside self.old) (Self.aside self.new) }
        ensures asked { (Self.aside self.new).asked
            ≡ asked_after (Self.aside self.old).asked (name.now, 0) result }
        ensures cause { Cause result (Self.faults self.old) (Self.faults self.new) };
}

/// A way to peers, of which one at a time is connected: one object with one count, read from and written to.
pub trait Link: Source + Sink {
    /// Connects to a host, whose name is UTF-8, in place of the peer that was connected.
    ///
    /// After a refusal nothing is connected. `Failed` is a fault that was counted.
    fn connect(&mut self, host: &[u8], port: u16) -> Result<(), Stop>
        requires { IsUtf8 host.now }
        ensures ready { (Self.aside self.new).idle ≡ is_err result }
        ensures left { Opened (Self.aside self.old).incoming (Self.left self.new) result }
        ensures incoming { (Self.aside self.new).incoming ≡ (Self.aside self.old).incoming }
        ensures asked { (Self.aside self.new).asked
            ≡ asked_after (Self.aside self.old).asked (host.now, port) result }
        ensures written { (Self.written self.new ≡ Self.written self.old)
            × (Self.flushed self.new ≡ Self.flushed self.old) }
        ensures kept { ((Self.beside self.new).bottom ≡ (Self.beside self.old).bottom)
            × ((Self.beside self.new).held ≡ (Self.beside self.old).held)
            × ((Self.aside self.new).content ≡ (Self.aside self.old).content) }
        ensures cause { Cause result (Self.faults self.old) (Self.faults self.new) };

    /// What reading and what writing can't change are told of one object.
    ghost ties: { (s : Self)
        → Ties (Self.aside s) (Self.beside s) (Self.left s) (Self.written s) (Self.flushed s) };
}
