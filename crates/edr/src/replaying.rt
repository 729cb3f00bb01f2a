//! Serves a connection from the editions of a feed.
ghost use Rattle.std.specs.Prelude.{◌≡◌, ◌<◌, ◌++◌, [], ◌∷◌, length, true, false, IsUtf8, IfSome, OnOk, option_to_list};
ghost use Rattle.edr_base.specs.Calls.{SourceLent, SinkLent};
ghost use Rattle.edr_edition.specs.Shelves.{IsLog, IsNext};
ghost use Rattle.edr_http.specs.Heads.{IsBehind};
ghost use Rattle.edr_program.specs.FileReads.{IsFileRead};
ghost use Rattle.edr.specs.Replays.{IsReplayOf, IsReplayBegun, AreReplies, AreBegun, IsServed, IsReadFor, ReplayReads, Waits, ReplayWaits};
ghost use Rattle.edr.specs.Ends.{OutputEnds, IsReadByEnd, AtReadFault, Asks, status_of};
ghost use Rattle.edr.specs.Replaying.{ServeCause, ReplayCause, IsBefore, session_ends};

use crate::checking::ending_of;
use crate::endings::{Ending, settled};
use edr_base::{Files, OutOfMemory, Sink, Source, Stop};
use edr_edition::{Edition, LocalShelf};
use edr_feed::read_feed;
use edr_http::Inbox;
use edr_serve::{REQUEST_LIMIT, SessionFault, output_goes_on, serve_one, serve_session};
use std::alloc::Global;

// How a run ends with a session that broke off.
fn broken(fault: SessionFault) -> Ending
    ensures { result ≡ session_ends fault }
{
    match fault {
        SessionFault::ReadFault => Ending::ReadFault,
        SessionFault::WriteFault => Ending::WriteFault,
        SessionFault::OutOfMemory => Ending::OutOfMemory,
    }
}

// Serves the input as one connection, each request from the first of some editions.
#[tactic(auto, using(crate::proofs::EndLemmas::broken_cause, crate::proofs::EndLemmas::broken_begun, crate::proofs::EndLemmas::broken_read, crate::proofs::EndLemmas::settled_cause, crate::proofs::EndLemmas::settled_begun, crate::proofs::ReplayLemmas::read_none))]
fn served_from_first<S: Source, K: Sink>(
    alloc: Global,
    editions: Vec<Edition>,
    input: &mut S,
    output: &mut K,
) -> Ending
    requires { 0 < length editions.items }
    ensures output { OutputEnds result true (AreReplies false editions.items (S.left input.old)) (AreBegun false editions.items (S.left input.old))
        (K.written output.old) (K.written output.new) (K.flushed output.new) }
    ensures cause { ServeCause result (S.faults input.old) (S.faults input.new) (K.faults output.old) (K.faults output.new) }
    ensures begun { ¬ (IsBefore result) }
    ensures ended { IsReadByEnd result (IsServed (S.left input.old) (S.left input.new)) }
    ensures behind { IsBehind (S.left input.old) (S.left input.new) }
    ensures read { IsReadFor false editions.items (S.left input.old) (S.left input.new) (K.written output.old) (K.written output.new) }
    ensures waits { AtReadFault result (Waits false editions.items (S.left input.old) (S.left input.new) (K.written output.old) (K.written output.new) (K.flushed output.new)) }
    ensures input { SourceLent (S.aside input.old) (S.aside input.new) (S.faults input.old) (S.faults input.new) }
    ensures lent { SinkLent (K.beside output.old) (K.beside output.new) (K.faults output.old) (K.faults output.new) }
{
    output_goes_on();
    let mut rest = editions.into_iter();
    let Some(first) = rest.next() else {
        return Ending::OutOfMemory;
    };
    let Ok(mut shelf) = LocalShelf::of(alloc, first) else {
        return Ending::OutOfMemory;
    };
    match serve_session(alloc, input, output, &mut shelf, REQUEST_LIMIT) {
        Ok(_) => settled(output),
        Err(fault) => broken(fault),
    }
}

// Puts the next edition on the shelf, where there is one.
fn advanced(alloc: Global, shelf: &mut LocalShelf, next: Option<Edition>) -> Result<(), OutOfMemory>
    requires { IfSome next (IsNext shelf.old) }
    ensures { OnOk result (shelf.new ≡ shelf.old ++ option_to_list next) }
{
    match next {
        Some(next) => shelf.advance(alloc, next),
        None => Ok(()),
    }
}

// Serves the input as one connection, the first request from the first of some editions and each further one from the next.
#[tactic(auto, using(crate::proofs::EndLemmas::broken_cause, crate::proofs::EndLemmas::broken_begun, crate::proofs::EndLemmas::broken_read, crate::proofs::EndLemmas::settled_cause, crate::proofs::EndLemmas::settled_begun, crate::proofs::ReplayLemmas::read_none, crate::proofs::AdvanceLemmas::going_begins, crate::proofs::AdvanceLemmas::behind_begins))]
fn served_advancing<S: Source, K: Sink>(
    alloc: Global,
    editions: Vec<Edition>,
    input: &mut S,
    output: &mut K,
) -> Ending
    requires log { IsLog editions.items }
    requires some { 0 < length editions.items }
    ensures output { OutputEnds result true (AreReplies true editions.items (S.left input.old)) (AreBegun true editions.items (S.left input.old))
        (K.written output.old) (K.written output.new) (K.flushed output.new) }
    ensures cause { ServeCause result (S.faults input.old) (S.faults input.new) (K.faults output.old) (K.faults output.new) }
    ensures begun { ¬ (IsBefore result) }
    ensures ended { IsReadByEnd result (IsServed (S.left input.old) (S.left input.new)) }
    ensures behind { IsBehind (S.left input.old) (S.left input.new) }
    ensures read { IsReadFor true editions.items (S.left input.old) (S.left input.new) (K.written output.old) (K.written output.new) }
    ensures waits { AtReadFault result (Waits true editions.items (S.left input.old) (S.left input.new) (K.written output.old) (K.written output.new) (K.flushed output.new)) }
    ensures input { SourceLent (S.aside input.old) (S.aside input.new) (S.faults input.old) (S.faults input.new) }
    ensures lent { SinkLent (K.beside output.old) (K.beside output.new) (K.faults output.old) (K.faults output.new) }
{
    output_goes_on();
    let mut behind = editions.into_iter();
    let Some(first) = behind.next() else {
        return Ending::OutOfMemory;
    };
    let Ok(mut shelf) = LocalShelf::of(alloc, first) else {
        return Ending::OutOfMemory;
    };
    let mut inbox = Inbox::new(alloc);
    let mut turn: u32 = 1;
    'requests: while turn <= REQUEST_LIMIT {
        let turns = REQUEST_LIMIT + 1 - turn;
        match serve_one(alloc, input, output, &mut shelf, &mut inbox, turns) {
            Ok(report) => match report.end {
                Some(_) => return settled(output),
                None => {}
            },
            Err(fault) => return broken(fault),
        }
        if advanced(alloc, &mut shelf, behind.next()).is_err() {
            return Ending::OutOfMemory;
        }
        turn += 1;
    }
    Ending::OutOfMemory
}

/// Opens the file of a name, reads the feed in it, and serves the input as one connection to the output: each request from the
/// feed's first edition, or where `advances` the first from the first and each further one from the next. However it ends, no more
/// than 20,479 bytes of the input were read behind the requests that were answered, and with `Done` less than 4,096 behind a last
/// request that has a head. With `ReadFault` all requests that had come whole were answered, and their replies are flushed. Of the file no more
/// is read than a feed has, and 16,384 bytes.
#[tactic(auto, using(crate::proofs::ReplayLemmas::replay_none, crate::proofs::ReplayLemmas::file_closed))]
pub fn replay<S: Source, K: Sink, F: Files>(
    alloc: Global,
    advances: bool,
    feed: &[u8],
    input: &mut S,
    output: &mut K,
    files: &mut F,
) -> Ending
    requires { IsUtf8 feed.now }
    ensures output { OutputEnds result true (IsReplayOf advances ((F.aside files.old).content feed.now) (S.left input.old))
        (IsReplayBegun advances ((F.aside files.old).content feed.now) (S.left input.old)) (K.written output.old) (K.written output.new) (K.flushed output.new) }
    ensures cause { ReplayCause result ((F.aside files.old).content feed.now)
        (record { input = S.faults input.old; output = K.faults output.old; files = F.faults files.old; link = 0; closed = (F.aside files.old).idle; unconnected = false })
        (record { input = S.faults input.new; output = K.faults output.new; files = F.faults files.new; link = 0; closed = (F.aside files.new).idle; unconnected = false }) }
    ensures unread { IsBefore result → (input.new ≡ input.old) × (output.new ≡ output.old) }
    ensures ended { IsReadByEnd result (IsServed (S.left input.old) (S.left input.new)) }
    ensures read { ReplayReads advances ((F.aside files.old).content feed.now) (S.left input.old) (S.left input.new) (K.written output.old) (K.written output.new) }
    ensures waits { AtReadFault result (ReplayWaits advances ((F.aside files.old).content feed.now) (S.left input.old) (S.left input.new)
        (K.written output.old) (K.written output.new) (K.flushed output.new)) }
    ensures file { IsFileRead (F.aside files.new).idle ((F.aside files.old).content feed.now) (F.left files.new) }
    ensures asked { Asks ((feed.now, 0) ∷ []) (status_of result) (F.aside files.old).asked (F.aside files.new).asked }
    ensures input { SourceLent (S.aside input.old) (S.aside input.new) (S.faults input.old) (S.faults input.new) }
    ensures lent { SinkLent (K.beside output.old) (K.beside output.new) (K.faults output.old) (K.faults output.new) }
{
    match files.open(feed) {
        Ok(()) => {}
        Err(Stop::Failed) => return Ending::OpenFault,
        Err(Stop::OutOfMemory) => return Ending::OutOfMemory,
    }
    match read_feed(alloc, files) {
        Ok(feed) if advances => served_advancing(alloc, feed.editions.into_vec(), input, output),
        Ok(feed) => served_from_first(alloc, feed.editions.into_vec(), input, output),
        Err(fault) => ending_of(&fault),
    }
}
