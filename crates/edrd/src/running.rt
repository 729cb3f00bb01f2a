//! The daemon over its objects.
ghost use Rattle.std.specs.Prelude.{◌≡◌, ◌⊎◌, ◌≤◌, ◌+◌, ◌++◌, ℕ, List, false, sum_by, vec_len, All, IsSomeAnd, IsUtf8, None, option_map};
ghost use Rattle.edr_base.specs.Calls.{SinkLent};
ghost use Rattle.edr_base.specs.Limits.{count_limit};
ghost use Rattle.edr_edition.specs.Shelves.{IsLog};
ghost use Rattle.edr_serve.specs.Requests.{request_limit};
ghost use Rattle.edr_console.specs.Limits.{worker_limit};
ghost use Rattle.edr_console.specs.Words as spelled;
ghost use Rattle.edrd.specs.Closing.{MayClose};
ghost use Rattle.edrd.specs.Ends.{Ends, EndsBy, HasCause, GateComesBack, LeavesDoors, LeavesPlaces, AsksFeed, ReadsFeed, served_of, status_of};
ghost use Rattle.edr_console.specs.Saying.{count_line, output_state, Says, SaysAll};
ghost use Rattle.edrd.specs.Serving.{Continues};
ghost use Rattle.edrd.specs.Shelving.{IsFirst, ServeCause, fault_lines};
ghost use Rattle.edr_console.specs.declared.words.Asked.TheVariants.{Serve as ToServe};

use crate::accept::Accept;
use crate::choosing::begin_with;
use crate::doors::{Doors, DoorsAsked};
use crate::endings::{Ending, tell};
use crate::feeding::feed_in;
use crate::gate::Gate;
use crate::serving::{ServeReport, serve_connections};
use edr_base::{Faults, Files, OutOfMemory, Sink, Stop, Text};
use edr_console::{
    Asked, Settings, asked_by, say_behind, say_counts, say_help, say_named, say_number, say_version,
};
use edr_edition::Edition;
use edr_feed::Feed;
use edr_share::{Places, Publisher, SharedShelf, open_shelf};
use std::alloc::Global;
use std::sync::Wait;
use std::thread::Threads;

// Closes the doors, each of which is served to its end.
fn close_all<B: Doors>(doors: &mut B, all: Vec<B::Door>)
    requires room { IsSomeAnd (B.last doors.old) (λ asked. B.closed doors.old + vec_len all ≡ asked.count) }
    requires ended { All (MayClose B.Door.given B.Door.finished B.Door.faults B.Door.over) all.items }
    requires few { (B.served doors.old + sum_by B.Door.given all.items ≤ count_limit)
        × (B.faulted doors.old + sum_by B.Door.faulted all.items ≤ count_limit) }
    ensures closed { B.closed doors.new ≡ B.closed doors.old + vec_len all }
    ensures counts { (B.served doors.new ≡ B.served doors.old + sum_by B.Door.given all.items)
        × (B.faulted doors.new ≡ B.faulted doors.old + sum_by B.Door.faulted all.items) }
    ensures kept { (B.last doors.new ≡ B.last doors.old) × (B.tried doors.new ≡ B.tried doors.old) × (B.opens doors.new ≡ B.opens doors.old)
        × (B.port doors.new ≡ B.port doors.old) × (B.faults doors.new ≡ B.faults doors.old) }
{
    let mut rest = all.into_iter();
    'doors: while let Some(door) = rest.next() {
        doors.close(door);
    }
}

// Ends the publisher, closes the doors, and says how many connections came through them.
fn finish<R: Threads + Wait + Sync, B: Doors, G: Gate + Send + Drop, O: Sink>(
    rt: &R,
    report: ServeReport<B::Door, G>,
    doors: &mut B,
    output: &mut O,
) -> G
    requires room { IsSomeAnd (B.last doors.old) (λ asked. B.closed doors.old + vec_len report.acceptors ≡ asked.count) }
    requires ended { All (MayClose B.Door.given B.Door.finished B.Door.faults B.Door.over) report.acceptors.items }
    requires counts { (B.served doors.old + sum_by B.Door.given report.acceptors.items ≡ report.sessions)
        × (B.faulted doors.old + sum_by B.Door.faulted report.acceptors.items ≡ report.session_faults) }
    ensures gate { result ≡ report.gate }
    ensures closed { B.closed doors.new ≡ B.closed doors.old + vec_len report.acceptors }
    ensures kept { (B.last doors.new ≡ B.last doors.old) × (B.opens doors.new ≡ B.opens doors.old) × (B.port doors.new ≡ B.port doors.old) }
    ensures line { Says (count_line (B.served doors.new) (B.faulted doors.new)) (output_state O.written O.flushed O.faults output.old) (output_state O.written O.flushed O.faults output.new) }
    ensures output { SinkLent (O.beside output.old) (O.beside output.new) (O.faults output.old) (O.faults output.new) }
{
    let ServeReport {
        sessions,
        session_faults,
        accept_faults: _,
        published: _,
        acceptors,
        gate,
        publisher,
    } = report;
    publisher.end(rt);
    close_all(doors, acceptors);
    say_counts(output, sessions, session_faults);
    gate
}

// Serves through the doors that are asked for, from a shelf that is open.
fn serve_through<R: Threads + Wait + Sync, B: Doors, G: Gate + Send + Drop, O: Sink + Send>(
    rt: &R,
    alloc: Global,
    settings: &Settings,
    publisher: Publisher,
    first: u64,
    behind: u64,
    rest: Vec<Edition>,
    shelves: Vec<SharedShelf>,
    doors: &mut B,
    gate: G,
    output: &mut O,
) -> (Ending, Option<G>)
    requires few { (1 ≤ settings.now.workers) × (settings.now.workers ≤ worker_limit) }
    requires requests { (1 ≤ settings.now.requests) × (settings.now.requests ≤ request_limit) }
    requires shelves { vec_len shelves ≡ settings.now.workers }
    requires own { All (λ shelf. shelf.origin ≡ publisher.origin) shelves.items }
    requires log { IsFirst first publisher.log }
    requires numbers { Continues publisher.log rest.items }
    requires gate { (G.shut gate ≡ false) × (G.seconds gate ≡ settings.now.every) }
    ensures cause { (places : ℕ) → (lines : List (List ℕ)) × SaysAll lines (output_state O.written O.flushed O.faults output.old) (output_state O.written O.flushed O.faults output.new) × ServeCause result.0 settings.now
        (record { last = B.last doors.old; tried = B.tried doors.old; opens = B.opens doors.old; closed = B.closed doors.old; faults = B.faults doors.old; port = B.port doors.old; served = B.served doors.old; faulted = B.faulted doors.old })
        (record { last = B.last doors.new; tried = B.tried doors.new; opens = B.opens doors.new; closed = B.closed doors.new; faults = B.faults doors.new; port = B.port doors.new; served = B.served doors.new; faulted = B.faulted doors.new })
        places places (publisher.log ++ rest.items) behind
        (record { seconds = G.seconds gate; granted = G.granted gate; shut = G.shut gate })
        (option_map (λ (g : G). record { seconds = G.seconds g; granted = G.granted g; shut = G.shut g }) result.1) lines }
    ensures came { (result.0 ≡ Ending.Done) ⊎ (result.0 ≡ Ending.BindFault) ⊎ (result.0 ≡ Ending.OutOfMemory) }
    ensures output { SinkLent (O.beside output.old) (O.beside output.new) (O.faults output.old) (O.faults output.new) }
{
    let asked = DoorsAsked {
        port: settings.port,
        count: settings.workers,
        connections: settings.connections,
        idle: settings.idle,
    };
    let acceptors = match doors.open(alloc, asked) {
        Ok(acceptors) => acceptors,
        Err(Stop::Failed) => {
            publisher.end(rt);
            return (Ending::BindFault, Some(gate));
        }
        Err(Stop::OutOfMemory) => {
            publisher.end(rt);
            return (Ending::OutOfMemory, None);
        }
    };
    say_number(output, b"listening on 127.0.0.1:", u64::from(doors.port()));
    say_behind(output, behind);
    say_number(output, b"edition ", first);
    let requests = settings.requests;
    match serve_connections(
        rt, alloc, publisher, rest, shelves, acceptors, requests, gate, output,
    ) {
        Ok(report) => (Ending::Done, Some(finish(rt, report, doors, output))),
        Err(OutOfMemory) => (Ending::OutOfMemory, None),
    }
}

// Opens a shelf of the editions that are served, and serves from it.
fn serve<R: Threads + Wait + Sync, B: Doors, G: Gate + Send + Drop, O: Sink + Send>(
    rt: &R,
    alloc: Global,
    settings: &Settings,
    feed: Feed,
    doors: &mut B,
    places: &mut Places,
    gate: G,
    output: &mut O,
) -> (Ending, Option<G>)
    requires few { (1 ≤ settings.now.workers) × (settings.now.workers ≤ worker_limit) }
    requires requests { (1 ≤ settings.now.requests) × (settings.now.requests ≤ request_limit) }
    requires log { IsLog feed.editions }
    requires gate { G.shut gate ≡ false }
    ensures cause { (lines : List (List ℕ)) × SaysAll lines (output_state O.written O.flushed O.faults output.old) (output_state O.written O.flushed O.faults output.new) × ServeCause result.0 settings.now
        (record { last = B.last doors.old; tried = B.tried doors.old; opens = B.opens doors.old; closed = B.closed doors.old; faults = B.faults doors.old; port = B.port doors.old; served = B.served doors.old; faulted = B.faulted doors.old })
        (record { last = B.last doors.new; tried = B.tried doors.new; opens = B.opens doors.new; closed = B.closed doors.new; faults = B.faults doors.new; port = B.port doors.new; served = B.served doors.new; faulted = B.faulted doors.new })
        (⟦<Places as Faults>⟧.faults places.old) (⟦<Places as Faults>⟧.faults places.new) (served_of settings.now.last feed.editions) feed.behind
        (record { seconds = G.seconds gate; granted = G.granted gate; shut = G.shut gate })
        (option_map (λ (g : G). record { seconds = G.seconds g; granted = G.granted g; shut = G.shut g }) result.1) lines }
    ensures doors { LeavesDoors (ToServe settings.now) (status_of result.0) → doors.new ≡ doors.old }
    ensures places { ¬ (LeavesPlaces (ToServe settings.now) (status_of result.0)) }
    ensures output { SinkLent (O.beside output.old) (O.beside output.new) (O.faults output.old) (O.faults output.new) }
{
    let behind = feed.behind;
    let (edition, rest) = begin_with(settings.last, feed.editions.into_vec());
    let first = edition.number();
    let (publisher, shelves) = match open_shelf(rt, alloc, edition, settings.workers, places) {
        Ok(opened) => opened,
        Err(Stop::Failed) => return (Ending::ShelfFault, Some(gate)),
        Err(Stop::OutOfMemory) => return (Ending::OutOfMemory, None),
    };
    let mut gate = gate;
    gate.every(settings.every);
    serve_through(
        rt, alloc, settings, publisher, first, behind, rest, shelves, doors, gate, output,
    )
}

// Reads the feed's file, and serves its editions.
fn serve_file<R: Threads + Wait + Sync, F: Files, B: Doors, G: Gate + Send + Drop, O: Sink + Send>(
    rt: &R,
    alloc: Global,
    settings: &Settings,
    files: &mut F,
    doors: &mut B,
    places: &mut Places,
    gate: G,
    output: &mut O,
) -> (Ending, Option<G>)
    requires few { (1 ≤ settings.now.workers) × (settings.now.workers ≤ worker_limit) }
    requires requests { (1 ≤ settings.now.requests) × (settings.now.requests ≤ request_limit) }
    requires named { IsUtf8 settings.now.feed }
    requires gate { G.shut gate ≡ false }
    ensures cause { (lines : List (List ℕ)) × SaysAll lines (output_state O.written O.flushed O.faults output.old) (output_state O.written O.flushed O.faults output.new) × HasCause result.0 settings.now
        (record {
          files = F.aside files.old;
          file_faults = F.faults files.old;
          places = ⟦<Places as Faults>⟧.faults places.old;
          doors = record { last = B.last doors.old; tried = B.tried doors.old; opens = B.opens doors.old; closed = B.closed doors.old; faults = B.faults doors.old; port = B.port doors.old; served = B.served doors.old; faulted = B.faulted doors.old };
        })
        (record {
          files = F.aside files.new;
          file_faults = F.faults files.new;
          places = ⟦<Places as Faults>⟧.faults places.new;
          doors = record { last = B.last doors.new; tried = B.tried doors.new; opens = B.opens doors.new; closed = B.closed doors.new; faults = B.faults doors.new; port = B.port doors.new; served = B.served doors.new; faulted = B.faulted doors.new };
        })
        (record { seconds = G.seconds gate; granted = G.granted gate; shut = G.shut gate })
        (option_map (λ (g : G). record { seconds = G.seconds g; granted = G.granted g; shut = G.shut g }) result.1) (lines ++ fault_lines result.0 settings.now) }
    ensures back { GateComesBack result.0 (ToServe settings.now)
        (record { seconds = G.seconds gate; granted = G.granted gate; shut = G.shut gate })
        (option_map (λ (g : G). record { seconds = G.seconds g; granted = G.granted g; shut = G.shut g }) result.1) }
    ensures files { AsksFeed F.aside (ToServe settings.now) (status_of result.0) files.old files.new }
    ensures file { ReadsFeed F.aside F.left (ToServe settings.now) (status_of result.0) files.old files.new }
    ensures doors { LeavesDoors (ToServe settings.now) (status_of result.0) → doors.new ≡ doors.old }
    ensures places { LeavesPlaces (ToServe settings.now) (status_of result.0) → places.new ≡ places.old }
    ensures none { result.1 ≡ None → result.0 ≡ Ending.OutOfMemory }
    ensures output { SinkLent (O.beside output.old) (O.beside output.new) (O.faults output.old) (O.faults output.new) }
{
    match feed_in(alloc, settings.feed.bytes(), files) {
        Ok(feed) => serve(rt, alloc, settings, feed, doors, places, gate, output),
        Err(ending) => (ending, Some(gate)),
    }
}

// Says which file can't be opened, or which port can't be bound, where a run ends so.
fn say_fault<O: Sink>(output: &mut O, ending: Ending, settings: &Settings)
    ensures lines { SaysAll (fault_lines ending settings.now) (output_state O.written O.flushed O.faults output.old) (output_state O.written O.flushed O.faults output.new) }
    ensures lent { SinkLent (O.beside output.old) (O.beside output.new) (O.faults output.old) (O.faults output.new) }
{
    match ending {
        Ending::OpenFault => say_named(output, b"open fault ", settings.feed.bytes()),
        Ending::BindFault => say_number(output, b"bind fault ", u64::from(settings.port)),
        _ => {}
    }
}

// Does what the words ask for.
fn carry_out<R: Threads + Wait + Sync, F: Files, B: Doors, G: Gate + Send + Drop, O: Sink + Send>(
    rt: &R,
    alloc: Global,
    words: &[Text],
    files: &mut F,
    doors: &mut B,
    places: &mut Places,
    gate: G,
    output: &mut O,
) -> (Ending, Option<G>)
    requires gate { G.shut gate ≡ false }
    ensures cause { (lines : List (List ℕ)) × SaysAll lines (output_state O.written O.flushed O.faults output.old) (output_state O.written O.flushed O.faults output.new) × EndsBy result.0 (spelled.asked_by words.now)
        (record {
          files = F.aside files.old;
          file_faults = F.faults files.old;
          places = ⟦<Places as Faults>⟧.faults places.old;
          doors = record { last = B.last doors.old; tried = B.tried doors.old; opens = B.opens doors.old; closed = B.closed doors.old; faults = B.faults doors.old; port = B.port doors.old; served = B.served doors.old; faulted = B.faulted doors.old };
        })
        (record {
          files = F.aside files.new;
          file_faults = F.faults files.new;
          places = ⟦<Places as Faults>⟧.faults places.new;
          doors = record { last = B.last doors.new; tried = B.tried doors.new; opens = B.opens doors.new; closed = B.closed doors.new; faults = B.faults doors.new; port = B.port doors.new; served = B.served doors.new; faulted = B.faulted doors.new };
        })
        (record { seconds = G.seconds gate; granted = G.granted gate; shut = G.shut gate })
        (option_map (λ (g : G). record { seconds = G.seconds g; granted = G.granted g; shut = G.shut g }) result.1) lines }
    ensures back { GateComesBack result.0 (spelled.asked_by words.now)
        (record { seconds = G.seconds gate; granted = G.granted gate; shut = G.shut gate })
        (option_map (λ (g : G). record { seconds = G.seconds g; granted = G.granted g; shut = G.shut g }) result.1) }
    ensures files { AsksFeed F.aside (spelled.asked_by words.now) (status_of result.0) files.old files.new }
    ensures file { ReadsFeed F.aside F.left (spelled.asked_by words.now) (status_of result.0) files.old files.new }
    ensures doors { LeavesDoors (spelled.asked_by words.now) (status_of result.0) → doors.new ≡ doors.old }
    ensures places { LeavesPlaces (spelled.asked_by words.now) (status_of result.0) → places.new ≡ places.old }
    ensures none { result.1 ≡ None → result.0 ≡ Ending.OutOfMemory }
    ensures output { SinkLent (O.beside output.old) (O.beside output.new) (O.faults output.old) (O.faults output.new) }
{
    let settings = match asked_by(alloc, words) {
        Ok(Asked::Serve(settings)) => settings,
        Ok(Asked::Help) => {
            say_help(output);
            return (Ending::Done, Some(gate));
        }
        Ok(Asked::Version) => {
            say_version(output);
            return (Ending::Done, Some(gate));
        }
        Ok(Asked::Nothing) => return (Ending::Usage, Some(gate)),
        Err(OutOfMemory) => return (Ending::OutOfMemory, None),
    };
    let (ending, gate) = serve_file(rt, alloc, &settings, files, doors, places, gate, output);
    say_fault(output, ending, &settings);
    (ending, gate)
}

/// All that the daemon does, over the objects that it is lent: `words` are those after the program's name.
///
/// It reads the editions of the feed in the file that the words name, opens a shelf of the first, opens the doors that the
/// words ask for, and serves all connections that come through them, each from the newest edition that is published when its
/// requests come; beside that it publishes the other editions, one at each turn of the gate. With `--last` the last edition
/// alone is served. It ends when no more connections
/// come, with all doors closed. The answer is the status of the program, and the gate, which is given up only with want of
/// memory; with each status but 0 one line says why on `errors`. On `output` are said the port, how many lines of the feed stand
/// behind its last publish, where there are some, each edition when it is published, and at the end how many connections were
/// served, and how many of them ended by a fault; and which file can't be opened, or which port can't be bound. A line that
/// can't be written changes nothing else. Of the feed's file no more is read than a feed has, and 16,384 bytes.
///
/// `--help` alone says how the daemon is asked, and `--version` alone its version, and nothing else is done.
pub fn edrd_run<
    R: Threads + Wait + Sync,
    F: Files,
    B: Doors,
    G: Gate + Send + Drop,
    O: Sink + Send,
    D: Sink,
>(
    rt: &R,
    alloc: Global,
    words: &[Text],
    files: &mut F,
    doors: &mut B,
    places: &mut Places,
    gate: G,
    output: &mut O,
    errors: &mut D,
) -> (u8, Option<G>)
    requires gate { G.shut gate ≡ false }
    ensures ends { (ending : Ending) × Ends ending (spelled.asked_by words.now) result.0
        (record {
          files = F.aside files.old;
          file_faults = F.faults files.old;
          places = ⟦<Places as Faults>⟧.faults places.old;
          doors = record { last = B.last doors.old; tried = B.tried doors.old; opens = B.opens doors.old; closed = B.closed doors.old; faults = B.faults doors.old; port = B.port doors.old; served = B.served doors.old; faulted = B.faulted doors.old };
        })
        (record {
          files = F.aside files.new;
          file_faults = F.faults files.new;
          places = ⟦<Places as Faults>⟧.faults places.new;
          doors = record { last = B.last doors.new; tried = B.tried doors.new; opens = B.opens doors.new; closed = B.closed doors.new; faults = B.faults doors.new; port = B.port doors.new; served = B.served doors.new; faulted = B.faulted doors.new };
        })
        (record { seconds = G.seconds gate; granted = G.granted gate; shut = G.shut gate })
        (option_map (λ (g : G). record { seconds = G.seconds g; granted = G.granted g; shut = G.shut g }) result.1)
        (D.written errors.old) (D.written errors.new) (D.faults errors.old) (D.faults errors.new)
        (output_state O.written O.flushed O.faults output.old) (output_state O.written O.flushed O.faults output.new) }
    ensures files { AsksFeed F.aside (spelled.asked_by words.now) result.0 files.old files.new }
    ensures file { ReadsFeed F.aside F.left (spelled.asked_by words.now) result.0 files.old files.new }
    ensures doors { LeavesDoors (spelled.asked_by words.now) result.0 → doors.new ≡ doors.old }
    ensures places { LeavesPlaces (spelled.asked_by words.now) result.0 → places.new ≡ places.old }
    ensures none { result.1 ≡ None → result.0 ≡ 5 }
    ensures output { SinkLent (O.beside output.old) (O.beside output.new) (O.faults output.old) (O.faults output.new) }
    ensures errors { SinkLent (D.beside errors.old) (D.beside errors.new) (D.faults errors.old) (D.faults errors.new) }
{
    let (ending, gate) = carry_out(rt, alloc, words, files, doors, places, gate, output);
    tell(ending, errors);
    (ending.status(), gate)
}
