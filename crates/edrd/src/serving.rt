//! All connections of some acceptors, beside the publishing of some editions.
ghost use Rattle.std.specs.Prelude.{◌≡◌, ◌⊎◌, ◌≤◌, ◌<◌, ◌+◌, ◌*◌, ◌++◌, ℕ, map, sum_by, count_by, take, length, vec_len, slice_index_or, true, false, All, IfOk, MatchResult};
ghost use Rattle.std.specs.Vec.Iter.{into_iter_items, into_iter_len};
ghost use Rattle.edr_base.specs.Calls.{SinkLent};
ghost use Rattle.edr_serve.specs.Requests.{request_limit};
ghost use Rattle.edr_console.specs.Limits.{worker_limit, accept_limit};
ghost use Rattle.edr_console.specs.Saying.{edition_line, output_state, SaysAll};
ghost use Rattle.edrd.specs.Serving.{Continues, HasEnded, is_left};
ghost use Rattle.edrd.specs.Jobs.{HasServed, acceptor_of, sessions_of, faults_of, has_failed};
ghost use Rattle.edrd.specs.declared.jobs.Serving.{Serving};

use crate::accept::Accept;
use crate::gate::Gate;
use crate::jobs::Serving;
use crate::publishing::{Publishing, publish_all};
use crate::working::work_all;
use edr_base::{OutOfMemory, Sink};
use edr_edition::{Edition, editions_cross_threads};
use edr_share::{Publisher, SharedShelf, shelves_cross_threads};
use std::alloc::Global;
use std::sync::Wait;
use std::thread;
use std::thread::Threads;

/// What serving came to.
pub struct ServeReport<A, G> {
    /// How many connections were served.
    pub sessions: u64,
    /// How many of them ended with a fault of their session.
    pub session_faults: u64,
    /// How many acceptors ended with an accept that failed.
    pub accept_faults: u64,
    /// How many editions were published.
    pub published: u64,
    /// The acceptors, in their order.
    pub acceptors: Vec<A>,
    pub gate: G,
    pub publisher: Publisher,
}

// A job for each acceptor, with a shelf of its own; each connection may have so many requests.
fn jobs_of<A: Accept + Drop>(
    alloc: Global,
    acceptors: Vec<A>,
    shelves: Vec<SharedShelf>,
    requests: u32,
) -> Result<Vec<Serving<A>>, OutOfMemory>
    requires shelves { vec_len shelves ≡ vec_len acceptors }
    requires requests { (1 ≤ requests) × (requests ≤ request_limit) }
    ensures { IfOk result (λ jobs. map acceptor_of jobs.items ≡ acceptors.items) }
{
    let mut jobs = Vec::new(alloc);
    let mut acceptors = acceptors.into_iter();
    let mut shelves = shelves.into_iter();
    'acceptors: while let Some(acceptor) = acceptors.next() {
        let Some(shelf) = shelves.next() else {
            return Err(OutOfMemory);
        };
        jobs.push(Serving {
            acceptor,
            shelf,
            requests,
            sessions: 0,
            session_faults: 0,
            failed: false,
        })?;
    }
    Ok(jobs)
}

// What the jobs came to: the acceptors in their order, and the sums of what was counted.
#[derive(Drop)]
struct Gathered<A> {
    acceptors: Vec<A>,
    sessions: u64,
    session_faults: u64,
    accept_faults: u64,
}

// Takes the jobs apart.
fn gather<A: Accept + Drop>(
    alloc: Global,
    jobs: Vec<Serving<A>>,
) -> Result<Gathered<A>, OutOfMemory>
    requires few { vec_len jobs ≤ worker_limit }
    requires sessions { sum_by sessions_of jobs.items ≤ worker_limit * accept_limit }
    requires faults { sum_by faults_of jobs.items ≤ worker_limit * accept_limit }
    ensures acceptors { IfOk result (λ all. all.acceptors.items ≡ map acceptor_of jobs.items) }
    ensures sessions { IfOk result (λ all. all.sessions ≡ sum_by sessions_of jobs.items) }
    ensures faults { IfOk result (λ all. all.session_faults ≡ sum_by faults_of jobs.items) }
    ensures failed { IfOk result (λ all. all.accept_faults ≡ count_by has_failed jobs.items) }
{
    let mut acceptors = Vec::new(alloc);
    let mut sessions: u64 = 0;
    let mut session_faults: u64 = 0;
    let mut accept_faults: u64 = 0;
    let mut jobs = jobs.into_iter();
    'jobs: while let Some(job) = jobs.next() {
        acceptors.push(job.acceptor)?;
        sessions += job.sessions;
        session_faults += job.session_faults;
        if job.failed {
            accept_faults += 1;
        }
    }
    Ok(Gathered {
        acceptors,
        sessions,
        session_faults,
        accept_faults,
    })
}

// Publishes beside the workers.
fn run_beside<R: Threads + Wait + Sync, A: Accept + Send, G: Gate + Send, O: Sink + Send>(
    rt: &R,
    alloc: Global,
    publishing: &mut Publishing<G>,
    jobs: &mut [Serving<A>],
    output: &mut O,
)
    requires open_ { G.shut publishing.old.gate ≡ false }
    requires counted { into_iter_len publishing.old.rest ≡ length (into_iter_items publishing.old.rest) }
    requires numbers { Continues publishing.old.publisher.log (into_iter_items publishing.old.rest) }
    ensures log { publishing.new.publisher.log ≡ publishing.old.publisher.log ++ take publishing.new.published (into_iter_items publishing.old.rest) }
    ensures granted { publishing.new.wanting ≡ false → G.granted publishing.new.gate ≡ G.granted publishing.old.gate + publishing.new.published }
    ensures ends { (publishing.new.published ≡ length (into_iter_items publishing.old.rest)) ⊎ (G.shut publishing.new.gate ≡ true)
        ⊎ (publishing.new.wanting ≡ true) }
    ensures seconds { G.seconds publishing.new.gate ≡ G.seconds publishing.old.gate }
    ensures said { SaysAll (map edition_line (take publishing.new.published (into_iter_items publishing.old.rest))) (output_state O.written O.flushed O.faults output.old) (output_state O.written O.flushed O.faults output.new) }
    ensures output { SinkLent (O.beside output.old) (O.beside output.new) (O.faults output.old) (O.faults output.new) }
    ensures served { (i : ℕ) (d : Serving A) → i < length jobs.old
        → HasServed A.given A.finished A.faulted A.faults A.over (slice_index_or jobs.old i d) (slice_index_or jobs.new i d) }
{
    editions_cross_threads();
    shelves_cross_threads();
    thread::join_mut(
        rt,
        &mut || publish_all(rt, alloc, publishing, output),
        &mut ||
            ensures { (i : ℕ) (d : Serving A) → i < length jobs.entry.now
                → HasServed A.given A.finished A.faulted A.faults A.over (slice_index_or jobs.entry.now i d) (slice_index_or jobs.exit.now i d) }
        { work_all(rt, alloc, jobs) },
    );
}

// The jobs after they have run beside the publishing.
fn served<R: Threads + Wait + Sync, A: Accept + Send + Drop, G: Gate + Send, O: Sink + Send>(
    rt: &R,
    alloc: Global,
    publishing: &mut Publishing<G>,
    jobs: Vec<Serving<A>>,
    output: &mut O,
) -> Vec<Serving<A>>
    requires open_ { G.shut publishing.old.gate ≡ false }
    requires counted { into_iter_len publishing.old.rest ≡ length (into_iter_items publishing.old.rest) }
    requires numbers { Continues publishing.old.publisher.log (into_iter_items publishing.old.rest) }
    ensures log { publishing.new.publisher.log ≡ publishing.old.publisher.log ++ take publishing.new.published (into_iter_items publishing.old.rest) }
    ensures granted { publishing.new.wanting ≡ false → G.granted publishing.new.gate ≡ G.granted publishing.old.gate + publishing.new.published }
    ensures ends { (publishing.new.published ≡ length (into_iter_items publishing.old.rest)) ⊎ (G.shut publishing.new.gate ≡ true)
        ⊎ (publishing.new.wanting ≡ true) }
    ensures seconds { G.seconds publishing.new.gate ≡ G.seconds publishing.old.gate }
    ensures said { SaysAll (map edition_line (take publishing.new.published (into_iter_items publishing.old.rest))) (output_state O.written O.flushed O.faults output.old) (output_state O.written O.flushed O.faults output.new) }
    ensures output { SinkLent (O.beside output.old) (O.beside output.new) (O.faults output.old) (O.faults output.new) }
    ensures count { (vec_len result ≡ vec_len jobs) × (length result.items ≡ length jobs.items) }
    ensures served { (i : ℕ) (d : Serving A) → i < length jobs.items
        → HasServed A.given A.finished A.faulted A.faults A.over (slice_index_or jobs.items i d) (slice_index_or result.items i d) }
{
    let mut jobs = jobs;
    run_beside(rt, alloc, publishing, &mut jobs, output);
    jobs
}

/// Serves all connections of the acceptors, each acceptor in a thread of its own from a shelf of its own, and publishes the
/// editions beside that, one at each turn of the gate. Each connection that is handed out is served by one session and
/// handed back, whatever its session comes to, and has so many requests at most; each edition that is published is said on the output, whose faults change nothing
/// else; an acceptor ends where no more come or an accept fails. It waits as long as
/// connections may come.
///
/// With `Ok` all editions are published, or the gate is shut. Memory is its only error: then the publisher is ended, and all
/// else is given up.
pub fn serve_connections<
    R: Threads + Wait + Sync,
    A: Accept + Send + Drop,
    G: Gate + Send + Drop,
    O: Sink + Send,
>(
    rt: &R,
    alloc: Global,
    publisher: Publisher,
    rest: Vec<Edition>,
    shelves: Vec<SharedShelf>,
    acceptors: Vec<A>,
    requests: u32,
    gate: G,
    output: &mut O,
) -> Result<ServeReport<A, G>, OutOfMemory>
    requires few { (1 ≤ vec_len acceptors) × (vec_len acceptors ≤ worker_limit) }
    requires shelves { vec_len shelves ≡ vec_len acceptors }
    requires own { All (λ shelf. shelf.origin ≡ publisher.origin) shelves.items }
    requires open_ { All (λ acceptor. A.over acceptor ≡ false) acceptors.items }
    requires requests { (1 ≤ requests) × (requests ≤ request_limit) }
    requires numbers { Continues publisher.log rest.items }
    requires gate { G.shut gate ≡ false }
    ensures count { IfOk result (λ report. vec_len report.acceptors ≡ vec_len acceptors) }
    ensures acceptors { IfOk result (λ report. (i : ℕ) (d : A) → i < vec_len acceptors
        → HasEnded A.given A.finished A.faults A.over (slice_index_or acceptors.items i d) (slice_index_or report.acceptors.items i d)) }
    ensures sessions { IfOk result (λ report. sum_by A.given report.acceptors.items ≡ sum_by A.given acceptors.items + report.sessions) }
    ensures session_faults { IfOk result (λ report. sum_by A.faulted report.acceptors.items ≡ sum_by A.faulted acceptors.items + report.session_faults) }
    ensures accept_faults { IfOk result (λ report. report.accept_faults ≡ count_by (is_left A.over) report.acceptors.items) }
    ensures log { IfOk result (λ report. report.publisher.log ≡ publisher.log ++ take report.published rest.items) }
    ensures published { IfOk result (λ report. G.granted report.gate ≡ G.granted gate + report.published) }
    ensures ends { IfOk result (λ report. (report.published ≡ length rest.items) ⊎ (G.shut report.gate ≡ true)) }
    ensures seconds { IfOk result (λ report. G.seconds report.gate ≡ G.seconds gate) }
    ensures said { MatchResult result
        (λ report. SaysAll (map edition_line (take report.published rest.items)) (output_state O.written O.flushed O.faults output.old) (output_state O.written O.flushed O.faults output.new))
        (λ _. (published : ℕ) × SaysAll (map edition_line (take published rest.items)) (output_state O.written O.flushed O.faults output.old) (output_state O.written O.flushed O.faults output.new)) }
    ensures output { SinkLent (O.beside output.old) (O.beside output.new) (O.faults output.old) (O.faults output.new) }
{
    let Ok(jobs) = jobs_of(alloc, acceptors, shelves, requests) else {
        publisher.end(rt);
        return Err(OutOfMemory);
    };
    let mut publishing = Publishing {
        publisher,
        rest: rest.into_iter(),
        gate,
        published: 0,
        wanting: false,
    };
    let jobs = served(rt, alloc, &mut publishing, jobs, output);
    let Publishing {
        publisher,
        rest: _,
        gate,
        published,
        wanting,
    } = publishing;
    match gather(alloc, jobs) {
        Ok(all) if !wanting => Ok(ServeReport {
            sessions: all.sessions,
            session_faults: all.session_faults,
            accept_faults: all.accept_faults,
            published,
            acceptors: all.acceptors,
            gate,
            publisher,
        }),
        _ => {
            publisher.end(rt);
            Err(OutOfMemory)
        }
    }
}
