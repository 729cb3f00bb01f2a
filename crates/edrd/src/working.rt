//! The work of the jobs that serve.
ghost use Rattle.std.specs.Prelude.{◌<◌, ℕ, length, slice_index_or};
ghost use Rattle.edrd.specs.Jobs.{HasServed};
ghost use Rattle.edrd.specs.declared.jobs.Serving.{Serving};

use crate::accept::Accept;
use crate::jobs::Serving;
use edr_base::Failed;
use edr_serve::serve_connection;
use edr_share::shelves_cross_threads;
use std::alloc::Global;
use std::sync::Wait;
use std::thread;
use std::thread::Threads;

// Serves the connections, one after another, until no more come or an accept fails.
fn work<R: Wait, A: Accept>(rt: &R, alloc: Global, job: &mut Serving<A>)
    ensures { HasServed A.given A.finished A.faulted A.faults A.over job.old job.new }
{
    let mut sessions: u64 = 0;
    let mut session_faults: u64 = 0;
    let mut failed = false;
    'connections: for _ in rt.forever() {
        match job.acceptor.accept() {
            Ok(Some(connection)) => {
                let served = serve_connection(alloc, connection, &mut job.shelf, job.requests);
                let is_fault = served.outcome().is_err();
                job.acceptor.finish(served);
                sessions += 1;
                if is_fault {
                    session_faults += 1;
                }
            }
            Ok(None) => break,
            Err(Failed) => {
                failed = true;
                break;
            }
        }
    }
    job.sessions = sessions;
    job.session_faults = session_faults;
    job.failed = failed;
}

/// Serves through all acceptors beside one another, each in a thread of its own.
pub fn work_all<R: Threads + Wait + Sync, A: Accept + Send>(
    rt: &R,
    alloc: Global,
    jobs: &mut [Serving<A>],
)
    ensures { (i : ℕ) (d : Serving A) → i < length jobs.old
        → HasServed A.given A.finished A.faulted A.faults A.over (slice_index_or jobs.old i d) (slice_index_or jobs.new i d) }
{
    shelves_cross_threads();
    let count = jobs.len();
    if count == 0 {
        return;
    }
    thread::for_each_mut(
        rt,
        jobs,
        count,
        &|_, job: &mut Serving<A>|
            ensures { HasServed A.given A.finished A.faulted A.faults A.over job.entry.now job.exit.now }
        { work(rt, alloc, job) },
    );
}
