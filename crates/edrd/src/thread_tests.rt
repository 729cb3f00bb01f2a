//! A publish while a reply is held.
ghost use Rattle.std.specs.Prelude.{◌≡◌, ◌≤◌, false};
ghost use Rattle.edr_console.specs.Limits.{grant_limit};

use crate::gate::Gate;
use crate::test_coming::connection;
use crate::test_doors::MemoryDoor;
use crate::test_serving::{Outcome, serve_feed};
use crate::test_sink::{BEGUN, Hold, PUBLISHED, is_reached};
use crate::test_texts::{FROM_FIRST, FROM_SECOND, three_grids};
use edr_base::OutOfMemory;
use std::alloc::Global;
use std::rt::HostRuntime;
use std::sync::atomic::{AtomicU64, Ordering};
use std::sync::{Arc, Wait};
use std::test::Fail;
use std::thread::Threads;

// A request for a position.
const REQUEST: &[u8] =
    b"GET /collections/grid/position?coords=POINT(50%200)&datetime=2024-01-01T00:00:00Z HTTP/1.1\r\nHost: a\r\n\r\n";

// A gate that lets the second edition pass once a reply has begun, and then no other. The publish is over by its second turn.
#[derive(Drop)]
struct WatchingGate {
    watch: Hold,
    seconds: u32,
    granted: u32,
    shut: bool,
    ghost bound: { granted ≤ grant_limit },
}

impl WatchingGate {
    fn of(watch: Hold) -> WatchingGate
        ensures { ⟦<WatchingGate as Gate>⟧.shut result ≡ false }
    {
        WatchingGate {
            watch,
            seconds: 0,
            granted: 0,
            shut: false,
        }
    }
}

impl Gate for WatchingGate {
    ghost seconds = { λ s. s.seconds };

    ghost granted = { λ s. s.granted };

    ghost shut = { λ s. s.shut };

    fn every(&mut self, pause: u32) {
        self.seconds = pause;
    }

    fn turn(&mut self) -> bool {
        let stage: &AtomicU64 = &self.watch.stage;
        if self.granted == 0 && is_reached(&self.watch.clock, stage, BEGUN) {
            self.granted = 1;
            return true;
        }
        stage.store(PUBLISHED, Ordering::SeqCst);
        self.shut = true;
        false
    }

    ghost within = { λ s. s.bound };
}

// Serves two connections, of which the first holds until the second edition is published.
fn serve_two<R: Threads + Wait + Sync>(
    rt: &R,
    alloc: Global,
    clock: HostRuntime,
) -> Result<Outcome<MemoryDoor>, OutOfMemory> {
    let stage = Arc::new(alloc, AtomicU64::new(0))?;
    let hold = Hold {
        clock,
        stage: Arc::try_clone(&stage)?,
    };
    let mut coming = Vec::new(alloc);
    coming.push(Some(connection(alloc, REQUEST, 0, Some(hold))?))?;
    coming.push(Some(connection(alloc, REQUEST, 0, None)?))?;
    let mut acceptors = Vec::new(alloc);
    acceptors.push(MemoryDoor::of(alloc, coming, 2))?;
    let gate = WatchingGate::of(Hold { clock, stage });
    serve_feed(rt, alloc, &three_grids(alloc)?, acceptors, gate)
}

// What was written to the connection at a place of the first door.
fn written(doors: &[MemoryDoor], place: usize) -> &[u8] {
    let Some(door) = doors.first() else {
        return b"";
    };
    match door.served().get(place) {
        Some(back) => back.sink().written(),
        None => b"",
    }
}

// Where one thread did both, the publish or the first reply would wait for the other one up to its limit, and the numbers or
// the replies would be others.
#[test]
fn a_publish_goes_on_while_a_reply_is_held(rt: HostRuntime) -> Result<(), Fail> {
    let outcome = serve_two(&rt, rt.alloc(), rt)?;
    assert_eq!(rt; (outcome.sessions, outcome.session_faults), (2, 0));
    assert_eq!(rt; (outcome.published, outcome.last), (1, 2));
    assert!(rt; written(&outcome.acceptors, 0) == FROM_FIRST);
    assert!(rt; written(&outcome.acceptors, 1) == FROM_SECOND);
    Ok(())
}
