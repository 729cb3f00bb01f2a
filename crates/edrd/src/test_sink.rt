//! A sink in memory that may hold.
ghost use Rattle.std.specs.Prelude.{◌≡◌, ◌≤◌, ◌<◌, [], length, Some, Ok, Err, IfOk, IsErrOf, IsOk, true};
ghost use Rattle.edr_base.specs.Outside.{Rose};
ghost use Rattle.edr_base.specs.Calls.{Appended, Flushed, SinkLent};

use edr_base::{Faults, MemorySink, Sink, Stop};
use std::rt::HostRuntime;
use std::sync::Arc;
use std::sync::atomic::{AtomicU64, Ordering};
use std::thread;
use std::time::{Clock, Duration};

/// A reply has begun.
pub(crate) const BEGUN: u64 = 1;

/// An edition was published behind that.
pub(crate) const PUBLISHED: u64 = 2;

// How often a thread looks whether another one has come as far as it waits for.
const TURNS: u64 = 1_000_000;

/// Waits until a stage is come to, and says whether it was within the limit. Each turn lets other threads go on, and each
/// sixteenth sleeps a little.
pub(crate) fn is_reached(clock: &impl Clock, stage: &AtomicU64, wanted: u64) -> bool {
    for turn in 0..TURNS {
        if stage.load(Ordering::SeqCst) >= wanted {
            return true;
        }
        if turn % 16 == 0 {
            thread::sleep(clock, Duration::from_micros(10));
        } else {
            thread::yield_now();
        }
    }
    false
}

/// What a sink does that holds: it says that a reply has begun, and waits for the publish.
#[derive(Drop)]
pub(crate) struct Hold {
    pub(crate) clock: HostRuntime,
    pub(crate) stage: Arc<AtomicU64>,
}

impl Hold {
    fn wait(&self) {
        let stage: &AtomicU64 = &self.stage;
        let _ = stage.compare_exchange(0, BEGUN, Ordering::SeqCst, Ordering::SeqCst);
        let _ = is_reached(&self.clock, stage, PUBLISHED);
    }
}

/// A sink in memory, which may hold once, in the write with which the first head is whole.
#[derive(Drop)]
pub(crate) struct HoldingSink {
    sink: MemorySink,
    hold: Option<Hold>,
}

// Whether a head is written whole.
fn has_head(written: &[u8]) -> bool {
    written
        .windows(4)
        .any(|four| four == b"\r\n\r\n".as_slice())
}

impl HoldingSink {
    pub(crate) fn of(sink: MemorySink, hold: Option<Hold>) -> HoldingSink {
        HoldingSink { sink, hold }
    }

    /// What was written.
    pub(crate) fn written(&self) -> &[u8] {
        self.sink.written()
    }
}

impl Faults for HoldingSink {
    ghost faults = { λ s. ⟦<MemorySink as Faults>⟧.faults s.sink };

    ghost bounded = { λ s. ⟦<MemorySink as Faults>⟧.bounded s.sink };
}

impl Sink for HoldingSink {
    ghost written = { λ s. ⟦<MemorySink as Sink>⟧.written s.sink };

    ghost flushed = { λ s. ⟦<MemorySink as Sink>⟧.flushed s.sink };

    ghost beside = { λ s. ⟦<MemorySink as Sink>⟧.beside s.sink };

    ghost bottomed = { λ s. tt };

    fn write(&mut self, piece: &[u8]) -> Result<usize, Stop> {
        let done = self.sink.write(piece);
        if has_head(self.sink.written()) {
            if let Some(hold) = self.hold.take() {
                hold.wait();
            }
        }
        done
    }

    fn flush(&mut self) -> Result<(), Stop> {
        self.sink.flush()
    }
}
