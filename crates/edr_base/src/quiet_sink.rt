//! A sink in memory that never fails.
ghost use Rattle.std.specs.Prelude.{◌≡◌, ◌≢◌, ◌≤◌, ◌<◌, [], length, Some, Ok, Err, IfOk, IsErrOf, IsOk, true};
ghost use Rattle.edr_base.specs.Outside.{plain_beside, Rose};
ghost use Rattle.edr_base.specs.Calls.{Appended, Flushed, SinkLent};
ghost use Rattle.edr_base.specs.Quiet.{none_bounded};

use crate::outside::{Faults, Sink, Stop};
use std::alloc::Global;

/// A sink that keeps what is written in memory, and tells it: it takes at most `cut` bytes a write, and never fails.
/// Only memory may be wanting.
#[derive(Drop)]
pub struct QuietSink {
    bytes: Vec<u8>,
    flushed: usize,
    cut: usize,
    ghost takes: { 0 < cut },
}

impl QuietSink {
    ghost use Rattle.edr_base.specs.QuietParts.{cut_of_quiet_sink};

    /// An empty sink.
    pub fn of(alloc: Global, cut: usize) -> QuietSink
        requires { 0 < cut }
        ensures written { ⟦<QuietSink as Sink>⟧.written result ≡ Some [] }
        ensures flushed { ⟦<QuietSink as Sink>⟧.flushed result ≡ Some 0 }
        ensures beside { ⟦<QuietSink as Sink>⟧.beside result ≡ plain_beside }
        ensures faults { ⟦<QuietSink as Faults>⟧.faults result ≡ 0 }
        ensures cut { cut_of_quiet_sink result ≡ cut }
    {
        QuietSink {
            bytes: Vec::new(alloc),
            flushed: 0,
            cut,
        }
    }

    /// What was written.
    pub fn written(&self) -> &[u8]
        ensures { ⟦<QuietSink as Sink>⟧.written self.now ≡ Some result.now }
    {
        &self.bytes
    }
}

impl Faults for QuietSink {
    ghost faults = { λ s. 0 };

    ghost bounded = { λ s. none_bounded };
}

impl Sink for QuietSink {
    ghost use Rattle.edr_base.specs.QuietParts.{cut_of_quiet_sink};

    ghost written = { λ s. Some s.bytes.items };

    ghost flushed = { λ s. Some s.flushed };

    ghost beside = { λ s. plain_beside };

    ghost bottomed = { λ s. tt };

    fn write(&mut self, piece: &[u8]) -> Result<usize, Stop>
        ensures bound { IfOk result (λ n. (n ≤ length piece.now) × (0 < length piece.now → 0 < n)) }
        ensures empty { length piece.now ≡ 0 → result ≡ Ok 0 }
        ensures bytes { Appended (⟦<QuietSink as Sink>⟧.written self.old) (⟦<QuietSink as Sink>⟧.written self.new) result piece.now }
        ensures flushed { ⟦<QuietSink as Sink>⟧.flushed self.new ≡ ⟦<QuietSink as Sink>⟧.flushed self.old }
        ensures lent { SinkLent (⟦<QuietSink as Sink>⟧.beside self.old) (⟦<QuietSink as Sink>⟧.beside self.new)
            (⟦<QuietSink as Faults>⟧.faults self.old) (⟦<QuietSink as Faults>⟧.faults self.new) }
        ensures cause { IsErrOf result Stop.Failed
            → Rose (⟦<QuietSink as Faults>⟧.faults self.old) (⟦<QuietSink as Faults>⟧.faults self.new) }
        ensures idle { (⟦<QuietSink as Sink>⟧.beside self.old).idle ≡ true → 0 < length piece.now
            → (result ≡ Err Stop.OutOfMemory) × (⟦<QuietSink as Faults>⟧.faults self.new ≡ ⟦<QuietSink as Faults>⟧.faults self.old) }

        // beyond the trait: what is cut, and that no call fails
        ensures cut { IfOk result (λ n. n ≤ cut_of_quiet_sink self.old) }
        ensures never { result ≢ Err Stop.Failed }
        ensures kept_cut { cut_of_quiet_sink self.new ≡ cut_of_quiet_sink self.old }
    {
        if piece.is_empty() {
            return Ok(0);
        }
        let count = piece.len().min(self.cut);
        self.bytes.extend_from_slice(&piece[..count])?;
        Ok(count)
    }

    fn flush(&mut self) -> Result<(), Stop>
        ensures bytes { ⟦<QuietSink as Sink>⟧.written self.new ≡ ⟦<QuietSink as Sink>⟧.written self.old }
        ensures flushed { Flushed (⟦<QuietSink as Sink>⟧.written self.new) (⟦<QuietSink as Sink>⟧.flushed self.old)
            (⟦<QuietSink as Sink>⟧.flushed self.new) result }
        ensures lent { SinkLent (⟦<QuietSink as Sink>⟧.beside self.old) (⟦<QuietSink as Sink>⟧.beside self.new)
            (⟦<QuietSink as Faults>⟧.faults self.old) (⟦<QuietSink as Faults>⟧.faults self.new) }
        ensures cause { IsErrOf result Stop.Failed
            → Rose (⟦<QuietSink as Faults>⟧.faults self.old) (⟦<QuietSink as Faults>⟧.faults self.new) }
        ensures idle { (⟦<QuietSink as Sink>⟧.beside self.old).idle ≡ true
            → IsOk result × (⟦<QuietSink as Faults>⟧.faults self.new ≡ ⟦<QuietSink as Faults>⟧.faults self.old) }

        // beyond the trait: no call fails
        ensures never { IsOk result }
        ensures kept_cut { cut_of_quiet_sink self.new ≡ cut_of_quiet_sink self.old }
    {
        self.flushed = self.bytes.len();
        Ok(())
    }
}
