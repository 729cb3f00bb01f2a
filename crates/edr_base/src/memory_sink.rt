//! A sink in memory.
ghost use Rattle.std.specs.Prelude.{◌≡◌, ◌≢◌, ◌↔◌, ◌≤◌, ◌<◌, [], length, Some, Ok, Err, IfOk, IsErrOf, IsOk, true};
ghost use Rattle.edr_base.specs.Outside.{plain_beside, Rose};
ghost use Rattle.edr_base.specs.Calls.{Appended, Flushed, SinkLent};
ghost use Rattle.edr_base.specs.Memory.{FailsNext};

use crate::fault_plan::FaultPlan;
use crate::outside::{Faults, Sink, Stop};
use std::alloc::Global;

/// A sink that keeps what is written in memory, and tells it: it takes at most `cut` bytes a write, and fails at the
/// calls of its plan.
#[derive(Drop)]
pub struct MemorySink {
    bytes: Vec<u8>,
    flushed: usize,
    cut: usize,
    plan: FaultPlan,
    ghost takes: { 0 < cut },
}

impl MemorySink {
    ghost use Rattle.edr_base.specs.MemoryParts.{cut_of_sink, plan_of_sink};

    /// An empty sink. `fails` are the numbers, from 1, of the calls of write and flush that fail.
    pub fn of(alloc: Global, cut: usize, fails: Vec<u64>) -> MemorySink
        requires { 0 < cut }
        ensures written { ⟦<MemorySink as Sink>⟧.written result ≡ Some [] }
        ensures flushed { ⟦<MemorySink as Sink>⟧.flushed result ≡ Some 0 }
        ensures beside { ⟦<MemorySink as Sink>⟧.beside result ≡ plain_beside }
        ensures faults { ⟦<MemorySink as Faults>⟧.faults result ≡ 0 }
        ensures plan { ((plan_of_sink result).fails ≡ fails) × ((plan_of_sink result).calls ≡ 0) }
        ensures cut { cut_of_sink result ≡ cut }
    {
        MemorySink {
            bytes: Vec::new(alloc),
            flushed: 0,
            cut,
            plan: FaultPlan::of(fails),
        }
    }

    /// What was written.
    pub fn written(&self) -> &[u8]
        ensures { ⟦<MemorySink as Sink>⟧.written self.now ≡ Some result.now }
    {
        &self.bytes
    }
}

impl Faults for MemorySink {
    ghost faults = { λ s. s.plan.faults };

    ghost bounded = { λ s. s.plan.fits };
}

impl Sink for MemorySink {
    ghost use Rattle.edr_base.specs.MemoryParts.{cut_of_sink, plan_of_sink, IsNextPlan};

    ghost written = { λ s. Some s.bytes.items };

    ghost flushed = { λ s. Some s.flushed };

    ghost beside = { λ s. plain_beside };

    ghost bottomed = { λ s. tt };

    fn write(&mut self, piece: &[u8]) -> Result<usize, Stop>
        ensures bound { IfOk result (λ n. (n ≤ length piece.now) × (0 < length piece.now → 0 < n)) }
        ensures empty { length piece.now ≡ 0 → result ≡ Ok 0 }
        ensures bytes { Appended (⟦<MemorySink as Sink>⟧.written self.old) (⟦<MemorySink as Sink>⟧.written self.new) result piece.now }
        ensures flushed { ⟦<MemorySink as Sink>⟧.flushed self.new ≡ ⟦<MemorySink as Sink>⟧.flushed self.old }
        ensures lent { SinkLent (⟦<MemorySink as Sink>⟧.beside self.old) (⟦<MemorySink as Sink>⟧.beside self.new)
            (⟦<MemorySink as Faults>⟧.faults self.old) (⟦<MemorySink as Faults>⟧.faults self.new) }
        ensures cause { IsErrOf result Stop.Failed
            → Rose (⟦<MemorySink as Faults>⟧.faults self.old) (⟦<MemorySink as Faults>⟧.faults self.new) }
        ensures idle { (⟦<MemorySink as Sink>⟧.beside self.old).idle ≡ true → 0 < length piece.now
            → (result ≡ Err Stop.OutOfMemory) × (⟦<MemorySink as Faults>⟧.faults self.new ≡ ⟦<MemorySink as Faults>⟧.faults self.old) }

        // beyond the trait: what is cut, and which calls fail
        ensures cut { IfOk result (λ n. n ≤ cut_of_sink self.old) }
        ensures fails { IsErrOf result Stop.Failed
            ↔ ((0 < length piece.now) × FailsNext (plan_of_sink self.old).fails.items (plan_of_sink self.old).calls) }
        ensures plan { IsNextPlan (IsErrOf result Stop.Failed) (plan_of_sink self.old) (plan_of_sink self.new) }
        ensures kept_cut { cut_of_sink self.new ≡ cut_of_sink self.old }
    {
        let fails = self.plan.strikes();
        if piece.is_empty() {
            return Ok(0);
        }
        if fails {
            self.plan.count_fault();
            return Err(Stop::Failed);
        }
        let count = piece.len().min(self.cut);
        self.bytes.extend_from_slice(&piece[..count])?;
        Ok(count)
    }

    fn flush(&mut self) -> Result<(), Stop>
        ensures bytes { ⟦<MemorySink as Sink>⟧.written self.new ≡ ⟦<MemorySink as Sink>⟧.written self.old }
        ensures flushed { Flushed (⟦<MemorySink as Sink>⟧.written self.new) (⟦<MemorySink as Sink>⟧.flushed self.old)
            (⟦<MemorySink as Sink>⟧.flushed self.new) result }
        ensures lent { SinkLent (⟦<MemorySink as Sink>⟧.beside self.old) (⟦<MemorySink as Sink>⟧.beside self.new)
            (⟦<MemorySink as Faults>⟧.faults self.old) (⟦<MemorySink as Faults>⟧.faults self.new) }
        ensures cause { IsErrOf result Stop.Failed
            → Rose (⟦<MemorySink as Faults>⟧.faults self.old) (⟦<MemorySink as Faults>⟧.faults self.new) }
        ensures idle { (⟦<MemorySink as Sink>⟧.beside self.old).idle ≡ true
            → IsOk result × (⟦<MemorySink as Faults>⟧.faults self.new ≡ ⟦<MemorySink as Faults>⟧.faults self.old) }

        // beyond the trait: which calls fail
        ensures fails { IsErrOf result Stop.Failed
            ↔ FailsNext (plan_of_sink self.old).fails.items (plan_of_sink self.old).calls }
        ensures only { result ≢ Err Stop.OutOfMemory }
        ensures plan { IsNextPlan (IsErrOf result Stop.Failed) (plan_of_sink self.old) (plan_of_sink self.new) }
        ensures kept_cut { cut_of_sink self.new ≡ cut_of_sink self.old }
    {
        if self.plan.strikes() {
            self.plan.count_fault();
            return Err(Stop::Failed);
        }
        self.flushed = self.bytes.len();
        Ok(())
    }
}
