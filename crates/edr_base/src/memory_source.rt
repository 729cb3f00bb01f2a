//! A source in memory.
ghost use Rattle.std.specs.Prelude.{◌≡◌, ◌↔◌, ◌≤◌, ◌<◌, ◌+◌, [], ◌++◌, length, take, drop, vec_len, Some, Ok, IfOk, OnErr, IsErr, true};
ghost use Rattle.edr_base.specs.Outside.{plain_aside, Rose};
ghost use Rattle.edr_base.specs.Calls.{Reads, SourceLent};
ghost use Rattle.edr_base.specs.Memory.{FailsNext};

use crate::fault_plan::FaultPlan;
use crate::outside::{Failed, Faults, Source};

/// A source of bytes in memory, which tells them: it gives at most `cut` bytes a read, and fails at the calls of its plan.
#[derive(Drop)]
pub struct MemorySource {
    bytes: Vec<u8>,
    at: usize,
    cut: usize,
    plan: FaultPlan,
    ghost inside: { at ≤ vec_len bytes },
    ghost gives: { 0 < cut },
}

// Gives the bytes from a place on, what the buffer holds and at most `cut`, and moves the place behind them.
#[tactic(auto, using(crate::proofs::KnownBytes::cut_at))]
pub(crate) fn give_from(bytes: &[u8], at: &mut usize, buf: &mut [u8], cut: usize) -> usize
    requires gives { 0 < cut }
    requires inside { at.old ≤ length bytes.now }
    ensures bound { (result ≤ length buf.new) × (result ≤ cut) }
    ensures inside { at.new ≤ length bytes.now }
    ensures bytes { drop at.old bytes.now ≡ take result buf.new ++ drop at.new bytes.now }
    ensures end { result ≡ 0 → 0 < length buf.new → drop at.new bytes.now ≡ [] }
{
    let rest = &bytes[*at..];
    let count = rest.len().min(buf.len()).min(cut);
    buf[..count].copy_from_slice(&rest[..count]);
    *at += count;
    count
}

impl MemorySource {
    ghost use Rattle.edr_base.specs.MemoryParts.{cut_of_source, plan_of_source};

    /// A source that holds these bytes. `fails` are the numbers, from 1, of the calls that fail.
    pub fn of(bytes: Vec<u8>, cut: usize, fails: Vec<u64>) -> MemorySource
        requires { 0 < cut }
        ensures left { ⟦<MemorySource as Source>⟧.left result ≡ Some bytes.items }
        ensures aside { ⟦<MemorySource as Source>⟧.aside result ≡ plain_aside }
        ensures faults { ⟦<MemorySource as Faults>⟧.faults result ≡ 0 }
        ensures plan { ((plan_of_source result).fails ≡ fails) × ((plan_of_source result).calls ≡ 0) }
        ensures cut { cut_of_source result ≡ cut }
    {
        MemorySource {
            bytes,
            at: 0,
            cut,
            plan: FaultPlan::of(fails),
        }
    }
}

impl Faults for MemorySource {
    ghost faults = { λ s. s.plan.faults };

    ghost bounded = { λ s. s.plan.fits };
}

impl Source for MemorySource {
    ghost use Rattle.edr_base.specs.MemoryParts.{cut_of_source, plan_of_source, IsNextPlan};

    ghost left = { λ s. Some (drop s.at s.bytes.items) };

    ghost aside = { λ s. plain_aside };

    fn read(&mut self, buf: &mut [u8]) -> Result<usize, Failed>
        ensures bound { IfOk result (λ n. n ≤ length buf.new) }
        ensures empty { length buf.new ≡ 0 → result ≡ Ok 0 }
        ensures bytes { Reads (⟦<MemorySource as Source>⟧.left self.old) (⟦<MemorySource as Source>⟧.left self.new) result buf.new }
        ensures lent { SourceLent (⟦<MemorySource as Source>⟧.aside self.old) (⟦<MemorySource as Source>⟧.aside self.new)
            (⟦<MemorySource as Faults>⟧.faults self.old) (⟦<MemorySource as Faults>⟧.faults self.new) }
        ensures cause { OnErr result (Rose (⟦<MemorySource as Faults>⟧.faults self.old) (⟦<MemorySource as Faults>⟧.faults self.new)) }
        ensures idle { (⟦<MemorySource as Source>⟧.aside self.old).idle ≡ true
            → (result ≡ Ok 0) × (⟦<MemorySource as Faults>⟧.faults self.new ≡ ⟦<MemorySource as Faults>⟧.faults self.old) }

        // beyond the trait: what is cut, and which calls fail
        ensures cut { IfOk result (λ n. n ≤ cut_of_source self.old) }
        ensures fails { IsErr result
            ↔ ((0 < length buf.new) × FailsNext (plan_of_source self.old).fails.items (plan_of_source self.old).calls) }
        ensures plan { IsNextPlan (IsErr result) (plan_of_source self.old) (plan_of_source self.new) }
        ensures kept_cut { cut_of_source self.new ≡ cut_of_source self.old }
    {
        let fails = self.plan.strikes();
        if buf.is_empty() {
            return Ok(0);
        }
        if fails {
            self.plan.count_fault();
            return Err(Failed);
        }
        Ok(give_from(&self.bytes, &mut self.at, buf, self.cut))
    }
}
