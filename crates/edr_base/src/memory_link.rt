//! A link in memory.
ghost use Rattle.std.specs.Prelude.{◌≡◌, ◌≢◌, ◌↔◌, ◌≤◌, ◌<◌, [], map, length, vec_len, Some, Ok, Err, IfOk, OnErr, IsErr, IsErrOf, IsOk, IsUtf8, true, false, is_err};
ghost use Rattle.edr_base.specs.Outside.{Rose};
ghost use Rattle.edr_base.specs.Calls.{Reads, Appended, Flushed, SourceLent, SinkLent, Opened, asked_after, Cause};
ghost use Rattle.edr_base.specs.Memory.{FailsNext, left_in, peer_asked, link_aside, link_beside};
ghost use Rattle.edr_base.specs.LinkTies.{memory_ties};

use crate::fault_plan::FaultPlan;
use crate::memory_source::give_from;
use crate::outside::{Failed, Faults, Link, Sink, Source, Stop};
use std::alloc::Global;

/// A link to one peer in memory, which gives the same bytes at each connect: it gives and takes at most `cut` bytes a
/// call, and fails at the calls of its plan.
#[derive(Drop)]
pub struct MemoryLink {
    incoming: Vec<u8>,
    written: Vec<u8>,
    flushed: usize,
    asked: Vec<(Vec<u8>, u16)>,
    ready: bool,
    at: usize,
    cut: usize,
    plan: FaultPlan,
    alloc: Global,
    ghost gives: { 0 < cut },
    ghost inside: { at ≤ vec_len incoming },
}

impl MemoryLink {
    ghost use Rattle.edr_base.specs.MemoryParts.{cut_of_link, plan_of_link};

    /// A link that isn't connected, to a peer that gives these bytes. `fails` are the numbers, from 1, of the calls that fail.
    pub fn of(alloc: Global, incoming: Vec<u8>, cut: usize, fails: Vec<u64>) -> MemoryLink
        requires { 0 < cut }
        ensures left { ⟦<MemoryLink as Source>⟧.left result ≡ Some [] }
        ensures aside { ⟦<MemoryLink as Source>⟧.aside result ≡ link_aside false [] incoming.items [] 0 }
        ensures beside { ⟦<MemoryLink as Sink>⟧.beside result ≡ link_beside false [] incoming.items [] }
        ensures written { (⟦<MemoryLink as Sink>⟧.written result ≡ Some [])
            × (⟦<MemoryLink as Sink>⟧.flushed result ≡ Some 0) }
        ensures faults { ⟦<MemoryLink as Faults>⟧.faults result ≡ 0 }
        ensures plan { ((plan_of_link result).fails ≡ fails) × ((plan_of_link result).calls ≡ 0) }
        ensures cut { cut_of_link result ≡ cut }
    {
        MemoryLink {
            incoming,
            written: Vec::new(alloc),
            flushed: 0,
            asked: Vec::new(alloc),
            ready: false,
            at: 0,
            cut,
            plan: FaultPlan::of(fails),
            alloc,
        }
    }

    /// What was written to the peer, over all connects.
    pub fn written(&self) -> &[u8]
        ensures { ⟦<MemoryLink as Sink>⟧.written self.now ≡ Some result.now }
    {
        &self.written
    }
}

impl Faults for MemoryLink {
    ghost faults = { λ s. s.plan.faults };

    ghost bounded = { λ s. s.plan.fits };
}

impl Source for MemoryLink {
    ghost use Rattle.edr_base.specs.MemoryParts.{cut_of_link, plan_of_link, IsNextPlan};

    ghost left = { λ s. Some (left_in s.ready s.at s.incoming.items) };

    ghost aside = { λ s. link_aside s.ready (map peer_asked s.asked.items) s.incoming.items s.written.items s.flushed };

    fn read(&mut self, buf: &mut [u8]) -> Result<usize, Failed>
        ensures bound { IfOk result (λ n. n ≤ length buf.new) }
        ensures empty { length buf.new ≡ 0 → result ≡ Ok 0 }
        ensures bytes { Reads (⟦<MemoryLink as Source>⟧.left self.old) (⟦<MemoryLink as Source>⟧.left self.new) result buf.new }
        ensures lent { SourceLent (⟦<MemoryLink as Source>⟧.aside self.old) (⟦<MemoryLink as Source>⟧.aside self.new)
            (⟦<MemoryLink as Faults>⟧.faults self.old) (⟦<MemoryLink as Faults>⟧.faults self.new) }
        ensures cause { OnErr result (Rose (⟦<MemoryLink as Faults>⟧.faults self.old) (⟦<MemoryLink as Faults>⟧.faults self.new)) }
        ensures idle { (⟦<MemoryLink as Source>⟧.aside self.old).idle ≡ true
            → (result ≡ Ok 0) × (⟦<MemoryLink as Faults>⟧.faults self.new ≡ ⟦<MemoryLink as Faults>⟧.faults self.old) }

        // beyond the trait: what is cut, and which calls fail
        ensures cut { IfOk result (λ n. n ≤ cut_of_link self.old) }
        ensures fails { IsErr result
            ↔ (((⟦<MemoryLink as Source>⟧.aside self.old).idle ≡ false) × (0 < length buf.new)
            × FailsNext (plan_of_link self.old).fails.items (plan_of_link self.old).calls) }
        ensures plan { IsNextPlan (IsErr result) (plan_of_link self.old) (plan_of_link self.new) }
        ensures kept_cut { cut_of_link self.new ≡ cut_of_link self.old }
    {
        let fails = self.plan.strikes();
        if !self.ready || buf.is_empty() {
            return Ok(0);
        }
        if fails {
            self.plan.count_fault();
            return Err(Failed);
        }
        Ok(give_from(&self.incoming, &mut self.at, buf, self.cut))
    }
}

impl Sink for MemoryLink {
    ghost use Rattle.edr_base.specs.MemoryParts.{cut_of_link, plan_of_link, IsNextPlan};

    ghost written = { λ s. Some s.written.items };

    ghost flushed = { λ s. Some s.flushed };

    ghost beside = { λ s. link_beside s.ready (map peer_asked s.asked.items) s.incoming.items (left_in s.ready s.at s.incoming.items) };

    ghost bottomed = { λ s. tt };

    fn write(&mut self, piece: &[u8]) -> Result<usize, Stop>
        ensures bound { IfOk result (λ n. (n ≤ length piece.now) × (0 < length piece.now → 0 < n)) }
        ensures empty { length piece.now ≡ 0 → result ≡ Ok 0 }
        ensures bytes { Appended (⟦<MemoryLink as Sink>⟧.written self.old) (⟦<MemoryLink as Sink>⟧.written self.new) result piece.now }
        ensures flushed { ⟦<MemoryLink as Sink>⟧.flushed self.new ≡ ⟦<MemoryLink as Sink>⟧.flushed self.old }
        ensures lent { SinkLent (⟦<MemoryLink as Sink>⟧.beside self.old) (⟦<MemoryLink as Sink>⟧.beside self.new)
            (⟦<MemoryLink as Faults>⟧.faults self.old) (⟦<MemoryLink as Faults>⟧.faults self.new) }
        ensures cause { IsErrOf result Stop.Failed
            → Rose (⟦<MemoryLink as Faults>⟧.faults self.old) (⟦<MemoryLink as Faults>⟧.faults self.new) }
        ensures idle { (⟦<MemoryLink as Sink>⟧.beside self.old).idle ≡ true → 0 < length piece.now
            → (result ≡ Err Stop.OutOfMemory) × (⟦<MemoryLink as Faults>⟧.faults self.new ≡ ⟦<MemoryLink as Faults>⟧.faults self.old) }

        // beyond the trait: what is cut, and which calls fail
        ensures cut { IfOk result (λ n. n ≤ cut_of_link self.old) }
        ensures fails { IsErrOf result Stop.Failed
            ↔ (((⟦<MemoryLink as Sink>⟧.beside self.old).idle ≡ false) × (0 < length piece.now)
            × FailsNext (plan_of_link self.old).fails.items (plan_of_link self.old).calls) }
        ensures plan { IsNextPlan (IsErrOf result Stop.Failed) (plan_of_link self.old) (plan_of_link self.new) }
        ensures kept_cut { cut_of_link self.new ≡ cut_of_link self.old }
    {
        let fails = self.plan.strikes();
        if piece.is_empty() {
            return Ok(0);
        }
        if !self.ready {
            return Err(Stop::OutOfMemory);
        }
        if fails {
            self.plan.count_fault();
            return Err(Stop::Failed);
        }
        let count = piece.len().min(self.cut);
        self.written.extend_from_slice(&piece[..count])?;
        Ok(count)
    }

    fn flush(&mut self) -> Result<(), Stop>
        ensures bytes { ⟦<MemoryLink as Sink>⟧.written self.new ≡ ⟦<MemoryLink as Sink>⟧.written self.old }
        ensures flushed { Flushed (⟦<MemoryLink as Sink>⟧.written self.new) (⟦<MemoryLink as Sink>⟧.flushed self.old)
            (⟦<MemoryLink as Sink>⟧.flushed self.new) result }
        ensures lent { SinkLent (⟦<MemoryLink as Sink>⟧.beside self.old) (⟦<MemoryLink as Sink>⟧.beside self.new)
            (⟦<MemoryLink as Faults>⟧.faults self.old) (⟦<MemoryLink as Faults>⟧.faults self.new) }
        ensures cause { IsErrOf result Stop.Failed
            → Rose (⟦<MemoryLink as Faults>⟧.faults self.old) (⟦<MemoryLink as Faults>⟧.faults self.new) }
        ensures idle { (⟦<MemoryLink as Sink>⟧.beside self.old).idle ≡ true
            → IsOk result × (⟦<MemoryLink as Faults>⟧.faults self.new ≡ ⟦<MemoryLink as Faults>⟧.faults self.old) }

        // beyond the trait: which calls fail
        ensures fails { IsErrOf result Stop.Failed
            ↔ (((⟦<MemoryLink as Sink>⟧.beside self.old).idle ≡ false)
            × FailsNext (plan_of_link self.old).fails.items (plan_of_link self.old).calls) }
        ensures only { result ≢ Err Stop.OutOfMemory }
        ensures plan { IsNextPlan (IsErrOf result Stop.Failed) (plan_of_link self.old) (plan_of_link self.new) }
        ensures kept_cut { cut_of_link self.new ≡ cut_of_link self.old }
    {
        let fails = self.plan.strikes();
        if self.ready && fails {
            self.plan.count_fault();
            return Err(Stop::Failed);
        }
        self.flushed = self.written.len();
        Ok(())
    }
}

impl Link for MemoryLink {
    ghost use Rattle.edr_base.specs.MemoryParts.{cut_of_link, plan_of_link, IsNextPlan};

    ghost ties = { λ s. memory_ties s.ready (map peer_asked s.asked.items) s.incoming.items s.at s.written.items s.flushed };

    fn connect(&mut self, host: &[u8], port: u16) -> Result<(), Stop>
        requires { IsUtf8 host.now }
        ensures ready { (⟦<MemoryLink as Source>⟧.aside self.new).idle ≡ is_err result }
        ensures left { Opened (⟦<MemoryLink as Source>⟧.aside self.old).incoming (⟦<MemoryLink as Source>⟧.left self.new) result }
        ensures incoming { (⟦<MemoryLink as Source>⟧.aside self.new).incoming ≡ (⟦<MemoryLink as Source>⟧.aside self.old).incoming }
        ensures asked { (⟦<MemoryLink as Source>⟧.aside self.new).asked
            ≡ asked_after (⟦<MemoryLink as Source>⟧.aside self.old).asked (host.now, port) result }
        ensures written { (⟦<MemoryLink as Sink>⟧.written self.new ≡ ⟦<MemoryLink as Sink>⟧.written self.old)
            × (⟦<MemoryLink as Sink>⟧.flushed self.new ≡ ⟦<MemoryLink as Sink>⟧.flushed self.old) }
        ensures kept { ((⟦<MemoryLink as Sink>⟧.beside self.new).bottom ≡ (⟦<MemoryLink as Sink>⟧.beside self.old).bottom)
            × ((⟦<MemoryLink as Sink>⟧.beside self.new).held ≡ (⟦<MemoryLink as Sink>⟧.beside self.old).held)
            × ((⟦<MemoryLink as Source>⟧.aside self.new).content ≡ (⟦<MemoryLink as Source>⟧.aside self.old).content) }
        ensures cause { Cause result (⟦<MemoryLink as Faults>⟧.faults self.old) (⟦<MemoryLink as Faults>⟧.faults self.new) }

        // beyond the trait: a fault comes of the plan alone
        ensures fails { IsErrOf result Stop.Failed
            → FailsNext (plan_of_link self.old).fails.items (plan_of_link self.old).calls }
        ensures connects { IsOk result
            → ¬ (FailsNext (plan_of_link self.old).fails.items (plan_of_link self.old).calls) }
        ensures plan { IsNextPlan (IsErrOf result Stop.Failed) (plan_of_link self.old) (plan_of_link self.new) }
        ensures kept_cut { cut_of_link self.new ≡ cut_of_link self.old }
    {
        self.ready = false;
        let fails = self.plan.strikes();
        let kept = Vec::from_slice(self.alloc, host)?;
        self.asked.push((kept, port))?;
        if fails {
            self.plan.count_fault();
            return Err(Stop::Failed);
        }
        self.at = 0;
        self.ready = true;
        Ok(())
    }
}
