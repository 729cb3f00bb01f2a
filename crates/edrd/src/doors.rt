//! What opens the doors through which connections come.
ghost use Rattle.std.specs.Prelude.{◌≡◌, ◌⊎◌, ◌≤◌, ◌<◌, ◌+◌, ◌-◌, ℕ, Bool, true, min, vec_len, All, IfOk, IsSomeAnd, MatchResult, Option, Some, is_ok};
ghost use Rattle.edr_base.specs.Calls.{Cause};
ghost use Rattle.edr_base.specs.Limits.{count_limit};
ghost use Rattle.edrd.specs.Doors.{IsNew};
ghost use Rattle.edrd.specs.declared.doors.DoorsAsked.{DoorsAsked};

use crate::accept::Accept;
use edr_base::{Faults, Stop};
use std::alloc::Global;

/// What doors are asked for.
#[derive(Clone, Copy, Debug, PartialEq, Eq)]
pub struct DoorsAsked {
    pub port: u16,
    /// How many doors.
    pub count: usize,
    /// How many connections come through each at most; 0 is no end.
    pub connections: u64,
    /// How many seconds each connection may be idle.
    pub idle: u32,
}

/// What opens doors at a port, and closes them when no more connections come through them.
pub trait Doors: Faults {
    type Door: Accept + Send + Drop;

    /// What the last `open` with `Ok` asked for.
    ghost last: { Self → Option DoorsAsked };

    /// What the last `open` asked for, and whether it answered `Ok`.
    ghost tried: { Self → Option (DoorsAsked × Bool) };

    /// How often `open` answered `Ok`. It stands still at 18,446,744,073,709,551,615.
    ghost opens: { Self → ℕ };

    /// How many doors were handed back since the last `open` with `Ok`.
    ghost closed: { Self → ℕ };

    /// The port that the last `open` with `Ok` bound.
    ghost port: { Self → ℕ };

    /// How many connections those doors handed out that were handed back since.
    ghost served: { Self → ℕ };

    /// How many of these connections ended with a fault of their session.
    ghost faulted: { Self → ℕ };

    /// Opens the doors that are asked for.
    ///
    /// `Failed` is a fault that was counted.
    fn open(&mut self, alloc: Global, asked: DoorsAsked) -> Result<Vec<Self::Door>, Stop>
        ensures doors { IfOk result (λ doors. (vec_len doors ≡ asked.count)
            × All (IsNew Self.Door.over Self.Door.given Self.Door.finished Self.Door.faulted Self.Door.faults) doors.items) }
        ensures tried { tried self.new ≡ Some (asked, is_ok result) }
        ensures port { IfOk result (λ _. 0 < asked.port → port self.new ≡ asked.port) }
        ensures counts { IfOk result (λ _. (served self.new ≡ 0) × (faulted self.new ≡ 0)) }
        ensures last { MatchResult result
            (λ _. (last self.new ≡ Some asked)
            × (opens self.new ≡ min (opens self.old + 1) count_limit) × (closed self.new ≡ 0))
            (λ _. (last self.new ≡ last self.old) × (opens self.new ≡ opens self.old) × (closed self.new ≡ closed self.old)) }
        ensures cause { Cause result (Self.faults self.old) (Self.faults self.new) };

    /// The port that the last `open` with `Ok` bound.
    fn port(&self) -> u16
        ensures { result ≡ port self.now };

    /// Takes a door back that is served to its end.
    fn close(&mut self, door: Self::Door)
        requires room { IsSomeAnd (last self.old) (λ asked. closed self.old < asked.count) }
        requires ended { (Self.Door.over door ≡ true) ⊎ (0 < Self.Door.faults door) }
        requires served { Self.Door.finished door ≡ Self.Door.given door }
        requires few { (served self.old + Self.Door.given door ≤ count_limit) × (faulted self.old + Self.Door.faulted door ≤ count_limit) }
        ensures closed { closed self.new ≡ closed self.old + 1 }
        ensures counts { (served self.new ≡ served self.old + Self.Door.given door) × (faulted self.new ≡ faulted self.old + Self.Door.faulted door) }
        ensures kept { (last self.new ≡ last self.old) × (tried self.new ≡ tried self.old) × (opens self.new ≡ opens self.old)
            × (port self.new ≡ port self.old) × (Self.faults self.new ≡ Self.faults self.old) };
}
