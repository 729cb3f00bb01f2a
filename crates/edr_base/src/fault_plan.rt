//! Which calls of an object in memory fail.
ghost use Rattle.std.specs.Prelude.{◌≡◌, ◌↔◌, ◌+◌, ◌-◌, ◌≤◌, min, IsTrue};
ghost use Rattle.edr_base.specs.Memory.{FailsNext};
ghost use Rattle.edr_base.specs.Limits.{count_limit};

/// Which calls of an object in memory fail, by their numbers from 1, and the counts of its calls and faults.
///
/// Both counts stand still at 18,446,744,073,709,551,615, where no later call fails by its number.
#[derive(Drop)]
pub struct FaultPlan {
    /// The numbers of the calls that fail.
    pub fails: Vec<u64>,
    /// How many calls there were.
    pub calls: u64,
    /// How many faults there were.
    pub faults: u64,
    ghost fits: { faults ≤ count_limit },
}

impl FaultPlan {
    /// A plan before the first call.
    pub fn of(fails: Vec<u64>) -> FaultPlan
        ensures fails { result.fails ≡ fails }
        ensures start { (result.calls ≡ 0) × (result.faults ≡ 0) }
    {
        FaultPlan {
            fails,
            calls: 0,
            faults: 0,
        }
    }

    /// Counts a call, and says whether it fails.
    pub fn strikes(&mut self) -> bool
        ensures strikes { IsTrue result ↔ FailsNext self.old.fails.items self.old.calls }
        ensures calls { self.new.calls ≡ min (self.old.calls + 1) count_limit }
        ensures fails { self.new.fails ≡ self.old.fails }
        ensures faults { self.new.faults ≡ self.old.faults }
    {
        if self.calls == u64::MAX {
            return false;
        }
        self.calls += 1;
        self.fails.contains(&self.calls)
    }

    /// Counts a fault.
    pub fn count_fault(&mut self)
        ensures faults { self.new.faults ≡ min (self.old.faults + 1) count_limit }
        ensures calls { (self.new.calls ≡ self.old.calls) × (self.new.fails ≡ self.old.fails) }
    {
        self.faults = self.faults.saturating_add(1);
    }
}
