//! Places for readers.
ghost use Rattle.std.specs.Prelude.{◌≡◌, ◌≤◌, ◌+◌, ◌-◌, min};
ghost use Rattle.edr_base.specs.Limits.{count_limit};

use edr_base::Faults;

/// Counts how often a reader was refused its place on a shelf.
#[derive(Drop)]
pub struct Places {
    faults: u64,
    ghost fits: { faults ≤ count_limit },
}

impl Faults for Places {
    ghost faults = { λ places. places.faults };

    ghost bounded = { λ places. places.fits };
}

impl Places {
    /// Nothing was refused yet. It takes no memory.
    pub fn new() -> Places
        ensures { ⟦<Places as Faults>⟧.faults result ≡ 0 }
    {
        Places { faults: 0 }
    }

    // Counts one more.
    pub(crate) fn refused(&mut self)
        ensures { ⟦<Places as Faults>⟧.faults self.new ≡ min (⟦<Places as Faults>⟧.faults self.old + 1) count_limit }
    {
        self.faults = self.faults.saturating_add(1);
    }
}
