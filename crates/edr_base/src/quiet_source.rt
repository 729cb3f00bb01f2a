//! A source in memory that never fails.
ghost use Rattle.std.specs.Prelude.{◌≡◌, ◌≤◌, ◌<◌, length, drop, vec_len, Some, Ok, IfOk, OnErr, IsOk, true};
ghost use Rattle.edr_base.specs.Outside.{plain_aside, Rose};
ghost use Rattle.edr_base.specs.Calls.{Reads, SourceLent};
ghost use Rattle.edr_base.specs.Quiet.{none_bounded};

use crate::memory_source::give_from;
use crate::outside::{Failed, Faults, Source};

/// A source of bytes in memory, which tells them: it gives at most `cut` bytes a read, and never fails.
#[derive(Drop)]
pub struct QuietSource {
    bytes: Vec<u8>,
    at: usize,
    cut: usize,
    ghost inside: { at ≤ vec_len bytes },
    ghost gives: { 0 < cut },
}

impl QuietSource {
    ghost use Rattle.edr_base.specs.QuietParts.{cut_of_quiet_source};

    /// A source that holds these bytes.
    pub fn of(bytes: Vec<u8>, cut: usize) -> QuietSource
        requires { 0 < cut }
        ensures left { ⟦<QuietSource as Source>⟧.left result ≡ Some bytes.items }
        ensures aside { ⟦<QuietSource as Source>⟧.aside result ≡ plain_aside }
        ensures faults { ⟦<QuietSource as Faults>⟧.faults result ≡ 0 }
        ensures cut { cut_of_quiet_source result ≡ cut }
    {
        QuietSource { bytes, at: 0, cut }
    }
}

impl Faults for QuietSource {
    ghost faults = { λ s. 0 };

    ghost bounded = { λ s. none_bounded };
}

impl Source for QuietSource {
    ghost use Rattle.edr_base.specs.QuietParts.{cut_of_quiet_source};

    ghost left = { λ s. Some (drop s.at s.bytes.items) };

    ghost aside = { λ s. plain_aside };

    fn read(&mut self, buf: &mut [u8]) -> Result<usize, Failed>
        ensures bound { IfOk result (λ n. n ≤ length buf.new) }
        ensures empty { length buf.new ≡ 0 → result ≡ Ok 0 }
        ensures bytes { Reads (⟦<QuietSource as Source>⟧.left self.old) (⟦<QuietSource as Source>⟧.left self.new) result buf.new }
        ensures lent { SourceLent (⟦<QuietSource as Source>⟧.aside self.old) (⟦<QuietSource as Source>⟧.aside self.new)
            (⟦<QuietSource as Faults>⟧.faults self.old) (⟦<QuietSource as Faults>⟧.faults self.new) }
        ensures cause { OnErr result (Rose (⟦<QuietSource as Faults>⟧.faults self.old) (⟦<QuietSource as Faults>⟧.faults self.new)) }
        ensures idle { (⟦<QuietSource as Source>⟧.aside self.old).idle ≡ true
            → (result ≡ Ok 0) × (⟦<QuietSource as Faults>⟧.faults self.new ≡ ⟦<QuietSource as Faults>⟧.faults self.old) }

        // beyond the trait: what is cut, and that no call fails
        ensures cut { IfOk result (λ n. n ≤ cut_of_quiet_source self.old) }
        ensures never { IsOk result }
        ensures kept_cut { cut_of_quiet_source self.new ≡ cut_of_quiet_source self.old }
    {
        Ok(give_from(&self.bytes, &mut self.at, buf, self.cut))
    }
}
