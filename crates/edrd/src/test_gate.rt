//! A gate in memory.
ghost use Rattle.std.specs.Prelude.{◌≡◌, ◌≤◌, false};
ghost use Rattle.edr_console.specs.Limits.{grant_limit};

use crate::gate::Gate;

/// Says true so many times, without a pause, and then false.
#[derive(Drop)]
pub(crate) struct TurnsGate {
    turns: u32,
    granted: u32,
    seconds: u32,
    shut: bool,
    ghost bound: { granted ≤ grant_limit },
}

impl TurnsGate {
    pub(crate) fn of(turns: u32) -> TurnsGate
        ensures { ⟦<TurnsGate as Gate>⟧.shut result ≡ false }
    {
        TurnsGate {
            turns,
            granted: 0,
            seconds: 0,
            shut: false,
        }
    }

    /// How long it was told to pause.
    pub(crate) fn seconds(&self) -> u32 {
        self.seconds
    }
}

impl Gate for TurnsGate {
    ghost seconds = { λ s. s.seconds };

    ghost granted = { λ s. s.granted };

    ghost shut = { λ s. s.shut };

    fn every(&mut self, pause: u32) {
        self.seconds = pause;
    }

    fn turn(&mut self) -> bool {
        if self.granted >= self.turns {
            self.shut = true;
            return false;
        }
        self.granted += 1;
        true
    }

    ghost within = { λ s. s.bound };
}
