//! A gate by the clock.
ghost use Rattle.std.specs.Prelude.{◌≡◌, ◌≤◌, false};
ghost use Rattle.edr_console.specs.Limits.{grant_limit};

use crate::gate::Gate;
use edr_console::GRANT_LIMIT;
use std::rt::Clock;
use std::thread;
use std::time::Duration;

/// Says true after a pause, until it has said so `GRANT_LIMIT` times.
#[derive(Drop)]
pub struct RealGate<R: Clock + Drop> {
    rt: R,
    seconds: u32,
    granted: u64,
    shut: bool,
    ghost bound: { granted ≤ grant_limit },
}

impl<R: Clock + Drop> RealGate<R> {
    /// It pauses not at all, and has granted nothing.
    pub fn new(rt: R) -> RealGate<R>
        ensures counts { (⟦<RealGate<R> as Gate>⟧.seconds result ≡ 0) × (⟦<RealGate<R> as Gate>⟧.granted result ≡ 0) }
        ensures open_ { ⟦<RealGate<R> as Gate>⟧.shut result ≡ false }
    {
        RealGate {
            rt,
            seconds: 0,
            granted: 0,
            shut: false,
        }
    }
}

impl<R: Clock + Drop> Gate for RealGate<R> {
    ghost seconds = { λ s. s.seconds };

    ghost granted = { λ s. s.granted };

    ghost shut = { λ s. s.shut };

    fn every(&mut self, pause: u32) {
        self.seconds = pause;
    }

    fn turn(&mut self) -> bool {
        if self.granted == GRANT_LIMIT {
            self.shut = true;
            return false;
        }
        if self.seconds > 0 {
            thread::sleep(&self.rt, Duration::from_secs(u64::from(self.seconds)));
        }
        self.granted += 1;
        true
    }

    ghost within = { λ s. s.bound };
}
