//! What says when the next edition is to be published.
ghost use Rattle.std.specs.Prelude.{◌≡◌, ◌≤◌, ◌+◌, ℕ, Bool, true, false, cond, not};
ghost use Rattle.edr_console.specs.Limits.{grant_limit};

/// What says when the next edition is to be published.
pub trait Gate {
    /// How long it pauses before each turn, in seconds.
    ghost seconds: { Self → ℕ };

    /// How often it said that an edition is to be published.
    ghost granted: { Self → ℕ };

    /// Whether it said last that none is.
    ghost shut: { Self → Bool };

    /// From now on it pauses so many seconds before each turn.
    fn every(&mut self, pause: u32)
        ensures seconds { seconds self.new ≡ pause }
        ensures kept { (granted self.new ≡ granted self.old) × (shut self.new ≡ shut self.old) };

    /// Whether the next edition is to be published. It may wait.
    fn turn(&mut self) -> bool
        requires { shut self.old ≡ false }
        ensures granted { granted self.new ≡ granted self.old + cond result 1 0 }
        ensures shut { shut self.new ≡ not result }
        ensures kept { seconds self.new ≡ seconds self.old };

    ghost within: { (s : Self) → granted s ≤ grant_limit };
}
