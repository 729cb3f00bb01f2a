//! What hands out connections, and takes them back when they were served.
ghost use Rattle.std.specs.Prelude.{◌≡◌, ◌≤◌, ◌<◌, ◌+◌, ℕ, Bool, true, false, cond, is_err, OnErr, MatchResult, MatchOption};
ghost use Rattle.edr_base.specs.Outside.{Rose};
ghost use Rattle.edr_serve.specs.Connections.{outcome_of};
ghost use Rattle.edr_console.specs.Limits.{accept_limit};

use edr_base::{Failed, Faults, Sink, Source};
use edr_serve::{Connection, Served};

/// What hands out connections, one after another, and takes each back when it was served.
pub trait Accept: Faults {
    /// What a peer sends.
    type In: Source + Drop + Send;

    /// What is sent to a peer.
    type Out: Sink + Drop + Send;

    /// How many connections it handed out.
    ghost given: { Self → ℕ };

    /// How many of them were handed back.
    ghost finished: { Self → ℕ };

    /// How many of those ended with a fault of their session.
    ghost faulted: { Self → ℕ };

    /// Whether no more connections come.
    ghost over: { Self → Bool };

    /// The next connection, for which it may wait; and `None` where no more come.
    ///
    /// `Failed` is a fault that was counted. A fault of one connection alone is none.
    fn accept(&mut self) -> Result<Option<Connection<Self::In, Self::Out>>, Failed>
        ensures given { MatchResult result
            (λ next. MatchOption next (given self.new ≡ given self.old) (λ _. given self.new ≡ given self.old + 1))
            (λ _. given self.new ≡ given self.old) }
        ensures over { MatchResult result
            (λ next. MatchOption next (over self.new ≡ true) (λ _. over self.new ≡ false))
            (λ _. over self.new ≡ false) }
        ensures kept { (finished self.new ≡ finished self.old) × (faulted self.new ≡ faulted self.old) }
        ensures later { Self.faults self.old ≤ Self.faults self.new }
        ensures cause { OnErr result (Rose (Self.faults self.old) (Self.faults self.new)) };

    /// Takes a connection back that was served.
    fn finish(&mut self, served: Served<Self::In, Self::Out>)
        requires { finished self.old < given self.old }
        ensures finished { finished self.new ≡ finished self.old + 1 }
        ensures faulted { faulted self.new ≡ faulted self.old + cond (is_err (outcome_of served)) 1 0 }
        ensures kept { (given self.new ≡ given self.old) × (over self.new ≡ over self.old) × (Self.faults self.new ≡ Self.faults self.old) };

    ghost within: { (s : Self) → (faulted s ≤ finished s) × (finished s ≤ given s) × (given s ≤ accept_limit) };
}
