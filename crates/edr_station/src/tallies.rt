//! How many samples there are, and their sum.
ghost use Rattle.std.specs.Prelude.{◌≡◌, ◌∷◌, [], IfOk, IfSome};
ghost use Rattle.edr_station.specs.Tallies.{tally_of, and_of, TalliesAddUp};

use edr_base::OutOfMemory;

/// How many samples there are, how many of them aren't missing, and the sum of those. The numbers are exact.
#[derive(Clone, Copy, Debug, PartialEq, Eq)]
pub struct Tally {
    /// The samples, missing ones too.
    pub samples: u64,
    /// The samples that aren't missing.
    pub present: u64,
    /// The sum of those.
    pub sum: i128,
}

impl Tally {
    /// Of no samples. It takes no memory.
    pub fn none() -> Tally
        ensures { result ≡ tally_of [] }
    {
        Tally {
            samples: 0,
            present: 0,
            sum: 0,
        }
    }

    // With one sample more.
    fn with(self, sample: Option<i64>) -> Option<Tally>
        ensures { IfSome result (λ tally. tally ≡ and_of self (tally_of (sample ∷ []))) }
    {
        let samples = self.samples.checked_add(1)?;
        match sample {
            Some(number) => Some(Tally {
                samples,
                present: self.present.checked_add(1)?,
                sum: self.sum.checked_add(number as i128)?,
            }),
            None => Some(Tally { samples, ..self }),
        }
    }

    /// With some samples more. Want of memory, its only error, stands for a count or a sum above what can be held.
    pub fn with_all(self, samples: &[Option<i64>]) -> Result<Tally, OutOfMemory>
        ensures { IfOk result (λ tally. tally ≡ and_of self (tally_of samples.now)) }
    {
        let mut tally = self;
        for sample in samples {
            tally = tally.with(*sample).ok_or(OutOfMemory)?;
        }
        Ok(tally)
    }

    /// Of these samples and those of another tally. Want of memory, its only error, stands for a count or a sum above what
    /// can be held.
    pub fn and(self, other: Tally) -> Result<Tally, OutOfMemory>
        ensures { IfOk result (λ tally. tally ≡ and_of self other) }
    {
        self.with_tally(other).ok_or(OutOfMemory)
    }

    // The same, or None where a count or the sum is above what can be held.
    fn with_tally(self, other: Tally) -> Option<Tally>
        ensures { IfSome result (λ tally. tally ≡ and_of self other) }
    {
        let samples = self.samples.checked_add(other.samples)?;
        let present = self.present.checked_add(other.present)?;
        let sum = self.sum.checked_add(other.sum)?;
        Some(Tally {
            samples,
            present,
            sum,
        })
    }
}

/// The tally of samples one after the other is that of both parts together.
pub fn tallies_add_up()
    ensures { TalliesAddUp }
{}
