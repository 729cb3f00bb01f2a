//! What lies between the least and the greatest of some samples.
ghost use Rattle.std.specs.Prelude.{◌≡◌, ◌≤ℤ◌, ◌↔◌, IsTrue, All};
ghost use Rattle.edr_base.specs.Limits.{IsSample, HasSample, AreSamples};
ghost use Rattle.edr_chunk.specs.Codes.{IsBetween, AreBetween};

use edr_base::SAMPLE_LIMIT;

const GREATEST: i64 = SAMPLE_LIMIT as i64;

/// The least and the greatest sample. Where there is none, the least is the greater one.
#[derive(Clone, Copy)]
pub struct Span {
    pub least: i64,
    pub greatest: i64,
}

impl Span {
    /// The span with one sample more. It takes no memory.
    fn with(self, value: Option<i64>) -> Span
        requires sample { HasSample value }
        requires least { IsSample self.least }
        requires greatest { IsSample self.greatest }
        ensures between { IsBetween result.least result.greatest value }
        ensures low { result.least ≤ℤ self.least }
        ensures high { self.greatest ≤ℤ result.greatest }
        ensures least { IsSample result.least }
        ensures greatest { IsSample result.greatest }
    {
        match value {
            Some(sample) => Span {
                least: self.least.min(sample),
                greatest: self.greatest.max(sample),
            },
            None => self,
        }
    }
}

/// The span of some samples. It takes no memory.
pub fn span_of(values: &[Option<i64>]) -> Span
    requires { AreSamples values.now }
    ensures between { AreBetween result.least result.greatest values.now }
    ensures least { IsSample result.least }
    ensures greatest { IsSample result.greatest }
{
    let mut span = Span {
        least: GREATEST,
        greatest: -GREATEST,
    };
    for value in values {
        span = span.with(*value);
    }
    span
}

// Whether a sample is another.
fn is_same(value: Option<i64>, sample: Option<i64>) -> bool
    ensures { IsTrue result ↔ (value ≡ sample) }
{
    value == sample
}

/// Whether each of some samples is this one. It takes no memory.
pub fn are_all(values: &[Option<i64>], sample: Option<i64>) -> bool
    ensures { IsTrue result ↔ All (λ value. value ≡ sample) values.now }
{
    values.iter().all(|value| is_same(*value, sample))
}
