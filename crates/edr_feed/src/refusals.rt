//! Why bytes are no feed.
ghost use Rattle.std.specs.Prelude.{◌≡◌};
ghost use Rattle.edr_feed.specs.Refusals.{refusal_of};

use crate::faults::FeedFault;

/// Why bytes are no feed, as a program tells it: the fault of the feed without the fault inside the line.
#[derive(Clone, Copy, Debug, PartialEq, Eq)]
pub enum FeedRefusal {
    /// The feed has more than `edr_base::FEED_LIMIT` bytes, and no line that ends within them is at fault.
    TooLong,
    /// The line has more than `edr_base::LINE_LIMIT` bytes.
    LineTooLong(usize),
    /// The line isn't JSON.
    NotJson(usize),
    /// The line has none of the forms of a line.
    NotFeedLine(usize),
    /// The line's coverage isn't one of CoverageJSON.
    Cov(usize),
    /// The line's change can't be made.
    Change(usize),
    /// No line publishes.
    NothingPublished,
}

impl FeedFault {
    /// Why the bytes are no feed; None where the source failed, or memory was wanting.
    pub fn refusal(&self) -> Option<FeedRefusal>
        ensures { result ≡ refusal_of self.now }
    {
        match self {
            FeedFault::TooLong => Some(FeedRefusal::TooLong),
            FeedFault::LineTooLong(line) => Some(FeedRefusal::LineTooLong(*line)),
            FeedFault::NotJson(line) => Some(FeedRefusal::NotJson(*line)),
            FeedFault::NotFeedLine(line) => Some(FeedRefusal::NotFeedLine(*line)),
            FeedFault::Cov(line, _) => Some(FeedRefusal::Cov(*line)),
            FeedFault::Change(line, _) => Some(FeedRefusal::Change(*line)),
            FeedFault::NothingPublished => Some(FeedRefusal::NothingPublished),
            FeedFault::ReadFault | FeedFault::OutOfMemory => None,
        }
    }
}
