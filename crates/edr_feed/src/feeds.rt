//! Feeds.
ghost use Rattle.std.specs.Prelude.{◌≡◌, ◌+◌, IfOk, IfErr, IfSome, OnOk, IsErrOf, Ok, Err};
ghost use Rattle.std.specs.Io.KnownBytes.{IsAtEnd};
ghost use Rattle.edr_base.specs.Calls.{SourceLent, ReadsAtMost, buffer_size};
ghost use Rattle.edr_base.specs.Limits.{feed_limit};
ghost use Rattle.edr_base.specs.Outside.{Rose};
ghost use Rattle.edr_edition.specs.Shelves.{IsLog};
ghost use Rattle.edr_feed.specs.Feeds.{FeedStandsIn, LeavesBehindIn, InnerStandsIn, ReadsToLine, FeedsHaveOneAnswer};
ghost use Rattle.edr_feed.specs.Readings.{ReadsWhole};
ghost use Rattle.edr_feed.specs.Refusals.{refusal_of, line_of};

use crate::faults::FeedFault;
use crate::forms::trees_have_one_form;
use crate::reading::{Reading, begin, end, read_on};
use edr_base::{BUFFER_SIZE, Items, Source};
use edr_draft::changes_have_one_outcome;
use edr_edition::Edition;
use edr_json::texts_have_one_tree;
use std::alloc::Global;

/// What a feed published.
#[derive(Drop)]
pub struct Feed {
    /// Its editions, at least one, numbered from 1.
    pub editions: Items<Edition>,
    /// How many of its lines make changes behind its last publish.
    pub behind: u64,
}

// All that a source gives.
fn read_whole<S: Source>(alloc: Global, source: &mut S) -> Result<Reading, FeedFault>
    ensures read { IfOk result (λ now. ReadsWhole (S.left source.old) (S.left source.new) now) }
    ensures fault { IfErr result (λ fault. IfSome (refusal_of fault) (λ refusal. FeedStandsIn (S.left source.old) (Err refusal))) }
    ensures inner { IfErr result (λ fault. InnerStandsIn (S.left source.old) fault) }
    ensures bounded { ReadsAtMost (feed_limit + buffer_size) (S.left source.old) (S.left source.new) }
    ensures behind { IfErr result (λ fault. IfSome (line_of fault) (λ line. ReadsToLine (S.left source.old) (S.left source.new) line)) }
    ensures lent { SourceLent (S.aside source.old) (S.aside source.new) (S.faults source.old) (S.faults source.new) }
    ensures cause { IsErrOf result FeedFault.ReadFault → Rose (S.faults source.old) (S.faults source.new) }
{
    let mut now = begin(alloc);
    let mut buffer = [0u8; BUFFER_SIZE];
    loop {
        let count = source.read(&mut buffer)?;
        if count == 0 {
            return Ok(now);
        }
        read_on(alloc, &mut now, &buffer[..count])?;
    }
}

/// Reads a feed to its end: line by line changes of a draft, and with each publish the next edition. The first line at
/// fault ends it.
///
/// A line's fault counts only if its line feed, or the end of the feed, lies within the first `edr_base::FEED_LIMIT` bytes; a
/// longer feed is else TooLong. Lines are read as they come, one at a time. Whatever is answered, at most
/// `edr_base::FEED_LIMIT` and 16,384 bytes were taken from the source, and the others are left; where a line is at fault, at
/// most the lines up to it and 16,384 bytes more.
pub fn read_feed<S: Source>(alloc: Global, source: &mut S) -> Result<Feed, FeedFault>
    ensures editions { IfOk result (λ feed. FeedStandsIn (S.left source.old) (Ok feed.editions)) }
    ensures lines { IfOk result (λ feed. LeavesBehindIn (S.left source.old) feed.behind) }
    ensures fault { IfErr result (λ fault. IfSome (refusal_of fault) (λ refusal. FeedStandsIn (S.left source.old) (Err refusal))) }
    ensures inner { IfErr result (λ fault. InnerStandsIn (S.left source.old) fault) }
    ensures log { IfOk result (λ feed. IsLog feed.editions) }
    ensures ended { OnOk result (IsAtEnd (S.left source.new)) }
    ensures bounded { ReadsAtMost (feed_limit + buffer_size) (S.left source.old) (S.left source.new) }
    ensures behind { IfErr result (λ fault. IfSome (line_of fault) (λ line. ReadsToLine (S.left source.old) (S.left source.new) line)) }
    ensures lent { SourceLent (S.aside source.old) (S.aside source.new) (S.faults source.old) (S.faults source.new) }
    ensures cause { IsErrOf result FeedFault.ReadFault → Rose (S.faults source.old) (S.faults source.new) }
{
    let now = read_whole(alloc, source)?;
    let made = end(alloc, now)?;
    Ok(Feed {
        editions: Items::of(made.editions),
        behind: made.behind,
    })
}

/// Bytes are at most one feed, or have one first refusal.
pub fn feeds_have_one_answer()
    ensures { FeedsHaveOneAnswer }
{
    texts_have_one_tree();
    trees_have_one_form();
    changes_have_one_outcome();
}
