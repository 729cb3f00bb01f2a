//! Tells what a feed has.
ghost use Rattle.std.specs.Prelude.{◌≡◌, ◌+◌, [], false, IfOk, OnOk, IsErrOf};
ghost use Rattle.std.specs.Io.KnownBytes.{IsAtEnd};
ghost use Rattle.edr_base.specs.Outside.{Rose};
ghost use Rattle.edr_base.specs.Calls.{SourceLent, SinkLent, ReadsAtMost, WrittenWhole, WrittenInPart, buffer_size};
ghost use Rattle.edr_base.specs.Limits.{feed_limit};
ghost use Rattle.edr.specs.Outputs.{IsTextOfFeed, count_line, summary_lines, told};
ghost use Rattle.edr.specs.Ends.{OutputEnds, IsReadByEnd};
ghost use Rattle.edr.specs.Checking.{CheckCause, fault_ends};
ghost use Rattle.edr.specs.Explaining.{IfAsked, ExplainsFeed};

use crate::endings::Ending;
use crate::explaining::explain_feed;
use edr_base::{OutOfMemory, SendFault, Sink, Source, Text, send, settle};
use edr_edition::Edition;
use edr_feed::{FeedFault, read_feed, summary};
use std::alloc::Global;

/// How a run ends where the feed isn't read.
pub fn ending_of(fault: &FeedFault) -> Ending
    ensures { result ≡ fault_ends fault.now }
{
    match fault.refusal() {
        Some(refusal) => Ending::NotFeed(refusal),
        None => match fault {
            FeedFault::ReadFault => Ending::ReadFault,
            _ => Ending::OutOfMemory,
        },
    }
}

// The line that tells how many editions there are.
fn counted(alloc: Global, editions: &[Edition]) -> Result<Text, OutOfMemory>
    ensures { IfOk result (λ text. text ≡ count_line editions.now) }
{
    let count = editions.len();
    let line = format!(in alloc; "ok: {count} editions\n")?;
    Ok(Text::from_vec(line.into_bytes()))
}

// The lines that tell what each edition has.
fn summarised(alloc: Global, editions: &[Edition]) -> Result<Text, OutOfMemory>
    ensures { IfOk result (λ text. text ≡ summary_lines editions.now) }
{
    let mut lines = Vec::new(alloc);
    for edition in editions {
        lines.extend_from_slice(summary(alloc, edition)?.bytes())?;
    }
    Ok(Text::from_vec(lines))
}

// What is told of the editions.
fn told(alloc: Global, summary: bool, editions: &[Edition]) -> Result<Text, OutOfMemory>
    ensures { IfOk result (λ text. text ≡ told summary editions.now) }
{
    if summary {
        summarised(alloc, editions)
    } else {
        counted(alloc, editions)
    }
}

/// Writes a text whole, and flushes.
pub fn put<K: Sink>(output: &mut K, text: &[u8]) -> Result<(), SendFault>
    ensures whole { OnOk result (WrittenWhole (λ t. t ≡ text.now) (K.written output.old) (K.written output.new) (K.flushed output.new)) }
    ensures part { WrittenInPart (λ t. t ≡ text.now) (K.written output.old) (K.written output.new) }
    ensures lent { SinkLent (K.beside output.old) (K.beside output.new) (K.faults output.old) (K.faults output.new) }
    ensures cause { IsErrOf result SendFault.WriteFault → Rose (K.faults output.old) (K.faults output.new) }
{
    send(output, text)?;
    settle(output)
}

/// Reads the feed on the input, and writes how many editions it has, or what each of them has. Where there is none, and that is
/// asked for, it is explained why.
#[tactic(auto, using(crate::proofs::ExplainLemmas::if_asked, crate::proofs::ExplainLemmas::feed_is_explained))]
pub fn check<S: Source, K: Sink>(
    alloc: Global,
    summary: bool,
    why: bool,
    input: &mut S,
    output: &mut K,
    explained: &mut Text,
) -> Ending
    requires { explained.old ≡ [] }
    ensures output { OutputEnds result false (IsTextOfFeed (told summary) (S.left input.old)) (IsTextOfFeed (told summary) (S.left input.old))
        (K.written output.old) (K.written output.new) (K.flushed output.new) }
    ensures cause { CheckCause result (S.left input.old) (S.faults input.old) (S.faults input.new) (K.faults output.old) (K.faults output.new) }
    ensures explains { IfAsked why (ExplainsFeed result (S.left input.old)) explained.new }
    ensures ended { IsReadByEnd result (IsAtEnd (S.left input.new)) }
    ensures read { ReadsAtMost (feed_limit + buffer_size) (S.left input.old) (S.left input.new) }
    ensures input { SourceLent (S.aside input.old) (S.aside input.new) (S.faults input.old) (S.faults input.new) }
    ensures lent { SinkLent (K.beside output.old) (K.beside output.new) (K.faults output.old) (K.faults output.new) }
{
    let feed = match read_feed(alloc, input) {
        Ok(feed) => feed,
        Err(fault) => {
            if explain_feed(alloc, why, &fault, explained).is_err() {
                return Ending::OutOfMemory;
            }
            return ending_of(&fault);
        }
    };
    let Ok(text) = told(alloc, summary, feed.editions.items()) else {
        return Ending::OutOfMemory;
    };
    match put(output, text.bytes()) {
        Ok(()) => Ending::Done,
        Err(SendFault::WriteFault) => Ending::WriteFault,
        Err(SendFault::OutOfMemory) => Ending::OutOfMemory,
    }
}
