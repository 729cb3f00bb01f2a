//! What lines make of a draft, and of the editions before it.
ghost use Rattle.std.specs.Prelude.{◌≡◌, ◌↔◌, IfErr, IsTrue, OnOk};
ghost use Rattle.edr_feed.specs.Forms.{IsEntry};
ghost use Rattle.edr_feed.specs.Steps.{published};
ghost use Rattle.edr_feed.specs.Readings.{progress_of, is_bare, DoesEntry, DoesLine};

use crate::entries::Entry;
use crate::faults::LineFault;
use crate::lines::{is_blank_line, line_says};
use edr_draft::{Change, Draft};
use edr_edition::Edition;
use std::alloc::Global;
use std::mem;

/// A draft, the editions that were published before it, and how many changes were made since.
#[derive(Drop)]
pub struct Drafting {
    /// The collections of the next edition.
    pub draft: Draft,
    /// The editions, in the order of their numbers.
    pub editions: Vec<Edition>,
    /// It stands still at 18,446,744,073,709,551,615.
    pub behind: u64,
}

// The draft becomes the next edition, and goes on.
fn publish(alloc: Global, now: &mut Drafting) -> Result<(), LineFault>
    ensures made { OnOk result (progress_of now.new ≡ published (progress_of now.old)) }
    ensures fault { IfErr result (λ fault. fault ≡ LineFault.OutOfMemory) }
{
    let draft = mem::replace(&mut now.draft, Draft::empty(alloc));
    let edition = draft.finish(now.editions.len() as u64 + 1);
    now.draft = Draft::from_edition(alloc, &edition)?;
    now.editions.push(edition)?;
    now.behind = 0;
    Ok(())
}

fn is_bare(change: &Change) -> bool
    ensures { result ≡ is_bare change.now }
{
    matches!(change, Change::Bare(_))
}

// Does what a line says.
fn do_entry(alloc: Global, now: &mut Drafting, entry: Entry) -> Result<(), LineFault>
    requires { IsEntry entry }
    ensures { DoesEntry (progress_of now.old) entry result (progress_of now.new) }
{
    match entry {
        Entry::Change(change) => {
            let bare = is_bare(&change);
            now.draft.apply(change)?;
            now.behind = now.behind.saturating_add(1);
            if bare { publish(alloc, now) } else { Ok(()) }
        }
        Entry::Publish => publish(alloc, now),
    }
}

/// Does a line.
pub fn do_line(alloc: Global, now: &mut Drafting, line: &[u8]) -> Result<(), LineFault>
    ensures { DoesLine line.now (progress_of now.old) result (progress_of now.new) }
{
    // most of a long feed of short lines may be blank
    if is_blank_line(line) {
        return Ok(());
    }
    let said = line_says(alloc, line)?;
    match said {
        Some(entry) => do_entry(alloc, now, entry),
        None => Ok(()),
    }
}
