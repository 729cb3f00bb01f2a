//! The reader of a feed, piece by piece.
ghost use Rattle.std.specs.Prelude.{ℕ, List, [], ◌∷◌, ◌++◌};
ghost use Rattle.edr_feed.specs.Readings.{IsPlain, HasRead, IsReading, TakesLine, ReadsOn, GoesOn, Ends};

use crate::faults::FeedFault;
use crate::steps::{Drafting, do_line};
use edr_base::{FEED_LIMIT, LINE_LIMIT, cut_at};
use edr_draft::Draft;
use std::alloc::Global;

/// How far a feed was read: what its lines made, and the line that goes on.
#[derive(Drop)]
pub struct Reading {
    /// What the ended lines made.
    pub made: Drafting,
    /// The line that goes on, or its first `LINE_LIMIT + 1` bytes where it is longer.
    pub line: Vec<u8>,
    /// How many bytes that line has.
    pub length: usize,
    /// Its number, from 1.
    pub number: usize,
    /// How many bytes the ended lines have, with their line feeds.
    pub ended: usize,
}

/// Nothing was read yet.
pub fn begin(alloc: Global) -> Reading
    ensures { HasRead [] result }
{
    Reading {
        made: Drafting {
            draft: Draft::empty(alloc),
            editions: Vec::new(alloc),
            behind: 0,
        },
        line: Vec::new(alloc),
        length: 0,
        number: 1,
        ended: 0,
    }
}

// A part of a line.
fn go_on(now: &mut Reading, part: &[u8]) -> Result<(), FeedFault>
    requires reading { IsReading now.old }
    requires plain { IsPlain part.now }
    ensures read { (bytes : List ℕ) → HasRead bytes now.old → ReadsOn result (bytes ++ part.now) now.new }
    ensures on { GoesOn now.old.number result now.new.number }
{
    if part.len() > FEED_LIMIT - now.ended - now.length {
        return Err(FeedFault::TooLong);
    }
    let room = LINE_LIMIT + 1 - now.line.len();
    let kept = &part[..part.len().min(room)];
    now.line.extend_from_slice(kept)?;
    now.length += part.len();
    Ok(())
}

// Does the line that goes on, as it stands.
fn take_line(alloc: Global, now: &mut Reading) -> Result<(), FeedFault>
    ensures takes { TakesLine now.old result now.new }
    ensures on { GoesOn now.old.number result now.new.number }
{
    match do_line(alloc, &mut now.made, &now.line) {
        Ok(()) => Ok(()),
        Err(fault) => Err(fault.at(now.number)),
    }
}

// The line ends with a line feed.
fn end_line(alloc: Global, now: &mut Reading) -> Result<(), FeedFault>
    requires { IsReading now.old }
    ensures read { (bytes : List ℕ) → HasRead bytes now.old → ReadsOn result (bytes ++ 10 ∷ []) now.new }
    ensures on { GoesOn now.old.number result now.new.number }
{
    if now.ended + now.length == FEED_LIMIT {
        return Err(FeedFault::TooLong);
    }
    take_line(alloc, now)?;
    now.ended += now.length + 1;
    now.number += 1;
    now.line.clear();
    now.length = 0;
    Ok(())
}

/// Some more bytes.
pub fn read_on(alloc: Global, now: &mut Reading, piece: &[u8]) -> Result<(), FeedFault>
    requires { IsReading now.old }
    ensures read { (bytes : List ℕ) → HasRead bytes now.old → ReadsOn result (bytes ++ piece.now) now.new }
    ensures on { GoesOn now.old.number result now.new.number }
{
    let mut rest = piece;
    while let Some((part, behind)) = cut_at(rest, b'\n') {
        go_on(now, part)?;
        end_line(alloc, now)?;
        rest = behind;
    }
    go_on(now, rest)
}

/// The feed ends: what its lines made.
pub fn end(alloc: Global, mut now: Reading) -> Result<Drafting, FeedFault>
    ensures stands { (bytes : List ℕ) → HasRead bytes now → Ends bytes result }
    ensures on { GoesOn now.number result now.number }
{
    take_line(alloc, &mut now)?;
    if now.made.editions.is_empty() {
        return Err(FeedFault::NothingPublished);
    }
    Ok(now.made)
}
