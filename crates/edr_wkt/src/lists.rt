//! Lists of positions.
ghost use Rattle.std.specs.Prelude.{◌≡◌, ◌≤◌, ◌<◌, ◌++◌, ◌∷◌, [], ◌+◌, IfOk, OnOk, Err};
ghost use Rattle.edr_base.specs.Limits.{position_limit};
ghost use Rattle.edr_wkt.specs.Grammar.{IsMember};
ghost use Rattle.edr_wkt.specs.Reads.{ArePositions, HasNoItems};

use crate::positions::read_member;
use crate::words::read_mark;
use edr_base::{Items, OutOfMemory, POSITION_LIMIT, Position};
use std::alloc::Global;

// Positions are counted up to one beyond the limit.
const MOST_COUNTED: usize = POSITION_LIMIT + 1;

/// Why a piece wasn't read.
pub enum Stop {
    /// The text isn't in the grammar.
    NotWkt,
    /// Memory was wanting.
    OutOfMemory,
}

impl From<OutOfMemory> for Stop {
    ghost use Rattle.edr_wkt.specs.declared.lists.Stop.TheVariants as stops;

    ghost from_gives = { λ _ stop. stop ≡ stops.OutOfMemory };

    fn from(_: OutOfMemory) -> Stop {
        Stop::OutOfMemory
    }
}

/// Keeps an item behind the others, unless the count of positions is beyond the limit.
pub fn keep<T: Drop>(items: &mut Vec<T>, item: T, count: usize) -> Result<(), OutOfMemory>
    ensures kept { OnOk result (count ≤ position_limit → items.new.items ≡ items.old.items ++ item ∷ []) }
    ensures full { position_limit < count → items.new.items ≡ items.old.items }
{
    if count <= POSITION_LIMIT {
        items.push(item)?;
    }
    Ok(())
}

/// The positions of a list, how many there are up to four, and what stands behind the list.
pub fn read_positions<'a>(
    alloc: Global,
    multi: bool,
    has_z: bool,
    has_m: bool,
    text: &'a [u8],
    count: &mut usize,
) -> Result<(Items<Position>, usize, &'a [u8]), Stop>
    requires { count.old ≤ position_limit + 1 }
    ensures read { IfOk result (λ r. ArePositions multi has_z has_m text.now count.old count.new r.0 r.1 r.2.now) }
    ensures not_wkt { result ≡ Err Stop.NotWkt → HasNoItems (IsMember multi has_z has_m) text.now }
{
    let mut positions = Vec::new(alloc);
    let mut len: usize = 0;
    let mut rest = text;
    'members: loop {
        let Some((position, after)) = read_member(multi, has_z, has_m, rest) else {
            return Err(Stop::NotWkt);
        };
        *count = count.saturating_add(1).min(MOST_COUNTED);
        len = len.saturating_add(1).min(4);
        keep(&mut positions, position, *count)?;
        let Some((mark, next)) = read_mark(after) else {
            return Err(Stop::NotWkt);
        };
        if mark == b')' {
            return Ok((Items::of(positions), len, next));
        }
        if mark != b',' {
            return Err(Stop::NotWkt);
        }
        rest = next;
    }
}
