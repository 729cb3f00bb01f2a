//! Segments of a line that are the same as one before.
ghost use Rattle.std.specs.Prelude.{◌≡◌, ◌+◌, ◌<◌, true, length, IfOk};
ghost use Rattle.edr_corridor.specs.Repeats.{IsRepeat, AreRepeats};

use edr_base::{OutOfMemory, Position};
use std::alloc::Global;

// Whether two positions are the same.
fn are_same(one: &Position, other: &Position) -> bool
    ensures { result ≡ true → one.now ≡ other.now }
{
    one.x == other.x && one.y == other.y && one.z == other.z && one.m == other.m
}

// Whether the segment of a number, from 0, is the same as one before.
fn is_repeat(line: &[Position], number: usize) -> bool
    requires { number + 1 < length line.now }
    ensures { result ≡ true → IsRepeat line.now number }
{
    for before in 0..number {
        if are_same(&line[before], &line[number])
            && are_same(&line[before + 1], &line[number + 1])
        {
            return true;
        }
    }
    false
}

/// For each segment of a line whether it is the same as one before, or want of memory.
pub fn repeats_of(alloc: Global, line: &[Position]) -> Result<Vec<bool>, OutOfMemory>
    requires { 0 < length line.now }
    ensures { IfOk result (λ repeats. AreRepeats line.now repeats.items) }
{
    let mut repeats = Vec::new(alloc);
    for number in 0..line.len() - 1 {
        repeats.push(is_repeat(line, number))?;
    }
    Ok(repeats)
}
