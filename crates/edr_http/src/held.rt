//! What is held of the bytes of a connection.
ghost use Rattle.std.specs.Prelude.{◌≡◌, ◌≤◌, ◌+◌, ◌-◌, [], length, take, drop, slice_range, vec_len, IfOk, OnOk, OnErr, IsErrOf};
ghost use Rattle.std.specs.Io.KnownBytes.{prepend_known};
ghost use Rattle.edr_base.specs.Outside.{Rose};
ghost use Rattle.edr_base.specs.Calls.{SourceLent};
ghost use Rattle.edr_http.specs.Heads.{block_size};
ghost use Rattle.edr_http.specs.Finding.{Grew};

use crate::heads::HeadFault;
use edr_base::{Failed, Source};
use std::alloc::{AllocError, Global};
use std::marker::Model;

// The bytes that are read at once.
const BLOCK_SIZE: usize = 4096;

/// Bytes that were read and not used, seen as a list. Others stand before them and behind them in the same memory, so that
/// nothing moves where the first are used, and a block is read to its place.
#[derive(Debug, Drop)]
pub(crate) struct Held {
    memory: Vec<u8>,
    start: usize,
    end: usize,
}

impl Model for Held {
    ghost use Rattle.std.specs.Prelude.{ℕ, List, length, slice_range, ◌≤◌};

    ghost Value = { List ℕ };

    ghost view = { λ held. slice_range held.memory.items held.start held.end };

    ghost invariant = { λ held. (held.start ≤ held.end) × (held.end ≤ length held.memory.items) };
}

impl Held {
    /// Nothing. It takes no memory.
    pub(crate) fn new(alloc: Global) -> Held
        ensures { result ≡ [] }
    {
        Held {
            memory: Vec::new(alloc),
            start: 0,
            end: 0,
        }
    }

    /// The bytes.
    pub(crate) fn bytes(&self) -> &[u8]
        ensures { result.now ≡ self.now }
    {
        &self.memory[self.start..self.end]
    }

    /// Takes the first bytes away.
    pub(crate) fn take(&mut self, n: usize)
        requires { n ≤ length self.old }
        ensures { self.new ≡ drop n self.old }
    {
        self.start += n;
    }
}

// Moves some bytes to the front.
fn move_to_front(memory: &mut Vec<u8>, start: usize, end: usize)
    requires { (start ≤ end) × (end ≤ vec_len memory.old) }
    ensures moved { take (end - start) memory.new.items ≡ slice_range memory.old.items start end }
    ensures len { vec_len memory.new ≡ vec_len memory.old }
{
    if start != 0 {
        memory.copy_within(start..end, 0);
    }
}

// Makes room for one block behind the first bytes.
fn make_room(memory: &mut Vec<u8>, size: usize) -> Result<(), AllocError>
    requires { size ≤ vec_len memory.old }
    ensures kept { take size memory.new.items ≡ take size memory.old.items }
    ensures len { vec_len memory.old ≤ vec_len memory.new }
    ensures room { OnOk result (size + block_size ≤ vec_len memory.new) }
{
    let room = memory.len() - size;
    if room < BLOCK_SIZE {
        memory.try_reserve(BLOCK_SIZE - room)?;
        memory.resize(size + BLOCK_SIZE, 0)?;
    }
    Ok(())
}

// Reads one block behind the first bytes.
fn read_behind<S: Source>(source: &mut S, memory: &mut [u8], size: usize) -> Result<usize, Failed>
    requires { size + block_size ≤ length memory.old }
    ensures bound { IfOk result (λ n. n ≤ block_size) }
    ensures grew { IfOk result (λ n. Grew (take size memory.old) (take (size + n) memory.new) n (S.left source.new)) }
    ensures rest { IfOk result (λ n. prepend_known (take (size + n) memory.new) (S.left source.new) ≡ prepend_known (take size memory.old) (S.left source.old)) }
    ensures unread { OnErr result ((take size memory.new ≡ take size memory.old) × (S.left source.new ≡ S.left source.old)) }
    ensures lent { SourceLent (S.aside source.old) (S.aside source.new) (S.faults source.old) (S.faults source.new) }
    ensures cause { OnErr result (Rose (S.faults source.old) (S.faults source.new)) }
{
    source.read(&mut memory[size..size + BLOCK_SIZE])
}

/// Reads one block behind what is held, which moves to the front of its memory before.
pub(crate) fn read_more<S: Source>(source: &mut S, held: &mut Held) -> Result<usize, HeadFault>
    ensures rest { prepend_known held.new (S.left source.new) ≡ prepend_known held.old (S.left source.old) }
    ensures grew { IfOk result (λ n. (n ≤ block_size) × Grew held.old held.new n (S.left source.new)) }
    ensures bounded { length held.new ≤ length held.old + block_size }
    ensures unread { OnErr result (held.new ≡ held.old) }
    ensures lent { SourceLent (S.aside source.old) (S.aside source.new) (S.faults source.old) (S.faults source.new) }
    ensures cause { IsErrOf result HeadFault.ReadFault → Rose (S.faults source.old) (S.faults source.new) }
{
    move_to_front(&mut held.memory, held.start, held.end);
    held.end -= held.start;
    held.start = 0;
    make_room(&mut held.memory, held.end)?;
    let n = read_behind(source, &mut held.memory, held.end)?;
    held.end += n;
    Ok(n)
}
