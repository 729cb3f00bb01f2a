//! What is held of the bytes of a reply.
ghost use Rattle.std.specs.Prelude.{◌≡◌, ◌≤◌, ◌<◌, ◌+◌, ◌-◌, ℕ, List, [], ◌++◌, length, take, drop, slice_range, IfOk, OnOk, OnErr, IsErrOf};
ghost use Rattle.std.specs.Io.KnownBytes.{prepend_known, IsAtEnd};
ghost use Rattle.edr_base.specs.Outside.{Rose};
ghost use Rattle.edr_base.specs.Calls.{SourceLent, Reads, buffer_size};
ghost use Rattle.edr_reply.specs.declared.held.PartFault.TheVariants.{ReadFault, OutOfMemory as PartWantsMemory};

use edr_base::{BUFFER_SIZE, Failed, Source};
use std::alloc::AllocError;
use std::marker::Model;

/// Why a part of a reply wasn't taken.
#[derive(Clone, Copy, Debug, PartialEq, Eq)]
pub(crate) enum PartFault {
    /// It isn't there, or isn't there whole.
    Lacking,
    /// The source failed, and counted it.
    ReadFault,
    /// Memory was wanting.
    OutOfMemory,
}

impl From<Failed> for PartFault {
    ghost from_gives = { λ _ fault. fault ≡ ReadFault };

    fn from(_: Failed) -> PartFault {
        PartFault::ReadFault
    }
}

impl From<AllocError> for PartFault {
    ghost from_gives = { λ _ fault. fault ≡ PartWantsMemory };

    fn from(_: AllocError) -> PartFault {
        PartFault::OutOfMemory
    }
}

/// Bytes that were read and not taken yet, at most 16,384, seen as a list. They stand between others in one memory, so that
/// nothing moves where the first are taken.
#[derive(Debug, Drop)]
pub(crate) struct Held {
    memory: [u8; BUFFER_SIZE],
    start: usize,
    end: usize,
}

impl Model for Held {
    ghost use Rattle.std.specs.Prelude.{ℕ, List, slice_range, ◌≤◌};
    ghost use Rattle.edr_base.specs.Calls.{buffer_size};

    ghost Value = { List ℕ };

    ghost view = { λ held. slice_range held.memory held.start held.end };

    ghost invariant = { λ held. (held.start ≤ held.end) × (held.end ≤ buffer_size) };
}

// Moves some bytes to the front.
fn move_to_front(memory: &mut [u8], start: usize, end: usize)
    requires { (start ≤ end) × (end ≤ length memory.old) }
    ensures moved { take (end - start) memory.new ≡ slice_range memory.old start end }
    ensures len { length memory.new ≡ length memory.old }
{
    if start != 0 {
        memory.copy_within(start..end, 0);
    }
}

// Reads behind the first bytes.
fn read_behind<S: Source>(source: &mut S, memory: &mut [u8], size: usize) -> Result<usize, Failed>
    requires { size < length memory.old }
    ensures bound { IfOk result (λ n. size + n ≤ length memory.old) }
    ensures rest { IfOk result (λ n. prepend_known (take (size + n) memory.new) (S.left source.new) ≡ prepend_known (take size memory.old) (S.left source.old)) }
    ensures ended { IfOk result (λ n. n ≡ 0 → IsAtEnd (S.left source.new)) }
    ensures kept { take size memory.new ≡ take size memory.old }
    ensures unread { OnErr result (S.left source.new ≡ S.left source.old) }
    ensures lent { SourceLent (S.aside source.old) (S.aside source.new) (S.faults source.old) (S.faults source.new) }
    ensures cause { OnErr result (Rose (S.faults source.old) (S.faults source.new)) }
{
    source.read(&mut memory[size..])
}

impl Held {
    /// Nothing.
    pub(crate) fn new() -> Held
        ensures { result ≡ [] }
    {
        Held {
            memory: [0; BUFFER_SIZE],
            start: 0,
            end: 0,
        }
    }

    /// The bytes.
    pub(crate) fn bytes(&self) -> &[u8]
        ensures same { result.now ≡ self.now }
        ensures few { length result.now ≤ buffer_size }
    {
        &self.memory[self.start..self.end]
    }

    /// They are at most 16,384.
    pub(crate) fn fits(&self)
        ensures { length self.now ≤ buffer_size }
    {
        let _ = self.bytes();
    }

    /// Takes the first bytes away.
    pub(crate) fn take(&mut self, n: usize)
        requires { n ≤ length self.old }
        ensures { self.new ≡ drop n self.old }
    {
        self.start += n;
    }
}

/// Reads more bytes behind those that are held; `Lacking` is the end of the input.
pub(crate) fn read_on<S: Source>(source: &mut S, held: &mut Held) -> Result<(), PartFault>
    requires { length held.old < buffer_size }
    ensures rest { prepend_known held.new (S.left source.new) ≡ prepend_known held.old (S.left source.old) }
    ensures more { OnOk result (length held.old < length held.new) }
    ensures few { length held.new ≤ buffer_size }
    ensures ended { IsErrOf result PartFault.Lacking → IsAtEnd (S.left source.new) }
    ensures kept { OnErr result (held.new ≡ held.old) }
    ensures memory { ¬ (IsErrOf result PartFault.OutOfMemory) }
    ensures lent { SourceLent (S.aside source.old) (S.aside source.new) (S.faults source.old) (S.faults source.new) }
    ensures cause { IsErrOf result PartFault.ReadFault → Rose (S.faults source.old) (S.faults source.new) }
{
    move_to_front(&mut held.memory, held.start, held.end);
    held.end -= held.start;
    held.start = 0;
    let count = read_behind(source, &mut held.memory, held.end)?;
    if count == 0 {
        return Err(PartFault::Lacking);
    }
    held.end += count;
    Ok(())
}
