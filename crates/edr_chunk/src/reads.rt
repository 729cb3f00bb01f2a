//! The numbers of the chunks that were opened.
ghost use Rattle.std.specs.Prelude.{◌≡◌, ◌++◌, ◌∷◌, [], IfOk, OnOk, OnErr};

use crate::Packed;
use edr_base::OutOfMemory;
use std::alloc::Global;
use std::marker::Model;

/// The numbers of the chunks that were opened, in the order in which they were: a list that only grows.
#[derive(Drop)]
pub struct Reads {
    numbers: Vec<u64>,
}

impl Model for Reads {
    ghost use Rattle.std.specs.Prelude.{ℕ, List};

    ghost Value = { List ℕ };

    ghost view = { λ r. r.numbers.items };
}

impl Reads {
    /// A list of none. It takes no memory.
    pub fn new(alloc: Global) -> Reads
        ensures { result ≡ [] }
    {
        Reads {
            numbers: Vec::new(alloc),
        }
    }

    /// The list. It takes no memory.
    pub fn numbers(&self) -> &[u64]
        ensures { result.now ≡ self.now }
    {
        self.numbers.as_slice()
    }

    // One number more, or want of memory. Of this crate alone.
    pub(crate) fn append(&mut self, number: u64) -> Result<(), OutOfMemory>
        ensures ok { OnOk result (self.new ≡ self.old ++ number ∷ []) }
        ensures err { OnErr result (self.new ≡ self.old) }
    {
        Ok(self.numbers.push(number)?)
    }
}

/// The samples of a packed list, or want of memory. Its number is appended to `reads`, which want of memory leaves as it was.
pub fn open_packed(
    alloc: Global,
    packed: &Packed,
    number: u64,
    reads: &mut Reads,
) -> Result<Vec<Option<i64>>, OutOfMemory>
    ensures ok { IfOk result (λ samples. samples.items ≡ packed.now) }
    ensures read { OnOk result (reads.new ≡ reads.old ++ number ∷ []) }
    ensures err { OnErr result (reads.new ≡ reads.old) }
{
    let samples = packed.unpack(alloc)?;
    reads.append(number)?;
    Ok(samples)
}
