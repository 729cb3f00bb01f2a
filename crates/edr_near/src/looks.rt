//! Which cells were read.
ghost use Rattle.std.specs.Prelude.{◌≡◌, [], IsPermutation};
ghost use Rattle.std.specs.List.Sorted.{IsNonDecreasing};

use std::alloc::Global;
use std::marker::Model;

/// The numbers of the cells that `Cells::nearest` read, in ascending order. Contracts see the list.
#[derive(Drop)]
pub struct Looks {
    numbers: Vec<u64>,
}

impl Model for Looks {
    ghost use Rattle.std.specs.Prelude.{List, ℕ};

    ghost Value = { List ℕ };

    ghost view = { λ looks. looks.numbers.items };
}

impl Looks {
    /// No numbers.
    pub fn new(alloc: Global) -> Looks
        ensures { result ≡ [] }
    {
        Looks {
            numbers: Vec::new(alloc),
        }
    }

    // The numbers in ascending order.
    pub(crate) fn of(mut numbers: Vec<u64>) -> Looks
        ensures same { IsPermutation numbers.items result }
        ensures ascending { IsNonDecreasing result }
    {
        numbers.sort_unstable();
        Looks { numbers }
    }

    /// The numbers.
    pub fn numbers(&self) -> &[u64]
        ensures { result.now ≡ self.now }
    {
        &self.numbers
    }
}
