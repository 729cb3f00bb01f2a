//! Numbers in ascending order.
ghost use Rattle.std.specs.Prelude.{◌≡◌, ◌<◌, ◌≤◌, ◌-◌, [], ◌∷◌, ◌++◌, cond, ℕ, All, IfOk, OnOk};
ghost use Rattle.std.specs.List.{range_with_len};
ghost use Rattle.edr_select.specs.Samples as samples;

use edr_base::OutOfMemory;
use std::alloc::Global;

// The numbers in ascending order, each once. It takes no memory.
pub(crate) fn ascending_once(mut numbers: Vec<u64>) -> Vec<u64>
    ensures { (count : ℕ) → All (λ n. n < count) numbers.items → result.items ≡ samples.ascending_once count numbers.items }
{
    numbers.sort_unstable();
    numbers.dedup();
    numbers
}

// The numbers from one up to another.
pub(crate) fn numbers_between(
    alloc: Global,
    first: usize,
    end: usize,
) -> Result<Vec<u64>, OutOfMemory>
    requires { first ≤ end }
    ensures { IfOk result (λ numbers. numbers.items ≡ range_with_len first (end - first)) }
{
    let mut numbers = Vec::new(alloc);
    for number in first..end {
        numbers.push(number as u64)?;
    }
    Ok(numbers)
}

// One number alone.
pub(crate) fn alone(alloc: Global, number: u64) -> Result<Vec<u64>, OutOfMemory>
    ensures { IfOk result (λ numbers. numbers.items ≡ number ∷ []) }
{
    let mut numbers = Vec::new(alloc);
    numbers.push(number)?;
    Ok(numbers)
}

/// Adds a number where it is taken. The only error is want of memory.
pub fn keep(numbers: &mut Vec<u64>, number: u64, taken: bool) -> Result<(), OutOfMemory>
    ensures { OnOk result (numbers.new.items ≡ numbers.old.items ++ cond taken (number ∷ []) []) }
{
    if taken {
        numbers.push(number)?;
    }
    Ok(())
}
