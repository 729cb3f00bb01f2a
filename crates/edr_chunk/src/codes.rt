//! Codes of samples, many at once.
ghost use Rattle.std.specs.Prelude.{◌≡◌, ◌<◌, ◌≤◌, ◌+◌, ℕ, map, length, All, None, IfOk};
ghost use Rattle.std.specs.List.{slice_index_or};
ghost use Rattle.edr_chunk.specs.Codes.{IsFloor};
ghost use Rattle.edr_base.specs.Limits.{AreSamples};

use crate::widths::Width;
use edr_base::OutOfMemory;
use std::alloc::Global;

/// The codes of samples, or want of memory.
pub fn codes_of<W: Width>(
    alloc: Global,
    values: &[Option<i64>],
    floor: i64,
) -> Result<Vec<W>, OutOfMemory>
    requires floor { IsFloor floor }
    requires samples { AreSamples values.now }
    requires fits { All (W.fits floor) values.now }
    ensures { IfOk result (λ codes. map (W.sample floor) codes.items ≡ values.now) }
{
    let mut codes = Vec::with_capacity(alloc, values.len())?;
    for value in values {
        codes.push(W::of(*value, floor))?;
    }
    Ok(codes)
}

/// The samples of codes, or want of memory.
pub fn samples_of<W: Width>(
    alloc: Global,
    codes: &[W],
    floor: i64,
) -> Result<Vec<Option<i64>>, OutOfMemory>
    requires { IsFloor floor }
    ensures { IfOk result (λ values. values.items ≡ map (W.sample floor) codes.now) }
{
    let mut values = Vec::with_capacity(alloc, codes.len())?;
    for code in codes {
        values.push(code.sample(floor))?;
    }
    Ok(values)
}

/// Puts the samples of codes, from a place on, into a list, as many as it has. It takes no memory.
pub fn samples_to<W: Width>(codes: &[W], place: usize, floor: i64, into: &mut [Option<i64>])
    requires floor { IsFloor floor }
    requires inside { place + length into.old ≤ length codes.now }
    ensures long { length into.new ≡ length into.old }
    ensures samples { (k : ℕ) → k < length into.old → slice_index_or into.new k None ≡ slice_index_or (map (W.sample floor) codes.now) (place + k) None }
{
    for number in 0..into.len() {
        into[number] = sample_in(codes, place + number, floor);
    }
}

// The sample of one of some codes.
fn sample_in<W: Width>(codes: &[W], place: usize, floor: i64) -> Option<i64>
    requires floor { IsFloor floor }
    requires place { place < length codes.now }
    ensures { result ≡ slice_index_or (map (W.sample floor) codes.now) place None }
{
    codes[place].sample(floor)
}
