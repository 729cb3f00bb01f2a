//! A list of samples that is kept in as few bytes a sample as its values allow.
ghost use Rattle.std.specs.Prelude.{◌≡◌, ◌<◌, ◌≤◌, ◌+◌, ℕ, IfOk, None, length, pos, ◌+ℤ◌};
ghost use Rattle.std.specs.List.{slice_index_or};
ghost use Rattle.edr_base.specs.Limits.{IsSample, AreSamples};
ghost use Rattle.edr_chunk.specs.Codes.{IsFloor, AreBetween};
ghost use Rattle.edr_chunk.specs.KeptCodes.{samples};

use crate::codes::{codes_of, samples_of, samples_to};
use crate::spans::{are_all, span_of};
use edr_base::OutOfMemory;
use std::alloc::Global;
use std::marker::Model;

// The codes of a list: one sample that each is, or a code each, as wide as the span of the samples asks.
#[derive(Drop)]
enum Codes {
    Same { value: Option<i64>, count: usize },
    Bytes(Vec<u8>),
    Pairs(Vec<u16>),
    Triples(Vec<[u8; 3]>),
    Words(Vec<u32>),
    Whole(Vec<i64>),
}

/// A list of samples, packed.
#[derive(Drop)]
pub struct Packed {
    floor: i64,
    codes: Codes,
}

impl Model for Packed {
    ghost use Rattle.std.specs.Prelude.{ℤ, Option, List};
    ghost use Rattle.edr_chunk.specs.Codes.{IsFloor};
    ghost use Rattle.edr_chunk.specs.KeptCodes.{samples};

    ghost Value = { List (Option ℤ) };

    ghost view = { λ p. samples p.floor p.codes };

    ghost invariant = { λ p. IsFloor p.floor };
}

impl Packed {
    /// A list of samples, packed, or want of memory. A list of equal samples takes no memory of its own. Other lists take
    /// 1, 2, 3, 4 or 8 bytes a sample, missing ones too: the least in which each sample and one code more can be told apart.
    pub fn pack(alloc: Global, values: &[Option<i64>]) -> Result<Packed, OutOfMemory>
        requires { AreSamples values.now }
        ensures { IfOk result (λ packed. packed ≡ values.now) }
    {
        match values.first() {
            Some(first) if are_all(values, *first) => Ok(Packed {
                floor: 0,
                codes: Codes::Same {
                    value: *first,
                    count: values.len(),
                },
            }),
            _ => {
                let span = span_of(values);
                let floor = span.least - 1;
                let codes = codes_from(alloc, values, floor, span.greatest)?;
                Ok(Packed { floor, codes })
            }
        }
    }

    /// The list, or want of memory.
    pub fn unpack(&self, alloc: Global) -> Result<Vec<Option<i64>>, OutOfMemory>
        ensures { IfOk result (λ values. values.items ≡ self.now) }
    {
        match &self.codes {
            Codes::Same { value, count } => Ok(vec![in alloc; *value; *count]?),
            Codes::Bytes(codes) => samples_of(alloc, codes, self.floor),
            Codes::Pairs(codes) => samples_of(alloc, codes, self.floor),
            Codes::Triples(codes) => samples_of(alloc, codes, self.floor),
            Codes::Words(codes) => samples_of(alloc, codes, self.floor),
            Codes::Whole(numbers) => samples_of(alloc, numbers, self.floor),
        }
    }

    /// Puts the samples from a place on into a list, as many as it has. It takes no memory.
    pub(crate) fn copy_to(&self, place: usize, into: &mut [Option<i64>])
        requires { place + length into.old ≤ length self.now }
        ensures long { length into.new ≡ length into.old }
        ensures samples { (k : ℕ) → k < length into.old → slice_index_or into.new k None ≡ slice_index_or self.now (place + k) None }
    {
        match &self.codes {
            Codes::Same { value, count: _ } => into.fill(*value),
            Codes::Bytes(codes) => samples_to(codes, place, self.floor, into),
            Codes::Pairs(codes) => samples_to(codes, place, self.floor, into),
            Codes::Triples(codes) => samples_to(codes, place, self.floor, into),
            Codes::Words(codes) => samples_to(codes, place, self.floor, into),
            Codes::Whole(numbers) => samples_to(numbers, place, self.floor, into),
        }
    }
}

// The codes of samples between a floor and the greatest of them.
fn codes_from(
    alloc: Global,
    values: &[Option<i64>],
    floor: i64,
    greatest: i64,
) -> Result<Codes, OutOfMemory>
    requires samples { AreSamples values.now }
    requires floor { IsFloor floor }
    requires greatest { IsSample greatest }
    requires above { AreBetween (floor +ℤ pos 1) greatest values.now }
    ensures { IfOk result (λ codes. samples floor codes ≡ values.now) }
{
    let most = greatest - floor;
    if most <= u8::MAX as i64 {
        Ok(Codes::Bytes(codes_of(alloc, values, floor)?))
    } else if most <= u16::MAX as i64 {
        Ok(Codes::Pairs(codes_of(alloc, values, floor)?))
    } else if most <= 16_777_215 {
        Ok(Codes::Triples(codes_of(alloc, values, floor)?))
    } else if most <= u32::MAX as i64 {
        Ok(Codes::Words(codes_of(alloc, values, floor)?))
    } else {
        Ok(Codes::Whole(codes_of(alloc, values, floor)?))
    }
}
