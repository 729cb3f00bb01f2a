//! Lists of whole numbers and nulls, packed.
ghost use Rattle.std.specs.Prelude.{◌≡◌, ◌<◌, ◌++◌, ◌∷◌, [], IfOk, None, OnOk, length, map};
ghost use Rattle.std.specs.List.{slice_index_or};
ghost use Rattle.edr_samples.specs.Codes.{sample_of};

use crate::codes::sample_of;
use std::alloc::{AllocError, Global};
use std::marker::Model;

/// A list of samples, each a whole number from -2,147,483,647 to 2,147,483,647 or null, in four bytes a sample.
#[derive(Drop)]
pub struct Samples {
    codes: Vec<i32>,
}

impl Model for Samples {
    ghost use Rattle.std.specs.Prelude.{List, Option, ℤ, map};
    ghost use Rattle.edr_samples.specs.Codes.{sample_of};

    ghost Value = { List (Option ℤ) };

    ghost view = { λ s. map sample_of s.codes.items };
}

impl Samples {
    /// A list of none. It takes no memory.
    pub fn new(alloc: Global) -> Samples
        ensures { result ≡ [] }
    {
        Samples {
            codes: Vec::new(alloc),
        }
    }

    // One sample more, by its code.
    #[inline(always)]
    pub(crate) fn push(&mut self, code: i32) -> Result<(), AllocError>
        ensures { OnOk result (self.new ≡ self.old ++ sample_of code ∷ []) }
    {
        self.codes.push(code)?;
        Ok(())
    }

    // The codes of the samples, in turn.
    pub(crate) fn codes(&self) -> &[i32]
        ensures { map sample_of result.now ≡ self.now }
    {
        &self.codes
    }

    /// How many samples there are.
    pub fn len(&self) -> usize
        ensures { result ≡ length self.now }
    {
        self.codes.len()
    }

    /// The sample at a place, from 0; None for null.
    #[inline(always)]
    pub fn get(&self, place: usize) -> Option<i64>
        requires { place < length self.now }
        ensures { result ≡ slice_index_or self.now place None }
    {
        sample_of(self.codes[place])
    }

    /// The same samples, 16 bytes each, None for null; or want of memory.
    pub fn to_vec(&self, alloc: Global) -> Result<Vec<Option<i64>>, AllocError>
        ensures { IfOk result (λ v. v.items ≡ self.now) }
    {
        samples_of(alloc, &self.codes)
    }
}

fn samples_of(alloc: Global, codes: &[i32]) -> Result<Vec<Option<i64>>, AllocError>
    ensures { IfOk result (λ v. v.items ≡ map sample_of codes.now) }
{
    let mut found = Vec::with_capacity(alloc, codes.len())?;
    for code in codes {
        found.push(sample_of(*code))?;
    }
    Ok(found)
}
