//! Packed lists that are shared.
ghost use Rattle.std.specs.Prelude.{◌≡◌, IfOk};
ghost use Rattle.edr_base.specs.Limits.{AreSamples};

use crate::Packed;
use edr_base::OutOfMemory;
use std::alloc::Global;
use std::marker::Model;
use std::sync::Arc;

/// A packed list that is shared by all its copies.
#[derive(Drop)]
pub struct SharedPacked {
    packed: Arc<Packed>,
}

impl Model for SharedPacked {
    ghost use Rattle.std.specs.Prelude.{ℤ, Option, List};
    ghost use Rattle.std.specs.Arc.{arc_value};

    ghost Value = { List (Option ℤ) };

    ghost view = { λ s. arc_value s.packed };
}

impl SharedPacked {
    /// A list of samples, packed, which nothing shares yet, or want of memory.
    pub fn pack(alloc: Global, values: &[Option<i64>]) -> Result<SharedPacked, OutOfMemory>
        requires { AreSamples values.now }
        ensures { IfOk result (λ shared. shared ≡ values.now) }
    {
        let packed = Packed::pack(alloc, values)?;
        Ok(SharedPacked {
            packed: Arc::new(alloc, packed)?,
        })
    }

    /// The same list. It takes no memory; its only error is that there are too many copies to be counted.
    pub fn share(&self) -> Result<SharedPacked, OutOfMemory>
        ensures { IfOk result (λ shared. shared ≡ self.now) }
    {
        Ok(SharedPacked {
            packed: Arc::try_clone(&self.packed)?,
        })
    }

    /// The list.
    pub fn packed(&self) -> &Packed
        ensures { result.now ≡ self.now }
    {
        &self.packed
    }
}
