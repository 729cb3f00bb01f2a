//! What has an id.
ghost use Rattle.std.specs.Prelude.{◌≡◌, ℕ, List};
ghost use Rattle.std.specs.Arc.{arc_value};
ghost use Rattle.edr_ids.specs.Ids.{AreById};

use std::alloc::Global;
use std::sync::Arc;

/// What has an id. Ids are compared byte by byte.
pub trait Identified {
    /// Its id.
    ghost id_of: { Self → List ℕ };

    /// Its id. It takes no memory.
    fn id(&self) -> &[u8]
        ensures { result.now ≡ id_of self.now };
}

/// What is shared has the id of what it is.
impl<T: Identified> Identified for Arc<T, Global> {
    ghost id_of = { λ shared. T.id_of (arc_value shared) };

    fn id(&self) -> &[u8] {
        let item: &T = self;
        item.id()
    }
}

/// The item of an id is the one that has it, and setting an item or taking one out leaves those of other ids.
pub fn items_are_by_id<T: Identified>()
    ensures { AreById T.id_of }
{}
