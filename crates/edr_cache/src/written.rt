//! What was written, which exists only in proofs. It takes no memory, and its methods do nothing at run time.
ghost use Rattle.std.specs.Prelude.{◌≡◌, ℕ, List, [], ◌++◌};
ghost use Rattle.std.specs.Borrow.{ftrue};

use std::marker::Model;

// The bytes.
#[derive(Drop)]
pub(crate) struct Written {
    ghost bytes: { List ℕ },
}

impl Model for Written {
    ghost also_owns = { λ _. ftrue };
}

// Some bytes more.
#[derive(Clone, Copy, Drop)]
pub(crate) struct Piece<'a> {
    pub(crate) bytes: &'a [u8],
}

impl Written {
    // Nothing.
    pub(crate) fn new() -> Written
        ensures { result.bytes ≡ [] }
    {
        Written {}
    }

    // What was written before, and behind it the piece.
    #[inline(always)]
    pub(crate) fn and(&self, _piece: &Piece<'_>) -> Written
        ensures { result.bytes ≡ self.now.bytes ++ _piece.now.bytes.now }
    {
        Written {}
    }
}
