//! Bytes that were read and not used.
ghost use Rattle.std.specs.Prelude.{◌≡◌, []};

use crate::finding::{FIELD_LIMIT, Fields};
use crate::held::Held;
use httparse::spans::EMPTY_HEADER_SPAN;
use std::alloc::Global;
use std::marker::Model;

/// The bytes of a connection that were read and not used yet, seen as a list.
#[derive(Debug, Drop)]
pub struct Inbox {
    pub(crate) held: Held,
    // where the fields of the last head stand
    pub(crate) fields: Fields,
}

impl Model for Inbox {
    ghost use Rattle.std.specs.Prelude.{ℕ, List};

    ghost Value = { List ℕ };

    ghost view = { λ inbox. inbox.held };
}

impl Inbox {
    /// An inbox that holds nothing. It takes no memory.
    pub fn new(alloc: Global) -> Inbox
        ensures { result ≡ [] }
    {
        Inbox {
            held: Held::new(alloc),
            fields: [EMPTY_HEADER_SPAN; FIELD_LIMIT],
        }
    }

    /// The bytes that it holds.
    pub fn held(&self) -> &[u8]
        ensures { result.now ≡ self.now }
    {
        self.held.bytes()
    }
}
