//! The head of a reply while it is put together.
ghost use Rattle.std.specs.Prelude.{◌≡◌, ◌+◌, ◌≤◌, ◌++◌, [], length};

use std::marker::Model;

/// No head of a reply has more bytes.
pub(crate) const DRAFT_LIMIT: usize = 192;

/// Texts that are gathered, so that they are written at once, seen as a list.
#[derive(Drop)]
pub(crate) struct Draft {
    bytes: [u8; DRAFT_LIMIT],
    size: usize,
}

impl Model for Draft {
    ghost use Rattle.std.specs.Prelude.{ℕ, List, take, ◌≤◌};

    ghost Value = { List ℕ };

    ghost view = { λ draft. take draft.size draft.bytes };

    ghost invariant = { λ draft. draft.size ≤ 192 };
}

impl Draft {
    /// Nothing.
    pub(crate) fn new() -> Draft
        ensures { result ≡ [] }
    {
        Draft {
            bytes: [0; DRAFT_LIMIT],
            size: 0,
        }
    }

    /// The bytes.
    pub(crate) fn bytes(&self) -> &[u8]
        ensures { result.now ≡ self.now }
    {
        &self.bytes[..self.size]
    }

    /// Puts a text behind them.
    pub(crate) fn add(&mut self, text: &[u8])
        requires { length self.old + length text.now ≤ DRAFT_LIMIT }
        ensures { self.new ≡ self.old ++ text.now }
    {
        let end = self.size + text.len();
        self.bytes[self.size..end].copy_from_slice(text);
        self.size = end;
    }
}
