//! A body that is gathered.
ghost use Rattle.std.specs.Prelude.{◌≡◌, ◌≤◌, ◌<◌, ◌+◌, ◌++◌, [], None, length, take, drop, IfSome};
ghost use Rattle.edr_cache.specs.Limits.{kept_limit};

use crate::limits::KEPT_LIMIT;
use crate::written::{Piece, Written};
use std::marker::Model;

// What was written so far, as contracts see it. Its bytes are there where they are no more than `KEPT_LIMIT`.
#[derive(Drop)]
pub(crate) struct Gathered {
    written: Written,
    bytes: [u8; 65536],
    used: usize,
    over: bool,
}

impl Model for Gathered {
    ghost use Rattle.std.specs.Prelude.{ℕ, List};
    ghost use Rattle.edr_cache.specs.Gathering.{IsGathered};

    ghost Value = { List ℕ };

    ghost view = { λ gathered. gathered.written.bytes };

    ghost invariant = { λ gathered. IsGathered gathered.over gathered.used gathered.bytes gathered.written.bytes };
}

// Puts a piece behind the bytes that are used.
fn put(bytes: &mut [u8; 65536], used: usize, piece: &[u8])
    requires { used + length piece.now ≤ kept_limit }
    ensures { take (used + length piece.now) bytes.new ≡ take used bytes.old ++ piece.now }
{
    bytes[used..used + piece.len()].copy_from_slice(piece);
}

impl Gathered {
    // Nothing.
    pub(crate) fn new() -> Gathered
        ensures { result ≡ [] }
    {
        Gathered {
            written: Written::new(),
            bytes: [0; 65536],
            used: 0,
            over: false,
        }
    }

    // A piece is written.
    pub(crate) fn take_in(&mut self, piece: &[u8])
        ensures { self.new ≡ self.old ++ piece.now }
    {
        self.written = self.written.and(&Piece { bytes: piece });
        if self.over || piece.len() > KEPT_LIMIT - self.used {
            self.over = true;
        } else {
            put(&mut self.bytes, self.used, piece);
            self.used += piece.len();
        }
    }

    // What was written; None exactly where that is more than `KEPT_LIMIT` bytes.
    pub(crate) fn text(&self) -> Option<&[u8]>
        ensures text { IfSome result (λ text. text.now ≡ self.now) }
        ensures within { IfSome result (λ text. length text.now ≤ kept_limit) }
        ensures more { result ≡ None → kept_limit < length self.now }
    {
        if self.over {
            return None;
        }
        Some(&self.bytes[..self.used])
    }
}
