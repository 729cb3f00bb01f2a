//! Replies that are kept from one request to the next.
ghost use Rattle.std.specs.Prelude.{◌≡◌, ◌≤◌, ◌==◌, [], None, Some, option_copied, option_map, IsOk, IfOk};
ghost use Rattle.edr_cache.specs.Limits.{capacity_limit};
ghost use Rattle.edr_cache.specs.Pairs.{held, body_of, to_front};
ghost use Rattle.edr_serve.specs.Keeping.{kept_of, AreDataOf, has_number, turned_to, MayBeKept, Puts};

use edr_base::{OutOfMemory, Text};
use edr_cache::Kept;
use edr_edition::Edition;
use std::alloc::Global;
use std::marker::Model;
use std::snapshot::Snapshot;

// The edition that replies are from: its number, and the edition as contracts see it. It keeps none alive.
#[derive(Drop)]
struct Origin {
    number: u64,
    edition: Snapshot<Edition>,
    ghost same: { edition.value.number ≡ number },
}

/// Bodies of replies of data by their targets, all of one edition, at most so many. Contracts see that edition, and the pairs of
/// a target and a body, the most recently used first.
///
/// Each body is what the edition answers to its target. The edition itself isn't kept, only its number.
#[derive(Drop)]
pub struct KeptReplies {
    origin: Option<Origin>,
    bodies: Kept,
}

impl Model for KeptReplies {
    ghost use Rattle.std.specs.Prelude.{option_map};
    ghost use Rattle.edr_serve.specs.Keeping.{KeptValue, kept_of, AreDataOf};

    ghost Value = { KeptValue };

    ghost view = { λ kept. kept_of (option_map (λ origin. origin.edition.value) kept.origin) kept.bodies };

    ghost invariant = { λ kept. AreDataOf (option_map (λ origin. origin.edition.value) kept.origin) kept.bodies.pairs };
}

// Whether what is kept is from an edition of this number.
fn is_from(origin: &Option<Origin>, number: u64) -> bool
    ensures { result ≡ has_number number (option_map (λ origin. origin.edition.value) origin.now) }
{
    match origin {
        Some(origin) => origin.number == number,
        None => false,
    }
}

impl KeptReplies {
    /// A store that keeps nothing. It takes no memory.
    pub fn nothing() -> KeptReplies
        ensures { result ≡ kept_of None (held [] 0) }
    {
        KeptReplies {
            origin: None,
            bodies: Kept::nothing(),
        }
    }

    /// An empty store of so many bodies, at most `CAPACITY_LIMIT` of `edr_cache`.
    ///
    /// Its only error is want of memory, which doesn't come at capacity 0.
    pub fn of(alloc: Global, capacity: usize) -> Result<KeptReplies, OutOfMemory>
        requires { capacity ≤ capacity_limit }
        ensures empty { IfOk result (λ kept. kept ≡ kept_of None (held [] capacity)) }
        ensures free { capacity ≡ 0 → IsOk result }
    {
        Ok(KeptReplies {
            origin: None,
            bodies: Kept::of(alloc, capacity)?,
        })
    }

    /// Whether no body is ever kept.
    pub fn keeps_nothing(&self) -> bool
        ensures { result ≡ (self.now.bodies.capacity == 0) }
    {
        self.bodies.capacity() == 0
    }

    /// Gives up all bodies, unless they are from an edition of the number of this one. What is kept from then on is from this one.
    pub fn turn_to(&mut self, edition: &Edition)
        ensures { self.new ≡ turned_to edition.now self.old }
    {
        if !is_from(&self.origin, edition.number()) {
            self.bodies.clear();
            self.origin = Some(Origin {
                number: edition.number(),
                edition: Snapshot::of(edition),
            });
        }
    }

    /// The body that is kept for a target, or None exactly where there is none.
    pub fn body(&self, target: &[u8]) -> Option<&Text>
        ensures body { option_copied result ≡ body_of target.now self.now.bodies.pairs }
        ensures pairs { AreDataOf self.now.edition self.now.bodies.pairs }
    {
        self.bodies.peek(target)
    }

    /// Makes the body of a target the one that was used last, where there is one.
    pub fn promote(&mut self, target: &[u8])
        ensures { self.new ≡ kept_of self.old.edition (held (to_front target.now self.old.bodies.pairs) self.old.bodies.capacity) }
    {
        self.bodies.promote(target);
    }

    /// Keeps a body for a target, unless it is longer than `KEPT_LIMIT` of `edr_cache` or memory is wanting.
    pub fn keep(&mut self, alloc: Global, target: &[u8], body: &[u8])
        requires { MayBeKept self.old.edition (target.now, body.now) }
        ensures from { self.new.edition ≡ self.old.edition }
        ensures kept { Puts body.now target.now self.old.bodies self.new.bodies }
    {
        let _ = self.bodies.put(alloc, target, body);
    }
}
