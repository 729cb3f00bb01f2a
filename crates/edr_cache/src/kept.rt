//! Stores of bodies by their targets, the most recently used first.
ghost use Rattle.std.specs.Prelude.{◌≡◌, ◌<◌, ◌≤◌, [], length, option_copied, IsOk, IfOk, IfSome, OnOk, OnErr};
ghost use Rattle.edr_cache.specs.Limits.{capacity_limit, kept_limit};
ghost use Rattle.edr_cache.specs.Pairs.{IsWithin, held, body_of, to_front, with_body};
ghost use Rattle.edr_cache.specs.Entries.{IsKept, held_by, pairs_of};

use crate::limits::KEPT_LIMIT;
use edr_base::{OutOfMemory, Text};
use lru::LruCache;
use std::alloc::Global;
use std::marker::Model;
use std::num::NonZeroUsize;

/// Bodies of replies by their targets, at most so many, of which the least recently used falls out first. Contracts see the
/// pairs of a target and a body, the most recently used first, and how many there may be.
///
/// A target and a body are bytes. No target has two bodies, and no body has more than `KEPT_LIMIT` bytes. A store of capacity
/// 0 keeps nothing and takes no memory. A look-up goes by a hash of the target whose seed is fixed; with the few pairs that a
/// store may have, targets that were chosen to collide cost little.
#[derive(Drop)]
pub struct Kept {
    cache: Option<LruCache<Vec<u8>, Text>>,
}

impl Model for Kept {
    ghost use Rattle.std.specs.Prelude.{IfSome};
    ghost use Rattle.edr_cache.specs.Pairs.{Held};
    ghost use Rattle.edr_cache.specs.Entries.{shown, IsKept};

    ghost Value = { Held };

    ghost view = { λ kept. shown kept.cache };

    ghost invariant = { λ kept. IfSome kept.cache IsKept };
}

impl Kept {
    ghost use Rattle.std.specs.Borrow.{sem};
    ghost use Rattle.edr_cache.specs.Lending.{EndsAs};

    /// A store that keeps nothing. It takes no memory.
    pub fn nothing() -> Kept
        ensures { result ≡ held [] 0 }
    {
        Kept { cache: None }
    }

    /// An empty store of so many bodies, at most `CAPACITY_LIMIT`.
    ///
    /// Its only error is want of memory, which doesn't come at capacity 0.
    pub fn of(alloc: Global, capacity: usize) -> Result<Kept, OutOfMemory>
        requires { capacity ≤ capacity_limit }
        ensures empty { IfOk result (λ kept. kept ≡ held [] capacity) }
        ensures free { capacity ≡ 0 → IsOk result }
    {
        match NonZeroUsize::new(capacity) {
            None => Ok(Kept::nothing()),
            Some(room) => Ok(Kept {
                cache: Some(LruCache::new(alloc, room)?),
            }),
        }
    }

    /// How many bodies it may keep.
    pub fn capacity(&self) -> usize
        ensures { result ≡ self.now.capacity }
    {
        match &self.cache {
            None => 0,
            Some(cache) => cache.cap().get(),
        }
    }

    /// How many bodies it keeps.
    pub fn len(&self) -> usize
        ensures len { result ≡ length self.now.pairs }
        ensures within { IsWithin self.now }
    {
        match &self.cache {
            None => 0,
            Some(cache) => cache.len(),
        }
    }

    /// The body that is kept for a target, or None exactly where there is none. Its pair becomes the first. It takes no memory.
    pub fn get(&mut self, target: &[u8]) -> Option<&Text>
        ensures* used { sem 𝓛 (EndsAs self.entry (to_front target.now self.old.pairs)) }
        ensures body { option_copied result ≡ body_of target.now self.old.pairs }
    {
        self.promote(target);
        self.peek(target)
    }

    /// Makes the pair of a target the first, where there is one. It takes no memory.
    pub fn promote(&mut self, target: &[u8])
        ensures { self.new ≡ held (to_front target.now self.old.pairs) self.old.capacity }
    {
        if let Some(cache) = &mut self.cache {
            promote_entry(cache, target);
        }
    }

    /// The body that is kept for a target, or None exactly where there is none. No pair changes its place.
    pub fn peek(&self, target: &[u8]) -> Option<&Text>
        ensures { option_copied result ≡ body_of target.now self.now.pairs }
    {
        match &self.cache {
            None => None,
            Some(cache) => cache.peek(target),
        }
    }

    /// Keeps a body for a target, in place of the one that is kept for it; its pair becomes the first. Where there is none and
    /// the store is full, the last pair falls out.
    ///
    /// A body of more than `KEPT_LIMIT` bytes isn't kept, and the store stays as it is. After want of memory, its only error,
    /// the store is as it was; it doesn't come for a body that isn't kept, nor at capacity 0.
    pub fn put(&mut self, alloc: Global, target: &[u8], body: &[u8]) -> Result<(), OutOfMemory>
        ensures kept { length body.now ≤ kept_limit → OnOk result (self.new ≡ held (with_body self.old.capacity target.now body.now self.old.pairs) self.old.capacity) }
        ensures too_long { kept_limit < length body.now → IsOk result × (self.new ≡ self.old) }
        ensures free { self.old.capacity ≡ 0 → IsOk result }
        ensures unchanged { OnErr result (self.new ≡ self.old) }
    {
        if body.len() > KEPT_LIMIT {
            return Ok(());
        }
        match &mut self.cache {
            None => Ok(()),
            Some(cache) => put_entry(alloc, cache, target, body),
        }
    }

    /// Gives up all bodies, and takes no memory.
    pub fn clear(&mut self)
        ensures { self.new ≡ held [] self.old.capacity }
    {
        if let Some(cache) = &mut self.cache {
            clear_entries(cache);
        }
    }
}

// Brings the entry of a target to the front.
fn promote_entry(cache: &mut LruCache<Vec<u8>, Text>, target: &[u8])
    requires { IsKept cache.old }
    ensures shown { held_by cache.new ≡ held (to_front target.now (pairs_of cache.old.entries)) cache.old.cap }
    ensures kept { IsKept cache.new }
{
    cache.promote(target);
}

// Puts copies of a target and a body, which take just their bytes.
fn put_entry(
    alloc: Global,
    cache: &mut LruCache<Vec<u8>, Text>,
    target: &[u8],
    body: &[u8],
) -> Result<(), OutOfMemory>
    requires kept { IsKept cache.old }
    requires short { length body.now ≤ kept_limit }
    ensures shown { OnOk result (held_by cache.new ≡ held (with_body cache.old.cap target.now body.now (pairs_of cache.old.entries)) cache.old.cap) }
    ensures unchanged { OnErr result (cache.new ≡ cache.old) }
    ensures kept { IsKept cache.new }
{
    let key = Vec::from_slice(alloc, target)?;
    let value = Text::of(alloc, body)?;
    cache.put(key, value)?;
    Ok(())
}

// Takes out all entries.
fn clear_entries(cache: &mut LruCache<Vec<u8>, Text>)
    requires { IsKept cache.old }
    ensures shown { held_by cache.new ≡ held [] cache.old.cap }
    ensures kept { IsKept cache.new }
{
    cache.clear();
}
