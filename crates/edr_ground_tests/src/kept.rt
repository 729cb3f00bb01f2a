//! Bodies that are kept by their targets.
use edr_cache::{CAPACITY_LIMIT, KEPT_LIMIT, Kept};
use std::alloc::Global;
use std::rt::HostRuntime;

// A capacity; one target after the other, each a letter, that is asked for and kept where it wasn't, and `-` where all are
// given up; which of them were kept; and how many are at the end.
const ROWS: &str = "\
0 aa => .. 0
1 aa => .! 1
1 aba => ... 1
2 aa => .! 1
2 abacab => ..!.!. 2
2 abcab => ..... 2
3 abcab => ...!! 3
3 ab-ab => ..... 2
";

// Whether a target's own bytes are kept for it.
fn is_kept(store: &mut Kept, target: &[u8]) -> bool {
    match store.get(target) {
        Some(body) => body.bytes() == target,
        None => false,
    }
}

// Whether a target is kept, and from now on it is; None where memory is wanting.
fn was_kept(alloc: Global, store: &mut Kept, target: &[u8]) -> Option<bool> {
    if target == b"-".as_slice() {
        store.clear();
        return Some(false);
    }
    if is_kept(store, target) {
        return Some(true);
    }
    store.put(alloc, target, target).ok()?;
    Some(false)
}

fn were_kept(alloc: Global, store: &mut Kept, targets: &str, wanted: &str) -> bool {
    let mut whole = targets.len() == wanted.len();
    for (target, kept) in targets.as_bytes().chunks(1).zip(wanted.as_bytes().iter()) {
        whole = was_kept(alloc, store, target) == Some(*kept == b'!') && whole;
    }
    whole
}

fn is_row(alloc: Global, line: &str) -> Option<bool> {
    let (asked, told) = line.split_once(" => ")?;
    let (capacity, targets) = asked.split_once(' ')?;
    let (wanted, count) = told.split_once(' ')?;
    let capacity = capacity.parse::<usize>().ok()?;
    if capacity > CAPACITY_LIMIT {
        return None;
    }
    let mut store = Kept::of(alloc, capacity).ok()?;
    let whole = were_kept(alloc, &mut store, targets, wanted);
    Some(whole && store.len() == count.parse::<usize>().ok()?)
}

#[test]
fn bodies_are_kept_by_use(rt: HostRuntime) {
    for line in ROWS.lines() {
        assert!(rt; is_row(rt.alloc(), line) == Some(true), "{line}");
    }
}

// Whether a body of so many bytes is kept.
fn is_kept_of(alloc: Global, length: usize) -> Option<bool> {
    let mut store = Kept::of(alloc, 1).ok()?;
    let mut body = Vec::new(alloc);
    body.resize(length, b'x').ok()?;
    store.put(alloc, b"a".as_slice(), &body).ok()?;
    match store.get(b"a".as_slice()) {
        Some(kept) => Some(kept.bytes() == body.as_slice()),
        None => Some(false),
    }
}

#[test]
fn long_bodies_are_not_kept(rt: HostRuntime) {
    assert!(rt; is_kept_of(rt.alloc(), 0) == Some(true));
    assert!(rt; is_kept_of(rt.alloc(), KEPT_LIMIT) == Some(true));
    assert!(rt; is_kept_of(rt.alloc(), KEPT_LIMIT + 1) == Some(false));
}
