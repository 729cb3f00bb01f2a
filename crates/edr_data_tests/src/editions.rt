//! Shelves of editions.
ghost use Rattle.std.specs.Prelude.{◌≡◌, []};

use crate::ids::is_shared_by_threads;
use edr_base::OutOfMemory;
use edr_edition::{Edition, Editions, LocalShelf, SteppedShelf, editions_cross_threads};
use edr_ids::ById;
use std::alloc::Global;
use std::rt::HostRuntime;

// An edition without collections.
fn empty(number: u64) -> Edition
    ensures { result ≡ record { number = number; collections = [] } }
{
    Edition::of(number, ById::empty())
}

fn editions_are_shared_by_threads(edition: &Edition) {
    editions_cross_threads();
    is_shared_by_threads(edition);
}

// Whether a shelf answers the edition of this number.
fn takes<E: Editions>(shelf: &mut E, number: u64) -> bool {
    match shelf.take() {
        Ok(edition) => edition.number() == number,
        Err(_) => false,
    }
}

// Whether a shelf answers its edition, and the newest one once it got two more.
fn answers_the_newest(alloc: Global) -> Result<bool, OutOfMemory> {
    let mut shelf = LocalShelf::of(alloc, empty(1))?;
    let first = shelf.take()?.number();
    shelf.advance(alloc, empty(2))?;
    shelf.advance(alloc, empty(3))?;
    Ok(first == 1 && takes(&mut shelf, 3) && takes(&mut shelf, 3))
}

// Whether a shelf of two editions answers them in turn, and then the last again.
fn answers_in_turn(alloc: Global) -> Result<bool, OutOfMemory> {
    let mut editions = Vec::new(alloc);
    editions.push(empty(1))?;
    editions.push(empty(2))?;
    let mut shelf = SteppedShelf::of(alloc, editions)?;
    Ok(takes(&mut shelf, 1) && takes(&mut shelf, 2) && takes(&mut shelf, 2))
}

#[test]
fn editions_are_shared(rt: HostRuntime) {
    assert!(rt; answers_the_newest(rt.alloc()) == Ok(true));
    assert!(rt; answers_in_turn(rt.alloc()) == Ok(true));
    editions_are_shared_by_threads(&empty(1));
}
