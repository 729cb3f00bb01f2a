//! A publisher and its readers, one after the other and at once.
ghost use Rattle.std.specs.Prelude.{◌≡◌, []};

use edr_edition::{Edition, Editions};
use edr_ids::ById;
use edr_share::{Places, Publisher, SharedShelf, open_shelf, shelves_cross_threads};
use std::alloc::Global;
use std::rt::HostRuntime;
use std::sync::Wait;
use std::sync::atomic::{AtomicU64, Ordering};
use std::test::Fail;
use std::thread::{self, Threads};
use std::time::{Clock, Duration};

// How often a thread looks whether another one has come as far as it waits for, a millisecond apart.
const LOOKS: u64 = 20_000;

// The last edition that is published.
const LAST: u64 = 50;

// So many readers take editions at once.
const READERS: usize = 2;

// An edition without collections.
fn empty(number: u64) -> Edition
    ensures { result ≡ record { number = number; collections = [] } }
{
    Edition::of(number, ById::empty())
}

// The number of the edition that a reader takes, and 0 where it finds no memory.
fn taken(shelf: &mut SharedShelf) -> u64
    ensures { shelf.new.origin ≡ shelf.old.origin }
{
    match shelf.take() {
        Ok(edition) => edition.number(),
        Err(_) => 0,
    }
}

#[test]
fn readers_take_what_was_published(rt: HostRuntime) -> Result<(), Fail> {
    let alloc = rt.alloc();
    let mut places = Places::new();
    let (mut publisher, mut shelves) = open_shelf(&rt, alloc, empty(7), 2, &mut places)?;
    let first = taken(&mut shelves[1]);
    let done = publish_next(&rt, alloc, &mut publisher);
    let told = publisher.tell();
    let number = told.number();
    shelves[0].learn(told);
    let second = taken(&mut shelves[0]);
    let newer = taken(&mut shelves[1]);
    publisher.end(&rt);
    assert!(rt; done);
    assert_eq!(rt; (first, number, second, newer), (7, 8, 8, 8));
    Ok(())
}

// A reader in a thread of its own: what it took first and last, and whether a take went back.
#[derive(Drop)]
struct Reading {
    shelf: SharedShelf,
    first: u64,
    last: u64,
    went_back: bool,
}

impl Reading {
    fn of(shelf: SharedShelf) -> Reading {
        Reading {
            shelf,
            first: 0,
            last: 0,
            went_back: false,
        }
    }

    // What it took first and last, and whether a take went back.
    fn ends(&self) -> (u64, u64, bool) {
        (self.first, self.last, self.went_back)
    }

    // Takes editions until the last one comes, and says that it has begun.
    fn read(&mut self, clock: &impl Clock, begun: &AtomicU64) {
        self.first = taken(&mut self.shelf);
        begun.fetch_add(1, Ordering::SeqCst);
        for _ in 0..LOOKS {
            let number = taken(&mut self.shelf);
            self.went_back = self.went_back || number < self.last;
            self.last = number;
            if number == LAST {
                return;
            }
            thread::sleep(clock, Duration::from_millis(1));
        }
    }
}

// Publishes one edition more, and says whether it did.
fn publish_next<R: Wait>(rt: &R, alloc: Global, publisher: &mut Publisher) -> bool
    ensures { publisher.new.origin ≡ publisher.old.origin }
{
    match publisher.tell().number().checked_add(1) {
        Some(number) => publisher.publish(rt, alloc, empty(number)).is_ok(),
        None => false,
    }
}

// Publishes up to the last edition once all readers have begun, and says whether all went well.
fn publish_to_last<R: Wait + Clock>(
    rt: &R,
    alloc: Global,
    publisher: &mut Publisher,
    begun: &AtomicU64,
) -> bool {
    let readers = READERS as u64;
    for _ in 0..LOOKS {
        if begun.load(Ordering::SeqCst) == readers {
            break;
        }
        thread::sleep(rt, Duration::from_millis(1));
    }
    let mut done = begun.load(Ordering::SeqCst) == readers;
    for _ in 1..LAST {
        done = publish_next(rt, alloc, publisher) && done;
    }
    done
}

// Each reader takes editions in a thread of its own.
fn read_all<R: Threads + Clock + Sync>(rt: &R, readings: &mut [Reading], begun: &AtomicU64) {
    shelves_cross_threads();
    thread::for_each_mut(
        rt,
        readings,
        READERS,
        &|_, reading: &mut Reading| reading.read(rt, begun),
    );
}

#[test]
fn readers_take_while_editions_are_published(rt: HostRuntime) -> Result<(), Fail> {
    let alloc = rt.alloc();
    let mut places = Places::new();
    let (mut publisher, mut shelves) = open_shelf(&rt, alloc, empty(1), READERS, &mut places)?;
    let begun = AtomicU64::new(0);
    let mut done = false;
    let mut ends = ((0, 0, true), (0, 0, true));
    if let (Some(one), Some(two)) = (shelves.pop(), shelves.pop()) {
        let mut readings = [Reading::of(one), Reading::of(two)];
        shelves_cross_threads();
        thread::join_mut(
            &rt,
            &mut || done = publish_to_last(&rt, alloc, &mut publisher, &begun),
            &mut || read_all(&rt, &mut readings, &begun),
        );
        ends = (readings[0].ends(), readings[1].ends());
    }
    publisher.end(&rt);
    assert!(rt; done);
    assert_eq!(rt; ends, ((1, LAST, false), (1, LAST, false)));
    Ok(())
}
