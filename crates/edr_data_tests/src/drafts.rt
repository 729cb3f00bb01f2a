//! A draft from its first change to its second edition. The faults of changes are tested by the lines of feeds.
use crate::documents::coverage;
use crate::ids::is_shared_by_threads;
use edr_base::OutOfMemory;
use edr_chunk::Reads;
use edr_draft::{Change, Draft, drafts_cross_threads};
use edr_edition::{Edition, GridInstance, Kind, Store};
use std::alloc::Global;
use std::rt::HostRuntime;

// A bare grid of two times, two rows and three columns.
const GRID: &str =
    "Grid t=0,3600 y=0,100 x=0,100,200 crs=local values=10,11,12,13,-,15,20,21,22,23,24,25";

// Sets the bare grid whose parameter has the id and the label of these words, and says whether it could.
fn is_set(alloc: Global, draft: &mut Draft, parameter: &str) -> bool {
    match coverage(alloc, GRID, parameter) {
        Some(coverage) => coverage.is_valid() && draft.apply(Change::Bare(coverage)).is_ok(),
        None => false,
    }
}

// The edition 1 of one bare grid; of none where it isn't set.
fn first_edition(alloc: Global) -> Edition {
    let mut draft = Draft::empty(alloc);
    let _ = is_set(alloc, &mut draft, "temp:en:Temperature");
    draft.finish(1)
}

// The newest instance of the collection of bare grids.
fn newest(edition: &Edition) -> Option<&GridInstance> {
    edition.collection(b"grid")?.newest()
}

fn has_label(edition: &Edition, label: &[u8]) -> bool {
    match newest(edition) {
        Some(instance) => match instance.parameters() {
            [parameter] => parameter.label.bytes() == label,
            _ => false,
        },
        None => false,
    }
}

fn is_summed(edition: &Edition) -> bool {
    match newest(edition) {
        Some(instance) => {
            let tally = instance.tally();
            tally.samples == 12 && tally.present == 11 && tally.sum == 196
        }
        None => false,
    }
}

// Whether an edition stays as it is where a second one is made from it.
fn stays(alloc: Global, first: &Edition) -> Result<bool, OutOfMemory> {
    let mut draft = Draft::from_edition(alloc, first)?;
    let is_set = is_set(alloc, &mut draft, "temp:en:Heat");
    let second = draft.finish(2);
    Ok(is_set && has_label(first, b"Temperature") && has_label(&second, b"Heat"))
}

// What a store over the newest bare grid lists once its first tile was opened; nothing where there is no such grid.
fn opened(alloc: Global, edition: &Edition) -> Result<Reads, OutOfMemory> {
    let Some(collection) = edition.collection(b"grid") else {
        return Ok(Reads::new(alloc));
    };
    let Some(instance) = collection.newest() else {
        return Ok(Reads::new(alloc));
    };
    if collection.kind() != Kind::Grid || instance.grid().tiles() == 0 {
        return Ok(Reads::new(alloc));
    }
    let mut store = Store::of(alloc, edition, b"grid", None);
    let _ = store.tile(alloc, 0)?;
    Ok(store.into_reads())
}

fn opens_its_first_tile(alloc: Global, edition: &Edition) -> Result<bool, OutOfMemory> {
    Ok(opened(alloc, edition)?.numbers() == [0u64].as_slice())
}

fn drafts_are_shared_by_threads(draft: &Draft) {
    drafts_cross_threads();
    is_shared_by_threads(draft);
}

#[test]
fn editions_stay_and_are_counted(rt: HostRuntime) {
    let alloc = rt.alloc();
    let first = first_edition(alloc);
    assert!(rt; is_summed(&first));
    assert!(rt; stays(alloc, &first) == Ok(true));
    assert!(rt; opens_its_first_tile(alloc, &first) == Ok(true));
}

#[test]
fn drafts_are_shared(rt: HostRuntime) {
    let draft = Draft::empty(rt.alloc());
    drafts_are_shared_by_threads(&draft);
}
