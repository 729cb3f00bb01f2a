//! What one reply is made from, read chunk by chunk.
ghost use Rattle.std.specs.Prelude.{◌≡◌, ◌++◌, ◌∷◌, [], None, Some, IsSome, option_map, IfOk, OnOk, OnErr};
ghost use Rattle.edr_edition.specs.Stores.{instance_named, subject_of, IsSubject, HasTile, IsTileOf, HasBlock, IsBlockOf};
ghost use Rattle.edr_edition.specs.declared.kinds.Kind.TheVariants.{Grid, Station};

use crate::collections::CollectionData;
use crate::editions::Edition;
use crate::instances::GridInstance;
use crate::kinds::Kind;
use edr_base::OutOfMemory;
use edr_chunk::{Reads, Tile};
use std::alloc::Global;
use std::marker::Model;

/// The data of one instance of an edition, or of the stations of a collection, for one reply, and the numbers of the tiles or
/// blocks that were opened. It hands out these and that list, and nothing else of the edition.
#[derive(Drop)]
pub struct Store<'a> {
    collection: &'a CollectionData,
    // None for a collection of stations.
    instance: Option<&'a GridInstance>,
    reads: Reads,
}

impl<'a> Model for Store<'a> {
    ghost use Rattle.std.specs.Prelude.{option_map};
    ghost use Rattle.edr_edition.specs.Stores.{StoreValue, IsSubject, held_by};

    ghost Value = { StoreValue };

    ghost view = { λ s. record {
      subject = record { collection = s.collection.now; held = held_by s.collection.now (option_map (λ i. i.now) s.instance) };
      numbers = s.reads;
    } };

    ghost invariant = { λ s. IsSubject (record {
      collection = s.collection.now;
      held = held_by s.collection.now (option_map (λ i. i.now) s.instance);
    }) };
}

// The instance that a store over the collection has: of grids the one of the id, or the newest where none is named.
fn instance_held<'a>(
    collection: &'a CollectionData,
    instance: Option<&[u8]>,
) -> Option<&'a GridInstance>
    ensures grids { collection.now.kind ≡ Grid → option_map (λ found. found.now) result ≡ instance_named (option_map (λ id. id.now) instance.entry) collection.now.instances }
    ensures stations { collection.now.kind ≡ Station → option_map (λ found. found.now) result ≡ None }
{
    match (collection.kind(), instance) {
        (Kind::Grid, Some(id)) => collection.instance(id),
        (Kind::Grid, None) => collection.newest(),
        (Kind::Station, _) => None,
    }
}

impl<'a> Store<'a> {
    /// The store over a collection of an edition and the instance of an id, or its newest where none is named; over its
    /// stations where it is a collection of stations. No tile or block was opened. It takes no memory.
    pub fn of(
        alloc: Global,
        edition: &'a Edition,
        collection: &[u8],
        instance: Option<&[u8]>,
    ) -> Store<'a>
        requires { IsSome (subject_of edition.now collection.now (option_map (λ id. id.now) instance)) }
        ensures subject { Some result.subject ≡ subject_of edition.now collection.now (option_map (λ id. id.now) instance.entry) }
        ensures none { result.numbers ≡ [] }
        ensures stands { IsSubject result.subject }
    {
        let Some(collection) = edition.collection(collection) else {
            unreachable!()
        };
        Store {
            collection,
            instance: instance_held(collection, instance),
            reads: Reads::new(alloc),
        }
    }

    /// The tile of a number; the number is appended to the list. After want of memory, its only error, the list is as it was.
    pub fn tile(&mut self, alloc: Global, tile: u64) -> Result<Tile, OutOfMemory>
        requires { HasTile self.old.subject.held tile }
        ensures tile { IfOk result (λ opened. IsTileOf self.old.subject.held tile opened) }
        ensures read { OnOk result (self.new.numbers ≡ self.old.numbers ++ tile ∷ []) }
        ensures unread { OnErr result (self.new.numbers ≡ self.old.numbers) }
        ensures subject { self.new.subject ≡ self.old.subject }
        ensures stands { IsSubject self.old.subject }
    {
        let Some(instance) = self.instance else {
            unreachable!()
        };
        instance.grid().open(alloc, tile, &mut self.reads)
    }

    /// The values of the block of a number, in the order t, z; the number is appended to the list. After want of memory, its
    /// only error, the list is as it was.
    pub fn block(&mut self, alloc: Global, number: u64) -> Result<Vec<Option<i64>>, OutOfMemory>
        requires { HasBlock self.old.subject.held number }
        ensures block { IfOk result (λ values. IsBlockOf self.old.subject.held number values.items) }
        ensures read { OnOk result (self.new.numbers ≡ self.old.numbers ++ number ∷ []) }
        ensures unread { OnErr result (self.new.numbers ≡ self.old.numbers) }
        ensures subject { self.new.subject ≡ self.old.subject }
        ensures stands { IsSubject self.old.subject }
    {
        let Some(stations) = self.collection.stations() else {
            unreachable!()
        };
        stations.open_block(alloc, number, &mut self.reads)
    }

    /// What it is over is a collection, and one of its instances or its stations.
    pub fn subject_stands(&self)
        ensures { IsSubject self.now.subject }
    {
        let _ = &self.collection;
    }

    /// The numbers of the tiles or blocks that were opened, in that order. It takes no memory.
    pub fn numbers(&self) -> &[u64]
        ensures { result.now ≡ self.now.numbers }
    {
        self.reads.numbers()
    }

    /// The list of those numbers. It takes no memory.
    pub fn into_reads(self) -> Reads
        ensures { result ≡ self.entry.numbers }
    {
        self.reads
    }
}
