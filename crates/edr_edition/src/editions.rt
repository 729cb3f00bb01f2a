//! Editions.
ghost use Rattle.std.specs.Prelude.{◌≡◌, ◌<◌, length, option_map, IfOk, IfSome};
ghost use Rattle.std.specs.List.{slice_index_or};
ghost use Rattle.edr_ids.specs.Ids as ids;
ghost use Rattle.edr_edition.specs.Values.{CollectionValue, collection_id};
ghost use Rattle.edr_edition.specs.Editions.{IsCollection, AreCollections};

use crate::collections::CollectionData;
use edr_base::OutOfMemory;
use edr_ids::ById;
use std::marker::Model;

/// The whole state of all collections after one publish. It never changes.
///
/// Its collections stand in strictly ascending order of their ids, byte by byte.
#[derive(Drop)]
pub struct Edition {
    number: u64,
    collections: ById<CollectionData>,
}

impl Model for Edition {
    ghost use Rattle.edr_edition.specs.Values.{EditionValue};
    ghost use Rattle.edr_edition.specs.Editions.{AreCollections};

    ghost Value = { EditionValue };

    ghost view = { λ e. record { number = e.number; collections = e.collections } };

    ghost invariant = { λ e. AreCollections e.collections };
}

impl Edition {
    /// The edition of that number of these collections. It takes no memory.
    pub fn of(number: u64, collections: ById<CollectionData>) -> Edition
        requires { AreCollections collections }
        ensures { result ≡ record { number = number; collections = collections } }
    {
        Edition {
            number,
            collections,
        }
    }

    /// The number that it was finished with.
    pub fn number(&self) -> u64
        ensures { result ≡ self.now.number }
    {
        self.number
    }

    /// How many collections it has.
    pub fn len(&self) -> usize
        ensures len { result ≡ length self.now.collections }
        ensures collections { AreCollections self.now.collections }
    {
        self.collections.len()
    }

    /// The collection at a place, from 0, in ascending order of ids.
    pub fn collection_at(&self, place: usize) -> &CollectionData
        requires { place < length self.now.collections }
        ensures at { (d : CollectionValue) → result.now ≡ slice_index_or self.now.collections place d }
        ensures collection { IsCollection result.now }
    {
        self.collections.at(place)
    }

    /// The collection of an id, None exactly where there is none. It takes no memory.
    pub fn collection(&self, id: &[u8]) -> Option<&CollectionData>
        ensures item { option_map (λ collection. collection.now) result ≡ ids.item_of collection_id id.now self.now.collections }
        ensures collection { IfSome result (λ collection. IsCollection collection.now) }
    {
        self.collections.item_of(id)
    }

    /// Equal collections, which share all that they hold. It takes no memory; its only error is that there are too many copies
    /// to be counted.
    pub fn collections(&self) -> Result<ById<CollectionData>, OutOfMemory>
        ensures same { IfOk result (λ collections. collections ≡ self.now.collections) }
        ensures collections { AreCollections self.now.collections }
    {
        self.collections.share()
    }
}
