//! Drafts.
ghost use Rattle.std.specs.Prelude.{◌≡◌, ◌≢◌, [], IfOk, IfErr, OnOk, OnErr};
ghost use Rattle.edr_edition.specs.Editions.{AreCollections};
ghost use Rattle.edr_draft.specs.Changes.{IsChange, Changes, IsRefused};
ghost use Rattle.edr_draft.specs.Steps.{IsMade};

use crate::changes::{Change, ChangeFault};
use crate::steps::{
    add_collection, drop_collection, drop_instance, drop_station, set_bare, set_instance,
    set_station,
};
use covjson_value::Referencing;
use edr_base::OutOfMemory;
use edr_edition::{CollectionData, Edition};
use edr_ids::ById;
use std::alloc::Global;
use std::marker::Model;

/// The collections of the next edition, as changes make them. Contracts see the list.
#[derive(Drop)]
pub struct Draft {
    alloc: Global,
    collections: ById<CollectionData>,
}

impl Model for Draft {
    ghost use Rattle.std.specs.Prelude.{List};
    ghost use Rattle.edr_edition.specs.Values.{CollectionValue};
    ghost use Rattle.edr_edition.specs.Editions.{AreCollections};

    ghost Value = { List CollectionValue };

    ghost view = { λ draft. draft.collections };

    ghost invariant = { λ draft. AreCollections draft.collections };
}

// One change of the collections.
fn change_collections(
    alloc: Global,
    collections: &mut ById<CollectionData>,
    change: Change,
) -> Result<(), ChangeFault>
    requires collections { AreCollections collections.old }
    requires change { IsChange change }
    ensures made { IsMade collections.old change result collections.new }
{
    match change {
        Change::Collection {
            id,
            kind,
            title,
            crs,
            vertical,
        } => add_collection(
            alloc,
            collections,
            id,
            kind,
            title,
            Referencing { crs, vertical },
        ),
        Change::Grid {
            collection,
            instance,
            coverage,
        } => set_instance(alloc, collections, collection.bytes(), instance, coverage),
        Change::Station {
            collection,
            id,
            label,
            coverage,
        } => set_station(alloc, collections, collection.bytes(), id, label, coverage),
        Change::DropCollection(collection) => drop_collection(
            alloc,
            collections,
            collection.bytes(),
        ),
        Change::DropInstance(collection, instance) => drop_instance(
            alloc,
            collections,
            collection.bytes(),
            instance.bytes(),
        ),
        Change::DropStation(collection, id) => drop_station(
            alloc,
            collections,
            collection.bytes(),
            id.bytes(),
        ),
        Change::Bare(coverage) => set_bare(alloc, collections, coverage),
    }
}

impl Draft {
    /// A draft without collections. It takes no memory.
    pub fn empty(alloc: Global) -> Draft
        ensures none { result ≡ [] }
        ensures collections { AreCollections result }
    {
        Draft {
            alloc,
            collections: ById::empty(),
        }
    }

    /// A draft with an edition's collections, which it shares. It takes no memory; its only error is that there are too many
    /// copies to be counted.
    pub fn from_edition(alloc: Global, edition: &Edition) -> Result<Draft, OutOfMemory>
        ensures { IfOk result (λ draft. draft ≡ edition.now.collections) }
    {
        Ok(Draft {
            alloc,
            collections: edition.collections()?,
        })
    }

    /// Makes a change, or answers the first fault that applies. That, and want of memory too, leaves the draft as it is, and
    /// the change is given up.
    pub fn apply(&mut self, change: Change) -> Result<(), ChangeFault>
        requires { IsChange change }
        ensures made { OnOk result (Changes self.old change self.new) }
        ensures refused { IfErr result (λ fault. fault ≢ ChangeFault.OutOfMemory → IsRefused self.old change fault) }
        ensures kept { OnErr result (self.new ≡ self.old) }
    {
        change_collections(self.alloc, &mut self.collections, change)
    }

    /// The edition of that number with the draft's collections. It takes no memory.
    pub fn finish(self, number: u64) -> Edition
        ensures { result ≡ record { number = number; collections = self } }
    {
        Edition::of(number, self.collections)
    }
}
