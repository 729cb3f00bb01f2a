//! Lists of items in the order of their ids, which share what is equal.
ghost use Rattle.std.specs.Prelude.{◌≡◌, ◌≢◌, ◌<◌, [], None, length, is_some, option_map, IfOk, OnOk, OnErr};
ghost use Rattle.std.specs.List.{slice_index_or};
ghost use Rattle.edr_ids.specs.Ids as ids;
ghost use Rattle.edr_ids.specs.Ids.{AscendBy, with_item, without_id};

use crate::identified::Identified;
use crate::trees::Tree;
use edr_base::OutOfMemory;
use std::alloc::Global;
use std::marker::Model;
use std::sync::Arc;

/// Items in strictly ascending order of their ids, byte by byte. Contracts see the list.
///
/// They stand in a balanced tree whose branches are shared: an item is found, set and taken out in a time that grows with
/// the logarithm of their number, in whatever order the ids come. An equal copy takes no memory, and a change of one of two
/// copies takes as much as its way through the tree; the other stays as it is.
#[derive(Drop)]
pub struct ById<T: Identified> {
    items: Tree<T>,
}

impl<T: Identified> Model for ById<T> {
    ghost use Rattle.std.specs.Prelude.{List};
    ghost use Rattle.std.specs.Coded.{coded_list};
    ghost use Rattle.edr_ids.specs.Ids.{AscendBy};

    ghost Value = { List T };

    ghost coded = { coded_list T.code };

    ghost view = { λ list. list.items };

    ghost invariant = { λ list. AscendBy T.id_of list.items };
}

impl<T: Identified> ById<T> {
    /// No items. It takes no memory.
    pub fn empty() -> ById<T>
        ensures { result ≡ [] }
    {
        ById {
            items: Tree::empty(),
        }
    }

    /// How many items there are.
    pub fn len(&self) -> usize
        ensures len { result ≡ length self.now }
        ensures ascending { AscendBy T.id_of self.now }
    {
        self.items.len()
    }

    /// The item at a place, from 0, in ascending order of ids.
    pub fn at(&self, place: usize) -> &T
        requires { place < length self.now }
        ensures { (d : T) → result.now ≡ slice_index_or self.now place d }
    {
        self.items.at(place)
    }

    /// The item of an id, or None exactly where there is none. It takes no memory.
    pub fn item_of(&self, id: &[u8]) -> Option<&T>
        ensures { option_map (λ item. item.now) result ≡ ids.item_of T.id_of id.now self.now }
    {
        self.items.item_of(id)
    }

    /// An equal list, which shares all items. It takes no memory; its only error is that there are too many copies to be
    /// counted.
    pub fn share(&self) -> Result<ById<T>, OutOfMemory>
        ensures { IfOk result (λ list. list ≡ self.now) }
    {
        Ok(ById {
            items: self.items.share()?,
        })
    }
}

impl<T: Identified + Drop> ById<T> {
    /// Sets an item at its place, instead of that of the same id where there is one.
    ///
    /// After want of memory, its only error, the items are as they were, and the item is given up.
    pub fn put(&mut self, alloc: Global, item: T) -> Result<(), OutOfMemory>
        ensures put { OnOk result (self.new ≡ with_item T.id_of item self.old) }
        ensures kept { OnErr result (self.new ≡ self.old) }
    {
        let shared = Arc::new(alloc, item)?;
        self.items = self.items.with(alloc, &shared)?;
        Ok(())
    }

    /// Takes out the item of an id, and says whether there was one.
    ///
    /// After want of memory, its only error, the items are as they were. Where there is no item of the id it takes none.
    pub fn take_out(&mut self, alloc: Global, id: &[u8]) -> Result<bool, OutOfMemory>
        ensures was { IfOk result (λ was. was ≡ is_some (ids.item_of T.id_of id.now self.old)) }
        ensures without { OnOk result (self.new ≡ without_id T.id_of id.now self.old) }
        ensures kept { OnErr result (self.new ≡ self.old) }
        ensures there { OnErr result (ids.item_of T.id_of id.now self.old ≢ None) }
    {
        if self.items.item_of(id).is_none() {
            return Ok(false);
        }
        self.items = self.items.without(alloc, id)?;
        Ok(true)
    }
}
