//! Trees of shared items that stand in boxes of the plane.
//!
//! A tree is a page of few items, or a fork of two sides; each side knows a box round its items, so a search passes over
//! what is too far. A page with too many items is parted by the first bit in which the keys of their places differ, where the
//! bits of x and y take turns; a fork so has the items that share the bits before. Thus no way through a tree is longer than
//! a key has bits. A change copies the forks on its way and its page, and shares all others with the tree that it was made of.
ghost use Rattle.std.specs.Prelude.{◌≡◌, false, ◌⊎◌, ◌↔◌, ◌<◌, ◌≤◌, ◌++◌, ◌∷◌, [], length, Contains, IsTrue, IsSomeAnd, IfOk, OnOk, option_map, option_to_list};
ghost use Rattle.std.specs.Arc.{arc_value};
ghost use Rattle.edr_near.specs.Squares.{IsSpot, squared_distance};
ghost use Rattle.edr_near.specs.Near.{Nearest, is_it};
ghost use Rattle.edr_near.specs.Near as near;
ghost use Rattle.edr_near.specs.Frames.{Holds, IsFrame};
ghost use Rattle.edr_near.specs.Kept.{values_of, items_in, HasAll, IsMore, AreBoth, IsLeft};

use crate::frames::Frame;
use crate::keys::{Parting, Side, key_of, parting_of};
use crate::placed::{self, Placed, distance_of, nearer_of};
use edr_base::{OutOfMemory, Spot};
use edr_ids::Identified;
use std::alloc::Global;
use std::marker::Model;
use std::sync::Arc;

// How many items a page has at most, but where their keys are one.
const PAGE: usize = 64;

/// Some shared items, of which there is at least one. Contracts see a list of them.
#[cycle(tree)]
#[derive(Drop)]
pub struct Tree<T: Placed> {
    frame: Frame,
    top: Top<T>,
}

#[cycle(tree)]
#[derive(Drop)]
enum Top<T: Placed> {
    Items(Arc<Vec<Arc<T>>>),
    Sides(Arc<Fork<T>>),
}

// Two sides, and where they part.
#[cycle(tree)]
#[derive(Drop)]
struct Fork<T: Placed> {
    before: Tree<T>,
    behind: Tree<T>,
    parting: Parting,
}

impl<T: Placed> Model for Tree<T> {
    ghost use Rattle.std.specs.Prelude.{List, length};
    ghost use Rattle.std.specs.Coded.{coded_list};

    ghost Value = { List T };

    ghost coded = { coded_list T.code };

    ghost use Rattle.edr_near.specs.Trees.{all_in, HasSides, IsFramed};

    ghost view = { λ tree. all_in tree.top };

    ghost invariant = { λ tree. HasSides tree.top × IsFramed T.spot_of tree.frame (all_in tree.top) };

    ghost size = { length };

    ghost use Rattle.edr_near.specs.TreeDepths.{sides_are_shorter};

    ghost size_decreases = { λ tree inv. sides_are_shorter (record { spot_of = T.spot_of }) tree.frame tree.top inv.0 };
}

// Shares some items more.
fn share_all<T: Drop>(items: &[Arc<T>], shared: &mut Vec<Arc<T>>) -> Result<(), OutOfMemory>
    ensures { OnOk result (values_of shared.new.items ≡ values_of shared.old.items ++ values_of items.now) }
{
    for item in items {
        shared.push(Arc::try_clone(item)?)?;
    }
    Ok(())
}

// The items of a page and one more.
fn one_more<T: Drop>(
    alloc: Global,
    page: &[Arc<T>],
    item: &Arc<T>,
) -> Result<Vec<Arc<T>>, OutOfMemory>
    ensures { IfOk result (λ items. values_of items.items ≡ values_of page.now ++ arc_value item.now ∷ []) }
{
    let mut items = Vec::with_capacity(alloc, page.len().saturating_add(1))?;
    share_all(page, &mut items)?;
    items.push(Arc::try_clone(item)?)?;
    Ok(items)
}

// A box round some items.
fn frame_of<T: Placed>(items: &[Arc<T>]) -> Frame
    requires { 0 < length items.now }
    ensures frame { IsFrame result }
    ensures holds { (v : T) → Contains (values_of items.now) v → Holds result (T.spot_of v) }
{
    let mut frame = Frame::of(items[0].spot());
    for item in items {
        frame = frame.with(item.spot());
    }
    frame
}

// Of an item, if one is given, and those of a page that which is nearest to a place.
fn nearest_of<'a, T: Identified + Placed>(
    items: &'a [Arc<T>],
    best: Option<&'a T>,
    spot: &Spot,
) -> Option<&'a T>
    requires { IsSpot spot.now }
    ensures { Nearest T.id_of T.spot_of spot.now (Contains (option_to_list (option_map (λ b. b.now) best.entry) ++ values_of items.now)) (option_map (λ i. i.now) result) }
{
    let mut nearest = best;
    for item in items {
        nearest = nearer_of(nearest, item, spot);
    }
    nearest
}

// How many of some items stand behind where they part.
fn count_behind<T: Identified + Placed>(items: &[Arc<T>], parting: &Parting) -> usize {
    let mut count: usize = 0;
    for item in items {
        if parting.is_behind(key_of::<T>(item)) {
            count = count.saturating_add(1);
        }
    }
    count
}

// Some items by the side on which they stand.
fn parted<T: Identified + Placed + Drop>(
    alloc: Global,
    items: &[Arc<T>],
    parting: &Parting,
) -> Result<(Vec<Arc<T>>, Vec<Arc<T>>), OutOfMemory>
    ensures { IfOk result (λ sides. AreBoth (values_of sides.0.items) (values_of sides.1.items) (values_of items.now)) }
{
    let count = count_behind(items, parting);
    let mut before = Vec::with_capacity(alloc, items.len().saturating_sub(count))?;
    let mut behind = Vec::with_capacity(alloc, count)?;
    for item in items {
        if parting.is_behind(key_of::<T>(item)) {
            behind.push(Arc::try_clone(item)?)?;
        } else {
            before.push(Arc::try_clone(item)?)?;
        }
    }
    Ok((before, behind))
}

// The items but those that have an id and stand at a place.
fn others<T: Identified + Placed + Drop>(
    alloc: Global,
    items: &[Arc<T>],
    id: &[u8],
    spot: &Spot,
) -> Result<Vec<Arc<T>>, OutOfMemory>
    ensures { IfOk result (λ others. IsLeft T.id_of T.spot_of spot.now id.now (values_of items.now) (values_of others.items)) }
{
    let mut others = Vec::with_capacity(alloc, items.len())?;
    for item in items {
        if !placed::is_it::<T>(item, id, spot) {
            others.push(Arc::try_clone(item)?)?;
        }
    }
    Ok(others)
}

// A page of some items.
fn on_page<T: Placed + Drop>(alloc: Global, items: Vec<Arc<T>>) -> Result<Tree<T>, OutOfMemory>
    requires { 0 < length items.items }
    ensures { IfOk result (λ tree. tree ≡ values_of items.items) }
{
    Ok(Tree {
        frame: frame_of(&items),
        top: Top::Items(Arc::new(alloc, items)?),
    })
}

// A page of some items, or None where there are none.
fn on_page_if_any<T: Placed + Drop>(
    alloc: Global,
    items: Vec<Arc<T>>,
) -> Result<Option<Tree<T>>, OutOfMemory>
    ensures { IfOk result (λ tree. items_in tree ≡ values_of items.items) }
{
    if items.is_empty() {
        return Ok(None);
    }
    Ok(Some(on_page(alloc, items)?))
}

// A fork of two sides.
fn joined<T: Placed + Drop>(
    alloc: Global,
    parting: Parting,
    before: Tree<T>,
    behind: Tree<T>,
) -> Result<Tree<T>, OutOfMemory>
    ensures { IfOk result (λ tree. tree ≡ before ++ behind) }
{
    let frame = before.frame.and(&behind.frame);
    let fork = Fork {
        before,
        behind,
        parting,
    };
    Ok(Tree {
        frame,
        top: Top::Sides(Arc::new(alloc, fork)?),
    })
}

// The items of two sides of which there may be none.
fn rejoined<T: Placed + Drop>(
    alloc: Global,
    parting: Parting,
    before: Option<Tree<T>>,
    behind: Option<Tree<T>>,
) -> Result<Option<Tree<T>>, OutOfMemory>
    ensures { IfOk result (λ tree. items_in tree ≡ items_in before ++ items_in behind) }
{
    match (before, behind) {
        (Some(before), Some(behind)) => Ok(Some(joined(alloc, parting, before, behind)?)),
        (Some(before), None) => Ok(Some(before)),
        (None, behind) => Ok(behind),
    }
}

// Some items on one page, or on two where they are more than it may have.
fn on_pages<T: Identified + Placed + Drop>(
    alloc: Global,
    items: Vec<Arc<T>>,
) -> Result<Tree<T>, OutOfMemory>
    requires { 0 < length items.items }
    ensures { IfOk result (λ tree. HasAll (values_of items.items) tree) }
{
    if items.len() <= PAGE {
        return on_page(alloc, items);
    }
    let parting = parting_of(&items);
    let (before, behind) = parted(alloc, &items, &parting)?;
    if before.is_empty() || behind.is_empty() {
        return on_page(alloc, items);
    }
    joined(
        alloc,
        parting,
        on_page(alloc, before)?,
        on_page(alloc, behind)?,
    )
}

// The items of a tree and those of a page that stand apart from them.
fn beside<T: Identified + Placed + Drop>(
    alloc: Global,
    parting: Parting,
    tree: Tree<T>,
    item: &Arc<T>,
) -> Result<Tree<T>, OutOfMemory>
    ensures { IfOk result (λ more. IsMore tree (arc_value item.now) more) }
{
    let page = Tree::of(alloc, item)?;
    if parting.is_behind(key_of::<T>(item)) {
        joined(alloc, parting, tree, page)
    } else {
        joined(alloc, parting, page, tree)
    }
}

impl<T: Placed> Tree<T> {
    /// It has an item at least.
    pub fn stand(&self)
        ensures { 0 < length self.now }
    {
        let _ = &self.top;
    }

    /// An equal tree, which shares all items.
    pub fn share(&self) -> Result<Tree<T>, OutOfMemory>
        ensures { IfOk result (λ tree. tree ≡ self.now) }
    {
        let top = match &self.top {
            Top::Items(page) => Top::Items(Arc::try_clone(page)?),
            Top::Sides(fork) => Top::Sides(Arc::try_clone(fork)?),
        };
        Ok(Tree {
            frame: self.frame,
            top,
        })
    }

    // How far its box is from a place, squared: none of its items is nearer.
    fn distance(&self, spot: &Spot) -> u64
        requires { IsSpot spot.now }
        ensures { (v : T) → Contains self.now v → result ≤ squared_distance (T.spot_of v) spot.now }
    {
        self.frame.distance(spot)
    }
}

impl<T: Identified + Placed> Tree<T> {
    // Whether all its items are farther from a place than the best one so far.
    fn is_beyond(&self, best: Option<&T>, spot: &Spot) -> bool
        requires { IsSpot spot.now }
        ensures { IsTrue result → IsSomeAnd (option_map (λ b. b.now) best.entry) (λ b. (v : T) → Contains self.now v → near.distance_of T.id_of T.spot_of spot.now b < near.distance_of T.id_of T.spot_of spot.now v) }
    {
        match best {
            None => false,
            Some(best) => distance_of(best, spot) < self.distance(spot),
        }
    }

    /// Of an item, if one is given, and those of the tree that which is nearest to a place.
    pub fn nearer<'a>(&'a self, best: Option<&'a T>, spot: &Spot) -> Option<&'a T>
        requires { IsSpot spot.now }
        ensures { Nearest T.id_of T.spot_of spot.now (Contains (option_to_list (option_map (λ b. b.now) best.entry) ++ self.now)) (option_map (λ i. i.now) result) }
    {
        if self.is_beyond(best, spot) {
            return best;
        }
        match &self.top {
            Top::Items(page) => nearest_of(page, best, spot),
            Top::Sides(fork) => {
                let fork: &Fork<T> = fork;
                if fork.before.distance(spot) <= fork.behind.distance(spot) {
                    let first = fork.before.nearer(best, spot);
                    fork.behind.nearer(first, spot)
                } else {
                    let first = fork.behind.nearer(best, spot);
                    fork.before.nearer(first, spot)
                }
            }
        }
    }
}

impl<T: Identified + Placed + Drop> Tree<T> {
    /// A tree of one item.
    pub fn of(alloc: Global, item: &Arc<T>) -> Result<Tree<T>, OutOfMemory>
        ensures { IfOk result (λ tree. tree ≡ arc_value item.now ∷ []) }
    {
        let mut items = Vec::with_capacity(alloc, 1)?;
        items.push(Arc::try_clone(item)?)?;
        on_page(alloc, items)
    }

    /// The items and one more.
    pub fn with(&self, alloc: Global, item: &Arc<T>) -> Result<Tree<T>, OutOfMemory>
        ensures { IfOk result (λ tree. IsMore self.now (arc_value item.now) tree) }
    {
        match &self.top {
            Top::Items(page) => {
                let items = one_more(alloc, page, item)?;
                on_pages(alloc, items)
            }
            Top::Sides(fork) => {
                let fork: &Fork<T> = fork;
                match fork.parting.side_of(key_of::<T>(item)) {
                    Side::Apart(parting) => beside(alloc, parting, self.share()?, item),
                    Side::Before => {
                        let before = fork.before.with(alloc, item)?;
                        joined(alloc, fork.parting, before, fork.behind.share()?)
                    }
                    Side::Behind => {
                        let behind = fork.behind.with(alloc, item)?;
                        joined(alloc, fork.parting, fork.before.share()?, behind)
                    }
                }
            }
        }
    }

    /// The items but those that have an id and stand at a place; None where there are no others.
    pub fn without(
        &self,
        alloc: Global,
        id: &[u8],
        spot: &Spot,
    ) -> Result<Option<Tree<T>>, OutOfMemory>
        ensures { IfOk result (λ left. IsLeft T.id_of T.spot_of spot.now id.now self.now (items_in left)) }
    {
        if !self.frame.holds(spot) {
            return Ok(Some(self.share()?));
        }
        match &self.top {
            Top::Items(page) => {
                let items = others(alloc, page, id, spot)?;
                on_page_if_any(alloc, items)
            }
            Top::Sides(fork) => {
                let fork: &Fork<T> = fork;
                let before = fork.before.without(alloc, id, spot)?;
                let behind = fork.behind.without(alloc, id, spot)?;
                rejoined(alloc, fork.parting, before, behind)
            }
        }
    }
}
