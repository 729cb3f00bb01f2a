//! Balanced trees that share what is equal, seen as lists.
//!
//! A change copies the branches on the way from the top to its place, and shares all others with the tree that it was
//! made of. Each branch knows how many items it has, and balances its sides by that number plus one: no side weighs more
//! than three times what the other does (Y. Hirai and K. Yamamoto, Balancing weight-balanced trees, 2011).
ghost use Rattle.std.specs.Prelude.{◌≡◌, ◌<◌, [], ◌++◌, ◌∷◌, drop, length, option_map, IfOk, MatchOption};
ghost use Rattle.std.specs.List.{slice_index_or};
ghost use Rattle.std.specs.Arc.{arc_value};
ghost use Rattle.edr_ids.specs.Ids as ids;
ghost use Rattle.edr_ids.specs.Ids.{AscendBy, with_item, without_id};

use crate::identified::Identified;
use edr_base::OutOfMemory;
use std::alloc::Global;
use std::cmp::Ordering;
use std::marker::Model;
use std::sync::Arc;

/// A list of shared items.
#[cycle(tree)]
#[derive(Drop)]
pub struct Tree<T> {
    top: Option<Arc<Branch<T>>>,
}

// The items before one, it, the items behind it, and how many these are.
#[cycle(tree)]
#[derive(Drop)]
struct Branch<T> {
    before: Tree<T>,
    item: Arc<T>,
    behind: Tree<T>,
    len: usize,
}

impl<T> Model for Tree<T> {
    ghost use Rattle.std.specs.Prelude.{List, length};
    ghost use Rattle.std.specs.Coded.{coded_list};

    ghost Value = { List T };

    ghost coded = { coded_list T.code };

    ghost use Rattle.edr_ids.specs.Trees.{items_of, IsCounted};

    ghost view = { λ tree. items_of tree.top };

    ghost invariant = { λ tree. IsCounted tree.top };

    ghost size = { length };

    ghost use Rattle.edr_ids.specs.TreeDepths.{sides_are_shorter};

    ghost size_decreases = { λ tree counted. sides_are_shorter tree.top };
}

impl<T> Tree<T> {
    /// A tree without items. It takes no memory.
    pub fn empty() -> Tree<T>
        ensures { result ≡ [] }
    {
        Tree { top: None }
    }

    /// How many items it has.
    pub fn len(&self) -> usize
        ensures { result ≡ length self.now }
    {
        match &self.top {
            None => 0,
            Some(branch) => branch.len,
        }
    }

    /// The item at a place, from 0.
    pub fn at(&self, place: usize) -> &T
        requires { place < length self.now }
        ensures { (d : T) → result.now ≡ slice_index_or self.now place d }
    {
        match &self.top {
            None => unreachable!(),
            Some(branch) => {
                let branch: &Branch<T> = branch;
                let before = branch.before.len();
                if place < before {
                    branch.before.at(place)
                } else if place == before {
                    &branch.item
                } else {
                    branch.behind.at(place - before - 1)
                }
            }
        }
    }

    /// An equal tree, which shares all branches.
    pub fn share(&self) -> Result<Tree<T>, OutOfMemory>
        ensures { IfOk result (λ tree. tree ≡ self.now) }
    {
        match &self.top {
            None => Ok(Tree { top: None }),
            Some(branch) => Ok(Tree {
                top: Some(Arc::try_clone(branch)?),
            }),
        }
    }

    // What it weighs against another side.
    fn weight(&self) -> usize {
        self.len().saturating_add(1)
    }
}

// A tree of the items before one, it, and those behind it, which shares them.
fn joined<T: Drop>(
    alloc: Global,
    before: &Tree<T>,
    item: &Arc<T>,
    behind: &Tree<T>,
) -> Result<Tree<T>, OutOfMemory>
    ensures { IfOk result (λ tree. tree ≡ before.now ++ arc_value item.now ∷ behind.now) }
{
    let (front, back) = (before.len(), behind.len());
    if back >= usize::MAX - front {
        return Err(OutOfMemory);
    }
    let branch = Branch {
        before: before.share()?,
        item: Arc::try_clone(item)?,
        behind: behind.share()?,
        len: front + back + 1,
    };
    Ok(Tree {
        top: Some(Arc::new(alloc, branch)?),
    })
}

// A tree of the items before one, it, those between it and another, the other, and those behind that: what is between
// stands at the back.
fn joined_to_back<T: Drop>(
    alloc: Global,
    before: &Tree<T>,
    item: &Arc<T>,
    inner: &Tree<T>,
    top: &Arc<T>,
    outer: &Tree<T>,
) -> Result<Tree<T>, OutOfMemory>
    ensures { IfOk result (λ tree. tree ≡ before.now ++ arc_value item.now ∷ inner.now ++ arc_value top.now ∷ outer.now) }
{
    let back = joined(alloc, inner, top, outer)?;
    joined(alloc, before, item, &back)
}

// The same, but what is between is divided among the two sides.
fn divided<T: Drop>(
    alloc: Global,
    before: &Tree<T>,
    item: &Arc<T>,
    inner: &Tree<T>,
    top: &Arc<T>,
    outer: &Tree<T>,
) -> Result<Tree<T>, OutOfMemory>
    ensures { IfOk result (λ tree. tree ≡ before.now ++ arc_value item.now ∷ inner.now ++ arc_value top.now ∷ outer.now) }
{
    let Some(branch) = &inner.top else {
        return joined_to_back(alloc, before, item, inner, top, outer);
    };
    let branch: &Branch<T> = branch;
    let front = joined(alloc, before, item, &branch.before)?;
    joined_to_back(alloc, &front, &branch.item, &branch.behind, top, outer)
}

// The same as `joined`, where the side behind the item weighs too much: it gives up its front.
fn turned_to_front<T: Drop>(
    alloc: Global,
    before: &Tree<T>,
    item: &Arc<T>,
    behind: &Tree<T>,
) -> Result<Tree<T>, OutOfMemory>
    ensures { IfOk result (λ tree. tree ≡ before.now ++ arc_value item.now ∷ behind.now) }
{
    let Some(branch) = &behind.top else {
        return joined(alloc, before, item, behind);
    };
    let branch: &Branch<T> = branch;
    if branch.before.weight() < branch.behind.weight().saturating_mul(2) {
        let front = joined(alloc, before, item, &branch.before)?;
        joined(alloc, &front, &branch.item, &branch.behind)
    } else {
        divided(
            alloc,
            before,
            item,
            &branch.before,
            &branch.item,
            &branch.behind,
        )
    }
}

// The same, where the side before the item weighs too much: it gives up its back.
fn turned_to_back<T: Drop>(
    alloc: Global,
    front: &Tree<T>,
    item: &Arc<T>,
    behind: &Tree<T>,
) -> Result<Tree<T>, OutOfMemory>
    ensures { IfOk result (λ tree. tree ≡ front.now ++ arc_value item.now ∷ behind.now) }
{
    let Some(branch) = &front.top else {
        return joined(alloc, front, item, behind);
    };
    let branch: &Branch<T> = branch;
    if branch.behind.weight() < branch.before.weight().saturating_mul(2) {
        joined_to_back(
            alloc,
            &branch.before,
            &branch.item,
            &branch.behind,
            item,
            behind,
        )
    } else {
        divided(
            alloc,
            &branch.before,
            &branch.item,
            &branch.behind,
            item,
            behind,
        )
    }
}

// The same, of sides that may differ by one change from those of a balanced tree.
fn balanced<T: Drop>(
    alloc: Global,
    before: &Tree<T>,
    item: &Arc<T>,
    behind: &Tree<T>,
) -> Result<Tree<T>, OutOfMemory>
    ensures { IfOk result (λ tree. tree ≡ before.now ++ arc_value item.now ∷ behind.now) }
{
    let (front, back) = (before.weight(), behind.weight());
    if back > front.saturating_mul(3) {
        turned_to_front(alloc, before, item, behind)
    } else if front > back.saturating_mul(3) {
        turned_to_back(alloc, before, item, behind)
    } else {
        joined(alloc, before, item, behind)
    }
}

impl<T: Drop> Tree<T> {
    // The first item; None exactly where there is none.
    fn first(&self) -> Option<&Arc<T>>
        ensures { MatchOption result (self.now ≡ []) (λ item. self.now ≡ arc_value item.now ∷ drop 1 self.now) }
    {
        let Some(branch) = &self.top else {
            return None;
        };
        let branch: &Branch<T> = branch;
        match branch.before.first() {
            Some(first) => Some(first),
            None => Some(&branch.item),
        }
    }

    // The items without the first.
    fn without_first(&self, alloc: Global) -> Result<Tree<T>, OutOfMemory>
        ensures { IfOk result (λ tree. tree ≡ drop 1 self.now) }
    {
        let Some(branch) = &self.top else {
            return Ok(Tree::empty());
        };
        let branch: &Branch<T> = branch;
        if branch.before.len() == 0 {
            return branch.behind.share();
        }
        let before = branch.before.without_first(alloc)?;
        balanced(alloc, &before, &branch.item, &branch.behind)
    }

    // The items of one tree and then those of another.
    fn followed_by(&self, alloc: Global, behind: &Tree<T>) -> Result<Tree<T>, OutOfMemory>
        ensures { IfOk result (λ tree. tree ≡ self.now ++ behind.now) }
    {
        match behind.first() {
            None => self.share(),
            Some(first) => {
                let others = behind.without_first(alloc)?;
                balanced(alloc, self, first, &others)
            }
        }
    }
}

impl<T: Identified> Tree<T> {
    /// The item of an id, or None exactly where there is none. It takes no memory.
    pub fn item_of(&self, id: &[u8]) -> Option<&T>
        requires { AscendBy T.id_of self.now }
        ensures { option_map (λ item. item.now) result ≡ ids.item_of T.id_of id.now self.now }
    {
        match &self.top {
            None => None,
            Some(branch) => {
                let branch: &Branch<T> = branch;
                match id.cmp(branch.item.id()) {
                    Ordering::Less => branch.before.item_of(id),
                    Ordering::Equal => Some(&branch.item),
                    Ordering::Greater => branch.behind.item_of(id),
                }
            }
        }
    }
}

impl<T: Identified + Drop> Tree<T> {
    /// The items with one set.
    pub fn with(&self, alloc: Global, item: &Arc<T>) -> Result<Tree<T>, OutOfMemory>
        requires { AscendBy T.id_of self.now }
        ensures { IfOk result (λ tree. tree ≡ with_item T.id_of (arc_value item.now) self.now) }
    {
        let Some(branch) = &self.top else {
            // there is nothing before the item, and nothing behind it
            return joined(alloc, self, item, self);
        };
        let branch: &Branch<T> = branch;
        match item.id().cmp(branch.item.id()) {
            Ordering::Less => {
                let before = branch.before.with(alloc, item)?;
                balanced(alloc, &before, &branch.item, &branch.behind)
            }
            Ordering::Equal => joined(alloc, &branch.before, item, &branch.behind),
            Ordering::Greater => {
                let behind = branch.behind.with(alloc, item)?;
                balanced(alloc, &branch.before, &branch.item, &behind)
            }
        }
    }

    /// The items without that of an id.
    pub fn without(&self, alloc: Global, id: &[u8]) -> Result<Tree<T>, OutOfMemory>
        requires { AscendBy T.id_of self.now }
        ensures { IfOk result (λ tree. tree ≡ without_id T.id_of id.now self.now) }
    {
        let Some(branch) = &self.top else {
            return Ok(Tree::empty());
        };
        let branch: &Branch<T> = branch;
        match id.cmp(branch.item.id()) {
            Ordering::Less => {
                let before = branch.before.without(alloc, id)?;
                balanced(alloc, &before, &branch.item, &branch.behind)
            }
            Ordering::Equal => branch.before.followed_by(alloc, &branch.behind),
            Ordering::Greater => {
                let behind = branch.behind.without(alloc, id)?;
                balanced(alloc, &branch.before, &branch.item, &behind)
            }
        }
    }
}
