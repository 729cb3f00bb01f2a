//! The forms of a line, as trees of JSON.
ghost use Rattle.std.specs.Prelude.{◌≡◌, ◌↔◌, codes, IfOk, IfSome, IsTrue, IsUtf8, true};
ghost use Rattle.edr_samples.specs.Trees.{tree_view};
ghost use Rattle.edr_json.specs.Trees as trees;
ghost use Rattle.edr_feed.specs.FormParts as parts;
ghost use Rattle.edr_feed.specs.FormParts.{HasText, HasName, HasTextIfGiven, HasKind, Finds, ReadsEntry, line_of};
ghost use Rattle.edr_feed.specs.Forms.{IsBare, IsEntry, TreesHaveOneForm, TreesHoldOneCoverage};

use crate::entries::Entry;
use crate::faults::LineFault;
use covjson_read::{coverage_of, trees_stand_for_one};
use edr_base::{Text, is_name};
use edr_draft::Change;
use edr_edition::Kind;
use edr_json::{Tree, has_members, text_in};
use std::alloc::Global;

// Whether a member is that text.
fn has_text(tree: &Tree, key: &str, wanted: &str) -> bool
    ensures { IsTrue result ↔ HasText key.now (tree_view tree.now) wanted.now }
{
    match text_in(tree, key) {
        Some(text) => text == wanted,
        None => false,
    }
}

fn kept_text_in(alloc: Global, tree: &Tree, key: &str) -> Result<Text, LineFault>
    ensures finds { Finds (HasText key.now (tree_view tree.now)) result }
    ensures utf8 { IfOk result IsUtf8 }
{
    match text_in(tree, key) {
        Some(text) => Ok(Text::of(alloc, text.as_bytes())?),
        None => Err(LineFault::NotFeedLine),
    }
}

fn name_in(alloc: Global, tree: &Tree, key: &str) -> Result<Text, LineFault>
    ensures { Finds (HasName key.now (tree_view tree.now)) result }
{
    let Some(text) = text_in(tree, key) else {
        return Err(LineFault::NotFeedLine);
    };
    if !is_name(text.as_bytes()) {
        return Err(LineFault::NotFeedLine);
    }
    Ok(Text::of(alloc, text.as_bytes())?)
}

// The text of a member that may be left out.
fn text_if_given(alloc: Global, tree: &Tree, key: &str) -> Result<Option<Text>, LineFault>
    ensures finds { Finds (HasTextIfGiven key.now (tree_view tree.now)) result }
    ensures utf8 { IfOk result (λ text. IfSome text IsUtf8) }
{
    match tree.get(key) {
        Some(found) => match found.as_str() {
            Some(text) => Ok(Some(Text::of(alloc, text.as_bytes())?)),
            None => Err(LineFault::NotFeedLine),
        },
        None => Ok(None),
    }
}

// What a collection has.
fn kind_in(tree: &Tree) -> Result<Kind, LineFault>
    ensures { Finds (HasKind (tree_view tree.now)) result }
{
    if has_text(tree, "kind", "grid") {
        return Ok(Kind::Grid);
    }
    if has_text(tree, "kind", "station") {
        return Ok(Kind::Station);
    }
    Err(LineFault::NotFeedLine)
}

// How many members a collection has: one more where the reference system of z is given.
fn collection_members(vertical: &Option<Text>) -> usize
    ensures { result ≡ parts.collection_members vertical.now }
{
    if vertical.is_some() { 5 } else { 4 }
}

// A new collection, of grids or of stations.
fn collection_entry(alloc: Global, tree: &Tree) -> Result<Entry, LineFault>
    ensures reads { ReadsEntry (line_of (codes "collection") (tree_view tree.now)) result }
    ensures is { IfOk result IsEntry }
{
    let kind = kind_in(tree)?;
    let vertical = text_if_given(alloc, tree, "vertical")?;
    if !has_members(tree, collection_members(&vertical)) {
        return Err(LineFault::NotFeedLine);
    }
    let id = name_in(alloc, tree, "id")?;
    let title = kept_text_in(alloc, tree, "title")?;
    let crs = kept_text_in(alloc, tree, "crs")?;
    Ok(Entry::Change(Change::Collection {
        id,
        kind,
        title,
        crs,
        vertical,
    }))
}

// An instance: first its form, and then its coverage.
fn grid_entry(alloc: Global, tree: &Tree) -> Result<Entry, LineFault>
    ensures reads { ReadsEntry (line_of (codes "grid") (tree_view tree.now)) result }
    ensures is { IfOk result IsEntry }
{
    let Some(found) = tree.get("coverage") else {
        return Err(LineFault::NotFeedLine);
    };
    if !has_members(tree, 3) {
        return Err(LineFault::NotFeedLine);
    }
    let collection = name_in(alloc, tree, "collection")?;
    let instance = name_in(alloc, tree, "instance")?;
    let coverage = coverage_of(alloc, found)?;
    Ok(Entry::Change(Change::Grid {
        collection,
        instance,
        coverage,
    }))
}

// A station: first its form, and then its coverage.
fn station_entry(alloc: Global, tree: &Tree) -> Result<Entry, LineFault>
    ensures reads { ReadsEntry (line_of (codes "station") (tree_view tree.now)) result }
    ensures is { IfOk result IsEntry }
{
    let Some(found) = tree.get("coverage") else {
        return Err(LineFault::NotFeedLine);
    };
    if !has_members(tree, 4) {
        return Err(LineFault::NotFeedLine);
    }
    let collection = name_in(alloc, tree, "collection")?;
    let id = name_in(alloc, tree, "id")?;
    let label = kept_text_in(alloc, tree, "label")?;
    let coverage = coverage_of(alloc, found)?;
    Ok(Entry::Change(Change::Station {
        collection,
        id,
        label,
        coverage,
    }))
}

fn drop_entry(alloc: Global, tree: &Tree) -> Result<Entry, LineFault>
    ensures reads { ReadsEntry (line_of (codes "drop") (tree_view tree.now)) result }
    ensures is { IfOk result IsEntry }
{
    let collection = name_in(alloc, tree, "collection")?;
    if has_members(tree, 1) {
        return Ok(Entry::Change(Change::DropCollection(collection)));
    }
    if !has_members(tree, 2) {
        return Err(LineFault::NotFeedLine);
    }
    match tree.get("station") {
        Some(_) => {
            let id = name_in(alloc, tree, "station")?;
            Ok(Entry::Change(Change::DropStation(collection, id)))
        }
        None => {
            let instance = name_in(alloc, tree, "instance")?;
            Ok(Entry::Change(Change::DropInstance(collection, instance)))
        }
    }
}

fn publish_entry(tree: &Tree) -> Result<Entry, LineFault>
    ensures reads { ReadsEntry (line_of (codes "publish") (tree_view tree.now)) result }
    ensures is { IfOk result IsEntry }
{
    if has_members(tree, 0) {
        Ok(Entry::Publish)
    } else {
        Err(LineFault::NotFeedLine)
    }
}

// By the one member that there is.
fn member_entry(alloc: Global, tree: &Tree) -> Result<Entry, LineFault>
    requires one { trees.has_members 1 (tree_view tree.now) ≡ true }
    requires not_bare { ¬ (IsBare (tree_view tree.now)) }
    ensures reads { ReadsEntry (tree_view tree.now) result }
    ensures is { IfOk result IsEntry }
{
    if let Some(found) = tree.get("collection") {
        return collection_entry(alloc, found);
    }
    if let Some(found) = tree.get("grid") {
        return grid_entry(alloc, found);
    }
    if let Some(found) = tree.get("station") {
        return station_entry(alloc, found);
    }
    if let Some(found) = tree.get("drop") {
        return drop_entry(alloc, found);
    }
    match tree.get("publish") {
        Some(found) => publish_entry(found),
        None => Err(LineFault::NotFeedLine),
    }
}

// A coverage by itself.
fn bare_entry(alloc: Global, tree: &Tree) -> Result<Entry, LineFault>
    requires { IsBare (tree_view tree.now) }
    ensures reads { ReadsEntry (tree_view tree.now) result }
    ensures is { IfOk result IsEntry }
{
    let coverage = coverage_of(alloc, tree)?;
    Ok(Entry::Change(Change::Bare(coverage)))
}

/// What the tree of a line says: NotFeedLine where it has none of the forms, or the fault of its coverage.
pub fn entry_of(alloc: Global, tree: &Tree) -> Result<Entry, LineFault>
    ensures reads { ReadsEntry (tree_view tree.now) result }
    ensures is { IfOk result IsEntry }
{
    if has_text(tree, "type", "Coverage") {
        bare_entry(alloc, tree)
    } else if has_members(tree, 1) {
        member_entry(alloc, tree)
    } else {
        Err(LineFault::NotFeedLine)
    }
}

/// The tree of a line stands for one entry at most.
pub fn trees_have_one_form()
    ensures { TreesHaveOneForm }
{
    trees_stand_for_one();
}

/// The tree of a line has one coverage at most. Where it has one, it stands for an entry exactly where that tree stands for a
/// coverage.
pub fn trees_hold_one_coverage()
    ensures { TreesHoldOneCoverage }
{}
