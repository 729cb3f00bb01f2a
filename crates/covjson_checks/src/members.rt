//! Members of objects and items of lists, each with the fault where it isn't as it has to be.
ghost use Rattle.std.specs.Prelude.{◌≡◌, ◌<◌, ◌^◌, map, option_map};
ghost use Rattle.serde_json.specs.View.{items_of, number_view};
ghost use Rattle.edr_samples.specs.Tokens.{sample_data};
ghost use Rattle.edr_samples.specs.Trees.{tree_view, items_view, list_view, members_view};
ghost use Rattle.serde_json.specs.Find.{get};
ghost use Rattle.covjson_checks.specs.Answers.{GivesAnswer, GivesUnlessMemory, each_from};
ghost use Rattle.edr_base.specs.FirstThatApplies.{or_fault};
ghost use Rattle.covjson_checks.specs.Members as members;

use crate::faults::{CovFault, Member};
use edr_json::{List, Samples, Tree, natural_of, whole_of};
use serde_json::{Map, Number};
use std::alloc::Global;

/// What each item of a list has to be.
#[derive(Clone, Copy)]
pub enum Wanted {
    Texts,
    Numbers,
    Wholes,
    Naturals,
    NumbersOrNulls,
    WholesOrNulls,
}

/// The member of a name, or Missing.
pub fn need<'a>(tree: &'a Tree, name: &str, member: Member) -> Result<&'a Tree, CovFault>
    ensures { GivesAnswer (λ v. tree_view v.now) result (members.need name.now member (tree_view tree.now)) }
{
    match tree.get(name) {
        Some(found) => Ok(found),
        None => Err(CovFault::Missing(member)),
    }
}

/// The member of a name, or WrongType.
pub fn part<'a>(tree: &'a Tree, name: &str, member: Member) -> Result<&'a Tree, CovFault>
    ensures { GivesAnswer (λ v. tree_view v.now) result (members.part name.now member (tree_view tree.now)) }
{
    match tree.get(name) {
        Some(found) => Ok(found),
        None => Err(CovFault::WrongType(member)),
    }
}

/// What was found of a member, or Missing.
pub fn found_or_missing(found: Option<&Tree>, member: Member) -> Result<&Tree, CovFault>
    ensures { GivesAnswer (λ v. tree_view v.now) result (or_fault (option_map (λ v. tree_view v.now) found.entry) (CovFault.Missing member)) }
{
    match found {
        Some(value) => Ok(value),
        None => Err(CovFault::Missing(member)),
    }
}

/// The member of a tree, else of the collection that it is in.
pub fn lent<'a>(tree: &'a Tree, collection: &'a Tree, name: &str) -> Option<&'a Tree>
    ensures { option_map (λ v. tree_view v.now) result ≡ members.lent name.now (tree_view tree.now) (tree_view collection.now) }
{
    match tree.get(name) {
        Some(found) => Some(found),
        None => collection.get(name),
    }
}

/// The members of an object, or WrongType.
pub fn object_at(tree: &Tree, member: Member) -> Result<&Map<String, Tree>, CovFault>
    ensures { GivesAnswer (λ m. members_view m.now.entries) result (members.object_at member (tree_view tree.now)) }
{
    match tree.as_object() {
        Some(found) => Ok(found),
        None => Err(CovFault::WrongType(member)),
    }
}

/// The items of a list, or WrongType.
pub fn list_at(tree: &Tree, member: Member) -> Result<List<'_>, CovFault>
    ensures { GivesAnswer list_view result (members.list_at member (tree_view tree.now)) }
{
    match tree.as_list() {
        Some(found) => Ok(found),
        None => Err(CovFault::WrongType(member)),
    }
}

/// A text, or WrongType.
pub fn text_at(tree: &Tree, member: Member) -> Result<&str, CovFault>
    ensures { GivesAnswer (λ s. s.now) result (members.text_at member (tree_view tree.now)) }
{
    match tree.as_str() {
        Some(found) => Ok(found),
        None => Err(CovFault::WrongType(member)),
    }
}

/// A number, or WrongType.
pub fn number_at(tree: &Tree, member: Member) -> Result<&Number, CovFault>
    ensures { GivesAnswer (λ n. number_view n.now) result (members.number_at member (tree_view tree.now)) }
{
    match tree.as_number() {
        Some(number) => Ok(number),
        None => Err(CovFault::WrongType(member)),
    }
}

/// The size is at most that.
pub fn is_within(value: i128, limit: u64) -> bool
    ensures { result ≡ members.is_within limit value }
{
    value.unsigned_abs() <= limit as u128
}

// The whole number at a place of a list, of at most that size: WrongType, NotWhole, OutOfRangeAt.
fn whole_within(tree: &Tree, place: usize, member: Member, limit: u64) -> Result<i64, CovFault>
    requires { limit < 2 ^ 63 }
    ensures { result ≡ members.whole_within member limit place (tree_view tree.now) }
{
    let number = number_at(tree, member)?;
    let Some(whole) = number.as_i128() else {
        return Err(CovFault::NotWhole(member));
    };
    if !is_within(whole, limit) {
        return Err(CovFault::OutOfRangeAt(member, place));
    }
    Ok(whole as i64)
}

// The same, where null stands for an absent number.
fn whole_or_null(
    tree: &Tree,
    place: usize,
    member: Member,
    limit: u64,
) -> Result<Option<i64>, CovFault>
    requires { limit < 2 ^ 63 }
    ensures { result ≡ members.whole_or_null member limit place (tree_view tree.now) }
{
    if tree.is_null() {
        return Ok(None);
    }
    let whole = whole_within(tree, place, member, limit)?;
    Ok(Some(whole))
}

fn is_wanted(item: &Tree, wanted: Wanted) -> bool
    ensures { result ≡ members.is_wanted wanted (tree_view item.now) }
{
    match wanted {
        Wanted::Texts => item.as_str().is_some(),
        Wanted::Numbers => item.as_number().is_some(),
        Wanted::Wholes => whole_of(item).is_some(),
        Wanted::Naturals => natural_of(item).is_some(),
        Wanted::NumbersOrNulls => item.is_null() || item.as_number().is_some(),
        Wanted::WholesOrNulls => item.is_null() || whole_of(item).is_some(),
    }
}

fn all_wanted(items: &Vec<Tree>, wanted: Wanted) -> bool
    ensures { result ≡ members.all_wanted wanted (items_view items.now.items) }
{
    for item in items {
        if !is_wanted(item, wanted) {
            return false;
        }
    }
    true
}

fn is_wanted_sample(sample: Option<i64>, wanted: Wanted) -> bool
    ensures { result ≡ members.is_wanted wanted (sample_data sample) }
{
    match sample {
        Some(number) => match wanted {
            Wanted::Texts => false,
            Wanted::Naturals => number >= 0,
            Wanted::Numbers | Wanted::Wholes | Wanted::NumbersOrNulls | Wanted::WholesOrNulls => {
                true
            }
        },
        None => matches!(wanted, Wanted::NumbersOrNulls | Wanted::WholesOrNulls),
    }
}

fn all_wanted_samples(samples: &Samples, wanted: Wanted) -> bool
    ensures { result ≡ members.all_wanted wanted (items_of (map sample_data samples.now)) }
{
    for place in 0..samples.len() {
        if !is_wanted_sample(samples.get(place), wanted) {
            return false;
        }
    }
    true
}

fn all_wanted_in(list: List<'_>, wanted: Wanted) -> bool
    ensures { result ≡ members.all_wanted wanted (list_view list.entry) }
{
    match list {
        List::Samples(samples) => all_wanted_samples(samples, wanted),
        List::Items(items) => all_wanted(items, wanted),
    }
}

/// Each item of a list is what is wanted, or the list is at fault with WrongType.
pub fn need_form(list: List<'_>, wanted: Wanted, member: Member) -> Result<(), CovFault>
    ensures { result ≡ members.need_each wanted (CovFault.WrongType member) (list_view list.entry) }
{
    if all_wanted_in(list, wanted) {
        Ok(())
    } else {
        Err(CovFault::WrongType(member))
    }
}

/// Each item of a list is held as a whole number, or null where that is wanted; or the list is at fault with NotWhole.
pub fn need_wholes(list: List<'_>, wanted: Wanted, member: Member) -> Result<(), CovFault>
    ensures { result ≡ members.need_each wanted (CovFault.NotWhole member) (list_view list.entry) }
{
    if all_wanted_in(list, wanted) {
        Ok(())
    } else {
        Err(CovFault::NotWhole(member))
    }
}

// The whole numbers of these items, in one vector.
fn wholes_of(
    alloc: Global,
    items: &Vec<Tree>,
    member: Member,
    limit: u64,
) -> Result<Vec<i64>, CovFault>
    requires { limit < 2 ^ 63 }
    ensures { GivesUnlessMemory (λ v. v.items) result (each_from (members.whole_within member limit) 0 (items_view items.now.items)) }
{
    let mut found = Vec::with_capacity(alloc, items.len())?;
    for (place, item) in items.iter().enumerate() {
        let whole = whole_within(item, place, member, limit)?;
        found.push(whole)?;
    }
    Ok(found)
}

// The number of the sample at a place, of at most that size: WrongType, OutOfRangeAt.
fn sample_within(
    sample: Option<i64>,
    place: usize,
    member: Member,
    limit: u64,
) -> Result<i64, CovFault>
    ensures { result ≡ members.whole_within member limit place (sample_data sample) }
{
    let Some(number) = sample else {
        return Err(CovFault::WrongType(member));
    };
    if !is_within(number as i128, limit) {
        return Err(CovFault::OutOfRangeAt(member, place));
    }
    Ok(number)
}

// The numbers of these samples, in one vector.
fn wholes_of_samples(
    alloc: Global,
    samples: &Samples,
    member: Member,
    limit: u64,
) -> Result<Vec<i64>, CovFault>
    ensures { GivesUnlessMemory (λ v. v.items) result (each_from (members.whole_within member limit) 0 (items_of (map sample_data samples.now))) }
{
    let mut found = Vec::with_capacity(alloc, samples.len())?;
    for place in 0..samples.len() {
        let whole = sample_within(samples.get(place), place, member, limit)?;
        found.push(whole)?;
    }
    Ok(found)
}

/// The whole numbers of a list, in one vector: WrongType, NotWhole or OutOfRangeAt of the first item that is none of that size.
pub fn wholes(
    alloc: Global,
    list: List<'_>,
    member: Member,
    limit: u64,
) -> Result<Vec<i64>, CovFault>
    requires { limit < 2 ^ 63 }
    ensures { GivesUnlessMemory (λ v. v.items) result (each_from (members.whole_within member limit) 0 (list_view list.entry)) }
{
    match list {
        List::Samples(samples) => wholes_of_samples(alloc, samples, member, limit),
        List::Items(items) => wholes_of(alloc, items, member, limit),
    }
}

// The whole numbers and nulls of these items, in one vector.
fn wholes_or_nulls_of(
    alloc: Global,
    items: &Vec<Tree>,
    member: Member,
    limit: u64,
) -> Result<Vec<Option<i64>>, CovFault>
    requires { limit < 2 ^ 63 }
    ensures { GivesUnlessMemory (λ v. v.items) result (each_from (members.whole_or_null member limit) 0 (items_view items.now.items)) }
{
    let mut found = Vec::with_capacity(alloc, items.len())?;
    for (place, item) in items.iter().enumerate() {
        let whole = whole_or_null(item, place, member, limit)?;
        found.push(whole)?;
    }
    Ok(found)
}

// The sample at a place, of at most that size: OutOfRangeAt.
fn sample_or_null(
    sample: Option<i64>,
    place: usize,
    member: Member,
    limit: u64,
) -> Result<Option<i64>, CovFault>
    ensures { result ≡ members.whole_or_null member limit place (sample_data sample) }
{
    if let Some(number) = sample {
        if !is_within(number as i128, limit) {
            return Err(CovFault::OutOfRangeAt(member, place));
        }
    }
    Ok(sample)
}

// These samples, in one vector.
fn samples_within(
    alloc: Global,
    samples: &Samples,
    member: Member,
    limit: u64,
) -> Result<Vec<Option<i64>>, CovFault>
    ensures { GivesUnlessMemory (λ v. v.items) result (each_from (members.whole_or_null member limit) 0 (items_of (map sample_data samples.now))) }
{
    let mut found = Vec::with_capacity(alloc, samples.len())?;
    for place in 0..samples.len() {
        let sample = sample_or_null(samples.get(place), place, member, limit)?;
        found.push(sample)?;
    }
    Ok(found)
}

/// The whole numbers and nulls of a list, in one vector: WrongType, NotWhole or OutOfRangeAt of the first item that is none of that
/// size.
pub fn wholes_or_nulls(
    alloc: Global,
    list: List<'_>,
    member: Member,
    limit: u64,
) -> Result<Vec<Option<i64>>, CovFault>
    requires { limit < 2 ^ 63 }
    ensures { GivesUnlessMemory (λ v. v.items) result (each_from (members.whole_or_null member limit) 0 (list_view list.entry)) }
{
    match list {
        List::Samples(samples) => samples_within(alloc, samples, member, limit),
        List::Items(items) => wholes_or_nulls_of(alloc, items, member, limit),
    }
}
