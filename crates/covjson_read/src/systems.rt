//! The reference systems of a domain (OGC 21-069r2, reference system objects).
ghost use Rattle.std.specs.Prelude.{◌≡◌, Bool, Err, IfOk, IsSome, Some, map, option_map, true};
ghost use Rattle.serde_json.specs.Data.{array};
ghost use Rattle.serde_json.specs.View.{items_of};
ghost use Rattle.edr_samples.specs.Tokens.{sample_data};
ghost use Rattle.edr_samples.specs.Trees.{tree_view, items_view, list_view};
ghost use Rattle.covjson_value.specs.Coverages.{IsReferencing};
ghost use Rattle.covjson_checks.specs.Answers.{GivesUnlessMemory};
ghost use Rattle.covjson_read.specs.Systems as systems;
ghost use Rattle.covjson_read.specs.SystemAnswers as answers;

use covjson_checks::{CovFault, Member, found_or_missing, list_at, text_of, text_where_given};
use covjson_value::{CoordinateName, Referencing};
use edr_json::{List, Samples, Tree, is_text, text_in, text_or_empty};
use std::alloc::Global;

fn has_text(items: &Vec<Tree>, text: &str) -> bool
    ensures { result ≡ answers.has_text text.now (items_view items.now.items) }
{
    for item in items {
        if is_text(item, text) {
            return true;
        }
    }
    false
}

// Whether a list has that text. Samples are none.
fn list_has_text(list: List<'_>, text: &str) -> bool
    ensures { result ≡ answers.has_text text.now (list_view list.entry) }
{
    match list {
        List::Samples(_samples) => false,
        List::Items(items) => has_text(items, text),
    }
}

// Whether the coordinates of an entry hold a name.
fn holds(entry: &Tree, name: &str) -> bool
    ensures { result ≡ answers.holds name.now (tree_view entry.now) }
{
    match entry.get("coordinates") {
        Some(list) => match list.as_list() {
            Some(items) => list_has_text(items, name),
            None => false,
        },
        None => false,
    }
}

// Whether each entry has coordinates and a system.
fn all_connections(entries: &Vec<Tree>) -> bool
    ensures { result ≡ answers.all_that answers.is_connection (items_view entries.now.items) }
{
    for entry in entries {
        if entry.get("coordinates").is_none() || entry.get("system").is_none() {
            return false;
        }
    }
    true
}

// The text of a member of an entry's system, or the empty text.
fn system_text<'a>(entry: &'a Tree, name: &str) -> &'a str
    ensures { result.now ≡ systems.system_text name.now (tree_view entry.now) }
{
    match entry.get("system") {
        Some(system) => text_or_empty(system, name),
        None => "",
    }
}

// The first entry of both coordinates of the plane.
fn first_plane(entries: &Vec<Tree>) -> Option<&Tree>
    ensures { option_map (λ v. tree_view v.now) result ≡ answers.first_that answers.is_plane (items_view entries.now.items) }
{
    for entry in entries {
        if holds(entry, CoordinateName::X.letter()) && holds(entry, CoordinateName::Y.letter()) {
            return Some(entry);
        }
    }
    None
}

fn is_other_calendar(entry: &Tree) -> bool
    ensures { result ≡ answers.is_other_calendar (tree_view entry.now) }
{
    system_text(entry, "type") == "TemporalRS" && system_text(entry, "calendar") != "Gregorian"
}

// The first entry of times in another calendar.
fn first_other_calendar(entries: &Vec<Tree>) -> Option<&Tree>
    ensures { option_map (λ v. tree_view v.now) result ≡ answers.first_that answers.is_other_calendar (items_view entries.now.items) }
{
    for entry in entries {
        if is_other_calendar(entry) {
            return Some(entry);
        }
    }
    None
}

fn is_vertical(entry: &Tree) -> bool
    ensures { result ≡ answers.is_vertical (tree_view entry.now) }
{
    system_text(entry, "type") == "VerticalCRS" && holds(entry, CoordinateName::Z.letter())
}

// The first entry of levels.
fn first_vertical(entries: &Vec<Tree>) -> Option<&Tree>
    ensures { option_map (λ v. tree_view v.now) result ≡ answers.first_that answers.is_vertical (items_view entries.now.items) }
{
    for entry in entries {
        if is_vertical(entry) {
            return Some(entry);
        }
    }
    None
}

// The name of the system of levels, where there are levels.
fn vertical_name(has_z: bool, entries: &Vec<Tree>) -> Option<&str>
    ensures { option_map (λ s. s.now) result ≡ answers.vertical_name has_z (items_view entries.now.items) }
{
    if !has_z {
        return None;
    }
    match first_vertical(entries) {
        Some(entry) => match entry.get("system") {
            Some(system) => text_in(system, "id"),
            None => None,
        },
        None => None,
    }
}

// No calendar but the Gregorian: UnsupportedSystem.
fn only_gregorian(alloc: Global, entries: &Vec<Tree>) -> Result<(), CovFault>
    ensures { GivesUnlessMemory (λ u. u) result (answers.only_gregorian (answers.first_that answers.is_other_calendar (items_view entries.now.items))) }
{
    match first_other_calendar(entries) {
        Some(entry) => {
            let calendar = text_of(alloc, system_text(entry, "calendar"))?;
            Err(CovFault::UnsupportedSystem(calendar))
        }
        None => Ok(()),
    }
}

// The entry of the plane, of a projected system: WrongType, Missing, UnsupportedSystem.
fn plane_in(alloc: Global, entries: &Vec<Tree>) -> Result<&Tree, CovFault>
    ensures { GivesUnlessMemory (λ v. tree_view v.now) result (answers.plane_in (items_view entries.now.items)) }
{
    if !all_connections(entries) {
        return Err(CovFault::WrongType(Member::Referencing));
    }
    let Some(plane) = first_plane(entries) else {
        return Err(CovFault::Missing(Member::Referencing));
    };
    let kind = system_text(plane, "type");
    if kind != "ProjectedCRS" {
        return Err(CovFault::UnsupportedSystem(text_of(alloc, kind)?));
    }
    Ok(plane)
}

// The systems of these entries: WrongType, Missing, UnsupportedSystem.
fn systems_of(alloc: Global, entries: &Vec<Tree>, has_z: bool) -> Result<Referencing, CovFault>
    ensures answer { GivesUnlessMemory (λ r. r) result (answers.referencing_of has_z (Some (array (items_view entries.now.items)))) }
    ensures valid { IfOk result IsReferencing }
    ensures vertical { IfOk result (λ r. IsSome r.vertical → has_z ≡ true) }
{
    let plane = plane_in(alloc, entries)?;
    only_gregorian(alloc, entries)?;
    let crs = text_of(alloc, system_text(plane, "id"))?;
    let vertical = text_where_given(alloc, vertical_name(has_z, entries))?;
    Ok(Referencing { crs, vertical })
}

// Why samples are no entries: WrongType, or Missing where there are none.
fn no_systems(samples: &Samples) -> CovFault
    ensures { (has_z : Bool) → answers.referencing_of has_z (Some (array (items_of (map sample_data samples.now)))) ≡ Err result }
{
    if samples.len() == 0 {
        CovFault::Missing(Member::Referencing)
    } else {
        CovFault::WrongType(Member::Referencing)
    }
}

/// The systems of a domain with or without levels, which were found there or elsewhere: the plane's is a projected one, and
/// those of times are Gregorian. Missing, WrongType, UnsupportedSystem.
pub fn referencing_of(
    alloc: Global,
    found: Option<&Tree>,
    has_z: bool,
) -> Result<Referencing, CovFault>
    ensures answer { GivesUnlessMemory (λ r. r) result (answers.referencing_of has_z (option_map (λ v. tree_view v.now) found.entry)) }
    ensures valid { IfOk result IsReferencing }
    ensures vertical { IfOk result (λ r. IsSome r.vertical → has_z ≡ true) }
{
    let list = found_or_missing(found, Member::Referencing)?;
    let entries = list_at(list, Member::Referencing)?;
    match entries {
        List::Samples(samples) => Err(no_systems(samples)),
        List::Items(entries) => systems_of(alloc, entries, has_z),
    }
}
