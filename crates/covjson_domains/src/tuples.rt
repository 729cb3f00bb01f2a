//! Composite axes of tuples (OGC 21-069r2, composite axes).
ghost use Rattle.std.specs.Prelude.{◌≡◌, ◌<◌, ◌^◌, option_map, map, IfOk, length, true};
ghost use Rattle.edr_samples.specs.Tokens.{sample_data};
ghost use Rattle.edr_samples.specs.Trees.{tree_view, items_view, list_view};
ghost use Rattle.serde_json.specs.Data.{array};
ghost use Rattle.serde_json.specs.View.{items_of};
ghost use Rattle.serde_json.specs.Find.{as_array};
ghost use Rattle.covjson_value.specs.declared.domains.CoordinateName.TheVariants.{T};
ghost use Rattle.covjson_value.specs.Domains.{coordinate};
ghost use Rattle.covjson_checks.specs.Answers.{GivesAnswer, GivesUnlessMemory};
ghost use Rattle.covjson_checks.specs.Places.{failing_place};
ghost use Rattle.covjson_domains.specs.TupleAnswers.{tuples_from, tuples_of_items};
ghost use Rattle.covjson_domains.specs.TupleAnswers as tuples;

use crate::axes::{time_at, value_items};
use covjson_checks::{CovFault, Member, is_within, list_at, object_at, part};
use covjson_value::CoordinateName;
use edr_base::{COORDINATE_LIMIT, Items, Position};
use edr_json::{List, Samples, Tree, is_text, text_or_empty, whole_of};
use std::alloc::Global;

/// The tuples that a domain may have, by their coordinates.
#[derive(Clone, Copy)]
pub enum TupleKind {
    /// Places: x, y, and where they have levels z.
    Places,
    /// Places at their times: t, x, y, and where they have levels z.
    Steps,
    /// Places at their times, all at one level: t, x, y.
    LevelSteps,
}

/// The tuples of a composite axis.
#[derive(Drop)]
pub struct ReadTuples {
    /// Their values; m is the time, and what is no coordinate is 0.
    pub tuples: Items<Position>,
    /// Whether each has a level of its own.
    pub has_z: bool,
}

/// What is asked of each value of a tuple.
#[derive(Clone, Copy)]
pub enum Test {
    /// A time is a text, and a coordinate is a number.
    Form,
    /// A coordinate is held as a whole number.
    Whole,
    /// A coordinate is within its limit.
    Within,
}

// The coordinates of tuples of a kind.
fn names_of(kind: TupleKind, has_z: bool) -> &'static [CoordinateName]
    ensures { result.now ≡ tuples.names_of kind has_z }
{
    match kind {
        TupleKind::Places => {
            if has_z {
                &[CoordinateName::X, CoordinateName::Y, CoordinateName::Z]
            } else {
                &[CoordinateName::X, CoordinateName::Y]
            }
        }
        TupleKind::Steps | TupleKind::LevelSteps => {
            if has_z {
                &[
                    CoordinateName::T,
                    CoordinateName::X,
                    CoordinateName::Y,
                    CoordinateName::Z,
                ]
            } else {
                &[CoordinateName::T, CoordinateName::X, CoordinateName::Y]
            }
        }
    }
}

// The items are the names of these coordinates, in this order.
fn are_keys(names: &[CoordinateName], items: &Vec<Tree>) -> bool
    ensures { result ≡ tuples.are_keys names.now (items_view items.now.items) }
{
    if items.len() != names.len() {
        return false;
    }
    for place in 0..names.len() {
        if !is_text(&items[place], names[place].letter()) {
            return false;
        }
    }
    true
}

// The items of a list are the names of these coordinates, in this order. Samples are none.
fn list_has_keys(names: &[CoordinateName], list: List<'_>) -> bool
    ensures { result ≡ tuples.are_keys names.now (list_view list.entry) }
{
    match list {
        List::Samples(samples) => samples.len() == 0 && names.is_empty(),
        List::Items(items) => are_keys(names, items),
    }
}

// Whether the tuples of an axis have levels of their own: WrongType.
fn axis_has_z(axis: &Tree, kind: TupleKind) -> Result<bool, CovFault>
    ensures { result ≡ tuples.axis_has_z kind (tree_view axis.now) }
{
    let _members = object_at(axis, Member::Composite)?;
    if text_or_empty(axis, "dataType") != "tuple" {
        return Err(CovFault::WrongType(Member::Composite));
    }
    let list = part(axis, "coordinates", Member::Composite)?;
    let keys = list_at(list, Member::Composite)?;
    if list_has_keys(names_of(kind, false), keys) {
        Ok(false)
    } else if !matches!(kind, TupleKind::LevelSteps) && list_has_keys(names_of(kind, true), keys) {
        Ok(true)
    } else {
        Err(CovFault::WrongType(Member::Composite))
    }
}

fn passes(test: Test, name: CoordinateName, item: &Tree) -> bool
    ensures { result ≡ tuples.passes test name (tree_view item.now) }
{
    match name {
        CoordinateName::T => match test {
            Test::Form => item.as_str().is_some(),
            Test::Whole | Test::Within => true,
        },
        CoordinateName::Z | CoordinateName::Y | CoordinateName::X => match test {
            Test::Form => item.as_number().is_some(),
            Test::Whole => whole_of(item).is_some(),
            Test::Within => match whole_of(item) {
                Some(value) => is_within(value, COORDINATE_LIMIT),
                None => false,
            },
        },
    }
}

fn all_pass(test: Test, names: &[CoordinateName], items: &Vec<Tree>) -> bool
    ensures { result ≡ tuples.all_pass test names.now (items_view items.now.items) }
{
    if items.len() != names.len() {
        return false;
    }
    for place in 0..names.len() {
        if !passes(test, names[place], &items[place]) {
            return false;
        }
    }
    true
}

fn sample_passes(test: Test, name: CoordinateName, sample: Option<i64>) -> bool
    ensures { result ≡ tuples.passes test name (sample_data sample) }
{
    match name {
        CoordinateName::T => !matches!(test, Test::Form),
        CoordinateName::Z | CoordinateName::Y | CoordinateName::X => match sample {
            Some(number) => match test {
                Test::Form | Test::Whole => true,
                Test::Within => is_within(number as i128, COORDINATE_LIMIT),
            },
            None => false,
        },
    }
}

fn all_samples_pass(test: Test, names: &[CoordinateName], samples: &Samples) -> bool
    ensures { result ≡ tuples.all_pass test names.now (items_of (map sample_data samples.now)) }
{
    if samples.len() != names.len() {
        return false;
    }
    for place in 0..names.len() {
        if !sample_passes(test, names[place], samples.get(place)) {
            return false;
        }
    }
    true
}

fn list_passes(test: Test, names: &[CoordinateName], tuple: &Tree) -> bool
    ensures { result ≡ tuples.list_passes test names.now (as_array (tree_view tuple.now)) }
{
    match tuple.as_list() {
        Some(List::Samples(samples)) => all_samples_pass(test, names, samples),
        Some(List::Items(items)) => all_pass(test, names, items),
        None => false,
    }
}

fn tuples_pass(test: Test, names: &[CoordinateName], items: &Vec<Tree>) -> bool
    ensures { result ≡ tuples.tuples_pass test names.now (items_view items.now.items) }
{
    for tuple in items {
        if !list_passes(test, names, tuple) {
            return false;
        }
    }
    true
}

// The place of the first tuple that isn't within the limits, and how many there are where each is.
fn place_beyond(names: &[CoordinateName], items: &Vec<Tree>) -> usize
    ensures { result ≡ failing_place (tuples.is_within_limits names.now) (items_view items.now.items) }
{
    for (place, tuple) in items.iter().enumerate() {
        if !list_passes(Test::Within, names, tuple) {
            return place;
        }
    }
    items.len()
}

// The value of a coordinate, where the tuple has it.
fn value_of<'a>(
    name: CoordinateName,
    names: &[CoordinateName],
    items: &'a Vec<Tree>,
) -> Option<&'a Tree>
    requires { length names.now ≡ length items.now.items }
    ensures { option_map (λ v. tree_view v.now) result ≡ tuples.value_of name names.now (items_view items.now.items) }
{
    for place in 0..names.len() {
        if names[place] == name {
            return Some(&items[place]);
        }
    }
    None
}

// The number of a coordinate, and 0 where the tuple hasn't it.
fn number_of(name: CoordinateName, names: &[CoordinateName], items: &Vec<Tree>) -> i64
    requires counted { length names.now ≡ length items.now.items }
    requires within { tuples.all_pass Test.Within names.now (items_view items.now.items) ≡ true }
    requires number { ¬ (name ≡ T) }
    ensures { result ≡ tuples.number_of name names.now (items_view items.now.items) }
{
    match value_of(name, names, items) {
        Some(value) => match whole_of(value) {
            Some(number) => number as i64,
            None => 0,
        },
        None => 0,
    }
}

// The sample of a coordinate, where the tuple has it.
fn sample_of(
    name: CoordinateName,
    names: &[CoordinateName],
    samples: &Samples,
) -> Option<Option<i64>>
    requires { length names.now ≡ length samples.now }
    ensures { option_map sample_data result ≡ tuples.value_of name names.now (items_of (map sample_data samples.now)) }
{
    for place in 0..names.len() {
        if names[place] == name {
            return Some(samples.get(place));
        }
    }
    None
}

// The number of a coordinate among samples, and 0 where the tuple hasn't it.
fn sample_number(name: CoordinateName, names: &[CoordinateName], samples: &Samples) -> i64
    requires { length names.now ≡ length samples.now }
    ensures { result ≡ tuples.number_of name names.now (items_of (map sample_data samples.now)) }
{
    match sample_of(name, names, samples) {
        Some(Some(number)) => number,
        Some(None) | None => 0,
    }
}

// The tuple of these items, at that place: BadTime.
fn tuple_of_items(
    names: &[CoordinateName],
    place: usize,
    items: &Vec<Tree>,
) -> Result<Position, CovFault>
    requires counted { length names.now ≡ length items.now.items }
    requires within { tuples.all_pass Test.Within names.now (items_view items.now.items) ≡ true }
    ensures { result ≡ tuples.tuple_at names.now place (array (items_view items.now.items)) }
{
    let time = match value_of(CoordinateName::T, names, items) {
        Some(value) => time_at(value, Member::Composite, place)?,
        None => 0,
    };
    Ok(Position {
        x: number_of(CoordinateName::X, names, items),
        y: number_of(CoordinateName::Y, names, items),
        z: number_of(CoordinateName::Z, names, items),
        m: time,
    })
}

// The tuple of these samples, at that place. None of them is a time: WrongType.
fn tuple_of_samples(
    names: &[CoordinateName],
    place: usize,
    samples: &Samples,
) -> Result<Position, CovFault>
    requires { length names.now ≡ length samples.now }
    ensures { result ≡ tuples.tuple_at names.now place (array (items_of (map sample_data samples.now))) }
{
    if sample_of(CoordinateName::T, names, samples).is_some() {
        return Err(CovFault::WrongType(Member::Composite));
    }
    Ok(Position {
        x: sample_number(CoordinateName::X, names, samples),
        y: sample_number(CoordinateName::Y, names, samples),
        z: sample_number(CoordinateName::Z, names, samples),
        m: 0,
    })
}

// The tuple of a list, at that place: BadTime.
fn tuple_at(names: &[CoordinateName], place: usize, tuple: &Tree) -> Result<Position, CovFault>
    requires { tuples.list_passes Test.Within names.now (as_array (tree_view tuple.now)) ≡ true }
    ensures { result ≡ tuples.tuple_at names.now place (tree_view tuple.now) }
{
    let list = list_at(tuple, Member::Composite)?;
    match list {
        List::Samples(samples) => tuple_of_samples(names, place, samples),
        List::Items(items) => tuple_of_items(names, place, items),
    }
}

// The tuples of a list: BadTime.
fn read_tuples(
    alloc: Global,
    names: &[CoordinateName],
    items: &Vec<Tree>,
) -> Result<Vec<Position>, CovFault>
    requires { tuples.tuples_pass Test.Within names.now (items_view items.now.items) ≡ true }
    ensures { GivesUnlessMemory (λ v. v.items) result (tuples_from names.now 0 (items_view items.now.items)) }
{
    let mut found = Vec::with_capacity(alloc, items.len())?;
    for (place, item) in items.iter().enumerate() {
        let tuple = tuple_at(names, place, item)?;
        found.push(tuple)?;
    }
    Ok(found)
}

// No tuple's time is below that of the one before.
fn are_in_time(positions: &[Position]) -> bool
    ensures { result ≡ tuples.never_falls (map (coordinate T) positions.now) }
{
    for place in 1..positions.len() {
        if positions[place].m < positions[place - 1].m {
            return false;
        }
    }
    true
}

// The tuples of these coordinates: WrongType, NotWhole, OutOfRangeAt, BadTime, NotMonotonic.
fn tuples_of_items(
    alloc: Global,
    names: &[CoordinateName],
    items: &Vec<Tree>,
) -> Result<Vec<Position>, CovFault>
    ensures { GivesUnlessMemory (λ v. v.items) result (tuples_of_items names.now (items_view items.now.items)) }
{
    if !tuples_pass(Test::Form, names, items) {
        return Err(CovFault::WrongType(Member::Composite));
    }
    if !tuples_pass(Test::Whole, names, items) {
        return Err(CovFault::NotWhole(Member::Composite));
    }
    if !tuples_pass(Test::Within, names, items) {
        return Err(CovFault::OutOfRangeAt(Member::Composite, place_beyond(names, items)));
    }
    let found = read_tuples(alloc, names, items)?;
    if !are_in_time(&found) {
        return Err(CovFault::NotMonotonic(Member::Composite));
    }
    Ok(found)
}

// The tuples of a list. Samples are none: WrongType.
fn tuples_of_list(
    alloc: Global,
    names: &[CoordinateName],
    list: List<'_>,
) -> Result<Vec<Position>, CovFault>
    ensures { GivesUnlessMemory (λ v. v.items) result (tuples_of_items names.now (list_view list.entry)) }
{
    match list {
        List::Samples(samples) => {
            if samples.len() != 0 {
                return Err(CovFault::WrongType(Member::Composite));
            }
            Ok(Vec::new(alloc))
        }
        List::Items(items) => tuples_of_items(alloc, names, items),
    }
}

/// The tuples of a composite axis: its form, its numbers, its times and their order.
pub fn tuples_read(alloc: Global, axis: &Tree, kind: TupleKind) -> Result<ReadTuples, CovFault>
    ensures answer { GivesUnlessMemory (λ r. r) result (tuples.tuples_read kind (tree_view axis.now)) }
    ensures counted { IfOk result (λ r. length r.tuples < 2 ^ 64) }
{
    let has_z = axis_has_z(axis, kind)?;
    let items = value_items(axis, Member::Composite)?;
    let found = tuples_of_list(alloc, names_of(kind, has_z), items)?;
    Ok(ReadTuples {
        tuples: Items::of(found),
        has_z,
    })
}
