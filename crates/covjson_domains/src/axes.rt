//! Axes of a domain (OGC 21-069r2, Axis objects).
ghost use Rattle.std.specs.Prelude.{◌≡◌, IfOk, false};
ghost use Rattle.edr_samples.specs.Trees.{tree_view, items_view, list_view};
ghost use Rattle.covjson_checks.specs.Answers.{GivesAnswer, GivesUnlessMemory};
ghost use Rattle.covjson_domains.specs.AxisAnswers.{times_from};
ghost use Rattle.covjson_domains.specs.DomainTypes.{member_of, presence};
ghost use Rattle.covjson_value.specs.AxisNames.{axis_name};
ghost use Rattle.covjson_domains.specs.AxisAnswers as axes;
ghost use Rattle.covjson_domains.specs.AxisAnswers.{IfNeeded};

use crate::domain_types::{Presence, left_out, presence_of};
use crate::spans::spanned;
use covjson_checks::{
    CovFault, Member, Wanted, list_at, need_form, need_wholes, object_at, part, text_at, wholes,
};
use covjson_value::{CoordinateName, DomainType, axis_key, axis_name};
use edr_axes::{Axis, AxisFault, instants_are_read, read_instant};
use edr_base::COORDINATE_LIMIT;
use edr_json::{List, Tree, count_items};
use std::alloc::Global;

/// An axis in ascending order, and whether it was turned round for that.
#[derive(Drop)]
pub struct ReadAxis {
    /// Its values.
    pub axis: Axis,
    /// Whether the tree has them in descending order.
    pub turned: bool,
}

fn member_of(name: CoordinateName) -> Member
    ensures { result ≡ member_of name }
{
    match name {
        CoordinateName::T => Member::T,
        CoordinateName::Z => Member::Z,
        CoordinateName::Y => Member::Y,
        CoordinateName::X => Member::X,
    }
}

/// The items of the member `values`, of which there are some: WrongType.
pub fn value_items(axis: &Tree, member: Member) -> Result<List<'_>, CovFault>
    ensures { GivesAnswer list_view result (axes.value_items member (tree_view axis.now)) }
{
    let list = part(axis, "values", member)?;
    let items = list_at(list, member)?;
    if count_items(items) == 0 {
        return Err(CovFault::WrongType(member));
    }
    Ok(items)
}

/// The time of a text, of which the place is that: WrongType, BadTime.
pub fn time_at(item: &Tree, member: Member, place: usize) -> Result<i64, CovFault>
    ensures { result ≡ axes.time_at member place (tree_view item.now) }
{
    instants_are_read();
    let text = text_at(item, member)?;
    match read_instant(text.as_bytes()) {
        Some(time) => Ok(time),
        None => Err(CovFault::BadTime(place)),
    }
}

// The times of the texts of a list.
fn times(alloc: Global, items: &Vec<Tree>) -> Result<Vec<i64>, CovFault>
    ensures { GivesUnlessMemory (λ v. v.items) result (times_from 0 (items_view items.now.items)) }
{
    let mut found = Vec::with_capacity(alloc, items.len())?;
    for (place, item) in items.iter().enumerate() {
        let time = time_at(item, Member::T, place)?;
        found.push(time)?;
    }
    Ok(found)
}

// The times of a list: WrongType, BadTime. Samples are none.
fn times_in(alloc: Global, list: List<'_>) -> Result<Vec<i64>, CovFault>
    ensures { GivesUnlessMemory (λ v. v.items) result (times_from 0 (list_view list.entry)) }
{
    match list {
        List::Samples(samples) => {
            if samples.len() != 0 {
                return Err(CovFault::WrongType(Member::T));
            }
            Ok(Vec::new(alloc))
        }
        List::Items(items) => times(alloc, items),
    }
}

// Listed times.
fn axis_times(alloc: Global, axis: &Tree) -> Result<Vec<i64>, CovFault>
    ensures { GivesUnlessMemory (λ v. v.items) result (axes.axis_times (tree_view axis.now)) }
{
    let _members = object_at(axis, Member::T)?;
    let items = value_items(axis, Member::T)?;
    need_form(items, Wanted::Texts, Member::T)?;
    times_in(alloc, items)
}

// Numbers: listed where `values` is there, else spanned.
fn axis_numbers(alloc: Global, axis: &Tree, member: Member) -> Result<Vec<i64>, CovFault>
    ensures { GivesUnlessMemory (λ v. v.items) result (axes.axis_numbers member (tree_view axis.now)) }
{
    let _members = object_at(axis, member)?;
    if axis.get("values").is_none() {
        return spanned(alloc, axis, member);
    }
    let items = value_items(axis, member)?;
    need_form(items, Wanted::Numbers, member)?;
    need_wholes(items, Wanted::Wholes, member)?;
    wholes(alloc, items, member, COORDINATE_LIMIT)
}

// Descending values, turned round.
fn turned_round(alloc: Global, values: Vec<i64>, member: Member) -> Result<ReadAxis, CovFault>
    requires { axes.ascends values.items ≡ false }
    ensures { GivesUnlessMemory (λ r. r) result (axes.in_direction member values.items) }
{
    let mut ascending = values;
    ascending.reverse();
    match Axis::of(alloc, &ascending) {
        Ok(axis) => Ok(ReadAxis { axis, turned: true }),
        Err(AxisFault::NotAscending(_)) => Err(CovFault::NotMonotonic(member)),
        Err(_) => Err(CovFault::OutOfMemory),
    }
}

// Ascending values as they stand, and descending ones turned round: NotMonotonic.
fn in_direction(alloc: Global, values: Vec<i64>, member: Member) -> Result<ReadAxis, CovFault>
    ensures { GivesUnlessMemory (λ r. r) result (axes.in_direction member values.items) }
{
    match Axis::of(alloc, &values) {
        Ok(axis) => Ok(ReadAxis {
            axis,
            turned: false,
        }),
        Err(AxisFault::NotAscending(_)) => turned_round(alloc, values, member),
        Err(_) => Err(CovFault::OutOfMemory),
    }
}

// An axis: its form, its values and their order.
fn axis_read(alloc: Global, axis: &Tree, name: CoordinateName) -> Result<ReadAxis, CovFault>
    ensures { GivesUnlessMemory (λ r. r) result (axes.axis_read name (tree_view axis.now)) }
{
    let member = member_of(name);
    let values = match name {
        CoordinateName::T => axis_times(alloc, axis)?,
        CoordinateName::Z | CoordinateName::Y | CoordinateName::X => axis_numbers(
            alloc, axis, member,
        )?,
    };
    in_direction(alloc, values, member)
}

/// The axis of a name as a domain of the type has it: Missing where that needs it, then its form, its values and their
/// order, and WrongCount where it has a single value.
pub fn axis_by(
    alloc: Global,
    tree: &Tree,
    name: CoordinateName,
    kind: DomainType,
) -> Result<Option<ReadAxis>, CovFault>
    ensures answer { GivesUnlessMemory (λ r. r) result (axes.axis_by (presence kind (axis_name name)) name (tree_view tree.now)) }
    ensures needed { IfOk result (λ r. IfNeeded (presence kind (axis_name name)) r) }
{
    let wanted = presence_of(kind, axis_name(name));
    match tree.get(axis_key(axis_name(name))) {
        Some(axis) => {
            let read = axis_read(alloc, axis, name)?;
            let count = read.axis.len();
            if count != 1 && matches!(wanted, Presence::OptionalSingle | Presence::Single) {
                return Err(CovFault::WrongCount(member_of(name), 1, count as u128));
            }
            Ok(Some(read))
        }
        None => {
            left_out(wanted, member_of(name))?;
            Ok(None)
        }
    }
}
