//! The domain of a tree (OGC 21-069r2, Domain objects and domain types).
ghost use Rattle.std.specs.Prelude.{◌≡◌, ◌≢◌, IfOk, IfErr, option_map, IsSome};
ghost use Rattle.edr_samples.specs.Trees.{tree_view};
ghost use Rattle.covjson_value.specs.Coverages.{HasAxes, HasTuples};
ghost use Rattle.covjson_checks.specs.Answers.{GivesAnswer, GivesUnlessMemory};
ghost use Rattle.covjson_checks.specs.declared.turned.ReadDomain.{ReadDomain};
ghost use Rattle.covjson_domains.specs.Domains.{StandsForDomain};
ghost use Rattle.covjson_domains.specs.DomainRows.{DomainRows};
ghost use Rattle.covjson_domains.specs.AxisAnswers.{IfNeeded};
ghost use Rattle.covjson_domains.specs.DomainAnswers.{HasNeeded, CompositeCounted, AreCounted};
ghost use Rattle.covjson_domains.specs.DomainAnswers as domains;

use crate::axes::{ReadAxis, axis_by};
use crate::domain_types::{Presence, has_no_others, left_out, presence_of};
use crate::tuples::{ReadTuples, TupleKind, tuples_read};
use covjson_checks::{
    CovFault, Member, ReadDomain, Turned, found_or_missing, need, object_at, text_at, text_of,
};
use covjson_value::{AxisName, CoordinateName, Domain, DomainType, axis_key, type_by_name};
use edr_axes::{Axis, instants_are_read};
use edr_json::Tree;
use std::alloc::Global;

/// The axes of a domain, as they were read.
#[derive(Drop)]
pub struct ReadAxes {
    /// The axis of times, where there is one.
    pub t: Option<ReadAxis>,
    /// The axis of levels, where there is one.
    pub z: Option<ReadAxis>,
    /// The axis of second coordinates, where there is one.
    pub y: Option<ReadAxis>,
    /// The axis of first coordinates, where there is one.
    pub x: Option<ReadAxis>,
    /// The axis of tuples, where there is one.
    pub composite: Option<ReadTuples>,
}

// The type of a domain: Missing, WrongType, UnsupportedDomain.
fn type_at(alloc: Global, found: Option<&Tree>) -> Result<DomainType, CovFault>
    ensures { GivesUnlessMemory (λ k. k) result (domains.type_at (option_map (λ v. tree_view v.now) found.entry)) }
{
    let found = found_or_missing(found, Member::DomainType)?;
    let name = text_at(found, Member::DomainType)?;
    match type_by_name(name) {
        Some(kind) => Ok(kind),
        None => Err(CovFault::UnsupportedDomain(text_of(alloc, name)?)),
    }
}

// The axes of a domain of a type, and no others: Missing, WrongType.
fn axes_at(tree: &Tree, kind: DomainType) -> Result<&Tree, CovFault>
    ensures { GivesAnswer (λ v. tree_view v.now) result (domains.axes_at kind (tree_view tree.now)) }
{
    let axes = need(tree, "axes", Member::Axes)?;
    let members = object_at(axes, Member::Axes)?;
    if !has_no_others(kind, members) {
        return Err(CovFault::WrongType(Member::Axes));
    }
    Ok(axes)
}

// The tuples that a domain of a type has: those of a trajectory have levels of their own only where it has no axis of levels.
fn tuple_kind(kind: DomainType, has_level: bool) -> TupleKind
    ensures { result ≡ domains.tuple_kind kind has_level }
{
    match kind {
        DomainType::Trajectory => {
            if has_level {
                TupleKind::LevelSteps
            } else {
                TupleKind::Steps
            }
        }
        DomainType::Grid
        | DomainType::Point
        | DomainType::PointSeries
        | DomainType::VerticalProfile
        | DomainType::MultiPoint => TupleKind::Places,
    }
}

// The composite axis: Missing where it is needed, then its form, its numbers, its times and their order.
fn composite_by(
    alloc: Global,
    axes: &Tree,
    wanted: Presence,
    kind: TupleKind,
) -> Result<Option<ReadTuples>, CovFault>
    ensures answer { GivesUnlessMemory (λ r. r) result (domains.composite_by wanted kind (tree_view axes.now)) }
    ensures needed { IfOk result (λ r. IfNeeded wanted r) }
    ensures counted { IfOk result (λ r. CompositeCounted r) }
{
    match axes.get(axis_key(AxisName::Composite)) {
        Some(axis) => {
            let read = tuples_read(alloc, axis, kind)?;
            Ok(Some(read))
        }
        None => {
            left_out(wanted, Member::Composite)?;
            Ok(None)
        }
    }
}

// The axes of a domain of a type: t, z, y, x and then composite, each as the type has it.
fn axes_read(alloc: Global, axes: &Tree, kind: DomainType) -> Result<ReadAxes, CovFault>
    ensures answer { GivesUnlessMemory (λ r. r) result (domains.axes_read kind (tree_view axes.now)) }
    ensures needed { IfOk result (λ r. HasNeeded kind r) }
    ensures counted { IfOk result (λ r. CompositeCounted r.composite) }
{
    let t = axis_by(alloc, axes, CoordinateName::T, kind)?;
    let z = axis_by(alloc, axes, CoordinateName::Z, kind)?;
    let y = axis_by(alloc, axes, CoordinateName::Y, kind)?;
    let x = axis_by(alloc, axes, CoordinateName::X, kind)?;
    let tuples = tuple_kind(kind, z.is_some());
    let composite = composite_by(alloc, axes, presence_of(kind, AxisName::Composite), tuples)?;
    Ok(ReadAxes {
        t,
        z,
        y,
        x,
        composite,
    })
}

// Whether an axis was turned round, where there is one.
fn is_turned_round(read: &Option<ReadAxis>) -> bool
    ensures { result ≡ domains.is_turned_round read.now }
{
    match read {
        Some(read) => read.turned,
        None => false,
    }
}

// The axis, taken out of where it was read.
fn axis_in(read: &mut Option<ReadAxis>) -> Option<Axis>
    ensures { result ≡ domains.axis_in read.old }
{
    match read.take() {
        Some(read) => Some(read.axis),
        None => None,
    }
}

fn axis_of(read: &mut Option<ReadAxis>) -> Axis
    requires { IsSome read.old }
    ensures { result ≡ domains.values_of read.old }
{
    match read.take() {
        Some(read) => read.axis,
        None => unreachable!(),
    }
}

// The first value of an axis, and 0 where there is none.
fn value_of(read: &Option<ReadAxis>) -> i64
    ensures { result ≡ domains.value_of read.now }
{
    match read {
        Some(read) => read.axis.values()[0],
        None => 0,
    }
}

fn value_in(read: &Option<ReadAxis>) -> Option<i64>
    ensures { result ≡ domains.value_in read.now }
{
    match read {
        Some(_) => Some(value_of(read)),
        None => None,
    }
}

// The domain of these axes, which are taken out of where they were read.
fn domain_formed(kind: DomainType, read: &mut ReadAxes) -> Domain
    requires { HasNeeded kind read.old }
    ensures { result ≡ domains.domain_formed kind read.old }
{
    match kind {
        DomainType::Grid => Domain::Grid {
            t: axis_in(&mut read.t),
            z: axis_in(&mut read.z),
            y: axis_of(&mut read.y),
            x: axis_of(&mut read.x),
        },
        DomainType::Point => Domain::Point {
            t: value_in(&read.t),
            z: value_in(&read.z),
            y: value_of(&read.y),
            x: value_of(&read.x),
        },
        DomainType::PointSeries => Domain::PointSeries {
            t: axis_of(&mut read.t),
            z: value_in(&read.z),
            y: value_of(&read.y),
            x: value_of(&read.x),
        },
        DomainType::VerticalProfile => Domain::VerticalProfile {
            t: value_in(&read.t),
            z: axis_of(&mut read.z),
            y: value_of(&read.y),
            x: value_of(&read.x),
        },
        DomainType::MultiPoint => {
            let places = tuples_of(&mut read.composite);
            Domain::MultiPoint {
                t: value_in(&read.t),
                has_z: places.has_z,
                spots: places.tuples,
            }
        }
        DomainType::Trajectory => {
            let places = tuples_of(&mut read.composite);
            Domain::Trajectory {
                z: value_in(&read.z),
                has_z: places.has_z,
                steps: places.tuples,
            }
        }
    }
}

fn tuples_of(read: &mut Option<ReadTuples>) -> ReadTuples
    requires { IsSome read.old }
    ensures { result ≡ domains.tuples_of read.old }
{
    match read.take() {
        Some(read) => read,
        None => unreachable!(),
    }
}

// The domain of a tree: its type, the names of its axes, and then axis by axis.
fn domain_read(alloc: Global, tree: &Tree, found: Option<&Tree>) -> Result<ReadDomain, CovFault>
    ensures answer { GivesUnlessMemory (λ read. read) result (domains.domain_of (option_map (λ v. tree_view v.now) found.entry) (tree_view tree.now)) }
    ensures counted { IfOk result (λ read. AreCounted read.domain) }
{
    let kind = type_at(alloc, found)?;
    let axes = axes_at(tree, kind)?;
    let mut read = axes_read(alloc, axes, kind)?;
    let turned = Turned {
        t: is_turned_round(&read.t),
        z: is_turned_round(&read.z),
        y: is_turned_round(&read.y),
        x: is_turned_round(&read.x),
    };
    let domain = domain_formed(kind, &mut read);
    Ok(ReadDomain { domain, turned })
}

/// The domain of a tree, whose type was found there or elsewhere, or the fault of the first check that isn't passed: of its
/// type, the names of its axes, and then axis by axis.
pub fn domain_of(alloc: Global, tree: &Tree, found: Option<&Tree>) -> Result<ReadDomain, CovFault>
    ensures stands { IfOk result (λ read. StandsForDomain (option_map (λ v. tree_view v.now) found.entry) (tree_view tree.now) read.turned read.domain) }
    ensures refused { IfErr result (λ fault. fault ≢ CovFault.OutOfMemory → DomainRows (option_map (λ v. tree_view v.now) found.entry) (tree_view tree.now) (Err fault)) }
    ensures stands_not { IfErr result (λ fault. fault ≢ CovFault.OutOfMemory
        → (read : ReadDomain) → ¬ (StandsForDomain (option_map (λ v. tree_view v.now) found.entry) (tree_view tree.now) read.turned read.domain)) }
    ensures axes { IfOk result (λ read. HasAxes read.domain) }
    ensures tuples { IfOk result (λ read. HasTuples read.domain) }
    ensures answer { GivesUnlessMemory (λ read. read) result (domains.domain_of (option_map (λ v. tree_view v.now) found.entry) (tree_view tree.now)) }
{
    instants_are_read();
    domain_read(alloc, tree, found)
}
