//! The domain types (OGC 21-069r2, Domain types), and which axes a domain of each has.
ghost use Rattle.std.specs.Prelude.{◌≡◌};
ghost use Rattle.edr_samples.specs.Trees.{members_view};
ghost use Rattle.covjson_domains.specs.DomainTypes.{presence};
ghost use Rattle.covjson_domains.specs.TypeAnswers as types;

use covjson_checks::{CovFault, Member};
use covjson_value::{AxisName, DomainType, axis_by_name};
use edr_json::Tree;
use serde_json::Map;

/// Whether a domain of a type has an axis, and how many values that has.
#[derive(Clone, Copy)]
pub enum Presence {
    /// There is none.
    Absent,
    /// There is one, unless it is left out, of any number of values.
    Optional,
    /// There is one, of any number of values.
    Required,
    /// There is one, unless it is left out, of a single value.
    OptionalSingle,
    /// There is one, of a single value.
    Single,
}

/// Which axes a domain of a type has.
pub fn presence_of(kind: DomainType, name: AxisName) -> Presence
    ensures { result ≡ presence kind name }
{
    match kind {
        DomainType::Grid => match name {
            AxisName::T => Presence::Optional,
            AxisName::Z => Presence::Optional,
            AxisName::Y | AxisName::X => Presence::Required,
            AxisName::Composite => Presence::Absent,
        },
        DomainType::Point => match name {
            AxisName::T => Presence::OptionalSingle,
            AxisName::Z => Presence::OptionalSingle,
            AxisName::Y | AxisName::X => Presence::Single,
            AxisName::Composite => Presence::Absent,
        },
        DomainType::PointSeries => match name {
            AxisName::T => Presence::Required,
            AxisName::Z => Presence::OptionalSingle,
            AxisName::Y | AxisName::X => Presence::Single,
            AxisName::Composite => Presence::Absent,
        },
        DomainType::VerticalProfile => match name {
            AxisName::T => Presence::OptionalSingle,
            AxisName::Z => Presence::Required,
            AxisName::Y | AxisName::X => Presence::Single,
            AxisName::Composite => Presence::Absent,
        },
        DomainType::MultiPoint => match name {
            AxisName::T => Presence::OptionalSingle,
            AxisName::Z => Presence::Absent,
            AxisName::Y | AxisName::X => Presence::Absent,
            AxisName::Composite => Presence::Required,
        },
        DomainType::Trajectory => match name {
            AxisName::T => Presence::Absent,
            AxisName::Z => Presence::OptionalSingle,
            AxisName::Y | AxisName::X => Presence::Absent,
            AxisName::Composite => Presence::Required,
        },
    }
}

/// Nothing, where the axis may be left out: Missing.
pub fn left_out(presence: Presence, member: Member) -> Result<(), CovFault>
    ensures { result ≡ types.left_out presence member }
{
    match presence {
        Presence::Required | Presence::Single => Err(CovFault::Missing(member)),
        Presence::Absent | Presence::Optional | Presence::OptionalSingle => Ok(()),
    }
}

// Whether a domain of a type may have an axis of that name.
fn may_have(kind: DomainType, key: &str) -> bool
    ensures { result ≡ types.may_have kind key.now }
{
    match axis_by_name(key) {
        Some(name) => !matches!(presence_of(kind, name), Presence::Absent),
        None => false,
    }
}

/// Whether each member has the name of an axis that a domain of the type may have.
pub fn has_no_others(kind: DomainType, members: &Map<String, Tree>) -> bool
    ensures { result ≡ types.has_no_others kind (members_view members.now.entries) }
{
    for (key, _) in members.iter() {
        if !may_have(kind, key) {
            return false;
        }
    }
    true
}
