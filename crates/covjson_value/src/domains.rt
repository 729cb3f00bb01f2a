//! Domains of coverages and their axes.
ghost use Rattle.std.specs.Prelude.{◌≡◌, ◌≤◌, ◌<◌, ◌^◌, option_map, IfSome, MatchOption};
ghost use Rattle.covjson_value.specs.Domains.{axis_of, tuples_of, coordinates_of, is_among, has_coordinate, single, count_of, is_grid, range_axis_of, range_tuples_of};
ghost use Rattle.edr_axes.specs.Axes.{axis_length, IsAxis};
ghost use Rattle.covjson_value.specs.DomainTypes.{kind_of, type_key};
ghost use Rattle.covjson_value.specs.declared.domains.CoordinateName.TheVariants.{T, Z, Y, X};

use crate::domain_types::DomainType;
use edr_axes::Axis;
use edr_base::{Items, Position};
use std::slice;

/// A coordinate of a domain, and the axis of that name.
#[derive(Clone, Copy, PartialEq, Eq)]
pub enum CoordinateName {
    /// Times, in seconds since 1970-01-01T00:00:00Z.
    T,
    /// Levels, in metres.
    Z,
    /// The second coordinate, in metres.
    Y,
    /// The first coordinate, in metres.
    X,
}

/// The places and times of a coverage's values (OGC 21-069r2, Domain objects and domain types).
///
/// x and y are in metres of the coordinate reference system, z is a level in metres, and t is a time
/// in seconds since 1970-01-01T00:00:00Z. In a valid coverage coordinates and levels have a size of at most
/// `COORDINATE_LIMIT`, and times lie in the years 0000 to 9999.
#[derive(Drop)]
pub enum Domain {
    /// All nodes of some axes (domain type `Grid`).
    Grid {
        /// Times, where it has them.
        t: Option<Axis>,
        /// Levels, where it has them.
        z: Option<Axis>,
        /// The second coordinates.
        y: Axis,
        /// The first coordinates.
        x: Axis,
    },
    /// One place (domain type `Point`).
    Point {
        /// The time, where it has one.
        t: Option<i64>,
        /// The level, where it has one.
        z: Option<i64>,
        /// The second coordinate.
        y: i64,
        /// The first coordinate.
        x: i64,
    },
    /// Several times at one place (domain type `PointSeries`).
    PointSeries {
        /// The times.
        t: Axis,
        /// The level, where it has one.
        z: Option<i64>,
        /// The second coordinate.
        y: i64,
        /// The first coordinate.
        x: i64,
    },
    /// Several levels at one place (domain type `VerticalProfile`).
    VerticalProfile {
        /// The time, where it has one.
        t: Option<i64>,
        /// The levels.
        z: Axis,
        /// The second coordinate.
        y: i64,
        /// The first coordinate.
        x: i64,
    },
    /// Several places (domain type `MultiPoint`).
    MultiPoint {
        /// The time, where it has one.
        t: Option<i64>,
        /// Whether each place has a level.
        has_z: bool,
        /// The places, at least one, m being 0, and z where they have no levels.
        spots: Items<Position>,
    },
    /// Several places, each at its time (domain type `Trajectory`).
    Trajectory {
        /// The level of all places, where they have one together; None where each has its own.
        z: Option<i64>,
        /// Whether each place has a level of its own.
        has_z: bool,
        /// The places, at least one, in the order of their times, which are m and never fall; z is 0 where they have no levels of their own.
        steps: Items<Position>,
    },
}

// The one value of an axis that stands for one value.
fn single_of(value: &Option<i64>) -> Option<&[i64]>
    ensures values { option_map (λ values. values.now) result ≡ option_map single value.now }
    ensures axis { IfSome result (λ values. IsAxis values.now) }
{
    match value {
        Some(value) => Some(slice::from_ref(value)),
        None => None,
    }
}

// The values of an axis, where there is one.
fn values_of(axis: &Option<Axis>) -> Option<&[i64]>
    ensures values { option_map (λ values. values.now) result ≡ axis.now }
    ensures axis { IfSome result (λ values. IsAxis values.now) }
{
    match axis {
        Some(axis) => Some(axis.values()),
        None => None,
    }
}

// The names of the coordinates of tuples.
const SPOT: [CoordinateName; 2] = [CoordinateName::X, CoordinateName::Y];

const SPOT_WITH_LEVEL: [CoordinateName; 3] = [
    CoordinateName::X,
    CoordinateName::Y,
    CoordinateName::Z,
];

const STEP: [CoordinateName; 3] = [CoordinateName::T, CoordinateName::X, CoordinateName::Y];

const STEP_WITH_LEVEL: [CoordinateName; 4] = [
    CoordinateName::T,
    CoordinateName::X,
    CoordinateName::Y,
    CoordinateName::Z,
];

impl Domain {
    /// The values of an axis, or None where the domain hasn't that axis. It takes no memory.
    pub fn axis(&self, name: CoordinateName) -> Option<&[i64]>
        ensures values { option_map (λ values. values.now) result ≡ axis_of self.now name }
        ensures axis { IfSome result (λ values. IsAxis values.now) }
    {
        match name {
            CoordinateName::T => self.times(),
            CoordinateName::Z => self.levels(),
            CoordinateName::Y => self.rows(),
            CoordinateName::X => self.columns(),
        }
    }

    fn times(&self) -> Option<&[i64]>
        ensures values { option_map (λ values. values.now) result ≡ axis_of self.now T }
        ensures axis { IfSome result (λ values. IsAxis values.now) }
    {
        match self {
            Domain::Grid { t, .. } => values_of(t),
            Domain::PointSeries { t, .. } => Some(t.values()),
            Domain::Point { t, .. }
            | Domain::VerticalProfile { t, .. }
            | Domain::MultiPoint { t, .. } => single_of(t),
            Domain::Trajectory { .. } => None,
        }
    }

    fn levels(&self) -> Option<&[i64]>
        ensures values { option_map (λ values. values.now) result ≡ axis_of self.now Z }
        ensures axis { IfSome result (λ values. IsAxis values.now) }
    {
        match self {
            Domain::Grid { z, .. } => values_of(z),
            Domain::VerticalProfile { z, .. } => Some(z.values()),
            Domain::Point { z, .. }
            | Domain::PointSeries { z, .. }
            | Domain::Trajectory { z, .. } => single_of(z),
            Domain::MultiPoint { .. } => None,
        }
    }

    fn rows(&self) -> Option<&[i64]>
        ensures values { option_map (λ values. values.now) result ≡ axis_of self.now Y }
        ensures axis { IfSome result (λ values. IsAxis values.now) }
    {
        match self {
            Domain::Grid { y, .. } => Some(y.values()),
            Domain::Point { y, .. }
            | Domain::PointSeries { y, .. }
            | Domain::VerticalProfile { y, .. } => Some(slice::from_ref(y)),
            Domain::MultiPoint { .. } | Domain::Trajectory { .. } => None,
        }
    }

    fn columns(&self) -> Option<&[i64]>
        ensures values { option_map (λ values. values.now) result ≡ axis_of self.now X }
        ensures axis { IfSome result (λ values. IsAxis values.now) }
    {
        match self {
            Domain::Grid { x, .. } => Some(x.values()),
            Domain::Point { x, .. }
            | Domain::PointSeries { x, .. }
            | Domain::VerticalProfile { x, .. } => Some(slice::from_ref(x)),
            Domain::MultiPoint { .. } | Domain::Trajectory { .. } => None,
        }
    }

    /// The tuples of the composite axis, or None where the domain has none. Their m is the time, and what is no coordinate
    /// of them is 0. It takes no memory.
    pub fn tuples(&self) -> Option<&[Position]>
        ensures { option_map (λ tuples. tuples.now) result ≡ tuples_of self.now }
    {
        match self {
            Domain::MultiPoint { spots, .. } => Some(spots.items()),
            Domain::Trajectory { steps, .. } => Some(steps.items()),
            Domain::Grid { .. }
            | Domain::Point { .. }
            | Domain::PointSeries { .. }
            | Domain::VerticalProfile { .. } => None,
        }
    }

    /// The names of the coordinates of the tuples, in their order; none where there are no tuples.
    /// It takes no memory.
    pub fn coordinates(&self) -> &'static [CoordinateName]
        ensures { result.now ≡ coordinates_of self.now }
    {
        match self {
            Domain::MultiPoint { has_z, .. } => { if *has_z { &SPOT_WITH_LEVEL } else { &SPOT } }
            Domain::Trajectory { has_z, .. } => { if *has_z { &STEP_WITH_LEVEL } else { &STEP } }
            Domain::Grid { .. }
            | Domain::Point { .. }
            | Domain::PointSeries { .. }
            | Domain::VerticalProfile { .. } => &[],
        }
    }

    /// Whether the tuples have a coordinate. It takes no memory.
    pub fn is_in_tuples(&self, name: CoordinateName) -> bool
        ensures { result ≡ is_among name (coordinates_of self.now) }
    {
        match self {
            Domain::MultiPoint { has_z, .. } => match name {
                CoordinateName::T => false,
                CoordinateName::Z => *has_z,
                CoordinateName::Y | CoordinateName::X => true,
            },
            Domain::Trajectory { has_z, .. } => match name {
                CoordinateName::Z => *has_z,
                CoordinateName::T | CoordinateName::Y | CoordinateName::X => true,
            },
            Domain::Grid { .. }
            | Domain::Point { .. }
            | Domain::PointSeries { .. }
            | Domain::VerticalProfile { .. } => false,
        }
    }

    /// Whether the domain has a coordinate, in its tuples or along an axis. It takes no memory.
    pub fn has(&self, name: CoordinateName) -> bool
        ensures { result ≡ has_coordinate self.now name }
    {
        self.is_in_tuples(name) || self.axis(name).is_some()
    }

    // 1 where it hasn't the axis.
    fn axis_len(&self, name: CoordinateName) -> usize
        ensures length { result ≡ axis_length (axis_of self.now name) }
        ensures some { 0 < result }
    {
        match self.axis(name) {
            Some(values) => values.len(),
            None => 1,
        }
    }

    // 1 where it has none.
    fn tuples_len(&self) -> usize
        ensures { result ≡ axis_length (tuples_of self.now) }
    {
        match self.tuples() {
            Some(tuples) => tuples.len(),
            None => 1,
        }
    }

    /// How many values a parameter has over the domain: the product of the lengths of its axes.
    /// None where that is beyond a usize. It takes no memory.
    pub fn count(&self) -> Option<usize>
        ensures { MatchOption result (2 ^ 64 ≤ count_of self.now) (λ n. n ≡ count_of self.now) }
    {
        let times = self.axis_len(CoordinateName::T);
        let levels = self.axis_len(CoordinateName::Z);
        let rows = self.axis_len(CoordinateName::Y);
        let columns = self.axis_len(CoordinateName::X);
        let places = columns.checked_mul(self.tuples_len())?;
        let nodes = rows.checked_mul(places)?;
        let profiles = levels.checked_mul(nodes)?;
        times.checked_mul(profiles)
    }

    /// Whether it is a Grid. It takes no memory.
    pub fn is_grid(&self) -> bool
        ensures { result ≡ is_grid self.now }
    {
        match self {
            Domain::Grid { .. } => true,
            Domain::Point { .. }
            | Domain::PointSeries { .. }
            | Domain::VerticalProfile { .. }
            | Domain::MultiPoint { .. }
            | Domain::Trajectory { .. } => false,
        }
    }

    /// The type of the domain (OGC 21-069r2, domain types).
    pub fn kind(&self) -> DomainType
        ensures { result ≡ kind_of self.now }
    {
        match self {
            Domain::Grid { .. } => DomainType::Grid,
            Domain::Point { .. } => DomainType::Point,
            Domain::PointSeries { .. } => DomainType::PointSeries,
            Domain::VerticalProfile { .. } => DomainType::VerticalProfile,
            Domain::MultiPoint { .. } => DomainType::MultiPoint,
            Domain::Trajectory { .. } => DomainType::Trajectory,
        }
    }

    /// The name of its type in CoverageJSON. It takes no memory.
    pub fn type_name(&self) -> &'static str
        ensures { result.now ≡ type_key (kind_of self.now) }
    {
        match self.kind() {
            DomainType::Grid => "Grid",
            DomainType::Point => "Point",
            DomainType::PointSeries => "PointSeries",
            DomainType::VerticalProfile => "VerticalProfile",
            DomainType::MultiPoint => "MultiPoint",
            DomainType::Trajectory => "Trajectory",
        }
    }

    /// The values of an axis of the domain's ranges: in a Grid each axis that it has, and else one that has
    /// not just one value. It takes no memory.
    pub fn range_axis(&self, name: CoordinateName) -> Option<&[i64]>
        ensures { option_map (λ values. values.now) result ≡ range_axis_of self.now name }
    {
        let values = self.axis(name)?;
        if self.is_grid() || values.len() != 1 {
            Some(values)
        } else {
            None
        }
    }

    /// The tuples of the composite axis of the domain's ranges: where it has not just one. It takes no memory.
    pub fn range_tuples(&self) -> Option<&[Position]>
        ensures { option_map (λ tuples. tuples.now) result ≡ range_tuples_of self.now }
    {
        let tuples = self.tuples()?;
        if self.is_grid() || tuples.len() != 1 {
            Some(tuples)
        } else {
            None
        }
    }
}
