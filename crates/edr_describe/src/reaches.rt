//! Where, when and at which levels data lie, from the least to the greatest.
ghost use Rattle.std.specs.Prelude.{◌≡◌, ◌<◌, ◌∷◌, [], All, length, option_map, IfSome};
ghost use Rattle.edr_axes.specs.Instants.{IsTime};
ghost use Rattle.edr_station.specs.Stations.{IsPlaced};
ghost use Rattle.edr_describe.specs.Extents.{least, greatest, coordinates_of_stations, coordinates_where_some};
ghost use Rattle.edr_describe.specs.Reaches.{span_of, span_with, span_with_given, reach_of, reach_with, IsTimed, coordinates_of_grid, coordinates_of_station};

use edr_axes::Axis;
use edr_edition::{GridInstance, instances_have_grids};
use edr_station::{Station, Stations};

/// From the least of some values to the greatest.
#[derive(Clone, Copy, Debug, PartialEq, Eq)]
pub struct Span {
    /// The least value.
    pub low: i64,
    /// The greatest value.
    pub high: i64,
}

/// Where data lie, in metres, when, in seconds since 1970-01-01T00:00:00Z, and at which levels, where they have some.
#[derive(Clone, Copy, Debug, PartialEq, Eq)]
pub struct Reach {
    /// The first coordinates.
    pub xs: Span,
    /// The second coordinates.
    pub ys: Span,
    /// The times.
    pub ts: Span,
    /// The levels.
    pub zs: Option<Span>,
}

// The least and the greatest value of an axis.
#[tactic(auto, using(crate::proofs::Ends::least_first, crate::proofs::Ends::greatest_last))]
fn ends_of(axis: &Axis) -> (i64, i64)
    ensures least { result.0 ≡ least axis.now }
    ensures greatest { result.1 ≡ greatest axis.now }
{
    let last = axis.values().len() - 1;
    (axis.value(0), axis.value(last))
}

impl Span {
    // That of one value.
    fn at(value: i64) -> Span
        ensures { result ≡ span_of (value ∷ []) }
    {
        Span {
            low: value,
            high: value,
        }
    }

    // That of the values of an axis.
    fn of_axis(axis: &Axis) -> Span
        ensures { result ≡ span_of axis.now }
    {
        let (low, high) = ends_of(axis);
        Span { low, high }
    }

    // That of an axis of times.
    fn of_times(axis: &Axis) -> Span
        requires { All IsTime axis.now }
        ensures span { result ≡ span_of axis.now }
        ensures first { IsTime result.low }
        ensures last { IsTime result.high }
    {
        let _ = axis.values();
        Span::of_axis(axis)
    }

    // It and another one, with what lies between them.
    fn with(self, other: Span) -> Span
        ensures { result ≡ span_with self other }
    {
        Span {
            low: if self.low <= other.low {
                self.low
            } else {
                other.low
            },
            high: if self.high <= other.high {
                other.high
            } else {
                self.high
            },
        }
    }
}

// That of the levels, where there are some.
fn span_of_levels(levels: Option<&Axis>) -> Option<Span>
    ensures { result ≡ option_map span_of (option_map (λ axis. axis.now) levels.entry) }
{
    match levels {
        Some(levels) => Some(Span::of_axis(levels)),
        None => None,
    }
}

// Two spans, with what lies between them, of which each may be absent.
fn span_with_other(one: Option<Span>, other: Option<Span>) -> Option<Span>
    ensures { result ≡ span_with_given one other }
{
    match (one, other) {
        (Some(one), Some(other)) => Some(one.with(other)),
        (Some(one), None) => Some(one),
        (None, other) => other,
    }
}

// The times of a grid.
#[tactic(auto, using(crate::proofs::Ends::times_within))]
fn times_of(grid: &GridInstance) -> &Axis
    ensures times { result.now ≡ grid.now.ts }
    ensures within { All IsTime result.now }
{
    instances_have_grids();
    let _ = grid.parameters();
    grid.times()
}

impl Reach {
    /// That of a grid.
    pub fn of_grid(grid: &GridInstance) -> Reach
        ensures reach { result ≡ reach_of (coordinates_of_grid grid.now) }
        ensures times { IsTimed result }
    {
        Reach {
            xs: Span::of_axis(grid.xs()),
            ys: Span::of_axis(grid.ys()),
            ts: Span::of_times(times_of(grid)),
            zs: span_of_levels(grid.levels()),
        }
    }

    // That of one station.
    fn of_station(station: &Station) -> Reach
        requires { IsPlaced station.now }
        ensures reach { result ≡ reach_of (coordinates_of_station station.now) }
        ensures times { IsTimed result }
    {
        Reach {
            xs: Span::at(station.x()),
            ys: Span::at(station.y()),
            ts: Span::of_times(station.times()),
            zs: span_of_levels(station.levels()),
        }
    }

    // It and another one, with what lies between them.
    fn with(self, other: Reach) -> Reach
        requires times { IsTimed self }
        requires others { IsTimed other }
        ensures reach { result ≡ reach_with self other }
        ensures times { IsTimed result }
    {
        Reach {
            xs: self.xs.with(other.xs),
            ys: self.ys.with(other.ys),
            ts: self.ts.with(other.ts),
            zs: span_with_other(self.zs, other.zs),
        }
    }

    // That of at least one station.
    fn of_some(stations: &Stations) -> Reach
        requires { 0 < length stations.now.stations }
        ensures reach { result ≡ reach_of (coordinates_of_stations stations.now.stations) }
        ensures times { IsTimed result }
    {
        let first = stations.station(0);
        let mut reach = Reach::of_station(first);
        for place in 1..stations.len() {
            let station = stations.station(place);
            reach = reach.with(Reach::of_station(station));
        }
        reach
    }

    /// That of all stations; None exactly where there is none. It takes no memory.
    #[tactic(auto, using(crate::proofs::ReachesMore::reach_where_some))]
    pub fn of_stations(stations: &Stations) -> Option<Reach>
        ensures reach { result ≡ option_map reach_of (coordinates_where_some stations.now.stations) }
        ensures times { IfSome result IsTimed }
    {
        if stations.len() == 0 {
            return None;
        }
        Some(Reach::of_some(stations))
    }
}
