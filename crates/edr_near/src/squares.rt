//! Places and squares of the plane, in whole metres.
ghost use Rattle.std.specs.Prelude.{◌≡◌, ℕ, ◌<◌, ◌≤◌, ◌-ℤ◌, unsigned_abs};
ghost use Rattle.edr_base.specs.Limits.{IsCoordinate};
ghost use Rattle.edr_near.specs.Squares as plane;
ghost use Rattle.edr_near.specs.Squares.{IsSpot, strips};
ghost use Rattle.edr_near.specs.Search.{IsFrom};

use edr_base::Spot;

// The side of a square, in metres.
const SIDE: u64 = 65_536;

// How far below the coordinate 0 the first column and the first row begin, in metres.
const EDGE: i64 = 134_217_728;

/// A square of the plane, by its column and its row.
#[derive(Clone, Copy, Debug, PartialEq, Eq)]
pub struct Square {
    pub column: u64,
    pub row: u64,
}

// How far two coordinates are apart.
fn apart(a: i64, b: i64) -> u64
    requires a_in { IsCoordinate a }
    requires b_in { IsCoordinate b }
    ensures is { result ≡ unsigned_abs (a -ℤ b) }
    ensures small { result ≤ 200_000_000 }
{
    a.abs_diff(b)
}

/// The square of the distance of two places, in square metres.
pub fn squared_distance(a: &Spot, b: &Spot) -> u64
    requires a_in { IsSpot a.now }
    requires b_in { IsSpot b.now }
    ensures { result ≡ plane.squared_distance a.now b.now }
{
    let across = apart(a.x, b.x);
    let along = apart(a.y, b.y);
    across * across + along * along
}

// How far a coordinate is from where the first column or row begins.
fn behind_edge(value: i64) -> u64
    requires { IsCoordinate value }
    ensures is { result ≡ plane.behind_edge value }
    ensures small { result < 268_435_456 }
{
    (value + EDGE).unsigned_abs()
}

// The column of an x, or the row of a y.
fn strip_of(value: i64) -> u64
    requires { IsCoordinate value }
    ensures is { result ≡ plane.strip_of value }
    ensures small { result < strips }
{
    behind_edge(value) / SIDE
}

/// The square that has a place.
pub fn square_of(spot: &Spot) -> Square
    requires { IsSpot spot.now }
    ensures column { result.column ≡ plane.strip_of spot.now.x }
    ensures row { result.row ≡ plane.strip_of spot.now.y }
    ensures column_in { result.column < strips }
    ensures row_in { result.row < strips }
{
    Square {
        column: strip_of(spot.x),
        row: strip_of(spot.y),
    }
}

// How far a coordinate is from those columns or rows from one to another; 0 inside them.
fn gap_of_strips(first: u64, last: u64, value: i64) -> u64
    requires first { first < strips }
    requires last { last < strips }
    requires value { IsCoordinate value }
    ensures least { (strip : ℕ) → first ≤ strip → strip ≤ last → result ≤ plane.gap strip value }
    ensures small { result ≤ 536_870_912 }
{
    let at = behind_edge(value);
    (first * SIDE).saturating_sub(at) + at.saturating_sub(last * SIDE + (SIDE - 1))
}

// How far a coordinate is from a column or a row; 0 inside it.
fn gap(strip: u64, value: i64) -> u64
    requires strip { strip < strips }
    requires value { IsCoordinate value }
    ensures is { result ≡ plane.gap strip value }
    ensures small { result ≤ 536_870_912 }
{
    let first = strip * SIDE;
    let at = behind_edge(value);
    first.saturating_sub(at) + at.saturating_sub(first + (SIDE - 1))
}

impl Square {
    /// The square of its distance from a place, in square metres; 0 where the place is in it.
    pub fn distance(&self, spot: &Spot) -> u64
        requires column { self.now.column < strips }
        requires row { self.now.row < strips }
        requires spot { IsSpot spot.now }
        ensures { result ≡ plane.square_distance self.now.column self.now.row spot.now }
    {
        let across = gap(self.column, spot.x);
        let along = gap(self.row, spot.y);
        across * across + along * along
    }
}

/// How far the squares from one to another are from a place, squared, in ascending order of columns, and of rows in a column:
/// none of them is nearer.
pub fn distance_of_squares(first: Square, last: Square, spot: &Spot) -> u64
    requires first_column { first.column < strips }
    requires first_row { first.row < strips }
    requires last_column { last.column < strips }
    requires last_row { last.row < strips }
    requires spot { IsSpot spot.now }
    ensures { (column row : ℕ) → IsFrom first.column first.row column row → IsFrom column row last.column last.row → result ≤ plane.square_distance column row spot.now }
{
    let across = gap_of_strips(first.column, last.column, spot.x);
    if first.column < last.column {
        return across * across;
    }
    let along = gap_of_strips(first.row, last.row, spot.y);
    across * across + along * along
}
