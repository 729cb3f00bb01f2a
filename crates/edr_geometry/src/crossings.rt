//! Where an edge of a polygon crosses for the places of a row or a column, and where they are on it.
ghost use Rattle.std.specs.Prelude.{◌≡◌, ◌≤◌, ℤ, ◌-ℤ◌, ◌*ℤ◌, ◌+ℤ◌, ◌&&◌, int_le, int_lt};
ghost use Rattle.std.specs.Int.RustNames.{unsigned_abs};
ghost use Rattle.edr_base.specs.Limits.{IsCoordinate};
ghost use Rattle.edr_geometry.specs.Limits.{IsSpot};
ghost use Rattle.edr_geometry.specs.Masks.{spot_at};
ghost use Rattle.edr_geometry.specs.Planar as plane;
ghost use Rattle.edr_geometry.specs.Ranges as ranges;
ghost use Rattle.edr_geometry.specs.Spans.{has};

use crate::points::{Way, is_among};
use crate::spans::Span;
use edr_base::Spot;

/// A place with x and y exchanged.
pub fn exchanged(spot: &Spot) -> Spot
    ensures { result ≡ ranges.exchanged spot.now }
{
    Spot {
        x: spot.y,
        y: spot.x,
    }
}

// What an x of a row, times the height of an edge, is on the edge's line.
fn line_on(y: i64, a: &Spot, b: &Spot) -> i64
    requires y_in { IsCoordinate y }
    requires a_in { IsSpot a.now }
    requires b_in { IsSpot b.now }
    ensures small { unsigned_abs result ≤ 60_000_000_000_000_000 }
    ensures is { result ≡ (b.now.x -ℤ a.now.x) *ℤ (y -ℤ a.now.y) +ℤ (b.now.y -ℤ a.now.y) *ℤ a.now.x }
{
    Way::of(a, b).along(&Way { x: y - a.y, y: a.x })
}

// The numbers that a part of an edge makes less than a limit.
fn below(part: i64, limit: i64) -> Span
    requires part_in { unsigned_abs part ≤ 200_000_000 }
    requires limit_in { unsigned_abs limit ≤ 60_000_000_000_000_000 }
    ensures { (v : ℤ) → IsCoordinate v → has result v ≡ int_lt (part *ℤ v) limit }
{
    Span::at_most(part, limit - 1)
}

// The numbers that a part of an edge makes more than a limit.
fn above(part: i64, limit: i64) -> Span
    requires part_in { unsigned_abs part ≤ 200_000_000 }
    requires limit_in { unsigned_abs limit ≤ 60_000_000_000_000_000 }
    ensures { (v : ℤ) → IsCoordinate v → has result v ≡ int_lt limit (part *ℤ v) }
{
    Span::at_least(part, limit + 1)
}

// The numbers from a low one to before a high one.
fn up_to(low: i64, high: i64) -> Span
    requires low_in { IsCoordinate low }
    requires high_in { IsCoordinate high }
    ensures { (v : ℤ) → has result v ≡ (int_le low v && int_lt v high) }
{
    Span {
        low,
        high: high - 1,
    }
}

// The numbers from one to another, whichever is less.
fn between(one: i64, other: i64) -> Span
    ensures { (v : ℤ) → has result v ≡ plane.is_among one other v }
{
    if one < other {
        Span {
            low: one,
            high: other,
        }
    } else {
        Span {
            low: other,
            high: one,
        }
    }
}

// Whether the way from one place to another goes from below a row or on it to above it.
fn passes_up(y: i64, from: &Spot, to: &Spot) -> bool
    ensures { result ≡ (int_le from.now.y y && int_lt y to.now.y) }
{
    from.y <= y && y < to.y
}

/// The x of a row for whose places an edge crosses.
pub fn crossed_in_row(y: i64, a: &Spot, b: &Spot) -> Span
    requires y_in { IsCoordinate y }
    requires a_in { IsSpot a.now }
    requires b_in { IsSpot b.now }
    ensures { (x : ℤ) → IsCoordinate x → has result x ≡ plane.crosses (spot_at y x) a.now b.now }
{
    if passes_up(y, a, b) {
        return below(Way::of(a, b).y, line_on(y, a, b));
    }
    if passes_up(y, b, a) {
        return above(Way::of(a, b).y, line_on(y, a, b));
    }
    Span::none()
}

/// The y of a column for whose places an edge crosses, in the row of each.
pub fn crossed_in_column(x: i64, a: &Spot, b: &Spot) -> Span
    requires x_in { IsCoordinate x }
    requires a_in { IsSpot a.now }
    requires b_in { IsSpot b.now }
    ensures { (y : ℤ) → IsCoordinate y → has result y ≡ plane.crosses (spot_at y x) a.now b.now }
{
    let line = line_on(x, &exchanged(a), &exchanged(b));
    let part = Way::of(a, b).x;
    if a.y < b.y {
        up_to(a.y, b.y).with(above(part, line))
    } else {
        up_to(b.y, a.y).with(below(part, line))
    }
}

/// The x of a row whose places are on an edge.
pub fn on_in_row(y: i64, a: &Spot, b: &Spot) -> Span
    requires y_in { IsCoordinate y }
    requires a_in { IsSpot a.now }
    requires b_in { IsSpot b.now }
    ensures { (x : ℤ) → IsCoordinate x → has result x ≡ plane.on_segment (spot_at y x) a.now b.now }
{
    if !is_among(a.y, b.y, y) {
        return Span::none();
    }
    let line = line_on(y, a, b);
    let part = Way::of(a, b).y;
    let on_line = Span::at_most(part, line).with(Span::at_least(part, line));
    between(a.x, b.x).with(on_line)
}

/// The y of a column whose places are on an edge.
pub fn on_in_column(x: i64, a: &Spot, b: &Spot) -> Span
    requires x_in { IsCoordinate x }
    requires a_in { IsSpot a.now }
    requires b_in { IsSpot b.now }
    ensures { (y : ℤ) → IsCoordinate y → has result y ≡ plane.on_segment (spot_at y x) a.now b.now }
{
    on_in_row(x, &exchanged(a), &exchanged(b))
}
