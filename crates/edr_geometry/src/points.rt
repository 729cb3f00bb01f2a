//! Tests of one place in the plane, in whole numbers (OGC 06-103r4, section 6.1).
ghost use Rattle.std.specs.Prelude.{◌≡◌, ◌-ℤ◌, ◌*ℤ◌, ◌+ℤ◌, pos, ◌&&◌, ◌||◌, int_lt};
ghost use Rattle.std.specs.Ordering.{int_eq};
ghost use Rattle.edr_geometry.specs.Limits.{IsSpot};
ghost use Rattle.edr_base.specs.Limits.{IsMetres};
ghost use Rattle.edr_geometry.specs.Ways.{IsWay};
ghost use Rattle.edr_geometry.specs.Planar as plane;

use edr_base::Spot;

/// v lies from one to the other, whichever is less.
pub fn is_among(one: i64, other: i64, v: i64) -> bool
    ensures { result ≡ plane.is_among one other v }
{
    (one <= v && v <= other) || (other <= v && v <= one)
}

/// The way from one place to another, in metres.
#[derive(Clone, Copy)]
pub struct Way {
    pub x: i64,
    pub y: i64,
}

impl Way {
    /// The way between two places.
    pub fn of(from: &Spot, to: &Spot) -> Way
        requires from_in { IsSpot from.now }
        requires to_in { IsSpot to.now }
        ensures x { result.x ≡ to.now.x -ℤ from.now.x }
        ensures y { result.y ≡ to.now.y -ℤ from.now.y }
        ensures small { IsWay result }
    {
        Way {
            x: to.x - from.x,
            y: to.y - from.y,
        }
    }

    /// The cross product, in square metres: above 0 where the other way turns to the left.
    pub fn cross(&self, other: &Way) -> i64
        requires self_small { IsWay self.now }
        requires other_small { IsWay other.now }
        ensures { result ≡ self.now.x *ℤ other.now.y -ℤ self.now.y *ℤ other.now.x }
    {
        self.x * other.y - self.y * other.x
    }

    // Whether the other way turns to the left.
    fn turns_left(&self, other: &Way) -> bool
        requires self_small { IsWay self.now }
        requires other_small { IsWay other.now }
        ensures { result ≡ int_lt (pos 0) (self.now.x *ℤ other.now.y -ℤ self.now.y *ℤ other.now.x) }
    {
        0 < self.cross(other)
    }

    // Whether the other way turns to the right.
    fn turns_right(&self, other: &Way) -> bool
        requires self_small { IsWay self.now }
        requires other_small { IsWay other.now }
        ensures { result ≡ int_lt (self.now.x *ℤ other.now.y -ℤ self.now.y *ℤ other.now.x) (pos 0) }
    {
        self.cross(other) < 0
    }

    /// The scalar product, in square metres.
    pub fn along(&self, other: &Way) -> i64
        requires self_small { IsWay self.now }
        requires other_small { IsWay other.now }
        ensures { result ≡ self.now.x *ℤ other.now.x +ℤ self.now.y *ℤ other.now.y }
    {
        self.x * other.x + self.y * other.y
    }
}

/// The square of the distance of two places, in square metres. It takes no memory.
pub fn squared_distance(a: Spot, b: Spot) -> i128
    requires a_in { IsSpot a }
    requires b_in { IsSpot b }
    ensures { result ≡ plane.squared_distance a b }
{
    let way = Way::of(&b, &a);
    way.along(&way) as i128
}

// Whether a place is on the line through two others.
fn is_on_line(p: &Spot, a: &Spot, b: &Spot) -> bool
    requires p_in { IsSpot p.now }
    requires a_in { IsSpot a.now }
    requires b_in { IsSpot b.now }
    ensures { result ≡ int_eq (plane.cross p.now a.now b.now) (pos 0) }
{
    Way::of(a, b).cross(&Way::of(a, p)) == 0
}

// Whether a place is in both ranges of the ends.
fn is_in_ranges(p: &Spot, a: &Spot, b: &Spot) -> bool
    requires p_in { IsSpot p.now }
    requires a_in { IsSpot a.now }
    requires b_in { IsSpot b.now }
    ensures { result ≡ (plane.is_among a.now.x b.now.x p.now.x && plane.is_among a.now.y b.now.y p.now.y) }
{
    let in_columns = is_among(a.x, b.x, p.x);
    let in_rows = is_among(a.y, b.y, p.y);
    in_columns && in_rows
}

/// Whether a place is on the segment from `a` to `b`, its ends included. It takes no memory.
pub fn on_segment(p: Spot, a: Spot, b: Spot) -> bool
    requires p_in { IsSpot p }
    requires a_in { IsSpot a }
    requires b_in { IsSpot b }
    ensures { result ≡ plane.on_segment p a b }
{
    let on_line = is_on_line(&p, &a, &b);
    let in_ranges = is_in_ranges(&p, &a, &b);
    on_line && in_ranges
}

// Whether the way from one place to another goes from below a row or on it to above it.
fn rises(p: &Spot, from: &Spot, to: &Spot) -> bool
    ensures { result ≡ plane.rises p.now from.now to.now }
{
    from.y <= p.y && p.y < to.y
}

// The place stands left of an edge that goes up, or right of one that goes down.
fn is_left_of(up: bool, left: bool, down: bool, right: bool) -> bool
    ensures { result ≡ ((up && left) || (down && right)) }
{
    (up && left) || (down && right)
}

/// Whether an edge passes the row of a place, its lower end counted, at a larger x than the place's.
pub fn crosses(p: Spot, a: Spot, b: Spot) -> bool
    requires p_in { IsSpot p }
    requires a_in { IsSpot a }
    requires b_in { IsSpot b }
    ensures { result ≡ plane.crosses p a b }
{
    let way = Way::of(&a, &b);
    let to_place = Way::of(&a, &p);
    let up = rises(&p, &a, &b);
    let down = rises(&p, &b, &a);
    let left = way.turns_left(&to_place);
    let right = way.turns_right(&to_place);
    is_left_of(up, left, down, right)
}

/// Whether a place is at most `radius` metres from a centre. It takes no memory.
pub fn in_disc(p: Spot, centre: Spot, radius: i64) -> bool
    requires p_in { IsSpot p }
    requires centre_in { IsSpot centre }
    requires radius_in { IsMetres radius }
    ensures { result ≡ plane.in_disc p centre radius }
{
    let square = radius * radius;
    squared_distance(p, centre) <= square as i128
}
