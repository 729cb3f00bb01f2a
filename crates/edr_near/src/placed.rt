//! What stands at a place.
ghost use Rattle.std.specs.Prelude.{◌≡◌, ◌&&◌, bytes_eq, option_map, option_to_list, ◌++◌, ◌∷◌, [], Contains};
ghost use Rattle.edr_base.specs.declared.places.Spot.{Spot};
ghost use Rattle.edr_near.specs.Squares.{IsSpot};
ghost use Rattle.std.specs.Ordering.{is_lt, int_eq};
ghost use Rattle.edr_base.specs.Names.{order};
ghost use Rattle.edr_near.specs.Near as near;
ghost use Rattle.edr_near.specs.Near.{Nearest};

use crate::squares::squared_distance;
use edr_base::Spot;
use edr_ids::Identified;
use std::cmp::Ordering;

/// What stands at a place, such as a station.
pub trait Placed {
    /// Where it stands.
    ghost spot_of: { Self → Spot };

    /// Where it stands. It takes no memory.
    fn spot(&self) -> Spot
        ensures spot { result ≡ spot_of self.now }
        ensures within { IsSpot (spot_of self.now) };
}

/// How far an item is from a place, squared.
pub fn distance_of<T: Identified + Placed>(item: &T, spot: &Spot) -> u64
    requires { IsSpot spot.now }
    ensures { result ≡ near.distance_of T.id_of T.spot_of spot.now item.now }
{
    squared_distance(&item.spot(), spot)
}

// Whether two places are one.
fn are_one(one: &Spot, other: &Spot) -> bool
    ensures { result ≡ (int_eq one.now.x other.now.x && int_eq one.now.y other.now.y) }
{
    one.x == other.x && one.y == other.y
}

// Whether an item has an id.
fn has_id<T: Identified>(item: &T, id: &[u8]) -> bool
    ensures { result ≡ bytes_eq (T.id_of item.now) id.now }
{
    item.id() == id
}

/// Whether an item has an id and stands at a place.
pub fn is_it<T: Identified + Placed>(item: &T, id: &[u8], spot: &Spot) -> bool
    ensures { result ≡ near.is_it T.id_of T.spot_of spot.now id.now item.now }
{
    let own = has_id(item, id);
    let here = are_one(&item.spot(), spot);
    own && here
}

// Whether the id of one item is below that of another.
fn has_lower_id<T: Identified>(one: &T, other: &T) -> bool
    ensures { result ≡ is_lt (order (T.id_of one.now) (T.id_of other.now)) }
{
    match one.id().cmp(other.id()) {
        Ordering::Less => true,
        _ => false,
    }
}

// Whether one item is nearer to a place than another: by the pairs of their squared distance and their id.
fn is_nearer<T: Identified + Placed>(one: &T, other: &T, spot: &Spot) -> bool
    requires { IsSpot spot.now }
    ensures { result ≡ near.is_nearer T.id_of T.spot_of spot.now one.now other.now }
{
    match distance_of(one, spot).cmp(&distance_of(other, spot)) {
        Ordering::Less => true,
        Ordering::Equal => has_lower_id(one, other),
        Ordering::Greater => false,
    }
}

/// Of an item, if one is given, and another one that which is nearest to a place.
pub fn nearer_of<'a, T: Identified + Placed>(
    best: Option<&'a T>,
    item: &'a T,
    spot: &Spot,
) -> Option<&'a T>
    requires { IsSpot spot.now }
    ensures { Nearest T.id_of T.spot_of spot.now (Contains (option_to_list (option_map (λ b. b.now) best.entry) ++ item.now ∷ [])) (option_map (λ i. i.now) result) }
{
    match best {
        None => Some(item),
        Some(best) => {
            if is_nearer(item, best, spot) {
                Some(item)
            } else {
                Some(best)
            }
        }
    }
}
