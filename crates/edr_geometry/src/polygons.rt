//! Tests of one place in polygons (OGC 06-103r4, sections 6.1.11 and 6.1.14).
ghost use Rattle.std.specs.Prelude.{◌≡◌, count_by};
ghost use Rattle.std.specs.List.{All, flat_map, list_any};
ghost use Rattle.edr_geometry.specs.Limits.{IsSpot, IsPlaced, IsPlacedRing, IsPlacedPolygon};
ghost use Rattle.edr_geometry.specs.Planar as plane;

use crate::points::{crosses, on_segment};
use crate::rows::spot_of;
use edr_base::{Items, Position, Spot};
use edr_wkt::Polygon;

// Whether a place is on an edge of a ring.
fn is_on_ring(p: &Spot, ring: &[Position]) -> bool
    requires p_in { IsSpot p.now }
    requires ring_in { All IsPlaced ring.now }
    ensures { result ≡ list_any (λ e. plane.on_segment p.now e.start e.end) (plane.edges_along ring.now) }
{
    let mut on_edge = false;
    for place in 1..ring.len() {
        on_edge |= on_segment(*p, spot_of(&ring[place - 1]), spot_of(&ring[place]));
    }
    on_edge
}

// Whether an odd number of the edges of a ring crosses.
fn is_odd_ring(p: &Spot, ring: &[Position]) -> bool
    requires p_in { IsSpot p.now }
    requires ring_in { All IsPlaced ring.now }
    ensures { result ≡ plane.is_odd (count_by (λ e. plane.crosses p.now e.start e.end) (plane.edges_along ring.now)) }
{
    let mut odd = false;
    for place in 1..ring.len() {
        odd ^= crosses(*p, spot_of(&ring[place - 1]), spot_of(&ring[place]));
    }
    odd
}

// Whether a place is on an edge of some ring.
fn is_on_rings(p: &Spot, rings: &[Items<Position>]) -> bool
    requires p_in { IsSpot p.now }
    requires rings_in { All IsPlacedRing rings.now }
    ensures { result ≡ list_any (λ e. plane.on_segment p.now e.start e.end) (flat_map plane.edges_along rings.now) }
{
    let mut on_edge = false;
    for ring in rings {
        on_edge |= is_on_ring(p, ring.items());
    }
    on_edge
}

// Whether an odd number of the edges of all rings crosses.
fn is_odd_rings(p: &Spot, rings: &[Items<Position>]) -> bool
    requires p_in { IsSpot p.now }
    requires rings_in { All IsPlacedRing rings.now }
    ensures { result ≡ plane.is_odd (count_by (λ e. plane.crosses p.now e.start e.end) (flat_map plane.edges_along rings.now)) }
{
    let mut odd = false;
    for ring in rings {
        odd ^= is_odd_ring(p, ring.items());
    }
    odd
}

// Whether a place is on a border of a polygon or inside it.
fn in_polygon(p: &Spot, polygon: &Polygon) -> bool
    requires p_in { IsSpot p.now }
    requires polygon_in { IsPlacedPolygon polygon.now }
    ensures { result ≡ plane.in_polygon p.now polygon.now }
{
    let rings = polygon.rings.items();
    let on_border = is_on_rings(p, rings);
    let inside = is_odd_rings(p, rings);
    on_border || inside
}

/// Whether a place is in one of some polygons: on a border, that of a hole included, or inside and in no hole.
///
/// Rings may have either direction. It takes no memory.
pub fn in_polygons(p: Spot, polygons: &[Polygon]) -> bool
    requires p_in { IsSpot p }
    requires polygons_in { All IsPlacedPolygon polygons.now }
    ensures { result ≡ plane.in_polygons p polygons.now }
{
    for polygon in polygons {
        if in_polygon(&p, polygon) {
            return true;
        }
    }
    false
}
