//! The edges of a polygon along a line: where they cross, and the places on them.
ghost use Rattle.std.specs.Prelude.{◌≡◌, length, OnOk};
ghost use Rattle.std.specs.List.{All, flat_map};
ghost use Rattle.edr_geometry.specs.Limits.{IsSpot, IsPlaced, IsPlacedRing};
ghost use Rattle.edr_geometry.specs.Lines.{IsLine, AreCuts, Toggles, odd_crossed, on_edges, spot_along};
ghost use Rattle.edr_geometry.specs.Planar as plane;
ghost use Rattle.edr_geometry.specs.Rows.{Joins};

use crate::cuts::{mark, toggle};
use crate::lines::Line;
use crate::rows::spot_of;
use edr_base::{Items, Position, Spot};
use std::alloc::AllocError;

// Changes odd and even at each place of a line for which an edge crosses, and sets each place on it.
fn trace_edge(
    cuts: &mut Vec<usize>,
    mask: &mut [bool],
    line: &Line<'_>,
    a: &Spot,
    b: &Spot,
) -> Result<(), AllocError>
    requires line { IsLine line.now }
    requires a_in { IsSpot a.now }
    requires b_in { IsSpot b.now }
    requires cuts { AreCuts (length line.now.values) cuts.old.items }
    requires mask { length mask.old ≡ length line.now.values }
    ensures cuts { OnOk result (AreCuts (length line.now.values) cuts.new.items) }
    ensures toggles { OnOk result (Toggles (length line.now.values) cuts.old.items cuts.new.items (λ place. plane.crosses (spot_along line.now place) a.now b.now)) }
    ensures joins { OnOk result (Joins mask.old mask.new (λ place. plane.on_segment (spot_along line.now place) a.now b.now)) }
{
    toggle(cuts, line.len(), line.places_crossed(a, b))?;
    mark(mask, line.places_on(a, b));
    Ok(())
}

// Does so for each edge of a ring.
fn trace_ring(
    cuts: &mut Vec<usize>,
    mask: &mut [bool],
    line: &Line<'_>,
    ring: &[Position],
) -> Result<(), AllocError>
    requires line { IsLine line.now }
    requires ring_in { All IsPlaced ring.now }
    requires cuts { AreCuts (length line.now.values) cuts.old.items }
    requires mask { length mask.old ≡ length line.now.values }
    ensures cuts { OnOk result (AreCuts (length line.now.values) cuts.new.items) }
    ensures toggles { OnOk result (Toggles (length line.now.values) cuts.old.items cuts.new.items (odd_crossed line.now (plane.edges_along ring.now))) }
    ensures joins { OnOk result (Joins mask.old mask.new (on_edges line.now (plane.edges_along ring.now))) }
{
    for place in 1..ring.len() {
        let a = spot_of(&ring[place - 1]);
        let b = spot_of(&ring[place]);
        trace_edge(cuts, mask, line, &a, &b)?;
    }
    Ok(())
}

/// Changes odd and even at each place of a line for each edge of a polygon that crosses for it, and sets each place on an edge.
pub fn trace_polygon(
    cuts: &mut Vec<usize>,
    mask: &mut [bool],
    line: &Line<'_>,
    rings: &[Items<Position>],
) -> Result<(), AllocError>
    requires line { IsLine line.now }
    requires rings_in { All IsPlacedRing rings.now }
    requires cuts { AreCuts (length line.now.values) cuts.old.items }
    requires mask { length mask.old ≡ length line.now.values }
    ensures cuts { OnOk result (AreCuts (length line.now.values) cuts.new.items) }
    ensures toggles { OnOk result (Toggles (length line.now.values) cuts.old.items cuts.new.items (odd_crossed line.now (flat_map plane.edges_along rings.now))) }
    ensures joins { OnOk result (Joins mask.old mask.new (on_edges line.now (flat_map plane.edges_along rings.now))) }
{
    for ring in rings {
        trace_ring(cuts, mask, line, ring.items())?;
    }
    Ok(())
}
