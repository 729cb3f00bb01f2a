//! Masks: which places of a row lie in polygons or in a disc.
ghost use Rattle.std.specs.Prelude.{◌≡◌, IfOk, OnOk, ℕ, ◌+◌, ◌<◌, length, ◌||◌, false, map, MatchOption, slice_index_or};
ghost use Rattle.std.specs.List.{All};
ghost use Rattle.edr_base.specs.Limits.{IsCoordinate, IsMetres};
ghost use Rattle.edr_geometry.specs.Limits.{IsSpot, IsPlacedPolygon};
ghost use Rattle.edr_geometry.specs.Planar as plane;
ghost use Rattle.edr_geometry.specs.Lines.{IsLine, in_polygon_at, spot_on};
ghost use Rattle.edr_geometry.specs.Rows.{Joins, is_set_in};
ghost use Rattle.edr_geometry.specs.Masks.{row_of, column_of, IsSet, NoneSet};

use crate::cuts::join_odd;
use crate::discs::{Disc, disc_of};
use crate::lines::Line;
use crate::rows::Row;
use crate::traces::trace_polygon;
use edr_axes::Axis;
use edr_base::{OutOfMemory, Spot};
use edr_wkt::Polygon;
use std::alloc::{AllocError, Global};
use std::marker::Model;

/// One truth value for each place of an x axis, for one y: whether the node there is taken. Contracts see the list.
#[derive(Debug, Drop)]
pub struct RowMask {
    places: Vec<bool>,
}

impl Model for RowMask {
    ghost use Rattle.std.specs.Prelude.{Bool, List};

    ghost Value = { List Bool };

    ghost view = { λ mask. mask.places.items };
}

// Sets each place of a line in a polygon. The cuts are room for those of the polygon.
fn join_polygon(
    cuts: &mut Vec<usize>,
    mask: &mut [bool],
    line: &Line<'_>,
    polygon: &Polygon,
) -> Result<(), AllocError>
    requires line { IsLine line.now }
    requires polygon_in { IsPlacedPolygon polygon.now }
    requires mask { length mask.old ≡ length line.now.values }
    ensures { OnOk result (Joins mask.old mask.new (in_polygon_at line.now polygon.now)) }
{
    cuts.clear();
    trace_polygon(cuts, mask, line, polygon.rings.items())?;
    cuts.sort_unstable();
    join_odd(mask, cuts);
    Ok(())
}

// The places of a line in some polygon.
fn polygons_of(
    alloc: Global,
    polygons: &[Polygon],
    line: &Line<'_>,
) -> Result<Vec<bool>, AllocError>
    requires line { IsLine line.now }
    requires polygons_in { All IsPlacedPolygon polygons.now }
    ensures { IfOk result (λ places. places.items ≡ map (λ v. plane.in_polygons (spot_on line.now v) polygons.now) line.now.values) }
{
    let mut places = vec![in alloc; false; line.len()]?;
    let mut cuts = Vec::new(alloc);
    for polygon in polygons {
        join_polygon(&mut cuts, &mut places, line, polygon)?;
    }
    Ok(places)
}

// Sets the places that either has.
fn join_all(mask: &mut [bool], other: &[bool])
    requires { length mask.old ≡ length other.now }
    ensures { Joins mask.old mask.new (is_set_in other.now) }
{
    for place in 0..mask.len() {
        mask[place] |= other[place];
    }
}

impl RowMask {
    /// The places of a row in one of some polygons, borders of holes included (OGC 06-103r4, sections 6.1.11 and 6.1.14), or
    /// want of memory.
    ///
    /// `y` and the values of `xs` are metres. At each place it is `in_polygons` of that node. The time goes with the edges
    /// and the logarithm of the row's length, and with the places that are set.
    pub fn of_polygons(
        alloc: Global,
        polygons: &[Polygon],
        y: i64,
        xs: &Axis,
    ) -> Result<RowMask, OutOfMemory>
        requires polygons_in { All IsPlacedPolygon polygons.now }
        requires y_in { IsCoordinate y }
        requires xs_in { All IsCoordinate xs.now }
        ensures { IfOk result (λ mask. mask ≡ row_of (λ p. plane.in_polygons p polygons.now) y xs.now) }
    {
        let line = Line::row(y, xs);
        Ok(RowMask {
            places: polygons_of(alloc, polygons, &line)?,
        })
    }

    /// The places of a column in one of some polygons, borders of holes included (OGC 06-103r4, sections 6.1.11 and 6.1.14),
    /// or want of memory.
    ///
    /// `x` and the values of `ys` are metres. At each place it is `in_polygons` of that node. The time goes with the edges and
    /// the logarithm of the column's length, and with the places that are set.
    pub fn of_column(
        alloc: Global,
        polygons: &[Polygon],
        x: i64,
        ys: &Axis,
    ) -> Result<RowMask, OutOfMemory>
        requires polygons_in { All IsPlacedPolygon polygons.now }
        requires x_in { IsCoordinate x }
        requires ys_in { All IsCoordinate ys.now }
        ensures { IfOk result (λ mask. mask ≡ column_of (λ p. plane.in_polygons p polygons.now) x ys.now) }
    {
        let line = Line::column(x, ys);
        Ok(RowMask {
            places: polygons_of(alloc, polygons, &line)?,
        })
    }

    /// The places of a row at most `radius` metres from a centre, or want of memory.
    ///
    /// `y` and the values of `xs` are metres. At each place it is `in_disc` of that node. Only places between the disc's
    /// least and greatest x are tested.
    pub fn of_disc(
        alloc: Global,
        centre: Spot,
        radius: i64,
        y: i64,
        xs: &Axis,
    ) -> Result<RowMask, OutOfMemory>
        requires centre_in { IsSpot centre }
        requires radius_in { IsMetres radius }
        requires y_in { IsCoordinate y }
        requires xs_in { All IsCoordinate xs.now }
        ensures { IfOk result (λ mask. mask ≡ row_of (λ p. plane.in_disc p centre radius) y xs.now) }
    {
        let row = Row { y, xs: xs.values() };
        Ok(RowMask {
            places: disc_of(alloc, &Disc { centre, radius }, &row)?,
        })
    }

    /// Sets the places that the other has too. Both have the same length. It takes no memory.
    pub fn join(&mut self, other: &RowMask)
        requires { length self.old ≡ length other.now }
        ensures len { length self.new ≡ length self.old }
        ensures set { (place : ℕ) → place < length self.old → slice_index_or self.new place false ≡ (slice_index_or self.old place false || slice_index_or other.now place false) }
    {
        join_all(&mut self.places, &other.places);
    }

    /// How many places it has.
    pub fn len(&self) -> usize
        ensures { result ≡ length self.now }
    {
        self.places.len()
    }

    /// Whether a place, from 0, is set. It takes no memory.
    pub fn is_set(&self, place: usize) -> bool
        requires { place < length self.now }
        ensures { result ≡ slice_index_or self.now place false }
    {
        self.places[place]
    }

    /// The first place, from 0, that is set, or `None` where none is. It takes no memory.
    pub fn first(&self) -> Option<usize>
        ensures { MatchOption result (NoneSet self.now 0 (length self.now)) (λ place. IsSet self.now place × NoneSet self.now 0 place) }
    {
        for place in 0..self.places.len() {
            if self.places[place] {
                return Some(place);
            }
        }
        None
    }

    /// The last place, from 0, that is set, or `None` where none is. It takes no memory.
    pub fn last(&self) -> Option<usize>
        ensures { MatchOption result (NoneSet self.now 0 (length self.now)) (λ place. IsSet self.now place × NoneSet self.now (place + 1) (length self.now)) }
    {
        let mut left = self.places.len();
        'places: while 0 < left {
            left -= 1;
            if self.places[left] {
                return Some(left);
            }
        }
        None
    }
}
