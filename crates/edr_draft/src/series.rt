//! The series of one place, as the input of a station.
ghost use Rattle.std.specs.Prelude.{◌≡◌, true, map, option_map, IfOk};
ghost use Rattle.covjson_value.specs.declared.domains.CoordinateName.TheVariants.{T, Z, Y, X};
ghost use Rattle.covjson_value.specs.Domains.{axis_of, has_axis, single};
ghost use Rattle.covjson_value.specs.Samples.{values_or_none};
ghost use Rattle.covjson_value.specs.Coverages.{range_values};
ghost use Rattle.edr_draft.specs.Series.{is_at_one_place, first_of, input_over};

use covjson_value::{Domain, NdArray};
use edr_axes::Axis;
use edr_base::{Items, OutOfMemory, Text};
use edr_station::StationInput;
use std::alloc::Global;
use std::slice;

/// Whether a domain is a PointSeries, or a Grid of one x and one y.
pub fn is_series(domain: &Domain) -> bool
    ensures { result ≡ is_at_one_place domain.now }
{
    match domain {
        Domain::PointSeries { .. } => true,
        Domain::Grid { y, x, .. } => y.len() == 1 && x.len() == 1,
        _ => false,
    }
}

// The axis of one value, where there is one.
fn axis_of_one(alloc: Global, value: Option<i64>) -> Result<Option<Axis>, OutOfMemory>
    ensures { IfOk result (λ axis. axis ≡ option_map single value) }
{
    let Some(value) = value else {
        return Ok(None);
    };
    Ok(Some(Axis::over(alloc, slice::from_ref(&value))?))
}

// Where and when a series is.
struct Extent {
    times: Axis,
    levels: Option<Axis>,
    y: i64,
    x: i64,
}

// Where and when the series of a domain is.
fn extent_of(alloc: Global, domain: Domain) -> Result<Extent, OutOfMemory>
    requires place { is_at_one_place domain ≡ true }
    requires times { has_axis domain T ≡ true }
    ensures times { IfOk result (λ extent. extent.times ≡ values_or_none (axis_of domain T)) }
    ensures levels { IfOk result (λ extent. extent.levels ≡ axis_of domain Z) }
    ensures y { IfOk result (λ extent. extent.y ≡ first_of (axis_of domain Y)) }
    ensures x { IfOk result (λ extent. extent.x ≡ first_of (axis_of domain X)) }
{
    match domain {
        Domain::PointSeries { t, z, y, x } => Ok(Extent {
            times: t,
            levels: axis_of_one(alloc, z)?,
            y,
            x,
        }),
        Domain::Grid { t, z, y, x } => {
            let Some(times) = t else { unreachable!() };
            Ok(Extent {
                times,
                levels: z,
                y: y.values()[0],
                x: x.values()[0],
            })
        }
        _ => unreachable!(),
    }
}

// The values of ranges.
fn series_of(
    alloc: Global,
    ranges: Items<NdArray>,
) -> Result<Items<Items<Option<i64>>>, OutOfMemory>
    ensures { IfOk result (λ series. series ≡ map range_values ranges) }
{
    let mut series = Vec::with_capacity(alloc, ranges.items().len())?;
    for range in ranges.into_vec() {
        let NdArray { values } = range;
        series.push(values)?;
    }
    Ok(Items::of(series))
}

/// The station of an id and a label that a series is, as an input.
pub fn input_of(
    alloc: Global,
    id: Text,
    label: Text,
    domain: Domain,
    ranges: Items<NdArray>,
) -> Result<StationInput, OutOfMemory>
    requires place { is_at_one_place domain ≡ true }
    requires times { has_axis domain T ≡ true }
    ensures { IfOk result (λ input. input ≡ input_over id label domain ranges) }
{
    let Extent {
        times,
        levels,
        y,
        x,
    } = extent_of(alloc, domain)?;
    Ok(StationInput {
        id,
        label,
        x,
        y,
        times,
        levels,
        series: series_of(alloc, ranges)?,
    })
}
