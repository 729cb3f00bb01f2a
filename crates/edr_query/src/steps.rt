//! What the parameters of a page say, step by step in the order of the refusals.
ghost use Rattle.std.specs.Prelude.{◌≡◌, ◌↔◌, IsTrue};
ghost use Rattle.edr_base.specs.declared.refusals.Refusal.TheVariants.{BadFormat, MissingParameter, BadDistance};
ghost use Rattle.edr_query.specs.declared.parameters.Parameter.TheVariants as p;
ghost use Rattle.edr_query.specs.declared.parameters.Parameter.{Parameter as AnyParameter};
ghost use Rattle.edr_query.specs.Parameters.{value_of, IsFormat, GivenBoth, MaySayBoth};
ghost use Rattle.edr_axes.specs.Distances.{IsDistance, HasNoDistance};
ghost use Rattle.edr_query.specs.Queries.{IsSaid, conflicts, has_m, has_z, has_levels, are_several};
ghost use Rattle.edr_query.specs.Targets.{HasBadDistance, HasBadFormat, LacksRequired, IsMissing};
ghost use Rattle.edr_query.specs.Reads.{Checks, Steps, Passed, IsComplete, IsPlace, AreLimits, AreDistances, IsHeightPaired, IsAllSaid, has_required};

use crate::addresses::{PageKind, QueryKind};
use crate::coords::{check_geometry, check_height_along, is_corridor, read_bbox, read_coords};
use crate::filters::{read_datetime, read_z};
use crate::pairs::Parameters;
use crate::parameters::Parameter;
use crate::reading::TargetFault;
use crate::said::Said;
use crate::shapes::BoundingBox;
use edr_axes::{
    Levels, Times, distances_are_unique, levels_are_unique, read_distance, times_are_unique,
};
use edr_base::Refusal;
use edr_wkt::{Geometry, wkt_is_one};
use std::alloc::Global;

// Whether a text is a format that a page is offered in.
fn is_format(page: PageKind, text: &[u8]) -> bool
    ensures { IsTrue result ↔ IsFormat page text.now }
{
    match page {
        PageKind::Description => {
            text.eq_ignore_ascii_case(b"json") || text.eq_ignore_ascii_case(b"application/json")
        }
        _ => {
            text.eq_ignore_ascii_case(b"coveragejson")
                || text.eq_ignore_ascii_case(b"json")
                || text.eq_ignore_ascii_case(b"application/prs.coverage+json")
        }
    }
}

// `f`, where it is given, is a format of the page.
fn check_format(page: PageKind, parameters: &Parameters<'_>) -> Result<(), TargetFault>
    ensures { Checks result (λ done. ¬ (HasBadFormat page parameters.now)) BadFormat (HasBadFormat page parameters.now) }
{
    match parameters.get(Parameter::Format) {
        Some(text) => {
            if is_format(page, text.as_bytes()) {
                Ok(())
            } else {
                Err(TargetFault::Refused(Refusal::BadFormat))
            }
        }
        None => Ok(()),
    }
}

// Whether the parameters that a page can't do without are given.
fn has_required(page: PageKind, parameters: &Parameters<'_>) -> bool
    ensures { result ≡ has_required page parameters.now }
{
    match page {
        PageKind::Query(QueryKind::Cube) => parameters.has(Parameter::Bbox),
        PageKind::Query(QueryKind::Radius) => {
            parameters.has(Parameter::Coords)
                && parameters.has(Parameter::Within)
                && parameters.has(Parameter::WithinUnits)
        }
        PageKind::Query(QueryKind::Corridor) => {
            parameters.has(Parameter::Coords)
                && parameters.has(Parameter::CorridorWidth)
                && parameters.has(Parameter::WidthUnits)
        }
        PageKind::Query(_) => parameters.has(Parameter::Coords),
        _ => true,
    }
}

// The parameters that a page can't do without are given.
fn check_required(page: PageKind, parameters: &Parameters<'_>) -> Result<(), TargetFault>
    ensures { Checks result (λ done. ¬ (LacksRequired page parameters.now)) MissingParameter (IsMissing page parameters.now) }
{
    if has_required(page, parameters) {
        Ok(())
    } else {
        Err(TargetFault::Refused(Refusal::MissingParameter))
    }
}

// The height of a corridor and its unit are both given, or neither.
fn check_height(page: PageKind, parameters: &Parameters<'_>) -> Result<(), TargetFault>
    ensures { Checks result (λ done. IsHeightPaired page parameters.now) MissingParameter (IsMissing page parameters.now) }
{
    if !is_corridor(page) {
        return Ok(());
    }
    if parameters.has(Parameter::CorridorHeight) {
        if parameters.has(Parameter::HeightUnits) {
            return Ok(());
        }
        return Err(TargetFault::Refused(Refusal::MissingParameter));
    }
    if parameters.has(Parameter::HeightUnits) {
        return Err(TargetFault::Refused(Refusal::MissingParameter));
    }
    Ok(())
}

// The distance of a number and a unit, where both are given.
fn read_metres(
    parameters: &Parameters<'_>,
    number: Parameter,
    unit: Parameter,
) -> Result<Option<i64>, TargetFault>
    ensures { Checks result (λ metres. MaySayBoth IsDistance (value_of number parameters.now) (value_of unit parameters.now) metres) BadDistance (GivenBoth number unit HasNoDistance parameters.now) }
{
    let Some(number_text) = parameters.get(number) else {
        return Ok(None);
    };
    let Some(unit_text) = parameters.get(unit) else {
        return Ok(None);
    };
    match read_distance(number_text.as_bytes(), unit_text.as_bytes()) {
        Some(metres) => Ok(Some(metres)),
        None => Err(TargetFault::Refused(Refusal::BadDistance)),
    }
}

fn has_m(coords: &Option<Geometry>) -> bool
    ensures { result ≡ has_m coords.now }
{
    match coords {
        Some(Geometry::Points { has_m, .. }) => *has_m,
        Some(Geometry::Line { has_m, .. }) => *has_m,
        Some(Geometry::Polygons { has_m, .. }) => *has_m,
        None => false,
    }
}

fn has_z(coords: &Option<Geometry>) -> bool
    ensures { result ≡ has_z coords.now }
{
    match coords {
        Some(Geometry::Points { has_z, .. }) => *has_z,
        Some(Geometry::Line { has_z, .. }) => *has_z,
        Some(Geometry::Polygons { has_z, .. }) => *has_z,
        None => false,
    }
}

fn has_levels(bbox: &Option<BoundingBox>) -> bool
    ensures { result ≡ has_levels bbox.now }
{
    match bbox {
        Some(found) => found.levels.is_some(),
        None => false,
    }
}

// Whether levels are given and aren't a single one.
fn are_several(levels: &Option<Levels>) -> bool
    ensures { result ≡ are_several levels.now }
{
    match levels {
        None => false,
        Some(Levels::At(_)) => false,
        Some(_) => true,
    }
}

// Whether what the parameters say contradicts itself.
fn conflicts(said: &Said) -> bool
    ensures { result ≡ conflicts said.now }
{
    if has_m(&said.coords) && said.times.is_some() {
        return true;
    }
    if has_z(&said.coords) && said.levels.is_some() {
        return true;
    }
    if has_levels(&said.bbox) && said.levels.is_some() {
        return true;
    }
    said.height.is_some() && !has_z(&said.coords) && are_several(&said.levels)
}

// `f` is a format of the page, and what the page can't do without is given.
fn check_complete(page: PageKind, parameters: &Parameters<'_>) -> Result<(), TargetFault>
    requires { Passed page parameters.now 9 }
    ensures { Steps result (λ done. IsComplete page parameters.now) page parameters.now }
{
    check_format(page, parameters)?;
    check_required(page, parameters)?;
    check_height(page, parameters)?;
    Ok(())
}

// The geometry of `coords`, which the page takes; or the first refusal.
fn read_place(
    alloc: Global,
    page: PageKind,
    parameters: &Parameters<'_>,
) -> Result<Option<Geometry>, TargetFault>
    requires { Passed page parameters.now 9 }
    ensures { Steps result (λ coords. IsPlace page parameters.now coords) page parameters.now }
{
    wkt_is_one();
    check_complete(page, parameters)?;
    let coords = read_coords(alloc, parameters)?;
    check_height_along(page, parameters, &coords)?;
    check_geometry(page, parameters, &coords)?;
    Ok(coords)
}

// The box, the times and the levels, or the first refusal from these on.
fn read_limits(
    alloc: Global,
    page: PageKind,
    parameters: &Parameters<'_>,
) -> Result<(Option<BoundingBox>, Option<Times>, Option<Levels>), TargetFault>
    requires { Passed page parameters.now 13 }
    ensures { Steps result (λ limits. AreLimits page parameters.now limits.0 limits.1 limits.2) page parameters.now }
{
    let bbox = read_bbox(alloc, parameters)?;
    let times = read_datetime(parameters)?;
    let levels = read_z(alloc, parameters)?;
    Ok((bbox, times, levels))
}

// The distances `within`, `corridor-width` and `corridor-height`.
fn read_distances(
    parameters: &Parameters<'_>,
) -> Result<(Option<i64>, Option<i64>, Option<i64>), TargetFault>
    ensures { Checks result (λ metres. AreDistances parameters.now metres.0 metres.1 metres.2) BadDistance (HasBadDistance parameters.now) }
{
    let within = read_metres(parameters, Parameter::Within, Parameter::WithinUnits)?;
    let width = read_metres(parameters, Parameter::CorridorWidth, Parameter::WidthUnits)?;
    let height = read_metres(
        parameters,
        Parameter::CorridorHeight,
        Parameter::HeightUnits,
    )?;
    Ok((within, width, height))
}

// What is said, unless it contradicts itself.
fn without_conflict(
    page: PageKind,
    parameters: &Parameters<'_>,
    said: Said,
) -> Result<Said, TargetFault>
    requires passed { Passed page parameters.now 16 }
    requires said { IsSaid parameters.now said }
    ensures { Steps result (λ said. IsAllSaid page parameters.now said) page parameters.now }
{
    wkt_is_one();
    times_are_unique();
    levels_are_unique();
    distances_are_unique();
    if conflicts(&said) {
        return Err(TargetFault::Refused(Refusal::Conflict));
    }
    Ok(said)
}

/// What the parameters of a page say, whose names are known and stand once; or the first refusal.
pub fn read_said(
    alloc: Global,
    page: PageKind,
    parameters: &Parameters<'_>,
) -> Result<Said, TargetFault>
    requires { Passed page parameters.now 9 }
    ensures { Steps result (λ said. IsAllSaid page parameters.now said) page parameters.now }
{
    let coords = read_place(alloc, page, parameters)?;
    let (bbox, times, levels) = read_limits(alloc, page, parameters)?;
    let (within, width, height) = read_distances(parameters)?;
    let said = Said {
        coords,
        within,
        bbox,
        width,
        height,
        times,
        levels,
    };
    without_conflict(page, parameters, said)
}
