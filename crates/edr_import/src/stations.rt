//! The stations of a table with their coverages.
ghost use Rattle.std.specs.Prelude.{◌≡◌, All, IfOk, OnOk, length, map};
ghost use Rattle.edr_import.specs.Sorting.{AreSorted};
ghost use Rattle.edr_import.specs.Tables.{AreParameters, AreSites, AreStations, IsSite, IsStation, labelled, series_coverage};
ghost use Rattle.edr_import.specs.Stations.{AreGood, IsGood, IsWritable};

use crate::names::Name;
use crate::series::series_of;
use crate::sites::Site;
use covjson_value::{Coverage, Domain, NdArray, Parameter, Referencing};
use edr_base::{Items, OutOfMemory, Text};
use edr_csv::Observation;
use edr_ids::ById;
use std::alloc::Global;

/// A station of a table with its coverage.
#[derive(Drop)]
pub struct Station {
    /// Its id, a name.
    pub id: Text,
    /// What people call it; UTF-8.
    pub label: Text,
    /// Its series (OGC 21-069r2, PointSeries).
    pub coverage: Coverage,
}

// A parameter whose label is its id.
fn parameter_of(alloc: Global, name: &Name) -> Result<Parameter, OutOfMemory>
    ensures { IfOk result (λ parameter. parameter ≡ labelled name.now) }
{
    let id = Text::of(alloc, name.id.bytes())?;
    let lang = Text::of(alloc, b"en")?;
    let label = Text::of(alloc, name.id.bytes())?;
    Ok(Parameter {
        id,
        lang,
        label,
        unit: None,
    })
}

// The parameters of a table.
fn parameters_of(alloc: Global, names: &ById<Name>) -> Result<Items<Parameter>, OutOfMemory>
    ensures { IfOk result (λ parameters. parameters ≡ map labelled names.now) }
{
    let mut parameters = Vec::new(alloc);
    for place in 0..names.len() {
        parameters.push(parameter_of(alloc, names.at(place))?)?;
    }
    Ok(Items::of(parameters))
}

// The coverage of a station that has these ranges.
fn coverage_over(
    alloc: Global,
    names: &ById<Name>,
    site: &Site,
    ranges: Items<NdArray>,
) -> Result<Coverage, OutOfMemory>
    ensures { IfOk result (λ coverage. coverage ≡ series_coverage names.now site.now ranges) }
{
    let crs = Text::of(alloc, b"local")?;
    let parameters = parameters_of(alloc, names)?;
    let t = site.times.copy(alloc)?;
    Ok(Coverage {
        id: None,
        domain: Domain::PointSeries {
            t,
            z: None,
            y: site.y,
            x: site.x,
        },
        referencing: Referencing {
            crs,
            vertical: None,
        },
        parameters,
        ranges,
    })
}

// A station with its coverage.
fn station_of(
    alloc: Global,
    observations: &[Observation],
    names: &ById<Name>,
    site: &Site,
) -> Result<Station, OutOfMemory>
    requires { AreSorted observations.now }
    ensures { IfOk result (IsStation observations.now names.now site.now) }
{
    let ranges = series_of(alloc, observations, names, site)?;
    let coverage = coverage_over(alloc, names, site, ranges)?;
    let id = Text::of(alloc, site.id.bytes())?;
    let label = Text::of(alloc, site.label.bytes())?;
    Ok(Station {
        id,
        label,
        coverage,
    })
}

/// The stations with their coverages, in their order.
pub(crate) fn stations_of(
    alloc: Global,
    observations: &[Observation],
    names: &ById<Name>,
    sites: &ById<Site>,
) -> Result<Vec<Station>, OutOfMemory>
    requires { AreSorted observations.now }
    ensures { IfOk result (λ stations. AreStations observations.now names.now sites.now stations.items) }
{
    let mut stations = Vec::new(alloc);
    for place in 0..sites.len() {
        stations.push(station_of(alloc, observations, names, sites.at(place))?)?;
    }
    Ok(stations)
}
