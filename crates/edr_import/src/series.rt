//! The values of stations.
ghost use Rattle.std.specs.Prelude.{◌≡◌, IfOk};
ghost use Rattle.edr_import.specs.Sorting.{AreSorted};
ghost use Rattle.edr_import.specs.Tables.{AreSeries, AreValues, IsValueAt};

use crate::names::Name;
use crate::sites::Site;
use crate::sorting::order_to;
use covjson_value::NdArray;
use edr_base::{Items, OutOfMemory};
use edr_csv::Observation;
use edr_ids::ById;
use std::alloc::Global;

// The value of a parameter at a station and a time.
fn value_of(observations: &[Observation], station: &[u8], t: i64, parameter: &[u8]) -> Option<i64>
    requires { AreSorted observations.now }
    ensures { IsValueAt observations.now station.now t parameter.now result }
{
    match observations.binary_search_by(|observation| order_to(
        observation,
        station,
        t,
        parameter,
    )) {
        Ok(place) => observations[place].value,
        Err(_) => None,
    }
}

// The values of a parameter at a station.
fn values_of(
    alloc: Global,
    observations: &[Observation],
    site: &Site,
    parameter: &[u8],
) -> Result<Vec<Option<i64>>, OutOfMemory>
    requires { AreSorted observations.now }
    ensures { IfOk result (λ values. AreValues observations.now site.now parameter.now values.items) }
{
    let mut values = Vec::new(alloc);
    for place in 0..site.times.len() {
        let t = site.times.value(place);
        values.push(value_of(observations, site.id.bytes(), t, parameter))?;
    }
    Ok(values)
}

/// The values of each parameter at a station.
pub(crate) fn series_of(
    alloc: Global,
    observations: &[Observation],
    names: &ById<Name>,
    site: &Site,
) -> Result<Items<NdArray>, OutOfMemory>
    requires { AreSorted observations.now }
    ensures { IfOk result (AreSeries observations.now names.now site.now) }
{
    let mut ranges = Vec::new(alloc);
    for place in 0..names.len() {
        let values = values_of(alloc, observations, site, names.at(place).id.bytes())?;
        ranges.push(NdArray {
            values: Items::of(values),
        })?;
    }
    Ok(Items::of(ranges))
}
