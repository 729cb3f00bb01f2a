//! The heads of stations' coverages.
ghost use Rattle.std.specs.Prelude.{◌≡◌, ◌<◌, All, length, IfOk};
ghost use Rattle.edr_plan.specs.StationPlans as plans;
ghost use Rattle.edr_plan.specs.StationPlans.{domain_of, head_of_station, IsChoiceOf};

use crate::station_choices::{StationChoice, station_stands};
use covjson_value::{Coverage, Domain};
use edr_base::{OutOfMemory, Text};
use edr_edition::CollectionData;
use edr_select::{domain_at, head_of};
use edr_station::Station;
use std::alloc::Global;

// The domain of a station at the times and levels that are taken (OGC 21-069r2, domain types).
fn domain_of(
    alloc: Global,
    station: &Station,
    choice: &StationChoice,
) -> Result<Domain, OutOfMemory>
    requires { IsChoiceOf station.now choice.now }
    ensures { IfOk result (λ domain. domain ≡ domain_of station.now choice.now) }
{
    station_stands(station);
    let times = station.times().values_at(alloc, &choice.times)?;
    match station.levels() {
        None => domain_at(alloc, &times, None, station.y(), station.x()),
        Some(axis) => {
            let levels = axis.values_at(alloc, &choice.levels)?;
            domain_at(alloc, &times, Some(&levels), station.y(), station.x())
        }
    }
}

// A coverage with an id.
fn with_id(id: Text, head: Coverage) -> Coverage
    ensures { result ≡ plans.with_id id head }
{
    Coverage {
        id: Some(id),
        ..head
    }
}

// The head of a station's coverage, which has the station's id.
pub(crate) fn head_at(
    alloc: Global,
    collection: &CollectionData,
    parameters: &[u64],
    station: &Station,
    choice: &StationChoice,
) -> Result<Coverage, OutOfMemory>
    requires choice { IsChoiceOf station.now choice.now }
    requires parameters { All (λ place. place < length collection.now.parameters) parameters.now }
    ensures { IfOk result (λ head. head ≡ head_of_station collection.now parameters.now station.now choice.now) }
{
    let id = Text::of(alloc, station.id())?;
    let domain = domain_of(alloc, station, choice)?;
    let head = head_of(
        alloc,
        collection.referencing(),
        collection.parameters(),
        parameters,
        domain,
    )?;
    Ok(with_id(id, head))
}
