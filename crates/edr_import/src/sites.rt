//! The stations of observations.
ghost use Rattle.std.specs.Prelude.{◌≡◌, Contains, IfOk, OnOk, MatchOption};
ghost use Rattle.edr_ids.specs.Ids.{item_of, with_item};
ghost use Rattle.edr_import.specs.Sorting.{AreSorted};
ghost use Rattle.edr_import.specs.Tables.{AreSites, AreTimes, IsSite, site_id};
ghost use Rattle.edr_import.specs.Sites.{NotesSite};

use crate::times::times_of;
use edr_axes::Axis;
use edr_base::{OutOfMemory, Text};
use edr_csv::Observation;
use edr_ids::{ById, Identified, items_are_by_id};
use std::alloc::Global;

/// A station of a table.
#[derive(Drop)]
pub struct Site {
    /// Its id, a name.
    pub id: Text,
    /// What people call it; UTF-8.
    pub label: Text,
    /// Its first coordinate, in metres.
    pub x: i64,
    /// Its second coordinate, in metres.
    pub y: i64,
    /// Its times, in seconds since 1970-01-01T00:00:00Z.
    pub times: Axis,
}

impl Identified for Site {
    ghost id_of = { λ site. site.id };

    fn id(&self) -> &[u8] {
        self.id.bytes()
    }
}

// The times of the station of an observation.
fn axis_of(
    alloc: Global,
    observations: &[Observation],
    first: &Observation,
) -> Result<Axis, OutOfMemory>
    requires sorted { AreSorted observations.now }
    requires among { Contains observations.now first.now }
    ensures { IfOk result (AreTimes observations.now first.now.station) }
{
    let times = times_of(alloc, observations, first.station.bytes())?;
    Axis::over(alloc, &times)
}

// The station of an observation.
fn site_of(
    alloc: Global,
    observations: &[Observation],
    first: &Observation,
) -> Result<Site, OutOfMemory>
    requires sorted { AreSorted observations.now }
    requires among { Contains observations.now first.now }
    ensures is { IfOk result (IsSite observations.now) }
    ensures id { IfOk result (λ site. site_id site ≡ first.now.station) }
{
    let times = axis_of(alloc, observations, first)?;
    let id = Text::of(alloc, first.station.bytes())?;
    let label = Text::of(alloc, first.label.bytes())?;
    Ok(Site {
        id,
        label,
        x: first.x,
        y: first.y,
        times,
    })
}

// Notes the station of an observation where it is new.
fn note(
    alloc: Global,
    sites: &mut ById<Site>,
    observations: &[Observation],
    first: &Observation,
) -> Result<(), OutOfMemory>
    requires sorted { AreSorted observations.now }
    requires among { Contains observations.now first.now }
    ensures { OnOk result (NotesSite observations.now sites.old first.now sites.new) }
{
    if sites.item_of(first.station.bytes()).is_some() {
        return Ok(());
    }
    sites.put(alloc, site_of(alloc, observations, first)?)
}

/// The stations of observations, in ascending order of their ids.
pub(crate) fn sites_of(
    alloc: Global,
    observations: &[Observation],
) -> Result<ById<Site>, OutOfMemory>
    requires { AreSorted observations.now }
    ensures { IfOk result (AreSites observations.now) }
{
    items_are_by_id::<Site>();
    let mut sites = ById::empty();
    for place in 0..observations.len() {
        note(alloc, &mut sites, observations, &observations[place])?;
    }
    let _count = sites.len();
    Ok(sites)
}
