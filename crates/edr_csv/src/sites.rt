//! Stations, each as its first observation has it.
ghost use Rattle.std.specs.Prelude.{◌≡◌, ◌↔◌, ℕ, IfOk, IsTrue, MatchOption, true};
ghost use Rattle.edr_base.specs.FirstThatApplies.{IsFirstPlace};
ghost use Rattle.edr_ids.specs.Ids.{item_of, with_item};
ghost use Rattle.edr_csv.specs.Observations.{DiffersAt};
ghost use Rattle.edr_csv.specs.Notes.{IsAtSite, site_id, site_of};

use crate::observations::Observation;
use edr_base::{OutOfMemory, Text};
use edr_ids::{ById, Identified, items_are_by_id};
use std::alloc::Global;

/// A station, as its first observation has it.
#[derive(Drop)]
pub struct Site {
    id: Text,
    label: Text,
    x: i64,
    y: i64,
}

impl Identified for Site {
    ghost id_of = { λ site. site.id };

    fn id(&self) -> &[u8] {
        self.id.bytes()
    }
}

impl Site {
    // The station of an observation.
    fn of(alloc: Global, observation: &Observation) -> Result<Site, OutOfMemory>
        ensures { IfOk result (λ site. site ≡ site_of observation.now) }
    {
        let id = Text::of(alloc, observation.station.bytes())?;
        let label = Text::of(alloc, observation.label.bytes())?;
        Ok(Site {
            id,
            label,
            x: observation.x,
            y: observation.y,
        })
    }

    // Whether an observation has its label, x and y.
    fn has(&self, observation: &Observation) -> bool
        ensures { IsTrue result ↔ IsAtSite self.now observation.now }
    {
        self.label.bytes() == observation.label.bytes()
            && self.x == observation.x
            && self.y == observation.y
    }
}

// Whether an observation is at its station. The station is noted where it is new.
fn is_at_site(
    alloc: Global,
    sites: &mut ById<Site>,
    observation: &Observation,
) -> Result<bool, OutOfMemory>
    ensures { IfOk result (λ is. MatchOption (item_of site_id observation.now.station sites.old)
        ((is ≡ true) × (sites.new ≡ with_item site_id (site_of observation.now) sites.old))
        (λ site. (IsTrue is ↔ IsAtSite site observation.now) × (sites.new ≡ sites.old))) }
{
    if let Some(site) = sites.item_of(observation.station.bytes()) {
        return Ok(site.has(observation));
    }
    sites.put(alloc, Site::of(alloc, observation)?)?;
    Ok(true)
}

/// The first place, from 0, of an observation whose label, x or y isn't that of its station's first.
pub fn differing(alloc: Global, observations: &[Observation]) -> Result<Option<usize>, OutOfMemory>
    ensures { IfOk result (λ found. MatchOption found ((place : ℕ) → ¬ (DiffersAt observations.now place)) (IsFirstPlace (DiffersAt observations.now))) }
{
    items_are_by_id::<Site>();
    let mut sites = ById::empty();
    for place in 0..observations.len() {
        if !is_at_site(alloc, &mut sites, &observations[place])? {
            return Ok(Some(place));
        }
    }
    Ok(None)
}
