//! Coverages of stations that are gathered, as many as a reply has room for.
ghost use Rattle.std.specs.Prelude.{◌≡◌, ◌<◌, ◌≤◌, true, false, OnOk, MatchOption};
ghost use Rattle.edr_select.specs.Limits.{value_limit};
ghost use Rattle.edr_plan.specs.StationPlans as plans;
ghost use Rattle.edr_plan.specs.StationPlans.{has_room, with_series};

use edr_base::OutOfMemory;
use edr_select::{COVERAGE_LIMIT, StationSeries, VALUE_LIMIT, value_product};
use std::marker::Model;

// The coverages so far, and how many values they have.
#[derive(Drop)]
pub(crate) struct Gathered {
    pub(crate) series: Vec<StationSeries>,
    pub(crate) values: u64,
}

impl Model for Gathered {
    ghost use Rattle.edr_plan.specs.StationPlans.{GatheredValue};

    ghost Value = { GatheredValue };

    ghost view = { λ g. record { series = g.series.items; values = g.values } };
}

impl Gathered {
    // Whether a reply has room for a coverage more, of so many values.
    fn has_room(&self, values: u64) -> bool
        requires values { values ≤ value_limit }
        requires few { self.now.values ≤ value_limit }
        ensures { result ≡ has_room self.now values }
    {
        self.values + values <= VALUE_LIMIT && self.series.len() < COVERAGE_LIMIT
    }

    // Adds a coverage of so many values.
    pub(crate) fn push(&mut self, series: StationSeries, values: u64) -> Result<(), OutOfMemory>
        requires { has_room self.old values ≡ true }
        ensures { OnOk result (self.new ≡ with_series self.old series values) }
    {
        self.series.push(series)?;
        self.values += values;
        Ok(())
    }
}

// How many values some parameters have at so many times and levels, or None where they are above the limit of a reply.
fn value_count(parameters: usize, times: usize, levels: usize) -> Option<u64>
    requires { 1 ≤ parameters }
    ensures { MatchOption result (value_limit < plans.value_count parameters times levels)
        (λ count. (count ≡ plans.value_count parameters times levels) × (count ≤ value_limit)) }
{
    let nodes = value_product(times as u64, levels as u64)?;
    value_product(parameters as u64, nodes)
}

// The same, where a reply has room for them.
pub(crate) fn room_for(
    parameters: usize,
    times: usize,
    levels: usize,
    gathered: &Gathered,
) -> Option<u64>
    requires some { 1 ≤ parameters }
    requires few { gathered.now.values ≤ value_limit }
    ensures { MatchOption result (has_room gathered.now (plans.value_count parameters times levels) ≡ false)
        (λ count. (count ≡ plans.value_count parameters times levels) × (count ≤ value_limit) × (has_room gathered.now count ≡ true)) }
{
    let Some(count) = value_count(parameters, times, levels) else {
        return None;
    };
    if !gathered.has_room(count) {
        return None;
    }
    Some(count)
}
