//! Plans of the replies to queries of an edition.
#![tactic(auto)]

mod cells;
mod checks;
mod corridor_stations;
mod gathered;
mod laws;
mod lines;
mod planning;
mod stack_cells;
mod station_choices;
mod station_heads;
mod station_plans;
mod station_series;
mod stations_taken;
mod steps;

pub use laws::documents_are_valid;
pub use planning::{plan, plan_of};
