//! Axes of coverages, times as text, the times and levels that a request selects, and distances.
#![tactic(auto)]

mod axis;
mod distances;
mod instants;
mod levels;
mod reading_instants;
mod times;

pub use axis::{Axis, AxisFault, bounds_split_axes, nearest_is_one};
pub use distances::{distances_are_unique, read_distance};
pub use instants::{texts_tell_times, times_are_written, write_instant};
pub use levels::{LevelFault, Levels, levels_are_unique, read_levels};
pub use reading_instants::{
    instants_are_read, instants_are_unique, read_instant, written_times_are_instants,
};
pub use times::{Times, read_times, times_are_unique};
