//! Tests of what stands on the ground: stations and their samples, what areas hold, what lines take, and bodies that are kept.
#![tactic(auto)]

#[cfg(test)]
mod blocks;
#[cfg(test)]
mod corridors;
#[cfg(test)]
mod kept;
#[cfg(test)]
mod nearest;
#[cfg(test)]
mod planes;
#[cfg(test)]
mod station_words;
#[cfg(test)]
mod stations;
#[cfg(test)]
mod words;
