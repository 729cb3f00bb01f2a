//! Tests of the outside, of names and refusals, of numbers and texts, of lists by id, of packed samples, of well-known text and
//! of axes; of trees of JSON; of documents, which are written, read, and written as tables; and of editions, of drafts of them, and of feeds.
#![tactic(auto)]

#[cfg(test)]
mod axes;
#[cfg(test)]
mod cases;
#[cfg(test)]
mod chunks;
#[cfg(test)]
mod documents;
#[cfg(test)]
mod drafts;
#[cfg(test)]
mod editions;
#[cfg(test)]
mod feeds;
#[cfg(test)]
mod geometries;
#[cfg(test)]
mod ids;
#[cfg(test)]
mod lines;
#[cfg(test)]
mod numbers;
#[cfg(test)]
mod outside;
#[cfg(test)]
mod reading;
#[cfg(test)]
mod tables;
#[cfg(test)]
mod texts;
#[cfg(test)]
mod trees;
#[cfg(test)]
mod validity;
#[cfg(test)]
mod writing;
