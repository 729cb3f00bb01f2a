//! Tests of HTTP, on both sides of a connection: heads, bodies in chunks, targets, replies, and requests by URLs.
#![tactic(auto)]

#[cfg(test)]
mod chunked_bodies;
#[cfg(test)]
mod documents;
#[cfg(test)]
mod fetching;
#[cfg(test)]
mod heads;
#[cfg(test)]
mod queries;
#[cfg(test)]
mod replies;
#[cfg(test)]
mod targets;
