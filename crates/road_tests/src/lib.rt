//! Roads: networks, what is posted on them, the versions that this makes, the limits of a segment and searches. Trips on them:
//! days, what is asked for and what is found, the permits that were issued and where they go.
//!
//! Tests alone. What no clause says is shown here: that calls succeed where there is memory, whole texts, faults in turn. A crate
//! with tests is proved twice, so these stand in a crate of their own, over what they test.
#![tactic(auto)]

#[cfg(test)]
mod analyses;
#[cfg(test)]
mod days;
#[cfg(test)]
mod fixtures;
#[cfg(test)]
mod indexes;
#[cfg(test)]
mod limits;
#[cfg(test)]
mod networks;
#[cfg(test)]
mod permits;
#[cfg(test)]
mod postings;
#[cfg(test)]
mod routes;
#[cfg(test)]
mod searches;
#[cfg(test)]
mod snapshots;
