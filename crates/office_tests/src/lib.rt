//! The office: its calls, what they cost, analysts, callers on threads, and who is told of recalls.
//!
//! Tests alone. What no clause says is shown here: that calls succeed where there is memory, whole texts, faults in turn. A crate
//! with tests is proved twice, so these stand in a crate of their own, over what they test.
#![tactic(auto)]

#[cfg(test)]
mod analysts;
#[cfg(test)]
mod audits;
#[cfg(test)]
mod calls;
#[cfg(test)]
mod desks;
#[cfg(test)]
mod fixtures;
#[cfg(test)]
mod many;
#[cfg(test)]
mod notices;
#[cfg(test)]
mod reroutes;
#[cfg(test)]
mod turns;
#[cfg(test)]
mod wholes;
