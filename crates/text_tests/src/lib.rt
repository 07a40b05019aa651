//! Texts: streams, the records that come in and how they are refused, reports, journals, and the words of the command line.
//!
//! Tests alone. What no clause says is shown here: that calls succeed where there is memory, whole texts, faults in turn. A crate
//! with tests is proved twice, so these stand in a crate of their own, over what they test.
#![tactic(auto)]

#[cfg(test)]
mod fixtures;
#[cfg(test)]
mod journals;
#[cfg(test)]
mod made_days;
#[cfg(test)]
mod printed;
#[cfg(test)]
mod records;
#[cfg(test)]
mod refusals;
#[cfg(test)]
mod replacements;
#[cfg(test)]
mod reports;
#[cfg(test)]
mod reroutes;
#[cfg(test)]
mod scripts;
#[cfg(test)]
mod streams;
#[cfg(test)]
mod trials;
#[cfg(test)]
mod words;
