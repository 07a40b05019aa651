//! Moments and shears on simple spans, on trains worked by hand and on the tables that AASHTO prints.
//!
//! Tests alone. What no clause says is shown here: that calls succeed where there is memory, whole texts, faults in turn. A crate
//! with tests is proved twice, so these stand in a crate of their own, over what they test.
#![tactic(auto)]

#[cfg(test)]
mod convoys;
#[cfg(test)]
mod design_truck;
#[cfg(test)]
mod divisors;
#[cfg(test)]
mod fixtures;
#[cfg(test)]
mod fractions;
#[cfg(test)]
mod governing_loads;
#[cfg(test)]
mod influence_lines;
#[cfg(test)]
mod moment_peaks;
#[cfg(test)]
mod peak_laws;
#[cfg(test)]
mod ratings;
#[cfg(test)]
mod shear_peaks;
