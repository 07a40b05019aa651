//! Trucks and the federal weight limits, on trains and tables worked by hand or published.
//!
//! Tests alone. What no clause says is shown here: that calls succeed where there is memory, whole texts, faults in turn. A crate
//! with tests is proved twice, so these stand in a crate of their own, over what they test.
#![tactic(auto)]

#[cfg(test)]
mod federal_limits;
#[cfg(test)]
mod fixtures;
#[cfg(test)]
mod formula_table;
#[cfg(test)]
mod trains;
