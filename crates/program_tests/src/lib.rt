//! The program: whole days and their journals, reports, refusals, faults in turn, and actors who meet.
//!
//! Tests alone. What no clause says is shown here: that runs end well where there is memory, whole texts, faults in turn, and that
//! actors work at once. A crate with tests is proved twice, so these stand in a crate of their own, over what they test.
#![tactic(auto)]

#[cfg(test)]
mod audits;
#[cfg(test)]
mod carried_days;
#[cfg(test)]
mod cases;
#[cfg(test)]
mod certificates;
#[cfg(test)]
mod days;
#[cfg(test)]
mod faults;
#[cfg(test)]
mod inputs;
#[cfg(test)]
mod journal_cases;
#[cfg(test)]
mod made_days;
#[cfg(test)]
mod meetings;
#[cfg(test)]
mod record_cases;
#[cfg(test)]
mod refusal_cases;
#[cfg(test)]
mod repeated_days;
#[cfg(test)]
mod report_cases;
#[cfg(test)]
mod runs;
