//! Analysts: workers who carry out their actors' commands by the calls of an office, all at once.
//!
//! An application is decided in attempts: a snapshot is taken of what is posted, what the application needs is found at it,
//! while others may post, and what was found is submitted. The office tests it again and may answer that it is out of date;
//! after eight such answers it is asked to find itself what is needed. Every other command is one call. This order of calls, and
//! that there are eight attempts, are this project's own. A worker is an actor with calls of its own and a script. It carries
//! out its commands in their order, up to the first for which memory is wanting or the history is full.
//!
//! To the crate above it promises which entries a command, and each worker's script, add to their caller's own, whatever others
//! call meanwhile; how many these are at the most; and that they are determined where nobody else calls.
#![tactic(auto)]

mod deciding;
mod errand;
mod finder;
mod gate;
mod laws;
mod room;
mod worker;

pub use deciding::{carry_out, decide};
pub use errand::Errand;
pub use finder::Finder;
pub use gate::{Gate, OpenGate};
pub use laws::{runs_are_one, scripts_are_short, unfoldings_are_short};
pub use room::most_entries;
pub use worker::{Outcome, Worker, run_actors};
