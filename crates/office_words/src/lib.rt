//! The words of an office: what it is asked, what it answers, the entries of its history, and what an actor wants of it.
//!
//! Whoever reads a day file, prints a journal or reads one back speaks of these alone, and of no office: what a call does is
//! said in the crate of the office, `office_core`.
#![tactic(auto)]

mod entry;

pub use entry::{Call, Cause, Command, Entry, Reply};
