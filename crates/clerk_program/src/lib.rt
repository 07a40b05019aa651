//! What the clerk's program does for the words of a command line: what it reads, what it writes, and the status that it ends with.
//!
//! `certify` says of a journal and of the day file behind it whether the journal is one of all of that day. It rests on the audit,
//! which says whether the history is legal, and on the seats of the actors, which say whether it is whole. `carry` writes the file of
//! the day that comes next behind such a journal, and tells how the permits that go on are numbered in it.
//!
//! To the crate above it promises that a run is one of the clerk's program, by the same record that says what a run of the permit
//! office's program is; that a journal is called whole exactly where its history serves the day file by the definition of the
//! headline; and that what is carried over is a day file, with the roads as they were in force, which begins with just the permits
//! that stood.
#![tactic(auto)]

mod carry;
mod certify;
mod judging;
mod laws;
mod refusals;
mod runs;
mod whole_day;

pub use laws::{
    certificates_are_what_is_taken, days_are_carried_where_it_can_be, every_clerk_status_is_named,
    the_clerk_judges_once,
};
pub use runs::{refuse_clerk_words, run_clerk};
