//! What the permit office's program does for the words of a command line: what it reads, what it writes, whom it tells, and the
//! status that it ends with.
//!
//! The program on top hands the words and the standard streams in, and the status out. Whoever has other words, another source
//! or another sink calls [`run`] as it does. A command is a value, `Command` in `specs/Command.antt`: what it reads, how it
//! judges bytes, what it promises of its text, and whom it tells. What a run gives is one record over any command, `IsRun` in
//! `specs/Runs.antt`; what the text is that a day's run writes stands on one page, `specs/Headline.antt`.
#![tactic(auto)]

mod audit;
mod commands;
mod convoy;
mod day;
mod endings;
mod laws;
mod made;
mod notices;
mod refusal;
mod reports;
mod reroute;
mod runs;
mod words;

pub use endings::{end_made, end_refused, end_unread, refuse, take_bytes};
pub use laws::{
    commands_judge_once, every_status_is_named, lone_days_are_serial, only_days_tell,
    standard_error_has_a_line_for_each_recall,
};
pub use notices::{LineNotice, add_listener};
pub use refusal::Refusal;
pub use runs::{Alone, Ended, refuse_words, run, run_alone};
pub use words::{WordsFault, words_behind};
