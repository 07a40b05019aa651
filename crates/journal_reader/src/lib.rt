//! The journal read back: the history that a text is the journal of, or the first line that no journal has.
//!
//! The formats are this project's own, those of `journal_text`: a journal of each is read. Each value has one spelling, so a
//! text is the journal of one history at most, and no journal is a proper prefix of another: these are laws.
//!
//! To the crate above it promises that a text is read exactly where it is the journal of some history, as that history; and
//! that else the answer names the first line such that no journal begins with the lines up to it. Whether a reply fits its
//! call is not asked here.
#![tactic(auto)]

mod calls;
mod cut;
mod entries;
mod formats;
mod laws;
mod limits;
mod numbers;
mod parts;
mod reading;
mod refusal;
mod replies;
mod routes;
mod words;

pub use cut::{Cut, cut_behind_end};
pub use laws::{
    answers_are_one, cuts_are_one, histories_differ_in_text, journals_are_long,
    no_journal_begins_another, what_is_printed_is_read,
};
pub use reading::read;
pub use refusal::JournalRefusal;
