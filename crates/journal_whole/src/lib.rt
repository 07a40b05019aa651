//! Whether a history is one of all the commands of a day, whatever order their actors carried them out in.
//!
//! Nothing of the entries is known but their order. Each is laid at the seat of its caller, which says what the caller has left
//! to do: its commands that are not finished, and of the first of these the attempts so far. An entry that its caller's seat
//! does not take is the first that strays; where none does, the first command is looked for that is not finished.
//!
//! To the crate above it promises that a history is called whole exactly where each actor's own entries are those of its
//! finished commands, one after another, nobody else has an entry, and no answer is that memory was wanting. It else names the
//! first entry with which the history is not the front of such a one or, where there is none, the first command that it lacks.
//!
//! Laws say what the entries of a whole history have to do with the commands: each is a snapshot, or asks what a command of its
//! caller wants; and no more permits are issued than there are commands.
#![tactic(auto)]

mod calls;
mod judging;
mod laws;
mod sameness;
mod seat;
mod wholeness;

pub use judging::judge;
pub use laws::{whole_histories_ask_what_was_ordered, whole_histories_issue_few, wholeness_is_one};
pub use wholeness::Wholeness;
