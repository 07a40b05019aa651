//! A lock around a value with a story, whose turns are taken in the order of their tickets.
//!
//! A thread takes a turn with a pass, adds one entry to the story and passes the turn on. Each pass tells what it has
//! seen and what it added, so a caller can say what the story holds without knowing what other threads do: every turn
//! finds a story that goes on from all that its pass has seen, in which the pass's entries are those that it added.
//! At the end the value comes back, and the receipts of the passes account for every entry.
//!
//! It has the words of a ticket lock (Mellor-Crummey and Scott, "Algorithms for scalable synchronization on shared-memory
//! multiprocessors", 1991): one word has the next ticket, one the ticket now served, and one slot has the value. But a ticket
//! is drawn only where no turn is held, so that nobody waits for a thread that sleeps.
//!
//! To the crate above it promises the clauses of [`Turn`]'s calls, whatever the threads do. Nothing is said of waiting:
//! not that a ticket is ever served, nor in what time, nor that callers who never met at the root have an order.
#![tactic(auto)]

mod held;
mod law;
mod notes;
mod pass;
mod plays;
mod steps;
mod story;
mod turn;
mod view;

pub use held::Held;
pub use notes::{Notes, note_once};
pub use pass::{Pass, Root};
pub use story::Storied;
pub use turn::{NoMemory, Turn, Worn};
