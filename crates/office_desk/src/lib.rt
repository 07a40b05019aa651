//! The office that threads share.
//!
//! A desk is an office under a lock whose turns are taken in the order of their tickets. A thread has a pass, and each of
//! its calls is one turn with one step of the office: the entry that the step adds has the number of the pass, and the
//! pass has then seen the history up to it. A look makes its entry and takes its snapshot in one turn, so no other entry
//! comes between the two. A `Seat` is a pass with its desk as the calls of one caller, for those who ask an office of
//! whatever kind.
//!
//! To the crate above it promises, whatever the threads do, that each call finds a legal history which goes on from all
//! that its pass has seen, and that the office which comes back at the end has those entries and no others: what the
//! passes that left say that they added, each once and in order. How threads take turns is the promise of the lock, and
//! what a step answers is that of the office. Nothing is said of waiting: not that a turn ever comes, nor when.
//!
//! A desk may be shared by threads, and a pass or a seat may go to one. An office has too many parts for a search to find
//! that by itself, so a call that starts threads cites `desk_sync`, `pass_send` or `seat_send` of `proofs/Sending.antt`.
#![tactic(auto)]

mod desk;
mod named_calls;
mod seat;
mod shared_office;

pub use desk::{Desk, Pass, Root};
pub use seat::Seat;
pub use shared_office::SharedOffice;
