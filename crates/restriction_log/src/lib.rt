//! What is posted on the roads: changes of limits and ratings, the state that they make, and the log that keeps them.
//!
//! A posting replaces one limit of a segment or the rating of one span, as a state does when a road is closed or a bridge
//! is posted anew. The first posting is number 1, and the version of a log is the number of its last posting.
//!
//! To the crate above it promises that the state of a version is the fold of the postings over the base values of the
//! network; that a posting is refused exactly where the network does not take it or the log is full, and is otherwise
//! the next one; and that where a segment was not changed after a version, its limits and the ratings of its spans are
//! still those of that version.
//!
//! A state is kept in pages, which stand in groups, and so are the stamps, which say which segments changed after a version.
//! A posting copies one page of each and the lists of owners above it: that of its group, and that of all groups. All else
//! stays where it is, in as many states as have it in common.
#![tactic(auto)]

mod change;
mod laws;
mod lists;
mod log;
mod page;
mod pages;
mod refusal;
mod stamps;
mod state;

pub use change::{Change, Replaced, takes, touched};
pub use laws::states_are_of_their_network;
pub use log::Log;
pub use refusal::PostRefusal;
pub use road_graph::{Network, NoMemory};
pub use stamps::Stamps;
pub use state::State;
