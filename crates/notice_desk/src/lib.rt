//! Who are told of recalls.
//!
//! A posting recalls permits, and whoever asked for it is told: all recalls, or those of one carrier. `Subscribers` keeps a
//! boxed object for each of them. `deliver` tells each object the recalls of a list that are its own, in order, and goes on
//! where the last call stopped. What an object does with a recall, and the order in which objects are served, are this
//! project's own.
//!
//! An object may fail, and counts how often it did. Contracts above rest on this: after a delivery that is done each object
//! was told exactly its recalls, once each; after one that a fault stopped, `StoppedAt` says what was told and what was not,
//! and the count of just that object rose. What an object writes for those who read it grew by the lines of just these recalls,
//! and after a fault by no more than a front of the next.
#![tactic(auto)]

mod laws;
mod memory;
mod notice;
mod subscribers;

pub use laws::{deliveries_go_on, deliveries_resume, deliveries_resume_without, new_are_told_all};
pub use memory::MemoryNotice;
pub use notice::{Notice, Recall, Whom};
pub use subscribers::{NoticeFault, Returned, Subscribers};
