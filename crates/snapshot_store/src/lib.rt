//! Versions of what is posted: a store takes postings one after another, and hands out the state of the current version to
//! as many owners as ask for it.
//!
//! A snapshot is a version and its state. It stays as it is, whatever is posted later: so whoever looks for a route works on
//! one version, while others go on to post.
//!
//! To the crate above it promises that the state of a version is the fold of the postings over the base values of the
//! network, in the store as in each snapshot, and that a posting is refused exactly where the network does not take it or
//! the store is full. A posting can be made in two steps, so that the next state can be looked at before it is in force.
#![tactic(auto)]

mod next;
mod snapshot;
mod store;

pub use next::Next;
pub use snapshot::Snapshot;
pub use store::Store;
