//! The road network: nodes, directed segments between them, and the bridge spans that segments carry.
//!
//! The limits of a segment are those that a state posts on its roads ([`Values`]). A span has a load rating in per mille of
//! the HS20-44 truck of the AASHTO Standard Specifications. Their ranges and the greatest size of a network are this
//! project's own.
//!
//! To the crate above it promises that a network is the plain lists of what was added, in order and numbered from 0; that
//! names are one of a kind; that each refusal comes exactly for its cause; that the look-ups of a node's or a segment's
//! list are filters of those lists and take no memory; and that a network is as it was after each refusal.
#![tactic(auto)]

mod entering;
mod lists;
mod name_index;
mod network;
mod numbers;
mod refusal;
mod segment;
mod values;

pub use name_index::Names;
pub use names::NoMemory;
pub use network::Network;
pub use numbers::{Numbers, SharedNumbers};
pub use refusal::AddRefusal;
pub use segment::{Arrival, Segment, Span};
pub use values::{Values, What};
