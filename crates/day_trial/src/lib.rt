//! A day on one thread: the commands of a day file, carried out one after another in the order of the file; and the same day with
//! a desk that applies again, after each command, for each permit that the command recalled.
//!
//! To the crate above it promises that the history of the office is a legal one in which the entries of each command follow
//! those of the command before it, each made by its own actor; where the desk applies again, its entries stand between these.
//! A day file has one history of each kind; one command adds its own entries and no others; and a day is refused for its length
//! only where a history with the desk has as many entries as an office may have before all is done, and each in which all is done
//! has more.
#![tactic(auto)]

mod blanks;
mod laws;
mod lone;
mod refusal;
mod rerouting;
mod serving;

pub use blanks::Blanks;
pub use laws::{
    rerouted_histories_are_one, rerouted_histories_are_short, serial_histories_are_one,
};
pub use lone::LoneOffice;
pub use refusal::ServingRefusal;
pub use rerouting::serve_rerouted;
pub use serving::serve_in_order;
