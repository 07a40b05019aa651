//! A day of many actors: each carries out its commands on a thread of its own, by the calls of one office that all share.
//!
//! One pass is admitted for each actor, in the order of the file; the actors run at once, by the library's fork and join;
//! then each pass is taken in and the office comes back. The calling thread carries out one actor's commands itself, and then
//! waits for the others. How actors take turns is this project's own.
//!
//! To the crate above it promises that the history of the office is a legal one, in which the entries of each actor are those
//! of its finished commands, each once and in its order, and that nobody else has entries in it; whatever turns the threads
//! take.
#![tactic(auto)]

mod ended;
mod opening;
mod serving;
mod workers;

pub use serving::{lone_actors_are_one, serve};
