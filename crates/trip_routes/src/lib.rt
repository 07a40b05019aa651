//! The routes of an application and of a permit: one to eight.
//!
//! An application may ask for up to eight routes, and a permit lists all that it allows. What passes over their segments in
//! order, as tests of limits do, takes all of them as one list; what speaks of a route by itself, as a walk or a text does,
//! takes it by its place. That there are at most eight is this project's own.
//!
//! To the crate above it promises that routes are the plain list of lists of their segments, that there are one to eight of
//! them, that a further one is refused exactly where there are eight, and that each further owner has the same.
#![tactic(auto)]

mod listed;
mod refusal;
mod shared;

pub use listed::Routes;
pub use refusal::RoutesRefusal;
pub use shared::SharedRoutes;
