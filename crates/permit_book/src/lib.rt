//! Permits and the book that holds them.
//!
//! A permit allows one truck to go on the days from a first to a last one, as a state's office for overweight loads issues
//! it: a single-trip permit along one route, an annual one along any of up to eight. It is live until it is recalled,
//! because what was posted since no longer lets its truck pass a segment of one of its routes, or surrendered. The marks and
//! the number of permits that a book holds are this project's own.
//!
//! To the crate above it promises that a book is the plain list of its permits, each numbered by its place from 1 on; that
//! a permit never changes but for its mark, which changes once at most; and that each refusal comes exactly for its cause.
#![tactic(auto)]

mod book;
mod permit;
mod refusal;
mod trip;

pub use book::Book;
pub use permit::{Mark, Permit, Status};
pub use refusal::BookRefusal;
pub use trip::Trip;
