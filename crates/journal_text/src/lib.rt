//! The journal: the history of an office as text, a line for each call with its reply.
//!
//! The formats are this project's own, and the last one is written. A line is the caller, the call, `=` and the reply, in words
//! with one space between them; indices are counted from 1, fractions are in lowest terms, and each value has one spelling.
//! Routes are lists of segments with slashes between them. The older formats say less: which entries each has words for.
//!
//! To the crate above it promises that what is printed is the text that the definition gives for the history; and the text of a
//! limit and that of routes by themselves, as they stand in a line.
#![tactic(auto)]

mod calls;
mod format;
mod limits;
mod lists;
mod parts;
mod printing;
mod replies;
mod words;

pub use format::Format;
pub use parts::{limit_text, routes_text};
pub use printing::print;
