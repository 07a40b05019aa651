//! Which numbered routes hold a segment.
//!
//! An index is kept beside a list of numbered routes. Each number is added with its route, rising, and taken out again when
//! it no longer counts. Then the numbers whose route holds a segment are at hand, however many routes there are elsewhere:
//! whoever changes a segment looks at these alone. The index is this project's own.
//!
//! To the crate above it promises that an index has at each segment exactly the numbers that were added and not taken out
//! and whose route holds the segment, rising and each once, however often the route holds it; and that where no memory was
//! left for a number the index is as it was.
#![tactic(auto)]

mod index;
mod laws;
mod removal;
mod users;

pub use index::Index;
pub use laws::using_is_a_filter;
