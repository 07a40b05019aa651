//! A day file that is made of a seed and a size: a grid of roads, trucks, actors and a day's commands, for tries and timings.
//!
//! The records, their order and the ranges of what is drawn are this project's own. The numbers come from the linear
//! congruential generator x' = 75 x + 74 modulo 65,537.
//!
//! To the crate above it promises that the text is that of its definition, so that a seed and a size always make the same
//! file; and that the text is accepted as a day file, whatever the seed, at every size from 1 to 40.
#![tactic(auto)]

mod day;
mod field;
mod laws;
mod page;
mod roads;
mod traffic;

pub use day::make_day;
pub use laws::made_days_are_accepted;
