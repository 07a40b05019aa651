//! Days, as applications, permits and the office's calendar name them.
//!
//! A day is one of the years 0001 to 9999 of the civil calendar, which is the Gregorian one, also for the years before it was
//! introduced. It is seen as the ten bytes of its text, YYYY-MM-DD, the extended form of a calendar date in ISO 8601. To the
//! crate above it promises that a text is read exactly where it is a day, with the cause where it is none; that the text of a
//! day reads back; which number a day has, counted from 1970-01-01; how many days one lies after another; and that days are
//! ordered by year, month and day, which is the order of their bytes and of their numbers.
#![tactic(auto)]

mod calendar;
mod day;
mod laws;
mod refusal;

pub use day::Day;
pub use laws::{days_follow_the_calendar, days_follow_their_numbers, every_day_reads_back};
pub use refusal::DayRefusal;
