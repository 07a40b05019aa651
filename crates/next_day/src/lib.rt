//! The next day of an office: what it goes on with when a day file is through.
//!
//! A day file holds 4,096 commands. Then an office begins anew and knows nothing. The next day has the roads as they are in force,
//! the trucks, the actors and the day that it is; and for each permit in force an application of its holder, over its routes, from
//! today on where its first day has passed. What goes on, and the order of it, is this project's own.
//!
//! To the crate above it promises that the permits that go on are just those in force behind a legal history; that the next day of a
//! history of all commands of a day file is a day file again, with the roads as they were left; and that it begins with just the
//! permits that stood: carried out one after another, each of its applications is issued its permit at once, with the routes that it
//! had.
#![tactic(auto)]

mod going_on;
mod laws;
mod standing;

pub use going_on::{NextDay, next_day};
pub use laws::{next_days_are_days, next_days_begin, standing_permits_are_in_force};
pub use standing::Standing;
