//! The axles of a truck in their order, as the permit office sees them.
//!
//! A [`Train`] is two to 32 axles at whole inches behind the first one, each with its weight in whole pounds. The bounds
//! of a train, and that a group is any run of consecutive axles, are this project's own; the words are those of
//! 23 CFR 658.5 and 658.17. The bounds keep every sum and product of the crates above within 128 bits.
//!
//! To the crate above it promises that a train is the very list that it was made of, that a list is refused exactly where
//! it breaks one of the six rules, with the first rule that it breaks and the least axle that breaks it, and that the
//! weight and the spread of a group are those of the list. No call takes memory. A train keeps its running weights, so the
//! weight of a group is one subtraction.
#![tactic(auto)]

mod axle;
mod refusal;
mod train;

pub use axle::Axle;
pub use refusal::TrainRefusal;
pub use train::Train;
