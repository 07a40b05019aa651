//! Equal trucks that follow each other over a simple span, with any gap between them that is not below a stated one.
//!
//! The rules are the influence lines of a simple span, as in Hibbeler's Structural Analysis. Each of them rises up to one
//! place and falls behind it. So trucks that close up towards that place never lower what they do together. The bounds of a
//! convoy are this project's own: its trucks together are a train.
//!
//! The crates above are promised the peak moment and the peak end shear over all placements of the convoy. In a placement
//! each truck stands anywhere behind the gap to the truck in front, fractions of an inch among these places. These peaks are
//! those of the closest convoy, which is one train. A convoy is refused exactly where it passes one of three limits, with the
//! first that it passes. No call takes memory.
#![tactic(auto)]

mod closed_up;
mod convoy;
mod refusal;

pub use convoy::Convoy;
pub use refusal::ConvoyRefusal;
