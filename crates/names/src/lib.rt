//! What all crates above share: names as the files write them, and the refusal for want of memory.
//!
//! To the crate above it promises that a name is 1 to 16 bytes of letters, digits, `-` and `_`, that bytes are refused exactly
//! where they are none, and that two names are equal where their bytes are.
#![tactic(auto)]

mod name;
mod refusal;

pub use name::{BadName, Name};
pub use refusal::NoMemory;
