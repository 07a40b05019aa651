//! The audit of a history: whether each entry of it is one that an office of this base would have, and else which is the first
//! that is not.
//!
//! The entries come from a journal that anybody may have written, so nothing of them is known: an application need not be
//! sound, a version need not be there, and a reply may be any. Each call is asked again of what an office keeps, and its reply
//! is compared. What a submit proposes is compared with what is found again at the version that it names.
//!
//! To the crate above it promises that a history is legal by the definition of the office's machine exactly where the audit
//! says so, and that it else names the first entry with which the history is not.
#![tactic(auto)]

mod auditing;
mod auditor;
mod laws;
mod marks;
mod sameness;
mod seat;
mod verdict;
mod versions;

pub use auditing::{audit, go_through};
pub use laws::verdicts_are_one;
pub use sameness::are_same_routes;
pub use verdict::{Audited, Verdict};
