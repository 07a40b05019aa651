//! Where bytes come from and go to, and numbers as texts.
//!
//! A `Source` and a `Sink` tell what they have left and what they hold, as far as they know it, and count their
//! faults. A fault is answered only where that count rose, so a caller that hands one on can show where it came from.
//! Contracts above rest on this: `read_all` took all bytes that were left, `write_all` appended all bytes that it was
//! handed, and each says how far it came otherwise.
//!
//! The digits of numbers are those of the crate `itoa`, the kit's port of David Tolnay's. A number is added to a text as the kit
//! prints it, and a text is told apart from every other one than the number's own.
#![tactic(auto)]

mod memory;
mod numerals;
mod refusal;
mod sink;
mod source;
mod standard;

pub use memory::{MemorySink, MemorySource, is_failing};
pub use numerals::{spells, write_number};
pub use refusal::Failed;
pub use sink::{Sink, WriteFault, write_all};
pub use source::{ReadRefusal, Source, read_all};
pub use standard::{StdSink, StdSource};
