//! The writer of day files: what `day_text` reads is written here, from the parts of a day.
//!
//! The text is that of RFC 4180, written by the crate `csv`, in records of eight fields. The records come kind by kind: the day,
//! nodes, segments, spans, trucks, actors, limits, commands, and the end. That order is this project's own.
//!
//! To the crate above it promises that the text of a day is that of its definition, that every day within the bounds of day
//! files is read back from its text as it was, and that every day that was read is such a day. It also hands out the page to which
//! records are added one by one, for who makes records of a kind of their own.
#![tactic(auto)]

mod commands;
mod field;
mod laws;
mod page;
mod roads;
mod routes;
mod traffic;
mod write;

pub use field::{Field, FieldText, write_axle};
pub use laws::{what_is_read_is_read_again, what_is_read_is_writable, what_is_written_is_read};
pub use page::Page;
pub use write::{Sheet, write_day};
