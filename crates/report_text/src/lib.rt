//! What the program writes beside journals and made days: its reports, and the lines of its refusals.
//!
//! The report of `check` has one truck judged by the federal weight limits (23 CFR 658.17) and the width of 23 CFR 658.15, and its
//! effects on the spans of its probes. The peaks are those of influence lines (Hibbeler, Structural Analysis), and the ratings
//! are thousandths of the HS20-44 truck of the AASHTO Standard Specifications. Those of `design` and of `convoy` have what a
//! truck does to these spans beside the three design loads of the AASHTO Standard Specifications (3.7.4, 3.7.6), and what trucks
//! that follow each other do to them.
//!
//! The summary of `trial` tells in seven lines how many entries a history has, what came of its applications, how many permits
//! were recalled, and the last version. `reroute` has a line for each permit that was recalled: the permit that replaces it, or
//! the limit that its trip fails now.
//!
//! A file that is refused has the line `refused: record ROW CAUSE`, with the row of the record, counted from 1, and the first
//! cause that holds for it. Its status is 5 where the record is bad, and 6 where it is one too many of its kind.
//!
//! The lines are this project's own. To the crate above it promises that each text is the one of its definition for the file or
//! the history, that there is only one, and that two refusals have two lines.
#![tactic(auto)]

mod check;
mod convoy;
mod design;
mod probes;
mod refusal;
mod reroute;
mod trial;

pub use check::{report, report_is_one};
pub use convoy::{convoy_refusal_line, convoy_report};
pub use day_text::{Cause, Kind, RecordCause};
pub use design::design_report;
pub use refusal::{refusal_line, refusal_lines_differ, refusal_status};
pub use reroute::reroute_report;
pub use trial::summary;
