//! The files that the office reads: a day file, with a road network, trucks, actors and the commands of a day, and a check
//! file, with one truck to be judged and the spans to try it on.
//!
//! Both are records of eight comma-separated fields (RFC 4180), read by the crate `csv`. The forms of names, numbers, axles,
//! routes and days, the kinds of records, their ranges, and the causes for which a record is refused, in the order in which they
//! are tested, are this project's own.
//!
//! To the crate above it promises that each form is read exactly where its definition has it, and that `read_records` leads
//! where the file's own judge leads over the whole list of its records, or to the first row that the judge refuses and its
//! cause. So a file is accepted exactly where the definition, which judges that list, accepts it; what is handed out is the file
//! of that definition, and a refusal has the row and the cause that the definition gives. Each command of a day file is from an
//! actor of the file, and each application sound for its roads and trucks. It hands out each actor's script, which has the
//! actor's commands in their order and no others.
//!
//! Before a day is served, what is the same for all who serve it is found once, of each truck that applies, and of the nodes. The
//! day file stays as it is.
#![tactic(auto)]

mod actors;
mod adding;
mod applicants;
mod asked;
mod axles;
mod check_file;
mod command_rows;
mod commands;
mod day_file;
mod day_so_far;
mod demands;
mod fields;
mod kind;
mod laws;
mod members;
mod orders;
mod posted;
mod progress;
mod records;
mod referred;
mod refusal;
mod roads;
mod route;
mod scripts;
mod truck;
mod trucks;

pub use applicants::{prepare, prepare_on_threads};
pub use axles::{Axles, parse_axles};
pub use check_file::{CheckFile, Probe, Probes, read_check};
pub use command_rows::row_of_command;
pub use day_file::{DayFile, read_day};
pub use demands::{has_only, number_in};
pub use fields::{parse_day, parse_name, parse_number};
pub use laws::{commands_have_one_row, day_files_are_bounded, day_files_are_named};
pub use office_words::Command;
pub use orders::Order;
pub use posted::{Posted, parse_posted};
pub use records::{Progress, read_records};
pub use refusal::{Cause, FileRefusal, Kind, RecordCause, RecordRefusal};
pub use route::{RouteField, parse_routes};
