//! The recalls of a history, and the desk that applies again for each permit that a posting recalled.
//!
//! An answer to a posting names the permits that it recalls by their numbers. Who is told of a recall wants the carrier of the
//! permit's truck too, and that stands in the entry that issued the permit.
//!
//! A desk is a caller of an office like any other. When it catches up, it reads on in the history of the office, and for each
//! permit that was recalled since it asks the office for one with the same truck from the same place to the same, along any
//! route, from that day on. A permit whose last day has passed is not asked for again. That permits are replaced in this way, and
//! each at most once, is this project's own.
//!
//! To the crate above it promises the list of every number that a posting of the history recalled, in order, with the version
//! of that posting and the carrier of the permit's truck; and that after a desk has caught up there is exactly one item for each
//! recall of the history, in order, and each item is the answer to one call of the desk, whatever others called before and
//! between.
#![tactic(auto)]

mod handled;
mod laws;
mod notes;
mod recall_list;
mod refusal;
mod rerouter;

pub use handled::{Handled, HandledAs};
pub use laws::{calls_of_others_keep_up, new_desks_keep_up, permits_are_replaced_once};
pub use recall_list::recalls;
pub use refusal::RerouteRefusal;
pub use rerouter::Rerouter;
