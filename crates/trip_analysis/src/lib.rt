//! What an office is about, what carriers ask for, and what is found for it in a state of the roads.
//!
//! A base has the roads as they are before anything is posted, and a fleet of at most 64 trucks, numbered from 0. The calls
//! here say which segments a truck of the fleet may pass in a state of the roads, and count each segment that they test. A base
//! keeps what never changes: which segments trucks may pass before anything is posted, and heights of the nodes.
//!
//! An application names a truck, the nodes between which it goes, perhaps up to eight routes that it asks for, and its first
//! and last day. It is annual where it asks for two or more, and its last day is then at most 365 days after its first.
//!
//! What is found is that no permit is needed, since the truck is legal (23 CFR 658.17 and 658.15); or routes whose segments all
//! meet; or the first segment of the asked routes that fails; or a cut, the nodes that passable walks reach. These words and
//! rules are this project's own.
//!
//! To the crate above it promises that a base is the plain lists of its roads and its trucks, whatever it keeps beside them;
//! that a segment is passable exactly where no limit of it fails the truck; and how many segments are tested at the most. An
//! application is refused exactly for its cause, the first that applies; one which is taken is sound, so that all that it names
//! is there and each asked route is a walk between its nodes. What is found is the finding of the definition, of which there is
//! one; it holds in the state in which it was found; and the definition means what it says of walks. An analyst keeps what is
//! known of the trucks, and a follower goes on with it from snapshot to snapshot; both find the same.
#![tactic(auto)]

mod analysis;
mod analyst;
mod application;
mod application_laws;
mod application_refusal;
mod base;
mod failing;
mod finding;
mod follower;
mod kept;
mod known;
mod last_route;
mod laws;
mod node_set;
mod opening;
mod truck_at;
mod truck_on;

pub use analysis::{analyse, find};
pub use analyst::Analyst;
pub use application::Application;
pub use application_laws::routes_break_off_where_walks_do;
pub use application_refusal::ApplicationRefusal;
pub use base::{Base, Truck};
pub use clearance_rules::{Limit, Steps};
pub use failing::Failing;
pub use finding::{Proposal, What};
pub use follower::Follower;
pub use known::Known;
pub use laws::{asked_findings_are_of_the_routes, findings_hold, free_findings_are_of_walks};
pub use node_set::NodeSet;
pub use truck_at::TruckAt;
pub use truck_on::TruckOn;
