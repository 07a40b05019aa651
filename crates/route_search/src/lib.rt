//! The search for the shortest passable walk from one node of a road network to another, or for what shows that there is
//! none.
//!
//! The lengths are those of Dijkstra's algorithm ("A note on two problems in connexion with graphs", 1959), from the goal
//! against the direction of the segments, with the nodes that wait in buckets by length. To the crate above it promises
//! that a route that it answers is a passable walk of least length, and the first of these in dictionary order; that the
//! potentials beside it are the least lengths from every node, which anyone can check against each segment; and that where
//! it answers no route there is none, with the nodes that are reached.
//!
//! `shortest_walk` answers the same route without the potentials. It leaves out nodes by which no walk from the start can be
//! as short as one that is known, as heights of the nodes show (Goldberg and Harrelson, "Computing the shortest path: A*
//! search meets graph theory", 2005). How much is left out is speed alone.
//!
//! Who makes many such searches keeps a `Table` from one to the next: `shortest_route` writes its lengths there, and sets back
//! only what the search before it wrote. So a search between near nodes does not take a step for each node of the network.
//!
//! A `Region` keeps what is reached from a node. From each node that passable walks join to it, there and back, just the same
//! is reached, so it tells without a search why trips from there have no route.
#![tactic(auto)]

mod around;
mod buckets;
mod finding;
mod follow;
mod found;
mod heights;
mod laws;
mod passable;
mod query;
mod reach;
mod region;
mod settle;
mod shortest;
mod table;
mod trip_ends;
mod waiting;
mod walks;
mod width;

pub use finding::{potentials, search, shortest_route, shortest_route_by, shortest_walk};
pub use found::{Found, Potentials};
pub use heights::Heights;
pub use laws::{cuts_hold, findings_are_one, potentials_certify};
pub use passable::Passable;
pub use region::Region;
pub use shortest::Shortest;
pub use table::Table;
pub use trip_ends::TripEnds;
