// What is found for an application.

use road_graph::SharedNumbers;
use trip_routes::SharedRoutes;

/// What is found for an application in a state of the roads.
#[derive(Drop)]
pub enum What {
    /// The truck is legal and needs no permit.
    NotNeeded,
    /// Routes whose segments all meet: the asked ones, or the first of the shortest alone.
    Route(SharedRoutes),
    /// The first segment of the asked routes that fails.
    Fails { segment: u32 },
    /// No passable walk leads there: the nodes that passable walks reach, or, where no walk leads there at all, those that
    /// any walk reaches, rising.
    Cut(SharedNumbers),
}

/// What was found at a version.
#[derive(Drop)]
pub struct Proposal {
    pub seen: u32,
    pub what: What,
}
