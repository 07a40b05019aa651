// The search from one node to another.

ghost use Rattle.std.specs.Prelude.{◌≡◌, ◌<◌, length, IfOk};
ghost use Rattle.route_search.specs.Founds.{ArePotentialsOver, IsFoundBetween};
ghost use Rattle.route_search.specs.Heights.{AreHeights};
ghost use Rattle.route_search.specs.Trips.{CanMake, IsRouteOrNoneFor, IsShortestFor, LeadFromStart, LeadToEnd};

use crate::around::reach_from;
use crate::follow::follow;
use crate::found::{Found, Potentials};
use crate::heights::Heights;
use crate::passable::Passable;
use crate::query::Query;
use crate::settle::{settle, settle_all};
use crate::shortest::Shortest;
use crate::table::Table;
use crate::trip_ends::TripEnds;
use road_graph::{Network, NoMemory, Numbers};
use std::alloc::{AllocError, Global};

/// The shortest passable walk from one node to another, ties going to the list of segment numbers that comes first in
/// dictionary order; or, where there is none, the nodes that are reached. `passable` has a flag for each segment.
///
/// `Route` has the segments of the walk, its feet, and for each node the least length of a passable walk to `to`, if there
/// is one. `Cut` comes where walks lead there and none is passable, with the nodes that passable walks reach. `NoRoad`
/// comes where no walk leads there, with the nodes that any walks reach. Both lists rise.
///
/// A walk from a node to itself has no segment. `NoMemory` where no memory was left.
pub fn search(
    alloc: Global,
    network: &Network,
    passable: &[bool],
    from: u32,
    to: u32,
) -> Result<Found, NoMemory>
    requires flags { length passable.now ≡ length network.now.segments }
    requires from { from < length network.now.nodes }
    requires to { to < length network.now.nodes }
    ensures { IfOk result (IsFoundBetween network.now passable.now from to) }
{
    network.lists_are_in_order();
    let flags = passable;
    let roads = Passable { network, flags };
    let trip = TripEnds { roads, from, to };
    let list = settle_all(alloc, &roads, to)?;
    let route = route_shown(alloc, &trip, &list)?;
    let found = or_why(alloc, &trip, route)?;
    match found {
        Shortest::Route { segments, length } => Ok(Found::Route {
            segments,
            length,
            potential: Potentials::of(list),
        }),
        Shortest::Cut { reached } => Ok(Found::Cut { reached }),
        Shortest::NoRoad { reached } => Ok(Found::NoRoad { reached }),
    }
}

/// For each node the least length of a passable walk to a node. `NoMemory` where no memory was left.
pub fn potentials(alloc: Global, roads: &Passable, to: u32) -> Result<Potentials, NoMemory>
    requires { to < length roads.now.network.now.nodes }
    ensures { IfOk result (ArePotentialsOver roads.now.network.now roads.now.flags.now to) }
{
    let list = settle_all(alloc, roads, to)?;
    Ok(Potentials::of(list))
}

/// What `search` finds, without the potentials. Where heights are given, nodes that they show to lead away from the start
/// are left out. `NoMemory` where no memory was left.
pub fn shortest_walk(
    alloc: Global,
    trip: &TripEnds,
    heights: &Heights,
) -> Result<Shortest, NoMemory>
    requires { AreHeights trip.now.roads.network.now.segments heights.now }
    ensures { IfOk result (IsShortestFor trip.now) }
{
    let mut table = Table::new(alloc);
    let found = shortest_route(alloc, trip, heights, &mut table)?;
    Ok(or_why(alloc, trip, found)?)
}

/// The route that `shortest_walk` answers, or `None` where no passable walk leads there. The lengths go into the table,
/// whatever a search before this one noted there. `NoMemory` where no memory was left.
pub fn shortest_route(
    alloc: Global,
    trip: &TripEnds,
    heights: &Heights,
    table: &mut Table,
) -> Result<Option<Shortest>, NoMemory>
    requires { AreHeights trip.now.roads.network.now.segments heights.now }
    ensures { IfOk result (IsRouteOrNoneFor trip.now) }
{
    let query = Query {
        roads: trip.roads,
        start: Some(trip.from),
        goal: trip.to,
        heights,
    };
    settle(alloc, &query, table)?;
    Ok(route_shown(alloc, trip, table.as_slice())?)
}

/// The same, where the potentials are known. `NoMemory` where no memory was left.
pub fn shortest_route_by(
    alloc: Global,
    trip: &TripEnds,
    potentials: &Potentials,
) -> Result<Option<Shortest>, NoMemory>
    requires { LeadToEnd trip.now potentials.now }
    ensures { IfOk result (IsRouteOrNoneFor trip.now) }
{
    Ok(route_shown(alloc, trip, potentials.as_slice())?)
}

// The route that potentials show, or none.
fn route_shown(
    alloc: Global,
    trip: &TripEnds,
    potentials: &[Option<u64>],
) -> Result<Option<Shortest>, AllocError>
    requires { LeadFromStart trip.now potentials.now }
    ensures { IfOk result (IsRouteOrNoneFor trip.now) }
{
    let nearest = potentials[trip.from as usize];
    match nearest {
        Some(length) => {
            let segments = follow(alloc, trip, potentials, length)?;
            Ok(Some(Shortest::Route {
                segments: Numbers::of(segments),
                length,
            }))
        }
        None => Ok(None),
    }
}

// What was found, or why nothing was.
fn or_why(alloc: Global, trip: &TripEnds, found: Option<Shortest>) -> Result<Shortest, AllocError>
    requires { IsRouteOrNoneFor trip.now found }
    ensures { IfOk result (IsShortestFor trip.now) }
{
    match found {
        Some(route) => Ok(route),
        None => no_route(alloc, trip),
    }
}

// Why there is no passable walk.
fn no_route(alloc: Global, trip: &TripEnds) -> Result<Shortest, AllocError>
    requires { CanMake trip.now → ⊥ }
    ensures { IfOk result (IsShortestFor trip.now) }
{
    let network = trip.roads.network;
    let open = vec![in alloc; true; network.segments() as usize]?;
    let flags = open.as_slice();
    let any = reach_from(alloc, &Passable { network, flags }, trip.from)?;
    if any.marks[trip.to as usize] {
        let passable = reach_from(alloc, &trip.roads, trip.from)?;
        let reached = passable.numbers;
        Ok(Shortest::Cut { reached })
    } else {
        let reached = any.numbers;
        Ok(Shortest::NoRoad { reached })
    }
}
