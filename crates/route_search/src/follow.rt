// The walk that the potentials show.
ghost use Rattle.std.specs.Prelude.{◌≡◌, ◌↔◌, ℕ, ◌+◌, ◌<◌, ◌≤◌, length, IfOk, IfSome, IfNone, IsTrue, slice_get, Some, None};
ghost use Rattle.route_search.specs.Following.{IsFirstTightOver, IsNoneTightOver, IsTightOver};
ghost use Rattle.route_search.specs.Trips.{IsRouteFor, LeadFromStart};

use crate::passable::Passable;
use crate::settle::is_known;
use crate::trip_ends::TripEnds;
use crate::waiting::Waiting;
use std::alloc::{AllocError, Global};

// Whether the truck may pass a segment that leads from a node, and a walk by it has the length that is known for the node.
fn is_tight(roads: &Passable, potentials: &[Option<u64>], near: Waiting, i: u32) -> bool
    requires potentials { length potentials.now ≡ length roads.now.network.now.nodes }
    requires there { i < length roads.now.network.now.segments }
    ensures { IsTrue result
        ↔ IsTightOver roads.now.network.now roads.now.flags.now potentials.now near.node near.length i }
{
    let segment = roads.network.segment(i);
    let feet = u64::from(segment.feet);
    if segment.from == near.node && roads.flags[i as usize] && feet <= near.length {
        is_known(potentials[segment.to as usize], near.length - feet)
    } else {
        false
    }
}

// The first segment of which that is so, by its number, if there is one.
fn first_tight(roads: &Passable, potentials: &[Option<u64>], near: Waiting) -> Option<u32>
    requires potentials { length potentials.now ≡ length roads.now.network.now.nodes }
    requires there { near.node < length roads.now.network.now.nodes }
    ensures some { IfSome result
        (IsFirstTightOver roads.now.network.now roads.now.flags.now potentials.now near.node near.length) }
    ensures none { IfNone result
        (IsNoneTightOver roads.now.network.now roads.now.flags.now potentials.now near.node near.length) }
{
    for i in roads.network.outgoing(near.node) {
        if is_tight(roads, potentials, near, *i) {
            return Some(*i);
        }
    }
    None
}

// From each node the least-numbered segment that leads on a shortest walk.
pub(crate) fn follow(
    alloc: Global,
    trip: &TripEnds,
    potentials: &[Option<u64>],
    feet: u64,
) -> Result<Vec<u32>, AllocError>
    requires potentials { LeadFromStart trip.now potentials.now }
    requires start { slice_get potentials.now trip.now.from ≡ Some (Some feet) }
    ensures { IfOk result (λ r. IsRouteFor trip.now r.items) }
{
    let mut route = Vec::new(alloc);
    let mut near = Waiting {
        length: feet,
        node: trip.from,
    };
    'follow: while near.length > 0 {
        match first_tight(&trip.roads, potentials, near) {
            Some(i) => {
                let segment = trip.roads.network.segment(i);
                route.push(i)?;
                near.node = segment.to;
                near.length -= u64::from(segment.feet);
            }
            None => unreachable!(),
        }
    }
    Ok(route)
}
