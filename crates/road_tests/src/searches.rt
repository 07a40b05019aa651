ghost use Rattle.std.specs.Prelude.{◌≡◌, ◌<◌, length};
ghost use Rattle.route_search.specs.Founds.{IsFoundBetween};
ghost use Rattle.route_search.specs.Heights.{AreHeights};
ghost use Rattle.route_search.specs.Regions.{IsRegion};

use crate::fixtures::{named, same};
use names::Name;
use road_graph::Network;
use route_search::{
    Found, Heights, Passable, Potentials, Region, Shortest, TripEnds, cuts_hold, findings_are_one,
    potentials, potentials_certify, search, shortest_walk,
};
use std::alloc::Global;
use std::process::Abort;

// What was built is let go by a call of `drop`: where a scope lets it go, the proof of the whole function
// goes through its parts. For the same reason no function both builds and goes through a table.

// The name of a number, of two digits.
fn numbered(rt: &impl Abort, i: u32) -> Name {
    named(rt, &[b'0' + (i / 10 % 10) as u8, b'0' + (i % 10) as u8])
}

// A network of so many nodes and these segments: from one node to another, and the feet.
fn network(rt: &impl Abort, alloc: Global, nodes: u32, segments: &[(u32, u32, u32)]) -> Network {
    let mut network = Network::new(alloc);
    for i in 0..nodes {
        let added = network.add_node(numbered(rt, i));
        assert!(rt; added.is_ok());
    }
    for &(from, to, feet) in segments {
        let name = numbered(rt, network.segments());
        let added = network.add_segment(name, from, to, feet);
        assert!(rt; added.is_ok());
    }
    network
}

// Each segment may be passed but those that are closed.
fn flags(rt: &impl Abort, alloc: Global, network: &Network, closed: &[u32]) -> Vec<bool> {
    let mut flags = vec![in alloc; true; network.segments() as usize].expect(rt, "memory");
    for &i in closed {
        if let Some(flag) = flags.get_mut(i as usize) {
            *flag = false;
        }
    }
    flags
}

// The potential of a node from which there is no way.
const NONE: u64 = u64::MAX;

// Whether these are the potentials of all nodes.
fn are_potentials(network: &Network, potential: &Potentials, wanted: &[u64]) -> bool
    requires { length potential.now ≡ length network.now.nodes }
{
    for node in 0..network.nodes() {
        if wanted.get(node as usize) != Some(&potential.at(node).unwrap_or(NONE)) {
            return false;
        }
    }
    wanted.len() == network.nodes() as usize
}

// What is found: a word, a route or the nodes that are reached, and the length of the route.
type Parts<'a> = (&'static str, &'a [u32], u64);

fn parts_of(found: &Found) -> Parts {
    match found {
        Found::Route {
            segments,
            length,
            ..
        } => ("route", segments.as_slice(), *length),
        Found::Cut { reached } => ("cut", reached.as_slice(), 0),
        Found::NoRoad { reached } => ("no road", reached.as_slice(), 0),
    }
}

fn parts_of_shortest(found: &Shortest) -> Parts {
    match found {
        Shortest::Route { segments, length } => ("route", segments.as_slice(), *length),
        Shortest::Cut { reached } => ("cut", reached.as_slice(), 0),
        Shortest::NoRoad { reached } => ("no road", reached.as_slice(), 0),
    }
}

// The closed segments, and two nodes; what is found; and the potentials of all nodes where it is a route.
type Search = (
    &'static [u32],
    u32,
    u32,
    &'static str,
    &'static [u32],
    u64,
    &'static [u64],
);

// Whether a route has the potentials of a row.
fn has_potentials(trip: &TripEnds, found: &Found, wanted: &[u64]) -> bool
    requires { IsFoundBetween trip.now.roads.network.now trip.now.roads.flags.now
        trip.now.from trip.now.to found.now }
{
    match found {
        Found::Route { potential, .. } => are_potentials(trip.roads.network, potential, wanted),
        _ => true,
    }
}

// Searches from one node to another, as a row says.
fn find(rt: &impl Abort, alloc: Global, trip: &TripEnds, row: &Search) {
    let TripEnds { roads, from, to } = *trip;
    let found = search(alloc, roads.network, roads.flags, from, to).expect(rt, "memory");
    same(rt, 0, parts_of(&found), (row.3, row.4, row.5));
    same(rt, 1, has_potentials(trip, &found, row.6), true);
    drop(found);
}

// What is found, which is let go then, is this.
fn is_found(rt: &impl Abort, found: Shortest, wanted: Parts) {
    same(rt, 0, parts_of_shortest(&found), wanted);
    drop(found);
}

// The same for one start alone, by heights.
fn find_near(rt: &impl Abort, alloc: Global, trip: &TripEnds, heights: &Heights, row: &Search)
    requires { AreHeights trip.now.roads.network.now.segments heights.now }
{
    let found = shortest_walk(alloc, trip, heights).expect(rt, "memory");
    is_found(rt, found, (row.3, row.4, row.5));
}

// Searches as a row says, in each way, and makes a column of heights more.
fn find_as(rt: &impl Abort, alloc: Global, network: &Network, heights: &mut Heights, row: &Search)
    requires { AreHeights network.now.segments heights.old }
    ensures { AreHeights network.now.segments heights.new }
{
    let passable = flags(rt, alloc, network, row.0);
    let (from, to) = (row.1, row.2);
    let are_there = from < network.nodes() && to < network.nodes();
    assert!(rt; passable.len() == network.segments() as usize && are_there);
    let roads = Passable {
        network,
        flags: &passable,
    };
    let trip = TripEnds { roads, from, to };
    find(rt, alloc, &trip, row);
    find_near(rt, alloc, &trip, heights, row);
    drop(passable);
    heights.add(alloc, network).expect(rt, "memory");
}

// A network of so many nodes and these segments, and searches over it. Above it is said by which walks one comes from the one node to
// the other.
struct Group {
    nodes: u32,
    segments: &'static [(u32, u32, u32)],
    searches: &'static [Search],
}

const GROUPS: [Group; 11] = [
    // two ways from 0 to 1: 0 and 1 2
    Group {
        nodes: 3,
        segments: &[(0, 1, 1000), (0, 2, 1000), (2, 1, 1000)],
        searches: &[
            (&[], 0, 1, "route", &[0], 1000, &[1000, 0, 1000]),
            (&[0], 0, 1, "route", &[1, 2], 2000, &[2000, 0, 1000]),
            (&[0, 2], 0, 1, "cut", &[0, 2], 0, &[]),
            (&[0, 1], 0, 1, "cut", &[0], 0, &[]),
            (&[], 1, 0, "no road", &[1], 0, &[]),
        ],
    },
    // from 0 to 3 in 7 ft: 0 3 and 1 2
    Group {
        nodes: 4,
        segments: &[(0, 2, 5), (0, 1, 3), (1, 3, 4), (2, 3, 2)],
        searches: &[
            (&[], 0, 3, "route", &[0, 3], 7, &[7, 4, 2, 0]),
            (&[3], 0, 3, "route", &[1, 2], 7, &[7, 4, NONE, 0]),
        ],
    },
    // from 0 to 2 in 2 ft: 0 1 and 2
    Group {
        nodes: 3,
        segments: &[(0, 1, 1), (1, 2, 1), (0, 2, 2)],
        searches: &[(&[], 0, 2, "route", &[0, 1], 2, &[2, 1, 0])],
    },
    // from 0 to 2 in 2 ft: 0 and 1 2
    Group {
        nodes: 3,
        segments: &[(0, 2, 2), (0, 1, 1), (1, 2, 1)],
        searches: &[(&[], 0, 2, "route", &[0], 2, &[2, 1, 0])],
    },
    // from 0 to 3 in 2 ft: 1 3 and 2 0
    Group {
        nodes: 4,
        segments: &[(1, 3, 1), (0, 2, 1), (0, 1, 1), (2, 3, 1)],
        searches: &[(&[], 0, 3, "route", &[1, 3], 2, &[2, 1, 1, 0])],
    },
    // from 0 to 2 in 3 ft: 0 1, 0 2 and 0 3 4
    Group {
        nodes: 4,
        segments: &[(0, 1, 1), (1, 2, 2), (1, 2, 2), (1, 3, 1), (3, 2, 1)],
        searches: &[
            (&[], 0, 2, "route", &[0, 1], 3, &[3, 2, 0, 1]),
            (&[1], 0, 2, "route", &[0, 2], 3, &[3, 2, 0, 1]),
            (&[1, 2], 0, 2, "route", &[0, 3, 4], 3, &[3, 2, 0, 1]),
        ],
    },
    // parallel: 0 in 5 ft, 1 and 2 in 3 ft
    Group {
        nodes: 2,
        segments: &[(0, 1, 5), (0, 1, 3), (0, 1, 3)],
        searches: &[
            (&[], 0, 1, "route", &[1], 3, &[3, 0]),
            (&[1], 0, 1, "route", &[2], 3, &[3, 0]),
            (&[1, 2], 0, 1, "route", &[0], 5, &[5, 0]),
        ],
    },
    // self loops at 0 and 1, and 1 between them
    Group {
        nodes: 2,
        segments: &[(0, 0, 1), (0, 1, 2), (1, 1, 1)],
        searches: &[
            (&[], 0, 1, "route", &[1], 2, &[2, 0]),
            (&[1], 0, 1, "cut", &[0], 0, &[]),
            (&[], 0, 0, "route", &[], 0, &[0, NONE]),
        ],
    },
    // from 0 to 1: 0, and no way against the direction of segment 1
    Group {
        nodes: 3,
        segments: &[(0, 1, 4), (2, 0, 1), (2, 1, 1)],
        searches: &[
            (&[], 0, 1, "route", &[0], 4, &[4, 0, 1]),
            (&[], 1, 2, "no road", &[1], 0, &[]),
        ],
    },
    // nothing ends at 2 or 3
    Group {
        nodes: 4,
        segments: &[(0, 1, 1), (1, 0, 1), (3, 0, 7)],
        searches: &[
            (&[], 0, 1, "route", &[0], 1, &[1, 0, NONE, 8]),
            (&[], 0, 3, "no road", &[0, 1], 0, &[]),
            (&[0], 0, 3, "no road", &[0, 1], 0, &[]),
            (&[], 3, 2, "no road", &[0, 1, 3], 0, &[]),
            (&[0], 3, 1, "cut", &[0, 3], 0, &[]),
        ],
    },
    // long segments
    Group {
        nodes: 3,
        segments: &[(0, 1, 10000000), (1, 2, 10000000), (0, 2, 1)],
        searches: &[(
            &[2],
            0,
            2,
            "route",
            &[0, 1],
            20000000,
            &[20000000, 10000000, 0],
        )],
    },
];

// Searches as the rows of a group say, with one column of heights more each time.
fn find_each(
    rt: &impl Abort,
    alloc: Global,
    network: &Network,
    heights: &mut Heights,
    rows: &[Search],
)
    requires { AreHeights network.now.segments heights.old }
{
    'rows: for row in rows {
        find_as(rt, alloc, network, heights, row);
    }
}

// The same from no heights on, over the network of the group.
fn find_in_group(rt: &impl Abort, alloc: Global, group: &Group) {
    let network = network(rt, alloc, group.nodes, group.segments);
    let mut heights = Heights::none(alloc);
    find_each(rt, alloc, &network, &mut heights, group.searches);
    drop(heights);
    drop(network);
}

#[test]
fn finds_the_first_of_the_shortest_walks_or_what_is_reached(rt: HostRuntime) {
    for group in &GROUPS {
        find_in_group(&rt, rt.alloc(), group);
    }
}

// Six nodes in two rows with segments both ways, one from 2 to 6, one from 7 to 0, and segment 16 from 5 to 8.
const ROWS: [(u32, u32, u32); 17] = [
    (0, 1, 1),
    (1, 0, 1),
    (1, 2, 1),
    (2, 1, 1),
    (3, 4, 1),
    (4, 3, 1),
    (4, 5, 1),
    (5, 4, 1),
    (0, 3, 1),
    (3, 0, 1),
    (1, 4, 1),
    (4, 1, 1),
    (2, 5, 1),
    (5, 2, 1),
    (2, 6, 1),
    (7, 0, 1),
    (5, 8, 1),
];

// What the region around 0 tells with segment 16 closed: the two nodes, and what is found, or nothing. Node 6 is reached and
// leads nowhere, 7 leads to 0 and is not reached, and 8 is neither.
const TOLD: [(u32, u32, &str, &[u32]); 9] = [
    (0, 8, "cut", &[0, 1, 2, 3, 4, 5, 6]),
    (4, 8, "cut", &[0, 1, 2, 3, 4, 5, 6]),
    (5, 8, "cut", &[0, 1, 2, 3, 4, 5, 6]),
    (3, 7, "no road", &[0, 1, 2, 3, 4, 5, 6, 8]),
    (6, 8, "", &[]),
    (7, 8, "", &[]),
    (8, 0, "", &[]),
    (4, 6, "", &[]),
    (0, 0, "", &[]),
];

// The region around node 0 tells what a row says.
fn tells(rt: &impl Abort, roads: &Passable, region: &Region, row: &(u32, u32, &'static str, &[u32]))
    requires { IsRegion roads.now.network.now roads.now.flags.now 0 region.now }
{
    let &(from, to, kind, numbers) = row;
    assert!(rt; from < roads.network.nodes() && to < roads.network.nodes());
    match region.tell(from, to).expect(rt, "memory") {
        Some(found) => is_found(rt, found, (kind, numbers, 0)),
        None => same(rt, 0, kind, ""),
    }
}

fn tell_each(rt: &impl Abort, alloc: Global, roads: &Passable) {
    assert!(rt; roads.network.nodes() == 9);
    let region = Region::around(alloc, roads, 0).expect(rt, "memory");
    for row in &TOLD {
        tells(rt, roads, &region, row);
    }
    drop(region);
}

#[test]
fn tells_by_a_region_why_there_is_no_route(rt: HostRuntime) {
    let network = network(&rt, rt.alloc(), 9, &ROWS);
    let passable = flags(&rt, rt.alloc(), &network, &[16]);
    assert!(rt; passable.len() == network.segments() as usize);
    let roads = Passable {
        network: &network,
        flags: &passable,
    };
    tell_each(&rt, rt.alloc(), &roads);
    drop(passable);
    drop(network);
}

// Nine nodes in three rows, with segments of 1 ft to the right and down. All walks from the first node to the
// last have 4 ft.
const GRID: [(u32, u32, u32); 12] = [
    (0, 1, 1),
    (0, 3, 1),
    (1, 2, 1),
    (1, 4, 1),
    (2, 5, 1),
    (3, 4, 1),
    (3, 6, 1),
    (4, 5, 1),
    (4, 7, 1),
    (5, 8, 1),
    (6, 7, 1),
    (7, 8, 1),
];

// These are all walks, in dictionary order.
const WALKS: [[u32; 4]; 6] = [
    [0, 2, 4, 9],
    [0, 3, 7, 9],
    [0, 3, 8, 11],
    [1, 5, 7, 9],
    [1, 5, 8, 11],
    [1, 6, 10, 11],
];

// The first walk that passes neither of two segments.
fn first_without(i: u32, j: u32) -> Option<&'static [u32]> {
    for walk in &WALKS {
        if !walk.contains(&i) && !walk.contains(&j) {
            return Some(walk.as_slice());
        }
    }
    None
}

// Whether what is found is this walk of 4 ft, or that there is none.
fn is_walk(parts: Parts, walk: Option<&[u32]>) -> bool {
    match walk {
        Some(walk) => parts == ("route", walk, 4),
        None => parts.0 == "cut",
    }
}

// Searches over the grid with two segments closed.
fn close_both(rt: &impl Abort, alloc: Global, network: &Network, i: u32, j: u32) {
    let passable = flags(rt, alloc, network, &[i, j]);
    assert!(rt; passable.len() == network.segments() as usize && network.nodes() == 9);
    let found = search(alloc, network, &passable, 0, 8).expect(rt, "memory");
    drop(passable);
    assert!(rt; is_walk(parts_of(&found), first_without(i, j)), "{i} {j}");
    drop(found);
}

fn close_each_two(rt: &impl Abort, alloc: Global, network: &Network) {
    for i in 0..12u32 {
        for j in i..12u32 {
            close_both(rt, alloc, network, i, j);
        }
    }
}

#[test]
fn takes_the_first_of_the_walks_over_a_grid(rt: HostRuntime) {
    let grid = network(&rt, rt.alloc(), 9, &GRID);
    close_each_two(&rt, rt.alloc(), &grid);
    drop(grid);
}

// Of each segment a 1 where it leads on no walk of least length, else a 0.
fn is_slack_each(rt: &impl Abort, network: &Network, known: &Potentials, digits: &[u8])
    requires { length known.now ≡ length network.now.nodes }
{
    same(rt, 0, digits.len(), network.segments() as usize);
    for segment in 0..network.segments() {
        let wanted = digits.get(segment as usize) == Some(&b'1');
        same(
            rt,
            segment as usize,
            known.is_slack(network, segment),
            wanted,
        );
    }
}

// The closed segments, a node, and of each segment whether it leads on no walk of least length to the node.
fn is_slack(
    rt: &impl Abort,
    alloc: Global,
    network: &Network,
    closed: &[u32],
    to: u32,
    digits: &[u8],
) {
    let passable = flags(rt, alloc, network, closed);
    assert!(rt; passable.len() == network.segments() as usize && to < network.nodes());
    let roads = Passable {
        network,
        flags: &passable,
    };
    let known = potentials(alloc, &roads, to).expect(rt, "memory");
    drop(passable);
    is_slack_each(rt, network, &known, digits);
    drop(known);
}

#[test]
fn tells_which_segments_lead_on_no_walk_of_least_length(rt: HostRuntime) {
    // From 0 to 1 in 1,000 ft by 0 and in 2,000 by 1 2.
    let network = network(
        &rt,
        rt.alloc(),
        3,
        &[(0, 1, 1_000), (0, 2, 1_000), (2, 1, 1_000)],
    );
    is_slack(&rt, rt.alloc(), &network, &[], 1, b"010");
    // Over 1 2 alone no segment is slack; the closed one would be a shorter way.
    is_slack(&rt, rt.alloc(), &network, &[0], 1, b"000");
    // Nothing leads from 1 to 0.
    is_slack(&rt, rt.alloc(), &network, &[], 0, b"111");
    drop(network);
    potentials_certify();
    findings_are_one();
    cuts_hold();
}

#[test]
fn has_the_potentials_of_no_node(rt: HostRuntime) {
    let none = Potentials::none(rt.alloc());
    let text = format!(in rt.alloc(); "{none:?}").expect(&rt, "memory");
    drop(none);
    assert!(rt; text.as_str() == "Potentials { list: [] }");
}
