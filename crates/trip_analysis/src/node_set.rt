// A set of nodes, and the segments that leave it.

ghost use Rattle.std.specs.Prelude.{◌≡◌, ◌+◌, ◌<◌, ◌≤◌, ◌∷◌, [], length, true, MatchOption};
ghost use Rattle.trip_analysis.specs.NodeSets.{AreMarks, IsLeastInto};
ghost use Rattle.trip_analysis.specs.Findings.{IsNextLeaving, is_number_among, leaves, leaving};

use road_graph::{Network, SharedNumbers};
use std::marker::Model;
use std::snapshot::Snapshot as Told;

/// The most nodes of a network.
const MOST_NODES: usize = 4096;

/// A set of nodes of a network, in which each node is looked up at once.
///
/// Contracts see the list of which it was made.
#[derive(Drop)]
pub struct NodeSet {
    // has no bytes: it tells contracts of which list the set is
    nodes: Told<SharedNumbers>,
    // for each number that a node can have, whether it is one of these
    marks: [bool; MOST_NODES],
    // how many there are, by which a way to look is chosen
    count: usize,
}

impl Model for NodeSet {
    ghost use Rattle.std.specs.Prelude.{List, ℕ};
    ghost use Rattle.trip_analysis.specs.NodeSets.{AreMarks};

    ghost Value = { List ℕ };

    ghost view = { λ c. c.nodes.value };

    ghost invariant = { λ c. AreMarks c.nodes.value c.marks };
}

impl NodeSet {
    /// The set of these nodes. Takes no memory.
    pub fn of(nodes: &SharedNumbers) -> NodeSet
        ensures { result ≡ nodes.now }
    {
        NodeSet {
            nodes: Told::of(nodes),
            marks: marks_of(nodes.as_slice()),
            count: nodes.as_slice().len(),
        }
    }

    /// Whether the segment begins at one of the nodes and ends at none of them. Takes no memory.
    pub fn is_left_by(&self, network: &Network, segment: u32) -> bool
        requires { segment < length network.now.segments }
        ensures { result ≡ leaves network.now self.now segment }
    {
        network.lists_are_in_order();
        let here = network.segment(segment);
        self.marks[here.from as usize] && !self.marks[here.to as usize]
    }

    /// The least segment that leaves the nodes, or none where none does. Takes no memory.
    ///
    /// Where most nodes of the network are in the set, few segments end outside of it, and only these are looked at.
    pub fn first_leaving(&self, network: &Network) -> Option<u32>
        ensures { MatchOption result
            (leaving network.now self.now ≡ [])
            (IsNextLeaving network.now self.now 0) }
    {
        if self.count < network.nodes() as usize / 2 {
            return self.first_by_number(network);
        }
        let count = network.segments();
        let mut first = count;
        for node in 0..network.nodes() {
            if !self.has(network, node) {
                first = self.least_into(network, node, first);
            }
        }
        if first < count { Some(first) } else { None }
    }

    // Whether the node is one of these.
    fn has(&self, network: &Network, node: u32) -> bool
        requires { node < length network.now.nodes }
        ensures { result ≡ is_number_among node self.now }
    {
        network.lists_are_in_order();
        self.marks[node as usize]
    }

    // The least of a number and of those segments that leave the nodes and end at a node. The segments that end there rise.
    fn least_into(&self, network: &Network, node: u32, most: u32) -> u32
        requires node { node < length network.now.nodes }
        requires most { most ≤ length network.now.segments }
        ensures below { result ≤ most }
        ensures leaves { result < most → leaves network.now self.now result ≡ true }
        ensures least { IsLeastInto network.now self.now node result }
    {
        for arrival in network.incoming(node) {
            if arrival.segment < most && self.is_left_by(network, arrival.segment) {
                return arrival.segment;
            }
        }
        most
    }

    // The least segment that leaves the nodes, looked for by rising numbers.
    #[tactic(auto, using(crate::proofs::Crossing::lemmas))]
    fn first_by_number(&self, network: &Network) -> Option<u32>
        ensures { MatchOption result
            (leaving network.now self.now ≡ [])
            (IsNextLeaving network.now self.now 0) }
    {
        let count = network.segments();
        for segment in 0..count {
            if self.is_left_by(network, segment) {
                return Some(segment);
            }
        }
        None
    }
}

// For each number that a node can have, whether it is one of these.
fn marks_of(nodes: &[u32]) -> [bool; MOST_NODES]
    ensures { AreMarks nodes.now result }
{
    let mut marks = [false; MOST_NODES];
    for i in 0..nodes.len() {
        let node = nodes[i] as usize;
        if node < MOST_NODES {
            marks[node] = true;
        }
    }
    marks
}
