// The nodes that walks reach, and those from which walks come.
ghost use Rattle.std.specs.Prelude.{◌≡◌, ◌<◌, length, IfOk, OnOk};
ghost use Rattle.route_search.specs.declared.walks.Way.TheVariants.{Forth};
ghost use Rattle.route_search.specs.Walks.{AreReached, flagged};
ghost use Rattle.route_search.specs.Reaching.{AreMarked, IsMarkedToo, IsNoMoreToMark, IsReachingOver, IsSpreadingOver, IsStepAmong, IsWhole, entered_at};

use crate::walks::{Walks, Way};
use road_graph::Network;
use std::alloc::{AllocError, Global};

// A segment as it is taken: its number, and the node at which it is left.
#[derive(Clone, Copy)]
struct Step {
    segment: u32,
    to: u32,
}

impl Way {
    // How many segments are entered at a node.
    fn count(self, network: &Network, node: u32) -> usize
        requires { node < length network.now.nodes }
        ensures count { result ≡ length (entered_at self network.now.segments node) }
        ensures whole { IsWhole self network.now.segments node }
    {
        match self {
            Way::Forth => network.outgoing(node).len(),
            Way::Back => network.incoming(node).len(),
        }
    }

    // The segment of a place among those that are entered at a node.
    fn step(self, network: &Network, node: u32, k: usize) -> Step
        requires node { node < length network.now.nodes }
        requires k { k < length (entered_at self network.now.segments node) }
        ensures { IsStepAmong self network.now.segments node k result }
    {
        match self {
            Way::Forth => {
                let segment = network.outgoing(node)[k];
                let to = network.segment(segment).to;
                Step { segment, to }
            }
            Way::Back => {
                let arrival = network.incoming(node)[k];
                let to = arrival.from;
                Step {
                    segment: arrival.segment,
                    to,
                }
            }
        }
    }
}

// Marks a node, if it is not yet marked, and notes that its segments are to be tried.
fn mark(marked: &mut Vec<bool>, waiting: &mut Vec<u32>, node: u32) -> Result<(), AllocError>
    requires { node < length marked.old.items }
    ensures { OnOk result
        (IsMarkedToo marked.old.items waiting.old.items marked.new.items waiting.new.items node) }
{
    if !marked[node as usize] {
        waiting.push(node)?;
        marked[node as usize] = true;
    }
    Ok(())
}

// Tries the segments that are entered at a node.
fn spread(
    walks: &Walks,
    marked: &mut Vec<bool>,
    waiting: &mut Vec<u32>,
    node: u32,
) -> Result<(), AllocError>
    requires { IsSpreadingOver walks.now marked.old.items waiting.old.items node }
    ensures after { OnOk result (IsReachingOver walks.now marked.new.items waiting.new.items) }
    ensures less { OnOk result
        (IsNoMoreToMark marked.old.items waiting.old.items marked.new.items waiting.new.items) }
{
    let network = walks.roads.network;
    for k in 0..walks.way.count(network, node) {
        let step = walks.way.step(network, node, k);
        if walks.roads.flags[step.segment as usize] {
            mark(marked, waiting, step.to)?;
        }
    }
    Ok(())
}

// Marks the nodes that walks from the root reach, or those from which walks reach it.
pub(crate) fn reach(alloc: Global, walks: &Walks) -> Result<Vec<bool>, AllocError>
    ensures { IfOk result
        (λ r. AreMarked walks.now.way walks.now.roads.network.now (flagged walks.now.roads.flags.now) walks.now.root r.items) }
{
    let nodes = walks.roads.network.nodes() as usize;
    let mut marked = vec![in alloc; false; nodes]?;
    let mut waiting = Vec::with_capacity(alloc, nodes)?;
    mark(&mut marked, &mut waiting, walks.root)?;
    'nodes: while let Some(node) = waiting.pop() {
        spread(walks, &mut marked, &mut waiting, node)?;
    }
    Ok(marked)
}

// The numbers of the nodes that are marked, rising.
pub(crate) fn listed(alloc: Global, walks: &Walks, marked: &[bool]) -> Result<Vec<u32>, AllocError>
    requires { AreMarked Forth walks.now.roads.network.now
        (flagged walks.now.roads.flags.now) walks.now.root marked.now }
    ensures { IfOk result
        (λ r. AreReached walks.now.roads.network.now.segments (flagged walks.now.roads.flags.now) walks.now.root r.items) }
{
    let count = marked.iter().filter(|is_marked| **is_marked).count();
    let mut numbers = Vec::with_capacity(alloc, count)?;
    for i in 0..walks.roads.network.nodes() {
        if marked[i as usize] {
            numbers.push(i)?;
        }
    }
    Ok(numbers)
}
