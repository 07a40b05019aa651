// The least lengths to a goal.
ghost use Rattle.std.specs.Prelude.{◌≡◌, ◌↔◌, ◌<◌, length, IfOk, IfNone, OnOk, IsTrue, Some};
ghost use Rattle.route_search.specs.Founds.{ArePotentialsOver};
ghost use Rattle.route_search.specs.Settling.{AreAsked, IsLeftOut, IsNoMoreWork, IsRelaxingFor, IsSearchingFor, IsTriedFor, beyond};

use crate::heights::Heights;
use crate::passable::Passable;
use crate::query::Query;
use crate::table::Table;
use crate::waiting::{Queue, Waiting};
use std::alloc::{AllocError, Global};

pub(crate) fn is_known(known: Option<u64>, feet: u64) -> bool
    ensures { IsTrue result ↔ (known ≡ Some feet) }
{
    known == Some(feet)
}

// How long a walk from the start by a node is at least, that goes on for so many feet; none where a shorter one is known.
// Where no start is named, how many feet it goes on.
fn through(query: &Query, potentials: &[Option<u64>], near: Waiting) -> Option<u64>
    requires many { length potentials.now ≡ length query.now.roads.network.now.nodes }
    requires near { near.length < beyond }
    ensures { IfNone result (IsLeftOut query.now potentials.now near) }
{
    let Some(start) = query.start else {
        return Some(near.length);
    };
    let fall = query.heights.fall(query.roads.network, start, near.node);
    let least = near.length + u64::from(fall);
    let known = potentials[start as usize];
    match known {
        Some(shorter) if shorter < least => None,
        _ => Some(least),
    }
}

// Notes the length of a way from a node, where none so short is known and a walk from the start by it may be the shortest.
fn improve(
    query: &Query,
    table: &mut Table,
    queue: &mut Queue,
    next: Waiting,
) -> Result<(), AllocError>
    requires many { length table.old ≡ length query.now.roads.network.now.nodes }
    requires within { next.node < length table.old }
    requires near { next.length < beyond }
    ensures { OnOk result (IsTriedFor query.now table.old queue.old table.new queue.new next) }
{
    let potentials = table.as_slice();
    if let Some(known) = potentials[next.node as usize] {
        if known <= next.length {
            return Ok(());
        }
    }
    if let Some(place) = through(query, potentials, next) {
        table.note(next.node, next.length)?;
        queue.push(next, place)?;
    }
    Ok(())
}

// Tries the segments into a node for shorter ways, where a walk from the start by it may be the shortest.
fn relax(
    query: &Query,
    table: &mut Table,
    queue: &mut Queue,
    near: Waiting,
) -> Result<(), AllocError>
    requires there { near.node < length query.now.roads.network.now.nodes }
    requires before { IsRelaxingFor query.now table.old queue.old near }
    ensures after { OnOk result (IsSearchingFor query.now table.new queue.new) }
    ensures less { OnOk result (IsNoMoreWork table.old queue.old table.new queue.new) }
{
    if through(query, table.as_slice(), near).is_none() {
        return Ok(());
    }
    let passable = query.roads.flags;
    let arrivals = query.roads.network.incoming(near.node);
    for arrival in arrivals {
        if passable[arrival.segment as usize] {
            let length = near.length + u64::from(arrival.feet);
            let node = arrival.from;
            improve(query, table, queue, Waiting { length, node })?;
        }
    }
    Ok(())
}

// The least lengths that are asked for, written into a table.
pub(crate) fn settle(alloc: Global, query: &Query, table: &mut Table) -> Result<(), AllocError>
    ensures { OnOk result (AreAsked query.now table.new) }
{
    let goal = query.goal;
    table.begin(alloc, query.roads.network)?;
    table.note(goal, 0)?;
    let mut queue = Queue::new(alloc, table.shift())?;
    queue.push(
        Waiting {
            length: 0,
            node: goal,
        },
        0,
    )?;
    'nearest: while let Some(near) = queue.pop() {
        if is_known(table.as_slice()[near.node as usize], near.length) {
            relax(query, table, &mut queue, near)?;
        }
    }
    Ok(())
}

// The least length to a goal from each node.
pub(crate) fn settle_all(
    alloc: Global,
    roads: &Passable,
    goal: u32,
) -> Result<Vec<Option<u64>>, AllocError>
    requires { goal < length roads.now.network.now.nodes }
    ensures { IfOk result (λ r. ArePotentialsOver roads.now.network.now roads.now.flags.now goal r.items) }
{
    let none = Heights::none(alloc);
    let query = Query {
        roads: *roads,
        start: None,
        goal,
        heights: &none,
    };
    let mut table = Table::new(alloc);
    settle(alloc, &query, &mut table)?;
    Ok(table.into_lengths())
}
