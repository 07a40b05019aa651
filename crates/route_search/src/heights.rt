// Heights of nodes, by which a search leaves out what leads away from its start.

ghost use Rattle.std.specs.Prelude.{◌≡◌, ◌<◌, ◌≤◌, length, IfOk};
ghost use Rattle.route_search.specs.Heights.{AreLengths, IsColumn, IsLeastFall, height_of};

use crate::passable::Passable;
use crate::settle::settle_all;
use road_graph::{Network, NoMemory};
use std::alloc::{AllocError, Global};
use std::marker::Model;

/// The most columns of heights.
const COLUMNS: usize = 16;

/// For each node a row of heights. Along no segment a height falls by more than the segment's feet, so no walk from one
/// node to another is shorter than a height falls between them, whatever may be passed.
///
/// The heights of a column are the lengths of the shortest walks to one node over all segments. Heights follow from the
/// network alone, so they stay when flags change.
#[derive(Drop)]
pub struct Heights {
    rows: Vec<[u32; 16]>,
    columns: usize,
}

impl Model for Heights {
    ghost use Rattle.std.specs.Prelude.{ℕ, List, ◌≤◌};

    ghost Value = { List (List ℕ) };

    ghost view = { λ h. h.rows.items };

    ghost invariant = { λ h. h.columns ≤ 16 };
}

impl Heights {
    ghost use Rattle.std.specs.Prelude.{◌≡◌, ◌<◌, ◌≤◌, [], length, IfOk, OnOk};
    ghost use Rattle.road_graph.specs.Roads.{IsRoads};
    ghost use Rattle.route_search.specs.Heights.{AreHeights, IsBound};

    /// No heights, which leave nothing out. Takes no memory.
    pub fn none(alloc: Global) -> Heights
        ensures { result ≡ [] }
    {
        Heights {
            rows: Vec::new(alloc),
            columns: 0,
        }
    }

    /// Heights in all sixteen columns.
    ///
    /// `NoMemory` where no memory was left.
    pub fn all(alloc: Global, network: &Network) -> Result<Heights, NoMemory>
        ensures { IfOk result (λ heights. AreHeights network.now.segments heights) }
    {
        let mut heights = Heights::none(alloc);
        'columns: for _ in 0..COLUMNS {
            heights.add(alloc, network)?;
        }
        Ok(heights)
    }

    /// The same heights once more. `NoMemory` where no memory was left.
    pub fn try_clone(&self, alloc: Global) -> Result<Heights, NoMemory>
        ensures { IfOk result (λ heights. heights ≡ self.now) }
    {
        Ok(Heights {
            rows: Vec::from_slice(alloc, self.rows.as_slice())?,
            columns: self.columns,
        })
    }

    /// Makes one column more, up to sixteen: that of the node that is farthest from the nodes of the others.
    ///
    /// `NoMemory` where no memory was left.
    pub fn add(&mut self, alloc: Global, network: &Network) -> Result<(), NoMemory>
        requires heights { AreHeights network.now.segments self.old }
        ensures { AreHeights network.now.segments self.new }
    {
        self.lay(alloc, network)?;
        if self.columns < COLUMNS && network.nodes() > 0 {
            let node = farthest(self.rows.as_slice(), self.columns);
            let lengths = lengths(alloc, network, node)?;
            write(&mut self.rows, self.columns, lengths.as_slice());
            self.columns += 1;
        }
        Ok(())
    }

    // Makes a row of zeros for each node, where there is not a row for each yet.
    fn lay(&mut self, alloc: Global, network: &Network) -> Result<(), NoMemory>
        requires heights { AreHeights network.now.segments self.old }
        ensures heights { AreHeights network.now.segments self.new }
        ensures many { OnOk result (length self.new ≡ length network.now.nodes) }
        ensures roads { OnOk result (IsRoads network.now) }
    {
        let nodes = network.nodes() as usize;
        if self.rows.len() != nodes {
            self.rows = vec![in alloc; [0; 16]; nodes]?;
            self.columns = 0;
        }
        Ok(())
    }

    // By how much a height falls at least from one node to another.
    pub(crate) fn fall(&self, network: &Network, from: u32, to: u32) -> u32
        requires heights { AreHeights network.now.segments self.now }
        ensures { IsBound network.now from to result }
    {
        match (self.rows.get(from as usize), self.rows.get(to as usize)) {
            (Some(high), Some(low)) => greatest_fall(high, low),
            _ => 0,
        }
    }
}

// The most by which a height falls from one row to another.
fn greatest_fall(high: &[u32; 16], low: &[u32; 16]) -> u32
    ensures { IsLeastFall high.now low.now result }
{
    let mut fall = 0;
    for j in 0..16usize {
        fall = fall.max(high[j].saturating_sub(low[j]));
    }
    fall
}

// The least of the first heights of a row, or 0 where there are none.
fn least(row: &[u32; 16], columns: usize) -> u32
    requires { columns ≤ 16 }
{
    let mut least = 0;
    for j in 0..columns {
        if j == 0 || row[j] < least {
            least = row[j];
        }
    }
    least
}

// The node that is farthest from those of the columns, of the nodes from which there is a walk to each of them.
fn farthest(rows: &[[u32; 16]], columns: usize) -> u32
    requires some { 0 < length rows.now }
    requires few { length rows.now ≤ 4096 }
    requires within { columns ≤ 16 }
    ensures { result < length rows.now }
{
    let mut node = 0;
    let mut far = 0;
    for i in 0..rows.len() {
        let near = least(&rows[i], columns);
        if far < near && near < u32::MAX {
            node = i as u32;
            far = near;
        }
    }
    node
}

// The least lengths to a node from every node, over all segments.
fn lengths(alloc: Global, network: &Network, node: u32) -> Result<Vec<Option<u64>>, AllocError>
    requires { node < length network.now.nodes }
    ensures { IfOk result (λ r. AreLengths network.now node r.items) }
{
    let open = vec![in alloc; true; network.segments() as usize]?;
    let flags = open.as_slice();
    let lengths = settle_all(alloc, &Passable { network, flags }, node)?;
    Ok(lengths)
}

// A length as a height.
fn height(length: Option<u64>) -> u32
    ensures { result ≡ height_of length }
{
    match length {
        Some(feet) => feet.min(u64::from(u32::MAX)) as u32,
        None => u32::MAX,
    }
}

// Writes a column of heights.
fn write(rows: &mut Vec<[u32; 16]>, column: usize, lengths: &[Option<u64>])
    requires same { length rows.old.items ≡ length lengths.now }
    requires within { column < 16 }
    ensures many { length rows.new.items ≡ length rows.old.items }
    ensures column { IsColumn rows.old.items rows.new.items column lengths.now }
{
    for i in 0..lengths.len() {
        rows[i][column] = height(lengths[i]);
    }
}
