// What a search notes of each node, kept from search to search.

ghost use Rattle.std.specs.Prelude.{◌≡◌, [], length, replicate, None};
ghost use Rattle.route_search.specs.Tables.{AreTouched};

use crate::width::shift;
use road_graph::Network;
use std::alloc::{AllocError, Global};
use std::marker::Model;

/// The least length that a search knows for each node, where it knows one. A search writes over what the one before it noted.
///
/// Who makes many searches keeps it from one to the next. Then each search sets back only the nodes that the one before it
/// wrote, and takes no new memory for the others.
#[derive(Drop)]
pub struct Table {
    lengths: Vec<Option<u64>>,
    // the nodes that have a length
    touched: Vec<u32>,
    // how wide the buckets are for the network that the list was made for: speed alone follows from it
    shift: u32,
}

impl Model for Table {
    ghost use Rattle.std.specs.Prelude.{ℕ, List, Option, ◌<◌};
    ghost use Rattle.route_search.specs.Tables.{AreTouched};

    ghost Value = { List (Option ℕ) };

    ghost view = { λ t. t.lengths.items };

    ghost invariant = { λ t. AreTouched t.lengths.items t.touched.items × (t.shift < 64) };
}

impl Table {
    ghost use Rattle.std.specs.Prelude.{◌≡◌, ◌<◌, [], length, replicate, slice_set, OnOk, Some, None};

    /// A table of no nodes. Takes no memory.
    pub fn new(alloc: Global) -> Table
        ensures { result ≡ [] }
    {
        Table {
            lengths: Vec::new(alloc),
            touched: Vec::new(alloc),
            shift: 0,
        }
    }

    /// A place for each node of the network, and nothing known of any.
    pub(crate) fn begin(&mut self, alloc: Global, network: &Network) -> Result<(), AllocError>
        ensures { OnOk result (self.new ≡ replicate (length network.now.nodes) None) }
    {
        let nodes = network.nodes() as usize;
        if self.lengths.len() == nodes {
            set_back(&mut self.lengths, &mut self.touched);
        } else {
            self.lengths = vec![in alloc; None; nodes]?;
            self.touched.clear();
            self.shift = shift(network);
        }
        Ok(())
    }

    /// A node has this length now.
    pub(crate) fn note(&mut self, node: u32, feet: u64) -> Result<(), AllocError>
        requires { node < length self.old }
        ensures { OnOk result (self.new ≡ slice_set self.old node (Some feet)) }
    {
        if self.lengths[node as usize].is_none() {
            self.touched.push(node)?;
        }
        self.lengths[node as usize] = Some(feet);
        Ok(())
    }

    pub(crate) fn as_slice(&self) -> &[Option<u64>]
        ensures { result.now ≡ self.now }
    {
        &self.lengths
    }

    /// How many feet a bucket of waiting nodes takes, as a power of 2.
    pub(crate) fn shift(&self) -> u32
        ensures { result < 64 }
    {
        self.shift
    }

    /// The lengths alone.
    pub(crate) fn into_lengths(self) -> Vec<Option<u64>>
        ensures { result.items ≡ self }
    {
        self.lengths
    }
}

// Takes the length of each touched node away, so that none is known.
fn set_back(lengths: &mut Vec<Option<u64>>, touched: &mut Vec<u32>)
    requires { AreTouched lengths.old.items touched.old.items }
    ensures lengths { lengths.new.items ≡ replicate (length lengths.old.items) None }
    ensures touched { touched.new.items ≡ [] }
{
    'back: while let Some(node) = touched.pop() {
        lengths[node as usize] = None;
    }
}
