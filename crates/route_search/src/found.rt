// What a search answers.

ghost use Rattle.std.specs.Prelude.{◌≡◌};
ghost use Rattle.route_search.specs.Staying.{is_slack_by};

use road_graph::{Network, Numbers, SharedNumbers};
use std::alloc::Global;
use std::marker::Model;

/// For each node the least length in feet of a passable walk from there to the goal, where there is one.
#[derive(Debug, Drop)]
pub struct Potentials {
    list: Vec<Option<u64>>,
}

impl Model for Potentials {
    ghost use Rattle.std.specs.Prelude.{ℕ, List, Option};

    ghost Value = { List (Option ℕ) };

    ghost view = { λ p. p.list.items };
}

impl Potentials {
    ghost use Rattle.std.specs.Prelude.{◌≡◌, ◌<◌, [], length, slice_get, Some};
    ghost use Rattle.route_search.specs.Staying.{is_slack};

    /// Those of no node. Takes no memory.
    pub fn none(alloc: Global) -> Potentials
        ensures { result ≡ [] }
    {
        Potentials {
            list: Vec::new(alloc),
        }
    }

    /// Whether the segment leads on no walk of least length, be it passable or not. Takes no memory.
    #[tactic(auto, unfolding(crate::specs::Staying::is_slack))]
    pub fn is_slack(&self, network: &Network, segment: u32) -> bool
        requires many { length self.now ≡ length network.now.nodes }
        requires within { segment < length network.now.segments }
        ensures { result ≡ is_slack network.now.segments self.now segment }
    {
        let list = &self.list;
        let here = network.segment(segment);
        is_slack_by(list[here.from as usize], here.feet, list[here.to as usize])
    }

    pub(crate) fn as_slice(&self) -> &[Option<u64>]
        ensures { result.now ≡ self.now }
    {
        &self.list
    }

    pub(crate) fn of(list: Vec<Option<u64>>) -> Potentials
        ensures { result ≡ list.items }
    {
        Potentials { list }
    }

    /// The least length in feet of a passable walk from the node to the goal: `None` exactly where there is no such walk,
    /// and 0 at the goal. Takes no memory.
    pub fn at(&self, node: u32) -> Option<u64>
        requires { node < length self.now }
        ensures { slice_get self.now node ≡ Some result }
    {
        let list = &self.list;
        list[node as usize]
    }
}

/// The shortest passable walk, or why there is none.
#[derive(Debug, Drop)]
pub enum Found {
    /// Of the passable walks of least length the first in dictionary order.
    Route {
        /// The numbers of its segments.
        segments: Numbers,
        /// Its length in feet.
        length: u64,
        /// The least lengths from every node, which certify it.
        potential: Potentials,
    },
    /// There are walks, and none is passable.
    Cut {
        /// The nodes that passable walks reach, rising.
        reached: SharedNumbers,
    },
    /// There is no walk.
    NoRoad {
        /// The nodes that walks reach, rising.
        reached: SharedNumbers,
    },
}

// Whether by these potentials of its ends a segment of so many feet leads on no walk of least length.
fn is_slack_by(from: Option<u64>, feet: u32, to: Option<u64>) -> bool
    ensures { result ≡ is_slack_by from feet to }
{
    match (from, to) {
        (_, None) => true,
        (None, Some(_)) => false,
        (Some(here), Some(left)) => u128::from(here) < u128::from(feet) + u128::from(left),
    }
}
