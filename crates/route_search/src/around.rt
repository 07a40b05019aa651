// A region is made around a node, and tells why trips have no route.

ghost use Rattle.std.specs.Prelude.{◌≡◌, ◌<◌, ℕ, Bool, List, length, IfOk};
ghost use Rattle.road_graph.specs.Roads.{Roads};
ghost use Rattle.route_search.specs.Founds.{IsShortest};
ghost use Rattle.route_search.specs.Regions.{AreReachedFrom, IsCutOff, IsRegion, IsToldOfTrip, IsToldAll, is_cut_off};
ghost use Rattle.route_search.specs.Walks.{flagged};

use crate::passable::Passable;
use crate::reach::{listed, reach};
use crate::region::{Reached, Region};
use crate::shortest::Shortest;
use crate::walks::{Walks, Way};
use road_graph::{NoMemory, Numbers, SharedNumbers};
use std::alloc::{AllocError, Global};

impl Region {
    /// The region around a node. `NoMemory` where no memory was left.
    pub fn around(alloc: Global, roads: &Passable, root: u32) -> Result<Region, NoMemory>
        requires { root < length roads.now.network.now.nodes }
        ensures { IfOk result (IsRegion roads.now.network.now roads.now.flags.now root) }
    {
        let network = roads.network;
        let open = vec![in alloc; true; network.segments() as usize]?;
        let flags = open.as_slice();
        let any = reach_from(alloc, &Passable { network, flags }, root)?;
        let passable = reach_from(alloc, roads, root)?;
        let leading_in = reach(
            alloc,
            &Walks {
                roads: *roads,
                way: Way::Back,
                root,
            },
        )?;
        Ok(Region {
            passable,
            any,
            leading_in,
        })
    }

    /// What `shortest_walk` answers, where the start is joined to the root and no passable walk leads to the goal; else
    /// `None`. The answer is one more owner of the list of nodes. `NoMemory` where it cannot be had.
    pub fn tell(&self, from: u32, to: u32) -> Result<Option<Shortest>, NoMemory>
        requires from { from < length self.now.leading_in.items }
        requires to { to < length self.now.leading_in.items }
        ensures told { (roads : Roads) (passable : List Bool) (root : ℕ)
            → IsRegion roads passable root self.now
            → IfOk result (IsToldOfTrip roads passable from to) }
        ensures all { (roads : Roads) (passable : List Bool) (root : ℕ)
            → IsRegion roads passable root self.now
            → IfOk result (IsToldAll roads passable root from to) }
    {
        if self.is_cut_off(from, to) {
            let found = self.why(to)?;
            Ok(Some(found))
        } else {
            Ok(None)
        }
    }

    /// What `shortest_walk` answers where no passable walk leads to the goal from a node that is joined to the root.
    /// The answer is one more owner of the list of nodes. `NoMemory` where it cannot be had.
    pub fn why(&self, to: u32) -> Result<Shortest, NoMemory>
        requires to { to < length self.now.leading_in.items }
        ensures { (roads : Roads) (passable : List Bool) (root from : ℕ)
            → IsRegion roads passable root self.now
            → IsCutOff roads passable root from to → IfOk result (IsShortest roads passable from to) }
    {
        if self.any.marks[to as usize] {
            let reached = self.passable.numbers.clone()?;
            Ok(Shortest::Cut { reached })
        } else {
            let reached = self.any.numbers.clone()?;
            Ok(Shortest::NoRoad { reached })
        }
    }

    // Whether the start is joined to the root, and no passable walk leads to the goal.
    fn is_cut_off(&self, from: u32, to: u32) -> bool
        requires from { from < length self.now.leading_in.items }
        requires to { to < length self.now.leading_in.items }
        ensures { result ≡ is_cut_off self.now from to }
    {
        let marks = &self.passable.marks;
        marks[from as usize] && self.leading_in[from as usize] && !marks[to as usize]
    }
}

// The nodes that walks from the root reach.
pub(crate) fn reach_from(alloc: Global, roads: &Passable, root: u32) -> Result<Reached, AllocError>
    requires { root < length roads.now.network.now.nodes }
    ensures { IfOk result (AreReachedFrom roads.now.network.now (flagged roads.now.flags.now) root) }
{
    let walks = Walks {
        roads: *roads,
        way: Way::Forth,
        root,
    };
    let marks = reach(alloc, &walks)?;
    let numbers = listed(alloc, &walks, &marks)?;
    Ok(Reached {
        marks,
        numbers: SharedNumbers::of(alloc, Numbers::of(numbers))?,
    })
}
