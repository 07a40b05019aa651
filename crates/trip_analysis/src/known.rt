// What is known of one truck, once it was needed.

ghost use Rattle.std.specs.Prelude.{◌≡◌, ◌<◌, length, slice_set, IfOk, IfSome};
ghost use Rattle.road_graph.specs.Roads.{IsRoads};
ghost use Rattle.snapshot_store.specs.Stores.{state_now};
ghost use Rattle.trip_analysis.specs.Passing.{TestsAtMost};
ghost use Rattle.trip_analysis.specs.Known.{IsKnown, IsOfRoads};

use crate::kept::Kept;
use crate::truck_at::TruckAt;
use clearance_rules::Steps;
use names::NoMemory;
use road_graph::Network;
use std::alloc::Global;
use std::sync::ledger::Ledger;

/// What is known of one truck: for each segment whether it may pass it, and what is kept of the searches over those that it
/// may pass.
#[derive(Drop)]
pub struct Known {
    pub(crate) passable: Vec<bool>,
    pub(crate) kept: Kept,
}

impl Known {
    /// What is known of a truck at a snapshot: what was kept of it or, where nothing was, which segments it may pass.
    pub(crate) fn at<L: Ledger>(
        alloc: Global,
        kept: Option<Known>,
        at: &TruckAt,
        steps: &mut Steps<L>,
    ) -> Result<Known, NoMemory>
        requires kept { IfSome kept (IsKnown at.now.base.now (state_now at.now.snapshot.now) at.now.truck) }
        ensures known { IfOk result (IsKnown at.now.base.now (state_now at.now.snapshot.now) at.now.truck) }
        ensures steps { TestsAtMost (length at.now.base.now.roads.segments) steps.old steps.new }
    {
        if let Some(known) = kept {
            return Ok(known);
        }
        let kept = Kept {
            settled: None,
            region: None,
            last: None,
        };
        Ok(Known {
            passable: at.flags(alloc, steps)?,
            kept,
        })
    }

    /// Writes whether the truck may pass a segment. Where it is as before, all stays. Else the region goes, and the potentials
    /// stay where the segment does not matter to them.
    pub(crate) fn write(&mut self, network: &Network, segment: u32, passable: bool)
        requires roads { IsRoads network.now }
        requires segment { segment < length network.now.segments }
        requires known { IsOfRoads network.now self.old }
        ensures passable { self.new.passable.items ≡ slice_set self.old.passable.items segment passable }
        ensures known { IsOfRoads network.now self.new }
    {
        let before = self.passable[segment as usize];
        self.passable[segment as usize] = passable;
        if before != passable {
            self.kept.region = None;
            if let Some(settled) = &self.kept.settled {
                if !settled.potentials.is_slack(network, segment) {
                    self.kept.settled = None;
                }
            }
        }
    }
}
