// Which segments a truck of a base may pass, at a snapshot of its roads.

ghost use Rattle.std.specs.Prelude.{◌≡◌, ◌<◌, length, IfOk};
ghost use Rattle.snapshot_store.specs.Stores.{state_now};
ghost use Rattle.trip_analysis.specs.Passing.{TestsAtMost, flags_of};

use crate::base::Base;
use crate::truck_on::TruckOn;
use clearance_rules::Steps;
use names::NoMemory;
use snapshot_store::Snapshot;
use std::alloc::Global;
use std::sync::ledger::Ledger;

/// A truck of a base, by its number, at a snapshot of the base's own roads.
#[derive(Drop)]
pub struct TruckAt<'a> {
    pub base: &'a Base,
    pub snapshot: &'a Snapshot,
    pub truck: u32,
    ghost truck_is_there: { truck < length base.now.fleet },
    ghost roads_are_its: { snapshot.now.roads ≡ base.now.roads },
}

impl TruckAt<'_> {
    /// For each segment whether the truck may pass it. Where the base keeps what the truck might pass before anything was
    /// posted, only the segments that postings name are tested, and else all are. `NoMemory` where no memory was left.
    pub fn flags<L: Ledger>(
        &self,
        alloc: Global,
        steps: &mut Steps<L>,
    ) -> Result<Vec<bool>, NoMemory>
        ensures flags { IfOk result
            (λ flags. flags.items ≡ flags_of self.now.base.now (state_now self.now.snapshot.now) self.now.truck) }
        ensures steps { TestsAtMost (length self.now.base.now.roads.segments) steps.old steps.new }
    {
        let (base, state, truck) = (self.base, self.snapshot.state(), self.truck);
        let on = TruckOn { base, state, truck };
        let Some(opening) = base.opening(truck) else {
            return on.flags(alloc, steps);
        };
        base.lists_are_in_order();
        let mut flags = Vec::from_slice(alloc, opening)?;
        let mut from = 0;
        'posted: while let Some(segment) = self.snapshot.next_changed(0, from) {
            flags[segment as usize] = on.is_passable(segment, steps);
            from = segment + 1;
        }
        Ok(flags)
    }
}
