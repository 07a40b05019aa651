// Which segments a truck of a base may pass, in a state of its roads.

ghost use Rattle.std.specs.Prelude.{◌≡◌, ◌+◌, ◌<◌, length, All, IfOk};
ghost use Rattle.restriction_log.specs.States.{AreOf};
ghost use Rattle.trip_analysis.specs.Passing.{TestsAtMost, first_on as first_in, flags_of, is_passable, limit_for};

use crate::base::Base;
use crate::failing::Failing;
use clearance_rules::{Limit, Steps, first_failing, meets};
use names::NoMemory;
use restriction_log::State;
use std::alloc::Global;
use std::sync::ledger::Ledger;

/// A truck of a base, by its number, on the base's own roads as a state has them. What its axles do on the spans is told by the
/// study that the base has of them.
#[derive(Drop)]
pub struct TruckOn<'a> {
    pub base: &'a Base,
    pub state: &'a State,
    pub truck: u32,
    ghost truck_is_there: { truck < length base.now.fleet },
    ghost state_is_of: { AreOf base.now.roads state.now },
}

impl TruckOn<'_> {
    /// The first limit of the segment that fails the truck. Takes no memory.
    pub fn failing_limit<L: Ledger>(&self, segment: u32, steps: &mut Steps<L>) -> Option<Limit>
        requires segment { segment < length self.now.base.now.roads.segments }
        ensures value { result ≡ limit_for self.now.base.now self.now.state.now self.now.truck segment }
        ensures steps { steps.new ≡ steps.old + 1 }
    {
        let load = &self.base.fleet()[self.truck as usize].load;
        let study = self.base.study(self.truck);
        first_failing(self.base.network(), self.state, load, study, segment, steps)
    }

    /// Whether the truck may pass the segment: no limit of it fails, and so none is named. Takes no memory.
    pub fn is_passable<L: Ledger>(&self, segment: u32, steps: &mut Steps<L>) -> bool
        requires segment { segment < length self.now.base.now.roads.segments }
        ensures value { result ≡ is_passable self.now.base.now self.now.state.now self.now.truck segment }
        ensures steps { steps.new ≡ steps.old + 1 }
    {
        let load = &self.base.fleet()[self.truck as usize].load;
        let study = self.base.study(self.truck);
        meets(self.base.network(), self.state, load, study, segment, steps)
    }

    /// The first of these segments that fails the truck, with its first failing limit, or none where each meets it. At most as
    /// many are counted as there are. Takes no memory.
    pub fn first_on<L: Ledger>(&self, route: &[u32], steps: &mut Steps<L>) -> Option<Failing>
        requires segments { All (λ s. s < length self.now.base.now.roads.segments) route.now }
        ensures value { result ≡ first_in self.now.base.now self.now.state.now self.now.truck route.now }
        ensures steps { TestsAtMost (length route.now) steps.old steps.new }
    {
        for i in 0..route.len() {
            let segment = route[i];
            if let Some(limit) = self.failing_limit(segment, steps) {
                return Some(Failing { segment, limit });
            }
        }
        None
    }

    /// For each segment whether the truck may pass it. `NoMemory` where no memory was left.
    #[tactic(auto, using(crate::proofs::Flagged::flags_more))]
    pub fn flags<L: Ledger>(
        &self,
        alloc: Global,
        steps: &mut Steps<L>,
    ) -> Result<Vec<bool>, NoMemory>
        ensures flags { IfOk result
            (λ flags. flags.items ≡ flags_of self.now.base.now self.now.state.now self.now.truck) }
        ensures steps { TestsAtMost (length self.now.base.now.roads.segments) steps.old steps.new }
    {
        let mut flags = Vec::new(alloc);
        for segment in 0..self.base.network().segments() {
            flags.push(self.is_passable(segment, steps))?;
        }
        Ok(flags)
    }
}
