// Whether a segment meets a load.

ghost use Rattle.std.specs.Prelude.{◌≡◌, ◌<◌, ◌+◌, ◌↔◌, length, IsTrue};
ghost use Rattle.axle_train.specs.Bounds.{IsTrain};
ghost use Rattle.restriction_log.specs.States.{AreOf, base_of};
ghost use Rattle.clearance_rules.specs.Limits.{meets, Meets};

use crate::crossing::Crossing;
use crate::first_limit::{bounds, posted_limit, weights_limit};
use crate::load::Load;
use crate::steps::Steps;
use restriction_log::State;
use road_graph::Network;
use span_rating::SpanStudy;
use std::sync::ledger::Ledger;

/// Whether the segment meets the load in this state: [`first_failing`](crate::first_failing) names no limit.
///
/// As no limit is named, no effects are asked for: the study only says whether each span carries the truck.
/// Takes a step and no memory.
pub fn meets<E: SpanStudy, L: Ledger>(
    network: &Network,
    state: &State,
    load: &Load,
    study: &E,
    segment: u32,
    steps: &mut Steps<L>,
) -> bool
    requires segment { segment < length network.now.segments }
    requires state { AreOf network.now state.now }
    requires study { E.axles study.now ≡ load.now.train }
    ensures value { result ≡ meets network.now state.now load.now segment }
    ensures meets { IsTrue result ↔ Meets network.now state.now load.now segment }
    ensures steps { steps.new ≡ steps.old + 1 }
{
    steps.tick();
    bounds(network, load);
    let crossing = Crossing {
        network,
        state,
        load,
        study,
        segment,
    };
    crossing.is_met()
}

/// Whether the segment meets the load before anything is posted, by the values with which the network begins.
///
/// It takes no step: what is found so is found once, before an office opens. In a state that postings made it may not be asked.
/// Takes no memory.
pub fn meets_at_first<E: SpanStudy>(
    network: &Network,
    first: &State,
    load: &Load,
    study: &E,
    segment: u32,
) -> bool
    requires segment { segment < length network.now.segments }
    requires first { first.now ≡ base_of network.now }
    requires study { E.axles study.now ≡ load.now.train }
    ensures { result ≡ meets network.now (base_of network.now) load.now segment }
{
    bounds(network, load);
    let crossing = Crossing {
        network,
        state: first,
        load,
        study,
        segment,
    };
    crossing.is_met()
}

impl<E: SpanStudy> Crossing<'_, E> {
    /// Whether the segment meets the load.
    fn is_met(&self) -> bool
        requires { IsTrain self.now.load.now.train }
        ensures { result ≡ meets self.now.network.now self.now.state.now self.now.load.now self.now.segment }
    {
        let values = self.state.segment(self.segment);
        if posted_limit(&values, self.load, self.segment).is_some() {
            return false;
        }
        if weights_limit(&values, self.load, self.segment).is_some() {
            return false;
        }
        for span in self.network.spans_of(self.segment) {
            let inches = self.network.span(*span).inches;
            let rating = self.state.rating(*span);
            if !self.study.carries(inches, rating) {
                return false;
            }
        }
        true
    }
}
