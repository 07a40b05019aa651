// A load that is to cross a segment.

ghost use Rattle.std.specs.Prelude.{◌≡◌, ◌<◌, length};
ghost use Rattle.restriction_log.specs.States.{AreOf};

use crate::load::Load;
use restriction_log::State;
use road_graph::Network;
use span_rating::SpanStudy;

/// A load that is to cross a segment of a network in a state of its roads. The study answers what the load asks of spans.
#[derive(Drop)]
pub(crate) struct Crossing<'a, E: SpanStudy> {
    pub network: &'a Network,
    pub state: &'a State,
    pub load: &'a Load,
    pub study: &'a E,
    pub segment: u32,
    ghost segment_is_there: { segment < length network.now.segments },
    ghost state_is_of: { AreOf network.now state.now },
    ghost study_is_of: { E.axles study.now ≡ load.now.train },
}
