// Which roads may be passed.

ghost use Rattle.std.specs.Prelude.{◌≡◌, length};
ghost use Rattle.road_graph.specs.Roads.{IsRoads};

use road_graph::Network;

/// Roads with a flag for each segment, which says whether it may be passed.
#[derive(Clone, Copy)]
pub struct Passable<'a> {
    pub network: &'a Network,
    pub flags: &'a [bool],
    ghost in_order: { IsRoads network.now },
    ghost flags_are_as_many: { length flags.now ≡ length network.now.segments },
}
