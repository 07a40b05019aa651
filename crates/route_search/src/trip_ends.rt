// The ends of a trip.

ghost use Rattle.std.specs.Prelude.{◌<◌, length};

use crate::passable::Passable;

/// Two nodes, and the roads that may be passed between them.
#[derive(Clone, Copy)]
pub struct TripEnds<'a> {
    pub roads: Passable<'a>,
    pub from: u32,
    pub to: u32,
    ghost from_is_there: { from < length roads.network.now.nodes },
    ghost to_is_there: { to < length roads.network.now.nodes },
}
