// What a search is asked.

ghost use Rattle.std.specs.Prelude.{◌≡◌, ◌<◌, ℕ, length, Some};
ghost use Rattle.route_search.specs.Heights.{AreHeights};

use crate::heights::Heights;
use crate::passable::Passable;

/// What a search is asked: the least lengths of passable walks to a goal, from every node or, where a start is named, from
/// it and on walks of least length from it.
///
/// Heights bound from below how long a walk from the start to a node is, so nodes that lead away from it are left out.
#[derive(Drop)]
pub(crate) struct Query<'a> {
    pub roads: Passable<'a>,
    pub start: Option<u32>,
    pub goal: u32,
    pub heights: &'a Heights,
    ghost start_is_there: { (a : ℕ) → start ≡ Some a → a < length roads.network.now.nodes },
    ghost goal_is_there: { goal < length roads.network.now.nodes },
    ghost heights_bound: { AreHeights roads.network.now.segments heights.now },
}
