// Walks from a node, and walks to it.

ghost use Rattle.std.specs.Prelude.{◌<◌, length};

use crate::passable::Passable;

// The direction in which segments are taken: as they lead, or against it.
#[derive(Clone, Copy)]
pub(crate) enum Way {
    Forth,
    Back,
}

// The passable walks from a node, the root, or, where segments are taken against their direction, those that lead to it.
#[derive(Drop)]
pub(crate) struct Walks<'a> {
    pub roads: Passable<'a>,
    pub way: Way,
    pub root: u32,
    ghost root_is_there: { root < length roads.network.now.nodes },
}
