// What is known around a node.

ghost use Rattle.std.specs.Prelude.{◌≡◌, length};

use road_graph::SharedNumbers;

// The nodes that walks from the root reach: a mark for each node, and the numbers of those that are marked.
#[derive(Drop)]
pub(crate) struct Reached {
    pub marks: Vec<bool>,
    pub numbers: SharedNumbers,
}

/// What is reached from one node, the root, and the nodes that are joined to it: passable walks lead to them and back. From
/// each of these just the same is reached, so why trips from them have no route is told without a search.
#[derive(Drop)]
pub struct Region {
    // by passable walks, and by any
    pub(crate) passable: Reached,
    pub(crate) any: Reached,
    // the nodes from which passable walks lead to the root
    pub(crate) leading_in: Vec<bool>,
    ghost marks_are_as_many: { length passable.marks.items ≡ length any.marks.items },
    ghost marks_back_are_as_many: { length passable.marks.items ≡ length leading_in.items },
}
