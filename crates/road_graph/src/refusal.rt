// Why something was not added to a network.

ghost use Rattle.std.specs.Prelude.{◌≡◌};
ghost use Rattle.road_graph.specs.declared.refusal.AddRefusal.TheVariants.{NoMemory};

use std::alloc::AllocError;
use thiserror::Error;

/// Why something was not added to a network, or a limit not set: the first of these causes that applies, in this order.
#[derive(Clone, Copy, Debug, PartialEq, Eq, Error)]
pub enum AddRefusal {
    /// Something of this kind has this name.
    #[error("the name is taken")]
    SameName,
    /// There is no node of this number.
    #[error("there is no such node")]
    UnknownNode,
    /// There is no segment of this number.
    #[error("there is no such segment")]
    UnknownSegment,
    /// A value is out of its range.
    #[error("a value is out of range")]
    Range,
    /// There are as many as a network has room for: 4,096 nodes, 16,384 segments, 2,048 spans, 16 spans of a segment.
    #[error("there are too many")]
    TooMany,
    /// No memory was left.
    #[error("out of memory")]
    NoMemory,
}

impl From<AllocError> for AddRefusal {
    ghost from_gives = { λ _ refusal. refusal ≡ NoMemory };

    fn from(_error: AllocError) -> AddRefusal {
        AddRefusal::NoMemory
    }
}
