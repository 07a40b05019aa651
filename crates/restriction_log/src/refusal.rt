// Why a change was not posted.

ghost use Rattle.std.specs.Prelude.{◌≡◌};
ghost use Rattle.restriction_log.specs.declared.refusal.PostRefusal.TheVariants.{NoMemory};

use std::alloc::AllocError;
use thiserror::Error;

/// Why a change was not posted: the first of these causes that applies, in this order.
#[derive(Clone, Copy, Debug, PartialEq, Eq, Error)]
pub enum PostRefusal {
    /// The network has no such segment or span, or the value is out of its range.
    #[error("the network does not take the change")]
    Range,
    /// There are 1,000,000 postings.
    #[error("the log is full")]
    Full,
    /// No memory was left.
    #[error("out of memory")]
    NoMemory,
}

impl From<AllocError> for PostRefusal {
    ghost from_gives = { λ _ refusal. refusal ≡ NoMemory };

    fn from(_error: AllocError) -> PostRefusal {
        PostRefusal::NoMemory
    }
}
