// Why a desk did not catch up.

ghost use Rattle.std.specs.Prelude.{◌≡◌};
ghost use Rattle.reroute_desk.specs.declared.refusal.RerouteRefusal.TheVariants.{NoMemory as lacking};

use names::NoMemory;
use std::alloc::AllocError;
use thiserror::Error;

/// Why a desk did not catch up.
#[derive(Clone, Copy, Debug, PartialEq, Eq, Error)]
pub enum RerouteRefusal {
    /// The history holds this many entries, the most that it may, and a permit is left that was recalled and has not expired.
    #[error("the history holds {entries} entries, the most that it may")]
    Full { entries: u32 },
    /// No memory was left.
    #[error("out of memory")]
    NoMemory,
}

impl From<AllocError> for RerouteRefusal {
    ghost from_gives = { λ _ refusal. refusal ≡ lacking };

    fn from(_error: AllocError) -> RerouteRefusal {
        RerouteRefusal::NoMemory
    }
}

impl From<NoMemory> for RerouteRefusal {
    ghost from_gives = { λ _ refusal. refusal ≡ lacking };

    fn from(_error: NoMemory) -> RerouteRefusal {
        RerouteRefusal::NoMemory
    }
}
