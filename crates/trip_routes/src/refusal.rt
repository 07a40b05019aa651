// Why a route was not added.

ghost use Rattle.std.specs.Prelude.{◌≡◌};
ghost use Rattle.trip_routes.specs.declared.refusal.RoutesRefusal.TheVariants.{NoMemory};

use std::alloc::AllocError;
use thiserror::Error;

/// Why a route was not added: the first of these causes that applies, in this order.
#[derive(Clone, Copy, Debug, PartialEq, Eq, Error)]
pub enum RoutesRefusal {
    /// There are eight routes.
    #[error("there are eight routes")]
    Full,
    /// No memory was left.
    #[error("out of memory")]
    NoMemory,
}

impl From<AllocError> for RoutesRefusal {
    ghost from_gives = { λ _ refusal. refusal ≡ NoMemory };

    fn from(_error: AllocError) -> RoutesRefusal {
        RoutesRefusal::NoMemory
    }
}
