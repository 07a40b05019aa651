// Why a day file was not served.

ghost use Rattle.std.specs.Prelude.{◌≡◌};
ghost use Rattle.day_trial.specs.declared.refusal.ServingRefusal.TheVariants.{NoMemory as lacking};
ghost use Rattle.day_trial.specs.Rerouting.{serving_refusal};

use names::NoMemory;
use reroute_desk::RerouteRefusal;
use thiserror::Error;

/// Why a day file was not served.
#[derive(Clone, Copy, Debug, PartialEq, Eq, Error)]
pub enum ServingRefusal {
    /// The history would have more entries than an office may have.
    #[error("more than 1000000 entries")]
    TooMany,
    /// No memory was left.
    #[error("out of memory")]
    NoMemory,
}

impl From<NoMemory> for ServingRefusal {
    ghost from_gives = { λ _ refusal. refusal ≡ lacking };

    fn from(_error: NoMemory) -> ServingRefusal {
        ServingRefusal::NoMemory
    }
}

impl From<RerouteRefusal> for ServingRefusal {
    ghost from_gives = { λ refusal given. given ≡ serving_refusal refusal };

    fn from(refusal: RerouteRefusal) -> ServingRefusal {
        match refusal {
            RerouteRefusal::Full { .. } => ServingRefusal::TooMany,
            RerouteRefusal::NoMemory => ServingRefusal::NoMemory,
        }
    }
}
