// Sets of placements: what may stand on a span, and where.

ghost use Rattle.std.specs.Prelude.{ℕ, List};
ghost use Rattle.influence_line.specs.Placed.{Load};
ghost use Rattle.influence_line.specs.Peaks.{IsTrainPlaced, IsHs20Placed};

use axle_train::Train;

/// A set of placements of loads on a span, over which a peak can be taken. It has no code.
pub trait Placements {
    /// Whether these loads, with positions in units of 1/q inch, are one of the placements.
    ghost allowed: { Self → ℕ → List Load → Type 0 };
}

/// A train, at any lead.
impl Placements for Train {
    ghost allowed = { IsTrainPlaced };
}

/// The HS20-44 truck, at any lead and with any second spacing from 14 to 30 feet.
#[derive(Clone, Copy)]
pub struct Hs20Placements;

impl Placements for Hs20Placements {
    ghost allowed = { λ _. IsHs20Placed };
}
