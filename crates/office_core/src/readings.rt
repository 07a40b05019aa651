// What the counter of an office showed behind each entry.

use clearance_rules::Steps;
use std::marker::Model;
use std::snapshot::Snapshot;
use std::sync::ledger::Ledger;

/// The counter of the segments that were tested in an office's turns, and what it showed behind each entry of the office's history.
/// It takes no bytes.
///
/// Contracts see the readings. The counter shows the last of them, and 0 where there is none.
#[derive(Drop)]
pub struct Readings<L: Ledger> {
    pub(crate) steps: Steps<L>,
    pub(crate) readings: Vec<Snapshot<Steps<L>>>,
}

impl<L: Ledger> Model for Readings<L> {
    ghost use Rattle.std.specs.Prelude.{◌≡◌, List, ℕ};
    ghost use Rattle.office_core.specs.Readings.{last_of, values_of};

    ghost Value = { List ℕ };

    ghost view = { λ r. values_of r.readings.items };

    ghost invariant = { λ r. r.steps ≡ last_of (values_of r.readings.items) };
}
