//! The value while a turn is held.
ghost use Rattle.std.specs.Prelude.{◌≡◌};
ghost use Rattle.office_turn.specs.Told.{Holding};

use crate::pass::Pass;
use crate::story::Storied;
use std::marker::Model;
use std::snapshot::Snapshot;

/// The value, for the one who holds a turn. It must be spent, in [`Turn::pass_on`](crate::Turn::pass_on).
///
/// In contracts it is a `Holding`: the value, and the pass that got it, as that pass then was.
pub struct Held<V: Storied> {
    pub(crate) value: V,
    // It takes no bytes.
    pub(crate) by: Snapshot<Pass<V>>,
}

impl<V: Storied> Model for Held<V> {
    ghost Value = { Holding V V.Entry V.Terms };

    ghost view = { λ h. record { value = h.value; by = h.by.value } };
}

impl<V: Storied> Held<V> {
    ghost use Rattle.std.specs.Borrow.{sem};
    ghost use Rattle.office_turn.specs.Lent.{LendsValue};

    /// The value. What is written through the reference is the held's value from then on.
    pub fn value(&mut self) -> &mut V
        ensures* writes_back { sem 𝓛 (LendsValue V.row V.Entry.row V.Terms.row V.Storied self.entry result) }
        ensures value { result.now ≡ self.old.value }
    {
        &mut self.value
    }
}
