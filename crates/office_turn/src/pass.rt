//! The root, which admits passes and ends the turn, and the passes, which take turns.
ghost use Rattle.std.specs.Prelude.{◌≡◌, ◌<◌, ◌≤◌, length};
ghost use Rattle.office_turn.specs.Told.{Passing, Rooted, passing, rooted, IsPass, IsRoot};

use crate::story::Storied;
use crate::view::View;
use atomic_table::Seat;
use std::marker::Model;

/// The right to take turns at one lock. It must be spent, in [`Turn::join`](crate::Turn::join).
///
/// In contracts it is a `Passing`: its lock, its number, the entries that it has seen, its own entries, whether it
/// holds a turn, and whether it was ever answered `Worn`.
pub struct Pass<V: Storied> {
    pub(crate) seat: Seat<Option<V>, View<V::Entry, V::Terms>>,
    pub(crate) number: u32,
}

impl<V: Storied> Model for Pass<V> {
    ghost Value = { Passing V.Entry V.Terms };

    ghost view = { λ p. passing p.seat };

    ghost invariant = { λ p. IsPass p.seat p.number };
}

/// The right to admit passes to one lock, to join them, and to close it. A lock whose root is let go can't be closed.
///
/// In contracts it is a `Rooted`: its lock, the entries that it has seen, how many passes were admitted, and the
/// receipts of those that were joined.
#[derive(Drop)]
pub struct Root<V: Storied> {
    pub(crate) seat: Seat<Option<V>, View<V::Entry, V::Terms>>,
    pub(crate) admitted: u32,
    pub(crate) joined: u32,
}

impl<V: Storied> Model for Root<V> {
    ghost Value = { Rooted V.Entry V.Terms };

    ghost view = { λ r. rooted r.seat };

    ghost invariant = { λ r. IsRoot r.seat r.admitted r.joined };
}

impl<V: Storied> Pass<V> {
    /// The number of the pass, which no other pass of its lock has.
    pub fn number(&self) -> u32
        ensures number { result ≡ self.now.number }
        ensures bound { result < 65536 }
    {
        self.number
    }
}

impl<V: Storied> Root<V> {
    /// How many passes were admitted.
    pub fn admitted(&self) -> u32
        ensures admitted { result ≡ self.now.admitted }
        ensures bound { result ≤ 65536 }
    {
        self.admitted
    }

    /// How many passes were joined.
    pub fn joined(&self) -> u32
        ensures joined { result ≡ length self.now.receipts }
        ensures bound { result ≤ self.now.admitted }
    {
        self.joined
    }
}
