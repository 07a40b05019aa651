//! The lock, and the calls on it.
ghost use Rattle.std.specs.Prelude.{◌≡◌, ◌+◌, ◌<◌, ◌≤◌, ℕ, true, false, [], ◌∷◌, ◌++◌, Some, length, All, IfOk, IfErr, OnOk};
ghost use Rattle.office_turn.specs.Story.{HasOneMore, StartsWith, StartsWithBoth, entries_of};
ghost use Rattle.office_turn.specs.Told.{HasReceipt, IsToldWorn, Lock, lock_of, opening_root, after_admit, admitted_by, after_hold, after_pass_on, after_join};

use crate::held::Held;
use crate::law::{Law, Opening, WORDS};
use crate::pass::{Pass, Root};
use crate::plays::Admit;
use crate::steps;
use crate::story::Storied;
use crate::view::View;
use atomic_table::{Refused, Table};
use std::alloc::{AllocError, Global};
use std::marker::Model;
use std::snapshot::Snapshot;
use std::sync::Wait;

/// A lock around a value, whose turns are taken in the order of their tickets. [`Turn::close`] gives the value back. A
/// lock that is let go drops it.
///
/// In contracts it is a `Lock`: which one, the terms of the value at its start, and the most turns that it gives.
#[derive(Drop)]
pub struct Turn<V: Storied> {
    table: Table<Option<V>, View<V::Entry, V::Terms>, Opening<V>, Law, Global>,
    most: u32,
}

impl<V: Storied> Model for Turn<V> {
    ghost Value = { Lock V.Terms };

    ghost view = { λ t. lock_of t.table.shared.table_id (V.terms t.table.shared.key.value.value) t.most };

    ghost invariant = { λ t. (t.table.shared.table_id.words ≡ 10) × (t.table.shared.table_id.slots ≡ 1)
        × (t.most ≡ t.table.shared.key.most) × (t.most ≤ 1000000) };
}

/// All turns of the lock have been drawn: as many as this.
#[derive(Debug, Clone, Copy, PartialEq, Eq)]
pub struct Worn {
    pub turns: u32,
}

/// No memory was found.
#[derive(Debug, Clone, Copy, PartialEq, Eq)]
pub struct NoMemory;

impl From<AllocError> for NoMemory {
    fn from(_error: AllocError) -> NoMemory {
        NoMemory
    }
}

impl<V: Storied + Drop> Turn<V> {
    /// A lock over the value that gives at most `most` turns, and its root, which has admitted nobody. The story of
    /// the value has to be empty. On `NoMemory` the value was dropped.
    pub fn start(alloc: Global, value: V, most: u32) -> Result<(Turn<V>, Root<V>), NoMemory>
        requires story { V.story value ≡ [] }
        requires most { (1 ≤ most) × (most ≤ 1000000) }
        ensures lock { IfOk result (λ started.
            (started.0.terms ≡ Some (V.terms value)) × (started.0.most ≡ most)) }
        ensures root { IfOk result (λ started. started.1 ≡ opening_root started.0) }
    {
        let mut slots = Vec::with_capacity(alloc, 1)?;
        let about = Opening {
            value: Snapshot::of(&value),
            most,
        };
        slots.push_reserved(Some(value));
        match Table::new(alloc, &[0; WORDS], slots, &about) {
            Ok((table, seat)) => Ok((
                Turn { table, most },
                Root {
                    seat,
                    admitted: 0,
                    joined: 0,
                },
            )),
            Err(Refused { slots: _ }) => Err(NoMemory),
        }
    }
}

impl<V: Storied> Turn<V> {
    /// A new pass, whose number is how many were admitted before it. It has seen what the root has seen, and has no
    /// entries of its own. It never refuses and takes no memory.
    pub fn admit(&self, root: &mut Root<V>) -> Pass<V>
        requires lock { root.old.lock ≡ self.now }
        requires room { root.old.admitted < 65536 }
        ensures pass { result ≡ admitted_by root.old }
        ensures root { root.new ≡ after_admit root.old }
    {
        let seat = self.table.shared.split_seat::<Admit>(&mut root.seat);
        let number = root.admitted;
        root.admitted += 1;
        Pass { seat, number }
    }

    /// Waits for a turn, and gives the value. `Worn` comes where the next ticket was found to be `most`, which is
    /// where `most` tickets have been drawn; no turn is taken then. It takes no memory.
    ///
    /// The story found goes on from what the pass has seen, and has fewer than `most` entries. In it those of the
    /// pass's number are just its own. The terms are those of the start. A pass that was ever answered `Worn` gets no
    /// turn.
    pub fn hold<R: Wait>(&self, rt: &R, pass: &mut Pass<V>) -> Result<Held<V>, Worn>
        requires lock { pass.old.lock ≡ self.now }
        requires idle { pass.old.holds ≡ false }

        // A turn is held: the pass has seen the story that it found, and the held is this pass's.
        ensures pass { IfOk result (λ held. pass.new ≡ after_hold pass.old (V.story held.value)) }
        ensures by { IfOk result (λ held. held.by ≡ pass.new) }
        ensures extends { IfOk result (λ held. StartsWith (V.story held.value) pass.old.seen) }
        ensures room { IfOk result (λ held. length (V.story held.value) < self.now.most) }
        ensures own { IfOk result (λ held.
            entries_of V.caller pass.old.number (V.story held.value) ≡ pass.old.own) }
        ensures terms { IfOk result (λ held. Some (V.terms held.value) ≡ self.now.terms) }

        // No turn is left: the pass is marked for good.
        ensures worn { IfErr result (λ worn. IsToldWorn self.now pass.old pass.new worn.turns) }
        ensures not_worn { OnOk result (pass.old.worn ≡ false) }
    {
        let shared = &self.table.shared;
        match steps::draw(rt, shared, &mut pass.seat, self.most) {
            Ok(ticket) => {
                let value = steps::take(rt, shared, &mut pass.seat, ticket);
                let by = Snapshot::of(&*pass);
                Ok(Held { value, by })
            }
            Err(worn) => Err(worn),
        }
    }

    /// Passes the turn on, with one entry more in the story. The held is the one that this pass got last. It takes no
    /// memory.
    ///
    /// The story is the one that `hold` found with one entry more, of the pass's number, and the terms stand: this the
    /// caller has to show. The pass has then seen the whole story, in which the entries of its number are just its
    /// own, with the new one among them.
    pub fn pass_on(&self, pass: &mut Pass<V>, held: Held<V>)
        requires lock { pass.old.lock ≡ self.now }
        requires held { (held.by ≡ pass.old) × (pass.old.holds ≡ true) }
        requires story { HasOneMore V.caller pass.old.number pass.old.seen (V.story held.value) }
        requires terms { Some (V.terms held.value) ≡ self.now.terms }
        ensures pass { pass.new ≡ after_pass_on pass.old (V.story held.value) }
        ensures own { (e : V.Entry) → V.story held.value ≡ pass.old.seen ++ e ∷ []
            → pass.new.own ≡ pass.old.own ++ e ∷ [] }
        ensures whole { entries_of V.caller pass.new.number pass.new.seen ≡ pass.new.own }
    {
        let Held { value, by: _ } = held;
        steps::put_back(&self.table.shared, &mut pass.seat, value);
    }

    /// Takes a pass in. The root tells one receipt more: its number, its own entries, and whether it was ever answered
    /// `Worn`. What the root has seen goes on from what it had seen and from what the pass had. It takes no memory.
    pub fn join(&self, root: &mut Root<V>, pass: Pass<V>)
        requires lock { (root.old.lock ≡ self.now) × (pass.lock ≡ self.now) }
        requires idle { pass.holds ≡ false }
        ensures root { root.new ≡ after_join root.old pass }
        ensures seen { StartsWithBoth root.new.seen root.old.seen pass.seen }
    {
        let Pass { seat, number: _ } = pass;
        steps::take_in(&self.table.shared, &mut root.seat, seat);
        root.joined += 1;
    }

    /// Ends the lock, and gives the value back. It is asked once each pass was joined. It takes no memory.
    ///
    /// The value has the terms of the start. Its story goes on from what the root has seen, and has at most `most`
    /// entries, each of a caller who was admitted and has a receipt. The own entries of a receipt are all of its
    /// number. Where one is marked `Worn`, the story has just `most` entries.
    pub fn close(self, root: Root<V>) -> V
        requires lock { root.lock ≡ self }
        requires joined { length root.receipts ≡ root.admitted }
        ensures terms { Some (V.terms result) ≡ root.lock.terms }
        ensures seen { StartsWith (V.story result) root.seen }
        ensures own { All
            (λ receipt. entries_of V.caller receipt.number (V.story result) ≡ receipt.own) root.receipts }
        ensures room { length (V.story result) ≤ root.lock.most }
        ensures callers { All (λ e. V.caller e < root.admitted) (V.story result) }
        ensures others { All (λ e. HasReceipt root.receipts (V.caller e)) (V.story result) }
        ensures worn { All
            (λ receipt. receipt.worn ≡ true → length (V.story result) ≡ root.lock.most) root.receipts }
    {
        let Root {
            seat,
            admitted: _,
            joined: _,
        } = root;
        let Turn { table, most: _ } = self;
        let mut closed = table.close_with(seat);
        let value = closed.take(0);
        closed.free();
        value.unwrap()
    }
}
