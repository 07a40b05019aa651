//! A value under a turn, and a caller that takes turns with it, as the crates above write theirs. The tests run both.
ghost use Rattle.std.specs.Prelude.{◌≡◌, ◌<◌, ◌≤◌, false, [], ◌∷◌, ◌++◌, Some, length, vec_capacity, IfOk, IfErr, OnOk};
ghost use Rattle.office_turn.specs.Told.{IsToldWorn};

use crate::pass::Pass;
use crate::story::Storied;
use crate::turn::{NoMemory, Turn, Worn};
use std::alloc::Global;
use std::sync::Wait;

/// A value with a story, as an example: pairs of a caller and a number. The room for them is taken at the start.
#[derive(Drop)]
pub struct Notes {
    pub pairs: Vec<(u32, u32)>,
    pub room: u32,
    ghost has_room: { room ≤ vec_capacity pairs },
}

impl Storied for Notes {
    type Entry = (u32, u32);

    type Terms = u32;

    ghost caller = { λ e. e.0 };

    ghost story = { λ n. n.pairs.items };

    ghost terms = { λ n. n.room };
}

impl Notes {
    /// No pairs yet, and room for so many.
    pub fn new(alloc: Global, room: u32) -> Result<Notes, NoMemory>
        ensures { IfOk result (λ n. (n.pairs.items ≡ []) × (n.room ≡ room)) }
    {
        let pairs = Vec::with_capacity(alloc, room as usize)?;
        Ok(Notes { pairs, room })
    }

    fn note(&mut self, caller: u32, number: u32)
        requires { length self.old.pairs.items < self.old.room }
        ensures pairs { self.new.pairs.items ≡ self.old.pairs.items ++ (caller, number) ∷ [] }
        ensures room { self.new.room ≡ self.old.room }
    {
        self.pairs.push_reserved((caller, number));
    }
}

/// Takes one turn, and notes a number in it: the pass's own entries grow by just that, or it is told that the lock is worn. The
/// lock gives as many turns as the notes have room.
pub fn note_once<R: Wait>(
    rt: &R,
    turn: &Turn<Notes>,
    pass: &mut Pass<Notes>,
    number: u32,
) -> Result<(), Worn>
    requires lock { pass.old.lock ≡ turn.now }
    requires tied { turn.now.terms ≡ Some turn.now.most }
    requires idle { pass.old.holds ≡ false }
    ensures own { OnOk result (pass.new.own ≡ pass.old.own ++ (pass.old.number, number) ∷ []) }
    ensures worn { IfErr result (λ worn. IsToldWorn turn.now pass.old pass.new worn.turns) }
    ensures same { (pass.new.lock ≡ pass.old.lock)
        × (pass.new.number ≡ pass.old.number) × (pass.new.holds ≡ false) }
{
    let mut held = turn.hold(rt, pass)?;
    held.value().note(pass.number(), number);
    turn.pass_on(pass, held);
    Ok(())
}
