// A pass with its desk, as the calls of one caller.

ghost use Rattle.std.specs.Prelude.{◌≡◌};
ghost use Rattle.office_turn.specs.Told.{IsReady};

use crate::desk::{Desk, Pass};
use office_core::{Looked, OfficeCalls};
use office_words::{Call, Reply};
use std::sync::Wait;
use std::sync::ledger::Ledger;

/// One caller at a desk. It ends in [`Seat::into_pass`].
pub struct Seat<'a, R: Wait, L: Ledger> {
    rt: &'a R,
    desk: &'a Desk<L>,
    pass: Pass<L>,
    ghost ready: { IsReady desk.now pass },
}

impl<'a, R: Wait, L: Ledger> Seat<'a, R, L> {
    /// The calls that are made of the desk with this pass.
    pub fn new(rt: &'a R, desk: &'a Desk<L>, pass: Pass<L>) -> Seat<'a, R, L>
        requires { IsReady desk.now pass }
        ensures pass { result.pass ≡ pass }
        ensures desk { result.desk.now ≡ desk.now }
    {
        Seat { rt, desk, pass }
    }

    /// The pass, which has seen and added what these calls have.
    pub fn into_pass(self) -> Pass<L>
        ensures pass { result ≡ self.entry.pass }
        ensures ready { IsReady self.entry.desk.now result }
    {
        let Seat {
            rt: _,
            desk: _,
            pass,
        } = self;
        pass
    }
}

impl<R: Wait, L: Ledger> OfficeCalls for Seat<'_, R, L> {
    ghost use Rattle.office_desk.specs.Desks.{calls_with_pass};

    type Place = Desk<L>;

    ghost view = { λ s. calls_with_pass s.pass };

    fn snapshot(&mut self) -> Looked {
        self.desk.snapshot(self.rt, &mut self.pass)
    }

    fn ask(&mut self, asked: Call) -> Reply {
        self.desk.ask(self.rt, &mut self.pass, asked)
    }
}
