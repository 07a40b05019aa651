// How an office answers a call.

ghost use Rattle.std.specs.Prelude.{◌≡◌, IfOk, OnErr};
ghost use Rattle.office_core.specs.Machine.{HasRoom, IsAnswer, MayAsk};
ghost use Rattle.office_core.specs.Registers.{Costs, Gives, LeavesParts, MayLack};

use crate::answer::Answer;
use crate::register::Register;
use clearance_rules::Steps;
use names::NoMemory;
use office_words::{Call, Reply};
use std::sync::ledger::Ledger;

impl Register {
    /// Answers a call. Where memory was wanting, the answer says so and nothing has changed.
    pub(crate) fn answer<L: Ledger>(
        &mut self,
        caller: u32,
        call: &Call,
        steps: &mut Steps<L>,
    ) -> Answer
        requires asked { MayAsk self.old.base self.old.machine call.now }
        requires room { HasRoom self.old.machine }
        ensures base { self.new.base ≡ self.old.base }
        ensures answer { IsAnswer self.old.base self.old.machine caller call.now result }
        ensures after { LeavesParts self.old caller call.now self.new result }
        ensures cost { Costs self.old call.now steps.old steps.new }
    {
        match self.given(caller, call, steps) {
            Ok(answer) => answer,
            Err(NoMemory) => Answer::plain(Reply::NoMemory),
        }
    }

    // Answers a call, where memory suffices.
    fn given<L: Ledger>(
        &mut self,
        caller: u32,
        call: &Call,
        steps: &mut Steps<L>,
    ) -> Result<Answer, NoMemory>
        requires asked { MayAsk self.old.base self.old.machine call.now }
        requires room { HasRoom self.old.machine }
        ensures base { self.new.base ≡ self.old.base }
        ensures given { IfOk result (Gives self.old caller call.now) }
        ensures after { IfOk result (LeavesParts self.old caller call.now self.new) }
        ensures unchanged { OnErr result (self.new ≡ self.old) }
        ensures lack { OnErr result (MayLack self.old call.now) }
        ensures cost { Costs self.old call.now steps.old steps.new }
    {
        match call {
            Call::Snapshot => {
                let version = self.version();
                Ok(Answer::plain(Reply::SnapshotAt { version }))
            }
            Call::Submit {
                application,
                proposal,
            } => self.submit(caller, application, proposal, steps),
            Call::Held { application } => self.held(caller, application, steps),
            Call::Post { change } => self.post(change, steps),
            Call::Day { day } => Ok(self.set_day(*day)),
            Call::Surrender { number } => Ok(self.surrender(caller, *number)),
            Call::Show { number } => Ok(self.show(*number)),
        }
    }
}
