// What an office keeps, gone through again by whoever reads its history.

ghost use Rattle.std.specs.Prelude.{◌≡◌, ◌<◌, length, is_none, IfOk};
ghost use Rattle.std.specs.Arc.{arc_value};
ghost use Rattle.restriction_log.specs.States.{AreOf};
ghost use Rattle.office_core.specs.Machine.{HasRoom, IsAnswer, IsFound, MayAsk, may_lack, opened, reply_in, state_in, version_of};
ghost use Rattle.office_core.specs.Replies.{early_reply, is_issue};
ghost use Rattle.office_core.specs.Registers.{LeavesParts, stored_now};

use crate::register::Register;
use clearance_rules::Steps;
use names::NoMemory;
use office_words::{Call, Reply};
use permit_book::Permit;
use permit_days::Day;
use restriction_log::{State, takes};
use snapshot_store::Snapshot;
use std::alloc::Global;
use std::marker::Model;
use std::sync::Arc;
use std::sync::ledger::Ledger;
use trip_analysis::{Application, Base, Proposal, TruckOn, What};

/// What an office keeps, without its history: whoever reads a history asks its calls again, and compares.
///
/// Contracts see what it is about, and the machine: the postings, the permits and the day.
#[derive(Drop)]
pub struct Replay {
    register: Register,
}

impl Model for Replay {
    ghost use Rattle.office_core.specs.Registers.{RegisterParts};

    ghost Value = { RegisterParts };

    ghost view = { λ r. r.register };
}

impl Replay {
    /// What an office about this base keeps that opens on this day. `NoMemory` where no memory was left.
    pub fn open(alloc: Global, base: Arc<Base, Global>, day: Day) -> Result<Replay, NoMemory>
        ensures base { IfOk result (λ replay. replay.base ≡ arc_value base) }
        ensures machine { IfOk result (λ replay. replay.machine ≡ opened day) }
    {
        let register = Register::open(alloc, base, day)?;
        Ok(Replay { register })
    }

    /// The number of the last posting. Takes no memory.
    pub fn version(&self) -> u32
        ensures { result ≡ version_of self.now.machine }
    {
        self.register.version()
    }

    /// The current version, as one more owner of its state. `NoMemory` where no further owner can be had.
    pub fn snapshot(&self) -> Result<Snapshot, NoMemory>
        ensures { IfOk result (λ snapshot. snapshot ≡ stored_now self.now) }
    {
        self.register.snapshot()
    }

    /// What is in force on the roads. Takes no memory.
    pub fn state(&self) -> &State
        ensures value { result.now ≡ state_in self.now.base self.now.machine }
        ensures of_base { AreOf self.now.base.roads result.now }
    {
        self.register.state()
    }

    /// The day that it is. Takes no memory.
    pub fn today(&self) -> Day
        ensures { result ≡ self.now.machine.day }
    {
        self.register.today()
    }

    /// All permits, in the order of their numbers. Takes no memory.
    pub fn permits(&self) -> &[Permit]
        ensures { result.now ≡ self.now.machine.permits }
    {
        self.register.permits()
    }

    /// Answers a call, as the office does. Where memory was wanting, the answer says so and nothing has changed.
    pub fn answer<L: Ledger>(&mut self, caller: u32, call: &Call, steps: &mut Steps<L>) -> Reply
        requires asked { MayAsk self.old.base self.old.machine call.now }
        requires room { HasRoom self.old.machine }
        ensures base { self.new.base ≡ self.old.base }
        ensures answer { IsAnswer self.old.base self.old.machine caller call.now result }
        ensures after { LeavesParts self.old caller call.now self.new result }
    {
        let answer = self.register.answer(caller, call, steps);
        let (reply, _told) = answer.into_replies();
        reply
    }

    /// Whether want of memory may be the answer to a call. A look, which changes nothing and takes no memory.
    pub fn may_lack<L: Ledger>(&self, call: &Call, steps: &mut Steps<L>) -> bool
        requires { MayAsk self.now.base self.now.machine call.now }
        ensures { result ≡ may_lack self.now.base self.now.machine call.now }
    {
        match call {
            Call::Submit {
                application,
                proposal,
            } => self.would_issue(application, proposal, steps),
            Call::Held { application } => self.register.early_answer(application).is_none(),
            Call::Post { change } => takes(self.register.base().network(), change),
            _ => false,
        }
    }

    // Whether the answer to a proposal would issue a permit.
    #[tactic(auto, using(crate::proofs::Founds::found_in_range))]
    fn would_issue<L: Ledger>(
        &self,
        application: &Application,
        proposal: &Proposal,
        steps: &mut Steps<L>,
    ) -> bool
        requires { IsFound self.now.base self.now.machine application.now proposal.now }
        ensures { result
            ≡ is_issue (reply_in self.now.base self.now.machine application.now proposal.now.what) }
    {
        if self.register.early_answer(application).is_some() {
            return false;
        }
        let (base, state) = (self.register.base(), self.register.state());
        let truck = application.truck();
        let on = TruckOn { base, state, truck };
        match &proposal.what {
            What::Route(routes) => on.first_on(routes.all(), steps).is_none(),
            _ => false,
        }
    }
}
