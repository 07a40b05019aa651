// The desk that applies again.

ghost use Rattle.std.specs.Prelude.{◌≡◌, ◌<◌, ◌+◌, ◌∷◌, [], false, ℕ, Some, length, get_or, IfErr, IfOk, OnOk};
ghost use Rattle.permit_days.specs.Days.{is_before};
ghost use Rattle.reroute_desk.specs.Issues.{recalled_in};
ghost use Rattle.reroute_desk.specs.Replacements.{again_behind, renewed};
ghost use Rattle.reroute_desk.specs.Desks.{AnswersRenewal, HasGoneOn, HasHandledAll, IsNext, IsRerouteCause, KeepsUp, office_day, is_ended, kept_reply, new_desk, refusal_reply};

use crate::handled::{Handled, HandledAs};
use crate::notes::Notes;
use crate::refusal::RerouteRefusal;
use office_core::CountedOffice;
use office_words::{Call, Reply};
use permit_days::Day;
use std::alloc::Global;
use std::marker::Model;
use std::sync::ledger::Ledger;
use trip_analysis::Application;

/// A desk that applies again for each permit that was recalled, once.
///
/// Contracts see whose calls it makes, what it has handled, and what it has noted of the history of the office.
#[derive(Drop)]
pub struct Rerouter {
    caller: u32,
    handled: Vec<Handled>,
    notes: Notes,
}

impl Model for Rerouter {
    ghost use Rattle.reroute_desk.specs.Desks.{Desk, desk_of};

    ghost Value = { Desk };

    ghost view = { desk_of };
}

impl Rerouter {
    /// A desk that makes the calls of this caller, and has handled nothing. Takes no memory.
    pub fn new(alloc: Global, caller: u32) -> Rerouter
        ensures { result ≡ new_desk caller }
    {
        Rerouter {
            caller,
            handled: Vec::new(alloc),
            notes: Notes::new(alloc),
        }
    }

    /// What was handled, one item for each recalled permit, in the order of the recalls. Takes no memory.
    pub fn handled(&self) -> &[Handled]
        ensures { result.now ≡ self.now.handled }
    {
        self.handled.as_slice()
    }

    /// Handles each permit that was recalled and is not handled yet, in the order of the recalls. Whatever is answered, the desk
    /// keeps up with the office, and a later call goes on with the first permit that is left.
    ///
    /// Refusals: `Full` where the history holds the most entries that it may and the next permit has not expired, and `NoMemory`.
    pub fn catch_up<L: Ledger>(
        &mut self,
        office: &mut CountedOffice<L>,
    ) -> Result<(), RerouteRefusal>
        requires { KeepsUp self.old office.old.office }
        ensures gone { HasGoneOn self.old office.old.office result self.new office.new.office }
        ensures all { OnOk result (HasHandledAll self.new office.new.office) }
        ensures refused { IfErr result (IsRerouteCause self.new office.new.office) }
    {
        self.notes.read_on(office.office().history())?;
        let count = self.notes.recalled().len();
        'permits: for at in self.handled.len()..count {
            let old = self.notes.recalled()[at];
            self.handle(office, old)?;
        }
        Ok(())
    }

    // Handles the first permit that is left.
    fn handle<L: Ledger>(
        &mut self,
        office: &mut CountedOffice<L>,
        old: u32,
    ) -> Result<(), RerouteRefusal>
        requires kept { KeepsUp self.old office.old.office }
        requires read { self.old.notes.recalled ≡ recalled_in office.old.office.history }
        requires left { IsNext self.old office.old.office old }
        ensures gone { HasGoneOn self.old office.old.office result self.new office.new.office }
        ensures one { OnOk result (length self.new.handled ≡ length self.old.handled + 1) }
        ensures notes { self.new.notes ≡ self.old.notes }
        ensures refused { IfErr result (IsRerouteCause self.new office.new.office) }
    {
        // what the office promises of its history
        let _history = office.office().history();
        let today = office.office().today();
        let Some(trip) = self.notes.trip(old) else {
            unreachable!()
        };
        if trip.last() < today {
            self.handled.reserve(1)?;
            let what = HandledAs::Ended;
            self.handled.push_reserved(Handled { old, what });
            return Ok(());
        }
        let trip = renewed(trip, today);
        self.apply_again(office, old, trip)
    }

    // Applies for the first permit that is left once more, with this application.
    fn apply_again<L: Ledger>(
        &mut self,
        office: &mut CountedOffice<L>,
        old: u32,
        trip: Application,
    ) -> Result<(), RerouteRefusal>
        requires kept { KeepsUp self.old office.old.office }
        requires next { IsNext self.old office.old.office old }
        requires trip { again_behind office.old.office.opening office.old.office.history old ≡ Some trip }
        requires in_time { is_before trip.last (office_day office.old.office) ≡ false }
        ensures gone { HasGoneOn self.old office.old.office result self.new office.new.office }
        ensures one { OnOk result (length self.new.handled ≡ length self.old.handled + 1) }
        ensures notes { self.new.notes ≡ self.old.notes }
        ensures refused { IfErr result (IsRerouteCause self.new office.new.office) }
    {
        // what the office promises of its history, and of the roads and trucks
        let _history = office.office().history();
        office.office().base().lists_are_in_order();
        self.handled.reserve(1)?;
        match kept(office.step(self.caller, Call::Held { application: trip })) {
            Ok(what) => {
                self.handled.push_reserved(Handled { old, what });
                Ok(())
            }
            Err(refusal) => Err(refusal),
        }
    }
}

// An application once more: along any route, and from today on where its first day has passed.
fn renewed(trip: &Application, today: Day) -> Application
    ensures { result ≡ renewed today trip.now }
{
    let first = trip.first();
    let first = if first < today { today } else { first };
    Application::of_fields(
        trip.truck(),
        trip.from(),
        trip.to(),
        None,
        first,
        trip.last(),
    )
}

// What is kept of the answer to an application that was made once more.
fn kept(answer: Reply) -> Result<HandledAs, RerouteRefusal>
    requires { AnswersRenewal answer }
    ensures kept { IfOk result (λ what. kept_reply what ≡ Some answer) }
    ensures not_ended { IfOk result (λ what. is_ended what ≡ false) }
    ensures refused { IfErr result (λ refusal. refusal_reply refusal ≡ answer) }
{
    match answer {
        Reply::Issued {
            number,
            version,
            routes,
        } => Ok(HandledAs::Replaced {
            number,
            version,
            routes,
        }),
        Reply::Refused { version, limit } => Ok(HandledAs::Refused { version, limit }),
        Reply::Full { entries } => Err(RerouteRefusal::Full { entries }),
        Reply::NoMemory => Err(RerouteRefusal::NoMemory),
        _ => unreachable!(),
    }
}
