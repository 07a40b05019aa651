// Answers to a day, a look at a permit and a surrender.

ghost use Rattle.std.specs.Prelude.{◌≡◌};
ghost use Rattle.office_words.specs.declared.entry.Call.TheVariants as call;
ghost use Rattle.office_core.specs.Replies.{day_reply, show_reply};
ghost use Rattle.office_core.specs.Machine.{with_day};
ghost use Rattle.office_core.specs.Registers.{Gives, LeavesParts};

use crate::answer::Answer;
use crate::register::Register;
use office_words::Reply;
use permit_days::Day;

impl Register {
    /// Takes a day that is not before the kept one. Takes no memory.
    pub(crate) fn set_day(&mut self, day: Day) -> Answer
        ensures base { self.new.base ≡ self.old.base }
        ensures given { result ≡ day_reply self.old.machine.day day }
        ensures after { self.new.machine ≡ with_day self.old.machine result }
    {
        let today = self.today();
        if day < today {
            return Answer::plain(Reply::DayBack { day: today });
        }
        self.keep_day(day);
        Answer::plain(Reply::DayIs { day })
    }

    /// Tells what a permit says. Takes no memory.
    pub(crate) fn show(&self, number: u32) -> Answer
        ensures { result ≡ show_reply self.now.machine.permits self.now.machine.day number }
    {
        let Some(permit) = self.permit(number) else {
            return Answer::plain(Reply::Unknown);
        };
        Answer::plain(Reply::Shown {
            number,
            caller: permit.trip.caller,
            truck: permit.trip.truck,
            first: permit.trip.first,
            last: permit.trip.last,
            version: permit.version,
            seen: permit.seen,
            status: permit.status(self.today()),
        })
    }

    /// Takes back a permit in force of this caller. Takes no memory.
    #[tactic(auto, using(crate::proofs::Forces::live_in_force))]
    pub(crate) fn surrender(&mut self, caller: u32, number: u32) -> Answer
        ensures base { self.new.base ≡ self.old.base }
        ensures given { Gives self.old caller (call.Surrender number) result }
        ensures after { LeavesParts self.old caller (call.Surrender number) self.new result }
    {
        let Some(permit) = self.permit(number) else {
            return Answer::plain(Reply::Unknown);
        };
        if permit.trip.caller != caller {
            return Answer::plain(Reply::NotYours);
        }
        let status = permit.status(self.today());
        if !status.is_in_force() {
            return Answer::plain(Reply::NotInForce { status });
        }
        self.take_back(number);
        Answer::plain(Reply::Surrendered)
    }
}
