// The calls of one caller, of an office on one thread.

ghost use Rattle.std.specs.Prelude.{◌≡◌, ◌<◌};

use crate::calls::{Looked, OfficeCalls};
use crate::counted::CountedOffice;
use names::NoMemory;
use office_words::{Call, Reply};
use std::sync::ledger::Ledger;

/// One caller of an office that nobody else calls meanwhile.
///
/// Once the seat is gone, the office's history is the one that the caller has seen. What the office tests meanwhile is counted.
#[derive(Drop)]
pub struct OneSeat<'a, L: Ledger> {
    office: &'a mut CountedOffice<L>,
    caller: u32,
    ghost few_callers: { caller < 65536 },
}

impl<'a, L: Ledger> OneSeat<'a, L> {
    ghost use Rattle.office_core.specs.Machine.{MayAsk};
    ghost use Rattle.office_core.specs.Offices.{machine_in};
    ghost use Rattle.office_core.specs.Calls.{Answered};
    ghost use Rattle.office_core.specs.Seats.{IsCostOf, calls_of};

    /// The calls of this caller, who is numbered below 65,536.
    pub fn new(office: &'a mut CountedOffice<L>, caller: u32) -> OneSeat<'a, L>
        requires { caller < 65536 }
        ensures reference { result.office.ghost_name ≡ office.entry.ghost_name }
        ensures office { result.office.now ≡ office.old }
        ensures caller { result.caller ≡ caller }
    {
        OneSeat { office, caller }
    }

    // Asks a call.
    fn step(&mut self, call: Call) -> Reply
        requires { MayAsk self.old.office.now.office.base (machine_in self.old.office.now.office) call }
        ensures answered { Answered (calls_of self.old) call result (calls_of self.new) }
        ensures cost { IsCostOf self.old call self.new }
    {
        self.office.step(self.caller, call)
    }
}

impl<'a, L: Ledger> OfficeCalls for OneSeat<'a, L> {
    ghost use Rattle.office_words.specs.declared.entry.Call.TheVariants as call;
    ghost use Rattle.office_core.specs.Machine.{MayAsk};
    ghost use Rattle.office_core.specs.Calls.{Answered, Looks, machine_seen};
    ghost use Rattle.office_core.specs.Seats.{IsCostOf, calls_of};

    type Place = ();

    ghost view = { calls_of };

    fn snapshot(&mut self) -> Looked
        ensures looks { Looks (calls_of self.old) result (calls_of self.new) }
        ensures cost { IsCostOf self.old call.Snapshot self.new }
    {
        if let Reply::Full { entries } = self.step(Call::Snapshot) {
            return Looked::Full { entries };
        }
        match self.office.office().snapshot() {
            Ok(snapshot) => Looked::At(snapshot),
            Err(NoMemory) => Looked::NoMemory,
        }
    }

    fn ask(&mut self, asked: Call) -> Reply
        requires { MayAsk (calls_of self.old).who.base (machine_seen (calls_of self.old)) asked }
        ensures answered { Answered (calls_of self.old) asked result (calls_of self.new) }
        ensures cost { IsCostOf self.old asked self.new }
    {
        self.step(asked)
    }
}
