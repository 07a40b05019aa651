// An office under a lock, with the counter of its tests.

ghost use Rattle.std.specs.Prelude.{◌≡◌, ◌<◌, false};
ghost use Rattle.office_words.specs.declared.entry.Call.TheVariants as calls;
ghost use Rattle.office_words.specs.declared.entry.Reply.TheVariants as reply;
ghost use Rattle.office_core.specs.Replies.{is_full};
ghost use Rattle.office_core.specs.Counted.{CountsTurn};
ghost use Rattle.office_core.specs.Machine.{IsLegal, MayAsk, version_of};
ghost use Rattle.office_core.specs.Offices.{HasPlace, entry, grown, machine_in};
ghost use Rattle.office_desk.specs.Desks.{HandsOut};

use names::NoMemory;
use office_core::{CountedOffice, Looked};
use office_turn::Storied;
use office_words::{Call, Entry, Reply};
use permit_days::Day;
use std::sync::ledger::Ledger;
use trip_analysis::Base;

/// An office under a lock, with the counter of what is tested in its turns. Its story is its history, and its terms are what it
/// is about, the day on which it opened and the most entries that its history may hold.
#[derive(Drop)]
pub struct SharedOffice<L: Ledger> {
    pub(crate) counted: CountedOffice<L>,
}

impl<L: Ledger> Storied for SharedOffice<L> {
    ghost use Rattle.office_desk.specs.Desks.{terms_of};

    type Entry = Entry;

    type Terms = (Base, Day, u32);

    ghost caller = { λ e. e.caller };

    ghost story = { λ d. d.counted.office.history };

    ghost terms = { λ d. terms_of d.counted.office };
}

impl<L: Ledger> SharedOffice<L> {
    // Answers a call and adds its entry.
    pub(crate) fn step(&mut self, caller: u32, call: Call) -> Reply
        requires caller { caller < 65536 }
        requires place { HasPlace self.old.counted.office }
        requires asked { MayAsk self.old.counted.office.base (machine_in self.old.counted.office) call }
        ensures not_full { is_full result ≡ false }
        ensures grown { self.new.counted.office ≡ grown self.old.counted.office (entry caller call result) }
        ensures legal { IsLegal self.new.counted.office.base self.new.counted.office.opening
            self.new.counted.office.history }
        ensures cost { CountsTurn self.old.counted call self.new.counted }
    {
        self.counted.step(caller, call)
    }

    // Looks at the office: adds an entry of it, and hands out what is then posted. It tests nothing.
    pub(crate) fn look(&mut self, caller: u32) -> Looked
        requires caller { caller < 65536 }
        requires place { HasPlace self.old.counted.office }
        ensures out { HandsOut result self.new.counted.office }
        ensures grown { self.new.counted.office ≡ grown self.old.counted.office
            (entry caller calls.Snapshot (reply.SnapshotAt (version_of (machine_in self.new.counted.office)))) }
        ensures legal { IsLegal self.new.counted.office.base self.new.counted.office.opening
            self.new.counted.office.history }
        ensures cost { CountsTurn self.old.counted calls.Snapshot self.new.counted }
    {
        drop(self.step(caller, Call::Snapshot));
        match self.counted.office().snapshot() {
            Ok(snapshot) => Looked::At(snapshot),
            Err(NoMemory) => Looked::NoMemory,
        }
    }
}
