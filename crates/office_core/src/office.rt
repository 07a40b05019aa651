// The office of one thread.

ghost use Rattle.std.specs.Prelude.{◌≡◌, ◌<◌, ◌≤◌, All, IfOk, IfSome, false, is_some, length, nat_le};
ghost use Rattle.std.specs.Arc.{arc_value};
ghost use Rattle.restriction_log.specs.States.{AreOf};
ghost use Rattle.permit_book.specs.Permits.{is_issued, permit_of};
ghost use Rattle.office_words.specs.declared.entry.Reply.TheVariants as reply;
ghost use Rattle.office_core.specs.Replies.{is_full};
ghost use Rattle.office_core.specs.Machine.{IsLegal, MayAsk, state_in, version_of};
ghost use Rattle.office_core.specs.Costs.{IsCost};
ghost use Rattle.office_core.specs.Offices.{HasPlace, IsFull, IsStep, entry, grown, machine_in, newly_opened, stored_in_office};
ghost use Rattle.office_core.specs.Promises.{KeepsPromises};
ghost use Rattle.office_core.specs.Recalled.{RecalledWereIssued};

use crate::register::Register;
use clearance_rules::Steps;
use names::NoMemory;
use office_words::{Call, Entry, Reply};
use permit_book::Permit;
use permit_days::Day;
use restriction_log::State;
use snapshot_store::Snapshot;
use std::alloc::Global;
use std::marker::Model;
use std::sync::Arc;
use std::sync::ledger::Ledger;
use trip_analysis::Base;

/// A permit office that one thread calls.
///
/// Contracts see what it is about, the day on which it opened, the most entries that its history may hold, and its history.
/// Its version, its day and its permits are those that the history leaves.
#[derive(Drop)]
pub struct Office {
    register: Register,
    opening: Day,
    most: u32,
    // with room for `most` entries
    history: Vec<Entry>,
}

impl Model for Office {
    ghost use Rattle.office_core.specs.Offices.{IsOffice, Opened, seen_of};

    ghost Value = { Opened };

    ghost view = { seen_of };

    ghost invariant = { IsOffice };
}

impl Office {
    /// An office about this base, which opens on this day, with room for so many entries. No later call can lack memory for
    /// its entry. `NoMemory` where no memory was left.
    pub fn start(
        alloc: Global,
        base: Arc<Base, Global>,
        day: Day,
        most: u32,
    ) -> Result<Office, NoMemory>
        requires some { 1 ≤ most }
        requires bounded { most ≤ 1000000 }
        ensures { IfOk result (λ office. office ≡ newly_opened (arc_value base) day most) }
    {
        let register = Register::open(alloc, base, day)?;
        let history = Vec::with_capacity(alloc, most as usize)?;
        Ok(Office {
            register,
            opening: day,
            most,
            history,
        })
    }

    /// Answers a call, and adds its entry to the history. The answer is `Full` exactly where the history holds the most
    /// entries that it may, and then nothing changes and nothing is tested.
    ///
    /// Else the history has one entry more, of this caller, this call and this reply, and all else stands. The entry is a
    /// step of the machine from what the history left, and the history is legal.
    pub fn step<L: Ledger>(&mut self, caller: u32, call: Call, steps: &mut Steps<L>) -> Reply
        requires caller { caller < 65536 }
        requires asked { MayAsk self.old.base (machine_in self.old) call }
        ensures full { IsFull self.old → result ≡ reply.Full self.old.most }
        ensures unchanged { IsFull self.old → self.new ≡ self.old }
        ensures not_full { HasPlace self.old → is_full result ≡ false }
        ensures grown { HasPlace self.old → self.new ≡ grown self.old (entry caller call result) }
        ensures step { HasPlace self.old → IsStep self.old (entry caller call result) self.new }
        ensures legal { IsLegal self.new.base self.new.opening self.new.history }
        // For a proposal at most so many segments are tested: the places of its routes, or the segments out of its cut,
        // that changed after the version that it names, and one more. For a posting it is at most one for each permit that
        // uses its segment, and for what the office finds itself at most what finding takes. Other calls test none.
        ensures cost { IsCost self.old.base (machine_in self.old) call steps.old steps.new }
        ensures untested { IsFull self.old → steps.new ≡ steps.old }
    {
        if self.history.len() >= self.most as usize {
            return Reply::Full { entries: self.most };
        }
        let answer = self.register.answer(caller, &call, steps);
        let (reply, told) = answer.into_replies();
        let entry = Entry {
            caller,
            call,
            reply,
        };
        self.history.push_reserved(entry);
        told
    }

    /// The most entries that its history may hold. Takes no memory.
    pub fn most(&self) -> u32
        ensures value { result ≡ self.now.most }
        ensures bounded { result ≤ 1000000 }
    {
        self.most
    }

    /// Whether the history holds as many. Takes no memory.
    pub fn is_full(&self) -> bool
        ensures { result ≡ nat_le self.now.most (length self.now.history) }
    {
        self.most as usize <= self.history.len()
    }

    /// The entries so far, at most 1,000,000, which keep all that every legal history promises, each of a caller below 65,536.
    /// Each number that a posting recalls was issued by just one entry before it, for a truck that is there. Takes no memory.
    pub fn history(&self) -> &[Entry]
        ensures entries { result.now ≡ self.now.history }
        ensures legal { IsLegal self.now.base self.now.opening self.now.history }
        ensures promises { KeepsPromises self.now.base self.now.opening self.now.history }
        ensures recalled { RecalledWereIssued self.now.base self.now.history }
        ensures callers { All (λ e. e.caller < 65536) self.now.history }
        ensures few { length self.now.history ≤ 1000000 }
    {
        self.base().lists_are_in_order();
        self.history.as_slice()
    }

    /// What the office is about. Takes no memory.
    pub fn base(&self) -> &Base
        ensures { result.now ≡ self.now.base }
    {
        self.register.base()
    }

    /// What the office is about, with one more owner: for an audit of its history, say. `NoMemory` where no further owner can be
    /// had.
    pub fn share_base(&self) -> Result<Arc<Base, Global>, NoMemory>
        ensures { IfOk result (λ base. arc_value base ≡ self.now.base) }
    {
        self.register.share_base()
    }

    /// What is in force on the roads. Takes no memory.
    pub fn state(&self) -> &State
        ensures value { result.now ≡ state_in self.now.base (machine_in self.now) }
        ensures of_base { AreOf self.now.base.roads result.now }
    {
        self.register.state()
    }

    /// The current version, as one more owner of its state. Adds no entry. `NoMemory` where no further owner can be had.
    pub fn snapshot(&self) -> Result<Snapshot, NoMemory>
        ensures { IfOk result (λ snapshot. snapshot ≡ stored_in_office self.now) }
    {
        self.register.snapshot()
    }

    /// The number of the last posting. Takes no memory.
    pub fn version(&self) -> u32
        ensures { result ≡ version_of (machine_in self.now) }
    {
        self.register.version()
    }

    /// The day that it is. Takes no memory.
    pub fn today(&self) -> Day
        ensures { result ≡ (machine_in self.now).day }
    {
        self.register.today()
    }

    /// The permit of this number, or none where no such permit was issued. Takes no memory.
    pub fn permit(&self, number: u32) -> Option<&Permit>
        ensures issued { is_some result ≡ is_issued (machine_in self.now).permits number }
        ensures permit { IfSome result (λ p. p.now ≡ permit_of (machine_in self.now).permits number) }
    {
        self.register.permit(number)
    }
}
