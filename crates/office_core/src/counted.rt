// An office with the counter of its tests.

ghost use Rattle.std.specs.Prelude.{◌≡◌, ◌<◌, [], false, IfOk};
ghost use Rattle.clearance_rules.specs.Counters.{IsBlankOf};
ghost use Rattle.office_words.specs.declared.entry.Reply.TheVariants as reply;
ghost use Rattle.office_core.specs.Replies.{is_full};
ghost use Rattle.office_core.specs.Machine.{IsLegal, MayAsk};
ghost use Rattle.office_core.specs.Offices.{HasPlace, IsFull, entry, grown, machine_in};

use crate::office::Office;
use crate::readings::Readings;
use clearance_rules::Steps;
use names::NoMemory;
use office_words::{Call, Reply};
use std::alloc::Global;
use std::marker::Model;
use std::snapshot::Snapshot;
use std::sync::ledger::{Blank, Ledger};

/// An office with a counter of the segments that are tested in its turns. It is the one counter of this ledger, and is read behind
/// each entry.
///
/// Contracts see the office and the readings. From each reading to the next the counter rose by no more than the call of that entry
/// may cost, and after the last one nothing was counted.
#[derive(Drop)]
pub struct CountedOffice<L: Ledger> {
    office: Office,
    steps: Steps<L>,
    // A reading for each entry. They take no bytes.
    readings: Vec<Snapshot<Steps<L>>>,
}

impl<L: Ledger> Model for CountedOffice<L> {
    ghost use Rattle.office_core.specs.Counted.{Counted, IsCounted, counted_in};

    ghost Value = { Counted };

    ghost view = { counted_in };

    ghost invariant = { IsCounted };
}

impl<L: Ledger> CountedOffice<L> {
    ghost use Rattle.office_core.specs.Counted.{AreCounted, TestsFor};

    /// An office with no entry yet, and a counter that is made of the blank. `NoMemory` where no memory was left.
    pub fn new(alloc: Global, office: Office, blank: Blank) -> Result<CountedOffice<L>, NoMemory>
        requires counter { IsBlankOf L.name L.parts blank }
        requires opened { office.history ≡ [] }
        ensures office { IfOk result (λ counted. counted.office ≡ office) }
        ensures readings { IfOk result (λ counted. counted.readings ≡ []) }
    {
        let readings = Vec::with_capacity(alloc, office.most() as usize)?;
        Ok(CountedOffice {
            office,
            steps: Steps::new(blank),
            readings,
        })
    }

    /// An office that came back with its counter, to go on with both. `NoMemory` where no memory was left.
    pub fn resume(office: Office, counted: Readings<L>) -> Result<CountedOffice<L>, NoMemory>
        requires counted { AreCounted office counted }
        ensures office { IfOk result (λ resumed. resumed.office ≡ office) }
        ensures readings { IfOk result (λ resumed. resumed.readings ≡ counted) }
    {
        let Readings {
            steps,
            mut readings,
        } = counted;
        let room = office.most() as usize - office.history().len();
        readings.reserve(room)?;
        Ok(CountedOffice {
            office,
            steps,
            readings,
        })
    }

    /// The office. Takes no memory.
    pub fn office(&self) -> &Office
        ensures { result.now ≡ self.now.office }
    {
        &self.office
    }

    /// The office, and its counter with the readings.
    pub fn into_parts(self) -> (Office, Readings<L>)
        ensures office { result.0 ≡ self.office }
        ensures readings { result.1 ≡ self.readings }
        ensures counted { AreCounted result.0 result.1 }
    {
        let CountedOffice {
            office,
            steps,
            readings,
        } = self;
        (office, Readings { steps, readings })
    }

    /// Answers a call, as the office does, counts what it tests, and reads the counter.
    pub fn step(&mut self, caller: u32, call: Call) -> Reply
        requires caller { caller < 65536 }
        requires asked { MayAsk self.old.office.base (machine_in self.old.office) call }
        ensures full { IsFull self.old.office → result ≡ reply.Full self.old.office.most }
        ensures unchanged { IsFull self.old.office → self.new ≡ self.old }
        ensures not_full { HasPlace self.old.office → is_full result ≡ false }
        ensures grown { HasPlace self.old.office → self.new.office
            ≡ grown self.old.office (entry caller call result) }
        ensures legal { IsLegal self.new.office.base self.new.office.opening self.new.office.history }
        ensures cost { TestsFor self.old call self.new }
    {
        let is_full = self.office.is_full();
        let reply = self.office.step(caller, call, &mut self.steps);
        if !is_full {
            self.readings.push_reserved(Snapshot::of(&self.steps));
        }
        reply
    }
}
