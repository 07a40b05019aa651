// An office that nobody else calls.

ghost use Rattle.std.specs.Prelude.{◌≡◌, ◌<◌, ◌≤◌, IfOk, OnOk};
ghost use Rattle.road_graph.specs.Roads.{IsRoads};
ghost use Rattle.office_words.specs.Commands.{MayCarryOut};
ghost use Rattle.office_core.specs.Offices.{newly_opened};
ghost use Rattle.day_trial.specs.Blanks.{AreBlanks};
ghost use Rattle.day_trial.specs.Serving.{WasCarriedOut};

use crate::blanks::Blanks;
use analyst_pool::{Errand, Finder, OpenGate, carry_out};
use day_text::{DayFile, Order, prepare};
use names::NoMemory;
use office_core::{CountedOffice, Office, OneSeat};
use office_words::Reply;
use permit_days::Day;
use std::alloc::Global;
use std::marker::Model;
use std::sync::Arc;
use std::sync::ledger::Ledger;
use trip_analysis::Base;

/// An office that carries out commands one after another, which nobody calls meanwhile: with its counter, with what it is about,
/// and with who finds what applications need.
///
/// Contracts see the office. At all times it is about that base, and what is known of its trucks is of a version that it has or
/// had.
#[derive(Drop)]
pub struct LoneOffice<F: Ledger, O: Ledger> {
    /// For whoever calls it in between, and leaves it with a history that goes on from the one before.
    pub office: CountedOffice<O>,
    base: Arc<Base, Global>,
    finder: Finder<F>,
}

impl<F: Ledger, O: Ledger> Model for LoneOffice<F, O> {
    ghost use Rattle.office_core.specs.Offices.{Opened};
    ghost use Rattle.day_trial.specs.LoneOffices.{IsAboutBase, office_in};

    ghost Value = { Opened };

    ghost view = { office_in };

    ghost invariant = { IsAboutBase };
}

impl<F: Ledger, O: Ledger> LoneOffice<F, O> {
    /// An office about the roads and trucks of this file, which opens on its day, with room for so many entries; and the file's
    /// commands. Its base keeps what is the same for all of them. `NoMemory` where no memory was left.
    pub fn open(
        alloc: Global,
        file: DayFile,
        most: u32,
        blanks: Blanks,
    ) -> Result<(LoneOffice<F, O>, Vec<Order>), NoMemory>
        requires some { 1 ≤ most }
        requires bounded { most ≤ 1000000 }
        requires blanks { AreBlanks F.name F.parts O.name O.parts blanks }
        ensures office { IfOk result (λ opened. opened.0 ≡ newly_opened file.base file.day most) }
        ensures orders { IfOk result (λ opened. opened.1.items ≡ file.commands) }
        ensures roads { OnOk result (IsRoads file.base.roads) }
    {
        let (base, day, actors, orders) = prepare(alloc, file)?.into_parts();
        drop(actors);
        base.lists_are_in_order();
        match LoneOffice::start(alloc, base, day, most, blanks) {
            Ok(lone) => Ok((lone, orders)),
            Err(no_memory) => {
                drop(orders);
                Err(no_memory)
            }
        }
    }

    /// An office about this base, which opens on this day, with room for so many entries. Nothing is counted yet, and nothing
    /// is known of the trucks. `NoMemory` where no memory was left.
    pub fn start(
        alloc: Global,
        base: Base,
        day: Day,
        most: u32,
        blanks: Blanks,
    ) -> Result<LoneOffice<F, O>, NoMemory>
        requires some { 1 ≤ most }
        requires bounded { most ≤ 1000000 }
        requires blanks { AreBlanks F.name F.parts O.name O.parts blanks }
        ensures { IfOk result (λ lone. lone ≡ newly_opened base day most) }
    {
        let base = Arc::new(alloc, base)?;
        let office = Office::start(alloc, Arc::try_clone(&base)?, day, most)?;
        Ok(LoneOffice {
            office: CountedOffice::new(alloc, office, blanks.office)?,
            base,
            finder: Finder::new(blanks.finder),
        })
    }

    /// Carries out one command, by the calls of its actor. The gate, which keeps nobody waiting, is told the command's place in
    /// the file.
    ///
    /// The history grows by the command's entries. The reply is `Full` only where the history then holds the most entries that
    /// it may.
    pub fn carry_out(&mut self, alloc: Global, order: &Order, place: u32) -> Reply
        requires sound { MayCarryOut self.old.base order.now.command }
        requires caller { order.now.actor < 65536 }
        ensures { WasCarriedOut self.old order.now result self.new }
    {
        let errand = Errand {
            base: &self.base,
            gate: &OpenGate,
            actor: order.actor,
            command: place,
        };
        let mut seat = OneSeat::new(&mut self.office, order.actor);
        carry_out(alloc, &mut seat, &mut self.finder, &order.command, &errand)
    }

    /// The office. Takes no memory.
    pub fn office(&self) -> &Office
        ensures { result.now ≡ self.now }
    {
        self.office.office()
    }

    /// The office, without its counter and without what is known of the trucks.
    pub fn into_office(self) -> Office
        ensures { result ≡ self }
    {
        let (office, _tests) = self.office.into_parts();
        office
    }
}
