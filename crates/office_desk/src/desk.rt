// The office that threads share, and the calls on it.

ghost use Rattle.std.specs.Prelude.{◌≡◌, ◌<◌, ◌≤◌, All, IfOk, Some, length, true};
ghost use Rattle.std.specs.Arc.{arc_value};
ghost use Rattle.clearance_rules.specs.Counters.{IsBlankOf};
ghost use Rattle.office_turn.specs.Story.{StartsWith};
ghost use Rattle.office_turn.specs.Told.{HasReceipt, IsReady, admitted_by, after_admit, after_join, opening_root};
ghost use Rattle.office_core.specs.Machine.{IsLegal, entries_by};
ghost use Rattle.office_core.specs.Calls.{Looks};
ghost use Rattle.office_core.specs.Promises.{KeepsPromises};
ghost use Rattle.office_desk.specs.Desks.{AnswersWith, MayAskWith, calls_with_pass, terms_of};

use crate::shared_office::SharedOffice;
use names::NoMemory;
use office_core::{CountedOffice, Looked, Office, Readings};
use office_turn::{Turn, Worn};
use office_words::{Call, Reply};
use permit_days::Day;
use std::alloc::Global;
use std::marker::Model;
use std::sync::ledger::{Blank, Ledger};
use std::sync::{Arc, Wait};
use trip_analysis::Base;

/// The right to call a desk, as one caller. It must be spent, in [`Desk::leave`].
pub type Pass<L> = office_turn::Pass<SharedOffice<L>>;

/// The right to admit passes to a desk, to take them in, and to close it.
pub type Root<L> = office_turn::Root<SharedOffice<L>>;

/// The office that threads share. [`Desk::close`] gives the office back. A desk that is let go drops it.
///
/// What is tested in its turns is counted by a counter of its own, which is made when it starts.
///
/// In contracts it is the `Lock` of its office: which one, what the office is about with the day on which it opened and
/// the most entries of its history, and the most turns, which are as many. So no step in a turn finds the history full.
#[derive(Drop)]
pub struct Desk<L: Ledger> {
    turn: Turn<SharedOffice<L>>,
}

impl<L: Ledger> Model for Desk<L> {
    ghost use Rattle.office_turn.specs.Told.{Lock};
    ghost use Rattle.office_desk.specs.Desks.{IsTied, Terms};

    ghost Value = { Lock Terms };

    ghost view = { λ d. d.turn };

    ghost invariant = { λ d. IsTied d.turn };
}

impl<L: Ledger> Desk<L> {
    ghost use Rattle.office_core.specs.Counted.{AreCounted};

    /// A desk of a new office about this base, which opens on this day, with room for so many entries, and its root.
    /// `NoMemory` where no memory was left.
    pub fn start(
        alloc: Global,
        base: Arc<Base, Global>,
        day: Day,
        most: u32,
        blank: Blank,
    ) -> Result<(Desk<L>, Root<L>), NoMemory>
        requires counter { IsBlankOf L.name L.parts blank }
        requires some { 1 ≤ most }
        requires bounded { most ≤ 1000000 }
        ensures terms { IfOk result (λ started. started.0.terms ≡ Some (arc_value base, day, most)) }
        ensures most { IfOk result (λ started. started.0.most ≡ most) }
        ensures root { IfOk result (λ started. started.1 ≡ opening_root started.0) }
    {
        let office = Office::start(alloc, base, day, most)?;
        let counted = CountedOffice::new(alloc, office, blank)?;
        match Turn::start(alloc, SharedOffice { counted }, most) {
            Ok((turn, root)) => Ok((Desk { turn }, root)),
            Err(office_turn::NoMemory) => Err(NoMemory),
        }
    }

    /// A new pass, which has seen what the root has seen. It never refuses and takes no memory.
    pub fn admit(&self, root: &mut Root<L>) -> Pass<L>
        requires lock { root.old.lock ≡ self.now }
        requires room { root.old.admitted < 65536 }
        ensures pass { result ≡ admitted_by root.old }
        ensures root { root.new ≡ after_admit root.old }
    {
        self.turn.admit(root)
    }

    /// Takes a pass in. The root tells one receipt more. It takes no memory.
    pub fn leave(&self, root: &mut Root<L>, pass: Pass<L>)
        requires lock { root.old.lock ≡ self.now }
        requires ready { IsReady self.now pass }
        ensures root { root.new ≡ after_join root.old pass }
    {
        self.turn.join(root, pass);
    }

    /// Ends the desk, and gives its office back, with the counter of its turns and the readings of it. It is asked once each pass
    /// was taken in. It takes no memory.
    ///
    /// The office has the roads and trucks, the opening day and the most entries that the desk was started with. Its history
    /// goes on from what the root has seen, is legal, and keeps every promise.
    pub fn close(self, root: Root<L>) -> (Office, Readings<L>)
        requires lock { root.lock ≡ self }
        requires joined { length root.receipts ≡ root.admitted }
        ensures terms { Some (terms_of result.0) ≡ root.lock.terms }
        ensures seen { StartsWith result.0.history root.seen }

        // The history has the entries of those that were admitted and no others, as their receipts tell.
        ensures own { All (λ receipt. entries_by receipt.number result.0.history
            ≡ receipt.own) root.receipts }
        ensures callers { All (λ e. e.caller < root.admitted) result.0.history }
        ensures others { All (λ e. HasReceipt root.receipts e.caller) result.0.history }

        // A call was answered `Full` only where the history has the most entries that it may.
        ensures worn { All
            (λ receipt. receipt.worn ≡ true → length result.0.history ≡ root.lock.most) root.receipts }

        ensures legal { IsLegal result.0.base result.0.opening result.0.history }
        ensures promises { KeepsPromises result.0.base result.0.opening result.0.history }

        // In the turn of each entry no more was tested than its call may cost, and nothing between the turns.
        ensures counted { AreCounted result.0 result.1 }
    {
        let Desk { turn } = self;
        let SharedOffice { counted } = turn.close(root);
        let (office, readings) = counted.into_parts();
        let _entries = office.history();
        (office, readings)
    }

    /// The current version and its state, which are those that its entry finds. The pass is left as by `ask`. The entry is
    /// there also where no memory was left for them. It may wait.
    pub fn snapshot<R: Wait>(&self, rt: &R, pass: &mut Pass<L>) -> Looked
        requires ready { IsReady self.now pass.old }
        ensures answered { Looks (calls_with_pass pass.old) result (calls_with_pass pass.new) }
        ensures ready { IsReady self.now pass.new }
    {
        match self.turn.hold(rt, pass) {
            Ok(mut held) => {
                let looked = held.value().look(pass.number());
                self.turn.pass_on(pass, held);
                looked
            }
            Err(Worn { turns }) => Looked::Full { entries: turns },
        }
    }

    /// Asks a call, in a turn with one step of the office. What is found for an application was found at a version that the
    /// pass has seen. It may wait.
    ///
    /// The pass has then seen a legal history that goes on from what it had seen and ends with the entry of this call and its
    /// reply. Its own entries are those before and this one, and are all of its number. After `Full` nothing was added, and
    /// the pass is marked.
    pub fn ask<R: Wait>(&self, rt: &R, pass: &mut Pass<L>, call: Call) -> Reply
        requires ready { IsReady self.now pass.old }
        requires asked { MayAskWith pass.old call }
        ensures answered { AnswersWith pass.old call result pass.new }
        ensures ready { IsReady self.now pass.new }
    {
        match self.turn.hold(rt, pass) {
            Ok(mut held) => {
                let reply = held.value().step(pass.number(), call);
                self.turn.pass_on(pass, held);
                reply
            }
            Err(Worn { turns }) => Reply::Full { entries: turns },
        }
    }
}
