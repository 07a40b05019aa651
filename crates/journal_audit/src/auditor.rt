// Who judges the entries of a history, one after another.

ghost use Rattle.std.specs.Prelude.{◌≡◌, ◌≢◌, ◌↔◌, ◌≤◌, All, IfOk, false, length, true};
ghost use Rattle.office_words.specs.declared.entry.Call.TheVariants as call;
ghost use Rattle.office_words.specs.declared.entry.Reply.TheVariants as reply;
ghost use Rattle.journal_audit.specs.declared.versions.Versions.{Versions};
ghost use Rattle.journal_audit.specs.Seats.{IsSeat};
ghost use Rattle.std.specs.Arc.{arc_value};
ghost use Rattle.office_core.specs.Machine.{HasRoom, IsFound};
ghost use Rattle.journal_audit.specs.Auditors.{HasMark, HasOpened, HasPassed, IsAuditor, IsNamedBy, IsStepOf, MayBeAsked, OnlyLooked};

use crate::sameness::{are_same_findings, are_same_replies};
use crate::seat::Seat;
use crate::versions::Versions;
use clearance_rules::Steps;
use names::NoMemory;
use office_core::Replay;
use office_words::{Call, Entry, Reply};
use permit_days::Day;
use std::alloc::Global;
use std::sync::Arc;
use std::sync::ledger::Ledger;
use trip_analysis::{Application, Base, Proposal};

/// How many callers have a seat of their own: as many as a day file has actors. Further ones share these, which changes no verdict.
const SEATS: usize = 16;

/// Who judges the entries of a history, one after another: it goes through the office again, and finds again what was proposed.
#[derive(Drop)]
pub(crate) struct Auditor {
    pub(crate) base: Arc<Base, Global>,
    pub(crate) replay: Replay,
    pub(crate) versions: Versions,
    pub(crate) seats: Vec<Seat>,
}

impl Auditor {
    /// Who has judged no entry yet of a history that has these, of an office about this base that opens on this day.
    pub(crate) fn open(
        alloc: Global,
        base: Arc<Base, Global>,
        day: Day,
        history: &[Entry],
    ) -> Result<Auditor, NoMemory>
        requires { length history.now ≤ 1000000 }
        ensures base { IfOk result (λ a. a.replay.base ≡ arc_value base) }
        ensures opened { IfOk result (λ a. HasOpened a day history.now) }
    {
        let seats = empty_seats(alloc, &base)?;
        let replay = Replay::open(alloc, Arc::try_clone(&base)?, day)?;
        let versions = Versions::open(alloc, &replay, history)?;
        Ok(Auditor {
            base,
            replay,
            versions,
            seats,
        })
    }

    /// What the office keeps that was gone through again. Takes no memory.
    pub(crate) fn into_replay(self) -> Replay
        ensures { result ≡ self.replay }
    {
        self.replay
    }

    /// Whether an entry is a step of the office's machine, from what the entries before it leave. If it is, the auditor is behind
    /// it then.
    pub(crate) fn judge<L: Ledger>(
        &mut self,
        entry: &Entry,
        steps: &mut Steps<L>,
    ) -> Result<bool, NoMemory>
        requires auditor { IsAuditor self.old }
        requires room { HasRoom self.old.replay.machine }
        requires mark { HasMark self.old }
        requires named { IsNamedBy self.old entry.now.call }
        ensures passed { IfOk result (λ passed. passed ≡ true → HasPassed self.old entry.now self.new) }
        ensures failed { IfOk result (λ passed. passed ≡ false → IsStepOf self.old entry.now → ⊥) }
    {
        if !self.may_be_asked(entry.caller, &entry.call, steps)? {
            return Ok(false);
        }
        if let Reply::NoMemory = entry.reply {
            return Ok(self.replay.may_lack(&entry.call, steps));
        }
        self.compare(entry, steps)
    }

    // Whether a call may be asked, by what is found again for it.
    fn may_be_asked<L: Ledger>(
        &mut self,
        caller: u32,
        call: &Call,
        steps: &mut Steps<L>,
    ) -> Result<bool, NoMemory>
        requires auditor { IsAuditor self.old }
        requires mark { HasMark self.old }
        requires named { IsNamedBy self.old call.now }
        ensures asked { IfOk result (λ may. (may ≡ true) ↔ MayBeAsked self.old call.now) }
        ensures looked { OnlyLooked self.old self.new }
    {
        match call {
            Call::Submit {
                application,
                proposal,
            } => self.is_found(caller, application, proposal, steps),
            Call::Held { application } => Ok(application.is_sound(&self.base)),
            _ => Ok(true),
        }
    }

    // Whether a proposal is what is found for the application at the version that it names, by what is known at the caller's
    // seat, and that version was reached.
    fn is_found<L: Ledger>(
        &mut self,
        caller: u32,
        application: &Application,
        proposal: &Proposal,
        steps: &mut Steps<L>,
    ) -> Result<bool, NoMemory>
        requires auditor { IsAuditor self.old }
        requires mark { HasMark self.old }
        requires named { IsNamedBy self.old (call.Submit application.now proposal.now) }
        ensures found { IfOk result (λ is_found.
            (is_found ≡ true) ↔ IsFound self.old.replay.base self.old.replay.machine application.now proposal.now) }
        ensures looked { OnlyLooked self.old self.new }
    {
        if !application.is_sound(&self.base) || proposal.seen > self.replay.version() {
            return Ok(false);
        }
        let seat = &mut self.seats[caller as usize % SEATS];
        let what = seat.find(
            &self.base,
            &self.versions,
            proposal.seen,
            application,
            steps,
        )?;
        Ok(are_same_findings(&what, &proposal.what))
    }

    // Asks the call of an entry again, and compares the replies. That of the entry is not want of memory.
    fn compare<L: Ledger>(&mut self, entry: &Entry, steps: &mut Steps<L>) -> Result<bool, NoMemory>
        requires auditor { IsAuditor self.old }
        requires room { HasRoom self.old.replay.machine }
        requires asked { MayBeAsked self.old entry.now.call }
        requires memory { entry.now.reply ≢ reply.NoMemory }
        ensures passed { IfOk result (λ passed. passed ≡ true → HasPassed self.old entry.now self.new) }
        ensures failed { IfOk result (λ passed. passed ≡ false → IsStepOf self.old entry.now → ⊥) }
    {
        let reply = self.replay.answer(entry.caller, &entry.call, steps);
        if let Reply::NoMemory = reply {
            return Err(NoMemory);
        }
        if !are_same_replies(&reply, &entry.reply) {
            return Ok(false);
        }
        self.versions.go_on(&self.replay)?;
        Ok(true)
    }
}

// Seats at which nothing is known yet.
fn empty_seats(alloc: Global, base: &Base) -> Result<Vec<Seat>, NoMemory>
    ensures seats { (versions : Versions)
        → IfOk result (λ seats. All (IsSeat base.now versions) seats.items) }
    ensures many { IfOk result (λ seats. length seats.items ≡ 16) }
{
    let mut seats = Vec::new(alloc);
    'seats: for _ in 0..SEATS {
        seats.push(Seat::new(alloc, base)?)?;
    }
    Ok(seats)
}
