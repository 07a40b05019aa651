// Commands that are carried out by the calls of an office.

ghost use Rattle.std.specs.Prelude.{◌≡◌, ◌<◌, false, IfErr, IfOk};
ghost use Rattle.trip_analysis.specs.Applications.{Sound};
ghost use Rattle.trip_analysis.specs.Counters.{IsBlankOf};
ghost use Rattle.office_words.specs.declared.entry.Command.TheVariants as asked;
ghost use Rattle.office_core.specs.Replies.{is_outdated};
ghost use Rattle.analyst_pool.specs.Attempts.{Concluded, DecidedAfter, IsPrepared, IsSubmitted, MaySubmit};
ghost use Rattle.analyst_pool.specs.Following.{MayFollow};
ghost use Rattle.analyst_pool.specs.Leaves.{CarriedOut};
ghost use Rattle.office_words.specs.Commands.{MayCarryOut};

use crate::errand::Errand;
use crate::finder::Finder;
use crate::gate::Gate;
use names::NoMemory;
use office_core::{Looked, OfficeCalls};
use office_words::{Command, Reply};
use std::alloc::Global;
use std::sync::ledger::{Blank, Ledger};
use trip_analysis::{Application, Base, Proposal};

// What is submitted: a copy of an application, and what was found for it.
#[derive(Drop)]
struct Submission {
    application: Application,
    proposal: Proposal,
}

/// Carries out a command by these calls. The gate is told before it and once it has its reply.
///
/// The command's entries are added to the caller's own. Of an application they are those of at most seven attempts that are
/// out of date, and of one that ends otherwise; or of eight, and of a call by which the office itself finds. An attempt is a
/// snapshot, and a submit of what was found at its version. Every other command is one call.
///
/// The finder finds what applications need, keeps what is known of the trucks from one snapshot to the next, and counts what
/// it tests.
///
/// The reply is that of its last call. It is `Full` only where the calls are then full with that number, and `NoMemory` also
/// where, after a snapshot, no memory was left to find what an application needs.
pub fn carry_out<C: OfficeCalls, G: Gate, L: Ledger>(
    alloc: Global,
    calls: &mut C,
    finder: &mut Finder<L>,
    command: &Command,
    errand: &Errand<G>,
) -> Reply
    requires base { errand.now.base.now ≡ (C.view calls.old).who.base }
    requires sound { MayCarryOut errand.now.base.now command.now }
    requires follows { MayFollow finder.old.follower (C.view calls.old) }
    ensures carried { CarriedOut (C.view calls.old) command.now result (C.view calls.new) }
    ensures follows { MayFollow finder.new.follower (C.view calls.new) }
{
    errand.gate.before(errand.actor, errand.command);
    let reply = match command {
        Command::Apply(application) => decide_by(alloc, calls, finder, application, errand),
        Command::Post(change) => calls.post(*change),
        Command::Day(day) => calls.day(*day),
        Command::Surrender(number) => calls.surrender(*number),
        Command::Show(number) => calls.show(*number),
    };
    errand.gate.answered(errand.actor, errand.command);
    reply
}

/// Decides an application by these calls, in at most eight attempts and then one held call. An attempt
/// takes a snapshot, finds at it what the application needs, tells the gate, and submits what it found.
///
/// The reply is the first that does not say that what was proposed is out of date. It is `Full` only where
/// the calls are then full with that number, and `NoMemory` also where, after a snapshot, no memory was
/// left to find what is needed.
#[tactic(auto, using(crate::proofs::Attempting::carried_settled))]
pub fn decide<C: OfficeCalls, G: Gate, L: Ledger>(
    alloc: Global,
    calls: &mut C,
    application: Application,
    errand: &Errand<G>,
    blank: Blank,
) -> Reply
    requires counter { IsBlankOf L.name L.parts blank }
    requires base { errand.now.base.now ≡ (C.view calls.old).who.base }
    requires sound { Sound errand.now.base.now application }
    ensures decided { CarriedOut (C.view calls.old) (asked.Apply application) result (C.view calls.new) }
    ensures settled { is_outdated result ≡ false }
{
    let mut finder = Finder::<L>::new(blank);
    decide_by(alloc, calls, &mut finder, &application, errand)
}

// Decides an application, which stays with its owner.
fn decide_by<C: OfficeCalls, G: Gate, L: Ledger>(
    alloc: Global,
    calls: &mut C,
    finder: &mut Finder<L>,
    application: &Application,
    errand: &Errand<G>,
) -> Reply
    requires base { errand.now.base.now ≡ (C.view calls.old).who.base }
    requires sound { Sound errand.now.base.now application.now }
    requires follows { MayFollow finder.old.follower (C.view calls.old) }
    ensures decided { CarriedOut (C.view calls.old) (asked.Apply application.now) result (C.view calls.new) }
    ensures follows { MayFollow finder.new.follower (C.view calls.new) }
{
    for tries in 0..7 {
        let submission = match prepare(alloc, calls, finder, errand.base, application) {
            Ok(submission) => submission,
            Err(reply) => return reply,
        };
        match submit(calls, submission, errand, tries + 1) {
            Some(reply) => return reply,
            None => (),
        }
    }
    last_attempt(alloc, calls, finder, application, errand)
}

// The eighth attempt, and the held call where it is out of date too. The held call takes a copy, which is
// made before the submit: so want of memory comes after a snapshot, as in every attempt.
fn last_attempt<C: OfficeCalls, G: Gate, L: Ledger>(
    alloc: Global,
    calls: &mut C,
    finder: &mut Finder<L>,
    application: &Application,
    errand: &Errand<G>,
) -> Reply
    requires base { errand.now.base.now ≡ (C.view calls.old).who.base }
    requires sound { Sound errand.now.base.now application.now }
    requires follows { MayFollow finder.old.follower (C.view calls.old) }
    ensures decided { DecidedAfter 7 (C.view calls.old) application.now result (C.view calls.new) }
    ensures follows { MayFollow finder.new.follower (C.view calls.new) }
{
    let submission = match prepare(alloc, calls, finder, errand.base, application) {
        Ok(submission) => submission,
        Err(reply) => return reply,
    };
    let copy = match application.try_clone() {
        Ok(copy) => copy,
        Err(NoMemory) => return Reply::NoMemory,
    };
    match submit(calls, submission, errand, 8) {
        Some(reply) => reply,
        None => {
            errand.base.lists_are_in_order();
            calls.held(copy)
        }
    }
}

// What is to be submitted of what is found at a new snapshot, or the reply where there is none.
fn prepare<C: OfficeCalls, L: Ledger>(
    alloc: Global,
    calls: &mut C,
    finder: &mut Finder<L>,
    base: &Base,
    application: &Application,
) -> Result<Submission, Reply>
    requires base { base.now ≡ (C.view calls.old).who.base }
    requires sound { Sound base.now application.now }
    requires follows { MayFollow finder.old.follower (C.view calls.old) }
    ensures prepared { IfOk result
        (λ submission. IsPrepared (C.view calls.old) application.now submission (C.view calls.new)) }
    ensures concluded { IfErr result
        (λ r. Concluded (C.view calls.old) application.now r (C.view calls.new)) }
    ensures follows { MayFollow finder.new.follower (C.view calls.new) }
{
    let snapshot = match calls.snapshot() {
        Looked::At(snapshot) => snapshot,
        Looked::NoMemory => return Err(Reply::NoMemory),
        Looked::Full { entries } => return Err(Reply::Full { entries }),
    };
    let proposal = match finder.find(alloc, base, snapshot, application) {
        Ok(proposal) => proposal,
        Err(NoMemory) => return Err(Reply::NoMemory),
    };
    match application.try_clone() {
        Ok(application) => Ok(Submission {
            application,
            proposal,
        }),
        Err(NoMemory) => Err(Reply::NoMemory),
    }
}

// Tells the gate, and submits what was found: nothing where it is out of date.
fn submit<C: OfficeCalls, G: Gate>(
    calls: &mut C,
    submission: Submission,
    errand: &Errand<G>,
    number: u32,
) -> Option<Reply>
    requires { MaySubmit (C.view calls.old) submission }
    ensures { IsSubmitted (C.view calls.old) submission result (C.view calls.new) }
{
    errand.gate.between(errand.actor, errand.command, number);
    match calls.submit(submission.application, submission.proposal) {
        Reply::Outdated { .. } => None,
        reply => Some(reply),
    }
}
