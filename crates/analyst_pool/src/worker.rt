// Actors who carry out their scripts, all at once.

ghost use Rattle.std.specs.Prelude.{◌≡◌, ◌<◌, ◌≤◌, ℕ, length, slice_index_or, vec_len, All};
ghost use Rattle.trip_analysis.specs.Counters.{IsBlankOf};
ghost use Rattle.analyst_pool.specs.declared.worker.Outcome.TheVariants as outcome;
ghost use Rattle.analyst_pool.specs.declared.worker.Worker.{Worker};
ghost use Rattle.office_words.specs.Commands.{MayCarryOut};
ghost use Rattle.analyst_pool.specs.Following.{MayFollow};
ghost use Rattle.analyst_pool.specs.Ran.{CarriedOutAll, HasNotBegun, Ran};

use crate::deciding::carry_out;
use crate::errand::Errand;
use crate::finder::Finder;
use crate::gate::Gate;
use office_core::OfficeCalls;
use office_words::{Command, Reply};
use std::alloc::Global;
use std::marker::Brand;
use std::sync::ledger::{Blank, Ledger};
use std::thread::{Threads, for_each_mut};
use trip_analysis::Base;

/// How far a worker came with its script. Commands are numbered from 0.
#[derive(Clone, Copy, PartialEq, Eq)]
pub enum Outcome {
    /// It has not begun.
    Waiting,
    /// Each command has its reply, and neither was memory wanting nor the history full.
    Done,
    /// No memory was left for this command. Those ahead of it are done.
    NoMemory { command: u32 },
    /// The history was full at this command: it holds so many entries. The commands ahead of it are done.
    Full { command: u32, entries: u32 },
}

/// An actor with its calls of an office, and with the commands that it is to carry out, in their order.
///
/// Contracts see these as they are, and the outcome.
#[derive(Drop)]
pub struct Worker<C> {
    calls: C,
    actor: u32,
    script: Vec<Command>,
    outcome: Outcome,
}

impl<C> Worker<C> {
    /// The actor of this number, which has not begun with its script of at most 4,294,967,295 commands.
    pub fn new(calls: C, actor: u32, script: Vec<Command>) -> Worker<C>
        requires { vec_len script ≤ 4294967295 }
        ensures calls { result.calls ≡ calls }
        ensures actor { result.actor ≡ actor }
        ensures script { result.script ≡ script }
        ensures waits { result.outcome ≡ outcome.Waiting }
    {
        Worker {
            calls,
            actor,
            script,
            outcome: Outcome::Waiting,
        }
    }

    /// How far it came.
    pub fn outcome(&self) -> Outcome
        ensures { result ≡ self.now.outcome }
    {
        self.outcome
    }

    /// Its calls, as they are.
    pub fn into_calls(self) -> C
        ensures { result ≡ self.calls }
    {
        let Worker { calls, .. } = self;
        calls
    }
}

impl<C: OfficeCalls> Worker<C> {
    // Carries out the script, up to the first command for which memory is wanting or the history is full. What is tested outside
    // of the office is counted for each worker anew.
    fn work<G: Gate>(&mut self, alloc: Global, base: &Base, gate: &G)
        requires { HasNotBegun base.now C.view self.old }
        ensures { Ran C.view self.old self.new }
    {
        self.work_counted::<Brand, G>(alloc, base, gate, Blank::new(1));
    }

    // Carries out the script with a finder that counts by this counter.
    fn work_counted<L: Ledger, G: Gate>(
        &mut self,
        alloc: Global,
        base: &Base,
        gate: &G,
        blank: Blank,
    )
        requires counter { IsBlankOf L.name L.parts blank }
        requires ready { HasNotBegun base.now C.view self.old }
        ensures { Ran C.view self.old self.new }
    {
        let mut finder = Finder::<L>::new(blank);
        let first = Errand {
            base,
            gate,
            actor: self.actor,
            command: 0,
        };
        self.outcome = carry_out_all(alloc, &mut self.calls, &mut finder, &self.script, &first);
        let _tested = finder.into_steps();
    }
}

/// Each worker carries out its script, all of them at once, up to its first reply that memory is wanting or
/// that the history is full. The gate is told of each by its actor's number and that of the command.
///
/// Afterwards none waits. To the own entries of each worker's calls those are added that the outcome says.
pub fn run_actors<R: Threads + Sync, C: OfficeCalls + Send, G: Gate + Sync>(
    rt: &R,
    alloc: Global,
    base: &Base,
    workers: &mut [Worker<C>],
    gate: &G,
)
    requires ready { (i : ℕ) (d : Worker C) → i < length workers.old
        → HasNotBegun base.now C.view (slice_index_or workers.old i d) }
    ensures length { length workers.new ≡ length workers.old }
    ensures each { (i : ℕ) (d : Worker C) → i < length workers.old
        → Ran C.view (slice_index_or workers.old i d) (slice_index_or workers.new i d) }
{
    if workers.is_empty() {
        return;
    }
    let threads = workers.len();
    for_each_mut(
        rt,
        workers,
        threads,
        &|_, worker| worker.work(alloc, base, gate),
    );
}

// Carries out these commands, the first of which has this errand, up to the first for which memory is wanting or the history is
// full.
fn carry_out_all<C: OfficeCalls, G: Gate, L: Ledger>(
    alloc: Global,
    calls: &mut C,
    finder: &mut Finder<L>,
    script: &[Command],
    first: &Errand<G>,
) -> Outcome
    requires base { first.now.base.now ≡ (C.view calls.old).who.base }
    requires first { first.now.command ≡ 0 }
    requires sound { All (MayCarryOut first.now.base.now) script.now }
    requires short { length script.now ≤ 4294967295 }
    requires follows { MayFollow finder.old.follower (C.view calls.old) }
    ensures { CarriedOutAll (C.view calls.old) script.now result (C.view calls.new) }
{
    let mut command = first.command;
    for asked in script {
        let errand = Errand {
            base: first.base,
            gate: first.gate,
            actor: first.actor,
            command,
        };
        match carry_out(alloc, calls, finder, asked, &errand) {
            Reply::NoMemory => return Outcome::NoMemory { command },
            Reply::Full { entries } => return Outcome::Full { command, entries },
            _ => command += 1,
        }
    }
    Outcome::Done
}
