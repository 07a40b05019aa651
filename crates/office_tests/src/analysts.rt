ghost use Rattle.std.specs.Prelude.{◌≡◌, ◌<◌, ◌≤◌, [], All, IfOk, false, vec_len};
ghost use Rattle.std.specs.Arc.{arc_value};
ghost use Rattle.clearance_rules.specs.Counters.{IsBlankOf};
ghost use Rattle.office_core.specs.Replies.{is_full};
ghost use Rattle.office_core.specs.Seats.{calls_of};
ghost use Rattle.office_core.specs.Calls.{Answered};
ghost use Rattle.office_core.specs.Machine.{MayAsk};
ghost use Rattle.office_core.specs.Offices.{machine_in};
ghost use Rattle.analyst_pool.specs.Interrupted.{Interrupts, shared};
ghost use Rattle.office_words.specs.Commands.{MayCarryOut};
ghost use Rattle.analyst_pool.specs.Ran.{HasNotBegun};

use crate::fixtures::{
    ALONE, About, ONE_WAY, ROOM_FOR_ONE, SHUT_WAY, WAY_AROUND, application, base, day, full_at,
    journal_ends, office,
};
use analyst_pool::{
    Errand, Finder, Gate, Outcome, Worker, carry_out, decide, most_entries, run_actors,
};
use office_core::{CountedOffice, Looked, Office, OfficeCalls, OneSeat};
use office_words::{Call, Command, Reply};
use restriction_log::Change;
use std::alloc::{AllocError, Global};
use std::cell::Cell;
use std::marker::Brand;
use std::process::Abort;
use std::sync::Arc;
use std::sync::atomic::{AtomicU64, Ordering};
use std::sync::ledger::{Blank, Ledger};
use std::thread::Threads;
use trip_analysis::Base;

// Writes down what it is told as the digits of a number: 1 first, then 0 ahead of the command, the number
// of each attempt, and 9 behind the reply. It forgets all where it is told of another actor or command.
#[derive(Drop)]
struct Digits {
    told: Cell<u64>,
}

impl Digits {
    fn add(&self, actor: u32, command: u32, digit: u32) {
        let told = self.told.get().wrapping_mul(10).wrapping_add(digit as u64);
        let known = actor == 2 && command == 5;
        self.told.set(if known { told } else { 0 });
    }
}

impl Gate for Digits {
    fn before(&self, actor: u32, command: u32) {
        self.add(actor, command, 0);
    }

    fn between(&self, actor: u32, command: u32, attempt: u32) {
        self.add(actor, command, attempt);
    }

    fn answered(&self, actor: u32, command: u32) {
        self.add(actor, command, 9);
    }
}

// The calls of caller 0 of an office in which caller 1 posts a change ahead of each submit, the last of
// these first. Once they are all posted nothing comes between.
#[derive(Drop)]
struct Interrupted<'a, R: Abort, L: Ledger> {
    rt: &'a R,
    office: CountedOffice<L>,
    changes: &'a [Change],
}

// Posts a change as caller 1.
fn post<L: Ledger>(office: &mut CountedOffice<L>, change: Change)
    ensures { Interrupts office.old.office office.new.office }
{
    let mut seat = OneSeat::new(office, 1);
    drop(seat.post(change));
}

// The reply, which is not that the history is full.
fn unless_full(rt: &impl Abort, reply: Reply) -> Reply
    ensures value { result ≡ reply }
    ensures room { is_full result ≡ false }
{
    match reply {
        Reply::Full { .. } => rt.abort(),
        reply => reply,
    }
}

// Asks as caller 0, where nobody comes between.
fn ask_alone<L: Ledger>(office: &mut CountedOffice<L>, asked: Call) -> Reply
    requires { MayAsk office.old.office.base (machine_in office.old.office) asked }
    ensures { Answered (shared 0 office.old.office) asked result (shared 0 office.new.office) }
{
    let mut seat = OneSeat::new(office, 0);
    seat.ask(asked)
}

// Asks as caller 0 behind a posting of caller 1.
fn ask_behind<L: Ledger>(
    rt: &impl Abort,
    office: &mut CountedOffice<L>,
    change: Change,
    asked: Call,
) -> Reply
    requires { MayAsk office.old.office.base (machine_in office.old.office) asked }
    ensures { Answered (shared 0 office.old.office) asked result (shared 0 office.new.office) }
{
    post(office, change);
    let mut seat = OneSeat::new(office, 0);
    let reply = seat.ask(asked);
    unless_full(rt, reply)
}

impl<R: Abort, L: Ledger> OfficeCalls for Interrupted<'_, R, L> {
    ghost use Rattle.analyst_pool.specs.Interrupted.{shared};

    type Place = ();

    ghost view = { λ s. shared 0 s.office.office };

    fn snapshot(&mut self) -> Looked {
        let mut seat = OneSeat::new(&mut self.office, 0);
        seat.snapshot()
    }

    fn ask(&mut self, asked: Call) -> Reply {
        match self.changes.split_last() {
            Some((change, left)) => {
                self.changes = left;
                ask_behind(self.rt, &mut self.office, *change, asked)
            }
            None => ask_alone(&mut self.office, asked),
        }
    }
}

// What is asked for: an application, one that is handed over, a posting, the next day, that a permit is given back, or a look at one.
const APPLY: u32 = 0;

const HANDED_OVER: u32 = 1;

const POST: u32 = 2;

const DAY: u32 = 3;

const SURRENDER: u32 = 4;

const SHOW: u32 = 5;

fn command(rt: &impl Abort, base: &Base, kind: u32) -> Command
    ensures { MayCarryOut base.now result }
{
    match kind {
        POST => Command::Post(CLOSED),
        DAY => Command::Day(day(rt, "2026-03-03")),
        SURRENDER => Command::Surrender(1),
        SHOW => Command::Show(1),
        _ => Command::Apply(application(rt, base, 0, 1, "2026-03-02")),
    }
}

// Carries out a command of this kind.
fn carry_out_one<C: OfficeCalls, G: Gate, L: Ledger>(
    rt: &impl Abort,
    alloc: Global,
    calls: &mut C,
    errand: &Errand<G>,
    kind: u32,
    blank: Blank,
) -> Reply
    requires counter { IsBlankOf L.name L.parts blank }
    requires base { errand.now.base.now ≡ (C.view calls.old).who.base }
{
    let command = command(rt, errand.base, kind);
    let mut finder = Finder::<L>::new(blank);
    let reply = carry_out(alloc, calls, &mut finder, &command, errand);
    drop(finder);
    drop(command);
    reply
}

// Asks for what is of this kind, and the gate is told this. How many entries the history held, where it was full, and else 0.
fn tell<C: OfficeCalls, L: Ledger>(
    rt: &impl Abort,
    alloc: Global,
    calls: &mut C,
    base: &Base,
    kind: u32,
    told: u64,
    blank: Blank,
) -> u32
    requires counter { IsBlankOf L.name L.parts blank }
    requires base { base.now ≡ (C.view calls.old).who.base }
{
    let gate = Digits { told: Cell::new(1) };
    let errand = Errand {
        base,
        gate: &gate,
        actor: 2,
        command: 5,
    };
    let reply = if kind == HANDED_OVER {
        let wanted = application(rt, base, 0, 1, "2026-03-02");
        decide::<C, Digits, L>(alloc, calls, wanted, &errand, blank)
    } else {
        carry_out_one::<C, Digits, L>(rt, alloc, calls, &errand, kind, blank)
    };
    assert_eq!(rt; gate.told.get(), told);
    full_at(reply)
}

// What the office is about, what is asked for, and what caller 2 posts, the last first; and then what the gate is told, how many
// entries a full history held, and how the journal ends: the reply and how many entries there are.
type Row = (About, u32, &'static [Change], u64, u32, &'static str);

const CLOSED: Change = Change::Closed {
    segment: 0,
    closed: true,
};

const OPEN: Change = Change::Closed {
    segment: 0,
    closed: false,
};

const HIGHER: Change = Change::Height {
    segment: 0,
    inches: 168,
};

const ROWS: &[Row] = &[
    // at once
    (
        ONE_WAY,
        APPLY,
        &[],
        1_019,
        0,
        "seen 0 route 1 = issued 1 at 0 route 1\nend 2\n",
    ),
    // the same without a command
    (
        ONE_WAY,
        HANDED_OVER,
        &[],
        11,
        0,
        "seen 0 route 1 = issued 1 at 0 route 1\nend 2\n",
    ),
    // the route fails, and the next goes around
    (
        WAY_AROUND,
        APPLY,
        &[CLOSED],
        10_129,
        0,
        "seen 1 route 2,3 = issued 1 at 1 route 2,3\nend 5\n",
    ),
    // what stood in the way meets
    (
        SHUT_WAY,
        APPLY,
        &[HIGHER],
        10_129,
        0,
        "seen 1 route 1 = issued 1 at 1 route 1\nend 5\n",
    ),
    // the eighth attempt is answered
    (
        ONE_WAY,
        APPLY,
        &[CLOSED, OPEN, CLOSED, OPEN, CLOSED, OPEN, CLOSED],
        10_123_456_789,
        0,
        "seen 7 cut 1 = refused 7 segment 1 closed\nend 23\n",
    ),
    // and after eight the office is asked itself
    (
        ONE_WAY,
        APPLY,
        &[OPEN, CLOSED, OPEN, CLOSED, OPEN, CLOSED, OPEN, CLOSED],
        10_123_456_789,
        0,
        "held truck 1 from 1 to 2 asked none days 2026-03-02 2026-03-06 = issued 1 at 8 route 1\nend 25\n",
    ),
    // a history that is full ahead of the submit
    (
        ROOM_FOR_ONE,
        APPLY,
        &[],
        1_019,
        1,
        "permit-journal 3\n1 snapshot = at 0\nend 1\n",
    ),
    (
        ONE_WAY,
        POST,
        &[],
        109,
        0,
        "permit-journal 3\n1 post segment 1 closed 1 = posted 1 recalled -\nend 1\n",
    ),
    (
        ONE_WAY,
        DAY,
        &[],
        109,
        0,
        "permit-journal 3\n1 day 2026-03-03 = day 2026-03-03\nend 1\n",
    ),
    (
        ONE_WAY,
        SURRENDER,
        &[],
        109,
        0,
        "permit-journal 3\n1 surrender 1 = unknown\nend 1\n",
    ),
    (
        ONE_WAY,
        SHOW,
        &[],
        109,
        0,
        "permit-journal 3\n1 show 1 = unknown\nend 1\n",
    ),
];

// The roads with these segments, and the trucks, for an office and for those who call it.
fn shared_base(rt: &impl Abort, alloc: Global, segments: &str, height: u32) -> Arc<Base, Global> {
    Arc::new(alloc, base(rt, alloc, segments, height)).expect(rt, "memory")
}

fn share(rt: &impl Abort, base: &Arc<Base, Global>) -> Arc<Base, Global>
    ensures { arc_value result ≡ arc_value base.now }
{
    Arc::try_clone(base).expect(rt, "memory")
}

// What is asked for goes as a row says, in this office.
fn goes_in<R: Abort, L: Ledger, F: Ledger>(
    rt: &R,
    alloc: Global,
    office: Office,
    base: &Base,
    row: &Row,
    tests: Blank,
    found: Blank,
)
    requires tests_name { tests.name ≡ L.name }
    requires tests_parts { tests.parts ≡ L.parts }
    requires tests_some { 0 < tests.parts }
    requires found_name { found.name ≡ F.name }
    requires found_parts { found.parts ≡ F.parts }
    requires found_some { 0 < found.parts }
    requires base { office.base ≡ base.now }
    requires opened { office.history ≡ [] }
{
    let &(_, kind, changes, told, wanted, ends) = row;
    let mut calls = Interrupted {
        rt,
        office: CountedOffice::<L>::new(alloc, office, tests).expect(rt, "memory"),
        changes,
    };
    let full = tell::<Interrupted<'_, R, L>, F>(rt, alloc, &mut calls, base, kind, told, found);
    journal_ends(rt, alloc, calls.office.office(), ends);
    drop(calls);
    assert_eq!(rt; full, wanted);
}

fn goes<R: Abort>(rt: &R, alloc: Global, row: &Row) {
    let (segments, height, most) = row.0;
    let base = shared_base(rt, alloc, segments, height);
    let office = office(rt, alloc, share(rt, &base), most);
    goes_in::<R, Brand, Brand>(rt, alloc, office, &base, row, Blank::new(1), Blank::new(1));
    drop(base);
}

#[test]
fn carries_out_commands_while_another_posts(rt: HostRuntime) {
    for row in ROWS {
        goes(&rt, rt.alloc(), row);
    }
}

#[test]
fn has_room_for_what_commands_make(rt: HostRuntime) {
    assert!(rt; most_entries(&[CLOSED, OPEN]) == 34);
    assert!(rt; most_entries::<Change>(&[]) == 1);
}

// How many entries a history may hold, and which commands are asked; and then the outcome, and how many
// entries the history has.
type Scripted = (u32, &'static [u32], Outcome, usize);

const SCRIPTS: &[Scripted] = &[
    (100, &[], Outcome::Done, 0),
    (100, &[POST, APPLY, DAY, SHOW], Outcome::Done, 5),
    (
        2,
        &[POST, DAY, SHOW, SURRENDER],
        Outcome::Full {
            command: 2,
            entries: 2,
        },
        2,
    ),
    // a history that is full behind a snapshot
    (
        2,
        &[POST, APPLY],
        Outcome::Full {
            command: 1,
            entries: 2,
        },
        2,
    ),
];

// Commands of these kinds.
fn script(
    rt: &impl Abort,
    alloc: Global,
    base: &Base,
    kinds: &[u32],
) -> Result<Vec<Command>, AllocError>
    ensures sound { IfOk result (λ script. All (MayCarryOut base.now) script.items) }
    ensures short { IfOk result (λ script. vec_len script ≤ 100) }
{
    let mut script = Vec::new(alloc);
    for &kind in kinds {
        script.push(command(rt, base, kind))?;
    }
    assert!(rt; script.len() <= 100);
    Ok(script)
}

// An actor of this number with commands of these kinds, for an office that nobody else calls.
fn worker<'a, L: Ledger>(
    rt: &impl Abort,
    alloc: Global,
    base: &Base,
    office: &'a mut CountedOffice<L>,
    actor: u32,
    kinds: &[u32],
) -> Worker<OneSeat<'a, L>>
    requires base { office.old.office.base ≡ base.now }
    ensures { HasNotBegun base.now calls_of result }
{
    let script = script(rt, alloc, base, kinds).expect(rt, "memory");
    Worker::new(OneSeat::new(office, 0), actor, script)
}

// Whether it is told of one actor's commands alone, and of these in order: of each ahead of it, between, and behind its reply.
#[derive(Drop)]
struct InOrder {
    actor: u32,
    next: AtomicU64,
    wrong: AtomicU64,
}

impl InOrder {
    fn is_told(&self, actor: u32, command: u32) {
        if actor != self.actor || u64::from(command) != self.next.load(Ordering::SeqCst) {
            self.wrong.store(1, Ordering::SeqCst);
        }
    }
}

impl Gate for InOrder {
    fn before(&self, actor: u32, command: u32) {
        self.is_told(actor, command);
    }

    fn between(&self, actor: u32, command: u32, _attempt: u32) {
        self.is_told(actor, command);
    }

    fn answered(&self, actor: u32, command: u32) {
        self.is_told(actor, command);
        self.next.fetch_add(1, Ordering::SeqCst);
    }
}

// A worker of the second actor carries out its script, and ends with this outcome. The gate is told so.
fn run_worker<R: Threads + Abort + Sync, C: OfficeCalls + Send + Drop>(
    rt: &R,
    alloc: Global,
    base: &Base,
    worker: Worker<C>,
    wanted: Outcome,
) -> Result<(), AllocError>
    requires { HasNotBegun base.now C.view worker }
{
    let mut workers = Vec::new(alloc);
    workers.push(worker)?;
    let gate = InOrder {
        actor: 1,
        next: AtomicU64::new(0),
        wrong: AtomicU64::new(0),
    };
    run_actors(rt, alloc, base, &mut workers, &gate);
    for worker in &workers {
        assert!(rt; worker.outcome() == wanted);
    }
    assert!(rt; gate.wrong.load(Ordering::SeqCst) == 0);
    Ok(())
}

// An actor carries out a script of the row's kinds, for this office.
fn run_one<R: Threads + Abort + Sync, L: Ledger + Send + Sync>(
    rt: &R,
    alloc: Global,
    base: &Base,
    office: Office,
    scripted: &Scripted,
    blank: Blank,
)
    requires counter { IsBlankOf L.name L.parts blank }
    requires base { office.base ≡ base.now }
    requires opened { office.history ≡ [] }
{
    let &(_, kinds, wanted, entries) = scripted;
    let mut office = CountedOffice::<L>::new(alloc, office, blank).expect(rt, "memory");
    let worker = worker(rt, alloc, base, &mut office, 1, kinds);
    let ran = run_worker(rt, alloc, base, worker, wanted);
    assert!(rt; ran.is_ok());
    let held = office.office().history().len();
    drop(office);
    assert!(rt; held == entries);
}

fn carries_out<R: Threads + Abort + Sync>(rt: &R, alloc: Global, scripted: &Scripted) {
    let base = shared_base(rt, alloc, ALONE, 168);
    let office = office(rt, alloc, share(rt, &base), scripted.0);
    run_one::<R, Brand>(rt, alloc, &base, office, scripted, Blank::new(1));
    drop(base);
}

#[test]
fn carries_out_scripts(rt: HostRuntime) {
    for scripted in SCRIPTS {
        carries_out(&rt, rt.alloc(), scripted);
    }
}
