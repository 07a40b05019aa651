ghost use Rattle.std.specs.Prelude.{◌≡◌, ◌<◌, ◌++◌, [], List, IfOk, IfSome};
ghost use Rattle.clearance_rules.specs.Counters.{IsBlankOf};
ghost use Rattle.snapshot_store.specs.Stores.{store_version_of as postings_of};
ghost use Rattle.trip_analysis.specs.Applications.{Sound};
ghost use Rattle.trip_analysis.specs.Findings.{IsFoundAt};
ghost use Rattle.office_words.specs.declared.entry.Call.{Call};
ghost use Rattle.office_words.specs.declared.entry.Entry.{Entry};
ghost use Rattle.office_core.specs.Machine.{MayAsk};
ghost use Rattle.office_core.specs.Offices.{machine_in};
ghost use Rattle.office_core.specs.Calls.{machine_seen};

use crate::audits::verdict;
use crate::fixtures::{
    About, ONE_WAY, OVER_A_BRIDGE, ROOM_FOR_TWO, SHUT_WAY, WAY_AROUND, base, entries, full_at,
    has_lines, office_about,
};
use clearance_rules::Steps;
use journal_audit::Verdict;
use names::NoMemory;
use notice_desk::Recall;
use office_core::{CountedOffice, Looked, Office, OfficeCalls, OneSeat};
use office_words::{Call, Entry, Reply};
use reroute_desk::recalls;
use snapshot_store::Snapshot;
use std::alloc::Global;
use std::marker::Brand;
use std::process::Abort;
use std::sync::ledger::{Blank, Ledger};
use trip_analysis::{Application, Base, Proposal, analyse};

// Each day is the lines of a journal: the calls that they have are made, and the journal is then these lines. What a submit
// has is found behind the look before it. Each day is gone through twice, once by calls of the office and once by seats.

// An application once more, of which all is there and nothing refuses it.
pub(crate) fn trip(rt: &impl Abort, base: &Base, application: &Application) -> Application
    ensures { Sound base.now result }
{
    assert!(rt; application.is_sound(base));
    application.try_clone().expect(rt, "memory")
}

// A call once more that submits nothing.
pub(crate) fn call_again(rt: &impl Abort, office: &Office, call: &Call) -> Call
    ensures { MayAsk office.now.base (machine_in office.now) result }
{
    match call {
        Call::Snapshot => Call::Snapshot,
        Call::Submit { .. } => rt.abort(),
        Call::Held { application } => Call::Held {
            application: trip(rt, office.base(), application),
        },
        Call::Post { change } => Call::Post { change: *change },
        Call::Day { day } => Call::Day { day: *day },
        Call::Surrender { number } => Call::Surrender { number: *number },
        Call::Show { number } => Call::Show { number: *number },
    }
}

// A call once more. What was found is handed over where it is submitted.
fn call_of(rt: &impl Abort, office: &Office, found: &mut Option<Call>, call: &Call) -> Call
    requires { IfSome found.old (MayAsk office.now.base (machine_in office.now)) }
    ensures found { IfSome found.new (MayAsk office.now.base (machine_in office.now)) }
    ensures asked { MayAsk office.now.base (machine_in office.now) result }
{
    if matches!(call, Call::Submit { .. }) {
        return found.take().expect(rt, "what was found");
    }
    call_again(rt, office, call)
}

// Makes a call of the office, with this counter.
fn step<L: Ledger>(office: &mut Office, caller: u32, call: Call, blank: Blank) -> Reply
    requires counter { IsBlankOf L.name L.parts blank }
    requires caller { caller < 65536 }
    requires asked { MayAsk office.old.base (machine_in office.old) call }
    ensures { (c : Call) → MayAsk office.old.base (machine_in office.old) c
        → MayAsk office.new.base (machine_in office.new) c }
{
    let mut steps = Steps::<L>::new(blank);
    office.step(caller, call, &mut steps)
}

// Makes it by a seat, which is then gone: the office's history is the one that the seat saw.
fn sit<L: Ledger>(office: &mut CountedOffice<L>, caller: u32, call: Call) -> Reply
    requires caller { caller < 65536 }
    requires asked { MayAsk office.old.office.base (machine_in office.old.office) call }
    ensures grown { (more : List Entry) × (office.new.office.history ≡ office.old.office.history ++ more) }
    ensures asked { (c : Call) → MayAsk office.old.office.base (machine_in office.old.office) c
        → MayAsk office.new.office.base (machine_in office.new.office) c }
{
    let mut seat = OneSeat::new(office, caller);
    ask(&mut seat, call)
}

// Makes it by the office that counts its tests.
fn step_counted<L: Ledger>(office: &mut CountedOffice<L>, caller: u32, call: Call) -> Reply
    requires caller { caller < 65536 }
    requires asked { MayAsk office.old.office.base (machine_in office.old.office) call }
    ensures { (c : Call) → MayAsk office.old.office.base (machine_in office.old.office) c
        → MayAsk office.new.office.base (machine_in office.new.office) c }
{
    office.step(caller, call)
}

// Makes it by whatever calls.
fn ask<C: OfficeCalls>(calls: &mut C, call: Call) -> Reply
    requires { MayAsk (C.view calls.old).who.base (machine_seen (C.view calls.old)) call }
    ensures who { (C.view calls.new).who ≡ (C.view calls.old).who }
    ensures seen { (more : List Entry) × ((C.view calls.new).seen ≡ (C.view calls.old).seen ++ more) }
    ensures asked { (c : Call) → MayAsk (C.view calls.old).who.base (machine_seen (C.view calls.old)) c
        → MayAsk (C.view calls.new).who.base (machine_seen (C.view calls.new)) c }
{
    match call {
        Call::Snapshot => look(calls),
        call => calls.ask(call),
    }
}

// Looks by whatever calls.
fn look<C: OfficeCalls>(calls: &mut C) -> Reply
    ensures who { (C.view calls.new).who ≡ (C.view calls.old).who }
    ensures seen { (more : List Entry) × ((C.view calls.new).seen ≡ (C.view calls.old).seen ++ more) }
    ensures asked { (c : Call) → MayAsk (C.view calls.old).who.base (machine_seen (C.view calls.old)) c
        → MayAsk (C.view calls.new).who.base (machine_seen (C.view calls.new)) c }
{
    match calls.snapshot() {
        Looked::At(snapshot) => Reply::SnapshotAt {
            version: snapshot.version(),
        },
        Looked::NoMemory => Reply::NoMemory,
        Looked::Full { entries } => Reply::Full { entries },
    }
}

// Makes a call.
pub(crate) fn answer(office: &mut Office, caller: u32, call: Call) -> Reply
    requires caller { caller < 65536 }
    requires asked { MayAsk office.old.base (machine_in office.old) call }
    ensures { (c : Call) → MayAsk office.old.base (machine_in office.old) c
        → MayAsk office.new.base (machine_in office.new) c }
{
    step::<Brand>(office, caller, call, Blank::new(1))
}

// Makes a call of an office that counts its tests, by a seat or not.
fn answer_counted<L: Ledger>(
    office: &mut CountedOffice<L>,
    caller: u32,
    call: Call,
    by_seat: bool,
) -> Reply
    requires caller { caller < 65536 }
    requires asked { MayAsk office.old.office.base (machine_in office.old.office) call }
    ensures { (c : Call) → MayAsk office.old.office.base (machine_in office.old.office) c
        → MayAsk office.new.office.base (machine_in office.new.office) c }
{
    if by_seat {
        return sit(office, caller, call);
    }
    step_counted(office, caller, call)
}

// The call that submits what is found now for a trip.
#[tactic(auto, using(office_core::proofs::Founds::found_for))]
pub(crate) fn submission(
    rt: &impl Abort,
    alloc: Global,
    office: &Office,
    application: Application,
) -> Call
    requires { Sound office.now.base application }
    ensures { MayAsk office.now.base (machine_in office.now) result }
{
    let snapshot = office.snapshot().expect(rt, "memory");
    let proposal = look_for::<Brand>(alloc, office.base(), &snapshot, &application, Blank::new(1));
    drop(snapshot);
    Call::Submit {
        application,
        proposal: proposal.expect(rt, "memory"),
    }
}

// What is found for an application at a snapshot.
fn look_for<L: Ledger>(
    alloc: Global,
    base: &Base,
    snapshot: &Snapshot,
    application: &Application,
    blank: Blank,
) -> Result<Proposal, NoMemory>
    requires counter { IsBlankOf L.name L.parts blank }
    requires roads { snapshot.now.roads ≡ base.now.roads }
    requires sound { Sound base.now application.now }
    ensures seen { IfOk result (λ proposal. proposal.seen ≡ postings_of snapshot.now) }
    ensures found { IfOk result (λ proposal. IsFoundAt base.now snapshot.now application.now proposal.what) }
{
    let mut steps = Steps::<L>::new(blank);
    analyse(alloc, base, snapshot, application, &mut steps)
}

// What the first submit of these entries has: what is found now for its trip.
fn found_for(rt: &impl Abort, alloc: Global, office: &Office, entries: &[Entry]) -> Option<Call>
    ensures { IfSome result (MayAsk office.now.base (machine_in office.now)) }
{
    for entry in entries {
        if let Call::Submit { application, .. } = &entry.call {
            let application = trip(rt, office.base(), application);
            return Some(submission(rt, alloc, office, application));
        }
    }
    None
}

// Makes the call of an entry, by a seat or not. How many entries the history held, where it was full, and else 0.
fn serve<L: Ledger>(
    rt: &impl Abort,
    office: &mut CountedOffice<L>,
    found: &mut Option<Call>,
    entry: &Entry,
    by_seat: bool,
) -> u32
    requires { IfSome found.old (MayAsk office.old.office.base (machine_in office.old.office)) }
    ensures { IfSome found.new (MayAsk office.new.office.base (machine_in office.new.office)) }
{
    let call = call_of(rt, office.office(), found, &entry.call);
    let reply = answer_counted(office, entry.caller % 65_536, call, by_seat);
    full_at(reply)
}

// Makes the calls of all entries. The sum of what the replies say that a full history held.
fn serve_each<L: Ledger>(
    rt: &impl Abort,
    alloc: Global,
    office: &mut CountedOffice<L>,
    entries: &[Entry],
    by_seat: bool,
) -> u32 {
    let mut full = 0u32;
    let mut found = None;
    'entries: for (i, entry) in entries.iter().enumerate() {
        full = full.wrapping_add(serve(rt, office, &mut found, entry, by_seat));
        if matches!(&entry.call, Call::Snapshot) {
            found = found_for(rt, alloc, office.office(), &entries[i..]);
        }
    }
    full
}

// A line for each recall: the permit, the version of the posting, and the carrier.
fn lines_of(rt: &impl Abort, alloc: Global, recalls: &[Recall]) -> String {
    let mut lines = String::new(alloc);
    for recall in recalls {
        let (permit, version, carrier) = (recall.permit, recall.version, recall.carrier);
        write!(lines, "{permit} {version} {carrier}\n").expect(rt, "memory");
    }
    lines
}

// The postings of the office recalled these.
fn has_recalls(rt: &impl Abort, alloc: Global, office: &Office, wanted: &str) {
    let listed = recalls(alloc, office.base(), office.history()).expect(rt, "memory");
    let lines = lines_of(rt, alloc, listed.as_slice());
    drop(listed);
    assert!(rt; lines.as_str() == wanted, "{wanted}");
}

// The first of these lines, at most so many.
fn first_lines(rt: &impl Abort, alloc: Global, lines: &str, most: u32) -> String {
    let mut first = String::new(alloc);
    for line in lines.lines().take(most as usize) {
        write!(first, "{line}\n").expect(rt, "memory");
    }
    first
}

// The office has the history and the recalls of a row, and an audit calls that history legal.
fn is_as_said(rt: &impl Abort, alloc: Global, office: &Office, row: &Row) {
    let &((segments, height, most), lines, recalled) = row;
    let first = first_lines(rt, alloc, lines, most);
    has_lines(rt, alloc, office, first.as_str());
    drop(first);
    has_recalls(rt, alloc, office, recalled);
    let verdict = verdict(rt, alloc, segments, height, office.history());
    assert!(rt; verdict == Verdict::Legal, "{lines}");
}

// A day as its row says, in this office. The sum of what the replies say that a full history held.
fn full_in<L: Ledger>(
    rt: &impl Abort,
    alloc: Global,
    office: Office,
    row: &Row,
    by_seat: bool,
    blank: Blank,
) -> u32
    requires counter { IsBlankOf L.name L.parts blank }
    requires opened { office.history ≡ [] }
{
    let mut office = CountedOffice::<L>::new(alloc, office, blank).expect(rt, "memory");
    let entries = entries(rt, alloc, row.1);
    let full = serve_each(rt, alloc, &mut office, entries.as_slice(), by_seat);
    drop(entries);
    is_as_said(rt, alloc, office.office(), row);
    drop(office);
    full
}

// A day goes as its row says, with or without seats. Each call behind the most entries is answered that there are so many.
fn goes(rt: &impl Abort, alloc: Global, row: &Row, by_seat: bool) {
    let &((segments, height, most), lines, _) = row;
    let office = office_about(rt, alloc, base(rt, alloc, segments, height), most);
    let full = full_in::<Brand>(rt, alloc, office, row, by_seat, Blank::new(1));
    let beyond = lines.lines().count().saturating_sub(most as usize);
    assert!(rt;
        full as usize == beyond.wrapping_mul(most as usize),
        "{lines}"
    );
}

// What the office is about; the lines of the journal, of which those behind its room are calls that find that the history is full; and a
// line for each recall: the permit, the version of the posting, and the carrier.
type Row = (About, &'static str, &'static str);

const DAYS: [Row; 9] = [
    // what is behind the most entries is answered that the history is full
    (
        ROOM_FOR_TWO,
        "\
1 show 0 = unknown
1 show 0 = unknown
1 show 0 = unknown
1 snapshot = at 0
1 submit truck 1 from 1 to 2 asked none days 2026-03-02 2026-03-06 seen 0 route 1 = issued 1 at 0 route 1
",
        "",
    ),
    // two postings under which all trucks fit, and one that is lower than the first truck, twice
    (
        ONE_WAY,
        "\
1 held truck 1 from 1 to 2 asked none days 2026-03-02 2026-03-06 = issued 1 at 0 route 1
1 held truck 2 from 1 to 2 asked none days 2026-03-02 2026-03-06 = issued 2 at 0 route 1
2 post segment 1 height 170 = posted 1 recalled -
2 post segment 1 height 169 = posted 2 recalled -
2 post segment 1 height 167 = posted 3 recalled 1
2 post segment 1 height 167 = posted 4 recalled -
2 post segment 2 height 167 = range
1 surrender 1 = notinforce recalled 3
",
        "1 3 ACME\n",
    ),
    // a posting for each of two trucks, of two carriers
    (
        ONE_WAY,
        "\
1 held truck 1 from 1 to 2 asked none days 2026-03-02 2026-03-06 = issued 1 at 0 route 1
1 held truck 2 from 1 to 2 asked none days 2026-03-02 2026-03-06 = issued 2 at 0 route 1
2 post segment 1 height 167 = posted 1 recalled 1
2 post segment 1 height 149 = posted 2 recalled 2
",
        "1 1 ACME\n2 2 BETA\n",
    ),
    // a trip that would begin too late and a legal truck, a day set back, a permit given back by another and twice, and a later day
    (
        ONE_WAY,
        "\
1 snapshot = at 0
1 submit truck 1 from 1 to 2 asked none days 2026-03-01 2026-03-06 seen 0 route 1 = late 2026-03-02
1 snapshot = at 0
1 submit truck 3 from 1 to 2 asked none days 2026-03-02 2026-03-06 seen 0 none = notneeded
1 held truck 3 from 1 to 2 asked none days 2026-03-02 2026-03-06 = notneeded
1 held truck 1 from 1 to 2 asked none days 2026-03-02 2026-03-06 = issued 1 at 0 route 1
1 day 2026-03-01 = dayback 2026-03-02
2 surrender 1 = notyours
1 surrender 1 = surrendered
1 surrender 1 = notinforce surrendered
1 show 0 = unknown
1 day 2026-03-03 = day 2026-03-03
1 held truck 1 from 1 to 2 asked none days 2026-03-02 2026-03-06 = late 2026-03-03
",
        "",
    ),
    // a permit that another looks at
    (
        ONE_WAY,
        "\
1 snapshot = at 0
1 submit truck 1 from 1 to 2 asked none days 2026-03-02 2026-03-06 seen 0 route 1 = issued 1 at 0 route 1
2 show 1 = shown 1 caller 1 truck 1 days 2026-03-02 2026-03-06 at 0 seen 0 inforce
",
        "",
    ),
    // a posting that closes the route that was found, and the way around it
    (
        WAY_AROUND,
        "\
1 snapshot = at 0
2 post segment 1 closed 1 = posted 1 recalled -
1 submit truck 1 from 1 to 2 asked none days 2026-03-02 2026-03-06 seen 0 route 1 = outdated 1 fails segment 1 closed
1 snapshot = at 1
1 submit truck 1 from 1 to 2 asked none days 2026-03-02 2026-03-06 seen 1 route 2,3 = issued 1 at 1 route 2,3
",
        "",
    ),
    // a posting that opens the way which was found to be shut
    (
        SHUT_WAY,
        "\
1 snapshot = at 0
2 post segment 1 height 168 = posted 1 recalled -
1 submit truck 1 from 1 to 2 asked none days 2026-03-02 2026-03-06 seen 0 cut 1 = outdated 1 meets segment 1
1 snapshot = at 1
1 submit truck 1 from 1 to 2 asked none days 2026-03-02 2026-03-06 seen 1 route 1 = issued 1 at 1 route 1
",
        "",
    ),
    // A span of 20 ft that carries just the design truck, until it is posted with a rating of 999: 32,000 lb at the middle.
    (
        OVER_A_BRIDGE,
        "\
1 snapshot = at 0
2 post span 1 rating 999 = posted 1 recalled -
1 submit truck 4 from 1 to 2 asked none days 2026-03-02 2026-03-06 seen 0 route 1 = outdated 1 fails segment 1 span 1 moment 1920000/1 hs20 1920000/1 rating 999
",
        "",
    ),
    // eight tries with a posting between the look and the submit, and then a held call
    (
        ONE_WAY,
        "\
1 snapshot = at 0
2 post segment 1 closed 1 = posted 1 recalled -
1 submit truck 1 from 1 to 2 asked none days 2026-03-02 2026-03-06 seen 0 route 1 = outdated 1 fails segment 1 closed
1 snapshot = at 1
2 post segment 1 closed 0 = posted 2 recalled -
1 submit truck 1 from 1 to 2 asked none days 2026-03-02 2026-03-06 seen 1 cut 1 = outdated 2 meets segment 1
1 snapshot = at 2
2 post segment 1 closed 1 = posted 3 recalled -
1 submit truck 1 from 1 to 2 asked none days 2026-03-02 2026-03-06 seen 2 route 1 = outdated 3 fails segment 1 closed
1 snapshot = at 3
2 post segment 1 closed 0 = posted 4 recalled -
1 submit truck 1 from 1 to 2 asked none days 2026-03-02 2026-03-06 seen 3 cut 1 = outdated 4 meets segment 1
1 snapshot = at 4
2 post segment 1 closed 1 = posted 5 recalled -
1 submit truck 1 from 1 to 2 asked none days 2026-03-02 2026-03-06 seen 4 route 1 = outdated 5 fails segment 1 closed
1 snapshot = at 5
2 post segment 1 closed 0 = posted 6 recalled -
1 submit truck 1 from 1 to 2 asked none days 2026-03-02 2026-03-06 seen 5 cut 1 = outdated 6 meets segment 1
1 snapshot = at 6
2 post segment 1 closed 1 = posted 7 recalled -
1 submit truck 1 from 1 to 2 asked none days 2026-03-02 2026-03-06 seen 6 route 1 = outdated 7 fails segment 1 closed
1 snapshot = at 7
2 post segment 1 closed 0 = posted 8 recalled -
1 submit truck 1 from 1 to 2 asked none days 2026-03-02 2026-03-06 seen 7 cut 1 = outdated 8 meets segment 1
1 held truck 1 from 1 to 2 asked none days 2026-03-02 2026-03-06 = issued 1 at 8 route 1
",
        "",
    ),
];

#[test]
fn days_go_as_their_journals_say(rt: HostRuntime) {
    for row in &DAYS {
        goes(&rt, rt.alloc(), row, false);
        goes(&rt, rt.alloc(), row, true);
    }
}
