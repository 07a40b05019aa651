ghost use Rattle.std.specs.Prelude.{◌≡◌, ◌<◌, []};
ghost use Rattle.clearance_rules.specs.Counters.{IsBlankOf};
ghost use Rattle.office_core.specs.Machine.{MayAsk};
ghost use Rattle.office_core.specs.Offices.{machine_in};
ghost use Rattle.reroute_desk.specs.Desks.{KeepsUp};

use crate::calls::{call_again, submission, trip};
use crate::fixtures::{AROUND, base, entries, has_lines, office_about};
use office_core::{CountedOffice, Office};
use office_words::{Call, Entry, Reply};
use reroute_desk::{
    Handled, HandledAs, RerouteRefusal, Rerouter, calls_of_others_keep_up, new_desks_keep_up,
};
use std::alloc::{AllocError, Global};
use std::marker::Brand;
use std::process::Abort;
use std::sync::ledger::{Blank, Ledger};

// A desk whose caller is 2, beside an office that caller 1 calls. Its first truck needs a permit; the roads are one segment from
// the first node to the second, and a way around it by two others.

// An office with no entry, and a counter of its tests.
fn counted<L: Ledger>(
    rt: &impl Abort,
    alloc: Global,
    office: Office,
    blank: Blank,
) -> CountedOffice<L>
    requires counter { IsBlankOf L.name L.parts blank }
    requires opened { office.history ≡ [] }
    ensures { result.office ≡ office }
{
    CountedOffice::new(alloc, office, blank).expect(rt, "memory")
}

// An office about these roads with room for so many entries, and a new desk.
fn beside<L: Ledger>(
    rt: &impl Abort,
    alloc: Global,
    most: u32,
    blank: Blank,
) -> (CountedOffice<L>, Rerouter)
    requires counter { IsBlankOf L.name L.parts blank }
    ensures caller { result.1.caller ≡ 1 }
    ensures kept { KeepsUp result.1 result.0.office }
{
    new_desks_keep_up();
    let office = office_about(rt, alloc, base(rt, alloc, AROUND, 168), most);
    (counted(rt, alloc, office, blank), Rerouter::new(alloc, 1))
}

// A call once more. A submit has what is found now.
fn call_once_more(rt: &impl Abort, alloc: Global, office: &Office, call: &Call) -> Call
    ensures { MayAsk office.now.base (machine_in office.now) result }
{
    match call {
        Call::Submit { application, .. } => {
            let application = trip(rt, office.base(), application);
            submission(rt, alloc, office, application)
        }
        call => call_again(rt, office, call),
    }
}

// Caller 1 makes a call.
fn ask<L: Ledger>(desk: &Rerouter, office: &mut CountedOffice<L>, call: Call) -> Reply
    requires caller { desk.now.caller ≡ 1 }
    requires kept { KeepsUp desk.now office.old.office }
    requires asked { MayAsk office.old.office.base (machine_in office.old.office) call }
    ensures { KeepsUp desk.now office.new.office }
{
    calls_of_others_keep_up();
    office.step(0, call)
}

// The desk catches up where the entry is its own. Else caller 1 makes its call.
fn go_on<L: Ledger>(
    rt: &impl Abort,
    alloc: Global,
    desk: &mut Rerouter,
    office: &mut CountedOffice<L>,
    entry: &Entry,
)
    requires caller { desk.old.caller ≡ 1 }
    requires kept { KeepsUp desk.old office.old.office }
    ensures caller { desk.new.caller ≡ 1 }
    ensures kept { KeepsUp desk.new office.new.office }
{
    if entry.caller == 1 {
        assert!(rt; desk.catch_up(office).is_ok());
    } else {
        let call = call_once_more(rt, alloc, office.office(), &entry.call);
        drop(ask(desk, office, call));
    }
}

// The same with all entries. What the desk answers where it catches up behind them, and once more.
fn go_through<L: Ledger>(
    rt: &impl Abort,
    alloc: Global,
    desk: &mut Rerouter,
    office: &mut CountedOffice<L>,
    entries: &[Entry],
) -> [Result<(), RerouteRefusal>; 2]
    requires caller { desk.old.caller ≡ 1 }
    requires kept { KeepsUp desk.old office.old.office }
{
    'entries: for entry in entries {
        go_on(rt, alloc, desk, office, entry);
    }
    [desk.catch_up(office), desk.catch_up(office)]
}

// What became of a recalled permit: nothing; the new permit, its version, how many routes it has and their segments; or the version and
// the limit.
fn told(alloc: Global, item: &Handled) -> Result<String, AllocError> {
    let old = item.old;
    match &item.what {
        HandledAs::Ended => format!(in alloc; "{old} ended\n"),
        HandledAs::Replaced {
            number,
            version,
            routes,
        } => {
            let (count, all) = (routes.len(), routes.all());
            format!(in alloc; "{old} replaced {number} at {version} by {count} along {all:?}\n")
        }
        HandledAs::Refused { version, limit } => {
            format!(in alloc; "{old} refused at {version} by {limit:?}\n")
        }
    }
}

// The desk handled these.
fn has_handled(rt: &impl Abort, alloc: Global, handled: &[Handled], wanted: &str) {
    let mut lines = String::new(alloc);
    for item in handled {
        let line = told(alloc, item).expect(rt, "memory");
        lines.push_str(line.as_str()).expect(rt, "memory");
    }
    assert!(rt; lines.as_str() == wanted, "{wanted}");
}

// How many entries the office has room for, and the entries: those of caller 2 are made by the desk, which catches up there. Then what
// it answers where it catches up behind them and once more, and what became of the permits that were recalled.
type Row = (u32, &'static str, Result<(), RerouteRefusal>, &'static str);

const ROWS: [Row; 3] = [
    // The way of permit 1 is closed, so it is replaced by permit 2 along the way around. That is closed too, so permit 2 is not
    // replaced. Each is applied for once.
    (
        100,
        "\
1 held truck 1 from 1 to 2 asked none days 2026-03-02 2026-03-06 = issued 1 at 0 route 1
1 post segment 1 closed 1 = posted 1 recalled 1
2 held truck 1 from 1 to 2 asked none days 2026-03-02 2026-03-06 = issued 2 at 1 route 2,3
1 post segment 3 closed 1 = posted 2 recalled 2
2 held truck 1 from 1 to 2 asked none days 2026-03-02 2026-03-06 = refused 2 segment 1 closed
",
        Ok(()),
        "\
1 replaced 2 at 1 by 1 along [1, 2]
2 refused at 2 by Closed { segment: 0 }
",
    ),
    // Permit 1 is recalled, and expires before the desk catches up: nothing is asked for.
    (
        100,
        "\
1 held truck 1 from 1 to 2 asked none days 2026-03-02 2026-03-06 = issued 1 at 0 route 1
1 post segment 1 closed 1 = posted 1 recalled 1
1 day 2026-03-07 = day 2026-03-07
",
        Ok(()),
        "1 ended\n",
    ),
    // The history is full before permit 1 is applied for again.
    (
        3,
        "\
1 snapshot = at 0
1 submit truck 1 from 1 to 2 asked none days 2026-03-02 2026-03-06 seen 0 route 1 = issued 1 at 0 route 1
1 post segment 1 closed 1 = posted 1 recalled 1
",
        Err(RerouteRefusal::Full { entries: 3 }),
        "",
    ),
];

// The desk and the office do what a row says.
fn catches_up<L: Ledger>(rt: &impl Abort, alloc: Global, row: &Row, blank: Blank)
    requires counter { IsBlankOf L.name L.parts blank }
{
    let &(most, lines, answer, handled) = row;
    let (mut office, mut desk) = beside::<L>(rt, alloc, most, blank);
    let entries = entries(rt, alloc, lines);
    let answers = go_through(rt, alloc, &mut desk, &mut office, entries.as_slice());
    drop(entries);
    has_lines(rt, alloc, office.office(), lines);
    drop(office);
    has_handled(rt, alloc, desk.handled(), handled);
    drop(desk);
    assert!(rt; answers == [answer, answer], "{lines}");
}

#[test]
fn applies_again_once_for_each_recalled_permit(rt: HostRuntime) {
    for row in &ROWS {
        catches_up::<Brand>(&rt, rt.alloc(), row, Blank::new(1));
    }
}
