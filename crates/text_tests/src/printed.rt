// The lines that entries are printed as. They stand here, and not in the crate of the printer, which is proved once so. Beside
// these are the forms that the files of `examples/` show.

use crate::fixtures::holds;
use clearance_rules::Limit;
use influence_line::Frac;
use journal_text::print;
use office_words::{Call, Cause, Entry, Reply};
use permit_book::Status;
use permit_days::Day;
use restriction_log::Change;
use road_graph::{Numbers, SharedNumbers};
use std::alloc::Global;
use std::process::Abort;
use trip_analysis::{Application, Proposal, What};
use trip_routes::{Routes, SharedRoutes};

// The day of a text, which writes one.
fn day(rt: &impl Abort, text: &str) -> Day {
    Day::read(text.as_bytes()).expect(rt, "a day")
}

// The list of this number.
fn one(rt: &impl Abort, alloc: Global, number: u32) -> Numbers {
    Numbers::of(Vec::from_slice(alloc, &[number]).expect(rt, "memory"))
}

// The route along the first segment alone, or that and the one along the second.
fn routes(rt: &impl Abort, alloc: Global, count: u32) -> SharedRoutes {
    let mut routes = Routes::one(one(rt, alloc, 0));
    if count == 2 {
        routes.push(&one(rt, alloc, 1)).expect(rt, "a route");
    }
    SharedRoutes::of(alloc, routes).expect(rt, "memory")
}

// An application for the first truck from the first node to the second, until the sixth of the month, that asks for so many
// routes.
fn trip(rt: &impl Abort, alloc: Global, asked: u32, first: &str) -> Application {
    let asked = if asked == 0 {
        None
    } else {
        Some(routes(rt, alloc, asked))
    };
    Application::of_fields(0, 0, 1, asked, day(rt, first), day(rt, "2026-03-06"))
}

// Adds an entry of the first caller to a history.
fn add(rt: &impl Abort, history: &mut Vec<Entry>, call: Call, reply: Reply) {
    let caller = 0;
    let added = history.push(Entry {
        caller,
        call,
        reply,
    });
    added.expect(rt, "memory");
}

// The journal of a history has these lines between its first and its last.
fn has_lines(rt: &impl Abort, alloc: Global, history: Vec<Entry>, lines: &str) {
    let text = print(alloc, &history).expect(rt, "memory");
    let entries = history.len();
    drop(history);
    let wanted = format!(in alloc; "permit-journal 3\n{lines}end {entries}\n");
    let wanted = wanted.expect(rt, "memory");
    holds(rt, text.as_slice() == wanted.as_bytes(), lines);
}

// What was found at the opening: so many routes, or the first node or segment.
#[derive(Clone, Copy)]
enum Found {
    Routes(u32),
    Cut,
    Fails,
    NotNeeded,
}

fn what(rt: &impl Abort, alloc: Global, found: Found) -> What {
    match found {
        Found::Routes(count) => What::Route(routes(rt, alloc, count)),
        Found::Cut => {
            What::Cut(SharedNumbers::of(alloc, one(rt, alloc, 0)).expect(rt, "memory"))
        }
        Found::Fails => What::Fails { segment: 0 },
        Found::NotNeeded => What::NotNeeded,
    }
}

// What is answered: a permit on so many routes, or why there is none.
#[derive(Clone, Copy)]
enum Answer {
    Issued(u32),
    NoRoad,
    Closed,
    NotNeeded,
    Late,
    NowMeets,
}

fn reply(rt: &impl Abort, alloc: Global, answer: Answer) -> Reply {
    let segment = 0;
    match answer {
        Answer::Issued(count) => Reply::Issued {
            number: 1,
            version: 0,
            routes: routes(rt, alloc, count),
        },
        Answer::NoRoad => Reply::NoRoad,
        Answer::Closed => Reply::Refused {
            version: 0,
            limit: Limit::Closed { segment },
        },
        Answer::NotNeeded => Reply::NotNeeded,
        Answer::Late => Reply::Late {
            day: day(rt, "2026-03-02"),
        },
        Answer::NowMeets => Reply::Outdated {
            version: 1,
            cause: Cause::NowMeets { segment },
        },
    }
}

// How many routes are asked for, the first day, what was found, and what is answered.
const SUBMITTED: [(u32, &str, Found, Answer); 7] = [
    (0, "2026-03-02", Found::Routes(1), Answer::Issued(1)),
    (2, "2026-03-02", Found::Routes(2), Answer::Issued(2)),
    (0, "2026-03-02", Found::Cut, Answer::NoRoad),
    (1, "2026-03-02", Found::Fails, Answer::Closed),
    (0, "2026-03-02", Found::NotNeeded, Answer::NotNeeded),
    (0, "2026-03-01", Found::NotNeeded, Answer::Late),
    (0, "2026-03-02", Found::NotNeeded, Answer::NowMeets),
];

// Their lines.
const SUBMITTED_LINES: &str = "\
1 submit truck 1 from 1 to 2 asked none days 2026-03-02 2026-03-06 seen 0 route 1 = issued 1 at 0 route 1
1 submit truck 1 from 1 to 2 asked 1/2 days 2026-03-02 2026-03-06 seen 0 route 1/2 = issued 1 at 0 route 1/2
1 submit truck 1 from 1 to 2 asked none days 2026-03-02 2026-03-06 seen 0 cut 1 = noroad
1 submit truck 1 from 1 to 2 asked 1 days 2026-03-02 2026-03-06 seen 0 fails 1 = refused 0 segment 1 closed
1 submit truck 1 from 1 to 2 asked none days 2026-03-02 2026-03-06 seen 0 none = notneeded
1 submit truck 1 from 1 to 2 asked none days 2026-03-01 2026-03-06 seen 0 none = late 2026-03-02
1 submit truck 1 from 1 to 2 asked none days 2026-03-02 2026-03-06 seen 0 none = outdated 1 meets segment 1
";

#[test]
fn writes_what_is_submitted(rt: HostRuntime) {
    let alloc = rt.alloc();
    let mut history = Vec::new(alloc);
    for &(asked, first, found, answer) in &SUBMITTED {
        let application = trip(&rt, alloc, asked, first);
        let what = what(&rt, alloc, found);
        let proposal = Proposal { seen: 0, what };
        let call = Call::Submit {
            application,
            proposal,
        };
        add(&rt, &mut history, call, reply(&rt, alloc, answer));
    }
    has_lines(&rt, alloc, history, SUBMITTED_LINES);
}

// Limits of the first segment. A shear of 41,600 lb, as of the design truck, is over a rating of 999.
fn limits() -> [Limit; 5] {
    let (segment, span, shear) = (0, 0, Frac::reduced(41_600, 1));
    [
        Limit::Height {
            segment,
            has: 168,
            allowed: 167,
        },
        Limit::Width {
            segment,
            has: 110,
            allowed: 109,
        },
        Limit::Length {
            segment,
            has: 720,
            allowed: 719,
        },
        Limit::Gross {
            segment,
            has: 80_000,
            allowed: 79_999,
        },
        Limit::Shear {
            segment,
            span,
            has: shear,
            design: shear,
            rating: 999,
        },
    ]
}

const LIMIT_LINES: &str = "\
1 held truck 1 from 1 to 2 asked none days 2026-03-02 2026-03-06 = refused 1 segment 1 height 168 over 167
1 held truck 1 from 1 to 2 asked none days 2026-03-02 2026-03-06 = refused 1 segment 1 width 110 over 109
1 held truck 1 from 1 to 2 asked none days 2026-03-02 2026-03-06 = refused 1 segment 1 length 720 over 719
1 held truck 1 from 1 to 2 asked none days 2026-03-02 2026-03-06 = refused 1 segment 1 gross 80000 over 79999
1 held truck 1 from 1 to 2 asked none days 2026-03-02 2026-03-06 = refused 1 segment 1 span 1 shear 41600/1 hs20 41600/1 rating 999
";

// Applications that the office itself looked at.
#[test]
fn writes_each_limit_that_fails(rt: HostRuntime) {
    let alloc = rt.alloc();
    let mut history = Vec::new(alloc);
    for limit in limits() {
        let application = trip(&rt, alloc, 0, "2026-03-02");
        let refused = Reply::Refused { version: 1, limit };
        add(&rt, &mut history, Call::Held { application }, refused);
    }
    has_lines(&rt, alloc, history, LIMIT_LINES);
}

// Each posted as the first change, by which no permit is recalled.
const POSTED: [Change; 4] = [
    Change::Closed {
        segment: 0,
        closed: true,
    },
    Change::Width {
        segment: 0,
        inches: 102,
    },
    Change::Length {
        segment: 0,
        inches: 720,
    },
    Change::Gross {
        segment: 0,
        pounds: 80_000,
    },
];

const POSTED_LINES: &str = "\
1 post segment 1 closed 1 = posted 1 recalled -
1 post segment 1 width 102 = posted 1 recalled -
1 post segment 1 length 720 = posted 1 recalled -
1 post segment 1 gross 80000 = posted 1 recalled -
";

#[test]
fn writes_what_is_posted(rt: HostRuntime) {
    let alloc = rt.alloc();
    let mut history = Vec::new(alloc);
    for &change in &POSTED {
        let posted = Reply::Posted {
            version: 1,
            recalled: Numbers::of(Vec::new(alloc)),
        };
        add(&rt, &mut history, Call::Post { change }, posted);
    }
    has_lines(&rt, alloc, history, POSTED_LINES);
}

// What is said of the first permit while it is in force.
fn shown(rt: &impl Abort) -> Reply {
    Reply::Shown {
        number: 1,
        caller: 0,
        truck: 0,
        first: day(rt, "2026-03-02"),
        last: day(rt, "2026-03-06"),
        version: 0,
        seen: 0,
        status: Status::InForce,
    }
}

const SAID_LINES: &str = "\
1 snapshot = at 0
1 day 2026-03-07 = day 2026-03-07
1 show 1 = shown 1 caller 1 truck 1 days 2026-03-02 2026-03-06 at 0 seen 0 inforce
1 surrender 1 = notinforce expired
";

#[test]
fn writes_what_is_said_of_versions_days_and_permits(rt: HostRuntime) {
    let alloc = rt.alloc();
    let mut history = Vec::new(alloc);
    let (number, status, day) = (1, Status::Expired, day(&rt, "2026-03-07"));
    add(
        &rt,
        &mut history,
        Call::Snapshot,
        Reply::SnapshotAt { version: 0 },
    );
    add(&rt, &mut history, Call::Day { day }, Reply::DayIs { day });
    add(&rt, &mut history, Call::Show { number }, shown(&rt));
    add(
        &rt,
        &mut history,
        Call::Surrender { number },
        Reply::NotInForce { status },
    );
    has_lines(&rt, alloc, history, SAID_LINES);
}
