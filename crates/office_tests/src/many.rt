ghost use Rattle.std.specs.Prelude.{◌≡◌};
ghost use Rattle.trip_analysis.specs.Applications.{Sound};
ghost use Rattle.office_core.specs.Machine.{MayAsk};
ghost use Rattle.office_core.specs.Offices.{machine_in};

use crate::calls::{answer, call_again, submission, trip};
use crate::fixtures::{TWO_WAYS, base, base_of, entries, office_about};
use office_core::Office;
use office_words::{Call, Entry, Reply};
use restriction_log::Change;
use road_graph::Numbers;
use std::alloc::Global;
use std::process::Abort;
use trip_analysis::{Application, Base, Proposal, What};

// Days of many permits, and roads of many segments and spans.

// Whether the reply issues the permit of this number.
fn is_issue_of(reply: Reply, number: u32) -> bool {
    match reply {
        Reply::Issued { number: issued, .. } => issued == number,
        _ => false,
    }
}

// The first trip issues permits 1 to 100, and the second one 101 to 200.
fn issue_each(rt: &impl Abort, office: &mut Office, trips: &[Entry]) {
    assert!(rt; trips.len() == 2);
    for number in 1..=200u32 {
        let at = if number <= 100 { 0 } else { 1 };
        let call = call_again(rt, office, &trips[at].call);
        assert!(rt;
            is_issue_of(answer(office, 0, call), number),
            "permit {number}"
        );
    }
}

// Closes or opens a segment, and answers which permits are recalled.
fn turn(rt: &impl Abort, office: &mut Office, segment: u32, closed: bool) -> Numbers {
    let change = Change::Closed { segment, closed };
    match answer(office, 1, Call::Post { change }) {
        Reply::Posted { recalled, .. } => recalled,
        _ => rt.abort(),
    }
}

// The numbers 101 to 200 but for one.
fn are_wanted(recalled: &[u32], but: u32) -> bool {
    let mut wanted = 101u32;
    for &number in recalled {
        if wanted == but {
            wanted = wanted.wrapping_add(1);
        }
        if number != wanted {
            return false;
        }
        wanted = wanted.wrapping_add(1);
    }
    wanted == 201
}

// The trip of the first truck from node a to node b by each of two segments.
const BY_EACH: &str = "\
1 held truck 1 from 1 to 2 asked 1 days 2026-03-02 2026-03-06 = nomemory
1 held truck 1 from 1 to 2 asked 2 days 2026-03-02 2026-03-06 = nomemory
";

// Permits 1 to 100 by the first segment and 101 to 200 by the second, of which one may be given back before the second is
// closed. Who is recalled then is in the list, but for the one that was given back.
fn close_second(rt: &impl Abort, alloc: Global, given_back: u32) {
    let trips = entries(rt, alloc, BY_EACH);
    let mut office = office_about(rt, alloc, base(rt, alloc, TWO_WAYS, 168), 300);
    issue_each(rt, &mut office, trips.as_slice());
    drop(trips);
    let number = given_back;
    drop(answer(&mut office, 0, Call::Surrender { number }));
    let recalled = turn(rt, &mut office, 1, true);
    drop(office);
    assert!(rt; are_wanted(recalled.as_slice(), given_back));
}

#[test]
fn recalls_just_who_is_on_the_segment(rt: HostRuntime) {
    close_second(&rt, rt.alloc(), 0);
    close_second(&rt, rt.alloc(), 150);
}

// A truck of 32 axles of 62,500 lb, 31 of them 96 in apart.
const LONG_TRUCK: &str = "\
truck,t1,ACME,150,102,3000,\
    0:62500 96:62500 192:62500 288:62500 384:62500 480:62500 576:62500 672:62500 \
    768:62500 864:62500 960:62500 1056:62500 1152:62500 1248:62500 1344:62500 1440:62500 \
    1536:62500 1632:62500 1728:62500 1824:62500 1920:62500 2016:62500 2112:62500 2208:62500 \
    2304:62500 2400:62500 2496:62500 2592:62500 2688:62500 2784:62500 2880:62500 3000:62500,
";

// Roads in one line, and the truck: so many segments, each from one node to the next and with so many spans of the greatest length and
// rating, and one segment more beside the first. The trip from the first node to the last.
struct Line {
    segments: u32,
    spans_each: u32,
    trip: &'static str,
}

// Adds to a text.
fn add(rt: &impl Abort, text: &mut String, more: &str) {
    text.push_str(more).expect(rt, "memory");
}

// The records of a segment, with the node that it leads to and its spans.
fn add_segment(rt: &impl Abort, alloc: Global, text: &mut String, line: &Line, i: u32) {
    let next = i.wrapping_add(1);
    let records = format!(in alloc; "node,n{next},,,,,,\nsegment,r{i},n{i},n{next},1000,,,\n");
    add(rt, text, records.expect(rt, "memory").as_str());
    for j in 0..line.spans_each {
        let record = format!(in alloc; "span,s{i}-{j},r{i},6000,100000,,,\n");
        add(rt, text, record.expect(rt, "memory").as_str());
    }
}

// An office about these roads with room for so many entries.
fn start(rt: &impl Abort, alloc: Global, line: &Line, most: u32) -> Office {
    let mut text = String::new(alloc);
    add(rt, &mut text, "day,2026-03-02,,,,,,\nnode,n0,,,,,,\n");
    for i in 0..line.segments {
        add_segment(rt, alloc, &mut text, line, i);
    }
    add(rt, &mut text, "segment,beside,n0,n1,1000,,,\n");
    add(rt, &mut text, LONG_TRUCK);
    add(rt, &mut text, "end,,,,,,,\n");
    let base = base_of(rt, alloc, text.as_str());
    drop(text);
    office_about(rt, alloc, base, most)
}

// The trip of the one entry.
fn trip_of(rt: &impl Abort, base: &Base, entries: &[Entry]) -> Application
    ensures { Sound base.now result }
{
    assert!(rt; entries.len() == 1);
    match &entries[0].call {
        Call::Held { application } => trip(rt, base, application),
        _ => rt.abort(),
    }
}

// The call that submits what is found now for the trip.
fn found_now(rt: &impl Abort, alloc: Global, office: &Office, line: &Line) -> Call
    ensures { MayAsk office.now.base (machine_in office.now) result }
{
    let trips = entries(rt, alloc, line.trip);
    let application = trip_of(rt, office.base(), trips.as_slice());
    drop(trips);
    submission(rt, alloc, office, application)
}

// The routes that were found, with one more owner.
fn copy_of_route(rt: &impl Abort, what: &What) -> What
    ensures { result ≡ what.now }
{
    match what {
        What::Route(routes) => What::Route(routes.clone().expect(rt, "memory")),
        _ => rt.abort(),
    }
}

// The call that submits a route, once more.
fn copy_of(rt: &impl Abort, call: &Call) -> Call
    ensures { result ≡ call.now }
{
    match call {
        Call::Submit {
            application,
            proposal,
        } => Call::Submit {
            application: application.try_clone().expect(rt, "memory"),
            proposal: Proposal {
                seen: proposal.seen,
                what: copy_of_route(rt, &proposal.what),
            },
        },
        _ => rt.abort(),
    }
}

// Submits so many copies of what was found, each of which issues a permit.
fn submit_copies(rt: &impl Abort, office: &mut Office, call: &Call, count: u32)
    requires found { MayAsk office.old.base (machine_in office.old) call.now }
{
    'copies: for i in 0..count {
        let reply = answer(office, 0, copy_of(rt, call));
        assert!(rt; is_issue_of(reply, i + 1), "copy {i}");
    }
}

// 50,000 permits on the line, and 100 postings of the segment beside it. No segment changed when the permits are issued, and no
// permit is on the segment that is posted: neither may cost a test of all spans for each.
fn issue_many(rt: &impl Abort, alloc: Global, line: &Line) {
    let mut office = start(rt, alloc, line, 50_100);
    let call = found_now(rt, alloc, &office, line);
    submit_copies(rt, &mut office, &call, 50_000);
    drop(call);
    for i in 0..100u32 {
        let recalled = turn(rt, &mut office, line.segments, i % 2 == 0);
        assert!(rt; recalled.as_slice().is_empty(), "posting {i}");
    }
    drop(office);
}

// A bridge of 16 spans, and 128 of them.
const BRIDGES: [Line; 2] = [
    Line {
        segments: 1,
        spans_each: 16,
        trip: "1 held truck 1 from 1 to 2 asked 1 days 2026-03-02 2026-03-06 = nomemory\n",
    },
    Line {
        segments: 128,
        spans_each: 16,
        trip: "1 held truck 1 from 1 to 129 asked none days 2026-03-02 2026-03-06 = nomemory\n",
    },
];

#[test]
fn costs_what_changed_and_what_stands_there(rt: HostRuntime) {
    for line in &BRIDGES {
        issue_many(&rt, rt.alloc(), line);
    }
}

const LONG: Line = Line {
    segments: 200,
    spans_each: 0,
    trip: "1 held truck 1 from 1 to 201 asked none days 2026-03-02 2026-03-06 = nomemory\n",
};

// Looks at the long roads, then posts the 100th segment as another caller so that it meets, and submits what was found.
fn submit_after(rt: &impl Abort, alloc: Global) -> Reply {
    let mut office = start(rt, alloc, &LONG, 100);
    let call = found_now(rt, alloc, &office, &LONG);
    let change = Change::Height {
        segment: 99,
        inches: 168,
    };
    drop(answer(&mut office, 1, Call::Post { change }));
    let reply = answer(&mut office, 0, call);
    drop(office);
    reply
}

#[test]
fn issues_a_long_route_of_which_one_segment_changed(rt: HostRuntime) {
    let is_wanted = match submit_after(&rt, rt.alloc()) {
        Reply::Issued {
            number: 1,
            version: 1,
            routes,
        } => routes.all().len() == 200,
        _ => false,
    };
    assert!(rt; is_wanted);
}
