ghost use Rattle.std.specs.Prelude.{◌≡◌, ◌<◌, ◌↔◌, length, All, IsTrue};
ghost use Rattle.clearance_rules.specs.Counters.{IsBlankOf};
ghost use Rattle.restriction_log.specs.States.{AreOf};
ghost use Rattle.trip_analysis.specs.Applications.{AreAskedThere};
ghost use Rattle.snapshot_store.specs.Stores.{IsLater};
ghost use Rattle.trip_analysis.specs.Followers.{GoesOn};

use crate::fixtures::{
    HEIGHT, Piece, after, base_state, change, day, entries, holds, named, network, same, train,
};
use clearance_rules::{Limit, Load, Steps};
use office_words::{Call, Entry};
use restriction_log::{Change, State};
use road_graph::{Network, Numbers, SharedNumbers};
use snapshot_store::Store;
use span_rating::SpanStudy;
use std::alloc::{AllocError, Global};
use std::marker::Brand;
use std::process::Abort;
use std::sync::ledger::{Blank, Ledger};
use trip_analysis::{
    Application, ApplicationRefusal, Base, Failing, Follower, NodeSet, Proposal, Truck, TruckOn,
    What, asked_findings_are_of_the_routes, find, findings_hold, free_findings_are_of_walks,
    routes_break_off_where_walks_do,
};
use trip_routes::SharedRoutes;

// What was built is let go by a call of `drop`: where a scope lets it go, the proof of the whole function goes through
// its parts.

// Nodes 0, 1 and 2, with two ways from node 0 to node 1: segment 0, and segments 1 and 2 by node 2. On segment 0 are two
// spans of 360 in, which carry twice the HS20-44 truck.
const WAYS: [Piece; 8] = [
    Piece::Node(b"a"),
    Piece::Node(b"b"),
    Piece::Node(b"c"),
    Piece::Segment(b"ab", 0, 1, 1_000),
    Piece::Segment(b"ac", 0, 2, 1_000),
    Piece::Segment(b"cb", 2, 1, 1_000),
    Piece::Span(b"s", 0, 360, 2_000),
    Piece::Span(b"t", 0, 360, 2_000),
];

// Axles within the limits of 23 CFR 658.17: 20,000 lb an axle, 34,000 lb for the tandem of 48 in, and by the formula 45,000 lb
// for the first two axles and 50,000 lb for all three.
const AXLES: [(u32, u32); 3] = [(0, 12_000), (180, 17_000), (228, 17_000)];

// A truck of these axles, 102 in by 720 in.
fn truck(rt: &impl Abort, alloc: Global, name: &[u8], height: u32) -> Truck {
    let train = train(rt, alloc, &AXLES);
    Truck {
        name: named(rt, name),
        carrier: named(rt, b"carrier"),
        load: Load::new(height, 102, 720, train).expect(rt, "a load"),
    }
}

// Roads with truck 0, which at 168 in is higher than 162 in and needs a permit, and truck 1, which is legal.
fn base(rt: &impl Abort, alloc: Global) -> Base {
    let mut fleet = Vec::new(alloc);
    fleet
        .push(truck(rt, alloc, b"high", 168))
        .expect(rt, "memory");
    fleet
        .push(truck(rt, alloc, b"legal", 160))
        .expect(rt, "memory");
    Base::new(network(rt, alloc, &WAYS), fleet)
}

// Whether the segments of a list are there.
fn are_there(network: &Network, list: &[u32]) -> bool
    ensures { IsTrue result ↔ All (λ s. s < length network.now.segments) list.now }
{
    let count = network.segments();
    list.iter().all(|s| *s < count)
}

// The routes that are asked for, along segments that are there.
fn asked_there(
    rt: &impl Abort,
    network: &Network,
    asked: Option<&SharedRoutes>,
) -> Option<SharedRoutes>
    ensures { AreAskedThere network.now result }
{
    let routes = asked?;
    assert!(rt; are_there(network, routes.all()));
    Some(routes.clone().expect(rt, "memory"))
}

// What is answered to these fields of an application, whose truck, nodes and segments are there.
fn refusal(rt: &impl Abort, base: &Base, of: &Application) -> Option<ApplicationRefusal> {
    let (truck, from, to, nodes) = (of.truck(), of.from(), of.to(), base.network().nodes());
    assert!(rt; (truck as usize) < base.fleet().len() && from < nodes && to < nodes);
    let asked = asked_there(rt, base.network(), of.asked());
    Application::new(base, truck, from, to, asked, of.first(), of.last()).err()
}

// The application of an entry.
fn asked_for<'a>(rt: &impl Abort, entry: &'a Entry) -> &'a Application {
    match &entry.call {
        Call::Held { application } => application,
        _ => rt.abort(),
    }
}

// What is answered to applications, or none where they are taken. Where several causes apply, the first is named. The days
// from 2 March 2026 to 2 March 2027 are 365, and those from 28 February 2024 to 28 February 2025 are 366.
const ANSWERS: [(Option<ApplicationRefusal>, &str); 8] = [
    (
        Some(ApplicationRefusal::SamePlace),
        "\
1 held truck 1 from 1 to 1 asked 3 days 2026-03-03 2026-03-02 = nomemory
",
    ),
    (
        Some(ApplicationRefusal::BrokenRoute { route: 0, at: 1 }),
        "\
1 held truck 1 from 1 to 2 asked 2,1 days 2026-03-03 2026-03-02 = nomemory
1 held truck 1 from 1 to 2 asked 2 days 2026-03-02 2026-03-02 = nomemory
",
    ),
    (
        Some(ApplicationRefusal::BrokenRoute { route: 0, at: 0 }),
        "\
1 held truck 1 from 1 to 2 asked 3 days 2026-03-02 2026-03-02 = nomemory
1 held truck 1 from 1 to 2 asked - days 2026-03-02 2026-03-02 = nomemory
",
    ),
    (
        Some(ApplicationRefusal::DayOrder),
        "\
1 held truck 1 from 1 to 2 asked 2,3 days 2026-03-03 2026-03-02 = nomemory
1 held truck 1 from 1 to 2 asked none days 2026-03-03 2026-03-02 = nomemory
1 held truck 1 from 1 to 2 asked 1/2,3 days 2026-03-03 2026-03-02 = nomemory
",
    ),
    (
        None,
        "\
1 held truck 1 from 1 to 2 asked none days 2026-03-02 2026-03-02 = nomemory
1 held truck 1 from 1 to 2 asked 2,3 days 2026-03-02 2026-03-03 = nomemory
1 held truck 1 from 1 to 2 asked 1/2,3 days 2026-03-02 2027-03-02 = nomemory
1 held truck 1 from 1 to 2 asked 1/1 days 2024-02-28 2025-02-27 = nomemory
1 held truck 1 from 1 to 2 asked 1 days 2026-03-02 2027-03-03 = nomemory
1 held truck 1 from 1 to 2 asked none days 2026-03-02 2027-03-03 = nomemory
1 held truck 1 from 1 to 2 asked 1/1/1/1/1/1/1/2,3 days 2026-03-02 2027-03-02 = nomemory
",
    ),
    (
        Some(ApplicationRefusal::BrokenRoute { route: 1, at: 1 }),
        "\
1 held truck 1 from 1 to 2 asked 1/2 days 2026-03-02 2027-03-03 = nomemory
",
    ),
    (
        Some(ApplicationRefusal::BrokenRoute { route: 2, at: 0 }),
        "\
1 held truck 1 from 1 to 2 asked 2,3/1/3/2 days 2026-03-03 2026-03-02 = nomemory
",
    ),
    (
        Some(ApplicationRefusal::AnnualDays { days: 366 }),
        "\
1 held truck 1 from 1 to 2 asked 1/2,3 days 2026-03-02 2027-03-03 = nomemory
1 held truck 1 from 1 to 2 asked 1/1 days 2024-02-28 2025-02-28 = nomemory
",
    ),
];

// Applications that name a truck, a node or a segment that is not there.
const ABSENT: &str = "\
1 held truck 3 from 1 to 2 asked none days 2026-03-02 2026-03-02 = nomemory
1 held truck 1 from 4 to 2 asked none days 2026-03-02 2026-03-02 = nomemory
1 held truck 1 from 1 to 4 asked none days 2026-03-02 2026-03-02 = nomemory
1 held truck 1 from 1 to 2 asked 1/4 days 2026-03-02 2026-03-02 = nomemory
";

// These applications are refused for this cause, or else taken. One of which nothing was tested is sound exactly where it is taken.
fn are_answered(
    rt: &impl Abort,
    base: &Base,
    entries: &[Entry],
    wanted: Option<ApplicationRefusal>,
) {
    for (row, entry) in entries.iter().enumerate() {
        let application = asked_for(rt, entry);
        same(rt, row, refusal(rt, base, application), wanted);
        same(rt, row, application.is_sound(base), wanted.is_none());
    }
}

fn are_absent(rt: &impl Abort, base: &Base, entries: &[Entry]) {
    for (row, entry) in entries.iter().enumerate() {
        same(rt, row, asked_for(rt, entry).is_sound(base), false);
    }
}

fn answer_each(rt: &impl Abort, alloc: Global, base: &Base) {
    for &(wanted, lines) in &ANSWERS {
        let entries = entries(rt, alloc, lines);
        are_answered(rt, base, entries.as_slice(), wanted);
        drop(entries);
    }
    let entries = entries(rt, alloc, ABSENT);
    are_absent(rt, base, entries.as_slice());
    drop(entries);
}

#[test]
fn refuses_an_application_for_its_first_cause(rt: HostRuntime) {
    let base = base(&rt, rt.alloc());
    answer_each(&rt, rt.alloc(), &base);
    drop(base);
}

const KEPT: &str = "1 held truck 2 from 1 to 2 asked 2,3/1 days 2026-03-02 2026-03-05 = nomemory\n";

// Whether these are the fields of the application of the test below.
fn check_fields(rt: &impl Abort, alloc: Global, a: &Application) {
    same(rt, 0, (a.truck(), a.from(), a.to()), (1, 0, 1));
    let asked = routes_told(alloc, a.asked().expect(rt, "routes")).expect(rt, "memory");
    holds(rt, asked.as_str() == "route [1, 2] [0]", "asked");
    drop(asked);
    let days = (a.first(), a.last());
    holds(
        rt,
        days == (day(rt, "2026-03-02"), day(rt, "2026-03-05")),
        "days",
    );
}

// An application and a copy of it.
#[test]
fn keeps_what_is_asked_for(rt: HostRuntime) {
    let entries = entries(&rt, rt.alloc(), KEPT);
    assert!(rt; entries.len() == 1);
    let copy = asked_for(&rt, &entries[0])
        .try_clone()
        .expect(&rt, "memory");
    check_fields(&rt, rt.alloc(), asked_for(&rt, &entries[0]));
    drop(entries);
    check_fields(&rt, rt.alloc(), &copy);
    drop(copy);
}

// The state of the roads where these segments are posted at 167 in, an inch less than truck 0 is high.
fn lowered(rt: &impl Abort, alloc: Global, network: &Network, low: &[u32]) -> State
    ensures { AreOf network.now result }
{
    let mut state = base_state(rt, alloc, network);
    'low: for &segment in low {
        let change = change((HEIGHT, segment, 167));
        state = after(rt, alloc, network, &state, &change);
    }
    state
}

// The segments of each route.
fn routes_told(alloc: Global, routes: &SharedRoutes) -> Result<String, AllocError> {
    let mut text = format!(in alloc; "route")?;
    for i in 0..routes.len() {
        write!(text, " {:?}", routes.route(i))?;
    }
    Ok(text)
}

// What is found: a word, and the numbers of routes, a segment or nodes.
fn told(alloc: Global, what: &What) -> Result<String, AllocError> {
    match what {
        What::NotNeeded => "not needed".to_string(alloc),
        What::Route(routes) => routes_told(alloc, routes),
        What::Fails { segment } => format!(in alloc; "fails {segment}"),
        What::Cut(nodes) => format!(in alloc; "cut {:?}", nodes.as_slice()),
    }
}

// What is found, which is let go then, is this.
fn is_found(rt: &impl Abort, alloc: Global, what: What, wanted: &What) {
    let found = told(alloc, &what).expect(rt, "memory");
    drop(what);
    let wanted = told(alloc, wanted).expect(rt, "memory");
    holds(rt, found.as_str() == wanted.as_str(), wanted.as_str());
}

// Postings, and submits with what is found then and at which version; the replies are not looked at. Truck 1 fits segments of
// 168 in, and truck 2 is legal. No road leads from node 2, and none from node 3 to node 1, whatever is posted there. At twice the
// HS20-44 truck the spans of segment 1 carry truck 1, which weighs less than that truck, and at 0 nothing.
const HISTORIES: [&str; 5] = [
    "\
1 submit truck 1 from 1 to 2 asked none days 2026-03-02 2026-03-02 seen 0 route 1 = nomemory
1 submit truck 1 from 2 to 1 asked none days 2026-03-02 2026-03-02 seen 0 cut 2 = nomemory
1 submit truck 1 from 1 to 2 asked 1 days 2026-03-02 2026-03-02 seen 0 route 1 = nomemory
1 submit truck 1 from 1 to 2 asked 1/2,3 days 2026-03-02 2026-03-02 seen 0 route 1/2,3 = nomemory
1 submit truck 1 from 1 to 2 asked 1/1 days 2026-03-02 2026-03-02 seen 0 route 1/1 = nomemory
",
    "\
1 post segment 1 height 167 = posted 1 recalled -
1 submit truck 1 from 1 to 2 asked none days 2026-03-02 2026-03-02 seen 1 route 2,3 = nomemory
1 submit truck 1 from 1 to 2 asked 1 days 2026-03-02 2026-03-02 seen 1 fails 1 = nomemory
1 submit truck 1 from 1 to 2 asked 2,3 days 2026-03-02 2026-03-02 seen 1 route 2,3 = nomemory
1 submit truck 2 from 1 to 2 asked 1 days 2026-03-02 2026-03-02 seen 1 none = nomemory
1 post segment 2 height 167 = posted 2 recalled -
1 submit truck 1 from 1 to 2 asked none days 2026-03-02 2026-03-02 seen 2 cut 1 = nomemory
",
    "\
1 post segment 1 height 167 = posted 1 recalled -
1 post segment 3 height 167 = posted 2 recalled -
1 submit truck 1 from 1 to 2 asked none days 2026-03-02 2026-03-02 seen 2 cut 1,3 = nomemory
1 submit truck 1 from 1 to 2 asked 2,3/1 days 2026-03-02 2026-03-02 seen 2 fails 3 = nomemory
1 submit truck 2 from 1 to 2 asked 2,3/1 days 2026-03-02 2026-03-02 seen 2 none = nomemory
",
    "\
1 post segment 3 height 167 = posted 1 recalled -
1 submit truck 1 from 3 to 1 asked none days 2026-03-02 2026-03-02 seen 1 cut 2,3 = nomemory
1 submit truck 1 from 1 to 2 asked 1/2,3 days 2026-03-02 2026-03-02 seen 1 fails 3 = nomemory
1 post segment 2 height 167 = posted 2 recalled -
1 submit truck 1 from 1 to 2 asked 2,3 days 2026-03-02 2026-03-02 seen 2 fails 2 = nomemory
",
    "\
1 submit truck 1 from 1 to 2 asked none days 2026-03-02 2026-03-02 seen 0 route 1 = nomemory
1 submit truck 1 from 1 to 3 asked none days 2026-03-02 2026-03-02 seen 0 route 2 = nomemory
1 post segment 1 closed 1 = posted 1 recalled -
1 submit truck 1 from 1 to 2 asked none days 2026-03-02 2026-03-02 seen 1 route 2,3 = nomemory
1 submit truck 1 from 1 to 2 asked 1 days 2026-03-02 2026-03-02 seen 1 fails 1 = nomemory
1 post segment 1 closed 0 = posted 2 recalled -
1 post span 2 rating 0 = posted 3 recalled -
1 submit truck 1 from 1 to 2 asked none days 2026-03-02 2026-03-02 seen 3 route 2,3 = nomemory
1 post span 2 rating 2000 = posted 4 recalled -
1 submit truck 1 from 1 to 2 asked none days 2026-03-02 2026-03-02 seen 4 route 1 = nomemory
1 post span 1 rating 0 = posted 5 recalled -
1 post segment 3 height 160 = posted 6 recalled -
1 submit truck 1 from 1 to 2 asked none days 2026-03-02 2026-03-02 seen 6 cut 1,3 = nomemory
1 submit truck 2 from 1 to 2 asked 1 days 2026-03-02 2026-03-02 seen 6 none = nomemory
1 post segment 3 height 168 = posted 7 recalled -
1 submit truck 1 from 1 to 2 asked 2,3 days 2026-03-02 2026-03-02 seen 7 route 2,3 = nomemory
1 post span 1 rating 2000 = posted 8 recalled -
1 submit truck 1 from 2 to 1 asked none days 2026-03-02 2026-03-02 seen 8 cut 2 = nomemory
1 post segment 1 height 160 = posted 9 recalled -
1 post segment 1 height 168 = posted 10 recalled -
1 submit truck 1 from 1 to 2 asked none days 2026-03-02 2026-03-02 seen 10 route 1 = nomemory
1 post segment 2 closed 1 = posted 11 recalled -
1 submit truck 1 from 1 to 2 asked none days 2026-03-02 2026-03-02 seen 11 route 1 = nomemory
1 post segment 1 closed 1 = posted 12 recalled -
1 submit truck 1 from 1 to 2 asked none days 2026-03-02 2026-03-02 seen 12 cut 1 = nomemory
1 post segment 2 closed 0 = posted 13 recalled -
1 submit truck 1 from 1 to 2 asked none days 2026-03-02 2026-03-02 seen 13 route 2,3 = nomemory
1 post segment 1 closed 0 = posted 14 recalled -
1 submit truck 1 from 1 to 2 asked none days 2026-03-02 2026-03-02 seen 14 route 1 = nomemory
1 submit truck 1 from 1 to 2 asked 2,3/1 days 2026-03-02 2026-03-02 seen 14 route 2,3/1 = nomemory
1 post segment 1 closed 1 = posted 15 recalled -
1 submit truck 1 from 1 to 2 asked 2,3/1 days 2026-03-02 2026-03-02 seen 15 fails 1 = nomemory
",
];

// Posts a change.
#[tactic(auto, using(snapshot_store::proofs::Later::later_same, snapshot_store::proofs::Later::later_posted))]
fn post(rt: &impl Abort, network: &Network, store: &mut Store, change: Change)
    requires { network.now ≡ store.old.roads }
    ensures { IsLater store.old store.new }
{
    store.post(network, change).expect(rt, "a posting");
}

// What is found for an application in the state as it is, with this counter.
fn find_now<L: Ledger>(
    rt: &impl Abort,
    alloc: Global,
    base: &Base,
    store: &Store,
    application: &Application,
    steps: &mut Steps<L>,
) -> What
    requires { store.now.roads ≡ base.now.roads }
{
    assert!(rt; application.is_sound(base));
    find(alloc, base, store.now(), application, steps).expect(rt, "memory")
}

// Compares what is found for an application with a proposal, and so what a follower finds.
#[tactic(auto, using(trip_analysis::proofs::Following::goes_on_here))]
fn follow<L: Ledger>(
    rt: &impl Abort,
    alloc: Global,
    base: &Base,
    store: &Store,
    follower: &mut Follower,
    submitted: (&Application, &Proposal),
    steps: &mut Steps<L>,
)
    requires base { follower.old.base ≡ base.now }
    requires roads { store.now.roads ≡ base.now.roads }
    requires later { GoesOn follower.old.last store.now }
    ensures base { follower.new.base ≡ base.now }
    ensures later { GoesOn follower.new.last store.now }
{
    let (application, wanted) = submitted;
    let what = find_now(rt, alloc, base, store, application, steps);
    is_found(rt, alloc, what, &wanted.what);
    let snapshot = store.snapshot().expect(rt, "memory");
    assert!(rt; application.is_sound(base));
    let proposal = follower.analyse(alloc, base, snapshot, application, steps);
    let Proposal { seen, what } = proposal.expect(rt, "memory");
    is_found(rt, alloc, what, &wanted.what);
    same(rt, 0, seen, wanted.seen);
}

// Posts what an entry posts, or compares what it submits.
#[tactic(auto, using(trip_analysis::proofs::Following::goes_on_later))]
fn follow_entry<L: Ledger>(
    rt: &impl Abort,
    alloc: Global,
    base: &Base,
    store: &mut Store,
    follower: &mut Follower,
    entry: &Entry,
    steps: &mut Steps<L>,
)
    requires base { follower.old.base ≡ base.now }
    requires roads { store.old.roads ≡ base.now.roads }
    requires later { GoesOn follower.old.last store.old }
    ensures base { follower.new.base ≡ base.now }
    ensures roads { store.new.roads ≡ base.now.roads }
    ensures later { GoesOn follower.new.last store.new }
{
    match &entry.call {
        Call::Post { change } => post(rt, base.network(), store, *change),
        Call::Submit {
            application,
            proposal,
        } => follow(
            rt,
            alloc,
            base,
            store,
            follower,
            (application, proposal),
            steps,
        ),
        _ => rt.abort(),
    }
}

// Follows a store over all entries.
fn follow_entries<L: Ledger>(
    rt: &impl Abort,
    alloc: Global,
    base: &Base,
    store: &mut Store,
    follower: &mut Follower,
    entries: &[Entry],
    blank: Blank,
)
    requires counter { IsBlankOf L.name L.parts blank }
    requires base { follower.old.base ≡ base.now }
    requires roads { store.old.roads ≡ base.now.roads }
    requires later { GoesOn follower.old.last store.old }
{
    let mut steps = Steps::<L>::new(blank);
    'entries: for entry in entries {
        follow_entry(rt, alloc, base, store, follower, entry, &mut steps);
    }
}

// The same from the first version on.
fn follow_store(rt: &impl Abort, alloc: Global, base: &Base, entries: &[Entry]) {
    let mut store = Store::start(alloc, base.network()).expect(rt, "memory");
    let mut follower = Follower::new(alloc, base).expect(rt, "memory");
    follow_entries::<Brand>(
        rt,
        alloc,
        base,
        &mut store,
        &mut follower,
        entries,
        Blank::new(1),
    );
    drop(follower);
    drop(store);
}

fn follow_each(rt: &impl Abort, alloc: Global, base: &Base) {
    for lines in &HISTORIES {
        let entries = entries(rt, alloc, lines);
        follow_store(rt, alloc, base, entries.as_slice());
        drop(entries);
    }
}

#[test]
fn finds_a_route_or_why_there_is_none(rt: HostRuntime) {
    let base = base(&rt, rt.alloc());
    follow_each(&rt, rt.alloc(), &base);
    drop(base);
}

// Twice the HS20-44 truck, a span of 360 in carries the truck, which weighs less than that truck, and at 0 nothing.
fn check_study(rt: &impl Abort, base: &Base, truck: u32)
    requires { truck < length base.now.fleet }
{
    let study = base.study(truck);
    assert!(rt; study.carries(360, 2_000));
    assert!(rt; !study.carries(360, 0));
}

// Asks a study that keeps nothing, and again once it keeps the lengths of the roads. Then it is kept too which segments the
// truck may pass before anything is posted, and heights.
fn learn_truck(rt: &impl Abort, alloc: Global, base: &mut Base, truck: u32)
    requires { truck < length base.old.fleet }
    ensures { base.new ≡ base.old }
{
    check_study(rt, base, truck);
    base.learn(alloc, truck).expect(rt, "memory");
    check_study(rt, base, truck);
    let first = State::base(alloc, base.network()).expect(rt, "memory");
    base.learn_opening(alloc, &first, truck)
        .expect(rt, "memory");
    drop(first);
    base.learn_heights(alloc).expect(rt, "memory");
}

// Roads with both trucks, of which all is kept.
fn learned_base(rt: &impl Abort, alloc: Global) -> Base {
    let mut base = base(rt, alloc);
    assert!(rt; base.fleet().len() == 2);
    learn_truck(rt, alloc, &mut base, 0);
    learn_truck(rt, alloc, &mut base, 1);
    base
}

// The histories of the test above.
#[test]
fn finds_the_same_by_what_a_base_keeps(rt: HostRuntime) {
    let base = learned_base(&rt, rt.alloc());
    follow_each(&rt, rt.alloc(), &base);
    drop(base);
}

// The limit of segment 1, which at 167 in is too low for truck 0.
const TOO_LOW: Limit = Limit::Height {
    segment: 1,
    has: 168,
    allowed: 167,
};

// The limit of segment 1 that fails a truck, or none where it may pass there.
fn tell_limit<L: Ledger>(
    rt: &impl Abort,
    truck: &TruckOn,
    wanted: Option<Limit>,
    steps: &mut Steps<L>,
) {
    assert!(rt; truck.base.network().segments() == 3);
    same(rt, 0, truck.failing_limit(1, steps), wanted);
    same(rt, 1, truck.is_passable(1, steps), wanted.is_none());
}

// On segments 2, 1 and 0 the first that fails truck 0 is segment 1.
fn tell_first<L: Ledger>(rt: &impl Abort, truck: &TruckOn, steps: &mut Steps<L>) {
    let route = [2, 1, 0];
    assert!(rt; are_there(truck.base.network(), route.as_slice()));
    let first = truck.first_on(route.as_slice(), steps);
    let (segment, limit) = (1, TOO_LOW);
    assert!(rt; first == Some(Failing { segment, limit }));
}

// The set of some nodes.
fn set_of(rt: &impl Abort, alloc: Global, nodes: &[u32]) -> NodeSet {
    let list = Vec::from_slice(alloc, nodes).expect(rt, "memory");
    let nodes = SharedNumbers::of(alloc, Numbers::of(list)).expect(rt, "memory");
    let set = NodeSet::of(&nodes);
    drop(nodes);
    set
}

// Some nodes of the network of three: segments lead from node 0 to 1 and 2, and from 2 to 1. The first segment that leaves them,
// and whether segment 1 leaves them.
const LEAVING: [(&[u32], Option<u32>, bool); 5] = [
    (&[], None, false),
    (&[0], Some(0), true),
    (&[1], None, false),
    (&[0, 1], Some(1), true),
    (&[2], Some(2), false),
];

fn tell_leaving(rt: &impl Abort, alloc: Global, network: &Network) {
    assert!(rt; network.segments() == 3);
    for (row, (nodes, first, is_left)) in LEAVING.iter().enumerate() {
        let set = set_of(rt, alloc, nodes);
        same(rt, row, set.first_leaving(network), *first);
        same(rt, row, set.is_left_by(network, 1), *is_left);
        drop(set);
    }
}

// All with one counter.
fn tell_all<L: Ledger>(rt: &impl Abort, base: &Base, state: &State, blank: Blank)
    requires state { AreOf base.now.roads state.now }
    requires counter { IsBlankOf L.name L.parts blank }
{
    let mut steps = Steps::<L>::new(blank);
    assert!(rt; base.fleet().len() == 2);
    let truck = 1;
    tell_limit(rt, &TruckOn { base, state, truck }, None, &mut steps);
    let truck = 0;
    let high = TruckOn { base, state, truck };
    tell_limit(rt, &high, Some(TOO_LOW), &mut steps);
    tell_first(rt, &high, &mut steps);
}

// The same where segments 0 and 1 are too low for truck 0.
fn tell_lowered(rt: &impl Abort, alloc: Global, base: &Base) {
    let state = lowered(rt, alloc, base.network(), &[0, 1]);
    tell_all::<Brand>(rt, base, &state, Blank::new(1));
    drop(state);
    tell_leaving(rt, alloc, base.network());
}

#[test]
fn tells_segments_that_fail_and_segments_that_leave(rt: HostRuntime) {
    let base = base(&rt, rt.alloc());
    tell_lowered(&rt, rt.alloc(), &base);
    drop(base);
}

#[test]
fn tells_its_laws() {
    findings_hold();
    free_findings_are_of_walks();
    asked_findings_are_of_the_routes();
    routes_break_off_where_walks_do();
}
