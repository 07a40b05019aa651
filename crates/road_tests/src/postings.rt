ghost use Rattle.std.specs.Prelude.{◌≡◌, length};
ghost use Rattle.restriction_log.specs.Changes.{AreTaken};
ghost use Rattle.restriction_log.specs.States.{AreOf};

use crate::fixtures::{
    ALLOWANCE, CLOSED, GROSS, HEIGHT, LENGTH, Posted, RATING, ROADS, TRIDEM, WIDTH, after,
    base_state, change, named, network, same, says,
};
use restriction_log::{
    Change, Log, PostRefusal, Stamps, State, states_are_of_their_network, takes, touched,
};
use road_graph::{Network, Values};
use std::alloc::Global;
use std::process::Abort;

// Each table goes to a function that takes the network by reference, and what was built is let go by a call
// of `drop`: where a scope lets it go, the proof of the whole function goes through its parts.

// What is posted, and whether the network takes the change.
type Posting = (Posted, bool);

// Posts a change, of which the network takes it or not.
fn post(rt: &impl Abort, network: &Network, log: &mut Log, row: usize, change: Change, taken: bool)
    requires { AreTaken network.now log.old }
    ensures { AreTaken network.now log.new }
{
    same(rt, row, takes(network, &change), taken);
    let version = log.version();
    let (answer, next) = if taken {
        (Ok(version + 1), version + 1)
    } else {
        (Err(PostRefusal::Range), version)
    };
    same(rt, row, log.post(network, change), answer);
    same(rt, row, log.version(), next);
}

// Posts each of the changes.
fn post_each(rt: &impl Abort, network: &Network, log: &mut Log, postings: &[Posting])
    requires { AreTaken network.now log.old }
    ensures { AreTaken network.now log.new }
{
    'changes: for (row, &(posted, taken)) in postings.iter().enumerate() {
        post(rt, network, log, row, change(posted), taken);
    }
}

const TAKEN: [Posting; 25] = [
    ((CLOSED, 1, 1), true),
    ((CLOSED, 2, 1), false),
    ((HEIGHT, 1, 1), true),
    // a height of nothing
    ((HEIGHT, 1, 0), false),
    ((HEIGHT, 1, 999), true),
    ((HEIGHT, 1, 1_000), false),
    ((HEIGHT, 2, 999), false),
    ((WIDTH, 0, 999), true),
    ((WIDTH, 0, 1_000), false),
    ((LENGTH, 0, 9_999), true),
    ((LENGTH, 0, 10_000), false),
    ((GROSS, 0, 2_000_000), true),
    ((GROSS, 0, 2_000_001), false),
    ((GROSS, 0, 0), false),
    ((ALLOWANCE, 0, 0), true),
    ((ALLOWANCE, 0, 100_000), true),
    ((ALLOWANCE, 0, 100_001), false),
    ((TRIDEM, 0, 0), false),
    ((TRIDEM, 0, 1), true),
    ((TRIDEM, 0, 600_000), true),
    ((TRIDEM, 0, 600_001), false),
    ((RATING, 2, 0), true),
    ((RATING, 2, 100_000), true),
    ((RATING, 2, 100_001), false),
    ((RATING, 3, 0), false),
];

fn post_on(rt: &impl Abort, alloc: Global, network: &Network) {
    let mut log = Log::start(alloc, network).expect(rt, "memory");
    post_each(rt, network, &mut log, &TAKEN);
    drop(log);
}

#[test]
fn takes_what_is_there_and_in_range(rt: HostRuntime) {
    let network = network(&rt, rt.alloc(), &ROADS);
    post_on(&rt, rt.alloc(), &network);
    drop(network);
}

// What is posted, and the segment that the change is about.
type Replacing = (Posted, u32);

// The state after these changes.
fn state_after(rt: &impl Abort, alloc: Global, network: &Network, changes: &[Replacing]) -> State
    ensures { AreOf network.now result }
{
    let mut state = base_state(rt, alloc, network);
    'changes: for (row, &(posted, segment)) in changes.iter().enumerate() {
        let change = change(posted);
        assert!(rt; takes(network, &change));
        same(rt, row, touched(network, &change), segment);
        state = after(rt, alloc, network, &state, &change);
    }
    state
}

// The limits of the two segments and the ratings of the three spans.
fn is_state(rt: &impl Abort, state: &State, values: [Values; 2], ratings: [u32; 3])
    requires values { length state.now.values ≡ 2 }
    requires ratings { length state.now.ratings ≡ 3 }
{
    same(rt, 0, [state.segment(0), state.segment(1)], values);
    same(
        rt,
        1,
        [state.rating(0), state.rating(1), state.rating(2)],
        ratings,
    );
}

const REPLACING: [Replacing; 9] = [
    ((CLOSED, 0, 1), 0),
    ((HEIGHT, 0, 168), 0),
    ((WIDTH, 0, 144), 0),
    ((LENGTH, 0, 1_200), 0),
    ((GROSS, 0, 120_000), 0),
    ((ALLOWANCE, 0, 1_100), 0),
    ((TRIDEM, 0, 51_000), 0),
    ((RATING, 1, 750), 1),
    ((RATING, 2, 500), 0),
];

fn replace_each(rt: &impl Abort, alloc: Global, network: &Network) {
    let state = state_after(rt, alloc, network, &REPLACING);
    let values = Values {
        closed: true,
        height: 168,
        width: 144,
        length: 1_200,
        gross: 120_000,
        allowance: 1_100,
        tridem: 51_000,
    };
    assert!(rt; network.segments() == 2 && network.spans() == 3);
    is_state(rt, &state, [values, Values::default()], [1_000, 750, 500]);
    drop(state);
}

#[test]
fn replaces_one_value_at_each_posting(rt: HostRuntime) {
    let network = network(&rt, rt.alloc(), &ROADS);
    replace_each(&rt, rt.alloc(), &network);
    drop(network);
    states_are_of_their_network();
}

// A segment, a version, and whether the segment was changed after it.
type Changed = (u32, u32, bool);

fn tell_each(rt: &impl Abort, network: &Network, log: &Log, cases: &[Changed])
    requires { AreTaken network.now log.now }
{
    for (row, &(segment, after, changed)) in cases.iter().enumerate() {
        assert!(rt; segment < network.segments());
        same(rt, row, log.changed(network, segment, after), changed);
    }
}

const POSTINGS: [Posting; 3] = [
    ((HEIGHT, 0, 168), true),
    ((RATING, 1, 750), true),
    // a posting that changes nothing
    ((CLOSED, 0, 0), true),
];

const CHANGED: [Changed; 9] = [
    (0, 0, true),
    (0, 1, true),
    (0, 2, true),
    (0, 3, false),
    (0, 1_000_000, false),
    (1, 0, true),
    (1, 1, true),
    (1, 2, false),
    (1, 3, false),
];

fn tell_changes(rt: &impl Abort, alloc: Global, network: &Network) {
    let mut log = Log::start(alloc, network).expect(rt, "memory");
    same(rt, 0, log.version(), 0);
    post_each(rt, network, &mut log, &POSTINGS);
    same(rt, 3, log.version(), 3);
    tell_each(rt, network, &log, &CHANGED);
    drop(log);
}

#[test]
fn tells_what_changed_after_a_version(rt: HostRuntime) {
    let network = network(&rt, rt.alloc(), &ROADS);
    same(&rt, 0, network.segments(), 2);
    tell_changes(&rt, rt.alloc(), &network);
    drop(network);
}

// Segments between two nodes, each with a span, on three pages of which the last is not full.
const MANY: u32 = 130;

fn many_roads(rt: &impl Abort, alloc: Global) -> Network {
    let mut network = Network::new(alloc);
    for name in [b"a", b"b"] {
        let added = network.add_node(named(rt, name));
        assert!(rt; added.is_ok());
    }
    for i in 0..MANY {
        let name = [b'a' + (i / 26) as u8, b'a' + (i % 26) as u8];
        let added = network.add_segment(named(rt, &name), 0, 1, 5_280);
        assert!(rt; added.is_ok());
        let added = network.add_span(named(rt, &name), i, 360, 1_000);
        assert!(rt; added.is_ok());
    }
    network
}

// Of the segments and the spans only these have another height, and another rating.
fn differs_at(rt: &impl Abort, state: &State, segment: Option<u32>, span: Option<u32>)
    requires values { length state.now.values ≡ 130 }
    requires ratings { length state.now.ratings ≡ 130 }
{
    for i in 0..MANY {
        let height = if segment == Some(i) { 168 } else { 999 };
        same(rt, i as usize, state.segment(i).height, height);
        let rating = if span == Some(i) { 750 } else { 1_000 };
        same(rt, i as usize, state.rating(i), rating);
    }
}

// Posts on a segment and on a span of that number. Each state stays as it is.
fn post_far(rt: &impl Abort, alloc: Global, network: &Network, of: u32)
    requires segments { length network.now.segments ≡ 130 }
    requires spans { length network.now.spans ≡ 130 }
{
    let (limit, rating) = (change((HEIGHT, of, 168)), change((RATING, of, 750)));
    assert!(rt; takes(network, &limit) && takes(network, &rating));
    same(rt, of as usize, touched(network, &limit), of);
    same(rt, of as usize, touched(network, &rating), of);
    let base = base_state(rt, alloc, network);
    let lower = after(rt, alloc, network, &base, &limit);
    let weaker = after(rt, alloc, network, &lower, &rating);
    differs_at(rt, &base, None, None);
    differs_at(rt, &lower, Some(of), None);
    differs_at(rt, &weaker, Some(of), Some(of));
    drop(base);
    drop(lower);
    drop(weaker);
}

// Stamps of these segments, one after another.
fn stamped(rt: &impl Abort, alloc: Global, network: &Network, stamps: &[(u32, u32)]) -> Stamps
    requires { length network.now.segments ≡ 130 }
    ensures { length result ≡ 130 }
{
    let mut made = Stamps::base(alloc, network).expect(rt, "memory");
    'stamps: for &(segment, number) in stamps {
        assert!(rt; segment < MANY);
        made = made.with(alloc, segment, number).expect(rt, "memory");
    }
    made
}

// A number, where to begin, and the first segment whose stamp is above the number.
const ABOVE: [(u32, u32, Option<u32>); 10] = [
    (0, 0, Some(5)),
    (0, 6, Some(63)),
    (0, 64, Some(129)),
    (0, 130, None),
    (1, 0, Some(5)),
    (1, 6, Some(63)),
    (2, 6, Some(129)),
    (3, 0, Some(5)),
    (3, 6, None),
    (4, 0, None),
];

fn find_each(rt: &impl Abort, alloc: Global, network: &Network)
    requires { length network.now.segments ≡ 130 }
{
    let stamps = stamped(rt, alloc, network, &[(5, 1), (63, 2), (129, 3), (5, 4)]);
    for (row, &(number, from, first)) in ABOVE.iter().enumerate() {
        same(rt, row, stamps.next_above(number, from), first);
    }
    same(rt, 10, [stamps.stamp(5), stamps.stamp(64)], [4, 0]);
    drop(stamps);
}

fn look_far(rt: &impl Abort, alloc: Global, network: &Network) {
    assert!(rt; network.segments() == MANY && network.spans() == MANY);
    for of in [0, 63, 64, 128, 129] {
        post_far(rt, alloc, network, of);
    }
    find_each(rt, alloc, network);
}

#[test]
fn leaves_a_state_as_it_was_on_each_page(rt: HostRuntime) {
    let network = many_roads(&rt, rt.alloc());
    look_far(&rt, rt.alloc(), &network);
    drop(network);
}

const CAUSES: [(PostRefusal, &str); 3] = [
    (PostRefusal::Range, "the network does not take the change"),
    (PostRefusal::Full, "the log is full"),
    (PostRefusal::NoMemory, "out of memory"),
];

#[test]
fn names_each_cause(rt: HostRuntime) {
    for (refusal, text) in &CAUSES {
        says(&rt, rt.alloc(), refusal, text);
    }
}
