ghost use Rattle.std.specs.Prelude.{◌≡◌};
ghost use Rattle.restriction_log.specs.States.{AreOf};

use crate::fixtures::{CLOSED, HEIGHT, Posted, RATING, ROADS, change, network, same};
use names::NoMemory;
use restriction_log::{Change, PostRefusal, State};
use road_graph::Network;
use snapshot_store::{Snapshot, Store};
use std::alloc::Global;
use std::process::Abort;

// A version and its state: of each segment 1 where it is closed, else 0, and its height; then the rating of each span.
type Told = [u32; 8];

fn told(rt: &impl Abort, network: &Network, version: u32, state: &State) -> Told
    requires { AreOf network.now state.now }
{
    assert!(rt; network.segments() == 2 && network.spans() == 3);
    let (first, second) = (state.segment(0), state.segment(1));
    [
        version,
        u32::from(first.closed),
        first.height,
        u32::from(second.closed),
        second.height,
        state.rating(0),
        state.rating(1),
        state.rating(2),
    ]
}

// What no posting has changed.
const BASE: Told = [0, 0, 999, 0, 999, 1000, 900, 800];

// A posting, the number of the version that it makes or 0 where it is refused, and what is in force then.
type Posting = (Posted, u32, Told);

const POSTINGS: [Posting; 12] = [
    ((HEIGHT, 0, 168), 1, [1, 0, 168, 0, 999, 1000, 900, 800]),
    ((HEIGHT, 0, 0), 0, [1, 0, 168, 0, 999, 1000, 900, 800]),
    ((HEIGHT, 0, 1000), 0, [1, 0, 168, 0, 999, 1000, 900, 800]),
    ((HEIGHT, 2, 168), 0, [1, 0, 168, 0, 999, 1000, 900, 800]),
    ((RATING, 1, 750), 2, [2, 0, 168, 0, 999, 1000, 750, 800]),
    ((RATING, 1, 100001), 0, [2, 0, 168, 0, 999, 1000, 750, 800]),
    ((RATING, 3, 750), 0, [2, 0, 168, 0, 999, 1000, 750, 800]),
    ((CLOSED, 1, 1), 3, [3, 0, 168, 1, 999, 1000, 750, 800]),
    ((CLOSED, 2, 1), 0, [3, 0, 168, 1, 999, 1000, 750, 800]),
    ((RATING, 2, 0), 4, [4, 0, 168, 1, 999, 1000, 750, 0]),
    ((CLOSED, 1, 0), 5, [5, 0, 168, 0, 999, 1000, 750, 0]),
    ((CLOSED, 1, 0), 6, [6, 0, 168, 0, 999, 1000, 750, 0]),
];

// The number of the new version, or the refusal, of which `Range` is 0.
fn number_of(answer: Result<u32, PostRefusal>) -> u32 {
    match answer {
        Ok(version) => version,
        Err(PostRefusal::Range) => 0,
        Err(PostRefusal::Full) => 1_000_001,
        Err(PostRefusal::NoMemory) => 1_000_002,
    }
}

// Posts in two steps. Between them nothing is in force yet.
fn post_in_two_steps(network: &Network, store: &mut Store, change: Change) -> u32
    requires { network.now ≡ store.old.roads }
    ensures { store.new.roads ≡ store.old.roads }
{
    match store.next(network, change) {
        Ok(next) if next.change() != change => 0,
        Ok(next) => match store.commit(network, next) {
            Ok(version) => version,
            Err(NoMemory) => number_of(Err(PostRefusal::NoMemory)),
        },
        Err(refusal) => number_of(Err(refusal)),
    }
}

// Posts a change at once or in two steps.
fn post(network: &Network, store: &mut Store, change: Change, in_two_steps: bool) -> u32
    requires { network.now ≡ store.old.roads }
    ensures { store.new.roads ≡ store.old.roads }
{
    if in_two_steps {
        return post_in_two_steps(network, store, change);
    }
    number_of(store.post(network, change))
}

// Posts what a row says, and compares what is in force then.
fn post_row(
    rt: &impl Abort,
    network: &Network,
    store: &mut Store,
    row: usize,
    posting: &Posting,
    in_two_steps: bool,
)
    requires { network.now ≡ store.old.roads }
    ensures { store.new.roads ≡ store.old.roads }
{
    let &(posted, wanted, in_force) = posting;
    let version = post(network, store, change(posted), in_two_steps);
    same(rt, row, version, wanted);
    let found = told(rt, network, store.version(), store.now());
    same(rt, row, found, in_force);
}

fn post_each(rt: &impl Abort, network: &Network, store: &mut Store, in_two_steps: bool)
    requires { network.now ≡ store.old.roads }
    ensures { store.new.roads ≡ store.old.roads }
{
    'postings: for (row, posting) in POSTINGS.iter().enumerate() {
        post_row(rt, network, store, row, posting, in_two_steps);
    }
}

// Whether a posting above a number named the segment: numbers 1 and 4 name segment 0, the second by its span 2, and the
// other four segment 1.
const CHANGED: [(u32, u32, bool); 9] = [
    (0, 0, true),
    (0, 1, true),
    (0, 3, true),
    (0, 4, false),
    (0, 1_000_000, false),
    (1, 0, true),
    (1, 4, true),
    (1, 5, true),
    (1, 6, false),
];

fn ask_each(rt: &impl Abort, network: &Network, store: &Store, rows: &[(u32, u32, bool)])
    requires { network.now ≡ store.now.roads }
{
    for (row, &(segment, after, changed)) in rows.iter().enumerate() {
        assert!(rt; segment < network.segments());
        same(rt, row, store.changed(network, segment, after), changed);
    }
}

// A number, where to begin, and the first segment that a posting above the number names.
const NEXT: [(u32, u32, Option<u32>); 7] = [
    (0, 0, Some(0)),
    (0, 1, Some(1)),
    (0, 2, None),
    (3, 0, Some(0)),
    (4, 0, Some(1)),
    (5, 0, Some(1)),
    (6, 0, None),
];

fn look_each(rt: &impl Abort, snapshot: &Snapshot) {
    for (row, &(after, from, next)) in NEXT.iter().enumerate() {
        same(rt, row, snapshot.next_changed(after, from), next);
    }
}

// Posts to a new store, asks what changed, and compares what a snapshot says that was taken before all postings.
fn check_store(rt: &impl Abort, alloc: Global, network: &Network, in_two_steps: bool) {
    let mut store = Store::start(alloc, network).expect(rt, "memory");
    let first = store.snapshot().expect(rt, "memory");
    post_each(rt, network, &mut store, in_two_steps);
    ask_each(rt, network, &store, &CHANGED);
    let last = store.snapshot().expect(rt, "memory");
    drop(store);
    look_each(rt, &last);
    drop(last);
    let found = told(rt, network, first.version(), first.state());
    drop(first);
    same(rt, 0, found, BASE);
}

fn check_over_roads(rt: &impl Abort, alloc: Global, in_two_steps: bool) {
    let network = network(rt, alloc, &ROADS);
    check_store(rt, alloc, &network, in_two_steps);
    drop(network);
}

#[test]
fn leaves_a_snapshot_as_it_was(rt: HostRuntime) {
    check_over_roads(&rt, rt.alloc(), false);
}

#[test]
fn posts_the_same_in_two_steps(rt: HostRuntime) {
    check_over_roads(&rt, rt.alloc(), true);
}
