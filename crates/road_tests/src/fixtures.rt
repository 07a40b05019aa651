// What the tests of this crate share.

ghost use Rattle.restriction_log.specs.States.{AreOf};

use axle_train::{Axle, Train};
use journal_reader::read;
use names::Name;
use office_words::Entry;
use permit_days::Day;
use restriction_log::{Change, State, takes};
use road_graph::{AddRefusal, Network, What};
use std::alloc::Global;
use std::fmt::{Debug, Display};
use std::process::Abort;

// What is found is what a row of a table says.
pub fn same<T: PartialEq + Debug + Copy>(rt: &impl Abort, row: usize, found: T, wanted: T) {
    assert_eq!(rt; found, wanted, "row {row}");
}

// What a line of a table says is so.
pub fn holds(rt: &impl Abort, fact: bool, line: &str) {
    assert!(rt; fact, "{line}");
}

// What a value is written as.
pub fn says<T: Display>(rt: &impl Abort, alloc: Global, value: &T, wanted: &str) {
    let text = format!(in alloc; "{value}").expect(rt, "memory");
    holds(rt, text.as_str() == wanted, wanted);
}

// A name of these bytes, which are one.
pub fn named(rt: &impl Abort, bytes: &[u8]) -> Name {
    Name::new(bytes).expect(rt, "a name")
}

// The day of a text, which writes one.
pub fn day(rt: &impl Abort, text: &str) -> Day {
    Day::read(text.as_bytes()).expect(rt, text)
}

// The entries of these lines of a journal.
pub fn entries(rt: &impl Abort, alloc: Global, lines: &str) -> Vec<Entry> {
    let count = lines.lines().count();
    let text = format!(in alloc; "permit-journal 3\n{lines}end {count}\n").expect(rt, "memory");
    read(alloc, text.as_bytes()).expect(rt, lines)
}

// A train of axles at these places, in inches, with these weights in pounds.
pub fn train(rt: &impl Abort, alloc: Global, pairs: &[(u32, u32)]) -> Train {
    let mut axles = Vec::new(alloc);
    for &(place, weight) in pairs {
        axles.push(Axle { place, weight }).expect(rt, "memory");
    }
    let train = Train::new(axles.as_slice()).expect(rt, "a train");
    drop(axles);
    train
}

// What is added to a network, behind its name: a segment from one node to another and its feet, or a span on a segment, its inches and
// its rating. Nodes and segments go by their numbers.
pub enum Piece {
    Node(&'static [u8]),
    Segment(&'static [u8], u32, u32, u32),
    Span(&'static [u8], u32, u32, u32),
}

// Adds it.
pub fn add(rt: &impl Abort, network: &mut Network, piece: &Piece) -> Result<u32, AddRefusal> {
    match *piece {
        Piece::Node(name) => network.add_node(named(rt, name)),
        Piece::Segment(name, from, to, feet) => {
            network.add_segment(named(rt, name), from, to, feet)
        }
        Piece::Span(name, segment, inches, rating) => {
            network.add_span(named(rt, name), segment, inches, rating)
        }
    }
}

// A network of these.
pub fn network(rt: &impl Abort, alloc: Global, pieces: &[Piece]) -> Network {
    let mut network = Network::new(alloc);
    for piece in pieces {
        assert!(rt; add(rt, &mut network, piece).is_ok());
    }
    network
}

// Segments 0 and 1 between two nodes, with the spans 0 and 2 on segment 0 and span 1 on segment 1.
pub const ROADS: [Piece; 7] = [
    Piece::Node(b"a"),
    Piece::Node(b"b"),
    Piece::Segment(b"ab", 0, 1, 5_280),
    Piece::Segment(b"ba", 1, 0, 5_280),
    Piece::Span(b"s", 0, 360, 1_000),
    Piece::Span(b"t", 1, 360, 900),
    Piece::Span(b"u", 0, 360, 800),
];

// Which limit of a segment is posted, or none for the rating of a span; the segment or the span; the value.
pub type Posted = (Option<What>, u32, u32);

pub const CLOSED: Option<What> = Some(What::Closed);

pub const HEIGHT: Option<What> = Some(What::Height);

pub const WIDTH: Option<What> = Some(What::Width);

pub const LENGTH: Option<What> = Some(What::Length);

pub const GROSS: Option<What> = Some(What::Gross);

pub const ALLOWANCE: Option<What> = Some(What::Allowance);

pub const TRIDEM: Option<What> = Some(What::Tridem);

pub const RATING: Option<What> = None;

// The change that is posted.
pub fn change(posted: Posted) -> Change {
    let (what, of, value) = posted;
    match what {
        Some(what) => Change::of(of, what, value),
        None => Change::Rating {
            span: of,
            permille: value,
        },
    }
}

// The state of no posting.
#[tactic(auto, using(restriction_log::proofs::Standing::base_is_of))]
pub fn base_state(rt: &impl Abort, alloc: Global, network: &Network) -> State
    ensures { AreOf network.now result }
{
    assert!(rt; network.segments() > 0);
    State::base(alloc, network).expect(rt, "memory")
}

// The state after a change, which the network takes.
pub fn after(
    rt: &impl Abort,
    alloc: Global,
    network: &Network,
    state: &State,
    change: &Change,
) -> State
    requires { AreOf network.now state.now }
    ensures { AreOf network.now result }
{
    assert!(rt; takes(network, change));
    state.with(alloc, change).expect(rt, "memory")
}
