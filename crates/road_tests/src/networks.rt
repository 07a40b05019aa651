use crate::fixtures::{Piece, add, named, network, same, says};
use names::Name;
use road_graph::{AddRefusal, Arrival, Network, Numbers, Segment, Span, Values, What};
use std::alloc::Global;
use std::process::Abort;

// Each table goes to a function that takes the network by reference, and each network is let go by a call of
// `drop`: where a scope lets it go, the proof of the whole function goes through its parts.

// The last digit of a number.
fn last_digit(number: u32) -> u8 {
    b'0' + (number % 10) as u8
}

// The name of a number, of five digits.
fn numbered(rt: &impl Abort, number: u32) -> Name {
    let digits = [
        last_digit(number / 10_000),
        last_digit(number / 1_000),
        last_digit(number / 100),
        last_digit(number / 10),
        last_digit(number),
    ];
    named(rt, &digits)
}

// A segment, which of its limits, the value.
type Posted = (u32, What, u32);

// What is added, and its number or why it is not.
type Added = (Piece, Result<u32, AddRefusal>);

// A limit was set, or why it was not.
type Taken = Result<(), AddRefusal>;

// A segment from node a to node b, and a span on it.
const SMALL: [Piece; 4] = [
    Piece::Node(b"a"),
    Piece::Node(b"b"),
    Piece::Segment(b"ab", 0, 1, 5280),
    Piece::Span(b"s", 0, 360, 1000),
];

// The same with the way back, a second way there and a loop at b, and a span more on each of two segments.
const GROWN: [Piece; 9] = [
    Piece::Node(b"a"),
    Piece::Node(b"b"),
    Piece::Segment(b"ab", 0, 1, 5280),
    Piece::Segment(b"ba", 1, 0, 100),
    Piece::Segment(b"way-2", 0, 1, 200),
    Piece::Segment(b"loop", 1, 1, 300),
    Piece::Span(b"s", 0, 360, 1000),
    Piece::Span(b"t", 2, 480, 900),
    Piece::Span(b"u", 0, 600, 800),
];

fn add_each(rt: &impl Abort, network: &mut Network, cases: &[Added]) {
    for (row, (piece, answer)) in cases.iter().enumerate() {
        same(rt, row, add(rt, network, piece), *answer);
    }
}

// Adds each to the small network.
fn add_to_small(rt: &impl Abort, alloc: Global, cases: &[Added]) {
    let mut small = network(rt, alloc, &SMALL);
    add_each(rt, &mut small, cases);
    drop(small);
}

const NODES: [Added; 5] = [
    (Piece::Node(b"a"), Err(AddRefusal::SameName)),
    (Piece::Node(b"b"), Err(AddRefusal::SameName)),
    (Piece::Node(b"c"), Ok(2)),
    (Piece::Node(b"c"), Err(AddRefusal::SameName)),
    // a segment and a span may have the name of a node
    (Piece::Node(b"s"), Ok(3)),
];

const SEGMENTS: [Added; 7] = [
    (Piece::Segment(b"ab", 2, 2, 0), Err(AddRefusal::SameName)),
    (Piece::Segment(b"ba", 2, 0, 0), Err(AddRefusal::UnknownNode)),
    (Piece::Segment(b"ba", 0, 2, 0), Err(AddRefusal::UnknownNode)),
    (Piece::Segment(b"ba", 1, 0, 0), Err(AddRefusal::Range)),
    (
        Piece::Segment(b"ba", 1, 0, 10000001),
        Err(AddRefusal::Range),
    ),
    (Piece::Segment(b"ba", 1, 0, 10000000), Ok(1)),
    (Piece::Segment(b"aa", 0, 0, 1), Ok(2)),
];

const SPANS: [Added; 7] = [
    (Piece::Span(b"s", 1, 0, 0), Err(AddRefusal::SameName)),
    (
        Piece::Span(b"t", 1, 0, 100001),
        Err(AddRefusal::UnknownSegment),
    ),
    (Piece::Span(b"t", 0, 0, 0), Err(AddRefusal::Range)),
    (Piece::Span(b"t", 0, 6001, 0), Err(AddRefusal::Range)),
    (Piece::Span(b"t", 0, 1, 100001), Err(AddRefusal::Range)),
    (Piece::Span(b"t", 0, 6000, 100000), Ok(1)),
    (Piece::Span(b"u", 0, 1, 0), Ok(2)),
];

const ADDED: [&[Added]; 3] = [&NODES, &SEGMENTS, &SPANS];

#[test]
fn refuses_what_is_added_by_the_first_cause_that_applies(rt: HostRuntime) {
    for cases in &ADDED {
        add_to_small(&rt, rt.alloc(), cases);
    }
}

fn set_limits(rt: &impl Abort, network: &mut Network, cases: &[(Posted, Taken)]) {
    for (row, &((segment, what, value), answer)) in cases.iter().enumerate() {
        same(rt, row, network.set_limit(segment, what, value), answer);
    }
}

const LIMITS: [(Posted, Taken); 19] = [
    ((1, What::Height, 0), Err(AddRefusal::UnknownSegment)),
    ((0, What::Closed, 2), Err(AddRefusal::Range)),
    ((0, What::Closed, 1), Ok(())),
    ((0, What::Height, 0), Err(AddRefusal::Range)),
    ((0, What::Height, 999), Ok(())),
    ((0, What::Height, 1_000), Err(AddRefusal::Range)),
    ((0, What::Width, 0), Err(AddRefusal::Range)),
    ((0, What::Width, 1_000), Err(AddRefusal::Range)),
    ((0, What::Length, 0), Err(AddRefusal::Range)),
    ((0, What::Length, 9_999), Ok(())),
    ((0, What::Length, 10_000), Err(AddRefusal::Range)),
    ((0, What::Gross, 0), Err(AddRefusal::Range)),
    ((0, What::Gross, 2_000_001), Err(AddRefusal::Range)),
    ((0, What::Allowance, 0), Ok(())),
    ((0, What::Allowance, 100_001), Err(AddRefusal::Range)),
    ((0, What::Tridem, 0), Err(AddRefusal::Range)),
    ((0, What::Tridem, 1), Ok(())),
    ((0, What::Tridem, 600_000), Ok(())),
    ((0, What::Tridem, 600_001), Err(AddRefusal::Range)),
];

#[test]
fn refuses_a_limit_by_the_first_cause_that_applies(rt: HostRuntime) {
    let mut network = network(&rt, rt.alloc(), &SMALL);
    set_limits(&rt, &mut network, &LIMITS);
    drop(network);
}

// A name, and the numbers of its node, its segment and its span.
type Numbered = (&'static [u8], [Option<u32>; 3]);

fn find_each(rt: &impl Abort, network: &Network, cases: &[Numbered]) {
    for (row, &(name, numbers)) in cases.iter().enumerate() {
        let name = named(rt, name);
        let found = [
            network.node_named(&name),
            network.segment_named(&name),
            network.span_named(&name),
        ];
        same(rt, row, found, numbers);
    }
}

const NAMES: [Numbered; 8] = [
    (b"a", [Some(0), None, None]),
    (b"b", [Some(1), None, None]),
    (b"ab", [None, Some(0), None]),
    (b"way-2", [None, Some(2), None]),
    (b"loop", [None, Some(3), None]),
    (b"s", [None, None, Some(0)]),
    (b"u", [None, None, Some(2)]),
    (b"way-3", [None, None, None]),
];

fn tell_segment(rt: &impl Abort, segment: Segment, name: &[u8], ends: (u32, u32), feet: u32) {
    same(rt, 0, segment.name, named(rt, name));
    same(rt, 1, (segment.from, segment.to), ends);
    same(rt, 2, segment.feet, feet);
    same(rt, 3, segment.base, Values::default());
}

fn tell_span(rt: &impl Abort, span: Span, name: &[u8], numbers: (u32, u32, u32)) {
    same(rt, 0, span.name, named(rt, name));
    same(rt, 1, (span.segment, span.inches, span.rating), numbers);
}

fn tell(rt: &impl Abort, network: &Network) {
    assert!(rt; network.nodes() == 2 && network.segments() == 4 && network.spans() == 3);
    tell_segment(rt, network.segment(3), b"loop", (1, 1), 300);
    tell_span(rt, network.span(1), b"t", (2, 480, 900));
}

fn has_set(rt: &impl Abort, network: &Network, segment: u32, values: Values) {
    assert!(rt; segment < network.segments());
    same(rt, segment as usize, network.segment(segment).base, values);
}

const SET: [(Posted, Taken); 5] = [
    ((0, What::Height, 168), Ok(())),
    ((0, What::Closed, 1), Ok(())),
    ((0, What::Closed, 0), Ok(())),
    ((0, What::Gross, 120_000), Ok(())),
    ((0, What::Tridem, 51_000), Ok(())),
];

#[test]
fn sets_one_limit_and_leaves_the_others(rt: HostRuntime) {
    let mut network = network(&rt, rt.alloc(), &GROWN);
    set_limits(&rt, &mut network, &SET);
    same(&rt, 0, network.segments(), 4);
    let values = Values {
        closed: false,
        height: 168,
        width: 999,
        length: 9_999,
        gross: 120_000,
        allowance: 100_000,
        tridem: 51_000,
    };
    has_set(&rt, &network, 0, values);
    has_set(&rt, &network, 1, Values::default());
    drop(network);
}

// What begins and ends at a node.
fn meets(rt: &impl Abort, network: &Network, node: u32, outgoing: &[u32], incoming: &[Arrival]) {
    assert!(rt; node < network.nodes());
    same(rt, 0, network.outgoing(node), outgoing);
    same(rt, 1, network.incoming(node), incoming);
}

const INTO_A: [Arrival; 1] = [Arrival {
    segment: 1,
    from: 1,
    feet: 100,
}];

const INTO_B: [Arrival; 3] = [
    Arrival {
        segment: 0,
        from: 0,
        feet: 5_280,
    },
    Arrival {
        segment: 2,
        from: 0,
        feet: 200,
    },
    Arrival {
        segment: 3,
        from: 1,
        feet: 300,
    },
];

fn carries(rt: &impl Abort, network: &Network, segment: u32, spans: &[u32]) {
    assert!(rt; segment < network.segments());
    same(rt, segment as usize, network.spans_of(segment), spans);
}

// A segment, and the spans on it.
const CARRIED: [(u32, &[u32]); 4] = [(0, &[0, 2]), (1, &[]), (2, &[1]), (3, &[])];

fn tell_all(rt: &impl Abort, network: &Network) {
    find_each(rt, network, &NAMES);
    tell(rt, network);
    meets(rt, network, 0, &[0, 2], &INTO_A);
    meets(rt, network, 1, &[1, 3], &INTO_B);
    for &(segment, spans) in &CARRIED {
        carries(rt, network, segment, spans);
    }
}

#[test]
fn tells_what_stands_in_a_network(rt: HostRuntime) {
    let network = network(&rt, rt.alloc(), &GROWN);
    tell_all(&rt, &network);
    drop(network);
}

const NODES_BEYOND: [Added; 2] = [
    (Piece::Node(b"c"), Err(AddRefusal::TooMany)),
    (Piece::Node(b"a"), Err(AddRefusal::SameName)),
];

fn add_numbered_nodes(rt: &impl Abort, network: &mut Network, first: u32, end: u32) {
    for number in first..end {
        assert!(rt; network.add_node(numbered(rt, number)) == Ok(number));
    }
}

#[test]
fn has_room_for_4096_nodes(rt: HostRuntime) {
    let mut network = network(&rt, rt.alloc(), &SMALL);
    add_numbered_nodes(&rt, &mut network, 2, 4_096);
    add_each(&rt, &mut network, &NODES_BEYOND);
    same(
        &rt,
        2,
        network.node_named(&numbered(&rt, 4_095)),
        Some(4_095),
    );
    drop(network);
}

const SEGMENTS_BEYOND: [Added; 2] = [
    (Piece::Segment(b"c", 0, 0, 1), Err(AddRefusal::TooMany)),
    (Piece::Segment(b"c", 0, 0, 0), Err(AddRefusal::Range)),
];

// Adds the segments of these numbers, from one node and the other in turns.
fn add_numbered_segments(rt: &impl Abort, network: &mut Network, first: u32, end: u32) {
    for number in first..end {
        let added = network.add_segment(numbered(rt, number), number % 2, 0, 1);
        assert!(rt; added == Ok(number));
    }
}

#[test]
fn has_room_for_16384_segments(rt: HostRuntime) {
    let mut network = network(&rt, rt.alloc(), &SMALL);
    add_numbered_segments(&rt, &mut network, 1, 16_384);
    add_each(&rt, &mut network, &SEGMENTS_BEYOND);
    same(
        &rt,
        2,
        network.segment_named(&numbered(&rt, 16_383)),
        Some(16_383),
    );
    drop(network);
}

// Adds the spans of these numbers, each to the segment of a sixteenth of its number.
fn add_numbered_spans(rt: &impl Abort, network: &mut Network, first: u32, end: u32) {
    for number in first..end {
        let added = network.add_span(numbered(rt, number), number / 16, 1, 0);
        assert!(rt; added == Ok(number));
    }
}

const SPANS_BEYOND_16: [Added; 1] = [(Piece::Span(b"t", 0, 1, 0), Err(AddRefusal::TooMany))];

const SPANS_BEYOND_2048: [Added; 1] = [(Piece::Span(b"t", 129, 1, 0), Err(AddRefusal::TooMany))];

#[test]
fn has_room_for_2048_spans_and_16_on_a_segment(rt: HostRuntime) {
    let mut network = network(&rt, rt.alloc(), &SMALL);
    add_numbered_segments(&rt, &mut network, 1, 130);
    add_numbered_spans(&rt, &mut network, 1, 16);
    add_each(&rt, &mut network, &SPANS_BEYOND_16);
    add_numbered_spans(&rt, &mut network, 16, 2_048);
    add_each(&rt, &mut network, &SPANS_BEYOND_2048);
    same(
        &rt,
        2,
        network.span_named(&numbered(&rt, 2_047)),
        Some(2_047),
    );
    drop(network);
}

fn hands_back(rt: &impl Abort, alloc: Global, list: &[u32]) {
    let numbers = Numbers::of(list.to_vec(alloc).expect(rt, "memory"));
    let copy = numbers.try_clone(alloc).expect(rt, "memory");
    same(rt, 0, copy.as_slice(), list);
    drop(copy);
    let back = numbers.into_vec();
    same(rt, 1, back.as_slice(), list);
    drop(back);
}

const LISTS: [&[u32]; 3] = [&[], &[7], &[3, 3, 4_294_967_295]];

#[test]
fn hands_numbers_back_as_they_were(rt: HostRuntime) {
    for &list in &LISTS {
        hands_back(&rt, rt.alloc(), list);
    }
}

const CAUSES: [(AddRefusal, &str); 6] = [
    (AddRefusal::SameName, "the name is taken"),
    (AddRefusal::UnknownNode, "there is no such node"),
    (AddRefusal::UnknownSegment, "there is no such segment"),
    (AddRefusal::Range, "a value is out of range"),
    (AddRefusal::TooMany, "there are too many"),
    (AddRefusal::NoMemory, "out of memory"),
];

#[test]
fn names_each_cause(rt: HostRuntime) {
    for (refusal, text) in &CAUSES {
        says(&rt, rt.alloc(), refusal, text);
    }
}
