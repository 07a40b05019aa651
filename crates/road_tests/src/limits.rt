ghost use Rattle.std.specs.Prelude.{◌≡◌, ◌<◌, length};
ghost use Rattle.clearance_rules.specs.Counters.{IsBlankOf};
ghost use Rattle.restriction_log.specs.States.{AreOf};

use crate::fixtures::{
    ALLOWANCE, CLOSED, GROSS, HEIGHT, LENGTH, Piece, Posted, RATING, TRIDEM, WIDTH, after,
    base_state, change, holds, network, same, says, train,
};
use axle_limits::WorstGroup;
use clearance_rules::{
    Limit, Load, Range, Steps, first_failing, limits_are_of_their_segment, meets,
};
use hs20_truck::Live;
use journal_text::limit_text;
use restriction_log::State;
use road_graph::Network;
use std::alloc::Global;
use std::marker::Brand;
use std::process::Abort;
use std::sync::ledger::{Blank, Ledger};

// The design truck, with its smallest second spacing.
const HS20: [(u32, u32); 3] = [(0, 8_000), (168, 32_000), (336, 32_000)];

// A five-axle truck of 80,000 lb whose axles 2 to 5 are 31 ft apart: the bridge formula gives them 65,500 lb.
const OVER_THE_FORMULA: [(u32, u32); 5] = [
    (0, 12_000),
    (192, 17_000),
    (240, 17_000),
    (564, 17_000),
    (612, 17_000),
];

// The same with two tandems 36 ft from the first axle to the last, which may carry 68,000 lb.
const TWO_TANDEMS: [(u32, u32); 5] = [
    (0, 12_000),
    (180, 17_000),
    (228, 17_000),
    (564, 17_000),
    (612, 17_000),
];

// A steering axle and three axles 108 in from first to last, to which the bridge formula gives 42,500 lb.
const THREE_AXLES: [(u32, u32); 4] = [(0, 12_000), (180, 17_000), (234, 17_000), (288, 17_000)];

// Two axles 10 ft apart. On 20 ft the moment is 60,000/(4*240)*180*180, and the shear 30,000 + 15,000.
const TWO_AXLES: [(u32, u32); 2] = [(0, 30_000), (120, 30_000)];

// Segments 0 and 1 between two nodes, with the spans 0 and 2 on segment 0 and span 1 on segment 1, which carry what they may
// at most.
const STRONG: [Piece; 7] = [
    Piece::Node(b"a"),
    Piece::Node(b"b"),
    Piece::Segment(b"ab", 0, 1, 5280),
    Piece::Segment(b"ba", 1, 0, 5280),
    Piece::Span(b"s", 0, 240, 100000),
    Piece::Span(b"t", 1, 240, 100000),
    Piece::Span(b"u", 0, 240, 100000),
];

// What was built is let go by a call of `drop`: where a scope lets it go, the proof of the whole function
// goes through its parts. For the same reason no function both builds and goes through a table.

// A load of this height, width and length with axles of these places and weights.
fn loaded(rt: &impl Abort, alloc: Global, sizes: (u32, u32, u32), pairs: &[(u32, u32)]) -> Load {
    let train = train(rt, alloc, pairs);
    Load::new(sizes.0, sizes.1, sizes.2, train).expect(rt, "a load")
}

// What is posted, and the limit that fails a load after it and the postings of the rows behind it, in the words of a journal; no words
// where none fails.
type Row = (Posted, &'static str);

// The limit is the one of these words, if any are.
fn is_limit(rt: &impl Abort, alloc: Global, limit: Option<Limit>, words: &str) {
    match limit {
        Some(limit) => {
            let text = limit_text(alloc, &limit).expect(rt, "memory");
            holds(rt, text.as_slice() == words.as_bytes(), words);
            drop(text);
        }
        None => holds(rt, words.is_empty(), words),
    }
}

// The state after what these rows post.
fn state_after(rt: &impl Abort, alloc: Global, network: &Network, rows: &[Row]) -> State
    ensures { AreOf network.now result }
{
    let mut state = base_state(rt, alloc, network);
    'changes: for &(posted, _) in rows {
        state = after(rt, alloc, network, &state, &change(posted));
    }
    state
}

// The first limit of a segment that fails a load. By what the load keeps, the segment meets it exactly where there is none.
fn limit_on<L: Ledger>(
    rt: &impl Abort,
    network: &Network,
    state: &State,
    load: &Load,
    segment: u32,
    blank: Blank,
) -> Option<Limit>
    requires segment { segment < length network.now.segments }
    requires state { AreOf network.now state.now }
    requires counter { IsBlankOf L.name L.parts blank }
{
    let mut steps = Steps::<L>::new(blank);
    let study = Live {
        train: load.train(),
    };
    let limit = first_failing(network, state, load, &study, segment, &mut steps);
    let is_met = meets(network, state, load, load.study(), segment, &mut steps);
    assert!(rt; is_met == limit.is_none());
    limit
}

// The same of segment 0 after the changes of these rows.
fn limit_after(
    rt: &impl Abort,
    alloc: Global,
    network: &Network,
    load: &Load,
    rows: &[Row],
) -> Option<Limit> {
    let state = state_after(rt, alloc, network, rows);
    assert!(rt; network.segments() > 0);
    let limit = limit_on::<Brand>(rt, network, &state, load, 0, Blank::new(1));
    drop(state);
    limit
}

// Which postings stand at a row.
#[derive(Clone, Copy, PartialEq)]
enum Standing {
    Its,
    ItsAndThoseBehind,
}

// Tries the postings that stand at each row.
fn try_each(
    rt: &impl Abort,
    alloc: Global,
    network: &Network,
    load: &Load,
    standing: Standing,
    rows: &[Row],
) {
    for i in 0..rows.len() {
        let end = if standing == Standing::Its {
            i + 1
        } else {
            rows.len()
        };
        let limit = limit_after(rt, alloc, network, load, &rows[i..end]);
        is_limit(rt, alloc, limit, rows[i].1);
    }
}

const AT_EQUALITY: [Row; 10] = [
    ((HEIGHT, 0, 168), ""),
    ((HEIGHT, 0, 167), "segment 1 height 168 over 167"),
    ((WIDTH, 0, 144), ""),
    ((WIDTH, 0, 143), "segment 1 width 144 over 143"),
    ((LENGTH, 0, 720), ""),
    ((LENGTH, 0, 719), "segment 1 length 720 over 719"),
    ((GROSS, 0, 80_000), ""),
    ((GROSS, 0, 79_999), "segment 1 gross 80000 over 79999"),
    // 68,000 lb of 65,500 lb are 1,038.2 thousandths
    ((ALLOWANCE, 0, 1_039), ""),
    (
        (ALLOWANCE, 0, 1_038),
        "segment 1 group 2-5 weight 68000 limit 65500 allowance 1038",
    ),
];

const IN_ORDER: [Row; 9] = [
    ((CLOSED, 0, 1), "segment 1 closed"),
    ((HEIGHT, 0, 1), "segment 1 height 168 over 1"),
    ((WIDTH, 0, 1), "segment 1 width 144 over 1"),
    ((LENGTH, 0, 1), "segment 1 length 720 over 1"),
    ((GROSS, 0, 1), "segment 1 gross 72000 over 1"),
    (
        (ALLOWANCE, 0, 0),
        "segment 1 group 2-2 weight 32000 limit 20000 allowance 0",
    ),
    // 32,000 lb at the middle of 20 ft
    (
        (RATING, 0, 999),
        "segment 1 span 1 moment 1920000/1 hs20 1920000/1 rating 999",
    ),
    (
        (RATING, 2, 0),
        "segment 1 span 3 moment 1920000/1 hs20 1920000/1 rating 0",
    ),
    // a span of another segment
    ((RATING, 1, 0), ""),
];

// The group of 51,000 lb is over this posted weight of tridem groups by a pound.
const OVER_TRIDEM: Row = (
    (TRIDEM, 0, 50_999),
    "segment 1 tridem 2-4 weight 51000 over 50999",
);

const TRIDEMS: [Row; 2] = [((TRIDEM, 0, 51_000), ""), OVER_TRIDEM];

const AROUND_TRIDEMS: [Row; 3] = [
    // 51,000 lb of 42,500 lb are 1,200 thousandths
    (
        (ALLOWANCE, 0, 1_199),
        "segment 1 group 2-4 weight 51000 limit 42500 allowance 1199",
    ),
    OVER_TRIDEM,
    // on 20 ft: 17,000/4*240 of the axle in the middle, and 17,000*66/240*120 of each at its side, twice
    (
        (RATING, 0, 0),
        "segment 1 span 1 moment 2142000/1 hs20 1920000/1 rating 0",
    ),
];

const RATINGS: [Row; 4] = [
    ((RATING, 0, 1_082), ""),
    (
        (RATING, 0, 1_081),
        "segment 1 span 1 shear 45000/1 hs20 41600/1 rating 1081",
    ),
    (
        (RATING, 0, 1_055),
        "segment 1 span 1 shear 45000/1 hs20 41600/1 rating 1055",
    ),
    (
        (RATING, 0, 1_054),
        "segment 1 span 1 moment 2025000/1 hs20 1920000/1 rating 1054",
    ),
];

const DESIGN: [Row; 1] = [((RATING, 0, 1_000), "")];

// Height and width of a load that is 720 in long, and its axles; whether it keeps what they ask of spans of 20 ft; which postings stand,
// and the rows.
type Judged = (
    (u32, u32),
    &'static [(u32, u32)],
    bool,
    Standing,
    &'static [Row],
);

const JUDGED: [Judged; 6] = [
    (
        (168, 144),
        &OVER_THE_FORMULA,
        false,
        Standing::Its,
        &AT_EQUALITY,
    ),
    // Of all changes the first fails the load; of those after it the next one does, and so on.
    (
        (168, 144),
        &HS20,
        false,
        Standing::ItsAndThoseBehind,
        &IN_ORDER,
    ),
    // A tridem group passes at equality, is judged behind the groups and before the spans, and by its own weight: the allowance, which
    // is the greatest here, does not scale it.
    ((168, 102), &THREE_AXLES, false, Standing::Its, &TRIDEMS),
    (
        (168, 102),
        &THREE_AXLES,
        false,
        Standing::ItsAndThoseBehind,
        &AROUND_TRIDEMS,
    ),
    // by both effects, as the load keeps them
    ((168, 144), &TWO_AXLES, true, Standing::Its, &RATINGS),
    ((168, 144), &HS20, false, Standing::Its, &DESIGN),
];

// A load is judged on the strong roads.
fn judge(rt: &impl Abort, alloc: Global, network: &Network, judged: &Judged) {
    let &((height, width), axles, keeps, standing, rows) = judged;
    let mut load = loaded(rt, alloc, (height, width, 720), axles);
    if keeps {
        load.keep(alloc, 240).expect(rt, "memory");
    }
    try_each(rt, alloc, network, &load, standing, rows);
    drop(load);
}

#[test]
fn names_the_first_limit_that_fails(rt: HostRuntime) {
    let network = network(&rt, rt.alloc(), &STRONG);
    for judged in &JUDGED {
        judge(&rt, rt.alloc(), &network, judged);
    }
    drop(network);
    limits_are_of_their_segment();
}

// Whether a load of this height and width is legal.
fn is_legal(rt: &impl Abort, alloc: Global, height: u32, width: u32, pairs: &[(u32, u32)]) -> bool {
    let load = loaded(rt, alloc, (height, width, 720), pairs);
    let legal = load.legal();
    drop(load);
    legal
}

// A height and a width, axles, and whether a load of them is legal.
const LEGAL: [(u32, u32, &[(u32, u32)], bool); 4] = [
    (162, 102, &TWO_TANDEMS, true),
    (163, 102, &TWO_TANDEMS, false),
    (162, 103, &TWO_TANDEMS, false),
    (162, 102, &OVER_THE_FORMULA, false),
];

#[test]
fn tells_which_loads_are_legal(rt: HostRuntime) {
    for (row, &(height, width, pairs, legal)) in LEGAL.iter().enumerate() {
        let found = is_legal(&rt, rt.alloc(), height, width, pairs);
        same(&rt, row, found, legal);
    }
}

#[test]
fn tells_the_parts_of_a_load(rt: HostRuntime) {
    let load = loaded(&rt, rt.alloc(), (162, 102, 720), &OVER_THE_FORMULA);
    let sizes = (load.height(), load.width(), load.length());
    let (gross, found) = (load.train().gross(), load.worst());
    drop(load);
    same(&rt, 0, sizes, (162, 102, 720));
    same(&rt, 1, gross, 80_000);
    let worst = WorstGroup {
        i: 1,
        j: 4,
        weight: 68_000,
        limit: 65_500,
    };
    same(&rt, 2, found, worst);
}

// Two axles of a pound each, an inch apart.
const LEAST: [(u32, u32); 2] = [(0, 1), (1, 1)];

// Whether a load of this height, width and length can be made.
fn is_taken(rt: &impl Abort, alloc: Global, sizes: (u32, u32, u32)) -> bool {
    let train = train(rt, alloc, &LEAST);
    let load = Load::new(sizes.0, sizes.1, sizes.2, train);
    let taken = load.is_ok();
    drop(load);
    taken
}

// Height, width and length, and whether a load can have them.
const SIZES: [((u32, u32, u32), bool); 8] = [
    ((1, 1, 1), true),
    ((999, 999, 9_999), true),
    ((0, 1, 1), false),
    ((1_000, 1, 1), false),
    ((1, 0, 1), false),
    ((1, 1_000, 1), false),
    ((1, 1, 0), false),
    ((1, 1, 10_000), false),
];

#[test]
fn takes_numbers_in_range(rt: HostRuntime) {
    for (row, &(sizes, taken)) in SIZES.iter().enumerate() {
        same(&rt, row, is_taken(&rt, rt.alloc(), sizes), taken);
    }
    says(&rt, rt.alloc(), &Range, "a number is out of its range");
}
