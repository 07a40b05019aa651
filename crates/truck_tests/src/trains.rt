use crate::fixtures::{parts, same, train, tried};
use axle_train::{Axle, Train, TrainRefusal};
use std::alloc::Global;
use std::process::Abort;

// A list of axles, and the rule that it breaks.
const REFUSED: [&str; 13] = [
    // too few, whatever else is wrong
    " | TooFew",
    "0:12000 | TooFew",
    "5:0 | TooFew",
    // the order of the places, before the weights
    "1:12000 48:12000 | PlaceOrder { at: 0 }",
    "0:12000 48:12000 48:12000 | PlaceOrder { at: 2 }",
    "0:12000 48:12000 47:12000 46:12000 | PlaceOrder { at: 2 }",
    "0:0 0:12000 | PlaceOrder { at: 1 }",
    "0:12000 4294967295:12000 4294967295:12000 | PlaceOrder { at: 2 }",
    // a weight, before the gross weight and the length
    "0:0 48:12000 | Weight { at: 0 }",
    "0:12000 48:200001 96:0 | Weight { at: 1 }",
    "0:12000 3001:0 | Weight { at: 1 }",
    // the length, last
    "0:12000 3001:12000 | TooLong",
    "0:1 4294967295:200000 | TooLong",
];

// The rule that these axles break.
fn refusal_told(rt: &impl Abort, alloc: Global, axles: &str) -> String {
    let refusal = tried(rt, alloc, axles).err().expect(rt, axles);
    format!(in alloc; "{refusal:?}").expect(rt, "memory")
}

#[test]
fn refuses_by_the_first_rule_that_is_broken(rt: HostRuntime) {
    for &row in &REFUSED {
        let (axles, wanted) = parts(row);
        let told = refusal_told(&rt, rt.alloc(), axles);
        same(&rt, row, &told.as_str(), &wanted);
    }
}

// How many axles, their distance and their weight, and the rule that they break.
const EVENLY: [(u32, u32, u32, Option<TrainRefusal>); 11] = [
    // too many, before the order
    (33, 48, 12000, Some(TrainRefusal::TooMany)),
    (33, 0, 0, Some(TrainRefusal::TooMany)),
    (32, 0, 12000, Some(TrainRefusal::PlaceOrder { at: 1 })),
    // the sum of these weights is above 32 bits, and is not taken
    (32, 48, 999999999, Some(TrainRefusal::Weight { at: 0 })),
    // the gross weight, before the length
    (11, 48, 181819, Some(TrainRefusal::Gross)),
    (32, 97, 62501, Some(TrainRefusal::Gross)),
    (32, 97, 62500, Some(TrainRefusal::TooLong)),
    // the bounds themselves are kept
    (2, 3000, 1, None),
    (10, 48, 200000, None),
    (32, 96, 62500, None),
    (16, 200, 125000, None),
];

// The rule that axles one after another at equal distances and of one weight break.
fn evenly(
    rt: &impl Abort,
    alloc: Global,
    count: u32,
    step: u32,
    weight: u32,
) -> Option<TrainRefusal> {
    let mut axles = Vec::new(alloc);
    for i in 0..count {
        let place = i.saturating_mul(step);
        axles.push(Axle { place, weight }).expect(rt, "memory");
    }
    let refusal = Train::new(&axles).err();
    drop(axles);
    refusal
}

#[test]
fn refuses_long_lists_by_the_first_rule_that_is_broken(rt: HostRuntime) {
    for &(count, step, weight, wanted) in &EVENLY {
        let found = evenly(&rt, rt.alloc(), count, step, weight);
        assert_eq!(rt; found, wanted, "{count} axles of {weight} lb");
    }
}

// The truck that the Federal Highway Administration works through.
const FEDERAL: &str = "0:12000 192:17000 240:17000 564:17000 612:17000";

// The first and the last axle of a group of that truck, its weight and its spread.
const GROUPS: [(usize, usize, u32, u32); 6] = [
    (0, 0, 12000, 0),
    (0, 2, 46000, 240),
    (1, 2, 34000, 48),
    (1, 4, 68000, 420),
    (0, 4, 80000, 612),
    (4, 4, 17000, 0),
];

fn tell_groups(rt: &impl Abort, train: &Train) {
    for &(i, j, weight, spread) in &GROUPS {
        assert!(rt; i <= j && j < train.len());
        let told = (train.group_weight(i, j), train.spread(i, j));
        assert_eq!(rt; told, (weight, spread), "axles {i} to {j}");
    }
}

#[test]
fn tells_the_axles_and_groups_of_the_federal_example(rt: HostRuntime) {
    let train = train(&rt, rt.alloc(), FEDERAL);
    assert!(rt; train.len() == 5);
    let (is_empty, gross, axle) = (train.is_empty(), train.gross(), train.axle(3));
    tell_groups(&rt, &train);
    drop(train);
    same(&rt, FEDERAL, &(is_empty, gross), &(false, 80000));
    same(&rt, FEDERAL, &(axle.place, axle.weight), &(564, 17000));
}

#[test]
fn shows_a_train_as_its_axles(rt: HostRuntime) {
    let train = train(&rt, rt.alloc(), "0:8000 168:32000");
    let text = format!(in rt.alloc(); "{train:?}").expect(&rt, "memory");
    drop(train);
    let wanted = "[Axle { place: 0, weight: 8000 }, Axle { place: 168, weight: 32000 }]";
    same(&rt, wanted, &text.as_str(), &wanted);
}

const RULES: [(TrainRefusal, &str); 6] = [
    (TrainRefusal::TooFew, "a train has at least 2 axles"),
    (TrainRefusal::TooMany, "a train has at most 32 axles"),
    (
        TrainRefusal::PlaceOrder { at: 7 },
        "the axle of index 7 is out of order",
    ),
    (
        TrainRefusal::Weight { at: 7 },
        "the axle of index 7 weighs less than 1 lb or more than 200000 lb",
    ),
    (TrainRefusal::Gross, "a train weighs at most 2000000 lb"),
    (TrainRefusal::TooLong, "a train is at most 3000 in long"),
];

#[test]
fn shows_a_refusal_as_its_rule(rt: HostRuntime) {
    for &(refusal, rule) in &RULES {
        let text = refusal.to_string(rt.alloc()).expect(&rt, "memory");
        same(&rt, rule, &text.as_str(), &rule);
    }
}
