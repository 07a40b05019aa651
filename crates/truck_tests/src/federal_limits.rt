// Limits, findings, worst groups and tridem groups of trucks that were worked by hand or come from the published bridge formula
// table. Groups are written FIRST-LAST, counted from 1.

use crate::fixtures::{pair, parts, same, train};
use axle_limits::{Finding, WorstGroup, findings, group_limit, heaviest_tridem, worst};
use std::alloc::Global;
use std::process::Abort;

// A truck, and the limit of one of its groups and the rule that gives it.
const LIMITS: [&str; 18] = [
    // one axle, and two at the bounds of a single axle and of a tandem
    "0:8000 168:32000 336:32000 | 2-2 20000 Single",
    "0:10000 40:10000 | 1-2 20000 Single",
    "0:10000 41:10000 | 1-2 34000 Tandem",
    "0:10000 96:10000 | 1-2 34000 Tandem",
    "0:10000 97:10000 | 1-2 38000 Formula",
    // three axles within 96 in are still a tandem, and beyond it the formula's tie goes down
    "0:10000 48:10000 96:10000 | 1-3 34000 Tandem",
    "0:10000 66:10000 132:10000 | 1-3 44000 Formula",
    // four axles at 35 feet, at 36 feet and one inch short of it
    "0:12000 192:17000 240:17000 564:17000 612:17000 | 2-5 65500 Formula",
    "0:12000 180:17000 228:17000 564:17000 612:17000 | 2-5 68000 TwoTandem",
    "0:12000 180:17000 228:17000 563:17000 611:17000 | 2-5 66000 Formula",
    // the exception is no rule where the formula gives as much, at 39 feet, or more
    "0:1 48:1 408:1 456:1 | 1-4 68000 TwoTandem",
    "0:1 48:1 420:1 468:1 | 1-4 68000 Formula",
    "0:1 48:1 432:1 480:1 | 1-4 68500 Formula",
    // a pair is a tandem from 41 to 96 in
    "0:1 41:1 336:1 432:1 | 1-4 68000 TwoTandem",
    "0:1 40:1 336:1 432:1 | 1-4 66000 Formula",
    "0:1 41:1 335:1 432:1 | 1-4 66000 Formula",
    // five axles are no two tandems: 36 feet, 70,500 lb
    "0:1 48:1 216:1 384:1 432:1 | 1-5 70500 Formula",
    "0:12000 180:17000 228:17000 564:17000 612:17000 | 1-5 80000 Formula",
];

// The limit of the group that a row has.
fn limit_told(rt: &impl Abort, alloc: Global, row: &str) -> String {
    let (axles, told) = parts(row);
    let (first, last) = pair(told.split(' ').next().unwrap_or(""), '-');
    let (i, j) = (
        first.wrapping_sub(1) as usize,
        last.wrapping_sub(1) as usize,
    );
    let train = train(rt, alloc, axles);
    assert!(rt; i <= j && j < train.len());
    let found = group_limit(&train, i, j);
    drop(train);
    format!(in alloc; "{first}-{last} {} {:?}", found.limit, found.rule).expect(rt, "memory")
}

#[test]
fn limits_groups_by_their_rules(rt: HostRuntime) {
    for &row in &LIMITS {
        let told = limit_told(&rt, rt.alloc(), row);
        same(&rt, row, &told.as_str(), &parts(row).1);
    }
}

// A truck, and each of its groups that is over its limit, with the weight, the limit and the rule.
const FINDINGS: [&str; 8] = [
    // the truck that the Federal Highway Administration works through: 35 feet between its tandems
    "0:12000 192:17000 240:17000 564:17000 612:17000 | 2-5 68000 over 65500 Formula, ",
    // the same truck with its tandems 36 feet from first to last, and one inch short of that
    "0:12000 180:17000 228:17000 564:17000 612:17000 | ",
    "0:12000 180:17000 228:17000 563:17000 611:17000 | 2-5 68000 over 66000 Formula, ",
    // the HS20-44 design truck of AASHTO's Standard Specifications at its shortest
    "0:8000 168:32000 336:32000 | 1-3 72000 over 57000 Formula, 2-2 32000 over 20000 Single, 2-3 64000 over 44000 Formula, 3-3 32000 over 20000 Single, ",
    // a pound too many over 51 feet is a pound too many in all
    "0:12001 180:17000 228:17000 564:17000 612:17000 | 1-5 80001 over 80000 Formula, 1-5 80001 over 80000 Gross, ",
    // far apart, so that the gross weight alone is over
    "0:14000 300:14000 600:14000 900:14000 1200:14000 1500:14000 | 1-6 84000 over 80000 Gross, ",
    // a tandem at its limit and a pound over it
    "0:17000 48:17000 | ",
    "0:17000 48:17001 | 1-2 34001 over 34000 Tandem, ",
];

// What is over its limit.
fn findings_told(rt: &impl Abort, alloc: Global, axles: &str) -> String {
    let train = train(rt, alloc, axles);
    let list = findings(alloc, &train).expect(rt, "memory");
    drop(train);
    let mut told = String::new(alloc);
    for finding in &list {
        let Finding {
            i,
            j,
            weight,
            limit,
            rule,
        } = *finding;
        let (first, last) = (i.wrapping_add(1), j.wrapping_add(1));
        write!(told, "{first}-{last} {weight} over {limit} {rule:?}, ").expect(rt, "memory");
    }
    drop(list);
    told
}

#[test]
fn lists_what_is_over_its_limit_in_order(rt: HostRuntime) {
    for &row in &FINDINGS {
        let (axles, wanted) = parts(row);
        let told = findings_told(&rt, rt.alloc(), axles);
        same(&rt, row, &told.as_str(), &wanted);
    }
}

// A truck, and its worst group with the weight and the limit.
const WORST: [&str; 6] = [
    "0:12000 192:17000 240:17000 564:17000 612:17000 | 2-5 68000 of 65500",
    // four groups stand exactly at their limits
    "0:12000 180:17000 228:17000 564:17000 612:17000 | 1-5 80000 of 80000",
    // both rear axles are at 1.6 times their limit
    "0:8000 168:32000 336:32000 | 2-2 32000 of 20000",
    "0:1000 300:900 | 1-1 1000 of 20000",
    "0:1000 300:2000 | 2-2 2000 of 20000",
    "0:10000 40:10000 | 1-2 20000 of 20000",
];

fn worst_told(rt: &impl Abort, alloc: Global, axles: &str) -> String {
    let train = train(rt, alloc, axles);
    let WorstGroup {
        i,
        j,
        weight,
        limit,
    } = worst(&train);
    drop(train);
    let (first, last) = (i.wrapping_add(1), j.wrapping_add(1));
    format!(in alloc; "{first}-{last} {weight} of {limit}").expect(rt, "memory")
}

#[test]
fn finds_the_first_of_the_worst_groups(rt: HostRuntime) {
    for &row in &WORST {
        let (axles, wanted) = parts(row);
        let told = worst_told(&rt, rt.alloc(), axles);
        same(&rt, row, &told.as_str(), &wanted);
    }
}

// A truck, and its heaviest tridem group with the weight, if there is one.
const TRIDEMS: [&str; 11] = [
    // three axles 96, 97, 144 and 145 in from first to last
    "0:10 48:20 96:30 | none",
    "0:10 48:20 97:30 | 1-3 60",
    "0:10 72:20 144:30 | 1-3 60",
    "0:10 72:20 145:30 | none",
    // two axles that far apart, and four of which no three are
    "0:10 120:20 | none",
    "0:10 48:20 96:30 144:40 | none",
    // behind a steering axle, 108 in from first to last
    "0:12000 180:17000 234:17000 288:17000 | 2-4 51000",
    // the heavier one of two, wherever it stands
    "0:10 50:10 100:10 400:10 450:11 500:10 | 4-6 31",
    "0:10 50:11 100:10 400:10 450:10 500:10 | 1-3 31",
    // of two that weigh the same the first, also where they share axles
    "0:10 50:10 100:10 400:10 450:10 500:10 | 1-3 30",
    "0:10 50:10 100:10 150:10 | 1-3 30",
];

fn tridem_told(rt: &impl Abort, alloc: Global, axles: &str) -> String {
    let train = train(rt, alloc, axles);
    let heaviest = heaviest_tridem(&train);
    drop(train);
    let told = match heaviest {
        Some(group) => {
            let (first, last) = (group.i.wrapping_add(1), group.j.wrapping_add(1));
            format!(in alloc; "{first}-{last} {}", group.weight)
        }
        None => "none".to_string(alloc),
    };
    told.expect(rt, "memory")
}

#[test]
fn finds_the_heaviest_tridem_group(rt: HostRuntime) {
    for &row in &TRIDEMS {
        let (axles, wanted) = parts(row);
        let told = tridem_told(&rt, rt.alloc(), axles);
        same(&rt, row, &told.as_str(), &wanted);
    }
}
