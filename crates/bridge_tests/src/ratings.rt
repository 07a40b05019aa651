ghost use Rattle.influence_line.specs.Fractions.{IsSmall};
ghost use Rattle.span_rating.specs.Loading.{AreSmall};

use crate::fixtures::same;
use influence_line::{Frac, Hs20Placements};
use span_rating::{Effects, Fit, fit_is_of_the_peaks, fits, least_rating};
use std::process::Abort;

// The numerator and the denominator of a moment, and those of a shear.
type Terms = ((u128, u128), (u128, u128));

// HS20-44 on 20 feet, and on 500 feet with a train of 32 axles of 62,500 lb: the train's moment is 21,323.08
// thousandths of the design's, and its shear 21,282.7.
const SHORT: Terms = ((1920000, 1), (41600, 1));

const LONG: Terms = ((104649408, 1), (70656, 1));

const HEAVY: Terms = ((17851584375, 8), (1503750, 1));

// Numbers near the greatest that are allowed.
const GREATEST: Terms = (((1 << 68) - 1, (1 << 36) - 2), (1, 1));

const LEAST: Terms = ((1, (1 << 36) - 1), (1, 1));

// Two effects, each in lowest terms and of the size that peaks have.
fn effects(rt: &impl Abort, terms: Terms) -> Effects
    ensures { AreSmall result }
{
    let (moment, shear) = terms;
    let moment = small(rt, moment.0, moment.1);
    let shear = small(rt, shear.0, shear.1);
    Effects { moment, shear }
}

fn small(rt: &impl Abort, num: u128, den: u128) -> Frac
    ensures { IsSmall result }
{
    assert!(rt; num < 1 << 68 && den < 1 << 36);
    Frac::of(num, den).expect(rt, "lowest terms")
}

// A truck's effects, those of the design truck, a rating, and the judgement.
const JUDGED: [(Terms, Terms, u32, Fit); 14] = [
    (SHORT, SHORT, 1000, Fit::Fits),
    (SHORT, SHORT, 999, Fit::Moment),
    (HEAVY, LONG, 21323, Fit::Moment),
    (HEAVY, LONG, 21324, Fit::Fits),
    // Both are over the rating, and the moment is named.
    (HEAVY, LONG, 21282, Fit::Moment),
    // The shear alone is over the rating, or just within it: 3/2 of the design's.
    (((1, 1), (3, 1)), ((1, 1), (2, 1)), 1499, Fit::Shear),
    (((1, 1), (3, 1)), ((1, 1), (2, 1)), 1500, Fit::Fits),
    // 5/7 against 3/4: 952.38 thousandths.
    (((5, 7), (5, 7)), ((3, 4), (3, 4)), 952, Fit::Moment),
    (((5, 7), (5, 7)), ((3, 4), (3, 4)), 953, Fit::Fits),
    // A span rated 0 carries what does nothing.
    (((0, 1), (0, 1)), ((3, 4), (3, 4)), 0, Fit::Fits),
    (((0, 1), (1, 9)), ((3, 4), (3, 4)), 0, Fit::Shear),
    // The greatest rating.
    (((100, 1), (100, 1)), ((1, 1), (1, 1)), 100000, Fit::Fits),
    (((101, 1), (1, 1)), ((1, 1), (1, 1)), 100000, Fit::Moment),
    (GREATEST, LEAST, 100000, Fit::Moment),
];

fn judges(rt: &impl Abort, row: usize, truck: Terms, design: Terms, rating: u32, wanted: Fit) {
    assert!(rt; rating <= 100000);
    same(
        rt,
        row,
        &fits(&effects(rt, truck), &effects(rt, design), rating),
        &wanted,
    );
}

#[test]
fn judges_at_the_last_thousandth(rt: HostRuntime) {
    for (row, &(truck, design, rating, wanted)) in JUDGED.iter().enumerate() {
        judges(&rt, row, truck, design, rating, wanted);
    }
    fit_is_of_the_peaks(&Hs20Placements, &Hs20Placements);
}

// A truck's effects, those of the design truck, and the least rating.
const LEAST_RATINGS: [(Terms, Terms, u32); 8] = [
    (SHORT, SHORT, 1000),
    (HEAVY, LONG, 21324),
    // The shear is 3/2 of the design's, and the moment the same.
    (((1, 1), (3, 1)), ((1, 1), (2, 1)), 1500),
    // 5/7 against 3/4: 952.38 thousandths.
    (((5, 7), (5, 7)), ((3, 4), (3, 4)), 953),
    (((0, 1), (0, 1)), ((3, 4), (3, 4)), 0),
    (((100, 1), (100, 1)), ((1, 1), (1, 1)), 100000),
    // No rating is enough.
    (((101, 1), (1, 1)), ((1, 1), (1, 1)), 100001),
    (GREATEST, LEAST, 100001),
];

fn needs(rt: &impl Abort, row: usize, truck: Terms, design: Terms, wanted: u32) {
    same(
        rt,
        row,
        &least_rating(&effects(rt, truck), &effects(rt, design)),
        &wanted,
    );
}

#[test]
fn finds_the_least_rating(rt: HostRuntime) {
    for (row, &(truck, design, wanted)) in LEAST_RATINGS.iter().enumerate() {
        needs(&rt, row, truck, design, wanted);
    }
}
