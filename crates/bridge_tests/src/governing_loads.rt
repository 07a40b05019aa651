use crate::fixtures::same;
use axle_train::Train;
use design_loads::{
    By, GreatestEffects, areas_are_under_the_lines, design_loads_are_the_peaks,
    fit_is_of_the_greatest, fits_greatest, greatest, lane, military,
};
use hs20_truck::{effects_of, truck};
use influence_line::{Frac, Hs20Placements};
use span_rating::Fit;
use std::process::Abort;

// The numerator and the denominator of an effect, and the design load that it is of.
type Governed = (u128, u128, By);

fn governed(effects: &GreatestEffects) -> (Governed, Governed) {
    let (moment, shear) = (effects.moment, effects.shear);
    (
        (moment.num(), moment.den(), effects.moment_by),
        (shear.num(), shear.den(), effects.shear_by),
    )
}

// A span in inches, and the greatest moment and end shear on it. The moment of two loads P that are a apart is
// P (2L - a)^2 / 8L (AISC Manual of Steel Construction), and that of the lane load (20 L^2 + 13500 L) / 3.
const GREATEST: [(u32, Governed, Governed); 10] = [
    // One axle of the truck is on the span at a time.
    (1, (8000, 1, By::Truck), (32000, 1, By::Truck)),
    // Both the truck and the military loading have a shear of 32,000: 24000 + 24000 * 24 / 72.
    (72, (576000, 1, By::Truck), (32000, 1, By::Truck)),
    // 24000 * 432 * 432 / 1920, and 24000 + 24000 * 192 / 240.
    (240, (2332800, 1, By::Military), (43200, 1, By::Military)),
    // Both have a shear of 480000 / 11: 32000 + 32000 * 96 / 264, and 24000 + 24000 * 216 / 264.
    (264, (28800000, 11, By::Military), (480000, 11, By::Truck)),
    // 37 and 38 feet, between which the truck's moment becomes the greater one.
    (444, (176400000, 37, By::Military), (1992000, 37, By::Truck)),
    (456, (94464000, 19, By::Truck), (1032000, 19, By::Truck)),
    (1200, (18287040, 1, By::Truck), (65280, 1, By::Truck)),
    // 144 and 145 feet, between which the moment of the lane load becomes the greater one.
    (1728, (83330000, 3, By::Truck), (72080, 1, By::Lane)),
    (1740, (28014000, 1, By::Lane), (72400, 1, By::Lane)),
    (1800, (29700000, 1, By::Lane), (74000, 1, By::Lane)),
];

fn governs(rt: &impl Abort, span: u32, moment: Governed, shear: Governed) {
    assert!(rt; 1 <= span && span <= 6000);
    same(
        rt,
        span as usize,
        &governed(&greatest(span)),
        &(moment, shear),
    );
}

#[test]
fn names_the_load_that_governs(rt: HostRuntime) {
    for (span, moment, shear) in GREATEST {
        governs(&rt, span, moment, shear);
    }
    design_loads_are_the_peaks();
}

// Whether an effect is so many tenths of a unit, to less than a tenth.
fn is_printed(rt: &impl Abort, found: Frac, tenth: u128, tenths: u128) -> bool {
    let (num, den) = (found.num(), found.den());
    assert!(rt; num < 1 << 68 && den < 1 << 36 && tenth <= 1200 && tenths <= 100000);
    num.abs_diff(tenth * tenths * den) < tenth * den
}

// AASHTO Standard Specifications for Highway Bridges, Appendix A, HS20-44 on simple spans, one lane: the span in
// feet, and the greatest moment in tenths of a foot-kip and the greatest end shear in tenths of a kip. The lane load
// gives the shears, and from 145 feet on the moments. The rows were written down from memory, and were not held
// against the printed page.
const PRINTED: [(u32, u128, u128); 6] = [
    (130, 20631, 676),
    (140, 22428, 708),
    (160, 27680, 772),
    (200, 41000, 900),
    (240, 56880, 1028),
    (300, 85500, 1220),
];

fn prints(rt: &impl Abort, feet: u32, moment: u128, shear: u128) {
    assert!(rt; 1 <= feet && feet <= 500);
    let found = greatest(12 * feet);
    // A tenth of a foot-kip is 1,200 pounds times inches, and a tenth of a kip is 100 pounds.
    let near = (
        is_printed(rt, found.moment, 1200, moment),
        is_printed(rt, found.shear, 100, shear),
    );
    same(rt, feet as usize, &near, &(true, true));
}

#[test]
fn the_lane_load_governs_as_aashto_prints_it(rt: HostRuntime) {
    for (feet, moment, shear) in PRINTED {
        prints(&rt, feet, moment, shear);
    }
    areas_are_under_the_lines();
}

// A span in inches, and the moment and the shear of the lane load on it.
const LANE: [(u32, (u128, u128), (u128, u128)); 4] = [
    (1, (13520, 3), (78080, 3)),
    (240, (1464000, 1), (32400, 1)),
    (1800, (29700000, 1), (74000, 1)),
    (6000, (267000000, 1), (186000, 1)),
];

fn loads(rt: &impl Abort, span: u32, moment: (u128, u128), shear: (u128, u128)) {
    assert!(rt; 1 <= span && span <= 6000);
    let found = lane(span);
    let (m, s) = (found.moment, found.shear);
    same(
        rt,
        span as usize,
        &((m.num(), m.den()), (s.num(), s.den())),
        &(moment, shear),
    );
}

#[test]
fn the_lane_load_by_hand(rt: HostRuntime) {
    for (span, moment, shear) in LANE {
        loads(&rt, span, moment, shear);
    }
}

// That a train on a span of 240 inches is judged so.
fn judges(rt: &impl Abort, train: &Train, rating: u32, wanted: Fit) {
    assert!(rt; rating <= 100000);
    let found = fits_greatest(&effects_of(train, 240), &greatest(240), rating);
    same(rt, rating as usize, &found, &wanted);
}

#[test]
fn judges_by_the_load_that_governs(rt: HostRuntime) {
    // 1920000 / 2332800 is 0.82304.., and 41600 / 43200 is 0.96296..
    let hs20 = truck();
    for (rating, fit) in [
        (823, Fit::Moment),
        (824, Fit::Shear),
        (962, Fit::Shear),
        (963, Fit::Fits),
    ] {
        judges(&rt, &hs20, rating, fit);
    }
    // The loading that governs is within its own effects, and equality passes.
    judges(&rt, &military(), 1000, Fit::Fits);
    judges(&rt, &military(), 999, Fit::Moment);
    fit_is_of_the_greatest(&Hs20Placements);
    fit_is_of_the_greatest(&hs20);
}
