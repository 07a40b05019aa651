use crate::fixtures::same;
use hs20_truck::effects;
use influence_line::Frac;
use report_text::report_is_one;
use std::process::Abort;

// AASHTO Standard Specifications for Highway Bridges, Appendix A: the span in feet, and the moment and the end shear of one
// lane of HS20-44, in tenths of a foot-kip and of a kip. What probes are judged by agrees with them to less than a tenth: the
// exact moment at 100 feet is 1,523.92 foot-kips, and 1,524.0 is printed.
const PRINTED: [(u32, u128, u128); 5] = [
    (20, 1600, 416),
    (30, 2821, 496),
    (40, 4498, 552),
    (60, 8065, 608),
    (100, 15240, 653),
];

// Whether a fraction, which is small, differs by less than one from so many units.
fn is_near(rt: &impl Abort, found: Frac, unit: u128, wanted: u128) -> bool {
    let (num, den) = (found.num(), found.den());
    assert!(rt; num < 1 << 68 && den < 1 << 36 && wanted <= 100000 && unit <= 1200);
    num.abs_diff(unit * wanted * den) < unit * den
}

#[test]
fn judges_by_the_effects_that_aashto_prints(rt: HostRuntime) {
    report_is_one();
    for (row, &(feet, moment, shear)) in PRINTED.iter().enumerate() {
        assert!(rt; 1 <= feet && feet <= 500);
        let found = effects(12 * feet);
        // A tenth of a foot-kip is 1,200 pounds times inches, and a tenth of a kip is 100 pounds.
        same(&rt, row, is_near(&rt, found.moment, 1200, moment), true);
        same(&rt, row, is_near(&rt, found.shear, 100, shear), true);
    }
}
