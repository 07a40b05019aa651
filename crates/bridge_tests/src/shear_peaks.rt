use crate::fixtures::{axle, heavy, same};
use axle_train::{Axle, Train};
use hs20_truck::truck;
use influence_line::{End, reaction_at};
use shear_peak::{peak, peak_is_one, peak_shear_is_a_function};
use std::process::Abort;
use std::test::Fail;

// Two axles, 48 inches apart.
fn pair(front: u32, rear: u32) -> [Axle; 2] {
    [axle(0, front), axle(48, rear)]
}

fn assert_peak(rt: &impl Abort, train: &Train, span: u32, value: (u128, u128), place: (i64, End)) {
    assert!(rt; 1 <= span && span <= 6000);
    let found = peak(train, span);
    same(
        rt,
        span as usize,
        &(found.value.num(), found.value.den()),
        &value,
    );
    same(rt, span as usize, &(found.lead, found.end), &place);
    let there = reaction_at(train, span, 1, found.lead, found.end);
    same(rt, span as usize, &there, &found.value);
}

#[test]
fn peaks_by_hand(rt: HostRuntime) -> Result<(), Fail> {
    peak_is_one();
    peak_shear_is_a_function();
    let design = truck();
    let short = Train::new(&pair(1000, 2000))?;
    let even = Train::new(&pair(1000, 1000))?;
    let heavy = Train::new(&heavy())?;
    let cases = [
        // The middle axle at the left support: 32000 + 32000 * 72 / 240. The rear one at the right
        // support gives as much, and the left comes first.
        (&design, 240, 41600, 1, -168, End::Left),
        // The rear axle at the right support: 32000 + 32000 * 192 / 360 + 8000 * 24 / 360.
        (&design, 360, 49600, 1, 24, End::Right),
        // 32000 + 32000 * 1032 / 1200 + 8000 * 864 / 1200.
        (&design, 1200, 65280, 1, 864, End::Right),
        // On the longest span: 32000 + 32000 * 5832 / 6000 + 8000 * 5664 / 6000.
        (&design, 6000, 70656, 1, 5664, End::Right),
        // On the shortest span one axle is on it at a time. The first of the heaviest two is taken.
        (&design, 1, 32000, 1, -168, End::Left),
        // The rear axle alone at the left support, as good as at the right one.
        (&short, 48, 2000, 1, -48, End::Left),
        // The rear axle at the right support: 2000 + 1000 * 52 / 100.
        (&short, 100, 2520, 1, 52, End::Right),
        // Both axles alike: the front one at the left support, 1000 + 1000 * 2 / 50.
        (&even, 50, 1040, 1, 0, End::Left),
        (&even, 48, 1000, 1, 0, End::Left),
        // 1000 + 1000 * 41 / 89, which is no whole number.
        (&even, 89, 130000, 89, 0, End::Left),
        // 62500 * (31 - 96 * 465 / 6000 + 3000 / 6000).
        (&heavy, 6000, 1503750, 1, 0, End::Left),
    ];
    for (train, span, num, den, lead, end) in cases {
        assert_peak(&rt, train, span, (num, den), (lead, end));
    }
    Ok(())
}

// AASHTO Standard Specifications for Highway Bridges, Appendix A: the span in feet, and the end
// shear of one lane of HS20-44 in tenths of a kip.
const PRINTED: [(u32, u128); 5] = [(20, 416), (30, 496), (40, 552), (60, 608), (100, 653)];

fn is_printed(rt: &impl Abort, design: &Train, feet: u32, tenths: u128) {
    assert!(rt; 1 <= feet && feet <= 500);
    let value = peak(design, 12 * feet).value;
    let (num, den) = (value.num(), value.den());
    assert!(rt; num < 1 << 68 && 1 <= den && den < 1 << 36);
    same(
        rt,
        feet as usize,
        &((num + 50 * den) / (100 * den)),
        &tenths,
    );
}

#[test]
fn end_shears_of_hs20_as_aashto_prints_them(rt: HostRuntime) {
    let design = truck();
    for (feet, tenths) in PRINTED {
        is_printed(&rt, &design, feet, tenths);
    }
}
