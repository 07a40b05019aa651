use crate::fixtures::{axle, same};
use axle_train::{Axle, Train};
use convoy_moves::Convoy;
use hs20_truck::truck;
use influence_line::{peak_moment_is_one, peak_shear_is_one};
use std::process::Abort;
use std::test::Fail;

// That so many trucks with this gap are a convoy, or the number of the refusal.
fn refused(rt: &impl Abort, row: usize, axles: &[Axle], convoy: (u32, u32), wanted: Option<u32>) {
    let (trucks, gap) = convoy;
    assert!(rt; 2 <= trucks && trucks <= 16 && 1 <= gap && gap <= 3000);
    let train = Train::new(axles).expect(rt, "a train");
    let found = match Convoy::new(&train, trucks, gap) {
        Ok(_) => None,
        Err(refusal) => Some(refusal.number()),
    };
    same(rt, row, &found, &wanted);
}

#[test]
fn refuses_what_is_no_train_together(rt: HostRuntime) {
    // Five axles of 80,000 lb together, the last of them 612 inches behind the first.
    let fhwa = [
        axle(0, 12000),
        axle(192, 17000),
        axle(240, 17000),
        axle(564, 17000),
        axle(612, 17000),
    ];
    let short = [axle(0, 62500), axle(1, 62500)];
    let light = [axle(0, 1000), axle(1, 1000), axle(2, 1000)];
    let heavy = [axle(0, 200000), axle(1, 200000), axle(2, 200000)];
    // 666,667 lb, a third of a pound more than a third of what a convoy may weigh.
    let third = [
        axle(0, 200000),
        axle(1, 200000),
        axle(2, 200000),
        axle(3, 66667),
    ];
    let rows: [(&[Axle], (u32, u32), Option<u32>); 10] = [
        // Just 32 axles and just 2,000,000 lb, and 33 axles.
        (&short, (16, 1), None),
        (&light, (11, 1), Some(1)),
        // 2 * 612 + 1,776 = 3,000 inches, and one more.
        (&fhwa, (2, 1776), None),
        (&fhwa, (2, 1777), Some(2)),
        // 2 * 612 + 2,500 = 3,724 inches.
        (&fhwa, (2, 2500), Some(2)),
        // 3 * 666,667 = 2,000,001 lb.
        (&third, (3, 1), Some(3)),
        (&third, (2, 1), None),
        // 33 axles, 30,022 inches and 6,600,000 lb; then without one truck; then with a small gap.
        (&heavy, (11, 3000), Some(1)),
        (&heavy, (10, 3000), Some(2)),
        (&heavy, (10, 1), Some(3)),
    ];
    for (row, &(axles, convoy, wanted)) in rows.iter().enumerate() {
        refused(&rt, row, axles, convoy, wanted);
    }
}

// That the moment and the shear of a convoy on a span are these whole numbers.
fn peaks(rt: &impl Abort, convoy: &Convoy, span: u32, moment: u128, shear: u128) {
    assert!(rt; 1 <= span && span <= 6000);
    let found = (convoy.moment(span), convoy.shear(span));
    same(
        rt,
        span as usize,
        &(found.0.num(), found.0.den(), found.1.num(), found.1.den()),
        &(moment, 1, shear, 1),
    );
}

#[test]
fn peaks_of_two_trucks_by_hand(rt: HostRuntime) -> Result<(), Fail> {
    let near = Convoy::new(&truck(), 2, 48)?;
    same(&rt, 48, &(near.trucks(), near.gap()), &(2, 48));
    same(&rt, 48, &(near.axles(), near.closest().len()), &(6, 6));
    same(
        &rt,
        48,
        &(near.gross(), near.closest().gross()),
        &(144000, 144000),
    );
    // The rear axle of the first truck and the front axle of the second: 40000 * 115.2 * 115.2 / 240. The shear has the
    // middle axle of the first truck at the left support: 32000 + 32000 * 72 / 240 + 8000 * 24 / 240.
    peaks(&rt, &near, 240, 2211840, 42400);
    // Never on the span at once: the peaks of one truck.
    let far = Convoy::new(&truck(), 2, 2328)?;
    peaks(&rt, &far, 240, 1920000, 41600);
    peak_moment_is_one(&near);
    peak_shear_is_one(&near);
    Ok(())
}

#[test]
fn peaks_of_sixteen_trucks_by_hand(rt: HostRuntime) -> Result<(), Fail> {
    let many = Convoy::new(&Train::new(&[axle(0, 1000), axle(1, 1000)])?, 16, 1)?;
    // 31 of 32 axles, an inch apart: 15500 * 15.5 - 1000 * (1 + 2 + .. + 15). All 32: 1000 * (31 * 32 / 2) / 31.
    peaks(&rt, &many, 31, 120250, 16000);
    // One axle at midspan, or one at a support.
    peaks(&rt, &many, 1, 250, 1000);
    Ok(())
}
