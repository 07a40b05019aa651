use crate::fixtures::{axle, heavy, same};
use axle_train::{Axle, Train};
use influence_line::moment_at;
use moment_peak::{MomentPeak, peak, peak_is_one, peak_moment_is_a_function, value};
use std::process::Abort;
use std::test::Fail;

/// A peak as people write it: numerator and denominator, then q, lead and section, then the axle and the first and
/// last axle of its run, counted from 1.
type Row = (u128, u128, u64, i64, u64, usize, usize, usize);

fn row(peak: &MomentPeak) -> Row {
    let MomentPeak {
        value,
        place,
        axle,
        first,
        last,
    } = *peak;
    (
        value.num(),
        value.den(),
        place.q,
        place.lead,
        place.section,
        axle.wrapping_add(1),
        first.wrapping_add(1),
        last.wrapping_add(1),
    )
}

fn assert_peak(rt: &impl Abort, train: &Train, span: u32, want: Row) {
    assert!(rt; 1 <= span && span <= 6000);
    let found = peak(train, span);
    same(rt, span as usize, &row(&found), &want);
    let (again, there) = (value(train, span), moment_at(train, span, found.place));
    same(
        rt,
        span as usize,
        &(again, there),
        &(found.value, found.value),
    );
}

fn assert_peaks(rt: &impl Abort, axles: &[Axle], rows: &[(u32, Row)]) -> Result<(), Fail> {
    let train = Train::new(axles)?;
    for &(span, want) in rows {
        assert_peak(rt, &train, span, want);
    }
    drop(train);
    Ok(())
}

fn assert_value(rt: &impl Abort, axles: &[Axle], span: u32, want: u128) -> Result<(), Fail> {
    assert!(rt; 1 <= span && span <= 6000);
    let train = Train::new(axles)?;
    let found = value(&train, span).num();
    drop(train);
    same(rt, span as usize, &found, &want);
    Ok(())
}

/// The HS20-44 truck of the AASHTO Standard Specifications.
#[test]
fn worked_peaks_of_a_truck(rt: HostRuntime) -> Result<(), Fail> {
    let hs20 = [axle(0, 8000), axle(168, 32000), axle(336, 32000)];
    assert_peaks(
        &rt,
        &hs20,
        &[
            (240, (1920000, 1, 1, -48, 120, 2, 2, 2)),
            (360, (3385600, 1, 1, -30, 138, 2, 2, 3)),
            (1200, (18287040, 1, 1, 404, 572, 2, 1, 3)),
            // the smallest span
            (1, (8000, 1, 2, -335, 1, 2, 2, 2)),
        ],
    )?;
    assert_value(&rt, &hs20, 480, 5397600)?;
    assert_value(&rt, &hs20, 6000, 104649408)?;
    peak_is_one();
    peak_moment_is_a_function();
    Ok(())
}

/// A train of 32 axles.
#[test]
fn worked_peaks_of_a_full_train(rt: HostRuntime) -> Result<(), Fail> {
    assert_peaks(
        &rt,
        &heavy(),
        &[
            (6000, (17851584375, 8, 8, 12285, 23805, 16, 1, 32)),
            (1, (15625, 1, 2, 1, 1, 1, 1, 1)),
        ],
    )
}

/// Two loads P that are a apart make P (2L - a)^2 / 8L where a is at most 0.586 L, and else P L / 4 (AISC Manual of
/// Steel Construction, two equal concentrated moving loads). Three loads P that are a apart make P (3L / 4 - a) under
/// the middle one. One axle alone makes a quarter of its weight times the span, at the middle.
#[test]
fn worked_peaks_of_like_loads(rt: HostRuntime) -> Result<(), Fail> {
    let two = [axle(0, 10000), axle(100, 10000)];
    let three = [axle(0, 9000), axle(48, 9000), axle(96, 9000)];
    assert_peaks(
        &rt,
        &two,
        &[
            (240, (2256250, 3, 1, 95, 95, 1, 1, 2)),
            (150, (375000, 1, 1, 75, 75, 1, 1, 1)),
        ],
    )?;
    assert_peaks(&rt, &three, &[(360, (1998000, 1, 1, 132, 180, 2, 1, 3))])
}

/// Trains at whose peak axles stand off the span.
#[test]
fn worked_peaks_with_axles_off_the_span(rt: HostRuntime) -> Result<(), Fail> {
    let light_ends = [axle(0, 1000), axle(100, 2000), axle(200, 1000)];
    let heavy_middle = [
        axle(0, 1000),
        axle(100, 10000),
        axle(200, 20000),
        axle(300, 10000),
        axle(400, 1000),
    ];
    // axles of the first run whose vertex it is are off the span
    assert_peaks(&rt, &light_ends, &[(150, (75000, 1, 1, -25, 75, 2, 1, 3))])?;
    assert_peaks(
        &rt,
        &heavy_middle,
        &[(240, (1400000, 1, 1, -80, 120, 3, 1, 5))],
    )
}

#[test]
fn names_the_first_of_like_peaks(rt: HostRuntime) -> Result<(), Fail> {
    let uneven = [
        axle(0, 5000),
        axle(100, 10000),
        axle(200, 6000),
        axle(300, 10000),
        axle(400, 6000),
        axle(500, 10000),
        axle(600, 5000),
    ];
    // axle 4 with the run 1 to 7 reaches the peak too
    assert_peaks(&rt, &uneven, &[(100, (250000, 1, 1, -50, 50, 2, 2, 2))])
}
