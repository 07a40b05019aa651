use crate::fixtures::{heavy, same};
use axle_train::Train;
use hs20_truck::{Kept, Live, effects, effects_are_the_peaks, effects_of, truck};
use span_rating::{Effects, Fit, SpanStudy, fits};
use std::alloc::Global;
use std::process::Abort;
use std::test::Fail;

// The numerators and denominators of a moment and of a shear.
type Terms = ((u128, u128), (u128, u128));

fn terms(effects: &Effects) -> Terms {
    let (moment, shear) = (effects.moment, effects.shear);
    ((moment.num(), moment.den()), (shear.num(), shear.den()))
}

// A span, and the moment and the shear of the design truck on it.
const SPANS: [(u32, u128, u128); 5] = [
    // The middle axle alone at midspan: 32000 * 240 / 4.
    (240, 1920000, 41600),
    // The two rear axles, 168 inches apart: 64000 * 138 * 138 / 360.
    (360, 3385600, 49600),
    (480, 5397600, 55200),
    (1200, 18287040, 65280),
    (6000, 104649408, 70656),
];

fn effects_each(rt: &impl Abort, train: &Train, spans: &[(u32, u128, u128)]) {
    for &(span, moment, shear) in spans {
        assert!(rt; 1 <= span && span <= 6000);
        let found = effects(span);
        same(
            rt,
            span as usize,
            &terms(&found),
            &((moment, 1), (shear, 1)),
        );
        same(rt, span as usize, &effects_of(train, span), &found);
    }
}

#[test]
fn effects_by_hand(rt: HostRuntime) {
    effects_each(&rt, &truck(), &SPANS);
    effects_are_the_peaks();
}

// That a moment is so many tenths of a foot-kip, to one tenth.
fn prints(rt: &impl Abort, feet: u32, tenths: u128) {
    assert!(rt; 1 <= feet && feet <= 500 && tenths <= 100000);
    let moment = effects(12 * feet).moment;
    let (num, den) = (moment.num(), moment.den());
    assert!(rt; num < 1 << 68 && den < 1 << 36);
    // A tenth of a foot-kip is 1,200 pounds times inches.
    let printed = 1200 * tenths * den;
    assert!(rt; num.abs_diff(printed) < 1200 * den, "on {feet} feet");
}

#[test]
fn moments_of_hs20_as_aashto_prints_them(rt: HostRuntime) {
    // AASHTO Standard Specifications for Highway Bridges, Appendix A: the span in feet, and the
    // moment of one lane of HS20-44 in tenths of a foot-kip. The exact moment at 100 feet is
    // 1,523.92 foot-kips, and 1,524.0 is printed, so they agree to a tenth and not to the digit.
    for (feet, tenths) in [(20, 1600), (30, 2821), (40, 4498), (60, 8065), (100, 15240)] {
        prints(&rt, feet, tenths);
    }
}

// What a study says of the truck and of the design.
fn told(rt: &impl Abort, study: &impl SpanStudy, inches: u32) -> (Terms, Terms) {
    assert!(rt; 1 <= inches && inches <= 6000);
    let found = study.of(inches);
    (terms(&found.truck), terms(&found.design))
}

// That spans of this length carry the truck of a study with this rating, and with none below it.
fn needs(rt: &impl Abort, study: &impl SpanStudy, inches: u32, rating: u32) {
    assert!(rt; 1 <= inches && inches <= 6000);
    assert!(rt; 1 <= rating && rating <= 100000);
    same(rt, inches as usize, &study.carries(inches, rating), &true);
    same(
        rt,
        inches as usize,
        &study.carries(inches, rating - 1),
        &false,
    );
}

// A study of the design truck has the effects of the table, and the truck is what a rating of 1,000 carries.
fn ask(rt: &impl Abort, study: &Kept, row: (u32, u128, u128)) {
    let (inches, moment, shear) = row;
    let wanted = ((moment, 1), (shear, 1));
    same(
        rt,
        inches as usize,
        &told(rt, study, inches),
        &(wanted, wanted),
    );
    needs(rt, study, inches, 1000);
}

// Each length is asked before it is kept, and again once it is kept; then it is kept a second time.
fn keep_each(
    rt: &impl Abort,
    alloc: Global,
    study: &mut Kept,
    spans: &[(u32, u128, u128)],
) -> Result<(), Fail> {
    for &row in spans {
        assert!(rt; 1 <= row.0 && row.0 <= 6000);
        for _ in 0..2 {
            ask(rt, study, row);
            study.keep(alloc, row.0)?;
        }
    }
    Ok(())
}

// What was kept first is still there, and a length that was never kept is computed.
fn ask_each(rt: &impl Abort, study: &Kept, spans: &[(u32, u128, u128)]) {
    for &row in spans {
        ask(rt, study, row);
    }
}

#[test]
fn a_kept_study_answers_as_the_tables_do(rt: HostRuntime) -> Result<(), Fail> {
    let mut study = Kept::new(truck());
    let kept = keep_each(&rt, rt.alloc(), &mut study, &SPANS[..4]);
    ask_each(&rt, &study, &SPANS);
    drop(study);
    kept
}

// The train's moment is 21,323.08 thousandths of the design's.
fn judge(rt: &impl Abort, study: &impl SpanStudy) {
    let wanted = (
        ((17851584375, 8), (1503750, 1)),
        ((104649408, 1), (70656, 1)),
    );
    same(rt, 6000, &told(rt, study, 6000), &wanted);
    let found = study.of(6000);
    let (truck, design) = (found.truck, found.design);
    same(rt, 6000, &fits(&truck, &design, 21323), &Fit::Moment);
    same(rt, 6000, &fits(&truck, &design, 21324), &Fit::Fits);
    needs(rt, study, 6000, 21324);
}

fn judge_kept(rt: &impl Abort, alloc: Global, mut study: Kept) -> Result<(), Fail> {
    study.keep(alloc, 6000)?;
    same(rt, 6000, &study.train().len(), &32);
    judge(rt, &study);
    Ok(())
}

#[test]
fn a_study_has_the_truck_and_the_design(rt: HostRuntime) -> Result<(), Fail> {
    let train = Train::new(&heavy())?;
    judge(&rt, &Live { train: &train });
    judge_kept(&rt, rt.alloc(), Kept::new(train.clone()?))
}
