ghost use Rattle.std.specs.Prelude.{◌*◌, ◌≤◌};
ghost use Rattle.influence_line.specs.Places.{IsLead};
ghost use Rattle.influence_line.specs.Spans.{IsSpanLength};

use crate::fixtures::{axle, same};
use axle_train::Train;
use hs20_truck::truck;
use influence_line::{End, Place, moment_at, reaction_at};
use std::process::Abort;
use std::test::Fail;

// A place that the calls allow, tested as their conditions say.
fn assert_place(rt: &impl Abort, span: u32, place: Place)
    ensures span { IsSpanLength span }
    ensures lead { IsLead span place.q place.lead }
    ensures within { place.section ≤ place.q * span }
{
    assert!(rt; 1 <= span && span <= 6000);
    assert!(rt; 1 <= place.q && place.q <= 4000000);
    assert!(rt; place.lead >= -((3000 * place.q) as i64));
    assert!(rt; place.lead <= (place.q * u64::from(span)) as i64);
    assert!(rt; place.section <= place.q * u64::from(span));
}

// A span, then q, lead and section, and the moment there, as numerator and denominator.
type Moment = (u32, u64, i64, u64, (u128, u128));

fn moments(rt: &impl Abort, train: &Train, cases: &[Moment]) {
    for (row, &(span, q, lead, section, moment)) in cases.iter().enumerate() {
        let place = Place { q, lead, section };
        assert_place(rt, span, place);
        let found = moment_at(train, span, place);
        same(rt, row, &(found.num(), found.den()), &moment);
    }
}

#[test]
fn moments_by_hand(rt: HostRuntime) -> Result<(), Fail> {
    moments(
        &rt,
        &truck(),
        &[
            // Only the middle axle, at 120: 32000 * 120 * 120 / 240.
            (240, 1, -48, 120, (1920000, 1)),
            // At 138 and 306: 32000 * (138 * 222 + 138 * 54) / 360.
            (360, 1, -30, 138, (3385600, 1)),
            // (8000 * 404 * 628 + 32000 * (572 * 628 + 572 * 460)) / 1200.
            (1200, 1, 404, 572, (18287040, 1)),
        ],
    );
    moments(
        &rt,
        &Train::new(&[axle(0, 1000), axle(48, 2000)])?,
        &[
            // At 20 and 68: (1000 * 20 * 50 + 2000 * 50 * 32) / 100.
            (100, 1, 20, 50, (42000, 1)),
            // Half an inch further, in half inches: (1000 * 41 * 100 + 2000 * 100 * 63) / 400.
            (100, 2, 41, 100, (41750, 1)),
            // Only the front axle, at 2: 1000 * 2 * 4 / 7.
            (7, 1, 2, 3, (8000, 7)),
            // In thirds of an inch: 1000 * 1 * 28 / 90.
            (10, 3, 1, 2, (2800, 9)),
            // Both axles exactly on a support.
            (48, 1, 0, 24, (0, 1)),
            // The section at either support.
            (100, 1, 20, 0, (0, 1)),
            (100, 1, 20, 100, (0, 1)),
            // The rear axle on the left support, and the front one on the right.
            (100, 1, -48, 50, (0, 1)),
            (100, 1, 100, 50, (0, 1)),
        ],
    );
    Ok(())
}

// A span, then q and lead, and the reactions at the left and at the right, as numerators and denominators.
type Reactions = (u32, u64, i64, (u128, u128), (u128, u128));

fn reactions(rt: &impl Abort, train: &Train, cases: &[Reactions]) {
    for (row, &(span, q, lead, left, right)) in cases.iter().enumerate() {
        let section = 0;
        assert_place(rt, span, Place { q, lead, section });
        let at_left = reaction_at(train, span, q, lead, End::Left);
        let at_right = reaction_at(train, span, q, lead, End::Right);
        same(rt, row, &(at_left.num(), at_left.den()), &left);
        same(rt, row, &(at_right.num(), at_right.den()), &right);
    }
}

#[test]
fn reactions_by_hand(rt: HostRuntime) -> Result<(), Fail> {
    // The middle axle on the left support: 32000 * (240 + 72) / 240, and 32000 * 168 / 240.
    reactions(&rt, &truck(), &[(240, 1, -168, (41600, 1), (22400, 1))]);
    reactions(
        &rt,
        &Train::new(&[axle(0, 1000), axle(48, 2000)])?,
        &[
            // At 20 and 68: (1000 * 80 + 2000 * 32) / 100, and (1000 * 20 + 2000 * 68) / 100.
            (100, 1, 20, (1440, 1), (1560, 1)),
            // In half inches: (1000 * 159 + 2000 * 63) / 200, and (1000 * 41 + 2000 * 137) / 200.
            (100, 2, 41, (1425, 1), (1575, 1)),
            // Only the front axle, at 2: 1000 * 5 / 7, and 1000 * 2 / 7.
            (7, 1, 2, (5000, 7), (2000, 7)),
            // Each axle exactly on a support gives its whole weight there.
            (48, 1, 0, (1000, 1), (2000, 1)),
            (100, 1, -48, (2000, 1), (0, 1)),
            (100, 1, 100, (0, 1), (1000, 1)),
            // The front axle an inch left of the span: 2000 * 53 / 100, and 2000 * 47 / 100.
            (100, 1, -1, (1060, 1), (940, 1)),
            // The rear axle half an inch right of it: 1000 * 95 / 200, and 1000 * 105 / 200.
            (100, 2, 105, (475, 1), (525, 1)),
        ],
    );
    Ok(())
}
