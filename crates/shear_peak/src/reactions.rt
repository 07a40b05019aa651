// The reactions with each axle in turn at a support, by running sums: each axle is added twice for an
// end, however many axles stand on the span together.

ghost use Rattle.std.specs.Prelude.{◌≡◌, ◌+◌, ◌<◌, length};
ghost use Rattle.axle_train.specs.Bounds.{IsTrain};
ghost use Rattle.influence_line.specs.declared.placing.End.TheVariants.{Left, Right};
ghost use Rattle.influence_line.specs.Spans.{IsSpanLength};
ghost use Rattle.shear_peak.specs.Ends.{AreReactionsTo, reaction_to};
ghost use Rattle.shear_peak.specs.Fronts.{AreFromLeft, AreToRight, IsFront, StandBefore, StandFrom};

use axle_train::Train;
use influence_line::End;

/// The axles in front of one of them: how many they are, their weight, and their weights times places.
#[derive(Clone, Copy)]
struct Front {
    axles: usize,
    weight: u64,
    moment: u64,
}

/// The axles on the span with one of them at a support: those of `through` that are not of `before`.
#[derive(Clone, Copy)]
struct OnSpan {
    before: Front,
    through: Front,
}

/// No axles.
const NONE: Front = Front {
    axles: 0,
    weight: 0,
    moment: 0,
};

/// For each axle, the reaction at an end with that axle at the support there, in pounds times the span.
pub(crate) fn reactions_at(train: &Train, span: u32, end: End) -> [u64; 32]
    requires { IsSpanLength span }
    ensures { AreReactionsTo train.now span end result }
{
    match end {
        End::Left => left_reactions(train, span),
        End::Right => right_reactions(train, span),
    }
}

/// With axle `k` at the left support, the axles from `k` on are on the span up to the first that
/// stands on or past the right support.
fn left_reactions(train: &Train, span: u32) -> [u64; 32]
    requires { IsSpanLength span }
    ensures { AreReactionsTo train.now span Left result }
{
    let mut reactions = [0; 32];
    let mut before = NONE;
    let mut through = NONE;
    for k in 0..train.len() {
        let place = train.axle(k).place;
        through = front_of(train, place + span, through);
        reactions[k] = left_reaction(train, span, k, OnSpan { before, through });
        before = with_next(train, before);
    }
    reactions
}

/// With axle `k` at the right support, the axles up to `k` are on the span from the first that stands
/// right of the left support.
fn right_reactions(train: &Train, span: u32) -> [u64; 32]
    requires { IsSpanLength span }
    ensures { AreReactionsTo train.now span Right result }
{
    let mut reactions = [0; 32];
    let mut before = NONE;
    let mut through = NONE;
    for k in 0..train.len() {
        let place = train.axle(k).place;
        before = front_of(train, (place + 1).saturating_sub(span), before);
        through = with_next(train, through);
        reactions[k] = right_reaction(train, span, k, OnSpan { before, through });
    }
    reactions
}

/// The reaction with axle `k` at the left support, by the axles on the span.
fn left_reaction(train: &Train, span: u32, k: usize, on: OnSpan) -> u64
    requires span { IsSpanLength span }
    requires train { IsTrain train.now }
    requires on { AreFromLeft train.now span k on }
    ensures { result ≡ reaction_to train.now span Left k }
{
    let reach = u64::from(train.axle(k).place + span);
    (reach * on.through.weight + on.before.moment) - (on.through.moment + reach * on.before.weight)
}

/// The same with axle `k` at the right support.
fn right_reaction(train: &Train, span: u32, k: usize, on: OnSpan) -> u64
    requires span { IsSpanLength span }
    requires train { IsTrain train.now }
    requires on { AreToRight train.now span k on }
    ensures { result ≡ reaction_to train.now span Right k }
{
    let place = u64::from(train.axle(k).place);
    let span = u64::from(span);
    (span * on.through.weight + on.through.moment + place * on.before.weight)
        - (place * on.through.weight + span * on.before.weight + on.before.moment)
}

/// The axles in front of the first one whose place is at least `reach`, which are `front` and more.
fn front_of(train: &Train, reach: u32, front: Front) -> Front
    requires front { IsFront train.now front }
    requires near { StandBefore train.now front.axles reach }
    ensures front { IsFront train.now result }
    ensures near { StandBefore train.now result.axles reach }
    ensures past { StandFrom train.now result.axles reach }
{
    let mut found = front;
    for i in front.axles..train.len() {
        if train.axle(i).place >= reach {
            return found;
        }
        found = with_next(train, found);
    }
    found
}

/// One axle more.
fn with_next(train: &Train, front: Front) -> Front
    requires front { IsFront train.now front }
    requires within { front.axles < length train.now }
    ensures front { IsFront train.now result }
    ensures axles { result.axles ≡ front.axles + 1 }
{
    let len = train.len();
    prove!(front.axles < len);
    let axle = train.axle(front.axles);
    let weight = u64::from(axle.weight);
    Front {
        axles: front.axles + 1,
        weight: front.weight + weight,
        moment: front.moment + weight * u64::from(axle.place),
    }
}
