// Which of the three design loads gives the most.

ghost use Rattle.std.specs.Prelude.{◌≡◌};
ghost use Rattle.influence_line.specs.Fractions.{IsSmall};
ghost use Rattle.influence_line.specs.Spans.{IsSpanLength};
ghost use Rattle.design_loads.specs.Greatest.{AreGreatest};
ghost use Rattle.design_loads.specs.SpanEffects.{greater_of, governing_of, greatest_of};

use crate::loads::{lane, military};
use hs20_truck::{effects, effects_of};
use influence_line::Frac;
use std::cmp::Ordering;

/// A design load: the HS20-44 truck, the lane load or the alternate military loading.
#[derive(Clone, Copy, Debug, PartialEq, Eq)]
pub enum By {
    Truck,
    Lane,
    Military,
}

/// The greatest moment on a span in pounds times inches and the greatest end shear in pounds, each with the
/// design load that it is of.
#[derive(Clone, Copy, PartialEq, Eq)]
pub struct GreatestEffects {
    pub moment: Frac,
    pub moment_by: By,
    pub shear: Frac,
    pub shear_by: By,
}

/// The greatest effects of the three design loads on a span of `span` inches, over all of their placements.
/// Of loads with equal effects the first in the order of `By` is named. Takes no memory.
pub fn greatest(span: u32) -> GreatestEffects
    requires { IsSpanLength span }
    ensures greatest { AreGreatest span result }
    ensures value { result ≡ greatest_of span }
{
    let truck = effects(span);
    let lane = lane(span);
    let military = effects_of(&military(), span);
    let moment = governing(truck.moment, lane.moment, military.moment);
    let shear = governing(truck.shear, lane.shear, military.shear);
    GreatestEffects {
        moment: moment.effect,
        moment_by: moment.by,
        shear: shear.effect,
        shear_by: shear.by,
    }
}

/// An effect, and the design load that it is of.
#[derive(Clone, Copy)]
struct EffectBy {
    effect: Frac,
    by: By,
}

/// The greatest of the three effects, and of equal ones the first.
fn governing(truck: Frac, lane: Frac, military: Frac) -> EffectBy
    requires truck { IsSmall truck }
    requires lane { IsSmall lane }
    requires military { IsSmall military }
    ensures { result ≡ governing_of truck lane military }
{
    let truck = EffectBy {
        effect: truck,
        by: By::Truck,
    };
    let lane = EffectBy {
        effect: lane,
        by: By::Lane,
    };
    let military = EffectBy {
        effect: military,
        by: By::Military,
    };
    greater(greater(truck, lane), military)
}

/// The greater of two effects, and of equal ones the first.
fn greater(one: EffectBy, other: EffectBy) -> EffectBy
    requires one { IsSmall one.effect }
    requires other { IsSmall other.effect }
    ensures value { result ≡ greater_of one other }
    ensures small { IsSmall result.effect }
{
    if one.effect.compare(&other.effect) == Ordering::Less {
        other
    } else {
        one
    }
}
