//! The HS20-44 design truck of the AASHTO Standard Specifications for Highway Bridges (3.7): 8,000 lb,
//! and 32,000 lb twice, 14 feet between the first two and anything from 14 to 30 feet between the last
//! two; and the effects of it and of any train on a simple span.
//!
//! The crates above are promised that `effects` is greatest over every second spacing and every place,
//! fractions of an inch among them, although only the truck with its smallest spacing is looked at;
//! that the effects of a train, and those of the design truck, are functions of the train and the span,
//! with no other effects that are these peaks; and that `Live`, which computes, and `Kept`, which keeps
//! the least ratings that it found, answer for their own train and for the design truck.
#![tactic(auto)]

ghost use Rattle.std.specs.Prelude.{◌≡◌};
ghost use Rattle.influence_line.specs.Peaks.{IsTrainPlaced, IsHs20Placed};
ghost use Rattle.influence_line.specs.Spans.{IsSpanLength};
ghost use Rattle.span_rating.specs.Loading.{AreEffects, AreEffectsOfSomeTrain};
ghost use Rattle.hs20_truck.specs.Design.{design_axles};
ghost use Rattle.hs20_truck.specs.Effects.{effects_of, design_of};
ghost use Rattle.hs20_truck.specs.Laws.{EffectsAreThePeaks, DesignIsThePeaks, EffectsAreOne, DesignIsOne};

use axle_train::{Axle, Train};
use span_rating::Effects;

mod kept;
mod live;

pub use kept::Kept;
pub use live::Live;

/// The design truck with its smallest second spacing, 14 feet.
pub fn truck() -> Train
    ensures { result ≡ design_axles }
{
    let axles = [
        Axle {
            place: 0,
            weight: 8000,
        },
        Axle {
            place: 168,
            weight: 32000,
        },
        Axle {
            place: 336,
            weight: 32000,
        },
    ];
    match Train::new(&axles) {
        Ok(train) => train,
        Err(_) => unreachable!(),
    }
}

/// The peak moment and the peak end shear of a train on a span of `span` inches, over all of its placements.
pub fn effects_of(train: &Train, span: u32) -> Effects
    requires { IsSpanLength span }
    ensures peaks { AreEffects (IsTrainPlaced train.now) span result }
    ensures value { result ≡ effects_of train.now span }
{
    Effects {
        moment: moment_peak::value(train, span),
        shear: shear_peak::peak(train, span).value,
    }
}

/// The peak moment and the peak end shear of the design truck on a span of `span` inches, over all of its
/// placements and every second spacing. They are those of [`truck`] too, since the smallest spacing is the
/// worst.
pub fn effects(span: u32) -> Effects
    requires { IsSpanLength span }
    ensures all { AreEffects IsHs20Placed span result }
    ensures closest { AreEffects (IsTrainPlaced design_axles) span result }
    ensures train { AreEffectsOfSomeTrain span result }
    ensures value { result ≡ design_of span }
{
    effects_of(&truck(), span)
}

/// Laws, and no code: the effects of a train are its peaks on each span, the design effects are those of
/// the HS20-44 truck over every second spacing, and no other effects are these peaks.
pub fn effects_are_the_peaks()
    ensures train { EffectsAreThePeaks }
    ensures design { DesignIsThePeaks }
    ensures train_alone { EffectsAreOne }
    ensures design_alone { DesignIsOne }
{}
