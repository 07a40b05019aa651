// The lane load and the alternate military loading.

ghost use Rattle.std.specs.Prelude.{◌≡◌};
ghost use Rattle.influence_line.specs.Spans.{IsSpanLength};
ghost use Rattle.design_loads.specs.LanePeaks.{AreLaneEffects};
ghost use Rattle.design_loads.specs.Military.{military_axles};
ghost use Rattle.design_loads.specs.SpanEffects.{lane_of};

use axle_train::{Axle, Train};
use influence_line::Frac;
use span_rating::Effects;

/// The alternate military loading: two axles of 24,000 lb, 48 inches apart. Takes no memory.
pub fn military() -> Train
    ensures { result ≡ military_axles }
{
    let axles = [
        Axle {
            place: 0,
            weight: 24000,
        },
        Axle {
            place: 48,
            weight: 24000,
        },
    ];
    match Train::new(&axles) {
        Ok(train) => train,
        Err(_) => unreachable!(),
    }
}

/// The peak moment and the peak end shear of the lane load on a span of `span` inches, over all of its
/// placements: every place of the concentrated load, and any intervals that are loaded. Takes no memory.
pub fn lane(span: u32) -> Effects
    requires { IsSpanLength span }
    ensures peaks { AreLaneEffects span result }
    ensures value { result ≡ lane_of span }
{
    let inches = u128::from(span);
    Effects {
        // The whole span loaded, and 18,000 lb at midspan: 640 / 12 * L * L / 8 + 18,000 * L / 4.
        moment: Frac::reduced(20 * inches * inches + 13500 * inches, 3),
        // The whole span loaded, and 26,000 lb at the support: 640 / 12 * L / 2 + 26,000.
        shear: Frac::reduced(80 * inches + 78000, 3),
    }
}
