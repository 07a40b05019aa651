// Whether a span carries a truck, by the greatest of the three design loads.

ghost use Rattle.std.specs.Prelude.{◌≡◌, ◌≤◌, ◌↔◌};
ghost use Rattle.span_rating.specs.Loading.{AreSmall};
ghost use Rattle.span_rating.specs.Judgement.{AreWithin, IsMomentOver, IsShearAloneOver, fit_of};
ghost use Rattle.design_loads.specs.Fitting.{FitIsOfTheGreatest};
ghost use Rattle.design_loads.specs.Greatest.{effects_in};

use crate::governing::GreatestEffects;
use influence_line::Placements;
use span_rating::{Effects, Fit, fits};

/// Whether a span with this rating, in thousandths of the greatest effects of the design loads, carries a
/// truck. The moment is judged first, and each effect passes at equality. Takes no memory.
pub fn fits_greatest(truck: &Effects, design: &GreatestEffects, rating: u32) -> Fit
    requires truck { AreSmall truck.now }
    requires design { AreSmall (effects_in design.now) }
    requires rating { rating ≤ 100000 }
    ensures computed { result ≡ fit_of truck.now (effects_in design.now) rating }
    ensures fits { (result ≡ Fit.Fits) ↔ AreWithin rating truck.now (effects_in design.now) }
    ensures moment { (result ≡ Fit.Moment) ↔ IsMomentOver rating truck.now (effects_in design.now) }
    ensures shear { (result ≡ Fit.Shear) ↔ IsShearAloneOver rating truck.now (effects_in design.now) }
{
    let design = Effects {
        moment: design.moment,
        shear: design.shear,
    };
    fits(truck, &design, rating)
}

/// A law, and no code: what `fits_greatest` says of the effects of a set of placements and of the greatest
/// effects of the design loads holds of the peaks themselves, whatever fractions these are written with.
pub fn fit_is_of_the_greatest<T: Placements>(truck: &T)
    ensures { FitIsOfTheGreatest (T.allowed truck.now) }
{}
