// Whether a span carries a truck.

ghost use Rattle.std.specs.Prelude.{◌≡◌, ◌≤◌, ◌↔◌, IsTrue};
ghost use Rattle.influence_line.specs.Fractions.{IsSmall};
ghost use Rattle.span_rating.specs.Loading.{AreSmall};
ghost use Rattle.span_rating.specs.Judgement.{AreWithin, IsLeastRating, IsLeastWithin, IsMomentOver, IsShearAloneOver, IsWithin, fit_of};
ghost use Rattle.span_rating.specs.Laws.{FitIsOfThePeaks};

use crate::loading::Effects;
use influence_line::{Frac, Placements};

/// How a span stands to a truck: it carries it, or the first effect that is over its rating.
#[derive(Clone, Copy, Debug, PartialEq, Eq)]
pub enum Fit {
    Fits,
    Moment,
    Shear,
}

/// Whether a span with this rating, in thousandths of the design truck's effects, carries a truck. The
/// moment is judged first, and each effect passes at equality.
pub fn fits(truck: &Effects, design: &Effects, rating: u32) -> Fit
    requires truck { AreSmall truck.now }
    requires design { AreSmall design.now }
    requires rating { rating ≤ 100000 }
    ensures computed { result ≡ fit_of truck.now design.now rating }
    ensures fits { (result ≡ Fit.Fits) ↔ AreWithin rating truck.now design.now }
    ensures moment { (result ≡ Fit.Moment) ↔ IsMomentOver rating truck.now design.now }
    ensures shear { (result ≡ Fit.Shear) ↔ IsShearAloneOver rating truck.now design.now }
{
    if !is_within(&truck.moment, &design.moment, rating) {
        return Fit::Moment;
    }
    if !is_within(&truck.shear, &design.shear, rating) {
        return Fit::Shear;
    }
    Fit::Fits
}

/// The least rating, in thousandths of the design truck's effects, with which a span carries a truck, or
/// 100,001 where no rating up to 100,000 is enough.
pub fn least_rating(truck: &Effects, design: &Effects) -> u32
    requires truck { AreSmall truck.now }
    requires design { AreSmall design.now }
    ensures bound { result ≤ 100001 }
    ensures least { IsLeastRating truck.now design.now result }
{
    let moment = least_within(&truck.moment, &design.moment);
    let shear = least_within(&truck.shear, &design.shear);
    if moment < shear { shear } else { moment }
}

/// The least rating that an effect is within, or 100,001 where it is within none up to 100,000. It is a
/// quotient that is rounded up. The products stay below 2^121.
fn least_within(effect: &Frac, design: &Frac) -> u32
    requires effect { IsSmall effect.now }
    requires design { IsSmall design.now }
    ensures bound { result ≤ 100001 }
    ensures least { IsLeastWithin effect.now design.now result }
{
    let has = 1000 * effect.num() * design.den();
    let unit = design.num() * effect.den();
    if 100000 * unit < has {
        return 100001;
    }
    // A design truck that did nothing, within whose effects is only what does nothing either.
    if unit == 0 {
        return 0;
    }
    has.div_ceil(unit) as u32
}

/// Whether an effect is at most `rating` thousandths of the design truck's. The products stay below
/// 2^121.
fn is_within(effect: &Frac, design: &Frac, rating: u32) -> bool
    requires effect { IsSmall effect.now }
    requires design { IsSmall design.now }
    requires rating { rating ≤ 100000 }
    ensures { IsTrue result ↔ IsWithin rating effect.now design.now }
{
    1000 * effect.num() * design.den() <= u128::from(rating) * design.num() * effect.den()
}

/// A law, and no code: what `fits` says of the effects of two sets of placements holds of their peaks
/// themselves, whatever fractions these are written with.
pub fn fit_is_of_the_peaks<T: Placements, D: Placements>(truck: &T, design: &D)
    ensures { FitIsOfThePeaks (T.allowed truck.now) (D.allowed design.now) }
{}
