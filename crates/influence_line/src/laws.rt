// Laws of fractions, peaks and loads that move. These functions do nothing when they run: each one's
// contract is a law that is proved once, for whoever reads or relies on the definitions.

ghost use Rattle.influence_line.specs.Laws.{EqualFractionsAreOne, SmallFractionsCompare, PeakMomentIsOne, PeakShearIsOne, NearerIsNoLess};

use crate::Placements;

/// Two fractions in lowest terms that have one value are one fraction.
pub fn equal_fractions_are_one()
    ensures { EqualFractionsAreOne }
{}

/// Two fractions of the size that peaks have can always be compared.
pub fn small_fractions_compare()
    ensures { SmallFractionsCompare }
{}

/// The peak moment of any set of placements is one fraction in lowest terms.
pub fn peak_moment_is_one<P: Placements>(placements: &P)
    ensures { PeakMomentIsOne (P.allowed placements.now) }
{}

/// The peak end shear of any set of placements is one fraction in lowest terms.
pub fn peak_shear_is_one<P: Placements>(placements: &P)
    ensures { PeakShearIsOne (P.allowed placements.now) }
{}

/// An axle that moves towards the section, and not past it, never lowers the moment.
pub fn nearer_is_no_less()
    ensures { NearerIsNoLess }
{}
