// A convoy, and what it does to a span.

ghost use Rattle.std.specs.Prelude.{◌≡◌, ◌≤◌, ◌↔◌, IfErr, IfOk, IsErrOf, IsOk, None, Some};
ghost use Rattle.influence_line.specs.Fractions.{IsSmall};
ghost use Rattle.influence_line.specs.Peaks.{IsPeakMoment, IsPeakShear};
ghost use Rattle.influence_line.specs.Spans.{IsSpanLength};
ghost use Rattle.moment_peak.specs.PeakMoment.{peak_moment_of};
ghost use Rattle.shear_peak.specs.PeakShear.{peak_shear_of};
ghost use Rattle.convoy_moves.specs.declared.refusal.ConvoyRefusal.TheVariants.{TooManyAxles, TooLong, Gross};
ghost use Rattle.convoy_moves.specs.Convoys.{IsConvoyPlaced, IsConvoySize, StandsAsConvoy, closest_axles, convoy_of};
ghost use Rattle.convoy_moves.specs.Refusals.{FitsTogether, HasTooManyAxles, IsTooHeavy, IsConvoyTooLong, axles_together, first_refusal, gross_together};

use crate::closed_up::closed_up;
use crate::refusal::{ConvoyRefusal, are_too_heavy, are_too_long, have_too_many_axles};
use axle_train::Train;
use influence_line::{Frac, Placements};
use std::marker::Model;

/// Two to 16 equal trucks that follow each other, each at least a stated gap behind the one in front, from the last axle
/// of that one to its own first axle. Contracts see the axles of one truck, the number of trucks and the gap.
#[derive(Drop)]
pub struct Convoy {
    // contracts speak of these three, and peaks are read from the closest convoy alone
    truck: Train,
    trucks: u32,
    gap: u32,
    // all trucks, with exactly the gap between two of them
    closest: Train,
}

impl Model for Convoy {
    ghost use Rattle.convoy_moves.specs.Convoys.{EqualTrucks, IsConvoyKept, convoy_of};

    ghost Value = { EqualTrucks };

    ghost view = { λ c. convoy_of c.truck c.trucks c.gap };

    ghost invariant = { λ c. IsConvoyKept (convoy_of c.truck c.trucks c.gap) c.closest };
}

impl Convoy {
    /// A convoy of `trucks` trucks with these axles and at least `gap` inches between two of them, or the first limit
    /// that they pass together. Takes no memory.
    ///
    /// It is asked of 2 to 16 trucks and a gap of 1 to 3,000 in. The limits are tested in the order of [`ConvoyRefusal`]:
    /// more than 32 axles; more than 3,000 in from the first axle to the last, with just the gap between two trucks; more
    /// than 2,000,000 lb. Where none is passed it is a convoy.
    pub fn new(train: &Train, trucks: u32, gap: u32) -> Result<Convoy, ConvoyRefusal>
        requires { IsConvoySize trucks gap }
        ensures ok { IfOk result (λ convoy. convoy ≡ convoy_of train.now trucks gap) }
        ensures accepted { IsOk result ↔ FitsTogether (convoy_of train.now trucks gap) }
        ensures axles { IsErrOf result TooManyAxles ↔ HasTooManyAxles (convoy_of train.now trucks gap) }
        ensures too_long { IsErrOf result TooLong ↔ IsConvoyTooLong (convoy_of train.now trucks gap) }
        ensures gross { IsErrOf result Gross ↔ IsTooHeavy (convoy_of train.now trucks gap) }
        ensures unrefused { IfOk result (λ convoy. first_refusal (convoy_of train.now trucks gap) ≡ None) }
        ensures first { IfErr result (λ why. first_refusal (convoy_of train.now trucks gap) ≡ Some why) }
    {
        if have_too_many_axles(train, trucks) {
            return Err(ConvoyRefusal::TooManyAxles);
        }
        if are_too_long(train, trucks, gap) {
            return Err(ConvoyRefusal::TooLong);
        }
        if are_too_heavy(train, trucks) {
            return Err(ConvoyRefusal::Gross);
        }
        Ok(Convoy {
            truck: copy(train),
            trucks,
            gap,
            closest: closed_up(train, trucks, gap),
        })
    }

    /// How many trucks there are.
    pub fn trucks(&self) -> u32
        ensures { result ≡ self.now.trucks }
    {
        self.trucks
    }

    /// The least number of inches between two trucks.
    pub fn gap(&self) -> u32
        ensures { result ≡ self.now.gap }
    {
        self.gap
    }

    /// How many axles all trucks have together.
    pub fn axles(&self) -> usize
        ensures { result ≡ axles_together self.now.axles self.now.trucks }
    {
        self.closest.len()
    }

    /// How many pounds all trucks weigh together.
    pub fn gross(&self) -> u32
        ensures { result ≡ gross_together self.now.axles self.now.trucks }
    {
        self.closest.gross()
    }

    /// The closest convoy as one train: all trucks, with exactly that gap between two of them. Takes no memory.
    pub fn closest(&self) -> &Train
        ensures axles { result.now ≡ closest_axles self.now }
        ensures placed { StandsAsConvoy self.now result.now }
    {
        &self.closest
    }

    /// The peak moment of the convoy on a span of `span` inches, over all of its placements, in pounds times inches: the
    /// one of the closest convoy. None exceeds it, whatever the gaps are, as long as no gap is below the stated one.
    /// Takes no memory.
    pub fn moment(&self, span: u32) -> Frac
        requires { IsSpanLength span }
        ensures peak { IsPeakMoment (IsConvoyPlaced self.now) span result.num result.den }
        ensures closest { result ≡ peak_moment_of (closest_axles self.now) span }
        // What lets two such peaks be compared.
        ensures small { IsSmall result }
    {
        moment_peak::value(&self.closest, span)
    }

    /// The peak end shear of the convoy on a span of `span` inches, over all of its placements, in pounds: the one of the
    /// closest convoy. None exceeds it, whatever the gaps are, as long as no gap is below the stated one. Takes no
    /// memory.
    pub fn shear(&self, span: u32) -> Frac
        requires { IsSpanLength span }
        ensures peak { IsPeakShear (IsConvoyPlaced self.now) span result.num result.den }
        ensures closest { result ≡ peak_shear_of (closest_axles self.now) span }
        // What lets two such peaks be compared.
        ensures small { IsSmall result }
    {
        shear_peak::peak(&self.closest, span).value
    }
}

/// The placements of a convoy, over which its peaks are taken.
impl Placements for Convoy {
    ghost allowed = { IsConvoyPlaced };
}

/// A train of the same axles.
fn copy(train: &Train) -> Train
    ensures { result ≡ train.now }
{
    match train.clone() {
        Ok(copy) => copy,
        Err(_) => unreachable!(),
    }
}
