// A study that computes the effects whenever it is asked.

ghost use Rattle.std.specs.Prelude.{◌≡◌, ◌≤◌, ◌↔◌, IsTrue};
ghost use Rattle.influence_line.specs.Spans.{IsSpanLength};
ghost use Rattle.span_rating.specs.Carrying.{Carries};
ghost use Rattle.hs20_truck.specs.Kept.{IsStudyOf};

use axle_train::Train;
use span_rating::{Fit, SpanStudy, Study, fits};

/// The study of one train that computes both effects at each call, and keeps nothing.
#[derive(Drop)]
pub struct Live<'a> {
    pub train: &'a Train,
}

impl SpanStudy for Live<'_> {
    ghost axles = { λ live. live.train.now };

    fn of(&self, inches: u32) -> Study {
        study_of(self.train, inches)
    }

    fn carries(&self, inches: u32, rating: u32) -> bool {
        is_carried(self.train, inches, rating)
    }
}

// Whether a span of this length with this rating carries the train, by the effects there.
pub(crate) fn is_carried(train: &Train, inches: u32, rating: u32) -> bool
    requires span { IsSpanLength inches }
    requires rating { rating ≤ 100000 }
    ensures { IsTrue result ↔ Carries train.now inches rating }
{
    let study = study_of(train, inches);
    matches!(fits(&study.truck, &study.design, rating), Fit::Fits)
}

// The effects of the train and those of the design truck on spans of this length.
pub(crate) fn study_of(train: &Train, inches: u32) -> Study
    requires { IsSpanLength inches }
    ensures { IsStudyOf train.now inches result }
{
    Study {
        truck: crate::effects_of(train, inches),
        design: crate::effects(inches),
    }
}
