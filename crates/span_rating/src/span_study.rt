// Who answers what a span bears.

ghost use Rattle.std.specs.Prelude.{◌≤◌, ◌↔◌, List, IsTrue};
ghost use Rattle.axle_train.specs.declared.axle.Axle.{Axle};
ghost use Rattle.influence_line.specs.Peaks.{IsTrainPlaced, IsHs20Placed};
ghost use Rattle.influence_line.specs.Spans.{IsSpanLength};
ghost use Rattle.span_rating.specs.Loading.{AreEffects, AreEffectsOfSomeTrain};
ghost use Rattle.span_rating.specs.Carrying.{Carries};

use crate::loading::Study;

/// Answers what any span bears of one truck, and of the design truck, and whether it carries the truck. It
/// may compute this when it is asked, or have kept it.
pub trait SpanStudy {
    /// The truck's axles.
    ghost axles: { Self → List Axle };

    /// The effects of the study's own truck on a span of `inches`, and those of the design truck, over all of
    /// its second spacings.
    fn of(&self, inches: u32) -> Study
        requires { IsSpanLength inches }
        ensures truck { AreEffects (IsTrainPlaced (axles self.now)) inches result.truck }
        ensures design { AreEffects IsHs20Placed inches result.design }
        ensures design_train { AreEffectsOfSomeTrain inches result.design };

    /// Whether a span of `inches` with this rating carries the truck. This is asked far more often than the
    /// effects, and may be answered without them.
    fn carries(&self, inches: u32, rating: u32) -> bool
        requires span { IsSpanLength inches }
        requires rating { rating ≤ 100000 }
        ensures { IsTrue result ↔ Carries (axles self.now) inches rating };
}
