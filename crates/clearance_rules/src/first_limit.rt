// The first limit of a segment that a load fails.

ghost use Rattle.std.specs.Prelude.{◌≡◌, ◌<◌, ◌≤◌, ◌+◌, ◌↔◌, length, None};
ghost use Rattle.axle_train.specs.Bounds.{IsTrain};
ghost use Rattle.span_rating.specs.Judgement.{fit_of};
ghost use Rattle.span_rating.specs.Loading.{AreSmall};
ghost use Rattle.road_graph.specs.Roads.{IsRoads};
ghost use Rattle.restriction_log.specs.States.{AreOf};
ghost use Rattle.clearance_rules.specs.Limits.{posted_limit, group_limit, tridem_limit, weights_limit, limit_of_fit, limit_of_span, limit_of, Meets};

use crate::crossing::Crossing;
use crate::limit::Limit;
use crate::load::Load;
use crate::steps::Steps;
use restriction_log::State;
use road_graph::{Network, Values};
use span_rating::{Fit, SpanStudy, Study, fits};
use std::sync::ledger::Ledger;

/// The first limit of the segment that fails the load in this state, or none where the segment meets it.
///
/// The order is that of [`Limit`], and then that of the span numbers, moment before shear. The worst group and the heaviest
/// tridem group alone are tested, since some group is over exactly where these are. The study is asked whether
/// each span that is tested carries the truck, and for the effects on the one that does not. Takes a step and
/// no memory.
pub fn first_failing<E: SpanStudy, L: Ledger>(
    network: &Network,
    state: &State,
    load: &Load,
    study: &E,
    segment: u32,
    steps: &mut Steps<L>,
) -> Option<Limit>
    requires segment { segment < length network.now.segments }
    requires state { AreOf network.now state.now }
    requires study { E.axles study.now ≡ load.now.train }
    ensures value { result ≡ limit_of network.now state.now load.now segment }
    ensures meets { (result ≡ None) ↔ Meets network.now state.now load.now segment }
    ensures steps { steps.new ≡ steps.old + 1 }
{
    steps.tick();
    bounds(network, load);
    let crossing = Crossing {
        network,
        state,
        load,
        study,
        segment,
    };
    crossing.first_limit()
}

impl<E: SpanStudy> Crossing<'_, E> {
    /// The first limit of the segment that fails the load.
    fn first_limit(&self) -> Option<Limit>
        requires { IsTrain self.now.load.now.train }
        ensures { result
            ≡ limit_of self.now.network.now self.now.state.now self.now.load.now self.now.segment }
    {
        let values = self.state.segment(self.segment);
        if let Some(limit) = posted_limit(&values, self.load, self.segment) {
            return Some(limit);
        }
        if let Some(limit) = weights_limit(&values, self.load, self.segment) {
            return Some(limit);
        }
        for span in self.network.spans_of(self.segment) {
            if let Some(limit) = self.span_limit(*span) {
                return Some(limit);
            }
        }
        None
    }

    /// The failing limit of one span, moment before shear.
    fn span_limit(&self, span: u32) -> Option<Limit>
        requires span { span < length self.now.network.now.spans }
        requires train { IsTrain self.now.load.now.train }
        ensures { result
            ≡ limit_of_span self.now.network.now self.now.state.now self.now.load.now.train self.now.segment span }
    {
        let inches = self.network.span(span).inches;
        let rating = self.state.rating(span);
        if self.study.carries(inches, rating) {
            return None;
        }
        limit_by(&self.study.of(inches), rating, self.segment, span)
    }
}

/// That a network and the axles of a load are within their bounds, which no value of them shows by itself. A fact for the
/// proof, and no code.
pub(crate) fn bounds(network: &Network, load: &Load)
    ensures roads { IsRoads network.now }
    ensures train { IsTrain load.now.train }
{
    let (_, _) = (network.segments(), load.train());
}

/// The first of the posted values that fails the load.
#[tactic(auto, unfolding(crate::specs::Limits::posted_limit))]
pub(crate) fn posted_limit(values: &Values, load: &Load, segment: u32) -> Option<Limit>
    ensures { result ≡ posted_limit values.now load.now segment }
{
    if values.closed {
        return Some(Limit::Closed { segment });
    }
    if load.height() > values.height {
        return Some(Limit::Height {
            segment,
            has: load.height(),
            allowed: values.height,
        });
    }
    if load.width() > values.width {
        return Some(Limit::Width {
            segment,
            has: load.width(),
            allowed: values.width,
        });
    }
    if load.length() > values.length {
        return Some(Limit::Length {
            segment,
            has: load.length(),
            allowed: values.length,
        });
    }
    let gross = load.train().gross();
    if gross > values.gross {
        return Some(Limit::Gross {
            segment,
            has: gross,
            allowed: values.gross,
        });
    }
    None
}

/// The first failing limit on the weights of groups of axles.
#[tactic(auto, unfolding(crate::specs::Limits::weights_limit))]
pub(crate) fn weights_limit(values: &Values, load: &Load, segment: u32) -> Option<Limit>
    ensures { result ≡ weights_limit values.now load.now segment }
{
    if let Some(limit) = group_limit(load, segment, values.allowance) {
        return Some(limit);
    }
    tridem_limit(load, segment, values.tridem)
}

/// The limit on tridem groups, where the heaviest one is over the posted weight.
#[tactic(auto, unfolding(crate::specs::Limits::tridem_limit))]
fn tridem_limit(load: &Load, segment: u32, pounds: u32) -> Option<Limit>
    ensures { result ≡ tridem_limit pounds load.now segment }
{
    let heaviest = load.heaviest_tridem()?;
    if heaviest.weight <= pounds {
        return None;
    }
    let axles = load.train().len();
    prove!(heaviest.i < axles && heaviest.j < axles && axles <= 32);
    Some(Limit::Tridem {
        segment,
        i: heaviest.i as u32,
        j: heaviest.j as u32,
        weight: heaviest.weight,
        allowed: pounds,
    })
}

/// The limit on groups of axles, where the worst one is over the allowance.
fn group_limit(load: &Load, segment: u32, allowance: u32) -> Option<Limit>
    ensures { result ≡ group_limit allowance load.now segment }
{
    let worst = load.worst();
    if 1000 * u64::from(worst.weight) <= u64::from(allowance) * u64::from(worst.limit) {
        return None;
    }
    let axles = load.train().len();
    prove!(worst.i < axles && worst.j < axles && axles <= 32);
    Some(Limit::Group {
        segment,
        i: worst.i as u32,
        j: worst.j as u32,
        weight: worst.weight,
        limit: worst.limit,
        allowance,
    })
}

/// The limit that a span of this rating fails by, with the two effects that were compared.
fn limit_by(effects: &Study, rating: u32, segment: u32, span: u32) -> Option<Limit>
    requires truck { AreSmall effects.now.truck }
    requires design { AreSmall effects.now.design }
    requires rating { rating ≤ 100000 }
    ensures { let truck = effects.now.truck in let design = effects.now.design in
        result ≡ limit_of_fit (fit_of truck design rating) truck design rating segment span }
{
    let Study { truck, design } = effects;
    match fits(truck, design, rating) {
        Fit::Fits => None,
        Fit::Moment => Some(Limit::Moment {
            segment,
            span,
            has: truck.moment,
            design: design.moment,
            rating,
        }),
        Fit::Shear => Some(Limit::Shear {
            segment,
            span,
            has: truck.shear,
            design: design.shear,
            rating,
        }),
    }
}
