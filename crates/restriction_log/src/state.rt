// The limits and ratings in force.

use crate::change::{Change, Replaced};
use crate::lists::{base_ratings, base_values};
use crate::pages::Pages;
use road_graph::{Network, NoMemory, Values};
use std::alloc::Global;
use std::marker::Model;

/// The limits of each segment and the rating of each span, as they are in force.
///
/// They are kept in pages, which a state and those that postings make of it have in common.
#[derive(Drop)]
pub struct State {
    values: Pages<Values>,
    ratings: Pages<u32>,
}

impl Model for State {
    ghost use Rattle.restriction_log.specs.States.{InForce};

    ghost Value = { InForce };

    ghost view = { λ s. record { values = s.values; ratings = s.ratings } };
}

impl State {
    ghost use Rattle.std.specs.Prelude.{◌≡◌, ◌<◌, length, true, IfOk};
    ghost use Rattle.restriction_log.specs.States.{InForce, base_of, state_after, is_named, values_at, rating_at};

    /// The state before anything is posted.
    pub fn base(alloc: Global, network: &Network) -> Result<State, NoMemory>
        ensures value { IfOk result (λ state. state ≡ base_of network.now) }
        ensures values { IfOk result (λ state. length state.values ≡ length network.now.segments) }
        ensures ratings { IfOk result (λ state. length state.ratings ≡ length network.now.spans) }
    {
        Ok(State {
            values: base_values(alloc, network)?,
            ratings: base_ratings(alloc, network)?,
        })
    }

    /// The limits of a segment. Takes no memory.
    pub fn segment(&self, i: u32) -> Values
        requires { i < length self.now.values }
        ensures { result ≡ values_at self.now.values i }
    {
        self.values.get(i as usize)
    }

    /// The rating of a span, in per mille of HS20-44. Takes no memory.
    pub fn rating(&self, span: u32) -> u32
        requires { span < length self.now.ratings }
        ensures { result ≡ rating_at self.now.ratings span }
    {
        self.ratings.get(span as usize)
    }

    /// This state with one value replaced, that of the segment or span that the change names: its page is copied, and all
    /// else gets one more owner. The state has what its network takes.
    #[tactic(auto, using(crate::proofs::Standing::values_many_after, crate::proofs::Standing::ratings_many_after))]
    pub fn with(&self, alloc: Global, change: &Change) -> Result<State, NoMemory>
        requires { is_named self.now change.now ≡ true }
        ensures value { IfOk result (λ state. state ≡ state_after self.now change.now) }
        ensures values { IfOk result (λ state. length state.values ≡ length self.now.values) }
        ensures ratings { IfOk result (λ state. length state.ratings ≡ length self.now.ratings) }
    {
        match change.replaced() {
            Replaced::Limit {
                segment,
                what,
                value,
            } => {
                let limits = self.segment(segment).with(what, value);
                Ok(State {
                    values: self.values.with(alloc, segment as usize, limits)?,
                    ratings: self.ratings.again()?,
                })
            }
            Replaced::Rating { span, permille } => Ok(State {
                values: self.values.again()?,
                ratings: self.ratings.with(alloc, span as usize, permille)?,
            }),
        }
    }
}
