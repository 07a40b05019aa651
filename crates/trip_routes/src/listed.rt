// One to eight routes, one after another.

ghost use Rattle.std.specs.Prelude.{◌≡◌, ◌<◌, ◌≤◌, ◌++◌, ◌∷◌, [], length, get_or, IfErr, IfOk, OnOk, OnErr, None};
ghost use Rattle.std.specs.List.{concat};
ghost use Rattle.trip_routes.specs.Routes.{AreRoutes, IsPushCause, begin_of, push_refusal};

use crate::refusal::RoutesRefusal;
use arrayvec::ArrayVec;
use road_graph::{NoMemory, Numbers};
use std::alloc::Global;
use std::marker::Model;

/// The most routes.
const MOST_ROUTES: usize = 8;

/// One to eight routes, each the segments that it goes along, in order.
///
/// Contracts see the list of the routes.
#[derive(Drop)]
pub struct Routes {
    // The segments of all routes, one route after another.
    segments: Vec<u32>,
    // Behind which of them each route ends.
    ends: ArrayVec<usize, 8>,
}

impl Model for Routes {
    ghost use Rattle.std.specs.Prelude.{List, ℕ};
    ghost use Rattle.trip_routes.specs.Routes.{AreRouteEnds, parted};

    ghost Value = { List (List ℕ) };

    ghost view = { λ r. parted 0 r.ends.items r.segments.items };

    ghost invariant = { λ r. AreRouteEnds r.ends.items r.segments.items };
}

impl Routes {
    /// One route. Takes no memory.
    pub fn one(route: Numbers) -> Routes
        ensures { result ≡ route ∷ [] }
    {
        let segments = route.into_vec();
        let mut ends = ArrayVec::new();
        ends.push(segments.len());
        Routes { segments, ends }
    }

    /// Adds a route behind the others.
    ///
    /// Refusals, in this order: `Full` where there are eight, `NoMemory`. After each the routes are as they were.
    pub fn push(&mut self, route: &Numbers) -> Result<(), RoutesRefusal>
        ensures added { OnOk result (self.new ≡ self.old ++ route.now ∷ []) }
        ensures room { OnOk result (push_refusal self.old ≡ None) }
        ensures refused { IfErr result (IsPushCause (push_refusal self.old)) }
        ensures unchanged { OnErr result (self.new ≡ self.old) }
    {
        if self.len() >= MOST_ROUTES {
            return Err(RoutesRefusal::Full);
        }
        self.segments.extend_from_slice(route.as_slice())?;
        self.ends.push(self.segments.len());
        Ok(())
    }

    /// The same routes once more. `NoMemory` where no memory was left.
    pub fn try_clone(&self, alloc: Global) -> Result<Routes, NoMemory>
        ensures { IfOk result (λ routes. routes ≡ self.now) }
    {
        let ends = self.ends.clone()?;
        let segments = self.segments.as_slice().to_vec(alloc)?;
        Ok(Routes { segments, ends })
    }

    /// How many routes there are. Takes no memory.
    pub fn len(&self) -> usize
        ensures count { result ≡ length self.now }
        ensures routes { AreRoutes self.now }
    {
        self.ends.len()
    }

    /// The segments of the route at a place. Takes no memory.
    #[tactic(auto, using(crate::proofs::Cutting::cut_within, crate::proofs::Cutting::cut_length))]
    pub fn route(&self, i: usize) -> &[u32]
        requires { i < length self.now }
        ensures { result.now ≡ get_or self.now i [] }
    {
        let start = begin(self.ends.as_slice(), i);
        &self.segments[start..self.ends[i]]
    }

    /// The segments of all routes, one route after another. Takes no memory.
    pub fn all(&self) -> &[u32]
        ensures { result.now ≡ concat self.now }
    {
        self.segments.as_slice()
    }
}

// Behind how many segments the route at a place begins.
fn begin(ends: &[usize], i: usize) -> usize
    requires few { length ends.now ≤ 8 }
    requires within { i < length ends.now }
    ensures { result ≡ begin_of 0 ends.now i }
{
    if i == 0 { 0 } else { ends[i - 1] }
}
