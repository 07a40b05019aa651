// Routes and their owners.

ghost use Rattle.std.specs.Prelude.{◌≡◌, ◌<◌, ◌∷◌, ◌↔◌, [], length, get_or, true, IfOk};
ghost use Rattle.std.specs.List.{concat};
ghost use Rattle.trip_routes.specs.Routes.{AreRoutes};

use crate::listed::Routes;
use road_graph::Numbers;
use std::alloc::{AllocError, Global};
use std::marker::Model;
use std::sync::Arc;

/// One to eight routes that their owners have in common.
///
/// An application, what was found for it, a permit, the answer that issues it and the entry of that answer hold the same
/// routes. These never change, so they hold one list together, and a further owner copies nothing.
///
/// Contracts see the list of the routes.
#[derive(Drop)]
pub struct SharedRoutes {
    routes: Arc<Routes, Global>,
}

impl Model for SharedRoutes {
    ghost use Rattle.std.specs.Prelude.{List, ℕ};
    ghost use Rattle.std.specs.Arc.{arc_value};

    ghost Value = { List (List ℕ) };

    ghost view = { λ shared. arc_value shared.routes };
}

/// One more owner of the same routes. Copies nothing, and is refused only where no further owner can be had.
impl Clone for SharedRoutes {
    ghost is_clone = { λ shared owner. owner ≡ shared };

    fn clone(&self) -> Result<SharedRoutes, AllocError> {
        let routes = Arc::try_clone(&self.routes)?;
        Ok(SharedRoutes { routes })
    }
}

impl SharedRoutes {
    /// These routes, with one owner.
    pub fn of(alloc: Global, routes: Routes) -> Result<SharedRoutes, AllocError>
        ensures { IfOk result (λ shared. shared ≡ routes) }
    {
        let routes = Arc::new(alloc, routes)?;
        Ok(SharedRoutes { routes })
    }

    /// The one route along these segments, with one owner.
    pub fn along(alloc: Global, route: Numbers) -> Result<SharedRoutes, AllocError>
        ensures { IfOk result (λ shared. shared ≡ route ∷ []) }
    {
        SharedRoutes::of(alloc, Routes::one(route))
    }

    /// Whether there is one route alone, and it leads along these segments. Takes no memory.
    pub fn is_along(&self, route: &[u32]) -> bool
        ensures { (result ≡ true) ↔ (self.now ≡ route.now ∷ []) }
    {
        self.len() == 1 && self.route(0) == route
    }

    /// How many routes there are. Takes no memory.
    pub fn len(&self) -> usize
        ensures count { result ≡ length self.now }
        ensures routes { AreRoutes self.now }
    {
        self.routes.len()
    }

    /// The segments of the route at a place. Takes no memory.
    pub fn route(&self, i: usize) -> &[u32]
        requires { i < length self.now }
        ensures { result.now ≡ get_or self.now i [] }
    {
        self.routes.route(i)
    }

    /// The segments of all routes, one route after another. Takes no memory.
    pub fn all(&self) -> &[u32]
        ensures { result.now ≡ concat self.now }
    {
        self.routes.all()
    }
}
