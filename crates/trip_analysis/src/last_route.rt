// The route that was found last.

ghost use Rattle.std.specs.Prelude.{◌≡◌, ◌∷◌, [], IfOk};
ghost use Rattle.trip_analysis.specs.Findings.{proposed_of};

use crate::finding::What;
use names::NoMemory;
use road_graph::Numbers;
use route_search::Shortest;
use std::alloc::Global;
use trip_routes::SharedRoutes;

/// The route that a search found last, if one did.
///
/// Many trips may lead along one route. Their findings, and so their permits, have it in common where they come one after
/// another: it takes memory once, and two permits whose routes are compared are mostly read from the same place.
#[derive(Drop)]
pub(crate) struct LastRoute {
    routes: Option<SharedRoutes>,
}

impl LastRoute {
    /// None, before any was found.
    pub fn none() -> LastRoute {
        LastRoute { routes: None }
    }

    /// What a search found, as it is proposed.
    pub fn proposed(&mut self, alloc: Global, found: Shortest) -> Result<What, NoMemory>
        ensures { IfOk result (λ w. w ≡ proposed_of found) }
    {
        match found {
            Shortest::Route { segments, .. } => Ok(What::Route(self.along(alloc, segments)?)),
            Shortest::Cut { reached } => Ok(What::Cut(reached)),
            Shortest::NoRoad { reached } => Ok(What::Cut(reached)),
        }
    }

    // The one route along these segments: one more owner of the last route, where that leads along them too.
    fn along(&mut self, alloc: Global, segments: Numbers) -> Result<SharedRoutes, NoMemory>
        ensures { IfOk result (λ routes. routes ≡ segments ∷ []) }
    {
        if let Some(last) = &self.routes {
            if last.is_along(segments.as_slice()) {
                return Ok(last.clone()?);
            }
        }
        let routes = SharedRoutes::along(alloc, segments)?;
        self.routes = Some(routes.clone()?);
        Ok(routes)
    }
}
