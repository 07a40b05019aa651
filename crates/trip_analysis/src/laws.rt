// Laws of the definitions, each on a function without code.

ghost use Rattle.trip_analysis.specs.Laws.{AskedRoutesFailFirst, AskedRoutesMeet, CutsLetNoneThrough, FindingIsOne, TripFindingsAreInRange, FindingsHold, RoutesAreFirstOfShortest};

/// A law, and no code: one thing is found for an application in a state; what it names is there, and it holds in that state.
pub fn findings_hold()
    ensures one { FindingIsOne }
    ensures range { TripFindingsAreInRange }
    ensures holds { FindingsHold }
{}

/// A law, and no code: without an asked route, a route that is found is one alone, the first of the shortest walks over
/// segments that meet the truck, and nodes that are found are a cut, out of which no such walk leads to the end of the trip.
pub fn free_findings_are_of_walks()
    ensures route { RoutesAreFirstOfShortest }
    ensures cut { CutsLetNoneThrough }
{}

/// A law, and no code: asked routes are found where each segment of each of them meets the truck, and else the first segment
/// that fails is found, in the order of the routes and on each in its order.
pub fn asked_findings_are_of_the_routes()
    ensures route { AskedRoutesMeet }
    ensures fails { AskedRoutesFailFirst }
{}
