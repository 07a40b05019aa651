// Laws of potentials, findings and reached nodes.

ghost use Rattle.route_search.specs.Laws.{ClosedSetsKeepWalksIn, FindingsAreInRange, GoalIsZero, OneFinding, OneReached, OneRoute, OneShortest, PotentialsCertify, ReachedAreClosed, ShortestAreInRange, StartIsReached};

/// Potentials certify that no walk is shorter: the goal has 0, and where a segment may be passed and its end has a
/// potential, its start has one, at most the segment's feet more.
pub fn potentials_certify()
    ensures certify { PotentialsCertify }
    ensures goal { GoalIsZero }
{}

/// One walk is the first of the shortest, and one list is that of the nodes that are reached. What is found, with
/// the potentials or without them, follows from the network, the flags and the two nodes, and is in range.
pub fn findings_are_one()
    ensures route { OneRoute }
    ensures reached { OneReached }
    ensures finding { OneFinding }
    ensures shortest { OneShortest }
    ensures range { FindingsAreInRange }
    ensures shortest_range { ShortestAreInRange }
{}

/// No segment that may be passed leads out of the nodes that are reached, and a set that none leaves keeps walks in.
pub fn cuts_hold()
    ensures keeps { ClosedSetsKeepWalksIn }
    ensures start { StartIsReached }
    ensures closed { ReachedAreClosed }
{}
