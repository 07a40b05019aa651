// A law of the definitions, on a function without code.

ghost use Rattle.trip_analysis.specs.ApplicationLaws.{BreaksAreFirst, FirstBreaksAreFirst, RoutesAreUnbroken, WalksAreUnbroken};

/// A law, and no code: a list of segments is a walk between two nodes exactly where it does not break off, and it breaks off
/// exactly behind the walk along its front, where the next segment does not begin or the trip does not end. Of several routes
/// each is a walk exactly where none breaks off, and else the first that is none breaks off.
pub fn routes_break_off_where_walks_do()
    ensures walks { WalksAreUnbroken }
    ensures breaks { BreaksAreFirst }
    ensures routes { RoutesAreUnbroken }
    ensures first { FirstBreaksAreFirst }
{}
