// Laws of the definitions, on a function without code.

ghost use Rattle.restriction_log.specs.Laws.{BaseIsOf, StaysOf, StateIsOf};

/// A law, and no code: the base of a network is of it, a change that the network takes keeps a state of it, and so the state
/// after any postings that it takes is of it.
pub fn states_are_of_their_network()
    ensures base { BaseIsOf }
    ensures change { StaysOf }
    ensures postings { StateIsOf }
{}
