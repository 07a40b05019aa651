// Laws of a desk beside its office.

ghost use Rattle.reroute_desk.specs.Laws.{CallsOfOthersKeepUp, NewDesksKeepUp, PermitsAreReplacedOnce};

/// A law, and no code: a new desk keeps up with an office whose history has no entry of its caller.
#[tactic(auto, using(crate::proofs::Keeping::new_keeps))]
pub fn new_desks_keep_up()
    ensures { NewDesksKeepUp }
{}

/// A law, and no code: a desk that keeps up with an office does so after each call of others.
pub fn calls_of_others_keep_up()
    ensures { CallsOfOthersKeepUp }
{}

/// A law, and no code: of all that a desk has handled no permit is replaced twice, and no permit replaces two.
#[tactic(auto, using(crate::proofs::Once::replaced_once))]
pub fn permits_are_replaced_once()
    ensures { PermitsAreReplacedOnce }
{}
