// Laws of what an audit says.

ghost use Rattle.journal_audit.specs.Verdicts.{VerdictsAreOne};

/// A law, and no code: one verdict is right for a history.
#[tactic(auto, using(crate::proofs::Fronts::verdicts_one))]
pub fn verdicts_are_one()
    ensures { VerdictsAreOne }
{}
