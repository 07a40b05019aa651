// Laws of what is said of a history.

ghost use Rattle.journal_whole.specs.Asking.{WholeHistoriesAskWhatWasOrdered, WholeHistoriesIssueFew};
ghost use Rattle.journal_whole.specs.Wholes.{WholenessIsOne};

/// A law, and no code: of a history one thing is right to say. So a whole one is called whole, and one that is not whole has one
/// first entry that strays or, where none does, one first command that it lacks.
#[tactic(auto, using(crate::proofs::Fronts::wholeness_one))]
pub fn wholeness_is_one()
    ensures { WholenessIsOne }
{}

/// A law, and no code: in a whole history each entry is a snapshot, or asks what one of the commands of its caller wants.
pub fn whole_histories_ask_what_was_ordered()
    ensures { WholeHistoriesAskWhatWasOrdered }
{}

/// A law, and no code: a whole history issues at most as many permits as there are commands, since each command is answered by
/// at most one.
pub fn whole_histories_issue_few()
    ensures { WholeHistoriesIssueFew }
{}
