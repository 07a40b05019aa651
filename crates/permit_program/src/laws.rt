// Laws of a run.

ghost use Rattle.permit_program.specs.Laws.{CommandsJudgeOnce, EveryStatusIsNamed, ListenersHearAll, LoneDaysAreSerial, OnlyDaysTell};

/// Every run ends with 0 or with one of 2 to 10.
pub fn every_status_is_named<S, K>()
    ensures { EveryStatusIsNamed S K }
{}

/// A command judges bytes in one way alone, so the status that it calls for is one.
pub fn commands_judge_once()
    ensures { CommandsJudgeOnce }
{}

/// A run ends with 8 only where a day is asked for.
pub fn only_days_tell<S, K>()
    ensures { OnlyDaysTell S K }
{}

/// A run of `day` that ends with 0 leaves a line for each recall: behind the text of a listener who is told of all, and nothing
/// but these, in the order of the written history. So it is of standard error, where that tells what it holds.
pub fn standard_error_has_a_line_for_each_recall<S, K>()
    ensures { ListenersHearAll S K }
{}

/// The history behind the journal of a day of at most one actor is the serial one: the file's commands, carried out one after
/// another on one thread.
pub fn lone_days_are_serial()
    ensures { LoneDaysAreSerial }
{}
