// Laws of the entries that commands make, each on a function without code.

ghost use Rattle.analyst_pool.specs.Laws.{FinishedAreOne, FirstAttemptsDecide, RunsAreOne, FinishedFoundMemory, ScriptsAreShort, StoppedScriptsAreShorter, StoppedAreShorter, UnfoldingsAreShort};

/// A law, and no code: a command makes at most 17 entries, and one that a full history stopped at most 16.
pub fn unfoldings_are_short()
    ensures all { UnfoldingsAreShort }
    ensures stopped { StoppedAreShorter }
{}

/// A law, and no code: a script that is done makes at most 17 entries for each command, none of which says
/// that no memory was left; one that a full history stopped at a command makes fewer.
pub fn scripts_are_short()
    ensures done { ScriptsAreShort }
    ensures memory { FinishedFoundMemory }
    ensures stopped { StoppedScriptsAreShorter }
{}

/// A law, and no code: where nobody else calls meanwhile, an application is decided by its first attempt,
/// and the entries of a command, as of a list of commands, are determined by what the office holds.
pub fn runs_are_one()
    ensures first { FirstAttemptsDecide }
    ensures command { FinishedAreOne }
    ensures commands { RunsAreOne }
{}
