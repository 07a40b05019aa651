// Laws of the clerk's commands.

ghost use Rattle.clerk_program.specs.Laws.{CarriesWhatItPromises, ClerkJudgesOnce, ClerkStatusesAreNamed, TakesWhatItPromises};

/// A law, and no code: each command of the clerk judges bytes in one way alone, so the status that it calls for is one.
pub fn the_clerk_judges_once()
    ensures { ClerkJudgesOnce }
{}

/// A law, and no code: `certify` takes bytes exactly where a text keeps its promise. So a journal is called whole exactly where its
/// history serves the day file as the history of a completed day does.
pub fn certificates_are_what_is_taken()
    ensures { TakesWhatItPromises }
{}

/// A law, and no code: `carry` takes bytes exactly where a text keeps its promise.
pub fn days_are_carried_where_it_can_be()
    ensures { CarriesWhatItPromises }
{}

/// A law, and no code: no run of the clerk's program ends with another status than 0, 2, 3, 4, 5, 6, 7 and 9, whatever its source and
/// its sink are.
pub fn every_clerk_status_is_named<S, K>()
    ensures { ClerkStatusesAreNamed S K }
{}
