// Laws of day files, each on a function without code.

ghost use Rattle.day_text.specs.Bounds.{DayFilesAreBounded};
ghost use Rattle.day_text.specs.CommandRows.{RowsOfCommandsAreOne};
ghost use Rattle.day_text.specs.Named.{DayFilesAreNamed};

/// A law, and no code: the roads and the trucks of every day file are within their bounds, and so is each of its commands. Its
/// days are days of the calendar.
pub fn day_files_are_bounded()
    ensures { DayFilesAreBounded }
{}

/// A law, and no code: all that has a name in a day file is named as records name things, and no two trucks and no two actors of it
/// have the same name.
pub fn day_files_are_named()
    ensures { DayFilesAreNamed }
{}

/// A law, and no code: a command of a day file stands in one row alone.
#[tactic(auto, using(crate::proofs::CommandRows::rows_one))]
pub fn commands_have_one_row()
    ensures { RowsOfCommandsAreOne }
{}
