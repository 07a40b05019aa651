// Laws of the journals of day files, each on a function without code.

ghost use Rattle.program_laws.specs.Laws.{DayHistoriesFit, DayJournalsHaveOneHistory, DayJournalsReadBack, HeadlineFits, HeadlineReadsBack, TextHasOneHistory};
ghost use Rattle.program_laws.specs.Whole.{DayJournalsAreWhole};

/// A law, and no code: each number, day and fraction in a history of a day file is within what a journal may hold.
pub fn day_histories_fit()
    ensures { DayHistoriesFit }
{}

/// A law, and no code: the journal of such a history is read back as that history, unless there is no memory.
pub fn day_journals_read_back()
    ensures { DayJournalsReadBack }
{}

/// A law, and no code: a text is the journal of one history of a day file at most, whatever the day files are.
pub fn day_journals_have_one_history()
    ensures { DayJournalsHaveOneHistory }
{}

/// A law, and no code: the history behind a journal that was written for a day file is one that a journal can be read as.
pub fn headlines_fit()
    ensures { HeadlineFits }
{}

/// A law, and no code: that journal is read back as that history, unless there is no memory.
pub fn headlines_read_back()
    ensures { HeadlineReadsBack }
{}

/// A law, and no code: a text is written for one history at most, whatever the day files are.
pub fn texts_have_one_history()
    ensures { TextHasOneHistory }
{}

/// A law, and no code: what a completed run of `day` writes is called whole by `certify`, with the day file behind it, unless one
/// of the two has too many bytes.
pub fn day_journals_are_whole()
    ensures { DayJournalsAreWhole }
{}
