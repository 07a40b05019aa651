// Laws of journals.

ghost use Rattle.journal_reader.specs.Cuts.{CutsAreOne};
ghost use Rattle.journal_reader.specs.Laws.{JournalsAreLong, NoProperPrefix, OneAnswer, OneHistory, PrintedIsRead};

/// A text is the journal of one history at most, so that histories which differ have texts which differ.
pub fn histories_differ_in_text()
    ensures { OneHistory }
{}

/// No journal is a proper prefix of another.
pub fn no_journal_begins_another()
    ensures { NoProperPrefix }
{}

/// Two answers to one text that are not want of memory are one: the same history, or the same bad line.
pub fn answers_are_one()
    ensures { OneAnswer }
{}

/// The journal of a history is read as that history, unless there is no memory.
pub fn what_is_printed_is_read()
    ensures { PrintedIsRead }
{}

/// A journal has at least five bytes for each entry.
pub fn journals_are_long()
    ensures { JournalsAreLong }
{}

/// Bytes are cut behind the end of a journal in one way alone.
pub fn cuts_are_one()
    ensures { CutsAreOne }
{}
