// What short command lines ask for.

ghost use Rattle.command_line.specs.Clerk.{ClerkWordsAsk};
ghost use Rattle.command_line.specs.Laws.{EachWordAsks, NoWordsAndHelpAskForNothing, WhatAsksIsAccepted};

/// Each word of a task alone asks for it, with seed 1, size 1, two trucks and a gap of 360 inches.
pub fn each_word_asks_for_its_task()
    ensures { EachWordAsks }
{}

/// No words ask for nothing, and so does `--help` alone.
pub fn no_words_and_help_ask_for_nothing()
    ensures { NoWordsAndHelpAskForNothing }
{}

/// Words that ask for something are taken by the command line, and COMMAND is the word of a task.
pub fn what_asks_is_accepted()
    ensures { WhatAsksIsAccepted }
{}

/// The word of the clerk's task alone asks for it. No words ask for nothing, and so does `--help` alone.
pub fn clerk_words_ask()
    ensures { ClerkWordsAsk }
{}
