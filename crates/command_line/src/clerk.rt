// Reading the words of the clerk's command line.

ghost use Rattle.std.specs.Prelude.{◌≡◌, IfErr, IfOk, None, Some, false, map};
ghost use Rattle.std.specs.String.{string_bytes};
ghost use Rattle.clap.specs.Words.{FailsBy, app_of, fault_of, found_of, matches_of, rows_of, rule_of};
ghost use Rattle.command_line.specs.Clerk.{clerk, clerk_asked_of, clerk_task_at, clerk_task_named, in_force_rule, is_flagged};
ghost use Rattle.command_line.specs.declared.asked.WordsRefusal.TheVariants.{Usage};

use crate::asked::{ClerkTask, WordsRefusal};
use crate::office::command_word;
use clap::error::ErrorKind;
use clap::{Arg, ArgAction, ArgMatches, Command, Error};
use std::alloc::{AllocError, Global};

/// What the words after the clerk's name ask for: `Usage` exactly where they ask for nothing, but that want of memory may come in the
/// place of either answer.
#[tactic(auto, unfolding(crate::specs::Clerk::clerk_asked_of))]
pub fn read_clerk_words(alloc: Global, words: &[String]) -> Result<ClerkTask, WordsRefusal>
    ensures asked { IfOk result (λ task. clerk_asked_of (map string_bytes words.now) ≡ Some task) }
    ensures usage { IfErr result (λ r. r ≡ Usage → clerk_asked_of (map string_bytes words.now) ≡ None) }
{
    match match_words(alloc, words) {
        Ok(matches) => clerk_task_at(&matches).ok_or(WordsRefusal::Usage),
        Err(error) => match error.kind() {
            ErrorKind::OutOfMemory => Err(WordsRefusal::NoMemory),
            _ => Err(WordsRefusal::Usage),
        },
    }
}

// The flag `--in-force`.
fn in_force<'a>(alloc: Global) -> Arg<'a>
    ensures rule { rule_of result ≡ in_force_rule }
    ensures local { result.global ≡ false }
{
    Arg::new(alloc, "in-force")
        .long("in-force")
        .action(ArgAction::SetTrue)
}

// The clerk's command line.
fn clerk<'a>(alloc: Global) -> Result<Command<'a>, AllocError>
    ensures { IfOk result (λ c. app_of c ≡ clerk) }
{
    Command::new(alloc, "permit_clerk")
        .no_binary_name(true)
        .arg(command_word(alloc))?
        .arg(in_force(alloc))
}

// The matches of the words, where the command line takes them.
fn match_words<'a>(alloc: Global, words: &'a [String]) -> Result<ArgMatches<'a>, Error>
    ensures fails { FailsBy (fault_of clerk (map string_bytes words.entry.now)) result }
    ensures rows { IfOk result (λ m. rows_of (found_of m)
        ≡ matches_of clerk (map string_bytes words.entry.now)) }
{
    let clerk = clerk(alloc)?;
    clerk.try_get_matches_from(words)
}

// The task at COMMAND.
fn clerk_task_at(matches: &ArgMatches<'_>) -> Option<ClerkTask>
    ensures { result ≡ clerk_task_at (rows_of (found_of matches.now)) }
{
    clerk_task_named(matches.get_str("COMMAND")?, is_flagged(matches))
}

// Whether `--in-force` is given. The text of a flag is `true` or `false`.
fn is_flagged(matches: &ArgMatches<'_>) -> bool
    ensures { result ≡ is_flagged (rows_of (found_of matches.now)) }
{
    match matches.get_str("in-force") {
        Some(text) => text == "true",
        None => false,
    }
}

// The task that a word names, with the flag.
fn clerk_task_named(word: &str, in_force: bool) -> Option<ClerkTask>
    ensures { result ≡ clerk_task_named in_force word.now }
{
    match word {
        "certify" => Some(ClerkTask::Certify),
        "carry" => Some(ClerkTask::Carry { in_force }),
        _ => None,
    }
}
