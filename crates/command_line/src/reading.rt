// Reading the words of a command line.

ghost use Rattle.std.specs.Prelude.{◌≡◌, ◌≢◌, IfErr, IfOk, IfSome, IsSomeAnd, None, Some, map};
ghost use Rattle.std.specs.String.{string_bytes};
ghost use Rattle.clap.specs.Words.{FailsBy, fault_of, found_of, kind_of, matches_of, rows_of};
ghost use Rattle.command_line.specs.Office.{gap_option, office, seed_option, size_option, trucks_option};
ghost use Rattle.command_line.specs.Asking.{AreAccepted, NumbersAreInRange, HasNumberIn, HasNumbers, IsInRange, asked_in, asked_of, number_at, options_in, task_at, task_named};
ghost use Rattle.command_line.specs.declared.asked.WordsRefusal.TheVariants.{Usage};

use crate::asked::{Asked, Options, Task, WordsRefusal};
use crate::office::office;
use clap::error::ErrorKind;
use clap::{ArgMatches, Error};
use std::alloc::Global;

/// What the words after the program's name ask for: `Usage` exactly where they ask for nothing, but that want of memory may
/// come in the place of either answer.
///
/// `Usage` never comes where `clap` takes the words and COMMAND names a task. What is asked for is in range: the seed 0 to
/// 65,535, the size 1 to 40, the trucks 2 to 16 and the gap 1 to 3,000.
#[tactic(auto, unfolding(crate::specs::Asking::asked_of, crate::specs::Asking::AreAccepted))]
pub fn read_words(alloc: Global, words: &[String]) -> Result<Asked, WordsRefusal>
    ensures asked { IfOk result (λ asked. asked_of (map string_bytes words.now) ≡ Some asked) }
    ensures range { IfOk result (λ asked. NumbersAreInRange asked.options) }
    ensures usage { IfErr result (λ r. r ≡ Usage → asked_of (map string_bytes words.now) ≡ None) }
    ensures refused { IfErr result (λ r. r ≡ Usage → AreAccepted (map string_bytes words.now) → ⊥) }
{
    match match_words(alloc, words) {
        Ok(matches) => read_matches(&matches).ok_or(WordsRefusal::Usage),
        Err(error) => match error.kind() {
            ErrorKind::OutOfMemory => Err(WordsRefusal::NoMemory),
            _ => Err(WordsRefusal::Usage),
        },
    }
}

// The matches of the words, where the command line takes them.
fn match_words<'a>(alloc: Global, words: &'a [String]) -> Result<ArgMatches<'a>, Error>
    ensures fails { FailsBy (fault_of office (map string_bytes words.entry.now)) result }
    ensures rows { IfOk result (λ m.
        rows_of (found_of m) ≡ matches_of office (map string_bytes words.entry.now)) }
    ensures numbers { IfOk result HasNumbers }
{
    let office = office(alloc)?;
    office.try_get_matches_from(words)
}

// What the matches ask for.
fn read_matches(matches: &ArgMatches<'_>) -> Option<Asked>
    requires { HasNumbers matches.now }
    ensures value { result ≡ asked_in (rows_of (found_of matches.now)) }
    ensures none { result ≡ None → task_at (rows_of (found_of matches.now)) ≡ None }
    ensures range { IfSome result (λ asked. NumbersAreInRange asked.options) }
{
    Some(Asked {
        task: task_at(matches)?,
        options: options_at(matches)?,
    })
}

// The task at COMMAND.
fn task_at(matches: &ArgMatches<'_>) -> Option<Task>
    ensures { result ≡ task_at (rows_of (found_of matches.now)) }
{
    task_named(matches.get_str("COMMAND")?)
}

// The task that a word names.
fn task_named(word: &str) -> Option<Task>
    ensures { result ≡ task_named word.now }
{
    match word {
        "check" => Some(Task::Check),
        "day" => Some(Task::Day),
        "make" => Some(Task::Make),
        "trial" => Some(Task::Trial),
        "audit" => Some(Task::Audit),
        "design" => Some(Task::Design),
        "convoy" => Some(Task::Convoy),
        "reroute" => Some(Task::Reroute),
        _ => None,
    }
}

// The numbers at all options.
fn options_at(matches: &ArgMatches<'_>) -> Option<Options>
    requires { HasNumbers matches.now }
    ensures value { result ≡ options_in (rows_of (found_of matches.now)) }
    ensures range { IsSomeAnd result NumbersAreInRange }
{
    Some(Options {
        seed: matches.get_one("seed")?,
        size: matches.get_one("size")?,
        trucks: matches.get_one("trucks")?,
        gap: matches.get_one("gap")?,
    })
}
