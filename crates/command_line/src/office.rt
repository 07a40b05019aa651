// The command of `clap` that reads the words.

ghost use Rattle.std.specs.Prelude.{◌≡◌, false, IfOk};
ghost use Rattle.clap.specs.Words.{app_of, rule_of};
ghost use Rattle.command_line.specs.Office.{made_office, number_rule, office, word_rule};

use clap::{Arg, ArgAction, Command};
use std::alloc::{AllocError, Global};

// An option with a whole number: its name, the number that it has where it is not given, and its range.
fn number_option<'a>(
    alloc: Global,
    name: &'a str,
    default: &'a str,
    least: u32,
    most: u32,
) -> Arg<'a>
    ensures rule { rule_of result ≡ number_rule (record {
      name = name.entry.now;
      default = default.entry.now;
      least = least;
      most = most;
    }) }
    ensures local { result.global ≡ false }
{
    Arg::new(alloc, name)
        .long(name)
        .action(ArgAction::Set)
        .default_value(default)
        .value_parser(clap::value_parser!(u32).range(i64::from(least)..=i64::from(most)))
}

/// The positional argument COMMAND, which takes any word.
pub(crate) fn command_word<'a>(alloc: Global) -> Arg<'a>
    ensures rule { rule_of result ≡ word_rule }
    ensures local { result.global ≡ false }
{
    Arg::new(alloc, "COMMAND")
        .required(true)
        .action(ArgAction::Set)
}

/// The office's command line.
pub(crate) fn office<'a>(alloc: Global) -> Result<Command<'a>, AllocError>
    ensures { IfOk result (λ c. app_of c ≡ office) }
{
    let trucks = number_option(alloc, "trucks", "2", 2, 16);
    let gap = number_option(alloc, "gap", "360", 1, 3000);
    made_office(alloc)?.arg(trucks)?.arg(gap)
}

// The command line with the options of made day files alone.
fn made_office<'a>(alloc: Global) -> Result<Command<'a>, AllocError>
    ensures { IfOk result (λ c. app_of c ≡ made_office) }
{
    let seed = number_option(alloc, "seed", "1", 0, 65_535);
    let size = number_option(alloc, "size", "1", 1, 40);
    Command::new(alloc, "permit_cli")
        .no_binary_name(true)
        .arg(command_word(alloc))?
        .arg(seed)?
        .arg(size)
}
