// The judgement of a history by the parts of the day file that it is to be of.

ghost use Rattle.std.specs.Prelude.{◌≡◌, ◌↔◌, ◌<◌, ◌≤◌, IfErr, IfOk, Ok, OnOk, length, true};
ghost use Rattle.std.specs.Arc.{arc_value};
ghost use Rattle.day_text.specs.CommandRows.{HasCommandAt};
ghost use Rattle.day_text.specs.Days.{DayParts, day_of};
ghost use Rattle.day_text.specs.Records.{rows_of};
ghost use Rattle.journal_whole.specs.Wholes.{IsWhole};
ghost use Rattle.clerk_program.specs.Judging.{IsEntryRefusal, IsFileOf, IsHad, IsOrderRefusal};
ghost use Rattle.clerk_program.specs.WholeJournals.{HasSizes};

use crate::refusals::{of_lack, of_stray};
use day_text::{Order, row_of_command};
use journal_audit::{Audited, go_through};
use journal_whole::{Wholeness, judge};
use office_core::Replay;
use office_words::Entry;
use permit_days::Day;
use permit_program::Refusal;
use std::alloc::Global;
use std::sync::Arc;
use trip_analysis::Base;

// How many bytes a journal has at the most, and a day file behind it.
const MOST_JOURNAL: usize = 268_435_456;

pub(crate) const MOST_DAY: usize = 4_194_304;

// How many entries an office can have.
const MOST_ENTRIES: usize = 1_000_000;

/// Whether neither the journal nor the day file behind it has too many bytes.
pub(crate) fn are_sized(journal: &[u8], behind: &[u8]) -> bool
    ensures { (result ≡ true) ↔ HasSizes journal.now behind.now }
{
    journal.len() <= MOST_JOURNAL && behind.len() <= MOST_DAY
}

/// What an office of the base keeps that opened on this day, behind a history that it can have. Else the refusal names the first entry
/// with which it can't.
pub(crate) fn judge_entries(
    alloc: Global,
    base: Arc<Base, Global>,
    day: Day,
    history: &[Entry],
) -> Result<Replay, Refusal>
    ensures had { IfOk result (IsHad (arc_value base) day history.now) }
    ensures refused { IfErr result (IsEntryRefusal (arc_value base) day history.now) }
{
    let most = history.len().min(MOST_ENTRIES);
    match go_through(alloc, base, day, &history[..most])? {
        Audited::Legal(office) => {
            if history.len() > most {
                drop(office);
                return Err(Refusal::of_entry(alloc, most));
            }
            Ok(office)
        }
        Audited::Bad { entry } => Err(Refusal::of_entry(alloc, entry)),
    }
}

/// Whether a history is one of all these commands of so many actors, which are those of the day file that these bytes are.
pub(crate) fn judge_orders(
    alloc: Global,
    actors: usize,
    commands: &[Order],
    bytes: &[u8],
    history: &[Entry],
) -> Result<(), Refusal>
    requires read { IsFileOf bytes.now commands.now }
    requires few { length history.now ≤ 1000000 }
    ensures whole { OnOk result (IsWhole actors commands.now history.now) }
    ensures refused { IfErr result (IsOrderRefusal (rows_of bytes.now) actors commands.now history.now) }
{
    match judge(alloc, actors, commands, history)? {
        Wholeness::Whole => Ok(()),
        Wholeness::Strays { entry } => Err(of_stray(alloc, entry)),
        Wholeness::Lacks { order } => Err(of_lack(alloc, row_of_command(alloc, bytes, order)?)),
    }
}
