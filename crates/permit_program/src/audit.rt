// What `audit` makes: the line that a journal is legal, for the day file that stands behind it.

ghost use Rattle.std.specs.Prelude.{◌≡◌, ◌≤◌, IfErr, IfOk, length};
ghost use Rattle.std.specs.String.{string_bytes};
ghost use Rattle.journal_audit.specs.Verdicts.{IsVerdict};
ghost use Rattle.permit_program.specs.Audit.{audit, legal_history_line};
ghost use Rattle.permit_program.specs.Command.{IsRefusalOf, Makes};
ghost use Rattle.permit_program.specs.Runs.{most_bytes};

use crate::refusal::Refusal;
use day_text::{DayFile, prepare, read_day};
use journal_audit::{Verdict, audit};
use journal_reader::{cut_behind_end, journals_are_long, read};
use names::NoMemory;
use office_words::Entry;
use std::alloc::Global;
use std::sync::Arc;

/// The line that says that the journal at the head of the bytes is legal, for the day file behind it, with
/// the number of its entries: its history is one of an office about the roads and trucks of that file that
/// opened on its day. Whether the history holds the commands of the file is not promised.
///
/// `Refused` has, in this order, status 5 and the first line with which no journal goes on; the status and
/// the line of the first refused record of the day file; or status 9 and the first bad entry.
pub(crate) fn make_audit(alloc: Global, bytes: &[u8]) -> Result<Vec<u8>, Refusal>
    requires { length bytes.now ≤ most_bytes }
    ensures made { IfOk result (λ text. Makes audit bytes.now text.items) }
    ensures refused { IfErr result (IsRefusalOf audit bytes.now) }
{
    let cut = cut_behind_end(bytes);
    let history = match read(alloc, cut.front) {
        Ok(history) => history,
        Err(refused) => return Err(Refusal::of_journal(alloc, refused)),
    };
    let file = match read_day(alloc, cut.rest) {
        Ok(file) => file,
        Err(refused) => return Err(Refusal::of_file(alloc, refused)),
    };
    journals_are_long();
    match judge(alloc, file, history.as_slice())? {
        Verdict::Legal => Ok(legal_line(alloc, history.len())?.into_bytes()),
        Verdict::Bad { entry } => Err(Refusal::of_entry(alloc, entry)),
    }
}

// Judges a history against a day file, whose office opened on its day about its roads and trucks.
fn judge(alloc: Global, file: DayFile, history: &[Entry]) -> Result<Verdict, NoMemory>
    requires { length history.now ≤ 1000000 }
    ensures { IfOk result (IsVerdict file.base file.day history.now) }
{
    let file = prepare(alloc, file)?;
    let (base, day, _actors, _commands) = file.into_parts();
    audit(alloc, Arc::new(alloc, base)?, day, history)
}

// The line that says so of a legal history, with the number of its entries.
fn legal_line(alloc: Global, count: usize) -> Result<String, NoMemory>
    ensures { IfOk result (λ text. string_bytes text ≡ legal_history_line count) }
{
    let mut text = String::new(alloc);
    write!(text, "legal {count}\n")?;
    Ok(text)
}
