// A journal of all of a day, read and judged with the day file behind it.

ghost use Rattle.std.specs.Prelude.{◌≡◌, IfErr, IfOk, Ok};
ghost use Rattle.std.specs.Arc.{arc_value};
ghost use Rattle.day_text.specs.Days.{day_of};
ghost use Rattle.day_text.specs.Records.{rows_of};
ghost use Rattle.clerk_program.specs.Judging.{IsDayOf, IsHistoryRefusal, IsUnfit, IsWholeDay};

use crate::judging::{are_sized, judge_entries, judge_orders};
use crate::refusals::of_bytes;
use day_text::{DayFile, Order, prepare, read_day};
use journal_reader::{cut_behind_end, read};
use names::{Name, NoMemory};
use office_core::Replay;
use office_words::Entry;
use permit_days::Day;
use permit_program::Refusal;
use std::alloc::Global;
use std::sync::Arc;
use trip_analysis::Base;

/// The day of a whole journal: the parts of its file, what its office keeps in the end, and its history.
#[derive(Drop)]
pub(crate) struct WholeDay {
    pub(crate) base: Arc<Base, Global>,
    pub(crate) day: Day,
    pub(crate) actors: Vec<Name>,
    pub(crate) commands: Vec<Order>,
    pub(crate) office: Replay,
    pub(crate) history: Vec<Entry>,
}

/// The day of the journal at the head of the bytes, where it is one of all of the day whose file stands behind it: a completed run of
/// that day may have written it.
///
/// `Refused` has, in this order, status 6 where the journal or the day file has too many bytes; status 5 and the first line with
/// which no journal goes on; the status and the line of the first refused record of the day file; status 9 and the first entry
/// with which the history is none of an office; status 9 and the first entry that is not the next of its caller's commands; or
/// status 9 and the row of the first command that the journal does not finish.
pub(crate) fn read_whole(alloc: Global, bytes: &[u8]) -> Result<WholeDay, Refusal>
    ensures whole { IfOk result (IsWholeDay bytes.now) }
    ensures unfit { IfErr result (IsUnfit bytes.now) }
{
    let cut = cut_behind_end(bytes);
    if !are_sized(cut.front, cut.rest) {
        return Err(of_bytes(alloc));
    }
    let history = match read(alloc, cut.front) {
        Ok(history) => history,
        Err(refused) => return Err(Refusal::of_journal(alloc, refused)),
    };
    let file = match read_day(alloc, cut.rest) {
        Ok(file) => file,
        Err(refused) => return Err(Refusal::of_file(alloc, refused)),
    };
    match judge_history(alloc, file, cut.rest, history) {
        Ok(day) => Ok(day),
        Err(refusal) => Err(refusal),
    }
}

// Judges a history by the day file that these bytes are: whether an office can have it, and whether it is one of all commands of
// the file.
fn judge_history(
    alloc: Global,
    file: DayFile,
    bytes: &[u8],
    history: Vec<Entry>,
) -> Result<WholeDay, Refusal>
    requires read { day_of bytes.now ≡ Ok file }
    ensures whole { IfOk result (IsDayOf file history.items) }
    ensures refused { IfErr result (IsHistoryRefusal (rows_of bytes.now) file history.items) }
{
    let file = prepare(alloc, file)?;
    let (base, day, actors, commands) = file.into_parts();
    let (base, lent) = share(alloc, base)?;
    let office = match judge_entries(alloc, lent, day, history.as_slice()) {
        Ok(office) => office,
        Err(refusal) => return Err(refusal),
    };
    match judge_orders(
        alloc,
        actors.len(),
        commands.as_slice(),
        bytes,
        history.as_slice(),
    ) {
        Ok(()) => Ok(WholeDay {
            base,
            day,
            actors,
            commands,
            office,
            history,
        }),
        Err(refusal) => Err(refusal),
    }
}

// What an office is about, with two owners.
fn share(alloc: Global, base: Base) -> Result<(Arc<Base, Global>, Arc<Base, Global>), NoMemory>
    ensures one { IfOk result (λ owners. arc_value owners.0 ≡ base) }
    ensures other { IfOk result (λ owners. arc_value owners.1 ≡ base) }
{
    let one = Arc::new(alloc, base)?;
    let other = Arc::try_clone(&one)?;
    Ok((one, other))
}
