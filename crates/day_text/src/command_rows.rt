// The row of a command.

ghost use Rattle.std.specs.Prelude.{◌≡◌, IfOk};
ghost use Rattle.csv.specs.Records.{fields_of};
ghost use Rattle.day_text.specs.CommandRows.{HasCommandAt, IsRowOfCommand, is_command};
ghost use Rattle.day_text.specs.CommandSearch.{search_on};
ghost use Rattle.day_text.specs.Records.{rows_of};

use crate::fields::field;
use crate::kind::{RecordKind, parse_kind};
use crate::records::{Progress, read_records};
use crate::refusal::{FileRefusal, RecordCause, RecordRefusal};
use csv::StringRecord;
use names::NoMemory;
use std::alloc::Global;

/// A search for the record of a command: so many other commands stand before it. It refuses the record that it looks for, so that
/// the reader of records tells the row of that one.
#[derive(Drop)]
pub(crate) struct CommandSearch {
    pub left: usize,
}

impl Progress for CommandSearch {
    ghost judge = { search_on };

    fn take(self, _alloc: Global, row: &StringRecord) -> Result<CommandSearch, RecordRefusal> {
        if !is_command(row) {
            return Ok(self);
        }
        if self.left == 0 {
            return Err(RecordRefusal::bad(RecordCause::Kind));
        }
        Ok(CommandSearch {
            left: self.left - 1,
        })
    }
}

/// The row of a command of a day file, counted from 1: of the one at this place among its commands, counted from 0.
///
/// A command that is read does not keep its row, so the records are read once more.
pub fn row_of_command(alloc: Global, bytes: &[u8], place: usize) -> Result<u64, NoMemory>
    requires { HasCommandAt bytes.now place }
    ensures { IfOk result (IsRowOfCommand (rows_of bytes.now) place) }
{
    match read_records(alloc, CommandSearch { left: place }, bytes) {
        Err(FileRefusal::Refused { row, .. }) => Ok(row),
        Err(FileRefusal::NoMemory) => Err(NoMemory),
        Ok(_) => unreachable!(),
    }
}

// Whether the record is a command.
fn is_command(row: &StringRecord) -> bool
    ensures { result ≡ is_command (fields_of row.now) }
{
    matches!(
        parse_kind(field(row, 0)),
        Some(
            RecordKind::Apply
                | RecordKind::Post
                | RecordKind::SetDay
                | RecordKind::Surrender
                | RecordKind::Show
        )
    )
}
