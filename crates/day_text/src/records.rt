// The records of a file, one after another, until one is refused.

ghost use Rattle.std.specs.Prelude.{◌≡◌, Result, OnOk, length, true};
ghost use Rattle.std.specs.List.{list_all};
ghost use Rattle.std.specs.Str.{is_utf8};
ghost use Rattle.csv.specs.Records.{fields_of};
ghost use Rattle.day_text.specs.Causes.{Judges, Tells};
ghost use Rattle.day_text.specs.Records.{Row, is_blank_from, judge_record, judged, rows_of};
ghost use Rattle.day_text.specs.declared.refusal.Cause.{Cause};

use crate::fields::field;
use crate::refusal::{FileRefusal, RecordCause, RecordRefusal};
use csv::{ErrorKind, ReaderBuilder, StringRecord};
use std::alloc::Global;

/// What the records of a file say so far.
pub trait Progress: Drop {
    /// Where a record of eight fields leads, or why it is refused.
    ghost judge: { Self → Row → Result Self Cause };

    /// Takes a record of eight fields: it leads where `judge` says, or is refused for the cause that `judge` gives.
    fn take(self, alloc: Global, row: &StringRecord) -> Result<Self, RecordRefusal>
        ensures { Judges result (judge self (fields_of row.now)) };
}

/// Where the records of the bytes lead by the judge of the file, with the number of the row after the last; or the row
/// of the first record that is refused, and its cause.
pub fn read_records<P: Progress>(
    alloc: Global,
    start: P,
    bytes: &[u8],
) -> Result<(u64, P), FileRefusal>
    ensures { Tells result (judged P.judge 1 start (rows_of bytes.now)) }
{
    let reader = ReaderBuilder::new()
        .has_headers(false)
        .from_reader(alloc, bytes);
    let mut progress = start;
    let mut row: u64 = 1;
    'records: for record in reader.into_records() {
        match record {
            Ok(record) => match step(alloc, progress, &record) {
                Ok(next) => progress = next,
                Err(refusal) => return Err(refusal.at(row)),
            },
            Err(e) => match e.into_kind() {
                ErrorKind::Utf8 { .. } => return Err(no_record(row)),
                ErrorKind::UnequalLengths { .. } => return Err(no_record(row)),
                // A slice of bytes never fails and its records are counted: what is left is want of memory.
                _ => return Err(FileRefusal::NoMemory),
            },
        }
        row += 1;
    }
    Ok((row, progress))
}

// The refusal of what the reader refuses.
fn no_record(row: u64) -> FileRefusal
    ensures { result ≡ FileRefusal.Refused row (Cause.Bad RecordCause.Fields) }
{
    RecordRefusal::bad(RecordCause::Fields).at(row)
}

// Where a record leads.
fn step<P: Progress>(alloc: Global, progress: P, row: &StringRecord) -> Result<P, RecordRefusal>
    requires { list_all is_utf8 (fields_of row.now) ≡ true }
    ensures next { Judges result (judge_record P.judge progress (fields_of row.now)) }
    ensures eight { OnOk result (length (fields_of row.now) ≡ 8) }
{
    if row.len() != 8 {
        return Err(RecordRefusal::bad(RecordCause::Fields));
    }
    progress.take(alloc, row)
}

/// Whether the fields from this place on, counted from 0, are empty.
pub fn is_blank_from(row: &StringRecord, first: usize) -> bool
    ensures { result ≡ is_blank_from first (fields_of row.now) }
{
    for i in first..row.len() {
        if !field(row, i).is_empty() {
            return false;
        }
    }
    true
}
