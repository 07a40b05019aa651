// What a record has to keep: each demand is met, or gives the cause for which the record is refused.

ghost use Rattle.std.specs.Prelude.{◌≡◌, ◌≤◌, IfOk, Some};
ghost use Rattle.csv.specs.Records.{fields_of};
ghost use Rattle.day_text.specs.Causes.{demand, limit, or_bad};
ghost use Rattle.day_text.specs.Records.{day_in, has_only, name_in, number_in};

use crate::fields::{field, parse_day, parse_name, parse_number};
use crate::records::is_blank_from;
use crate::refusal::{Cause, Kind, RecordCause};
use csv::StringRecord;
use names::Name;
use permit_days::Day;

/// Where a test fails, the record is bad for this cause.
pub fn demand(holds: bool, cause: RecordCause) -> Result<(), Cause>
    ensures { result ≡ demand holds cause }
{
    if holds {
        Ok(())
    } else {
        Err(Cause::Bad(cause))
    }
}

/// Where a test fails, there is one too many of this kind.
pub fn limit(holds: bool, kind: Kind) -> Result<(), Cause>
    ensures { result ≡ limit holds kind }
{
    if holds {
        Ok(())
    } else {
        Err(Cause::TooMany(kind))
    }
}

/// The value that there is, or else the record is bad for this cause.
pub fn or_bad<T>(found: Option<T>, cause: RecordCause) -> Result<T, Cause>
    ensures value { result ≡ or_bad cause found }
    ensures found { IfOk result (λ value. found ≡ Some value) }
{
    match found {
        Some(value) => Ok(value),
        None => Err(Cause::Bad(cause)),
    }
}

/// A record of so many fields, the kind among them: those behind are empty, or else it has extra ones.
pub fn has_only(row: &StringRecord, count: usize) -> Result<(), Cause>
    ensures { result ≡ has_only count (fields_of row.now) }
{
    demand(is_blank_from(row, count), RecordCause::Extra)
}

/// The name in a field, counted from 1, or else that field is bad.
pub fn name_in(row: &StringRecord, number: u32) -> Result<Name, Cause>
    requires { 1 ≤ number }
    ensures { result ≡ name_in number (fields_of row.now) }
{
    let found = parse_name(field(row, number as usize - 1));
    or_bad(found, RecordCause::Field(number))
}

/// The number in a field, counted from 1, or else that field is bad.
pub fn number_in(row: &StringRecord, number: u32) -> Result<u32, Cause>
    requires { 1 ≤ number }
    ensures { result ≡ number_in number (fields_of row.now) }
{
    let found = parse_number(field(row, number as usize - 1));
    or_bad(found, RecordCause::Field(number))
}

/// The day in a field, counted from 1; none where the calendar lacks it. A text of another form makes that
/// field bad.
pub fn day_in(row: &StringRecord, number: u32) -> Result<Option<Day>, Cause>
    requires { 1 ≤ number }
    ensures { result ≡ day_in number (fields_of row.now) }
{
    let found = parse_day(field(row, number as usize - 1));
    or_bad(found, RecordCause::Field(number))
}
