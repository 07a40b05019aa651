// The fields of a record, and the forms that many of them have: a name, a number, a day.

ghost use Rattle.std.specs.Prelude.{◌≡◌};
ghost use Rattle.std.specs.List.{list_all};
ghost use Rattle.std.specs.Char.{is_ascii_digit};
ghost use Rattle.csv.specs.Records.{fields_of};
ghost use Rattle.day_text.specs.Fields.{day_field, field_of, name_field, number_field};

use csv::StringRecord;
use names::Name;
use permit_days::{Day, DayRefusal};

/// The field at a place, counted from 0; empty where there is none.
pub fn field(row: &StringRecord, i: usize) -> &str
    ensures { result.now ≡ field_of (fields_of row.now) i }
{
    row.get(i).unwrap_or("")
}

/// The name that a text is, or `None` where it is none.
pub fn parse_name(text: &str) -> Option<Name>
    ensures { result ≡ name_field text.now }
{
    Name::new(text.as_bytes()).ok()
}

/// The number of one to nine digits that a text is, or `None` where it is none.
#[tactic(auto, unfolding(crate::specs::Fields::number_field))]
pub fn parse_number(text: &str) -> Option<u32>
    ensures { result ≡ number_field text.now }
{
    if text.is_empty() || text.len() > 9 || !are_digits(text) {
        return None;
    }
    text.parse().ok()
}

/// A text of the form of a day: the day, or none where the calendar lacks it.
pub fn parse_day(text: &str) -> Option<Option<Day>>
    ensures { result ≡ day_field text.now }
{
    match Day::read(text.as_bytes()) {
        Ok(day) => Some(Some(day)),
        Err(DayRefusal::NoSuchDay) => Some(None),
        Err(DayRefusal::Shape) => None,
    }
}

// Whether each byte is a decimal digit of ASCII.
fn are_digits(text: &str) -> bool
    ensures { result ≡ list_all is_ascii_digit text.now }
{
    text.as_bytes().iter().all(|b| b.is_ascii_digit())
}
