// What a text that may be a day writes, and whether the calendar has it.

ghost use Rattle.std.specs.Prelude.{◌≡◌, ◌≤◌, ◌<◌, pos, slice_index, true, ◌-ℤ◌};
ghost use Rattle.std.specs.List.{list_all};
ghost use Rattle.std.specs.Char.{is_ascii_digit};
ghost use Rattle.jiff_core.specs.Calendar.{days_from_civil};
ghost use Rattle.permit_days.specs.Days.{day_of_month, digit_at, has_shape, is_day, month_of, day_number_of, or_zero, pair_at, year_of};

use jiff_core::civil::Date;

// Whether each of the bytes is a digit.
fn are_digits(bytes: &[u8]) -> bool
    ensures { result ≡ list_all is_ascii_digit bytes.now }
{
    bytes.iter().all(|b| b.is_ascii_digit())
}

/// Whether the text is four digits, `-`, two digits, `-` and two digits.
pub(crate) fn is_shaped(text: &[u8]) -> bool
    ensures { result ≡ has_shape text.now }
{
    text.len() == 10
        && are_digits(&text[..4])
        && text[4] == b'-'
        && are_digits(&text[5..7])
        && text[7] == b'-'
        && are_digits(&text[8..])
}

// What the digit at a place of a text of that shape stands for.
fn digit(text: &[u8], i: usize) -> u8
    requires shape { has_shape text.now ≡ true }
    requires within { i < 10 }
    ensures value { result ≡ digit_at text.now i }
    ensures small { result ≤ 9 }
{
    text[i].saturating_sub(b'0')
}

// The number that two digits of it write.
fn pair(text: &[u8], i: usize) -> u8
    requires shape { has_shape text.now ≡ true }
    requires within { i < 9 }
    ensures value { result ≡ pair_at text.now i }
    ensures small { result ≤ 99 }
{
    10 * digit(text, i) + digit(text, i + 1)
}

// The year that it writes.
fn year(text: &[u8]) -> u16
    requires { has_shape text.now ≡ true }
    ensures value { result ≡ year_of text.now }
    ensures small { result ≤ 9999 }
{
    100 * u16::from(pair(text, 0)) + u16::from(pair(text, 2))
}

// Whether the calendar has a day of this year, month and day of the month.
fn is_on_calendar(year: u16, month: u8, day: u8) -> bool
    requires years { year ≤ 9999 }
    requires months { month ≤ 99 }
    requires days { day ≤ 99 }
    ensures { result ≡ is_day year month day }
{
    year >= 1 && Date::new(year as i16, month as i8, day as i8).is_ok()
}

// The day number of this year, month and day of the month.
fn number_on_calendar(year: u16, month: u8, day: u8) -> i32
    requires { is_day year month day ≡ true }
    ensures { result ≡ days_from_civil (pos year) month day }
{
    let date = Date {
        year: year as i16,
        month,
        day,
    };
    date.to_unix_epoch_day()
}

/// Whether there is a day of the year, month and day that a text of that shape writes.
pub(crate) fn is_there(text: &[u8]) -> bool
    requires { has_shape text.now ≡ true }
    ensures { result ≡ is_day (year_of text.now) (month_of text.now) (day_of_month text.now) }
{
    is_on_calendar(year(text), pair(text, 5), pair(text, 8))
}

/// The day number of the day that a text writes.
pub(crate) fn number(text: &[u8]) -> i32
    requires shape { has_shape text.now ≡ true }
    requires there { is_day (year_of text.now) (month_of text.now) (day_of_month text.now) ≡ true }
    ensures { result ≡ day_number_of text.now }
{
    number_on_calendar(year(text), pair(text, 5), pair(text, 8))
}

/// How far the second number lies above the first; 0 where it does not.
pub(crate) fn days_above(first: i32, last: i32) -> u32
    ensures { result ≡ or_zero (last -ℤ first) }
{
    let days = i64::from(last) - i64::from(first);
    days.max(0) as u32
}
