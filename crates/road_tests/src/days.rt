use crate::fixtures::{day, holds, same};
use permit_days::{Day, DayRefusal};
use std::alloc::Global;
use std::process::Abort;

// Texts that write a day.
const DAYS: [&str; 6] = [
    "1970-01-01",
    "2026-03-02",
    "0001-01-01",
    "0001-12-31",
    "9999-12-31",
    "2024-02-29",
];

// Texts that write none, and why not.
const REFUSED: [(&str, DayRefusal); 14] = [
    ("0000-01-01", DayRefusal::NoSuchDay),
    ("0000-12-31", DayRefusal::NoSuchDay),
    ("2026-00-02", DayRefusal::NoSuchDay),
    ("2026-13-02", DayRefusal::NoSuchDay),
    ("2026-03-00", DayRefusal::NoSuchDay),
    ("2023-02-29", DayRefusal::NoSuchDay),
    ("9999-12-32", DayRefusal::NoSuchDay),
    ("2024-2-29", DayRefusal::Shape),
    ("", DayRefusal::Shape),
    ("2024-02-029", DayRefusal::Shape),
    ("2024/02/29", DayRefusal::Shape),
    ("+024-02-28", DayRefusal::Shape),
    ("2024-0a-28", DayRefusal::Shape),
    ("0000-1-01", DayRefusal::Shape),
];

// A day is written as it was read.
fn is_written(rt: &impl Abort, alloc: Global, text: &str) {
    let day = day(rt, text);
    let written = day.to_string(alloc).expect(rt, "memory");
    let is_text = written.as_str() == text;
    drop(written);
    let is_same = is_text && day.text().as_slice() == text.as_bytes();
    holds(rt, is_same, text);
}

#[test]
fn reads_a_day_or_says_why_not(rt: HostRuntime) {
    for &text in &DAYS {
        is_written(&rt, rt.alloc(), text);
    }
    for &(text, refusal) in &REFUSED {
        holds(&rt, Day::read(text.as_bytes()).err() == Some(refusal), text);
    }
}

const RISING: [&str; 6] = [
    "0999-12-31",
    "2025-12-31",
    "2026-01-02",
    "2026-01-10",
    "2026-09-01",
    "2026-10-01",
];

// Of two days of that list.
fn are_in_order(rt: &impl Abort, i: usize, j: usize) {
    let (a, b) = (day(rt, RISING[i % 6]), day(rt, RISING[j % 6]));
    let orders = (a < b, a == b, a.number() < b.number());
    assert!(rt; orders == (i < j, i == j, i < j), "{i} {j}");
}

#[test]
fn orders_days_by_year_then_month_then_day(rt: HostRuntime) {
    for i in 0..6 {
        for j in 0..6 {
            are_in_order(&rt, i, j);
        }
    }
}

// Numbers that the days of other calendars programs have: days since 1970-01-01 in the proleptic Gregorian calendar.
const NUMBERED: [(&str, i32); 6] = [
    ("1970-01-01", 0),
    ("1969-12-31", -1),
    ("2024-02-29", 19_782),
    ("2000-03-01", 11_017),
    ("0001-01-01", -719_162),
    ("9999-12-31", 2_932_896),
];

#[test]
fn numbers_days_from_1970(rt: HostRuntime) {
    for &(text, number) in &NUMBERED {
        holds(&rt, day(&rt, text).number() == number, text);
    }
}

// Every fourth year has a leap day, but of the years that end a century only every fourth.
fn is_leap_year(year: u16) -> bool {
    year % 4 == 0 && (year % 100 != 0 || year % 400 == 0)
}

// Thirty days have September, April, June and November.
fn month_length(year: u16, month: u16) -> u16 {
    match month {
        2 if is_leap_year(year) => 29,
        2 => 28,
        4 | 6 | 9 | 11 => 30,
        _ => 31,
    }
}

// The last digit of a number.
fn digit(number: u16) -> u8 {
    b'0' + (number % 10) as u8
}

// What is read where this year, month and day of the month are written.
fn read(year: u16, month: u16, day: u16) -> Result<Day, DayRefusal> {
    Day::read(&[
        digit(year / 1000),
        digit(year / 100),
        digit(year / 10),
        digit(year),
        b'-',
        digit(month / 10),
        digit(month),
        b'-',
        digit(day / 10),
        digit(day),
    ])
}

// That what was read is the day after the one of this number, or that there is no such day. The number of the last day then.
fn goes_on(rt: &impl Abort, found: Result<Day, DayRefusal>, is_there: bool, before: i32) -> i32 {
    let (last, is_right) = match found {
        Ok(day) => (
            day.number(),
            is_there && Some(day.number()) == before.checked_add(1),
        ),
        Err(refusal) => (before, !is_there && refusal == DayRefusal::NoSuchDay),
    };
    assert!(rt; is_right, "after {before}");
    last
}

// That a month of the year has just its days, whose numbers go on after this one, and gives the last.
fn month_goes_on(rt: &impl Abort, year: u16, month: u16, before: i32) -> i32 {
    let mut last = before;
    for day in 0..33 {
        let is_there = 1 <= day && day <= month_length(year, month);
        last = goes_on(rt, read(year, month, day), is_there, last);
    }
    last
}

// Of the years 1900, 2000 and 2100 only 2000 has a leap day.
#[test]
fn keeps_the_calendar_of_1896_to_2104(rt: HostRuntime) {
    // 1895-12-31: 74 years before 1970, of which 18 have a leap day.
    let mut last = -27_029;
    for year in 1896..2105 {
        for month in 1..13 {
            last = month_goes_on(&rt, year, month, last);
        }
    }
    // 2104-12-31: 135 years from 1970 on, of which 33 have a leap day.
    assert_eq!(rt; last, 49_307);
}

// A first day, a last one, and how many days it lies after the first. All years together have 3,652,059 days.
const BETWEEN: [(&str, &str, u32); 7] = [
    ("2026-03-02", "2026-03-02", 0),
    ("2026-03-03", "2026-03-02", 0),
    ("2026-03-02", "2027-03-02", 365),
    ("2026-03-02", "2027-03-03", 366),
    ("2024-02-28", "2025-02-28", 366),
    ("1969-12-31", "1970-01-01", 1),
    ("0001-01-01", "9999-12-31", 3_652_058),
];

#[test]
fn counts_the_days_between_two(rt: HostRuntime) {
    for (row, &(first, last, days)) in BETWEEN.iter().enumerate() {
        let since = day(&rt, last).days_since(day(&rt, first));
        same(&rt, row, since, days);
    }
}
