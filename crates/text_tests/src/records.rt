ghost use Rattle.std.specs.Prelude.{Ok};
ghost use Rattle.day_text.specs.Causes.{◌>>=◌};
ghost use Rattle.day_text.specs.Records.{has_only, number_in};

use crate::fixtures::holds;
use axle_train::Axle;
use csv::StringRecord;
use day_text::{
    Cause, FileRefusal, Posted, Progress, RecordCause, RecordRefusal, has_only, number_in,
    parse_axles, parse_day, parse_name, parse_number, parse_posted, parse_routes, read_records,
};
use road_graph::What;
use std::alloc::Global;
use std::process::Abort;

// The number in the second field of the last record.
#[derive(Drop)]
struct Last {
    number: u32,
}

impl Progress for Last {
    ghost judge = { λ last row. has_only 2 row >>= (λ rest. number_in 2 row >>= (λ n. Ok (record { number = n }))) };

    fn take(self, _alloc: Global, row: &StringRecord) -> Result<Last, RecordRefusal> {
        has_only(row, 2)?;
        let number = number_in(row, 2)?;
        Ok(Last { number })
    }
}

// A text, the number of the row after its last, and the number that was read last.
const LED: [(&str, u64, u32); 4] = [
    ("", 1, 0),
    ("a,7,,,,,,", 2, 7),
    ("a,7,,,,,,\r\n\n\"b\",\"0012\",,,,,,\n", 3, 12),
    ("\u{feff}a,999999999,,,,,,\n", 2, 999_999_999),
];

#[test]
fn leads_through_all_records(rt: HostRuntime) {
    for &(text, rows, number) in &LED {
        let led = read_records(rt.alloc(), Last { number: 0 }, text.as_bytes());
        let (next, last) = led.expect(&rt, text);
        holds(&rt, (next, last.number) == (rows, number), text);
    }
}

// A text, the first of its rows that is refused, and why.
const STOPPED: [(&[u8], u64, RecordCause); 6] = [
    (b"a,7,,,,,\n", 1, RecordCause::Fields),
    (b"a,7,,,,,,\na,7,,,,,,,\n", 2, RecordCause::Fields),
    (b"a,7,,,,,,\n\xff,7,,,,,,\n", 2, RecordCause::Fields),
    (
        b"a,7,,,,,,\nb,,,,,,,\nc,7,x,,,,,\n",
        2,
        RecordCause::Field(2),
    ),
    (b"a,7,,,,,,\nb,7,,,,,,x\n", 2, RecordCause::Extra),
    (b"a,1234567890,,,,,,\n", 1, RecordCause::Field(2)),
];

#[test]
fn stops_at_the_first_record_that_is_refused(rt: HostRuntime) {
    for &(text, row, cause) in &STOPPED {
        let found = read_records(rt.alloc(), Last { number: 0 }, text).err();
        let cause = Cause::Bad(cause);
        assert_eq!(rt; found, Some(FileRefusal::Refused { row, cause }));
    }
}

// A text, and whether it is a name.
const NAMES: [(&str, bool); 7] = [
    ("A", true),
    ("a-b_C9", true),
    ("1234567890123456", true),
    ("12345678901234567", false),
    ("", false),
    ("a b", false),
    ("\u{e9}", false),
];

// A text, and the number that it writes.
const NUMBERS: [(&str, Option<u32>); 7] = [
    ("0", Some(0)),
    ("007", Some(7)),
    ("999999999", Some(999_999_999)),
    ("0000000001", None),
    ("", None),
    ("+1", None),
    ("1.", None),
];

// A text, whether it has the shape of a day, and whether there is such a day.
const DAYS: [(&str, bool, bool); 5] = [
    ("2026-03-02", true, true),
    ("2026-13-02", true, false),
    ("0000-01-01", true, false),
    ("2026-3-02", false, false),
    ("", false, false),
];

#[test]
fn reads_names_numbers_and_days(rt: HostRuntime) {
    for &(text, is_name) in &NAMES {
        holds(&rt, parse_name(text).is_some() == is_name, text);
    }
    for &(text, number) in &NUMBERS {
        holds(&rt, parse_number(text) == number, text);
    }
    for &(text, shaped, there) in &DAYS {
        let day = parse_day(text);
        holds(&rt, day.is_some() == shaped, text);
        holds(&rt, day.flatten().is_some() == there, text);
    }
}

// Texts that write no axles.
const NO_AXLES: [&str; 9] = [
    "", "0", "0:", ":1", "0:1:2", "0:1  2:3", "0:1 ", " 0:1", "0:1,2:3",
];

// Whether a text writes these axles.
fn are_axles(rt: &impl Abort, alloc: Global, text: &str, wanted: &[Axle]) -> bool {
    match parse_axles(alloc, text).expect(rt, "memory") {
        Some(axles) => axles.as_slice() == wanted,
        None => false,
    }
}

#[test]
fn reads_axles(rt: HostRuntime) {
    let two = [(0, 12_000), (180, 17_000)].map(|(place, weight)| Axle { place, weight });
    let text = "0:12000 180:17000";
    holds(&rt, are_axles(&rt, rt.alloc(), text, &two), text);
    for &text in &NO_AXLES {
        let found = parse_axles(rt.alloc(), text).expect(&rt, "memory");
        holds(&rt, found.is_none(), text);
    }
}

// A text, and whether it has the form of a route field.
const ROUTES: [(&str, bool); 18] = [
    ("", true),
    ("S1", true),
    ("S1 S2 S1", true),
    ("S1|S2 S3", true),
    ("S1|S1", true),
    ("A|B|C|D|E|F|G|H", true),
    ("A|B|C|D|E|F|G|H|I", false),
    (" ", false),
    ("S1  S2", false),
    ("S1 ", false),
    ("S1,S2", false),
    ("|", false),
    ("||", false),
    ("S1|", false),
    ("|S1", false),
    ("S1||S2", false),
    ("S1 |S2", false),
    ("S1| S2", false),
];

#[test]
fn reads_routes(rt: HostRuntime) {
    for &(text, is_field) in &ROUTES {
        holds(&rt, parse_routes(text).is_some() == is_field, text);
    }
}

// A text, and the limit that it names.
const LIMITS: [(&str, What); 7] = [
    ("closed", What::Closed),
    ("height", What::Height),
    ("width", What::Width),
    ("length", What::Length),
    ("gross", What::Gross),
    ("allowance", What::Allowance),
    ("tridem", What::Tridem),
];

// A text that names no limit, and what a posting of it replaces.
const NO_LIMITS: [(&str, Option<Posted>); 4] = [
    ("rating", Some(Posted::Rating)),
    ("Height", None),
    ("tridems", None),
    ("", None),
];

// What a text names as a limit, and as what a posting replaces.
fn named(text: &str) -> (Option<What>, Option<Posted>) {
    (What::of_word(text.as_bytes()), parse_posted(text))
}

#[test]
fn reads_what_a_posting_replaces(rt: HostRuntime) {
    for &(text, what) in &LIMITS {
        holds(
            &rt,
            named(text) == (Some(what), Some(Posted::Limit(what))),
            text,
        );
    }
    for &(text, posted) in &NO_LIMITS {
        holds(&rt, named(text) == (None, posted), text);
    }
}
