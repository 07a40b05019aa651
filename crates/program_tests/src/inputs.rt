// Day files as they come in: what is read of them, cut off anywhere, and with as much as is allowed and one more.

use crate::days::{
    ANNUAL, BEGUN_MARKED, BEGUN_RETURNED, BEGUN_TRIP, BEGUN_TRIP_JOURNAL, Front, GIVEN_BACK,
    ISSUED, ISSUED_JOURNAL, OVER_ALLOWANCE, RATED, RECALLING,
};
use crate::runs::{ends, holds, joined, run_words};
use day_text::{Order, read_day};
use office_words::Command;
use std::alloc::Global;
use std::process::Abort;
use std::sync::Wait;
use std::thread::Threads;

// The kind of a command by a letter.
fn letter(command: &Command) -> u8 {
    match command {
        Command::Apply(_) => b'a',
        Command::Post(_) => b'p',
        Command::Day(_) => b'd',
        Command::Surrender(_) => b'g',
        Command::Show(_) => b's',
    }
}

// Whether these are the kinds of the commands in their order.
fn are_kinds(orders: &[Order], letters: &[u8]) -> bool {
    if orders.len() != letters.len() {
        return false;
    }
    for at in 0..orders.len() {
        if letter(&orders[at].command) != letters[at] {
            return false;
        }
    }
    true
}

// What a day begins with, and the rest of it; how many nodes, segments, spans, trucks and actors it has; and the kinds of its commands.
type Read = (Front, &'static str, [usize; 5], &'static str);

const READ: [Read; 8] = [
    (Front::Load, RECALLING, [2, 1, 0, 2, 1], "aapsp"),
    (Front::Load, GIVEN_BACK, [2, 1, 0, 1, 1], "adggs"),
    (Front::Road, OVER_ALLOWANCE, [2, 1, 0, 1, 1], "a"),
    (Front::Road, RATED, [2, 1, 1, 1, 1], "apa"),
    (Front::Ways, ANNUAL, [3, 3, 0, 1, 1], "ap"),
    // as it is, behind a byte order mark, and with lines that end with two bytes
    (Front::Begun, BEGUN_TRIP, [3, 2, 1, 1, 1], "a"),
    (Front::Nothing, BEGUN_MARKED, [3, 2, 1, 1, 1], "a"),
    (Front::Nothing, BEGUN_RETURNED, [3, 2, 1, 1, 1], "a"),
];

// A day file of 2 March 2026 is read as a row says.
fn is_read(rt: &impl Abort, alloc: Global, read: &Read) {
    let &(front, rest, wanted, letters) = read;
    let text = joined(rt, alloc, front.text(), rest);
    let file = read_day(alloc, text.as_bytes()).expect(rt, letters);
    let date = file.day().text();
    let network = file.base().network();
    let found = [
        network.nodes() as usize,
        network.segments() as usize,
        network.spans() as usize,
        file.base().fleet().len(),
        file.actors().len(),
    ];
    let are_kinds = are_kinds(file.commands(), letters.as_bytes());
    drop(file);
    let is_day = date.as_slice() == b"2026-03-02".as_slice();
    holds(rt, is_day && found == wanted && are_kinds, text.as_str());
    drop(text);
}

#[test]
fn reads_what_each_day_has(rt: HostRuntime) {
    for read in &READ {
        is_read(&rt, rt.alloc(), read);
    }
}

// A front of a day file is taken where it is the whole, or lacks just the last line feed; of any other a record is refused.
fn ends_cut<R: Abort + Threads + Wait + AllocGlobal + Sync>(
    rt: &R,
    front: &[u8],
    left: usize,
    output: &str,
) {
    if left <= 1 {
        ends(rt, "day", front, 0, output);
    } else {
        let ran = run_words(rt, "day", front, &[], &[]);
        let is_refused = ran.text.starts_with(b"refused: record ");
        assert!(rt; ran.status == 5 && is_refused, "{left}");
    }
}

// Each front of a day ends so.
fn ends_cut_anywhere<R: Abort + Threads + Wait + AllocGlobal + Sync>(
    rt: &R,
    front: Front,
    rest: &str,
    output: &str,
) {
    let input = joined(rt, rt.alloc(), front.text(), rest);
    let bytes = input.as_bytes();
    for length in 0..=bytes.len() {
        ends_cut(rt, &bytes[..length], bytes.len() - length, output);
    }
}

#[test]
fn refuses_each_front_of_a_day(rt: HostRuntime) {
    ends_cut_anywhere(&rt, Front::Load, ISSUED, ISSUED_JOURNAL);
    ends_cut_anywhere(&rt, Front::Begun, BEGUN_TRIP, BEGUN_TRIP_JOURNAL);
}

// Bytes that are no text, and the line.
const NO_TEXTS: [(&[u8], &str); 2] = [
    (b"\x1f\x8b\x08", "refused: record 1 fields\n"),
    (
        b"day,2026-03-02,,,,,,\nnode,\xff,,,,,,\n",
        "refused: record 2 fields\n",
    ),
];

// A text of many lines: what stands before them, in each before its number and behind it, how many there are, where the numbers
// begin with 0, and what stands after them.
type Many = (&'static str, &'static str, &'static str, u32, &'static str);

fn many(rt: &impl Abort, alloc: Global, many: &Many) -> String {
    let &(front, before, after, count, end) = many;
    let mut text = front.to_string(alloc).expect(rt, "memory");
    for i in 0..count {
        write!(text, "{before}{i}{after}\n").expect(rt, "memory");
    }
    text.push_str(end).expect(rt, "memory");
    text
}

// A day record and one actor.
const NOTHING_BEGUN: &str = "day,2026-03-02,,,,,,\nactor,ann,,,,,,\n";

// Records behind those nine, of which one more than are allowed is refused, and the line.
const ONE_MORE: [(Many, &str); 6] = [
    (
        ("", "node,n", ",,,,,,", 4_094, ""),
        "refused: record 4103 nodes\n",
    ),
    (
        ("", "segment,s", ",A,A,1,,,", 16_383, ""),
        "refused: record 16392 segments\n",
    ),
    (
        ("", "span,p", ",S,1,0,,,", 16, ""),
        "refused: record 25 spans-of-segment\n",
    ),
    (
        ("", "truck,t", ",ACME,1,1,1,0:1 1:1,", 64, ""),
        "refused: record 73 trucks\n",
    ),
    (
        ("", "actor,a", ",,,,,,", 16, ""),
        "refused: record 25 actors\n",
    ),
    (
        ("", "show,ann,", ",,,,,", 4_097, ""),
        "refused: record 4106 commands\n",
    ),
];

// Behind a day record and one actor, a command too many; and as many as are allowed, with the journal.
const TOO_MANY: Many = (NOTHING_BEGUN, "show,ann,", ",,,,,", 4_097, "");

const ALLOWED: Many = (NOTHING_BEGUN, "show,ann,", ",,,,,", 4_096, "end,,,,,,,\n");

const ANSWERED: Many = (
    "permit-journal 3\n",
    "1 show ",
    " = unknown",
    4_096,
    "end 4096\n",
);

// 129 segments, 128 of them with 16 spans each and the last with one.
fn spans(rt: &impl Abort, alloc: Global) -> String {
    let front = "day,2026-03-02,,,,,,\nnode,A,,,,,,\n";
    let mut text = many(rt, alloc, &(front, "segment,s", ",A,A,1,,,", 129, ""));
    for i in 0..2_049u32 {
        let segment = i / 16;
        write!(text, "span,p{i},s{segment},1,0,,,\n").expect(rt, "memory");
    }
    text
}

#[test]
fn refuses_what_is_no_text(rt: HostRuntime) {
    for &(bytes, line) in &NO_TEXTS {
        ends(&rt, "day", bytes, 5, line);
    }
}

#[test]
fn refuses_one_record_more_than_are_allowed(rt: HostRuntime) {
    for (records, line) in &ONE_MORE {
        let records = many(&rt, rt.alloc(), records);
        let day = joined(&rt, rt.alloc(), Front::Begun.text(), records.as_str());
        ends(&rt, "day", day.as_bytes(), 6, line);
    }
    let day = spans(&rt, rt.alloc());
    ends(
        &rt,
        "day",
        day.as_bytes(),
        6,
        "refused: record 2180 spans\n",
    );
}

#[test]
fn carries_out_4096_commands_and_refuses_one_more(rt: HostRuntime) {
    let day = many(&rt, rt.alloc(), &ALLOWED);
    let journal = many(&rt, rt.alloc(), &ANSWERED);
    ends(&rt, "day", day.as_bytes(), 0, journal.as_str());
    let day = many(&rt, rt.alloc(), &TOO_MANY);
    ends(
        &rt,
        "day",
        day.as_bytes(),
        6,
        "refused: record 4099 commands\n",
    );
}

// One byte more than a file may have.
#[test]
fn refuses_too_many_bytes(rt: HostRuntime) {
    let input = vec![in rt.alloc(); b'x'; 4_194_305].expect(&rt, "memory");
    for word in ["check", "day"] {
        ends(&rt, word, input.as_slice(), 6, "refused: bytes\n");
    }
    drop(input);
}
