// Days that are made from a number, for the tests: run, audited, and read back from their journals.

use crate::audits::is_legal;
use crate::runs::run_words;
use day_text::{Order, read_day};
use journal_reader::read;
use journal_text::print;
use office_words::{Call, Command, Entry, Reply};
use std::alloc::Global;
use std::process::Abort;

// Whether an entry can be one of those that carry out the command.
fn carries_out(entry: &Entry, command: &Command) -> bool {
    match (&entry.call, command) {
        (Call::Snapshot, Command::Apply(_)) => true,
        (Call::Submit { application, .. }, Command::Apply(wanted)) => {
            application.truck() == wanted.truck()
        }
        (Call::Held { application }, Command::Apply(wanted)) => {
            application.truck() == wanted.truck()
        }
        (Call::Post { change }, Command::Post(wanted)) => change == wanted,
        _ => false,
    }
}

// Whether an entry is the last of its command: no look at the roads, and no answer that is out of date.
fn is_last(entry: &Entry) -> bool {
    !matches!(&entry.call, Call::Snapshot) && !matches!(&entry.reply, Reply::Outdated { .. })
}

// The place of the actor's first command in the list from this place on, or the list's length.
fn next_of(orders: &[Order], actor: u32, from: usize) -> usize {
    for at in from..orders.len() {
        if orders[at].actor == actor {
            return at;
        }
    }
    orders.len()
}

// Whether the entries of the actor carry out its commands, each once and in their order.
fn has_carried_out(history: &[Entry], orders: &[Order], actor: u32) -> bool {
    let mut at = next_of(orders, actor, 0);
    for entry in history {
        if entry.caller == actor {
            if at >= orders.len() || !carries_out(entry, &orders[at].command) {
                return false;
            }
            if is_last(entry) {
                at = next_of(orders, actor, at + 1);
            }
        }
    }
    at == orders.len()
}

// Whether the first four actors have, and no other did anything.
fn have_carried_out(history: &[Entry], orders: &[Order]) -> bool {
    for actor in 0..4u32 {
        if !has_carried_out(history, orders, actor) {
            return false;
        }
    }
    history.iter().all(|entry| entry.caller < 4)
}

// The history that a journal tells, which is printed again to the same bytes.
fn read_back(rt: &impl Abort, alloc: Global, journal: &[u8]) -> Vec<Entry> {
    let history = read(alloc, journal).expect(rt, "a journal");
    let printed = print(alloc, &history).expect(rt, "memory");
    assert!(rt; printed.as_slice() == journal);
    history
}

// That in a history each actor's commands of a day of 100 stand once in their order.
fn is_of_day(rt: &impl Abort, alloc: Global, history: &[Entry], day: &[u8]) {
    let file = read_day(alloc, day).expect(rt, "a day file");
    let (count, done) = (
        file.commands().len(),
        have_carried_out(history, file.commands()),
    );
    drop(file);
    assert!(rt; count == 100 && done);
}

// A made day of 36 nodes, 120 segments, 30 spans, 4 trucks, three analysts, an engineer and 100 commands, run on threads: an
// audit judges each entry of its journal legal, the journal is read back and printed again, and in it each actor's commands
// stand once in their order.
#[test]
fn runs_a_made_day_and_reads_it_back(rt: HostRuntime) {
    let made = run_words(&rt, "make|--seed|7|--size|5", &[], &[], &[]);
    let ran = run_words(&rt, "day", made.text.as_slice(), &[], &[]);
    assert_eq!(rt; (made.status, ran.status), (0, 0));
    let history = read_back(&rt, rt.alloc(), ran.text.as_slice());
    is_legal(&rt, ran.text.as_slice(), made.text.as_slice());
    is_of_day(&rt, rt.alloc(), &history, made.text.as_slice());
    drop(history);
}

// How many postings and how many applications a day has.
fn counts(rt: &impl Abort, alloc: Global, day: &[u8]) -> (usize, usize) {
    let file = read_day(alloc, day).expect(rt, "a day file");
    let (mut posts, mut applies) = (0_usize, 0_usize);
    for order in file.commands() {
        match &order.command {
            Command::Post(_) => posts = posts.wrapping_add(1),
            Command::Apply(_) => applies = applies.wrapping_add(1),
            _ => {}
        }
    }
    drop(file);
    (posts, applies)
}

// How many lines a text has.
fn lines_in(text: &[u8]) -> usize {
    let mut count = 0_usize;
    for byte in text {
        if *byte == b'\n' {
            count = count.wrapping_add(1);
        }
    }
    count
}

// On one thread nothing comes between a look at the roads and its submit: a posting is one entry and an application two.
#[test]
fn sums_up_a_made_day(rt: HostRuntime) {
    let day = run_words(&rt, "make", &[], &[], &[]);
    let (posts, applies) = counts(&rt, rt.alloc(), day.text.as_slice());
    let made = day.status;
    drop(day);
    let entries = posts.saturating_add(applies.saturating_mul(2));
    let first = format!(in rt.alloc(); "entries {entries}\n").expect(&rt, "memory");
    let summed = run_words(&rt, "trial", &[], &[], &[]);
    let is_first = summed.text.starts_with(first.as_bytes());
    let lines = lines_in(summed.text.as_slice());
    let status = summed.status;
    drop(summed);
    assert_eq!(rt; (made, status, lines), (0, 0, 7));
    assert!(rt; is_first && posts <= 20 && applies <= 20);
}

// A seed and a size of 1 are what no words ask for.
#[test]
fn sums_up_the_same_day(rt: HostRuntime) {
    let one = run_words(&rt, "trial", &[], &[], &[]);
    let other = run_words(&rt, "trial|--seed=1|--size=1", &[], &[], &[]);
    assert_eq!(rt; (one.status, other.status), (0, 0));
    assert!(rt; one.text.as_slice() == other.text.as_slice());
}
