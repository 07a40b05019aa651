// Days of actors at work at once: two who meet between what the one finds and its submit, and sixteen.

use crate::audits::is_legal;
use crate::days::{
    BOTH, BOTH_ISSUED, Front, MEETING, MEETING_JOURNAL, OVERTAKING, OVERTAKING_JOURNAL,
};
use crate::runs::{joined, run_at, run_words, same};
use analyst_pool::Gate;
use journal_reader::read;
use office_words::{Call, Entry, Reply};
use std::process::Abort;
use std::sync::Wait;
use std::sync::atomic::{AtomicU64, Ordering};
use std::thread::{Threads, yield_now};

// A gate at which the second actor waits, ahead of each of its commands, until the first has found what to propose once more;
// and the first, ahead of each submit, until the second has the reply to its next command, while it has one. A wait that is too
// long marks the gate.
#[derive(Drop)]
struct Meeting {
    // how many commands the second actor has
    commands: u64,
    found: AtomicU64,
    answered: AtomicU64,
    failed: AtomicU64,
}

impl Meeting {
    fn new(commands: u64) -> Meeting {
        Meeting {
            commands,
            found: AtomicU64::new(0),
            answered: AtomicU64::new(0),
            failed: AtomicU64::new(0),
        }
    }

    // Waits until so many were told.
    fn wait_for(&self, told: &AtomicU64, wanted: u64) {
        for _ in 0..100_000_000u64 {
            if told.load(Ordering::SeqCst) >= wanted {
                return;
            }
            yield_now();
        }
        self.failed.store(1, Ordering::SeqCst);
    }
}

impl Gate for Meeting {
    fn before(&self, actor: u32, command: u32) {
        if actor == 1 {
            self.wait_for(&self.found, u64::from(command) + 1);
        }
    }

    fn between(&self, actor: u32, _command: u32, attempt: u32) {
        if actor == 0 {
            let attempt = u64::from(attempt);
            self.found.store(attempt, Ordering::SeqCst);
            self.wait_for(&self.answered, attempt.min(self.commands));
        }
    }

    fn answered(&self, actor: u32, command: u32) {
        if actor == 1 {
            self.answered
                .store(u64::from(command) + 1, Ordering::SeqCst);
        }
    }
}

// The second actor has so many commands, and its postings come between what the first finds and its submits; an audit judges the
// journal legal.
fn meets<R: Abort + Threads + Wait + AllocGlobal + Sync>(
    rt: &R,
    rest: &str,
    commands: u64,
    journal: &str,
) {
    let input = joined(rt, rt.alloc(), Front::Load.text(), rest);
    let gate = Meeting::new(commands);
    let ran = run_at(rt, "day", input.as_bytes(), &[], &[], &gate);
    assert!(rt; gate.failed.load(Ordering::SeqCst) == 0);
    same(rt, &ran, 0, journal, rest);
    drop(ran);
    is_legal(rt, journal.as_bytes(), input.as_bytes());
    drop(input);
}

// Another posts between what an actor finds and its submit, which only actors at work at once can come to: once, and at each of
// the eight attempts, after which the office finds a route itself.
#[test]
fn posts_while_another_analyses(rt: HostRuntime) {
    meets(&rt, MEETING, 1, MEETING_JOURNAL);
    meets(&rt, OVERTAKING, 8, OVERTAKING_JOURNAL);
}

// Keeps each of two actors ahead of its command, and behind what it found for it, until the other has come as far. A wait that
// is too long marks the gate.
#[derive(Drop)]
struct Together {
    came: AtomicU64,
    failed: AtomicU64,
}

impl Together {
    // One more has come. Waits until so many have.
    fn wait_for(&self, wanted: u64) {
        self.came.fetch_add(1, Ordering::SeqCst);
        for _ in 0..100_000_000u64 {
            if self.came.load(Ordering::SeqCst) >= wanted {
                return;
            }
            yield_now();
        }
        self.failed.store(1, Ordering::SeqCst);
    }
}

impl Gate for Together {
    fn before(&self, _actor: u32, _command: u32) {
        self.wait_for(2);
    }

    fn between(&self, _actor: u32, _command: u32, _attempt: u32) {
        self.wait_for(4);
    }

    fn answered(&self, _actor: u32, _command: u32) {
        self.came.fetch_add(1, Ordering::SeqCst);
    }
}

// Each actor begins before the other has what it proposes, and has that before the other submits.
#[test]
fn two_actors_find_what_they_propose_at_once(rt: HostRuntime) {
    let gate = Together {
        came: AtomicU64::new(0),
        failed: AtomicU64::new(0),
    };
    let input = joined(&rt, rt.alloc(), Front::Load.text(), BOTH);
    let ran = run_at(&rt, "day", input.as_bytes(), &[], &[], &gate);
    drop(input);
    let came = gate.came.load(Ordering::SeqCst);
    assert!(rt; ran.status == 0 && came == 6 && gate.failed.load(Ordering::SeqCst) == 0);
    let mut is_issued = false;
    for &journal in &BOTH_ISSUED {
        is_issued |= ran.text.as_slice() == journal.as_bytes();
    }
    assert!(rt; is_issued);
}

// A day of sixteen actors, of whom those of even index ask for a permit that nobody has and the others ask for nothing.
const SIXTEEN: &str = "\
day,2026-03-02,,,,,,
actor,a1,,,,,,
actor,a2,,,,,,
actor,a3,,,,,,
actor,a4,,,,,,
actor,a5,,,,,,
actor,a6,,,,,,
actor,a7,,,,,,
actor,a8,,,,,,
actor,a9,,,,,,
actor,a10,,,,,,
actor,a11,,,,,,
actor,a12,,,,,,
actor,a13,,,,,,
actor,a14,,,,,,
actor,a15,,,,,,
actor,a16,,,,,,
show,a1,0,,,,,
show,a3,0,,,,,
show,a5,0,,,,,
show,a7,0,,,,,
show,a9,0,,,,,
show,a11,0,,,,,
show,a13,0,,,,,
show,a15,0,,,,,
end,,,,,,,
";

// How many entries say that this actor asked for permit 0, which is unknown.
fn asked_in_vain(history: &[Entry], actor: u32) -> usize {
    let mut count = 0_usize;
    for entry in history {
        let is_asked = matches!(&entry.call, Call::Show { number: 0 });
        if entry.caller == actor && is_asked && matches!(&entry.reply, Reply::Unknown) {
            count = count.wrapping_add(1);
        }
    }
    count
}

// Their entries come in any order.
#[test]
fn runs_sixteen_actors(rt: HostRuntime) {
    let ran = run_words(&rt, "day", SIXTEEN.as_bytes(), &[], &[]);
    assert_eq!(rt; ran.status, 0);
    let history = read(rt.alloc(), ran.text.as_slice()).expect(&rt, "a journal");
    drop(ran);
    assert_eq!(rt; history.len(), 8);
    for actor in [0u32, 2, 4, 6, 8, 10, 12, 14] {
        assert!(rt; asked_in_vain(&history, actor) == 1, "actor {actor}");
    }
    drop(history);
}
