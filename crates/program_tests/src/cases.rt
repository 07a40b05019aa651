// The table of whole runs, and the test that runs them. A further case is a row, and costs no proof.

use crate::audits::is_legal;
use crate::days::Front;
use crate::journal_cases::{DAYS, HEARD, WRITTEN};
use crate::record_cases::RECORDS;
use crate::refusal_cases::{REFUSED, WORDS};
use crate::report_cases::{CHECKS, LOADINGS, REROUTES};
use crate::runs::{ends, hear, holds, joined, same};
use notice_desk::Recall;
use std::alloc::Global;
use std::process::Abort;
use std::sync::Wait;
use std::thread::Threads;

/// Who is told of recalls.
#[derive(Clone, Copy)]
pub(crate) enum Notices {
    Nobody,
    /// an object that hears of these: a line for each, of the permit, the version of the posting, and the carrier
    Told(&'static str),
    /// an object whose first call fails
    Unheard,
}

/// A run: its words, with `|` between them; what its input begins with, and the rest of it; the status; and the whole text that is
/// written.
pub(crate) type Case = (&'static str, Front, &'static str, u8, &'static str);

// A run ends as a row says.
fn ends_as_said<R: Abort + Threads + Wait + AllocGlobal + Sync>(
    rt: &R,
    case: &Case,
    notices: Notices,
) {
    let &(words, front, rest, status, text) = case;
    let input = joined(rt, rt.alloc(), front.text(), rest);
    let (ran, heard) = hear(rt, words, input.as_bytes(), notices, &[]);
    same(rt, &ran, status, text, input.as_str());
    drop(ran);
    drop(input);
    let told = match notices {
        Notices::Told(told) => told,
        _ => "",
    };
    holds(rt, lines_of(rt, rt.alloc(), &heard).as_str() == told, rest);
    drop(heard);
}

// A line for each recall.
fn lines_of(rt: &impl Abort, alloc: Global, recalls: &[Recall]) -> String {
    let mut lines = String::new(alloc);
    for recall in recalls {
        let (permit, version, carrier) = (recall.permit, recall.version, recall.carrier);
        write!(lines, "{permit} {version} {carrier}\n").expect(rt, "memory");
    }
    lines
}

// The record of each line is refused for what stands before it.
fn refuses_each<R: Abort + Threads + Wait + AllocGlobal + Sync>(
    rt: &R,
    words: &str,
    front: &str,
    row: u32,
    lines: &str,
) {
    for line in lines.lines() {
        let (cause, record) = line.split_once(": ").expect(rt, line);
        let input = format!(in rt.alloc(); "{front}{record}\n").expect(rt, "memory");
        let refused = format!(in rt.alloc(); "refused: record {row} {cause}\n");
        let refused = refused.expect(rt, "memory");
        ends(rt, words, input.as_bytes(), 5, refused.as_str());
        drop(refused);
        drop(input);
    }
}

fn end_as_said<R: Abort + Threads + Wait + AllocGlobal + Sync>(rt: &R, cases: &[Case]) {
    for case in cases {
        ends_as_said(rt, case, Notices::Nobody);
    }
}

fn are_legal<R: Abort + Threads + Wait + AllocGlobal + Sync>(rt: &R, days: &[Case]) {
    for &(_, front, rest, _, journal) in days {
        let day = joined(rt, rt.alloc(), front.text(), rest);
        is_legal(rt, journal.as_bytes(), day.as_bytes());
        drop(day);
    }
}

#[test]
fn runs_end_as_their_rows_say(rt: HostRuntime) {
    let days = DAYS.as_slice();
    end_as_said(&rt, days);
    are_legal(&rt, days);
    end_as_said(&rt, &WRITTEN);
    for &(case, notices) in &HEARD {
        ends_as_said(&rt, &case, notices);
    }
    end_as_said(&rt, &CHECKS);
    end_as_said(&rt, &LOADINGS);
    end_as_said(&rt, &REROUTES);
    end_as_said(&rt, &WORDS);
    end_as_said(&rt, &REFUSED);
    for &(words, front, row, lines) in &RECORDS {
        refuses_each(&rt, words, front.text(), row, lines);
    }
}
