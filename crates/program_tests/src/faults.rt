// Runs whose reads or writes fail in turn, and what only calls show of a run and of those who are told of recalls.

use crate::cases::Notices;
use crate::days::{Front, ISSUED, RECALLING, RECALLING_JOURNAL};
use crate::report_cases::FHWA;
use crate::runs::{bytes_of, hear, joined, list_of, run_words, same, sink_of, source_of};
use names::Name;
use notice_desk::{Notice, Recall};
use permit_program::{Alone, LineNotice, run_alone};
use std::alloc::Global;
use std::process::Abort;
use std::sync::Wait;
use std::thread::Threads;

// Which read and which write of a run fails, where the numbers begin with 1 and 0 is none, and the status. A run over so short an
// input makes two reads and one write.
const FAULTS: [(u32, u32, u8); 5] = [(1, 0, 3), (2, 0, 3), (3, 0, 0), (0, 1, 4), (0, 2, 0)];

// Words, and an input: what it begins with, and the rest of it.
type Words = (&'static str, Front, &'static str);

const ANSWERED: [Words; 5] = [
    ("check", Front::Nothing, FHWA),
    ("design", Front::Hs20, PROBE),
    ("convoy", Front::Hs20, PROBE),
    ("day", Front::Load, ISSUED),
    ("reroute", Front::Load, RECALLING),
];

// What is refused, and how: the status stays though the line is not written.
const REFUSED: [(Words, (u32, u32, u8)); 3] = [
    (("day", Front::Nothing, ""), (0, 1, 5)),
    (("convoy|--gap|2500", Front::Nothing, FHWA), (0, 1, 5)),
    (("", Front::Nothing, FHWA), (1, 1, 2)),
];

// A span for the HS20-44 truck, and the end.
const PROBE: &str = "probe,240,963,,,,,\nend,,,,,,,\n";

// Nothing is written but where all is done.
fn ends_at<R: Abort + Threads + Wait + AllocGlobal + Sync>(
    rt: &R,
    words: Words,
    fault: (u32, u32, u8),
) {
    let (words, front, rest) = words;
    let (read, write, status) = fault;
    let input = joined(rt, rt.alloc(), front.text(), rest);
    let ran = run_words(rt, words, input.as_bytes(), &[read], &[write]);
    let (found, is_empty) = (ran.status, ran.text.is_empty());
    drop(ran);
    drop(input);
    assert!(rt;
        found == status && is_empty == (status != 0),
        "{words}, read {read}, write {write}"
    );
}

#[test]
fn answers_a_fault_at_each_call(rt: HostRuntime) {
    for &words in &ANSWERED {
        for &fault in &FAULTS {
            ends_at(&rt, words, fault);
        }
    }
    for &(words, fault) in &REFUSED {
        ends_at(&rt, words, fault);
    }
}

// A later delivery of the same recalls to the same subscribers tells them what was not heard.
#[test]
fn tells_later_what_was_not_heard(rt: HostRuntime) {
    let day = joined(&rt, rt.alloc(), Front::Load.text(), RECALLING);
    let (ran, recalls) = hear(&rt, "day", day.as_bytes(), Notices::Told(""), &[]);
    same(&rt, &ran, 0, RECALLING_JOURNAL, RECALLING);
    let (ran, heard) = hear(&rt, "day", day.as_bytes(), Notices::Unheard, &recalls);
    same(&rt, &ran, 8, RECALLING_JOURNAL, RECALLING);
    assert_eq!(rt; recalls.len(), 1);
    assert!(rt; heard.as_slice() == recalls.as_slice());
}

// Tells an object that writes lines each of some recalls, up to the first that fails, and gives what the sink then holds.
fn lines_of(rt: &impl Abort, alloc: Global, recalls: &[Recall], writes: &[u32]) -> Vec<u8> {
    let mut lines = LineNotice::new(sink_of(rt, alloc, writes));
    for recall in recalls {
        if lines.tell(recall).is_err() {
            break;
        }
    }
    bytes_of(rt, alloc, lines.sink())
}

// A recall of this permit, by the posting of this version.
fn recall(rt: &impl Abort, permit: u32, version: u32, carrier: &[u8]) -> Recall {
    let carrier = Name::new(carrier).expect(rt, "a name");
    Recall {
        permit,
        version,
        carrier,
    }
}

// Which write fails, where 0 is none, and the lines of the recall of permit 2 by posting 1, and then of permit 1 by posting 2.
// Each line is one write: none stands in half.
const LINES: [(u32, &str); 3] = [
    (0, "recall 2 1\nrecall 1 2\n"),
    (1, ""),
    (2, "recall 2 1\n"),
];

#[test]
fn writes_a_line_for_each_recall(rt: HostRuntime) {
    let recalls = [recall(&rt, 2, 1, b"ACME"), recall(&rt, 1, 2, b"BOLT")];
    for &(write, text) in &LINES {
        let lines = lines_of(&rt, rt.alloc(), &recalls, &[write]);
        assert!(rt; lines.as_slice() == text.as_bytes(), "write {write}");
    }
}

// The call that needs no threads leaves a day to the one that does, and touches nothing.
#[test]
fn leaves_a_day_alone(rt: HostRuntime) {
    let words = list_of(&rt, rt.alloc(), "day");
    let mut source = source_of(&rt, rt.alloc(), b"x", &[]);
    let mut sink = sink_of(&rt, rt.alloc(), &[]);
    let alone = run_alone(&rt, &words, &mut source, &mut sink);
    drop(words);
    drop(source);
    let is_empty = sink.bytes().is_empty();
    drop(sink);
    assert_eq!(rt; alone, Alone::Day);
    assert!(rt; is_empty);
}
